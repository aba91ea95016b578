//! The number that a line begins with.

/// What the lines of a command are counted by.
#[derive(Clone, Copy, PartialEq, Eq, Debug)]
pub enum Counted {
    /// By the cycles of a master: `cycle N: ..`.
    Cycles,
    /// By the packets that came to a line: `packet N ..`.
    Packets,
}

impl Counted {
    /// The name of the member that has the number.
    pub fn name(self) -> &'static str {
        match self {
            Counted::Cycles => "cycle",
            Counted::Packets => "packet",
        }
    }

    /// The number that a line begins with, if it does with one of 64 bits at the most.
    pub fn number_of(self, line: &str) -> Option<u64> {
        let (before, behind) = match self {
            Counted::Cycles => ("cycle ", ": "),
            Counted::Packets => ("packet ", " "),
        };
        let rest = line.strip_prefix(before)?;
        let (number, _told) = rest.split_once(behind)?;
        number.parse::<u64>().ok()
    }
}

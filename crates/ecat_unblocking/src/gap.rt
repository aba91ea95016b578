//! Which of the bytes that come are left out.

ghost use Rattle.std.specs.Prelude.{◌≡◌, false, position};
ghost use Rattle.ecat_unblocking.specs.Gaps.{ends_line, gap_behind, passed};

/// What is left out of lines that come in pieces: whole lines, or the rest of one whose beginning went out.
#[derive(Clone, Copy, PartialEq, Eq, Debug)]
pub struct Gap {
    /// Whether what went out last is no end of a line.
    pub is_within: bool,
    /// Whether the end of a line that was cut off has still to go out.
    pub is_cut: bool,
    /// Whether what comes is left out, up to the end of its line.
    pub is_open: bool,
    /// How many lines were left out, or cut off.
    pub lines: u64,
}

impl Gap {
    /// Nothing is left out yet.
    pub fn none() -> Gap
        ensures { result ≡ record { is_within = false; is_cut = false; is_open = false; lines = 0 } }
    {
        Gap {
            is_within: false,
            is_cut: false,
            is_open: false,
            lines: 0,
        }
    }

    /// Leaves out what of bytes belongs to their first line, and answers how many of them that is. With its
    /// end the line is counted.
    pub fn leave_out(&mut self, bytes: &[u8]) -> usize
        ensures passed { result ≡ passed bytes.now (position ends_line bytes.now) }
        ensures gap { self.new ≡ gap_behind self.old (position ends_line bytes.now) }
    {
        self.is_cut = self.is_cut || self.is_within;
        self.is_within = false;
        match end_of_line(bytes) {
            Some(place) => {
                self.is_open = false;
                self.lines = self.lines.saturating_add(1);
                place + 1
            }
            None => {
                self.is_open = true;
                bytes.len()
            }
        }
    }
}

/// Where the first line of some bytes ends, if it does there.
fn end_of_line(bytes: &[u8]) -> Option<usize>
    ensures { result ≡ position ends_line bytes.now }
{
    bytes.iter().position(|byte| ends_line(*byte))
}

/// Does a byte end a line?
fn ends_line(byte: u8) -> bool
    ensures { result ≡ ends_line byte }
{
    byte == b'\n'
}

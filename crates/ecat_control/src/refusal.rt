//! Why a line is refused.

use std::fmt;

/// What is wrong with a line, in the order in which it is looked for.
#[derive(Clone, Copy, PartialEq, Eq, Debug)]
pub enum Fault {
    /// It has more than 1,024 bytes.
    TooLong,
    /// A byte is no ASCII text: only 0x20 to 0x7E are.
    NotText,
    /// Its first word is none of those that are taken.
    UnknownWord,
    /// Too few words, or too many.
    WrongCount,
    /// A number, a row of bytes or a name of another form.
    BadNumber,
    /// The scene has no such signal.
    NoSignal,
    /// A value of another form than the signal's, or one that its bits do not hold.
    BadValue,
    /// More places than a line may have.
    TooMany,
    /// The scene has no such item.
    NoItem,
    /// The item does not write, so it has no outputs.
    NoOutputs,
    /// The item has no such bytes.
    OutOfRange,
    /// A slave is being asked for something else.
    Busy,
    /// It is not taken where it came: it sets outputs or ends the master, and not who asks does that there.
    NotHere,
}

impl Fault {
    /// Its name, as it is printed.
    fn name(self) -> &'static str {
        match self {
            Fault::TooLong => "TooLong",
            Fault::NotText => "NotText",
            Fault::UnknownWord => "UnknownWord",
            Fault::WrongCount => "WrongCount",
            Fault::BadNumber => "BadNumber",
            Fault::NoSignal => "NoSignal",
            Fault::BadValue => "BadValue",
            Fault::TooMany => "TooMany",
            Fault::NoItem => "NoItem",
            Fault::NoOutputs => "NoOutputs",
            Fault::OutOfRange => "OutOfRange",
            Fault::Busy => "Busy",
            Fault::NotHere => "NotHere",
        }
    }
}

/// Why a line is refused: what is wrong with it, and what was wanted in its place. It is printed as
/// `refused: NAME, wanted FORM`.
#[derive(Clone, Copy, PartialEq, Eq, Debug)]
pub struct Refusal {
    /// What is wrong.
    pub fault: Fault,
    /// What was wanted.
    pub wanted: &'static str,
}

impl fmt::Display for Refusal {
    fn fmt<W: fmt::Write>(&self, f: &mut fmt::Formatter<W>) -> fmt::Result {
        let name = self.fault.name();
        let wanted = self.wanted;
        write!(f, "refused: {name}, wanted {wanted}")
    }
}

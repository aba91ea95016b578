//! Which of a master's two ports may have a packet.

/// The ports at which a packet may wait.
#[derive(Clone, Copy, PartialEq, Eq, Debug)]
pub struct Ready {
    /// Whether one may wait at port A.
    pub a: bool,
    /// Whether one may wait at port B.
    pub b: bool,
}

impl Ready {
    /// None of both.
    pub fn none() -> Ready {
        Ready { a: false, b: false }
    }

    /// Both of them.
    pub fn both() -> Ready {
        Ready { a: true, b: true }
    }
}

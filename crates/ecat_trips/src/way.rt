//! Which way a packet went.

/// The way of a frame by the master that sent it.
#[derive(Clone, Copy, PartialEq, Eq, Debug)]
pub enum Way {
    /// From the master to the line.
    Sent,
    /// From the line to the master.
    Returned,
}

/// What tells the way.
#[derive(Clone, Copy, PartialEq, Eq, Debug)]
pub enum By {
    /// Its UDP ports.
    Port,
    /// That it equals the second sent copy of a master with two ports, and comes after it.
    Place,
    /// The mark in its source address.
    Mark,
    /// Its working counters and ADPs.
    Counters,
}

/// The way of a packet, and what tells it.
#[derive(Clone, Copy, PartialEq, Eq, Debug)]
pub struct Told {
    /// The way.
    pub way: Way,
    /// What tells it.
    pub by: By,
}

impl Told {
    ghost use Rattle.std.specs.Prelude.{◌≡◌};
    ghost use Rattle.ecat_trips.specs.Ways.{told_by};

    /// What is told by something: that the packet is on its way back, or that it was sent.
    pub(crate) fn by(by: By, back: bool) -> Told
        ensures { result ≡ told_by by back }
    {
        let way = if back { Way::Returned } else { Way::Sent };
        Told { way, by }
    }
}

//! For how many cycles nothing came at a port.

ghost use Rattle.std.specs.Prelude.{◌≡◌, ◌+◌, ◌-◌, ◌^◌, min, nat_lt};
ghost use Rattle.ecat_remote.specs.Waiting.{halved, since_at};
ghost use Rattle.ecat_remote.specs.declared.silence.TheConstants.{SILENT_CYCLES};

use ec_ring::Port;

/// Behind so many cycles in which nothing came at a port it is taken for one at which nothing comes.
pub(crate) const SILENT_CYCLES: u64 = 100;

/// How many cycles have begun at each port since a packet came there.
#[derive(Clone, Copy)]
pub(crate) struct Silence {
    pub(crate) a: u64,
    pub(crate) b: u64,
}

impl Silence {
    /// No cycle has begun yet.
    pub(crate) fn none() -> Silence
        ensures { result ≡ record { a = 0; b = 0 } }
    {
        Silence { a: 0, b: 0 }
    }

    /// Behind the beginning of a cycle.
    pub(crate) fn in_next(self) -> Silence
        ensures { result ≡ record { a = min (self.a + 1) (2 ^ 64 - 1); b = min (self.b + 1) (2 ^ 64 - 1) } }
    {
        Silence {
            a: self.a.saturating_add(1),
            b: self.b.saturating_add(1),
        }
    }

    /// Behind a packet that came at a port.
    pub(crate) fn ended(self, at: Port) -> Silence
        ensures { since_at at result ≡ 0 }
    {
        match at {
            Port::A => Silence { a: 0, b: self.b },
            Port::B => Silence { a: self.a, b: 0 },
        }
    }

    /// How many cycles have begun since a packet came at a port.
    fn since(self, at: Port) -> u64
        ensures { result ≡ since_at at self }
    {
        match at {
            Port::A => self.a,
            Port::B => self.b,
        }
    }

    /// A time that is halved with each cycle but this one that has begun since a packet came at a port.
    pub(crate) fn halved(self, at: Port, micros: u64) -> u64
        ensures { result ≡ halved (since_at at self) micros }
    {
        let halvings = self.since(at).saturating_sub(1);
        if halvings < 64 { micros >> halvings } else { 0 }
    }

    /// Whether nothing came at a port in the last [`SILENT_CYCLES`] cycles before this one, nor in this one
    /// yet.
    pub(crate) fn is_long(self, at: Port) -> bool
        ensures { result ≡ nat_lt SILENT_CYCLES (since_at at self) }
    {
        SILENT_CYCLES < self.since(at)
    }
}

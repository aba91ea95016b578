//! Whom a datagram asks, and for what.

ghost use Rattle.std.specs.Prelude.{◌≡◌, ◌<◌, length};
ghost use Rattle.ec_wire.specs.Datagram.{nth};
ghost use Rattle.ecat_replay.specs.Findings.{same_part, same_whom};
ghost use Rattle.ecat_replay.specs.Parts.{has_registers, is_clock, part_of, register_of, whom_of};

use ec_wire::{Command, FrameBuf};

/// The first register of distributed clocks (IEC 61158-6-12, attributes of distributed clocks).
const FIRST_OF_CLOCKS: u32 = 0x0900;

/// The first register behind them.
const BEHIND_CLOCKS: u32 = 0x0A00;

/// Where process memory begins, of mailboxes and process data.
pub(crate) const PROCESS_MEMORY: u16 = 0x1000;

/// Whom a datagram asks.
#[derive(Clone, Copy, PartialEq, Eq, Debug)]
pub enum Whom {
    /// All slaves.
    All,
    /// The slave at this place, from 0 on.
    Place(u16),
    /// The slave with this configured station address.
    Station(u16),
    /// Each slave that maps the logical address.
    Mapped,
}

impl Whom {
    /// Whom a command with this ADP asks: each slave counts up an ADP that names a place, and the slave at
    /// that place sees 0.
    fn of(command: Command, adp: u16) -> Whom
        ensures { result ≡ whom_of command adp }
    {
        match command {
            Command::Lrd | Command::Lwr | Command::Lrw => Whom::Mapped,
            Command::Aprd | Command::Apwr | Command::Aprw | Command::Armw => {
                Whom::Place(0u16.wrapping_sub(adp))
            }
            Command::Fprd | Command::Fpwr | Command::Fprw | Command::Frmw => Whom::Station(adp),
            Command::Nop | Command::Brd | Command::Bwr | Command::Brw => Whom::All,
        }
    }

    /// Are the same slaves asked?
    fn is_same(self, other: Whom) -> bool
        ensures { result ≡ same_whom self other }
    {
        match (self, other) {
            (Whom::All, Whom::All) | (Whom::Mapped, Whom::Mapped) => true,
            (Whom::Place(one), Whom::Place(other)) | (Whom::Station(one), Whom::Station(other)) => {
                one == other
            }
            (_, _) => false,
        }
    }

    /// Is an address a register, and no logical address?
    fn has_registers(self) -> bool
        ensures { result ≡ has_registers self }
    {
        !matches!(self, Whom::Mapped)
    }
}

/// A part of a line: whom a datagram asks, and from which address on.
#[derive(Clone, Copy, PartialEq, Eq, Debug)]
pub struct Part {
    /// The command of the datagram.
    pub command: Command,
    /// Whom it asks.
    pub whom: Whom,
    /// The register, 0 to 0xFFFF, or the logical address.
    pub address: u32,
    /// How many bytes it asks for.
    pub count: usize,
}

impl Part {
    /// What the datagram at `k` of a frame asks for.
    #[tactic(auto, unfolding(crate::specs::Parts::part_of))]
    pub fn of(frame: &FrameBuf, k: usize) -> Part
        requires { k < length frame.now }
        ensures { result ≡ part_of (nth frame.now k) }
    {
        let command = frame.command(k);
        let whom = Whom::of(command, frame.adp(k));
        let address = if whom.has_registers() {
            u32::from(frame.ado(k))
        } else {
            frame.address(k)
        };
        Part {
            command,
            whom,
            address,
            count: frame.data(k).len(),
        }
    }

    /// Is it one part of the line?
    pub(crate) fn is_same(&self, other: &Part) -> bool
        ensures { result ≡ same_part self.now other.now }
    {
        self.command.code() == other.command.code()
            && self.whom.is_same(other.whom)
            && self.address == other.address
            && self.count == other.count
    }

    /// Is its address a register of distributed clocks, 0x0900 to 0x09FF?
    pub fn is_clock(&self) -> bool
        ensures { result ≡ is_clock self.now }
    {
        self.whom.has_registers() && FIRST_OF_CLOCKS <= self.address && self.address < BEHIND_CLOCKS
    }

    /// The register where it begins, where it has one.
    pub(crate) fn register(&self) -> Option<u16>
        ensures { result ≡ register_of self.now }
    {
        if self.whom.has_registers() {
            u16::try_from(self.address).ok()
        } else {
            None
        }
    }
}

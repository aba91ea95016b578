//! What a capture shows and a scene cannot say.

ghost use Rattle.std.specs.Prelude.{◌<◌, length};

use crate::whom::{Whom, meant_by};
use ec_wire::{Command, FrameBuf};

/// How many kinds there are.
pub(crate) const KINDS: usize = 7;

/// What stands in registers that a scene does not have (IEC 61158-4-12, registers of the data link layer).
const REGISTERS: [Kind; KINDS] = [
    Kind {
        name: "DL control",
        from: 0x0100,
        to: 0x0110,
    },
    Kind {
        name: "watchdogs",
        from: 0x0400,
        to: 0x0444,
    },
    Kind {
        name: "SII",
        from: 0x0500,
        to: 0x0510,
    },
    Kind {
        name: "FMMUs from 8 on",
        from: 0x0680,
        to: 0x0700,
    },
    Kind {
        name: "sync managers from 8 on",
        from: 0x0840,
        to: 0x0880,
    },
    Kind {
        name: "clocks",
        from: 0x0900,
        to: 0x0a00,
    },
    Kind {
        name: "APRW, FPRW",
        from: 0,
        to: 0,
    },
];

/// The place of the commands that read and write.
const BOTH: usize = 6;

/// Registers of one kind.
#[derive(Clone, Copy)]
struct Kind {
    name: &'static str,
    from: u16,
    to: u16,
}

/// How many datagrams of a kind there were.
#[derive(Clone, Copy)]
pub(crate) struct Seen {
    /// How many.
    pub times: u64,
    /// The packet of the first one.
    pub packet: u64,
}

/// What a scene cannot say.
#[derive(Clone, Copy)]
pub(crate) struct LeftOut {
    seen: [Seen; KINDS],
}

/// The place of the kind of an address: of registers that are read as well, or written alone.
fn kind_of(register: u16) -> Option<usize> {
    REGISTERS
        .iter()
        .position(|kind| kind.from <= register && register < kind.to)
}

/// The name of a kind.
pub(crate) fn name_of(place: usize) -> &'static str {
    match REGISTERS.get(place) {
        Some(kind) => kind.name,
        None => "",
    }
}

impl LeftOut {
    /// Nothing was seen.
    pub(crate) fn new() -> LeftOut {
        LeftOut {
            seen: [Seen {
                times: 0,
                packet: 0,
            }; KINDS],
        }
    }

    /// Takes datagram `k` of a frame that was sent in a packet.
    pub(crate) fn take(&mut self, sent: &FrameBuf, k: usize, packet: u64)
        requires { k < length sent.now }
    {
        let command = sent.command(k);
        let place = match command {
            Command::Aprw | Command::Fprw => Some(BOTH),
            Command::Brw | Command::Armw | Command::Frmw => None,
            _ => match meant_by(command) {
                Whom::Nobody => None,
                Whom::Place | Whom::Station | Whom::Everybody => kind_of(sent.ado(k)),
            },
        };
        if let Some(place) = place {
            self.count(place, packet);
        }
    }

    /// Counts one of a kind.
    fn count(&mut self, place: usize, packet: u64) {
        if let Some(seen) = self.seen.get_mut(place) {
            if seen.times == 0 {
                seen.packet = packet;
            }
            seen.times = seen.times.saturating_add(1);
        }
    }

    /// How many of each kind there were, in the order of their addresses.
    pub(crate) fn seen(&self) -> &[Seen] {
        &self.seen
    }
}

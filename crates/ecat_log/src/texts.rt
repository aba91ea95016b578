//! The texts of a log.

ghost use Rattle.std.specs.Prelude.{Some};
ghost use Rattle.ecat_log.specs.Texts.{addressed_words, command_words, counter_words, datagram_words};
ghost use Rattle.ec_wire.specs.Command.{addressing};
ghost use Rattle.ecat_log.specs.Texts.{dropped_words, end_words, fault_words, hint_words, kind_words};
ghost use Rattle.ecat_log.specs.Texts.{cable_words, leaving_words, packet_words, plug_words, served_words};
ghost use Rattle.ecat_log.specs.Texts.{speaker_words};

use crate::hint::Hint;
use ec_ring::Port;
use ec_wire::{Addressing, Command, FaultKind, WireFault, ado_of, adp_of};
use ecat_serve::Leaving;
use std::fmt;
use std::net::SocketAddr;

/// An end of a line, as it is told.
#[derive(Drop)]
struct EndText(Port);

impl fmt::Display for EndText {
    ghost output = { λ end. Some (end_words end.0) };

    fn fmt<W: fmt::Write>(&self, f: &mut fmt::Formatter<W>) -> fmt::Result {
        match self.0 {
            Port::A => write!(f, "A"),
            Port::B => write!(f, "B"),
        }
    }
}

/// Somebody who speaks at an end.
#[derive(Drop)]
pub struct SpeakerText {
    /// The end.
    pub at: Port,
    /// His address.
    pub who: SocketAddr,
}

impl fmt::Display for SpeakerText {
    ghost output = { λ speaker. Some (speaker_words speaker.at speaker.who) };

    #[tactic(auto, unfolding(crate::specs::Texts::speaker_words))]
    fn fmt<W: fmt::Write>(&self, f: &mut fmt::Formatter<W>) -> fmt::Result {
        let at = EndText(self.at);
        let who = self.who;
        write!(f, "speaker {at} {who}")
    }
}

/// Whether a cable is plugged in, and which link of the line is as it is.
#[derive(Drop)]
struct PlugText {
    is_plugged: bool,
    link: usize,
}

impl fmt::Display for PlugText {
    ghost output = { λ text. Some (plug_words text.is_plugged text.link) };

    fn fmt<W: fmt::Write>(&self, f: &mut fmt::Formatter<W>) -> fmt::Result {
        let link = self.link;
        if self.is_plugged {
            write!(f, "carrier again: link {link} up")
        } else {
            write!(f, "no carrier: link {link} down")
        }
    }
}

/// The cable at an end that was pulled or plugged in.
#[derive(Drop)]
pub struct CableText {
    /// The end.
    pub at: Port,
    /// Whether it is plugged in now.
    pub is_plugged: bool,
    /// Which link of the line is up or down with it.
    pub link: usize,
}

impl fmt::Display for CableText {
    ghost output = { λ cable. Some (cable_words cable.at cable.is_plugged cable.link) };

    #[tactic(auto, unfolding(crate::specs::Texts::cable_words))]
    fn fmt<W: fmt::Write>(&self, f: &mut fmt::Formatter<W>) -> fmt::Result {
        let at = EndText(self.at);
        let plug = PlugText {
            is_plugged: self.is_plugged,
            link: self.link,
        };
        write!(f, "end {at}: {plug}")
    }
}

/// A packet, before what became of it.
#[derive(Drop)]
pub struct PacketText {
    /// Its number.
    pub number: u64,
    /// The end where it came in.
    pub at: Port,
    /// How many bytes it has.
    pub size: usize,
}

impl fmt::Display for PacketText {
    ghost output = { λ packet. Some (packet_words packet.number packet.at packet.size) };

    #[tactic(auto, unfolding(crate::specs::Texts::packet_words))]
    fn fmt<W: fmt::Write>(&self, f: &mut fmt::Formatter<W>) -> fmt::Result {
        let number = self.number;
        let at = EndText(self.at);
        let size = self.size;
        write!(f, "packet {number} {at} size {size}")
    }
}

/// The address of a datagram, as its command has it.
#[derive(Drop)]
struct AddressText {
    addressing: Addressing,
    address: u32,
}

impl fmt::Display for AddressText {
    ghost output = { λ text. Some (addressed_words text.addressing text.address) };

    fn fmt<W: fmt::Write>(&self, f: &mut fmt::Formatter<W>) -> fmt::Result {
        let address = self.address;
        match self.addressing {
            Addressing::Logical => write!(f, "log {address:08x}"),
            Addressing::Nobody
            | Addressing::AutoIncrement
            | Addressing::ConfiguredStation
            | Addressing::All => {
                let adp = adp_of(address);
                let ado = ado_of(address);
                write!(f, "adp {adp:04x} ado {ado:04x}")
            }
        }
    }
}

/// A command and its address.
#[derive(Drop)]
struct CommandText {
    command: Command,
    address: u32,
}

impl fmt::Display for CommandText {
    ghost output = { λ text. Some (command_words text.command text.address) };

    #[tactic(auto, unfolding(crate::specs::Texts::command_words))]
    fn fmt<W: fmt::Write>(&self, f: &mut fmt::Formatter<W>) -> fmt::Result {
        let name = self.command.name();
        let address = AddressText {
            addressing: self.command.addressing(),
            address: self.address,
        };
        write!(f, "{name} {address}")
    }
}

/// A counter as it came and as it arrived, if it did.
#[derive(Drop)]
struct CounterText {
    came: u16,
    back: Option<u16>,
}

impl fmt::Display for CounterText {
    ghost output = { λ counter. Some (counter_words counter.came counter.back) };

    fn fmt<W: fmt::Write>(&self, f: &mut fmt::Formatter<W>) -> fmt::Result {
        let came = self.came;
        match self.back {
            Some(back) => write!(f, "{came}>{back}"),
            None => write!(f, "{came}>-"),
        }
    }
}

/// The length of a datagram's data, and its counter.
#[derive(Drop)]
struct ServedText {
    length: usize,
    came: u16,
    back: Option<u16>,
}

impl fmt::Display for ServedText {
    ghost output = { λ text. Some (served_words text.length text.came text.back) };

    #[tactic(auto, unfolding(crate::specs::Texts::served_words))]
    fn fmt<W: fmt::Write>(&self, f: &mut fmt::Formatter<W>) -> fmt::Result {
        let length = self.length;
        let counter = CounterText {
            came: self.came,
            back: self.back,
        };
        write!(f, "length {length} counter {counter}")
    }
}

/// A datagram.
#[derive(Drop)]
pub struct DatagramText {
    /// Its command.
    pub command: Command,
    /// Its address, as it came.
    pub address: u32,
    /// How many bytes of data it has.
    pub length: usize,
    /// Its counter, as it came.
    pub came: u16,
    /// Its counter as it arrived, if it did.
    pub back: Option<u16>,
}

impl fmt::Display for DatagramText {
    ghost output = { λ text. Some (datagram_words text) };

    fn fmt<W: fmt::Write>(&self, f: &mut fmt::Formatter<W>) -> fmt::Result {
        let command = CommandText {
            command: self.command,
            address: self.address,
        };
        let served = ServedText {
            length: self.length,
            came: self.came,
            back: self.back,
        };
        write!(f, "{command} {served}")
    }
}

/// What became of a frame.
#[derive(Drop)]
pub struct LeavingText(pub Leaving);

impl fmt::Display for LeavingText {
    ghost output = { λ text. Some (leaving_words text.0) };

    fn fmt<W: fmt::Write>(&self, f: &mut fmt::Formatter<W>) -> fmt::Result {
        match self.0 {
            Leaving::Nowhere => write!(f, "left nowhere"),
            Leaving::Lost(at) => {
                let at = EndText(at);
                write!(f, "lost at {at}")
            }
            Leaving::Unheard(at) => {
                let at = EndText(at);
                write!(f, "nobody at {at}")
            }
            Leaving::Left(at) => {
                let at = EndText(at);
                write!(f, "left {at}")
            }
        }
    }
}

/// The kind of a fault by its name.
#[derive(Drop)]
struct KindText(FaultKind);

impl fmt::Display for KindText {
    ghost output = { λ kind. Some (kind_words kind.0) };

    fn fmt<W: fmt::Write>(&self, f: &mut fmt::Formatter<W>) -> fmt::Result {
        f.write_str(match self.0 {
            FaultKind::Short => "Short",
            FaultKind::BadType => "BadType",
            FaultKind::Reserved => "Reserved",
            FaultKind::Empty => "Empty",
            FaultKind::TooLong => "TooLong",
            FaultKind::BadCommand => "BadCommand",
            FaultKind::Overrun => "Overrun",
            FaultKind::MoreAtEnd => "MoreAtEnd",
            FaultKind::LeftOver => "LeftOver",
            FaultKind::Trailing => "Trailing",
        })
    }
}

/// A fault and where it is.
#[derive(Drop)]
pub struct FaultText(pub WireFault);

impl fmt::Display for FaultText {
    ghost output = { λ text. Some (fault_words text.0) };

    #[tactic(auto, unfolding(crate::specs::Texts::fault_words))]
    fn fmt<W: fmt::Write>(&self, f: &mut fmt::Formatter<W>) -> fmt::Result {
        let kind = KindText(self.0.kind);
        let at = self.0.at;
        write!(f, "{kind} at {at}")
    }
}

/// What a packet looks like that is no frame in the UDP form.
#[derive(Drop)]
struct HintText(Hint);

impl fmt::Display for HintText {
    ghost output = { λ text. Some (hint_words text.0) };

    fn fmt<W: fmt::Write>(&self, f: &mut fmt::Formatter<W>) -> fmt::Result {
        f.write_str(match self.0 {
            Hint::Padded => " padded",
            Hint::Ethernet => " ethernet",
            Hint::Neither => "",
        })
    }
}

/// Why a packet was dropped.
#[derive(Drop)]
pub struct DroppedText {
    /// Its first fault.
    pub fault: WireFault,
    /// What it looks like.
    pub hint: Hint,
}

impl fmt::Display for DroppedText {
    ghost output = { λ text. Some (dropped_words text.fault text.hint) };

    #[tactic(auto, unfolding(crate::specs::Texts::dropped_words))]
    fn fmt<W: fmt::Write>(&self, f: &mut fmt::Formatter<W>) -> fmt::Result {
        let fault = FaultText(self.fault);
        let hint = HintText(self.hint);
        write!(f, "dropped {fault}{hint}")
    }
}

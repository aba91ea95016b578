//! What is noted of all packets of a capture beside their frames: which were cut, and which stand out of the
//! order of their times.

ghost use Rattle.std.specs.Prelude.{◌≡◌, ◌<◌, ◌∷◌, ◌++◌, [], List, ℕ, length};
ghost use Rattle.ecat_frames.specs.Notes.{AreCut, is_older, says_frame, with_time};

use ec_wire::{FaultKind, Form, FrameBuf};
use ecat_capture::{Packet, Payload, Time, payload_of};
use std::io::Write;

/// More bytes than a packet has.
const MOST: u32 = 4_294_967_295;

/// What helps where one way of a line alone was captured.
pub const UNJOINED: &[u8] =
    b"one way of the line alone is in this capture: mergecap joins it with one of the other way\n";

/// Packets of which only the first bytes were captured.
#[derive(Clone, Copy)]
pub struct CutPackets {
    /// How many, up to 2^64 - 1.
    pub count: u64,
    /// How many bytes at least of one were captured.
    pub least: u32,
    /// And at most.
    pub greatest: u32,
}

impl CutPackets {
    /// None yet.
    pub fn new() -> CutPackets
        ensures { AreCut [] result }
    {
        CutPackets {
            count: 0,
            least: MOST,
            greatest: 0,
        }
    }

    /// Are there some?
    pub fn are_there(&self) -> bool {
        0 < self.count
    }

    /// Takes one of which so many bytes were captured.
    pub fn take(&mut self, captured: u32)
        ensures { (all : List ℕ) → AreCut all self.old → AreCut (all ++ captured ∷ []) self.new }
    {
        self.count = self.count.saturating_add(1);
        self.least = self.least.min(captured);
        self.greatest = self.greatest.max(captured);
    }

    /// Tells how many there are, if any, and behind how many bytes they are cut. A write that fails is passed
    /// over.
    fn tell<V: Write>(&self, err: &mut V) {
        let count = self.count;
        let least = self.least;
        let greatest = self.greatest;
        let _ = match count {
            0 => Ok(()),
            1 => writeln!(
                err,
                "1 packet is cut at {least} bytes: nothing of its counters is known"
            ),
            _ if least == greatest => writeln!(
                err,
                "{count} packets are cut at {least} bytes: nothing of their counters is known"
            ),
            _ => writeln!(
                err,
                "{count} packets are cut at {least} to {greatest} bytes: nothing of their counters is known"
            ),
        };
    }
}

/// Packets that are older than the one before.
#[derive(Clone, Copy)]
pub struct OldPackets {
    /// How many, up to 2^64 - 1.
    pub times: u64,
    /// When the packet was captured that was taken last: whole seconds since the epoch.
    pub seconds: u64,
    /// And the nanoseconds behind them.
    pub nanoseconds: u64,
}

impl OldPackets {
    /// No packet was taken.
    pub fn new() -> OldPackets
        ensures { result ≡ record { times = 0; seconds = 0; nanoseconds = 0 } }
    {
        OldPackets {
            times: 0,
            seconds: 0,
            nanoseconds: 0,
        }
    }

    /// Is a packet of this time older than the one that was taken last?
    fn is_older(&self, time: Time) -> bool
        ensures { result ≡ is_older time self.now }
    {
        time.seconds < self.seconds
            || time.seconds == self.seconds && time.nanoseconds < self.nanoseconds
    }

    /// Takes a packet of this time.
    pub fn take(&mut self, time: Time)
        ensures { self.new ≡ with_time time self.old }
    {
        if self.is_older(time) {
            self.times = self.times.saturating_add(1);
        }
        self.seconds = time.seconds;
        self.nanoseconds = time.nanoseconds;
    }

    /// Tells how many there are, if any. A write that fails is passed over.
    fn tell<V: Write>(&self, err: &mut V) {
        let times = self.times;
        let _ = match times {
            0 => Ok(()),
            1 => writeln!(
                err,
                "1 packet is older than the one before: reordercap puts them in order"
            ),
            _ => writeln!(
                err,
                "{times} packets are older than the one before: reordercap puts them in order"
            ),
        };
    }
}

/// Says the front of a UDP payload of this length that it is a frame of datagrams? So it does where its
/// header has their type and length (IEC 61158-4-12, the EtherCAT header).
pub fn says_frame(front: &[u8], length: usize) -> bool
    ensures { result ≡ says_frame front.now length }
{
    if front.len() < 2 {
        return false;
    }
    let says = u16::from(front[0]) + 256 * u16::from(front[1]);
    says / 2048 == 2 && usize::from(says % 2048) + 2 == length
}

/// The length of the payload that the UDP header in front of a place says.
fn length_before(bytes: &[u8], from: usize) -> Option<usize> {
    let at = from.checked_sub(4)?;
    match bytes.get(at..)? {
        [a, b, ..] => usize::from(u16::from_be_bytes([*a, *b])).checked_sub(8),
        _ => None,
    }
}

/// Says the UDP packet with the payload from a place on that it has a frame, though not all of it was
/// captured?
pub fn is_cut_frame(packet: &Packet, bytes: &[u8], from: usize, to: usize) -> bool {
    if packet.original <= packet.captured {
        return false;
    }
    match (bytes.get(from..to), length_before(bytes, from)) {
        (Some(front), Some(length)) => says_frame(front, length),
        (_, _) => false,
    }
}

/// Ends a payload inside a frame?
fn is_short(payload: Option<&[u8]>, form: Form, frame: &mut FrameBuf) -> bool {
    match payload {
        Some(payload) => match frame.refill(payload, form) {
            Ok(()) => false,
            Err(fault) => fault.kind == FaultKind::Short,
        },
        None => false,
    }
}

/// Ends a packet that was cut in front of the frame that it has, or inside it? The frame in that place means
/// nothing behind it.
fn lacks_frame(packet: &Packet, bytes: &[u8], frame: &mut FrameBuf) -> bool {
    match payload_of(packet.link, bytes) {
        Payload::Short => true,
        Payload::Ethernet { from, to } => is_short(bytes.get(from..to), Form::Ethernet, frame),
        Payload::Udp { from, to } => is_short(bytes.get(from..to), Form::Udp, frame),
        Payload::OtherUdp { from, to } => {
            is_cut_frame(packet, bytes, from, to) && is_short(bytes.get(from..to), Form::Udp, frame)
        }
        Payload::Fragment | Payload::BadLength | Payload::Other => false,
    }
}

/// What is noted of all packets of a capture.
#[derive(Clone, Copy)]
pub struct Notes {
    /// Those that were cut, as far as they may be of EtherCAT.
    pub cut: CutPackets,
    /// Those that are older than the one before.
    pub old: OldPackets,
}

impl Notes {
    /// Of no packet.
    pub(crate) fn new() -> Notes {
        Notes {
            cut: CutPackets::new(),
            old: OldPackets::new(),
        }
    }

    /// Takes a packet. The frame in that place means nothing behind it.
    pub(crate) fn take(&mut self, packet: &Packet, bytes: &[u8], frame: &mut FrameBuf) {
        if let Some(time) = packet.time {
            self.old.take(time);
        }
        if packet.captured < packet.original {
            self.take_cut(packet, bytes, frame);
        }
    }

    /// Takes a packet of which not all bytes were captured.
    #[inline(never)]
    fn take_cut(&mut self, packet: &Packet, bytes: &[u8], frame: &mut FrameBuf) {
        if lacks_frame(packet, bytes, frame) {
            self.cut.take(packet.captured);
        }
    }

    /// Tells a person what is to be known of the packets, if anything is: that some were cut, and that some
    /// stand out of the order of their times. A write that fails is passed over.
    pub fn tell<V: Write>(&self, err: &mut V) {
        self.cut.tell(err);
        self.old.tell(err);
    }
}

//! Somebody who watches a line and writes a line of text for each packet.

ghost use Rattle.std.specs.Prelude.{◌<◌, length};

use crate::hint::hint_of;
use crate::texts::{CableText, DatagramText, DroppedText, LeavingText, PacketText, SpeakerText};
use arrayvec::{ArrayString, ArrayVec};
use ec_wire::{Form, FrameBuf, WireFault};
use ecat_serve::{Arrived, Cable, Leaving, Watch};
use std::fmt::{Display, Write as _};
use std::io::Write;

/// The bytes that are gathered before they are written.
const ROOM: usize = 4096;

/// The most bytes of a part of a line.
const PART: usize = 128;

/// A log over a writer. Each line goes out as soon as it is whole, in one write unless it has more than 4,096
/// bytes. A fault of the writer is passed over.
#[derive(Drop)]
pub struct Log<'a, W> {
    out: &'a mut W,
    gathered: ArrayVec<u8, ROOM>,
    next: u64,
}

impl<'a, W: Write> Log<'a, W> {
    /// A log to which no packet has come.
    pub fn new(out: &'a mut W) -> Log<'a, W> {
        Log {
            out,
            gathered: ArrayVec::new(),
            next: 0,
        }
    }

    /// Puts bytes to the line.
    fn bytes(&mut self, bytes: &[u8]) {
        if self.gathered.try_extend_from_slice(bytes).is_ok() {
            return;
        }
        self.flush();
        let _ = self.gathered.try_extend_from_slice(bytes);
    }

    /// Writes what was gathered.
    fn flush(&mut self) {
        let _ = self.out.write_all(self.gathered.as_slice());
        self.gathered.clear();
    }

    /// Puts a text to the line.
    fn text(&mut self, text: impl Display + Drop) {
        let mut part = ArrayString::<PART>::new();
        let _ = write!(part, "{text}");
        self.bytes(part.as_str().as_bytes());
    }

    /// Ends a line.
    fn end(&mut self) {
        self.bytes(b"\n");
        self.flush();
    }

    /// Puts the packet that came next to the line.
    fn packet(&mut self, arrived: &Arrived, packet: &[u8]) {
        self.text(PacketText {
            number: self.next,
            at: arrived.at,
            size: packet.len(),
        });
        self.next = self.next.saturating_add(1);
        self.bytes(b" ");
    }

    /// Puts the datagrams of a frame to the line.
    fn datagrams(&mut self, came: &FrameBuf, back: Option<&FrameBuf>) {
        for k in 0..came.count() {
            self.bytes(if k == 0 { b" " } else { b", " });
            self.text(datagram(came, back, k));
        }
    }
}

/// Somebody who writes a line for each cable that is pulled or plugged in, and none for packets. A fault of
/// the writer is passed over.
#[derive(Drop)]
pub struct Cables<'a, W> {
    out: &'a mut W,
}

impl<'a, W: Write> Cables<'a, W> {
    /// One who writes there.
    pub fn new(out: &'a mut W) -> Cables<'a, W> {
        Cables { out }
    }
}

impl<W: Write> Watch for Cables<'_, W> {
    fn speaker(&mut self, _arrived: &Arrived) {}

    fn frame(
        &mut self,
        _arrived: &Arrived,
        _packet: &[u8],
        _back: Option<&FrameBuf>,
        _leaving: Leaving,
    ) {}

    fn cable(&mut self, cable: Cable, link: usize) {
        Log::new(self.out).cable(cable, link);
    }

    fn dropped(&mut self, _arrived: &Arrived, _packet: &[u8], _fault: WireFault) {}
}

impl<W: Write> Watch for Log<'_, W> {
    fn speaker(&mut self, arrived: &Arrived) {
        self.text(SpeakerText {
            at: arrived.at,
            who: arrived.from,
        });
        self.end();
    }

    fn frame(
        &mut self,
        arrived: &Arrived,
        packet: &[u8],
        back: Option<&FrameBuf>,
        leaving: Leaving,
    ) {
        self.packet(arrived, packet);
        self.bytes(b"frame");
        if let Ok(came) = FrameBuf::read(packet, Form::Udp) {
            self.datagrams(&came, back);
        }
        self.bytes(b" ");
        self.text(LeavingText(leaving));
        self.end();
    }

    fn cable(&mut self, cable: Cable, link: usize) {
        self.text(CableText {
            at: cable.at,
            is_plugged: cable.is_plugged,
            link,
        });
        self.end();
    }

    fn dropped(&mut self, arrived: &Arrived, packet: &[u8], fault: WireFault) {
        self.packet(arrived, packet);
        self.text(DroppedText {
            fault,
            hint: hint_of(packet),
        });
        self.end();
    }
}

/// What is told of a datagram.
fn datagram(came: &FrameBuf, back: Option<&FrameBuf>, k: usize) -> DatagramText
    requires { k < length came.now }
{
    DatagramText {
        command: came.command(k),
        address: came.address(k),
        length: came.data(k).len(),
        came: came.counter(k),
        back: counter(back, k),
    }
}

/// The counter of a datagram as it arrived, if it did.
fn counter(back: Option<&FrameBuf>, k: usize) -> Option<u16> {
    match back {
        Some(frame) if k < frame.count() => Some(frame.counter(k)),
        _ => None,
    }
}

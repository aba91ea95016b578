//! The frames of a capture, one after the other.

ghost use Rattle.std.specs.Prelude.{◌<◌, ◌≤◌, length};

use crate::ends::{Ends, Peers};
use crate::looking::Looked;
use crate::notes::Notes;
use crate::packet::{any_frame, read_packet, time_of};
use ec_wire::FrameBuf;
use ecat_capture::{Capture, CaptureFault, CaptureFaultKind, Packet};
use ecat_source::Source;
use ecat_trips::{Marks, Outline};
use std::alloc::{AllocError, Global};
use std::io::Write;

/// How many frames of a stream decide which addresses bear the mark.
pub const HELD: usize = 4096;

/// How a reading ended.
#[derive(Clone, Copy, Debug, PartialEq, Eq)]
pub enum End {
    /// The capture has ended, or was read as far as it was asked for.
    Whole,
    /// It is damaged at a place.
    Damaged(CaptureFault),
    /// A read of the source failed.
    SourceFailed,
    /// Memory ran out.
    NoMemory,
}

/// How a reading ended whose capture has a fault.
pub(crate) fn end_of(fault: CaptureFault) -> End {
    match fault.kind {
        CaptureFaultKind::Read => End::SourceFailed,
        CaptureFaultKind::NoMemory => End::NoMemory,
        _ => End::Damaged(fault),
    }
}

/// A frame that is held.
#[derive(Drop)]
struct HeldFrame {
    outline: Outline,
    peers: Option<Peers>,
    frame: FrameBuf,
}

/// What is told of all packets that were read, also of those without a frame.
#[derive(Clone, Copy)]
struct Packets {
    count: u64,
    first_time: Option<u64>,
    is_fine: bool,
}

impl Packets {
    /// No packet was read.
    fn new() -> Packets {
        Packets {
            count: 0,
            first_time: None,
            is_fine: false,
        }
    }

    /// One more packet was read.
    fn take(&mut self, packet: &Packet) {
        self.count = self.count.saturating_add(1);
        if self.first_time.is_none() {
            self.first_time = time_of(packet);
        }
        self.is_fine = self.is_fine || packet.time.is_some_and(|time| time.fine);
    }
}

/// The peers of a packet with this outline, if it came by UDP.
fn peers_of(packet: &Packet, bytes: &[u8], outline: &Outline) -> Option<Peers> {
    match outline.ports {
        Some(ports) => Some(Peers::of(packet, bytes, ports)),
        None => None,
    }
}

/// The frames that a capture has ahead, each with its packet.
#[derive(Drop)]
pub struct Frames<S: Source> {
    capture: Capture<S>,
    /// The number of the packet at which the reading ends, if it does in front of the end.
    before: u64,
    /// Is it a stream? Of a file the packets were noted before.
    is_stream: bool,
    notes: Notes,
    marks: Marks,
    /// The ends of lines that are reached by UDP.
    ends: Ends,
    /// The peers of the packet that was read last, if it came by UDP.
    peers: Option<Peers>,
    /// Frames of a stream that were read to tell the ways, and how many of them were given.
    held: Vec<HeldFrame>,
    given: usize,
    /// The frame that was read last.
    frame: FrameBuf,
    /// Is it the one that was given last? Else that one is held.
    is_read: bool,
    /// How the reading ended, if it has.
    ended: Option<End>,
    packets: Packets,
}

impl<S: Source + Drop> Frames<S> {
    /// The frames of a file, whose first reading was looked at; of those in front of a packet, where one is
    /// named.
    pub fn of_file(alloc: Global, source: S, looked: Looked, before: Option<u64>) -> Frames<S> {
        let notes = *looked.notes();
        let (marks, ends) = looked.end();
        Frames {
            capture: Capture::new(alloc, source),
            before: before.unwrap_or(u64::MAX),
            is_stream: false,
            notes,
            marks,
            ends,
            peers: None,
            held: Vec::new(alloc),
            given: 0,
            frame: any_frame(),
            is_read: false,
            ended: None,
            packets: Packets::new(),
        }
    }

    /// The frames of a stream, the first 4,096 of which are held; of those in front of a packet, where one is
    /// named.
    pub fn of_stream(
        alloc: Global,
        source: S,
        before: Option<u64>,
    ) -> Result<Frames<S>, AllocError> {
        let mut frames = Frames::of_file(alloc, source, Looked::new(), before);
        frames.is_stream = true;
        let mut looked = Looked::new();
        frames.hold(&mut looked)?;
        let (marks, ends) = looked.end();
        frames.marks = marks;
        frames.ends = ends;
        Ok(frames)
    }

    /// Begins again with another reading of the same capture.
    pub fn begin_again(&mut self, alloc: Global, source: S) {
        self.capture = Capture::new(alloc, source);
        self.held.clear();
        self.given = 0;
        self.is_read = false;
        self.ended = None;
        self.packets = Packets::new();
    }

    /// Holds the first frames, and looks at them.
    fn hold(&mut self, looked: &mut Looked) -> Result<(), AllocError> {
        for _ in 0..HELD {
            match self.read() {
                Some(outline) => {
                    let peers = self.peers;
                    looked.take(&outline, peers, &self.frame);
                    let frame = self.frame.copy();
                    self.held.push(HeldFrame {
                        outline,
                        peers,
                        frame,
                    })?;
                }
                None => break,
            }
        }
        Ok(())
    }

    /// Reads the next packet with a frame.
    fn read(&mut self) -> Option<Outline> {
        if self.ended.is_some() {
            return None;
        }
        for _ in 0..u64::MAX {
            match self.capture.next() {
                Ok(Some(packet)) => {
                    if self.before <= packet.number {
                        break;
                    }
                    self.packets.take(&packet);
                    if self.is_stream {
                        self.notes
                            .take(&packet, self.capture.bytes(), &mut self.frame);
                    }
                    match read_packet(&packet, self.capture.bytes(), &mut self.frame) {
                        Some(outline) => {
                            self.peers = peers_of(&packet, self.capture.bytes(), &outline);
                            return Some(outline);
                        }
                        None => {}
                    }
                }
                Ok(None) => break,
                Err(fault) => {
                    self.ended = Some(end_of(fault));
                    return None;
                }
            }
        }
        self.ended = Some(End::Whole);
        None
    }

    /// The next packet that has a frame, if one is ahead.
    pub fn next(&mut self) -> Option<Outline> {
        match self.held.get(self.given) {
            Some(held) => {
                self.given = self.given.saturating_add(1);
                self.is_read = false;
                match held.peers {
                    Some(peers) => Some(self.ends.told(&held.outline, peers)),
                    None => Some(held.outline),
                }
            }
            None => {
                self.is_read = true;
                let outline = self.read()?;
                match self.peers {
                    Some(peers) => Some(self.ends.told(&outline, peers)),
                    None => Some(outline),
                }
            }
        }
    }

    /// The frame of the packet that was given last.
    pub fn frame(&self) -> &FrameBuf {
        if self.is_read {
            return &self.frame;
        }
        match self.held.get(self.given.saturating_sub(1)) {
            Some(held) => &held.frame,
            None => &self.frame,
        }
    }

    /// What tells the ways of the packets.
    pub fn marks(&self) -> &Marks {
        &self.marks
    }

    /// How many packets were read, with a frame or without; of a stream those of the held frames at first.
    pub fn packets(&self) -> u64 {
        self.packets.count
    }

    /// When the first packet that has a time was captured, in nanoseconds of the epoch.
    pub fn first_time(&self) -> Option<u64> {
        self.packets.first_time
    }

    /// Does some packet that was read have a time in nanoseconds?
    pub fn is_fine(&self) -> bool {
        self.packets.is_fine
    }

    /// Tells a person what was noted of the packets: of a file in front of its frames, of a stream at its
    /// end, since only then all is known. A write that fails is passed over.
    pub fn tell_notes<V: Write>(&self, at_end: bool, err: &mut V) {
        if at_end == self.is_stream {
            self.notes.tell(err);
        }
    }

    /// What was noted of the packets; of a stream of those that were read.
    pub fn notes(&self) -> &Notes {
        &self.notes
    }

    /// How the reading ended; before it has, [`End::Whole`].
    pub fn end(&self) -> End {
        self.ended.unwrap_or(End::Whole)
    }
}

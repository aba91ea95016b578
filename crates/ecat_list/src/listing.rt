//! `ecat list`: what is told of each packet of a capture.
ghost use Rattle.std.specs.Prelude.{◌≡◌, ◌++◌, OnOk};
ghost use Rattle.ecat_list.specs.Line.{lines_words};
ghost use Rattle.ecat_list.specs.Listing.{noted_words, told_words};
ghost use Rattle.ecat_list.specs.Note.{note_line_words};

use crate::cut::{CutDatagram, refill_front};
use crate::cut_packets::lead_cut;
use crate::line::{CSV_HEAD, Head, Note, Since, Style, any_frame, put_datagrams, put_note};
use crate::output::{Output, Stop};
use crate::row::Row;
use ec_wire::{FaultKind, Form as Carrier, FrameBuf, WireFault};
use ecat_capture::{
    Capture, CaptureFault, CaptureFaultKind, Link, Packet, Payload, Time, frame_type, payload_of,
};
use ecat_frames::{CutPackets, is_cut_frame};
use ecat_source::Source;
use std::alloc::Global;
use std::io::Write;

/// What is told of a capture.
#[derive(Clone, Copy, Debug, PartialEq, Eq)]
pub enum Form {
    /// A line a datagram, its columns parted by spaces.
    Lines,
    /// A line a datagram as CSV, with a line of names first.
    Csv,
    /// The packets alone that are damaged or cut short.
    Faults,
}

/// How a capture is listed.
#[derive(Clone, Copy, Debug, PartialEq, Eq)]
pub struct Asked {
    /// What is told.
    pub form: Form,
    /// Are the lines of each packet written at once, as a terminal and a reader who follows want it, or in
    /// pieces of 64 KiB?
    pub live: bool,
    /// Is it told now and then, on the second writer, how many packets were read?
    pub progress: bool,
}

/// How a listing ended.
#[derive(Clone, Copy, Debug, PartialEq, Eq)]
pub enum Listed {
    /// The whole capture was read.
    Whole,
    /// The capture is damaged at this place, and all before it was told.
    Damaged(CaptureFault),
    /// A read of the source failed, and all that came before it was told.
    SourceFailed,
    /// Who read the output has closed it.
    Closed,
    /// A write to the output failed.
    OutputFailed,
    /// Memory ran out.
    NoMemory,
}

/// After how many packets it is told how many were read.
pub(crate) const PROGRESS_STEP: u64 = 100_000;

/// Lists the capture that the source has ahead: the texts go to `out`; to `err` goes where progress is asked
/// for how many packets were read, and at the end how many were cut when they were captured, if any. A write
/// to `err` that fails is passed over.
pub fn list<S: Source + Drop, W: Write, V: Write>(
    alloc: Global,
    source: S,
    asked: Asked,
    out: &mut W,
    err: &mut V,
) -> Listed {
    let mut capture = Capture::new(alloc, source);
    let mut listing = match Listing::new(alloc, asked, out) {
        Ok(listing) => listing,
        Err(stop) => return listed_of(stop),
    };
    let read = listing.read_all(&mut capture, err);
    let end = listing.finish();
    if !is_read(read) {
        return read;
    }
    match end {
        Ok(()) => {
            listing.tell_cut(err);
            read
        }
        Err(stop) => listed_of(stop),
    }
}

/// Was the capture read as far as it can be?
fn is_read(listed: Listed) -> bool {
    match listed {
        Listed::Whole | Listed::Damaged(_) | Listed::SourceFailed => true,
        Listed::Closed | Listed::OutputFailed | Listed::NoMemory => false,
    }
}

/// How a listing ended that was stopped.
pub(crate) fn listed_of(stop: Stop) -> Listed {
    match stop {
        Stop::Closed => Listed::Closed,
        Stop::OutputFailed => Listed::OutputFailed,
        Stop::NoMemory => Listed::NoMemory,
    }
}

/// How a listing ended whose capture has a fault.
fn listed_by(fault: CaptureFault) -> Listed {
    match fault.kind {
        CaptureFaultKind::Read => Listed::SourceFailed,
        CaptureFaultKind::NoMemory => Listed::NoMemory,
        CaptureFaultKind::Short
        | CaptureFaultKind::NotCapture
        | CaptureFaultKind::Version
        | CaptureFaultKind::LinkType
        | CaptureFaultKind::TooLong
        | CaptureFaultKind::ByteOrder
        | CaptureFaultKind::BlockLength
        | CaptureFaultKind::Overrun
        | CaptureFaultKind::Interface
        | CaptureFaultKind::TooManyInterfaces
        | CaptureFaultKind::TimeResolution
        | CaptureFaultKind::NoPacket
        | CaptureFaultKind::Failed => Listed::Damaged(fault),
    }
}

/// A listing under way.
#[derive(Drop)]
struct Listing<'a, W> {
    asked: Asked,
    output: Output<'a, W>,
    frame: FrameBuf,
    first: Option<u64>,
    /// The packets that were cut, as far as they may be of EtherCAT.
    cut: CutPackets,
    /// What the lines of a packet begin with.
    head: Row,
    /// A line.
    row: Row,
}

impl<'a, W: Write> Listing<'a, W> {
    /// A listing of nothing yet, but for the names of the columns.
    fn new(alloc: Global, asked: Asked, out: &'a mut W) -> Result<Listing<'a, W>, Stop> {
        let mut output = Output::new(alloc, out, asked.live);
        if asked.form == Form::Csv {
            output.text.extend_from_slice(CSV_HEAD)?;
        }
        Ok(Listing {
            asked,
            output,
            frame: any_frame(),
            first: None,
            cut: CutPackets::new(),
            head: Row::new(),
            row: Row::new(),
        })
    }

    /// Takes all packets of a capture.
    fn read_all<S: Source, V: Write>(&mut self, capture: &mut Capture<S>, err: &mut V) -> Listed {
        for _ in 0..u64::MAX {
            match capture.next() {
                Ok(Some(packet)) => match self.take(&packet, capture.bytes()) {
                    Ok(()) => self.tell_progress(packet.number, err),
                    Err(stop) => return listed_of(stop),
                },
                Ok(None) => break,
                Err(fault) => return listed_by(fault),
            }
        }
        Listed::Whole
    }

    /// Tells now and then how many packets were read.
    fn tell_progress<V: Write>(&self, packets: u64, err: &mut V) {
        if self.asked.progress && packets % PROGRESS_STEP == 0 {
            tell_progress(packets, err);
        }
    }

    /// Takes a packet.
    fn take(&mut self, packet: &Packet, bytes: &[u8]) -> Result<(), Stop> {
        let head = self.head_of(packet, bytes);
        match payload_of(packet.link, bytes) {
            Payload::Ethernet { from, to } => {
                self.frame(&head, packet, &bytes[from..to], Carrier::Ethernet)?
            }
            Payload::Udp { from, to } => {
                self.frame(&head, packet, &bytes[from..to], Carrier::Udp)?
            }
            Payload::OtherUdp { from, to } => {
                let is_cut = is_cut_frame(packet, bytes, from, to);
                self.other_udp(&head, packet, &bytes[from..to], is_cut)?;
            }
            Payload::Fragment => self.note(&head, Note::Fragment)?,
            Payload::Short => self.short(&head, packet)?,
            Payload::BadLength => self.note(&head, Note::BadLength)?,
            Payload::Other => return Ok(()),
        }
        self.output.settle()
    }

    /// What the lines of a packet begin with.
    fn head_of(&mut self, packet: &Packet, bytes: &[u8]) -> Head {
        let since = match packet.time {
            Some(time) => Some(self.since_first(time)),
            None => None,
        };
        Head {
            number: packet.number,
            since,
            source: source_of(packet.link, bytes),
        }
    }

    /// The time since the first packet that has one.
    fn since_first(&mut self, time: Time) -> Since {
        let now = nanoseconds_of(time);
        let first = match self.first {
            Some(first) => first,
            None => now,
        };
        self.first = Some(first);
        Since {
            before: now < first,
            nanoseconds: now.max(first) - now.min(first),
            fine: time.fine,
        }
    }

    /// Takes a packet's payload.
    fn frame(
        &mut self,
        head: &Head,
        packet: &Packet,
        payload: &[u8],
        carrier: Carrier,
    ) -> Result<(), Stop> {
        if let Some(number) = other_type(payload) {
            return self.note(head, Note::Type(number));
        }
        match self.frame.refill(payload, carrier) {
            Ok(()) => self.datagrams(head),
            Err(fault) if fault.kind == FaultKind::Short && packet.captured < packet.original => {
                self.cut_frame(head, packet, payload, fault)
            }
            Err(fault) => self.note(head, Note::Fault(fault)),
        }
    }

    /// Takes the payload of a UDP packet at other ports than EtherCAT's, of which nothing is told but where
    /// it is a frame, or was cut in one.
    fn other_udp(
        &mut self,
        head: &Head,
        packet: &Packet,
        payload: &[u8],
        is_cut: bool,
    ) -> Result<(), Stop> {
        match self.frame.refill(payload, Carrier::Udp) {
            Ok(()) => self.datagrams(head),
            Err(fault) if is_cut && fault.kind == FaultKind::Short => {
                self.cut_frame(head, packet, payload, fault)
            }
            Err(_) => Ok(()),
        }
    }

    /// Takes a packet that ends before it tells what it carries.
    fn short(&mut self, head: &Head, packet: &Packet) -> Result<(), Stop> {
        if packet.captured < packet.original {
            self.cut.take(packet.captured);
        }
        self.note(head, Note::Short)
    }

    /// Takes a frame that was cut when it was captured: its datagrams that are there, and in which one it is
    /// cut.
    fn cut_frame(
        &mut self,
        head: &Head,
        packet: &Packet,
        payload: &[u8],
        fault: WireFault,
    ) -> Result<(), Stop> {
        self.cut.take(packet.captured);
        if refill_front(&mut self.frame, payload) {
            self.datagrams(head)?;
        }
        match CutDatagram::of(payload) {
            Some(datagram) => self.note(head, Note::Cut(fault, datagram)),
            None => self.note(head, Note::Fault(fault)),
        }
    }

    /// Takes the datagrams of the frame that was read.
    fn datagrams(&mut self, head: &Head) -> Result<(), Stop>
        ensures { OnOk result (self.new.output.text.items
            ≡ self.old.output.text.items ++ told_words self.old.asked.form head.now self.old.frame) }
    {
        match self.asked.form {
            Form::Lines => self.datagram_lines(Style::Words, head),
            Form::Csv => self.datagram_lines(Style::Csv, head),
            Form::Faults => Ok(()),
        }
    }

    /// Puts a line for each datagram.
    fn datagram_lines(&mut self, style: Style, head: &Head) -> Result<(), Stop>
        ensures { OnOk result (self.new.output.text.items
            ≡ self.old.output.text.items ++ lines_words style head.now self.old.frame) }
    {
        let text = &mut self.output.text;
        put_datagrams(
            text,
            &mut self.head,
            &mut self.row,
            style,
            head,
            &self.frame,
        )?;
        Ok(())
    }

    /// Takes a packet that has no datagrams to show.
    fn note(&mut self, head: &Head, note: Note) -> Result<(), Stop>
        ensures { OnOk result (self.new.output.text.items
            ≡ self.old.output.text.items ++ noted_words self.old.asked.form head.now note) }
    {
        match self.asked.form {
            Form::Lines => self.note_line(Style::Words, head, note),
            Form::Csv => self.note_line(Style::Csv, head, note),
            Form::Faults if note.is_fault() => self.note_line(Style::Words, head, note),
            Form::Faults => Ok(()),
        }
    }

    /// Puts the line of such a packet.
    fn note_line(&mut self, style: Style, head: &Head, note: Note) -> Result<(), Stop>
        ensures { OnOk result (self.new.output.text.items
            ≡ self.old.output.text.items ++ note_line_words style head.now note) }
    {
        let text = &mut self.output.text;
        put_note(text, &mut self.head, style, head, note)?;
        Ok(())
    }

    /// Tells how many packets were cut, if any: of their datagrams there are fewer lines, or none.
    fn tell_cut<V: Write>(&mut self, err: &mut V) {
        if self.cut.are_there() {
            self.row.clear();
            lead_cut(&self.cut, &mut self.row);
            let _ = err.write_all(self.row.as_slice());
        }
    }

    /// Writes what is left to write.
    fn finish(&mut self) -> Result<(), Stop> {
        self.output.flush()
    }
}

/// Tells how many packets were read.
pub(crate) fn tell_progress<V: Write>(packets: u64, err: &mut V) {
    let mut digits = itoa::Buffer::new();
    let _ = err.write_all(digits.format(packets).as_bytes());
    let _ = err.write_all(b" packets\r");
    let _ = err.flush();
}

/// The type of a frame that is told by it alone: 4 has network variables, 5 is of the mailbox gateway.
fn other_type(payload: &[u8]) -> Option<u8> {
    match frame_type(payload) {
        Some(number) if number == 4 || number == 5 => Some(number),
        Some(_) | None => None,
    }
}

/// The source address of a packet with this header, if it was captured.
fn source_of(link: Link, bytes: &[u8]) -> Option<[u8; 6]> {
    match bytes.get(link.sender_place()..) {
        Some([a, b, c, d, e, f, ..]) => Some([*a, *b, *c, *d, *e, *f]),
        _ => None,
    }
}

/// A time in nanoseconds since the epoch, at most the greatest number.
fn nanoseconds_of(time: Time) -> u64 {
    time.seconds
        .saturating_mul(1_000_000_000)
        .saturating_add(time.nanoseconds)
}

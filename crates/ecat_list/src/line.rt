//! The line of a datagram, and of a packet that has none.
ghost use Rattle.std.specs.Prelude.{◌≡◌, ◌<◌, ◌≤◌, ◌+◌, ◌*◌, ◌++◌, ◌∷◌, [], OnErr, OnOk, codes, drop};
ghost use Rattle.std.specs.Prelude.{length};
ghost use Rattle.ec_wire.specs.Datagram.{nth};
ghost use Rattle.ecat_list.specs.Front.{IsFront};
ghost use Rattle.ecat_list.specs.Line.{behind_colons, columns_words, counted_words, counter_words};
ghost use Rattle.ecat_list.specs.Line.{data_words, head_words, lines_from, lines_words, nothing_words};
ghost use Rattle.ecat_list.specs.Line.{separator};
ghost use Rattle.ecat_list.specs.Line.{since_words, source_words};
ghost use Rattle.ecat_list.specs.Listing.{is_fault};
ghost use Rattle.ecat_list.specs.Note.{end_words, note_line_words, note_words};
ghost use Rattle.ecat_list.specs.Shown.{kind_words, wire_fault_words};
ghost use Rattle.ecat_list.specs.declared.row.TheConstants.{ROOM};

use crate::address::lead_address;
use crate::cut::CutDatagram;
use crate::row::Row;
use crate::text::{digit_of, put_row};
use arrayvec::ArrayVec;
use ec_wire::{Command, Datagram, FaultKind, FrameBuf, WireFault};
use std::alloc::AllocError;

/// What all lines of a packet begin with.
#[derive(Clone, Copy)]
pub(crate) struct Head {
    /// The packet's number.
    pub number: u64,
    /// The nanoseconds since the first packet, where both have a time.
    pub since: Option<Since>,
    /// Its source address, where it has one.
    pub source: Option<[u8; 6]>,
}

/// A time since the first packet.
#[derive(Clone, Copy)]
pub(crate) struct Since {
    /// Was it before the first packet?
    pub before: bool,
    /// How many nanoseconds before or after it.
    pub nanoseconds: u64,
    /// Does the file count nanoseconds?
    pub fine: bool,
}

/// A frame that others are read into.
pub(crate) fn any_frame() -> FrameBuf {
    FrameBuf::of(&Datagram {
        command: Command::Nop,
        index: 0,
        address: 0,
        circulating: false,
        irq: 0,
        payload: ArrayVec::new(),
        counter: 0,
    })
}

/// What a packet is that has no datagrams to show.
#[derive(Clone, Copy)]
pub(crate) enum Note {
    /// A frame of another type: 4 network variables, 5 the mailbox gateway.
    Type(u8),
    /// A piece of a UDP packet.
    Fragment,
    /// It was cut short in front of its payload.
    Short,
    /// The length in an IPv4 or UDP header is too small.
    BadLength,
    /// Its payload is no frame.
    Fault(WireFault),
    /// It was cut when it was captured, in this datagram.
    Cut(WireFault, CutDatagram),
}

impl Note {
    /// Is the packet damaged or cut short?
    pub(crate) fn is_fault(self) -> bool
        ensures { result ≡ is_fault self }
    {
        match self {
            Note::Type(_) | Note::Fragment => false,
            Note::Short | Note::BadLength | Note::Fault(_) | Note::Cut(_, _) => true,
        }
    }
}

/// How the columns of a line are parted.
#[derive(Clone, Copy, PartialEq, Eq)]
pub(crate) enum Style {
    /// By one space each, for grep and awk.
    Words,
    /// By commas.
    Csv,
}

impl Style {
    /// What stands between two columns.
    pub(crate) fn separator(self) -> u8
        ensures { result ∷ [] ≡ separator self }
    {
        match self {
            Style::Words => b' ',
            Style::Csv => b',',
        }
    }
}

/// The names of the columns.
pub(crate) const CSV_HEAD: &[u8] =
    b"packet,seconds,source,datagram,command,address,length,wkc,data\n";

/// Makes a row of what all lines of a packet begin with.
fn make_head(row: &mut Row, style: Style, head: &Head)
    ensures at { ROOM ≤ row.new.from + 81 }
    ensures written { drop row.new.from row.new.bytes ≡ head_words style head.now }
{
    row.clear();
    lead_head(row, style, head);
}

/// Puts a packet's number, its time and its source address in front, each with what stands behind a column.
fn lead_head(row: &mut Row, style: Style, head: &Head)
    requires { 81 ≤ row.old.from }
    ensures at { row.old.from ≤ row.new.from + 81 }
    ensures written { drop row.new.from row.new.bytes
        ≡ head_words style head.now ++ drop row.old.from row.old.bytes }
{
    let separator = style.separator();
    row.lead_byte(separator);
    lead_source(row, style, head.source);
    row.lead_byte(separator);
    lead_since(row, style, head.since);
    row.lead_byte(separator);
    row.lead_decimal(head.number);
}

/// Puts the time since the first packet in front.
fn lead_since(row: &mut Row, style: Style, since: Option<Since>)
    requires { 41 ≤ row.old.from }
    ensures at { row.old.from ≤ row.new.from + 41 }
    ensures written { drop row.new.from row.new.bytes
        ≡ since_words style since ++ drop row.old.from row.old.bytes }
{
    let Some(since) = since else {
        return lead_nothing(row, style);
    };
    row.lead_seconds(since.nanoseconds, since.fine);
    if since.before {
        row.lead_byte(b'-');
    }
}

/// Puts a source address in front, its bytes parted by colons.
fn lead_source(row: &mut Row, style: Style, source: Option<[u8; 6]>)
    requires { 17 ≤ row.old.from }
    ensures at { row.old.from ≤ row.new.from + 17 }
    ensures written { drop row.new.from row.new.bytes
        ≡ source_words style source ++ drop row.old.from row.old.bytes }
{
    match source {
        Some(address) => row.lead_bytes(&parted(address)),
        None => lead_nothing(row, style),
    }
}

/// The bytes of an address, parted by colons.
pub(crate) fn parted(address: [u8; 6]) -> [u8; 17]
    ensures { result ≡ drop 1 (behind_colons address) }
{
    [
        digit_of(address[0] / 16),
        digit_of(address[0] % 16),
        b':',
        digit_of(address[1] / 16),
        digit_of(address[1] % 16),
        b':',
        digit_of(address[2] / 16),
        digit_of(address[2] % 16),
        b':',
        digit_of(address[3] / 16),
        digit_of(address[3] % 16),
        b':',
        digit_of(address[4] / 16),
        digit_of(address[4] % 16),
        b':',
        digit_of(address[5] / 16),
        digit_of(address[5] % 16),
    ]
}

/// Puts what stands in a column that says nothing in front: a hyphen, or nothing.
fn lead_nothing(row: &mut Row, style: Style)
    requires { 1 ≤ row.old.from }
    ensures at { row.old.from ≤ row.new.from + 1 }
    ensures written { drop row.new.from row.new.bytes
        ≡ nothing_words style ++ drop row.old.from row.old.bytes }
{
    match style {
        Style::Words => row.lead_byte(b'-'),
        Style::Csv => {}
    }
}

/// Puts a line for each datagram of a frame, from the second row. What all of them begin with is written
/// once, in the first.
pub(crate) fn put_datagrams(
    text: &mut Vec<u8>,
    first: &mut Row,
    row: &mut Row,
    style: Style,
    head: &Head,
    frame: &FrameBuf,
) -> Result<(), AllocError>
    ensures ok { OnOk result (text.new.items ≡ text.old.items ++ lines_words style head.now frame.now) }
    ensures err { OnErr result (IsFront text.new.items
        (text.old.items ++ lines_words style head.now frame.now)) }
{
    make_head(first, style, head);
    put_lines(text, first, row, style, frame)
}

/// Puts a line for each datagram of a frame, from the second row, each behind what the first one has.
pub(crate) fn put_lines(
    text: &mut Vec<u8>,
    first: &Row,
    row: &mut Row,
    style: Style,
    frame: &FrameBuf,
) -> Result<(), AllocError>
    requires short { ROOM ≤ first.now.from + 110 }
    ensures ok { OnOk result (text.new.items ≡ text.old.items
        ++ lines_from style (drop first.now.from first.now.bytes) 0 frame.now) }
    ensures err { OnErr result (IsFront text.new.items (text.old.items
        ++ lines_from style (drop first.now.from first.now.bytes) 0 frame.now)) }
{
    for k in 0..frame.count() {
        lead_line(row, style, first, frame, k);
        put_row(text, row)?;
    }
    Ok(())
}

/// Makes a row of the line of datagram `k` of a frame, which begins with the bytes of the first row.
fn lead_line(row: &mut Row, style: Style, first: &Row, frame: &FrameBuf, k: usize)
    requires there { k < length frame.now }
    requires short { ROOM ≤ first.now.from + 110 }
    ensures { drop row.new.from row.new.bytes
        ≡ drop first.now.from first.now.bytes
        ++ columns_words style k (nth frame.now k)
        ++ data_words style (nth frame.now k).payload
        ++ codes "\n" }
{
    row.clear();
    row.lead_byte(b'\n');
    lead_data(row, style, frame.data(k));
    lead_columns(row, style, frame, k);
    row.lead_bytes(first.as_slice());
}

/// Puts the columns of datagram `k` in front, from its number to its counter, with what stands behind them.
fn lead_columns(row: &mut Row, style: Style, frame: &FrameBuf, k: usize)
    requires there { k < length frame.now }
    requires room { 102 ≤ row.old.from }
    ensures at { row.old.from ≤ row.new.from + 102 }
    ensures written { drop row.new.from row.new.bytes
        ≡ columns_words style k (nth frame.now k) ++ drop row.old.from row.old.bytes }
{
    let separator = style.separator();
    let command = frame.command(k);
    lead_counted(row, style, frame, k);
    row.lead_byte(separator);
    lead_address(row, command, frame.address(k));
    row.lead_byte(separator);
    row.lead_bytes(command.name().as_bytes());
    row.lead_byte(separator);
    row.lead_decimal(k as u64);
}

/// Puts the columns of a datagram's length and its counter in front, with what stands behind them.
fn lead_counted(row: &mut Row, style: Style, frame: &FrameBuf, k: usize)
    requires there { k < length frame.now }
    requires room { 46 ≤ row.old.from }
    ensures at { row.old.from ≤ row.new.from + 46 }
    ensures written { drop row.new.from row.new.bytes
        ≡ counted_words style (nth frame.now k) ++ drop row.old.from row.old.bytes }
{
    let separator = style.separator();
    row.lead_byte(separator);
    lead_counter(row, style, frame.counter(k));
    row.lead_byte(separator);
    row.lead_decimal(frame.data(k).len() as u64);
}

/// Puts a working counter in front, in words behind `wkc`.
fn lead_counter(row: &mut Row, style: Style, counter: u16)
    requires { 24 ≤ row.old.from }
    ensures at { row.old.from ≤ row.new.from + 24 }
    ensures written { drop row.new.from row.new.bytes
        ≡ counter_words style counter ++ drop row.old.from row.old.bytes }
{
    row.lead_decimal(u64::from(counter));
    if style == Style::Words {
        row.lead_bytes(b"wkc ");
    }
}

/// Puts a datagram's data in front.
fn lead_data(row: &mut Row, style: Style, data: &[u8])
    requires { 2 * length «data».now + 1 ≤ row.old.from }
    ensures at { row.old.from ≤ row.new.from + (2 * length «data».now + 1) }
    ensures written { drop row.new.from row.new.bytes
        ≡ data_words style «data».now ++ drop row.old.from row.old.bytes }
{
    if data.is_empty() {
        lead_nothing(row, style);
    } else {
        row.lead_hex(data);
    }
}

/// Puts the line of a packet that has no datagrams to show, from a row.
pub(crate) fn put_note(
    text: &mut Vec<u8>,
    row: &mut Row,
    style: Style,
    head: &Head,
    note: Note,
) -> Result<(), AllocError>
    ensures ok { OnOk result (text.new.items ≡ text.old.items ++ note_line_words style head.now note) }
    ensures err { OnErr result (IsFront text.new.items
        (text.old.items ++ note_line_words style head.now note)) }
{
    row.clear();
    lead_note(row, style, note);
    lead_head(row, style, head);
    put_row(text, row)
}

/// Puts in front what a packet is that has no datagrams to show, in the place of a datagram's command.
fn lead_note(row: &mut Row, style: Style, note: Note)
    requires { 111 ≤ row.old.from }
    ensures at { row.old.from ≤ row.new.from + 111 }
    ensures written { drop row.new.from row.new.bytes
        ≡ (nothing_words style ++ separator style ++ note_words note ++ end_words style)
        ++ drop row.old.from row.old.bytes }
{
    lead_end(row, style);
    lead_words(row, note);
    row.lead_byte(style.separator());
    lead_nothing(row, style);
}

/// Puts the end of such a line in front: no other columns.
fn lead_end(row: &mut Row, style: Style)
    requires { 5 ≤ row.old.from }
    ensures at { row.old.from ≤ row.new.from + 5 }
    ensures written { drop row.new.from row.new.bytes
        ≡ end_words style ++ drop row.old.from row.old.bytes }
{
    match style {
        Style::Words => row.lead_bytes(b"\n"),
        Style::Csv => row.lead_bytes(b",,,,\n"),
    }
}

/// Puts in front what a packet is that has no datagrams to show.
fn lead_words(row: &mut Row, note: Note)
    requires { 104 ≤ row.old.from }
    ensures at { row.old.from ≤ row.new.from + 104 }
    ensures written { drop row.new.from row.new.bytes
        ≡ note_words note ++ drop row.old.from row.old.bytes }
{
    match note {
        Note::Type(number) => {
            row.lead_decimal(u64::from(number));
            row.lead_bytes(b"type ");
        }
        Note::Fragment => row.lead_bytes(b"fragment"),
        Note::Short => row.lead_bytes(b"short"),
        Note::BadLength => row.lead_bytes(b"bad length"),
        Note::Fault(fault) => lead_fault(row, fault),
        Note::Cut(fault, datagram) => {
            datagram.lead(row);
            lead_fault(row, fault);
        }
    }
}

/// Puts the fault of a frame and its place in front.
fn lead_fault(row: &mut Row, fault: WireFault)
    requires { 40 ≤ row.old.from }
    ensures at { row.old.from ≤ row.new.from + 40 }
    ensures written { drop row.new.from row.new.bytes
        ≡ wire_fault_words fault ++ drop row.old.from row.old.bytes }
{
    row.lead_decimal(fault.at as u64);
    row.lead_bytes(b" at ");
    row.lead_bytes(name_of(fault.kind));
    row.lead_bytes(b"fault ");
}

/// The name of a kind of fault.
pub(crate) fn name_of(kind: FaultKind) -> &'static [u8]
    ensures value { result.now ≡ kind_words kind }
    ensures short { length result.now ≤ 10 }
{
    match kind {
        FaultKind::Short => b"Short",
        FaultKind::BadType => b"BadType",
        FaultKind::Reserved => b"Reserved",
        FaultKind::Empty => b"Empty",
        FaultKind::TooLong => b"TooLong",
        FaultKind::BadCommand => b"BadCommand",
        FaultKind::Overrun => b"Overrun",
        FaultKind::MoreAtEnd => b"MoreAtEnd",
        FaultKind::LeftOver => b"LeftOver",
        FaultKind::Trailing => b"Trailing",
    }
}

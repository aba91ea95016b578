//! What bytes spell: the datagrams of a frame, or the first fault.

ghost use Rattle.std.specs.Prelude.{◌≡◌, ◌<◌, ◌≤◌, ◌++◌, Some, length, drop};
ghost use Rattle.ec_wire.specs.Datagram.{nth};
ghost use Rattle.rummymaple.specs.Numbers.{form_of};
ghost use Rattle.rummymaple.specs.Read.{place_of, places_from, IsReadFrame, IsRead, read_answer};
ghost use Rattle.rummymaple.specs.declared.read.ReadEnd.{ReadEnd};

use crate::layout::{HEAD, HEADER, OVERHEAD};
use crate::numbers::{Code, fault_code, form_of};
use crate::packet::blank;
use ec_wire::{Form, FrameBuf, WireFault};

/// A datagram of a frame, and where its data lie: `struct rmp_datagram` of the header.
#[repr(C)]
#[derive(Clone, Copy)]
pub struct DatagramPlace {
    /// Where its data begin in the frame.
    pub data: usize,
    /// The number of its data bytes.
    pub length: usize,
    /// The logical address, or ADP plus 65,536 times ADO.
    pub address: u32,
    /// The working counter.
    pub counter: u16,
    /// The slaves' event requests, or-ed.
    pub irq: u16,
    /// The command by the standard's code, 0 to 14.
    pub command: u8,
    /// The master's number for it.
    pub index: u8,
    /// 1 where the frame has turned round at a slave's closed port 0, else 0.
    pub circulating: u8,
}

/// How a reading ended.
#[derive(Clone, Copy)]
pub enum ReadEnd {
    /// The frame has so many datagrams, and their places stand in the room.
    Read(usize),
    /// The frame has so many datagrams, for which the room is too small.
    NoRoom(usize),
    /// The bytes are no frame.
    NoFrame(WireFault),
    /// There is no such form.
    BadForm,
}

/// How a reading ended, in numbers: `struct rmp_reading` of the header.
#[repr(C)]
#[derive(Clone, Copy)]
pub struct ReadAnswer {
    /// How many datagrams the frame has.
    pub count: usize,
    /// The first byte at fault.
    pub at: usize,
    /// How it ended.
    pub code: u32,
}

impl ReadEnd {
    /// The end in numbers.
    fn answer(self) -> ReadAnswer
        ensures { result ≡ read_answer self }
    {
        let (count, at, code) = match self {
            ReadEnd::Read(count) => (count, 0, Code::Good),
            ReadEnd::NoRoom(count) => (count, 0, Code::NoRoom),
            ReadEnd::NoFrame(fault) => (0, fault.at, fault_code(fault.kind)),
            ReadEnd::BadForm => (0, 0, Code::BadForm),
        };
        ReadAnswer {
            count,
            at,
            code: code.number(),
        }
    }
}

/// The datagram at `k`, which begins at `at`.
fn place(frame: &FrameBuf, k: usize, at: usize) -> DatagramPlace
    requires there { k < length frame.now }
    requires room { at ≤ 1500 }
    ensures { result ≡ place_of at (nth frame.now k) }
{
    DatagramPlace {
        data: at + HEAD,
        length: frame.data(k).len(),
        address: frame.address(k),
        counter: frame.counter(k),
        irq: frame.irq(k),
        command: frame.command(k).code(),
        index: frame.index(k),
        circulating: u8::from(frame.circulating(k)),
    }
}

/// Puts the datagrams of a frame and where they lie into the room.
fn put_places(frame: &FrameBuf, room: &mut [DatagramPlace])
    requires { length frame.now ≤ length room.old }
    ensures { room.new ≡ places_from 2 frame.now ++ drop (length frame.now) room.old }
{
    let mut at = HEADER;
    for k in 0..frame.count() {
        room[k] = place(frame, k, at);
        at += OVERHEAD + frame.data(k).len();
    }
}

/// Puts the datagrams of a frame into the room, where they fit.
fn read_places(frame: &FrameBuf, room: &mut [DatagramPlace]) -> ReadEnd
    ensures { IsReadFrame frame.now room.old result room.new }
{
    let count = frame.count();
    if room.len() < count {
        return ReadEnd::NoRoom(count);
    }
    put_places(frame, room);
    ReadEnd::Read(count)
}

/// Reads the bytes of a frame.
fn read(form: Form, bytes: &[u8], room: &mut [DatagramPlace]) -> ReadEnd
    ensures { IsRead (Some form) bytes.now room.old result room.new }
{
    let mut frame = blank();
    match frame.refill(bytes, form) {
        Ok(()) => read_places(&frame, room),
        Err(fault) => ReadEnd::NoFrame(fault),
    }
}

/// Reads the bytes of a frame: puts its datagrams and where their data lie at the front of `room`, or names
/// the first fault and its byte, and then leaves `room` as it is.
#[unsafe(no_mangle)]
pub extern "C" fn rmp_read(form: u32, bytes: &[u8], room: &mut [DatagramPlace]) -> ReadAnswer
    ensures { (end : ReadEnd) × (result ≡ read_answer end)
        × IsRead (form_of form) bytes.now room.old end room.new }
{
    let end = match form_of(form) {
        Some(form) => read(form, bytes, room),
        None => ReadEnd::BadForm,
    };
    end.answer()
}

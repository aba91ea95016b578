//! The reader of frames, which takes exactly the grammar and names the first fault of all else.

ghost use Rattle.std.specs.Prelude.{◌≡◌, ℕ, ◌+◌, ◌++◌, ◌<◌, ◌≤◌, Some, None, List, length, take, drop, IfOk};
ghost use Rattle.std.specs.Prelude.{IfErr, IsOk, OnOk, OnErr, []};
ghost use Rattle.ec_wire.specs.Datagram.{DatagramRecord};
ghost use Rattle.ec_wire.specs.Decoding.{data_length, says_more};
ghost use Rattle.ec_wire.specs.Frame.{records_at, starts_from};
ghost use Rattle.ec_wire.specs.Spelling.{spelling, IsFrameValue};
ghost use Rattle.ec_wire.specs.declared.fault.WireFault.{WireFault};
ghost use Rattle.ec_wire.specs.Fault.{header_fault, frame_end, datagram_fault, FailsWithin, AreSpelt};
ghost use Rattle.ec_wire.specs.Fault.{IsSpelt, IsFirstFault, IsOutline};

use crate::cells::Cells;
use crate::command::LAST_CODE;
use crate::fault::{FaultKind, Form, WireFault};
use crate::frame::{FrameBuf, MAX_DATAGRAMS, MAX_FRAME};
use crate::layout::{
    COMMANDS, FLAGS, HEADER, LENGTH, LENGTHS, MAX_LENGTH, MORE, OVERHEAD, RESERVED, TYPE, TYPE_BYTE,
};
use arrayvec::ArrayVec;
use byteorder::{ByteOrder, LittleEndian};

/// What the head of a datagram that is spelt well says of its size and of what follows it.
#[derive(Drop)]
struct Ahead {
    length: usize,
    more: bool,
}

/// Where the datagrams of a frame begin.
type Starts = ArrayVec<u16, MAX_DATAGRAMS>;

/// Where the frame ends by its header.
#[tactic(auto, unfolding(crate::specs::Fault::header_fault))]
fn header_end(bytes: &[u8]) -> Result<usize, WireFault>
    ensures end { IfOk result (λ end. end ≡ frame_end bytes.now) }
    ensures room { IfOk result (λ end. end ≤ length bytes.now) }
    ensures some { IfOk result (λ end. HEADER < end) }
    ensures below { IfOk result (λ end. end ≤ MAX_FRAME) }
    ensures good { IfOk result (λ _. header_fault bytes.now ≡ None) }
    ensures fault { IfErr result (λ f. header_fault bytes.now ≡ Some f) }
{
    let fault = |kind, at| Err(WireFault { at, kind });
    if bytes.len() < HEADER {
        return fault(FaultKind::Short, bytes.len());
    }
    let header = LittleEndian::read_u16(bytes);
    let length = usize::from(header % LENGTHS);
    if header / TYPE != COMMANDS {
        return fault(FaultKind::BadType, TYPE_BYTE);
    }
    if header / LENGTHS % 2 != 0 {
        return fault(FaultKind::Reserved, TYPE_BYTE);
    }
    if length == 0 {
        return fault(FaultKind::Empty, 0);
    }
    if length > MAX_LENGTH {
        return fault(FaultKind::TooLong, 0);
    }
    if bytes.len() < HEADER + length {
        return fault(FaultKind::Short, bytes.len());
    }
    Ok(HEADER + length)
}

/// The datagram that `rest`, the frame from the place `at` on, begins with.
#[tactic(auto, unfolding(crate::specs::Fault::datagram_fault))]
fn datagram_ahead(rest: &[u8], at: usize) -> Result<Ahead, WireFault>
    requires { at + length rest.now ≤ MAX_FRAME }
    ensures length { IfOk result (λ ahead. ahead.length ≡ data_length rest.now) }
    ensures more { IfOk result (λ ahead. ahead.more ≡ says_more rest.now) }
    ensures good { IfOk result (λ _. datagram_fault at rest.now ≡ None) }
    ensures fault { IfErr result (λ f. datagram_fault at rest.now ≡ Some f) }
{
    let fault = |kind, at| Err(WireFault { at, kind });
    if rest.len() < OVERHEAD {
        return fault(FaultKind::LeftOver, at);
    }
    if rest[0] > LAST_CODE {
        return fault(FaultKind::BadCommand, at);
    }
    let field = LittleEndian::read_u16(&rest[LENGTH..]);
    let length = usize::from(field % LENGTHS);
    let more = field / MORE == 1;
    if field / LENGTHS % RESERVED != 0 {
        return fault(FaultKind::Reserved, at + FLAGS);
    }
    if rest.len() < OVERHEAD + length {
        return fault(FaultKind::Overrun, at + LENGTH);
    }
    if more && OVERHEAD + length == rest.len() {
        return fault(FaultKind::MoreAtEnd, at + FLAGS);
    }
    if !more && OVERHEAD + length < rest.len() {
        return fault(FaultKind::LeftOver, at + OVERHEAD + length);
    }
    Ok(Ahead { length, more })
}

/// Puts where the frame's datagrams begin into `starts`, up to the first datagram at fault.
fn put_starts(frame: &[u8], starts: &mut Starts) -> Result<(), WireFault>
    requires some { HEADER < length frame.now }
    requires room { length frame.now ≤ MAX_FRAME }
    requires none { starts.old.items ≡ [] }
    ensures spelt { OnOk result
        (AreSpelt frame.now starts.new.items (records_at frame.now starts.new.items)) }
    ensures fault { IfErr result (FailsWithin frame.now) }
{
    let mut at = HEADER;
    loop {
        let ahead = datagram_ahead(&frame[at..], at)?;
        starts.push(at as u16);
        if !ahead.more {
            return Ok(());
        }
        at += OVERHEAD + ahead.length;
    }
}

/// Where the frame that the bytes spell ends, or the first fault of the bytes; puts where the datagrams begin
/// into `starts`.
fn outline(bytes: &[u8], form: Form, starts: &mut Starts) -> Result<usize, WireFault>
    requires { starts.old.items ≡ [] }
    ensures found { IfOk result (λ end. (rs : List DatagramRecord)
        × IsOutline form bytes.now rs end starts.new.items) }
    ensures room { IfOk result (λ end. end ≤ length bytes.now) }
    ensures most { IfOk result (λ end. end ≤ MAX_FRAME) }
    ensures fault { IfErr result (IsFirstFault form bytes.now) }
{
    let end = header_end(bytes)?;
    put_starts(&bytes[..end], starts)?;
    if form == Form::Udp && end < bytes.len() {
        return Err(WireFault {
            at: end,
            kind: FaultKind::Trailing,
        });
    }
    Ok(end)
}

/// Puts where the datagrams of a whole frame begin into `starts`, in the place of what stands there.
fn find_starts(frame: &[u8], starts: &mut Starts)
    requires { (rs : List DatagramRecord) × IsFrameValue rs × (frame.now ≡ spelling rs) }
    ensures { (rs : List DatagramRecord) → IsFrameValue rs → frame.now ≡ spelling rs
        → starts.new.items ≡ starts_from 2 rs }
{
    starts.clear();
    let _ = put_starts(frame, starts);
}

impl FrameBuf {
    /// The frame that the bytes spell, or their first fault from the left. In the Ethernet form any
    /// bytes may follow the frame, in the UDP form none.
    pub fn read(bytes: &[u8], form: Form) -> Result<FrameBuf, WireFault>
        ensures found { IfOk result (λ frame. IsSpelt form bytes.now frame) }
        ensures fault { IfErr result (IsFirstFault form bytes.now) }
        ensures only_found { (rs : List DatagramRecord) → IsSpelt form bytes.now rs → result ≡ Ok rs }
        ensures only_fault { (f : WireFault) → IsFirstFault form bytes.now f → result ≡ Err f }
    {
        let mut starts = ArrayVec::new();
        let size = outline(bytes, form, &mut starts)?;
        let mut cells = Cells::new();
        cells.put(0, &bytes[..size]);
        Ok(FrameBuf {
            cells,
            size,
            starts,
        })
    }

    /// The frame that the bytes spell, put into this one, or their first fault, which leaves this one as it
    /// is: what [`FrameBuf::read`] gives, with no frame moved.
    pub fn refill(&mut self, bytes: &[u8], form: Form) -> Result<(), WireFault>
        ensures found { OnOk result (IsSpelt form bytes.now self.new) }
        ensures fault { IfErr result (IsFirstFault form bytes.now) }
        ensures kept { OnErr result (self.new ≡ self.old) }
        ensures only_found { (rs : List DatagramRecord) → IsSpelt form bytes.now rs
            → IsOk result × (self.new ≡ rs) }
        ensures only_fault { (f : WireFault) → IsFirstFault form bytes.now f → result ≡ Err f }
    {
        self.starts.clear();
        match outline(bytes, form, &mut self.starts) {
            Ok(end) => {
                self.cells.put(0, &bytes[..end]);
                self.size = end;
                Ok(())
            }
            Err(fault) => {
                let frame = &self.cells.as_slice()[..self.size];
                find_starts(frame, &mut self.starts);
                Err(fault)
            }
        }
    }
}

/// No spelling begins another, and a value has one spelling: so what `bytes` gives is read again,
/// whatever follows it.
pub fn one_spelling()
    ensures { (rs ss : List DatagramRecord) (x y : List ℕ) → IsFrameValue rs → IsFrameValue ss
        → spelling rs ++ x ≡ spelling ss ++ y → (rs ≡ ss) × (x ≡ y) }
{}

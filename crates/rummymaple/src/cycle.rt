//! A cycle as a state machine over plain data of the caller's, for masters that want no loop of their own.

ghost use Rattle.std.specs.Prelude.{◌≡◌, ◌<◌, ◌≤◌, ◌+◌, ℕ, List, Some, length};
ghost use Rattle.ec_wire.specs.Fault.{IsSpelt};
ghost use Rattle.rummymaple.specs.Answers.{AreAnswered};
ghost use Rattle.rummymaple.specs.Items.{AreTaken};
ghost use Rattle.rummymaple.specs.Numbers.{form_of};
ghost use Rattle.rummymaple.specs.Turn.{held, begun, kept, settled, EndsFrame, EndsCopies, AreTurned};
ghost use Rattle.rummymaple.specs.Turn.{IsFormTurn, IsFitTurn, IsOpenTurn, IsTurn, IsNext, none_made};
ghost use Rattle.rummymaple.specs.Turn.{none_turned, turn_code, turn_place, turn_answer};
ghost use Rattle.rummymaple.specs.Turn.{taken_item, taken_over};
ghost use Rattle.rummymaple.specs.declared.cycle.Turn.{Turn};

use crate::answered::{first_other, store_items, take_counts, verdict};
use crate::frame::{FrameAnswer, frame_end};
use crate::item::{Item, first_refused};
use crate::join::read_copy;
use crate::numbers::{Code, Copy, form_of};
use crate::packet::blank;
use ec_master::Verdict;
use ec_merge::{JoinFault, join_into};
use ec_wire::{Form, FrameBuf, WireFault};

/// The state of a cycle of which items are left.
pub const UNDER_WAY: u32 = 0;

/// The state of a cycle whose frames were all good: the image has their data.
pub const DONE: u32 = 1;

/// The state of a cycle that a verdict ended: the image is as it was.
pub const ENDED: u32 = 2;

/// A cycle, in the caller's memory: `struct rmp_cycle` of the header.
#[repr(C)]
#[derive(Clone, Copy)]
pub struct Cycle {
    /// The first item that has no good answer yet.
    pub first: usize,
    /// How packets are framed: 0 an Ethernet frame's payload, 1 a UDP packet's.
    pub form: u32,
    /// How far it is: [`UNDER_WAY`], [`DONE`] or [`ENDED`].
    pub state: u32,
}

/// How the taking of what came back of a frame ended.
#[derive(Clone, Copy)]
pub enum TurnEnd {
    /// The counters of the joined frame are judged.
    Judged(Verdict),
    /// This datagram of it is the first that is not the answer of its item.
    Other(usize),
    /// A copy cannot have come of the sent frame.
    Stranger(JoinFault),
    /// What is said to be sent is no frame.
    NotSent(WireFault),
    /// There is no such form.
    BadForm,
    /// An item is not taken: its number, and why.
    Refused(usize, Code),
    /// The room where data wait is not as large as the image.
    NoRoom,
    /// The cycle is not under way.
    Over,
}

/// What became of two packets.
#[derive(Clone, Copy)]
pub struct Turn {
    /// How it ended.
    pub end: TurnEnd,
    /// What came of copy a.
    pub a: Copy,
    /// What came of copy b.
    pub b: Copy,
}

/// What became of two packets, in numbers: `struct rmp_turn` of the header.
#[repr(C)]
#[derive(Clone, Copy)]
pub struct TurnAnswer {
    /// The item, the datagram or the byte that the code is about.
    pub at: usize,
    /// How it ended.
    pub code: u32,
    /// What came of copy a: 0 nothing, 1 a frame, 2 bytes that are no frame.
    pub copy_a: u32,
    /// What came of copy b.
    pub copy_b: u32,
}

impl TurnEnd {
    /// Its code.
    fn code(self) -> Code
        ensures { result ≡ turn_code self }
    {
        match self {
            TurnEnd::Judged(Verdict::Good) => Code::Good,
            TurnEnd::Judged(Verdict::Short(_)) => Code::Short,
            TurnEnd::Judged(Verdict::Over(_)) => Code::Over,
            TurnEnd::Other(_) => Code::OtherItem,
            TurnEnd::Stranger(JoinFault::StrangerA(_)) => Code::StrangerA,
            TurnEnd::Stranger(JoinFault::StrangerB(_)) => Code::StrangerB,
            TurnEnd::NotSent(_) => Code::NotSent,
            TurnEnd::BadForm => Code::BadForm,
            TurnEnd::Refused(_, why) => why,
            TurnEnd::NoRoom => Code::NoRoom,
            TurnEnd::Over => Code::NotUnderWay,
        }
    }

    /// The place that it names.
    fn place(self) -> usize
        ensures { result ≡ turn_place self }
    {
        match self {
            TurnEnd::Judged(Verdict::Short(k)) => k,
            TurnEnd::Judged(Verdict::Over(k)) => k,
            TurnEnd::Other(j) => j,
            TurnEnd::Stranger(JoinFault::StrangerA(k)) => k,
            TurnEnd::Stranger(JoinFault::StrangerB(k)) => k,
            TurnEnd::NotSent(fault) => fault.at,
            TurnEnd::Refused(at, _) => at,
            TurnEnd::Judged(Verdict::Good) | TurnEnd::BadForm | TurnEnd::NoRoom | TurnEnd::Over =>
                0,
        }
    }
}

impl Turn {
    /// What became of the packets, in numbers.
    fn answer(self) -> TurnAnswer
        ensures { result ≡ turn_answer self }
    {
        TurnAnswer {
            at: self.end.place(),
            code: self.end.code().number(),
            copy_a: self.a.number(),
            copy_b: self.b.number(),
        }
    }
}

/// No packet was looked at.
fn none_turned(end: TurnEnd) -> Turn
    ensures { result ≡ none_turned end }
{
    Turn {
        end,
        a: Copy::Lost,
        b: Copy::Lost,
    }
}

/// Puts the data that wait for an item into the image, if it reads.
fn take_item(item: &Item, waiting: &[u8], image: &mut [u8])
    requires image { item.now.offset + item.now.length ≤ length image.old }
    requires waiting { item.now.offset + item.now.length ≤ length waiting.now }
    ensures { image.new ≡ taken_item item.now waiting.now image.old }
{
    if item.reads() {
        let (begin, end) = item.place();
        image[begin..end].copy_from_slice(&waiting[begin..end]);
    }
}

/// Puts the data that wait for each item that reads into the image.
fn take_items(items: &[Item], waiting: &[u8], image: &mut [u8])
    requires taken { AreTaken (length image.old) items.now }
    requires size { length waiting.now ≡ length image.old }
    ensures { image.new ≡ taken_over items.now waiting.now image.old }
{
    for k in 0..items.len() {
        take_item(&items[k], waiting, image);
    }
}

/// Keeps the data of a good frame where those of its cycle wait; behind the last frame all of them go into
/// the image.
fn keep(cycle: &mut Cycle, items: &[Item], frame: &FrameBuf, waiting: &mut [u8], image: &mut [u8])
    requires taken { AreTaken (length image.old) items.now }
    requires size { length waiting.old ≡ length image.old }
    requires answered { AreAnswered items.now cycle.old.first frame.now }
    ensures { held cycle.new items.now waiting.new image.new
        ≡ kept (held cycle.old items.now waiting.old image.old) frame.now }
{
    store_items(items, cycle.first, frame, waiting);
    cycle.first += frame.count();
    if cycle.first == items.len() {
        take_items(items, waiting, image);
        cycle.state = DONE;
    }
}

/// Keeps a good frame; any other verdict ends the cycle.
fn settle(
    cycle: &mut Cycle,
    items: &[Item],
    frame: &FrameBuf,
    verdict: Verdict,
    waiting: &mut [u8],
    image: &mut [u8],
)
    requires taken { AreTaken (length image.old) items.now }
    requires size { length waiting.old ≡ length image.old }
    requires answered { AreAnswered items.now cycle.old.first frame.now }
    ensures { held cycle.new items.now waiting.new image.new
        ≡ settled (held cycle.old items.now waiting.old image.old) frame.now verdict }
{
    match verdict {
        Verdict::Good => keep(cycle, items, frame, waiting, image),
        Verdict::Short(_) | Verdict::Over(_) => cycle.state = ENDED,
    }
}

/// Judges a joined frame, and takes what it answers.
fn turn_frame(
    cycle: &mut Cycle,
    items: &mut [Item],
    frame: &FrameBuf,
    waiting: &mut [u8],
    image: &mut [u8],
) -> TurnEnd
    requires taken { AreTaken (length image.old) items.old }
    requires size { length waiting.old ≡ length image.old }
    ensures { EndsFrame (held cycle.old items.old waiting.old image.old) frame.now result
        (held cycle.new items.new waiting.new image.new) }
{
    let first = cycle.first;
    if let Some(j) = first_other(items, first, frame) {
        return TurnEnd::Other(j);
    }
    let verdict = verdict(items, first, frame);
    settle(cycle, items, frame, verdict, waiting, image);
    take_counts(items, first, frame);
    TurnEnd::Judged(verdict)
}

/// Joins two copies, and takes what they answer.
fn turn_copies(
    sent: &FrameBuf,
    a: &mut FrameBuf,
    b: &FrameBuf,
    cycle: &mut Cycle,
    items: &mut [Item],
    waiting: &mut [u8],
    image: &mut [u8],
) -> TurnEnd
    requires taken { AreTaken (length image.old) items.old }
    requires size { length waiting.old ≡ length image.old }
    ensures { EndsCopies sent.now a.old b.now
        (held cycle.old items.old waiting.old image.old)
        result (held cycle.new items.new waiting.new image.new) }
{
    if let Err(stranger) = join_into(sent, a, b) {
        return TurnEnd::Stranger(stranger);
    }
    turn_frame(cycle, items, a, waiting, image)
}

/// Takes the packets that came back of a frame, which these bytes spell.
fn turn_both(
    frame: &FrameBuf,
    form: Form,
    sent: &[u8],
    a: &[u8],
    b: &[u8],
    cycle: &mut Cycle,
    items: &mut [Item],
    waiting: &mut [u8],
    image: &mut [u8],
) -> Turn
    requires spelt { IsSpelt form sent.now frame.now }
    requires taken { AreTaken (length image.old) items.old }
    requires size { length waiting.old ≡ length image.old }
    ensures { AreTurned form sent.now a.now b.now (held cycle.old items.old waiting.old image.old)
        result (held cycle.new items.new waiting.new image.new) }
{
    let mut copy_a = blank();
    let a = read_copy(&mut copy_a, form, sent, a);
    let mut copy_b = blank();
    let b = read_copy(&mut copy_b, form, sent, b);
    let end = turn_copies(frame, &mut copy_a, &copy_b, cycle, items, waiting, image);
    Turn { end, a, b }
}

/// Takes the packets that came back of the frame that these bytes spell.
fn turn_packets(
    form: Form,
    sent: &[u8],
    a: &[u8],
    b: &[u8],
    cycle: &mut Cycle,
    items: &mut [Item],
    waiting: &mut [u8],
    image: &mut [u8],
) -> Turn
    requires taken { AreTaken (length image.old) items.old }
    requires size { length waiting.old ≡ length image.old }
    ensures { IsFormTurn (Some form) sent.now a.now b.now
        (held cycle.old items.old waiting.old image.old)
        result (held cycle.new items.new waiting.new image.new) }
{
    let mut frame = blank();
    match frame.refill(sent, form) {
        Ok(()) => turn_both(&frame, form, sent, a, b, cycle, items, waiting, image),
        Err(fault) => none_turned(TurnEnd::NotSent(fault)),
    }
}

/// Takes the packets that came back of a frame, where each item is taken over the image.
fn turn_fit(
    sent: &[u8],
    a: &[u8],
    b: &[u8],
    cycle: &mut Cycle,
    items: &mut [Item],
    waiting: &mut [u8],
    image: &mut [u8],
) -> Turn
    requires size { length waiting.old ≡ length image.old }
    ensures { IsFitTurn sent.now a.now b.now
        (held cycle.old items.old waiting.old image.old)
        result (held cycle.new items.new waiting.new image.new) }
{
    if let Some(refused) = first_refused(items, image.len()) {
        return none_turned(TurnEnd::Refused(refused.at, refused.why));
    }
    match form_of(cycle.form) {
        Some(form) => turn_packets(form, sent, a, b, cycle, items, waiting, image),
        None => none_turned(TurnEnd::BadForm),
    }
}

/// Takes the packets that came back of a frame of a cycle that is under way.
fn turn_open(
    sent: &[u8],
    a: &[u8],
    b: &[u8],
    cycle: &mut Cycle,
    items: &mut [Item],
    waiting: &mut [u8],
    image: &mut [u8],
) -> Turn
    ensures { IsOpenTurn sent.now a.now b.now
        (held cycle.old items.old waiting.old image.old)
        result (held cycle.new items.new waiting.new image.new) }
{
    if waiting.len() != image.len() {
        return none_turned(TurnEnd::NoRoom);
    }
    turn_fit(sent, a, b, cycle, items, waiting, image)
}

/// Takes the packets that came back of a frame of any cycle.
fn turn_any(
    sent: &[u8],
    a: &[u8],
    b: &[u8],
    cycle: &mut Cycle,
    items: &mut [Item],
    waiting: &mut [u8],
    image: &mut [u8],
) -> Turn
    ensures { IsTurn sent.now a.now b.now
        (held cycle.old items.old waiting.old image.old)
        result (held cycle.new items.new waiting.new image.new) }
{
    if cycle.state != UNDER_WAY {
        return none_turned(TurnEnd::Over);
    }
    turn_open(sent, a, b, cycle, items, waiting, image)
}

/// Nothing was made, since the cycle is not under way.
fn none_made() -> FrameAnswer
    ensures { result ≡ none_made }
{
    FrameAnswer {
        bytes: 0,
        items: 0,
        at: 0,
        code: Code::NotUnderWay.number(),
    }
}

/// Begins a cycle, whose packets are framed so.
#[unsafe(no_mangle)]
pub extern "C" fn rmp_cycle_begin(form: u32) -> Cycle
    ensures { result ≡ begun form }
{
    Cycle {
        first: 0,
        form,
        state: UNDER_WAY,
    }
}

/// Puts the next frame of a cycle at the front of `room`, which is the last one again while that has no good
/// answer; there is no item for it once all are answered. Any other end leaves `room` as it is.
#[unsafe(no_mangle)]
pub extern "C" fn rmp_cycle_next(
    cycle: &Cycle,
    items: &[Item],
    image: &[u8],
    room: &mut [u8],
) -> FrameAnswer
    ensures { IsNext cycle.now items.now image.now room.old result room.new }
{
    if cycle.state != UNDER_WAY {
        return none_made();
    }
    frame_end(items, image, cycle.first, room).answer()
}

/// Takes what came back of the frame that was sent last: joins the packets, judges the counters and keeps the
/// data in `waiting`, which is as large as the image. Behind the last frame of a cycle of which each is good,
/// the data go into the image. A verdict that is not good ends the cycle; any other end leaves all as it is.
#[unsafe(no_mangle)]
pub extern "C" fn rmp_cycle_came(
    cycle: &mut Cycle,
    items: &mut [Item],
    sent: &[u8],
    a: &[u8],
    b: &[u8],
    waiting: &mut [u8],
    image: &mut [u8],
) -> TurnAnswer
    ensures { (turn : Turn) × (result ≡ turn_answer turn) × IsTurn sent.now a.now b.now
        (held cycle.old items.old waiting.old image.old)
        turn (held cycle.new items.new waiting.new image.new) }
{
    turn_any(sent, a, b, cycle, items, waiting, image).answer()
}

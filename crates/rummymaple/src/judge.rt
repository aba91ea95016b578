//! What the working counters of a joined frame say.

ghost use Rattle.std.specs.Prelude.{◌≡◌};
ghost use Rattle.rummymaple.specs.Judge.{IsJudgedFrame, IsJudged, judge_answer};
ghost use Rattle.rummymaple.specs.declared.judge.JudgeEnd.{JudgeEnd};

use crate::answered::{first_other, take_counts, verdict};
use crate::item::Item;
use crate::numbers::Code;
use crate::packet::blank;
use ec_master::Verdict;
use ec_wire::{Form, FrameBuf, WireFault};

/// How the judging of a joined frame ended.
#[derive(Clone, Copy)]
pub enum JudgeEnd {
    /// The counters are judged.
    Judged(Verdict),
    /// This datagram is the first that is not the answer of its item.
    Other(usize),
    /// What is said to be joined is no frame.
    NotJoined(WireFault),
}

/// How the judging or the storing of a joined frame ended, in numbers: `struct rmp_answer` of the header.
#[repr(C)]
#[derive(Clone, Copy)]
pub struct ItemAnswer {
    /// The number of an item, the datagram that answers none, or the byte at fault.
    pub at: usize,
    /// How it ended.
    pub code: u32,
}

impl JudgeEnd {
    /// The end in numbers.
    fn answer(self) -> ItemAnswer
        ensures { result ≡ judge_answer self }
    {
        let (at, code) = match self {
            JudgeEnd::Judged(Verdict::Good) => (0, Code::Good),
            JudgeEnd::Judged(Verdict::Short(k)) => (k, Code::Short),
            JudgeEnd::Judged(Verdict::Over(k)) => (k, Code::Over),
            JudgeEnd::Other(j) => (j, Code::OtherItem),
            JudgeEnd::NotJoined(fault) => (fault.at, Code::NotJoined),
        };
        ItemAnswer {
            at,
            code: code.number(),
        }
    }
}

/// Judges a frame that answers the items from `first` on.
fn judge_frame(items: &mut [Item], first: usize, frame: &FrameBuf) -> JudgeEnd
    ensures { IsJudgedFrame items.old first frame.now result items.new }
{
    if let Some(j) = first_other(items, first, frame) {
        return JudgeEnd::Other(j);
    }
    let verdict = verdict(items, first, frame);
    take_counts(items, first, frame);
    JudgeEnd::Judged(verdict)
}

/// Judges the frame that the bytes spell.
fn judge(items: &mut [Item], first: usize, joined: &[u8]) -> JudgeEnd
    ensures { IsJudged items.old first joined.now result items.new }
{
    let mut frame = blank();
    match frame.refill(joined, Form::Udp) {
        Ok(()) => judge_frame(items, first, &frame),
        Err(fault) => JudgeEnd::NotJoined(fault),
    }
}

/// Judges a joined frame, whose datagrams answer the items from `first` on: the first item whose counter has
/// not moved by what is expected, or good. Writes what came back into these items, and leaves all else; an
/// end that is no verdict leaves the items as they are.
#[unsafe(no_mangle)]
pub extern "C" fn rmp_judge(items: &mut [Item], first: usize, joined: &[u8]) -> ItemAnswer
    ensures { (end : JudgeEnd) × (result ≡ judge_answer end)
        × IsJudged items.old first joined.now end items.new }
{
    judge(items, first, joined).answer()
}

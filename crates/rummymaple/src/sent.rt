//! The frame of a turn, put into the caller's room.

ghost use Rattle.std.specs.Prelude.{◌≡◌};
ghost use Rattle.rummymaple.specs.Sent.{IsSentPut, sent_answer, sent_code, sent_count};

use crate::numbers::Code;
use crate::packet::{WrittenAnswer, put_frame};
use ec_wire::FrameBuf;

/// How the making of the frame of a turn ended.
#[derive(Clone, Copy)]
pub enum SentEnd {
    /// The frame has so many bytes.
    Made(usize),
    /// No frame goes out in this turn.
    Nothing,
    /// It does not fit the room for it.
    NoRoom,
    /// The numbers are those of nothing that is under way.
    BadNumbers,
    /// What it is of is not under way.
    Over,
}

impl SentEnd {
    /// Its code.
    fn code(self) -> Code
        ensures { result ≡ sent_code self }
    {
        match self {
            SentEnd::Made(_) | SentEnd::Nothing => Code::Good,
            SentEnd::NoRoom => Code::NoRoom,
            SentEnd::BadNumbers => Code::BadNumbers,
            SentEnd::Over => Code::NotUnderWay,
        }
    }

    /// How many bytes were put.
    fn count(self) -> usize
        ensures { result ≡ sent_count self }
    {
        match self {
            SentEnd::Made(count) => count,
            _ => 0,
        }
    }

    /// The end in numbers.
    pub(crate) fn answer(self) -> WrittenAnswer
        ensures { result ≡ sent_answer self }
    {
        WrittenAnswer {
            bytes: self.count(),
            at: 0,
            code: self.code().number(),
        }
    }
}

/// Puts the frame of a turn at the front of the room, if there is one.
pub(crate) fn put_sent(sent: &Option<FrameBuf>, room: &mut [u8]) -> SentEnd
    ensures { IsSentPut sent.now room.old result room.new }
{
    let Some(frame) = sent else {
        return SentEnd::Nothing;
    };
    match put_frame(frame, room) {
        Some(count) => SentEnd::Made(count),
        None => SentEnd::NoRoom,
    }
}

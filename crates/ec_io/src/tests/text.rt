//! Questions and replies, with the bytes written out by hand.

use super::{BEFORE, assert_same, cut_fault};
use crate::fault::{NoRoom, PacketFault};
use crate::layout::{MAX_TEXT, QUESTION_HEAD, REPLY_HEAD};
use crate::order::Order;
use crate::question::Question;
use crate::reply::Reply;
use crate::report::Report;
use std::process::Abort;
use std::test::Fail;

/// Questions, and their bytes.
const QUESTIONS: [(Question<'static>, &[u8]); 2] = [
    (
        Question {
            number: 0,
            line: &[],
        },
        &[
            0x45, 0x63, 0x49, 0x4F, 0x01, 0x03, 0x00, 0x00, 0x00, 0x00, 0x00, 0x00, 0x00, 0x00,
            0x00, 0x00,
        ],
    ),
    (
        Question {
            number: 0x0123_4567_89AB_CDEF,
            line: b"cable",
        },
        &[
            0x45, 0x63, 0x49, 0x4F, 0x01, 0x03, 0x05, 0x00, 0xEF, 0xCD, 0xAB, 0x89, 0x67, 0x45,
            0x23, 0x01, 0x63, 0x61, 0x62, 0x6C, 0x65,
        ],
    ),
];

/// Replies, and their bytes.
const REPLIES: [(Reply<'static>, &[u8]); 3] = [
    (
        Reply {
            number: 7,
            place: 0,
            is_last: true,
            text: b"ok\n",
        },
        &[
            0x45, 0x63, 0x49, 0x4F, 0x01, 0x04, 0x03, 0x00, 0x07, 0x00, 0x00, 0x00, 0x00, 0x00,
            0x00, 0x00, 0x00, 0x00, 0x01, 0x00, 0x6F, 0x6B, 0x0A,
        ],
    ),
    (
        Reply {
            number: u64::MAX,
            place: 0x0102,
            is_last: false,
            text: b"A",
        },
        &[
            0x45, 0x63, 0x49, 0x4F, 0x01, 0x04, 0x01, 0x00, 0xFF, 0xFF, 0xFF, 0xFF, 0xFF, 0xFF,
            0xFF, 0xFF, 0x02, 0x01, 0x00, 0x00, 0x41,
        ],
    ),
    (
        Reply {
            number: 0x0102_0304_0506_0708,
            place: u16::MAX,
            is_last: true,
            text: &[],
        },
        &[
            0x45, 0x63, 0x49, 0x4F, 0x01, 0x04, 0x00, 0x00, 0x08, 0x07, 0x06, 0x05, 0x04, 0x03,
            0x02, 0x01, 0xFF, 0xFF, 0x01, 0x00,
        ],
    ),
];

/// Asserts that bytes are a question that says so, and that it is written so.
fn assert_question(rt: &impl Abort, question: Question<'_>, bytes: &[u8]) -> Result<(), Fail> {
    let read = Question::read(bytes)?;
    assert_same(rt, read, question);
    let mut room = [BEFORE; 64];
    let size = read.write(&mut room)?;
    assert_same(rt, &room[..size], bytes);
    assert_same(rt, room[size..].iter().all(|byte| *byte == BEFORE), true);
    Ok(())
}

/// Asserts that bytes are a reply that says so, and that it is written so.
fn assert_reply(rt: &impl Abort, reply: Reply<'_>, bytes: &[u8]) -> Result<(), Fail> {
    let read = Reply::read(bytes)?;
    assert_same(rt, read, reply);
    let mut room = [BEFORE; 64];
    let size = read.write(&mut room)?;
    assert_same(rt, &room[..size], bytes);
    assert_same(rt, room[size..].iter().all(|byte| *byte == BEFORE), true);
    Ok(())
}

#[test]
fn questions_are_read_and_written(rt: HostRuntime) -> Result<(), Fail> {
    for (question, bytes) in QUESTIONS {
        assert_question(&rt, question, bytes)?;
        let other = Some(PacketFault::OtherKind(3));
        assert_same(&rt, Order::read(bytes).err(), other);
        for left in 0..bytes.len() {
            let fault = cut_fault(QUESTION_HEAD, left);
            assert_same(&rt, Question::read(&bytes[..left]).err(), fault);
        }
    }
    Ok(())
}

#[test]
fn replies_are_read_and_written(rt: HostRuntime) -> Result<(), Fail> {
    for (reply, bytes) in REPLIES {
        assert_reply(&rt, reply, bytes)?;
        let other = Some(PacketFault::OtherKind(4));
        assert_same(&rt, Order::read(bytes).err(), other);
        assert_same(&rt, Question::read(bytes).err(), other);
        assert_same(&rt, Report::read(bytes).is_err(), true);
        for left in 0..bytes.len() {
            let fault = cut_fault(REPLY_HEAD, left);
            assert_same(&rt, Reply::read(&bytes[..left]).err(), fault);
        }
    }
    Ok(())
}

/// The bytes of the first reply with another one at a place.
fn changed(at: usize, byte: u8) -> [u8; 23] {
    let mut bytes = [0; 23];
    bytes.copy_from_slice(REPLIES[0].1);
    if at < bytes.len() {
        bytes[at] = byte;
    }
    bytes
}

#[test]
fn a_reply_is_the_last_one_or_not(rt: HostRuntime) {
    for (at, byte, wanted) in [
        (18, 0, None),
        (18, 2, Some(PacketFault::BadLast(2))),
        (19, 1, Some(PacketFault::BadLast(0x0101))),
        (5, 3, Some(PacketFault::OtherKind(3))),
        (6, 2, Some(PacketFault::Length)),
    ] {
        assert_same(&rt, Reply::read(&changed(at, byte)).err(), wanted);
    }
}

#[test]
fn text_of_more_than_1024_bytes_is_no_packet(rt: HostRuntime) -> Result<(), Fail> {
    let text = [0x41; MAX_TEXT + 1];
    let mut room = [BEFORE; QUESTION_HEAD + MAX_TEXT + 1];
    let long = Question {
        number: 1,
        line: &text,
    };
    assert_same(&rt, long.write(&mut room), Err(NoRoom));
    assert_same(&rt, room.iter().all(|byte| *byte == BEFORE), true);
    let most = Question {
        number: 1,
        line: &text[..MAX_TEXT],
    };
    let size = most.write(&mut room)?;
    assert_same(&rt, size, QUESTION_HEAD + MAX_TEXT);
    assert_same(&rt, Question::read(&room[..size]), Ok(most));
    room[6] = 0x01;
    let fault = Some(PacketFault::LongText);
    assert_same(&rt, Question::read(&room).err(), fault);
    Ok(())
}

//! Masters that answer from a list of packets.

use crate::master::{Master, Unanswered, ask};
use crate::row::Row;
use crate::told::Told;
use ec_io::{Question, Reply};
use std::fmt::Debug;
use std::process::Abort;
use std::test::Fail;

/// The number of the question.
const NUMBER: u64 = 7;

/// Asserts that what was found is what was wanted; once for all tests.
fn assert_same<T: PartialEq + Debug + Drop>(rt: &impl Abort, found: T, wanted: T) {
    assert_eq!(rt; found, wanted);
}

/// What comes to an asker: a reply, bytes that are none, or nothing for as long as it waits.
#[derive(Clone, Copy)]
enum Comes {
    Reply(Reply<'static>),
    Bytes(&'static [u8]),
    Nothing,
}

/// A master that answers so, whatever it is asked; and how often it was.
#[derive(Drop)]
struct Scripted<'a> {
    comes: &'a [Comes],
    at: usize,
    sent: usize,
    pauses: usize,
    /// Whether each question had the number and was `cable`.
    is_same: bool,
}

impl<'a> Scripted<'a> {
    fn of(comes: &'a [Comes]) -> Scripted<'a> {
        Scripted {
            comes,
            at: 0,
            sent: 0,
            pauses: 0,
            is_same: true,
        }
    }
}

impl Master for Scripted<'_> {
    fn send(&mut self, packet: &[u8]) -> bool {
        self.sent = self.sent.saturating_add(1);
        let wanted = Question {
            number: NUMBER,
            line: b"cable",
        };
        self.is_same = self.is_same && Question::read(packet) == Ok(wanted);
        true
    }

    fn receive(&mut self, into: &mut [u8]) -> Option<usize> {
        let comes = *self.comes.get(self.at)?;
        self.at = self.at.saturating_add(1);
        match comes {
            Comes::Reply(reply) => reply.write(into).ok(),
            Comes::Bytes(bytes) => {
                into.get_mut(..bytes.len())?.copy_from_slice(bytes);
                Some(bytes.len())
            }
            Comes::Nothing => None,
        }
    }

    fn pause(&mut self) {
        self.pauses = self.pauses.saturating_add(1);
    }
}

/// A reply to the question of this number.
const fn to(number: u64, place: u16, is_last: bool, text: &'static [u8]) -> Comes {
    Comes::Reply(Reply {
        number,
        place,
        is_last,
        text,
    })
}

/// Asserts what comes of a question, the text of its answer, and how often it was sent.
fn assert_asked(
    rt: &(impl Abort + AllocGlobal),
    comes: &[Comes],
    wanted: Result<&[u8], Unanswered>,
    sent: usize,
) {
    let mut master = Scripted::of(comes);
    let mut row = Row::new(rt.alloc(), NUMBER);
    let asked = ask(&mut master, b"cable", &mut row);
    let found = match asked {
        Ok(()) => Ok(row.text()),
        Err(fault) => Err(fault),
    };
    assert_same(rt, found, wanted);
    assert_same(rt, master.sent, sent);
    assert_same(rt, master.is_same, true);
}

#[test]
fn an_answer_of_one_reply_is_whole(rt: HostRuntime) {
    let comes = [to(NUMBER, 0, true, b"ring whole\nok\n")];
    assert_asked(&rt, &comes, Ok(b"ring whole\nok\n"), 1);
}

#[test]
fn a_reply_to_the_question_before_is_passed_over(rt: HostRuntime) {
    let comes = [
        to(6, 0, true, b"value 0x01\nok\n"),
        to(NUMBER, 0, true, b"ok\n"),
    ];
    assert_asked(&rt, &comes, Ok(b"ok\n"), 1);
}

#[test]
fn what_is_no_reply_is_passed_over(rt: HostRuntime) {
    let comes = [
        Comes::Bytes(b"EcIO"),
        Comes::Bytes(b""),
        to(NUMBER, 0, true, b"ok\n"),
    ];
    assert_asked(&rt, &comes, Ok(b"ok\n"), 1);
}

#[test]
fn a_row_with_a_reply_missing_is_not_whole(rt: HostRuntime) {
    let comes = [
        to(NUMBER, 0, false, b"a\n"),
        to(NUMBER, 2, true, b"ok\n"),
        Comes::Nothing,
        to(NUMBER, 0, false, b"a\n"),
        to(NUMBER, 1, false, b"b\n"),
        to(NUMBER, 2, true, b"ok\n"),
    ];
    assert_asked(&rt, &comes, Ok(b"a\nb\nok\n"), 2);
}

#[test]
fn a_question_is_sent_three_times(rt: HostRuntime) {
    assert_asked(&rt, &[], Err(Unanswered::NoAnswer), 3);
    let comes = [Comes::Nothing, Comes::Nothing, to(NUMBER, 0, true, b"ok\n")];
    assert_asked(&rt, &comes, Ok(b"ok\n"), 3);
}

#[test]
fn who_asks_beside_another_waits(rt: HostRuntime) {
    let comes = [
        to(
            NUMBER,
            0,
            true,
            b"refused: Busy, wanted one question at a time\n",
        ),
        to(NUMBER, 0, true, b"ok\n"),
    ];
    assert_asked(&rt, &comes, Ok(b"ok\n"), 2);
}

#[test]
fn a_line_of_more_than_1024_bytes_is_not_sent(rt: HostRuntime) {
    let line = [0x41; 1_025];
    let mut master = Scripted::of(&[]);
    let mut row = Row::new(rt.alloc(), NUMBER);
    let asked = ask(&mut master, &line, &mut row);
    assert_same(&rt, asked, Err(Unanswered::LongLine));
    assert_same(&rt, master.sent, 0);
}

#[test]
fn an_answer_says_what_came_of_it(rt: HostRuntime) {
    for (text, wanted) in [
        (b"ok\n".as_slice(), Told::Done(b"")),
        (b"ring whole\nok\n", Told::Done(b"ring whole\n")),
        (b"failed: fault NoSlave\n", Told::Failed(b"fault NoSlave")),
        (
            b"refused: Busy, wanted x\n",
            Told::Refused(b"Busy, wanted x"),
        ),
        (b"ring whole ok\n", Told::Nothing),
        (b"", Told::Nothing),
    ] {
        assert_same(&rt, Told::of(text), wanted);
    }
}

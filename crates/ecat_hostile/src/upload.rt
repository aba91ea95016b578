//! A mail that uploads 0x1018:01, cut short at each byte, and with each byte changed to each other one.

ghost use Rattle.std.specs.Prelude.{◌<◌};

use crate::slave::{STATION, holds_its_object, passes, slave};
use arrayvec::ArrayVec;
use ec_app::{Mail, MailFault};
use ec_wire::{Command, Datagram, FrameBuf};
use std::alloc::Global;
use std::process::Abort;

/// The mail: an upload of 0x1018:01, with counter 1.
const UPLOAD: [u8; 16] = [
    0x0A, 0x00, 0x00, 0x00, 0x00, 0x13, 0x00, 0x20, 0x40, 0x18, 0x10, 0x01, 0x00, 0x00, 0x00, 0x00,
];

/// How the changed mails are answered.
#[derive(Clone, Copy, PartialEq, Eq, Debug, Default)]
struct Answers {
    good: u32,
    wrong_length: u32,
    reserved: u32,
    wrong_type: u32,
    bad_counter: u32,
    short: u32,
}

/// All changes of one byte: sixteen places, and 255 other values at each.
const CHANGES: u32 = 4080;

/// How many of them have which answer.
const ANSWERS: Answers = Answers {
    good: 3069,
    wrong_length: 510,
    reserved: 352,
    wrong_type: 148,
    bad_counter: 1,
    short: 0,
};

/// How many are refused, with whichever fault.
const REFUSED: u32 = 1011;

impl Answers {
    /// Counts one answer.
    fn count(&mut self, answer: &Result<Mail, MailFault>) {
        let count = match answer {
            Ok(_) => &mut self.good,
            Err(fault) => self.of(*fault),
        };
        *count = count.wrapping_add(1);
    }

    /// The count of a fault.
    fn of(&mut self, fault: MailFault) -> &mut u32 {
        match fault {
            MailFault::Short => &mut self.short,
            MailFault::WrongType => &mut self.wrong_type,
            MailFault::BadCounter => &mut self.bad_counter,
            MailFault::Reserved => &mut self.reserved,
            MailFault::WrongLength => &mut self.wrong_length,
        }
    }

    /// How many are refused.
    fn refused(&self) -> u32 {
        self.wrong_length
            .wrapping_add(self.reserved)
            .wrapping_add(self.wrong_type)
            .wrapping_add(self.bad_counter)
            .wrapping_add(self.short)
    }
}

/// The mail with the byte at a place changed.
fn changed(place: usize, change: u8) -> [u8; 16]
    requires { place < 16 }
{
    let mut bytes = UPLOAD;
    bytes[place] ^= change;
    bytes
}

#[test]
fn each_cut_is_short(rt: HostRuntime) {
    for cut in 0..16usize {
        let found = Mail::read(&UPLOAD[..cut]);
        assert_eq!(rt; found, Err(MailFault::Short), "cut to {cut}");
    }
}

#[test]
fn each_changed_byte_is_taken_or_refused_by_name(rt: HostRuntime) {
    let mut answers = Answers::default();
    for place in 0..16usize {
        for change in 1..=255u8 {
            answers.count(&Mail::read(&changed(place, change)));
        }
    }
    assert_eq!(rt; answers, ANSWERS);
    assert_eq!(rt; answers.refused(), REFUSED);
    assert_eq!(rt; ANSWERS.good.wrapping_add(REFUSED), CHANGES);
}

/// The status byte of the mailbox that the master writes, and what it is where the mailbox is full.
const MAILBOX_STATUS: u16 = 0x0805;

const FULL: u8 = 0x08;

/// A frame that writes a mail, and zeros after it, to the slave's mailbox.
fn posting(rt: &impl Abort, mail: &[u8; 16]) -> FrameBuf {
    let mut payload = ArrayVec::new();
    payload.try_extend_from_slice(mail).expect(rt, "room");
    payload.try_extend_from_slice(&[0; 16]).expect(rt, "room");
    FrameBuf::of(&Datagram {
        command: Command::Fpwr,
        index: 0,
        address: 0x1800_1001,
        circulating: false,
        irq: 0,
        payload,
        counter: 0,
    })
}

/// Puts a mail into the mailbox of a new slave, which takes it from there in one step and keeps its object.
fn take_in_one_step(rt: &impl Abort, alloc: Global, mail: &[u8; 16]) {
    let mut slave = slave(rt, alloc, STATION);
    assert!(rt; passes(&mut slave, &posting(rt, mail)));
    assert_eq!(rt; slave.controller().byte(MAILBOX_STATUS), FULL);
    slave.step();
    assert_eq!(rt; slave.controller().byte(MAILBOX_STATUS), 0);
    assert!(rt; holds_its_object(&slave));
}

#[test]
fn object_stays_after_each_changed_mail(rt: HostRuntime) {
    for place in 0..16usize {
        for change in 1..=255u8 {
            take_in_one_step(&rt, rt.alloc(), &changed(place, change));
        }
    }
}

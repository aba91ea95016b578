//! Verbs on a slave: its records, frames of one datagram, requests for states, and mails.

ghost use Rattle.std.specs.Prelude.{◌<◌};

use crate::answer::Answer;
use crate::controller::{act_on_controller, tell_of_controller};
use crate::objects::tell_of_objects;
use crate::records::u16_of;
use crate::words::{Fault, Words};
use arrayvec::ArrayVec;
use ec_app::Slave;
use ec_regs::{Fmmu, SyncMan};
use ec_wire::{Command, Datagram, FrameBuf, address_of};

/// The mailbox that the master writes, and the one that it reads, of 32 bytes each.
const REQUESTS: u16 = 0x1800;

const ANSWERS: u16 = 0x1880;

/// How many bytes a mail has.
const MAIL: usize = 16;

/// Verbs that read a slave.
pub fn tell_of_slave(
    verb: &str,
    slave: &Slave,
    words: &mut Words<'_>,
    answer: &mut Answer,
) -> bool {
    match verb {
        "slave_state" => answer.name(slave.state()),
        "held" | "held_count" => return tell_of_objects(verb, slave.objects(), words, answer),
        _ => return tell_of_controller(verb, slave.controller(), words, answer),
    }
    true
}

/// Gives a slave an FMMU.
pub fn set_fmmu(slave: &mut Slave, number: usize, fmmu: &Fmmu)
    requires { number < 8 }
{
    slave.controller_mut().set_fmmu(number, fmmu);
}

/// Gives a slave a sync manager.
pub fn set_manager(slave: &mut Slave, number: usize, manager: &SyncMan)
    requires { number < 8 }
{
    slave.controller_mut().set_syncman(number, manager);
}

/// One pass of a frame through the slave's controller.
pub fn pass(slave: &mut Slave, frame: &mut FrameBuf) {
    slave.controller_mut().process(frame);
}

/// Verbs that change a slave.
pub fn act_on_slave(
    verb: &str,
    slave: &mut Slave,
    words: &mut Words<'_>,
    answer: &mut Answer,
) -> bool {
    match verb {
        "step" => slave.step(),
        "set_state" => slave.set_state(words.state()),
        "asked" => ask(slave, words, answer),
        "fpwr" => {
            let address = u16_of(words);
            answer.put(write(slave, address, words.bytes_to("").as_slice()));
        }
        "post" => post(slave, words, answer),
        "collects" => answer.put(collected(slave).is_some()),
        "collect" => match collected(slave) {
            Some(area) => answer.bytes(&area),
            None => answer.put("none"),
        },
        "answered" => {
            post(slave, words, answer);
            slave.step();
            put_answer(answer, collected(slave));
        }
        _ => return act_on_records(verb, slave, words, answer),
    }
    true
}

/// Verbs that change a slave's controller.
fn act_on_records(
    verb: &str,
    slave: &mut Slave,
    words: &mut Words<'_>,
    answer: &mut Answer,
) -> bool {
    act_on_controller(verb, slave.controller_mut(), words, answer)
}

/// `asked CONTROL`: AL control is written, and the slave takes its step; the counter of the write, and the
/// byte of AL status and the AL status code then.
fn ask(slave: &mut Slave, words: &mut Words<'_>, answer: &mut Answer) {
    let control = u16_of(words);
    answer.put(write(slave, 0x0120, &control.to_le_bytes()));
    slave.step();
    let (status, code) = slave.controller().al();
    answer.hex_byte(status.byte());
    answer.hex(u64::from(code));
}

/// A frame of one datagram for a slave, as it comes back.
fn passed(slave: &mut Slave, command: Command, address: u16, bytes: &[u8]) -> FrameBuf {
    let mut payload = ArrayVec::new();
    let _ = payload.try_extend_from_slice(bytes);
    let station = slave.controller().station();
    let mut frame = FrameBuf::of(&Datagram {
        command,
        index: 0,
        address: address_of(station, address),
        circulating: false,
        irq: 0,
        payload,
        counter: 0,
    });
    pass(slave, &mut frame);
    frame
}

/// The counter with which a write of these bytes comes back.
fn write(slave: &mut Slave, address: u16, bytes: &[u8]) -> u16 {
    let frame = passed(slave, Command::Fpwr, address, bytes);
    if frame.count() == 0 {
        return 0;
    }
    frame.counter(0)
}

/// `post BYTES`: a mail and zeros after it fill the mailbox of requests; the counter of the write.
fn post(slave: &mut Slave, words: &mut Words<'_>, answer: &mut Answer) {
    let mail = words.bytes_to("");
    let mut area = [0; 32];
    if mail.len() == MAIL {
        area[..MAIL].copy_from_slice(mail.as_slice());
        answer.put(write(slave, REQUESTS, &area));
    } else {
        words.refuse(Fault::TooFewWords);
    }
}

/// What a read of the mailbox of answers gives, where it counts.
fn collected(slave: &mut Slave) -> Option<[u8; 32]> {
    let frame = passed(slave, Command::Fprd, ANSWERS, &[0; 32]);
    if frame.count() == 0 {
        return None;
    }
    if frame.counter(0) == 0 {
        return None;
    }
    let data = frame.data(0);
    if data.len() != 32 {
        return None;
    }
    let mut area = [0; 32];
    area.copy_from_slice(data);
    Some(area)
}

/// Answers a mail that was read; what is behind it too, where that is not zero.
fn put_answer(answer: &mut Answer, area: Option<[u8; 32]>) {
    match area {
        Some(area) => {
            answer.bytes(&area[..MAIL]);
            if area[MAIL..].iter().any(|byte| *byte != 0) {
                answer.bytes(&area[MAIL..]);
            }
        }
        None => answer.put("none"),
    }
}

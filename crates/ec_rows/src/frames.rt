//! Verbs on the last frame, on what bytes are a frame, and on the join of values: `ec_wire` and `ec_merge`.

ghost use Rattle.std.specs.Prelude.{◌<◌, length, IfSome};

use crate::answer::Answer;
use crate::records::{u8_of, u16_of, u32_of};
use crate::words::{Fault, Words};
use arrayvec::ArrayVec;
use ec_merge::{Byte, Counter, Flag, Irq, Merge, join_bytes};
use ec_wire::{Datagram, Form, FrameBuf, WireFault, address_of, ado_of, adp_of};

/// `ethernet` or `udp`: where bytes come from.
pub fn form_of(words: &mut Words<'_>) -> Form {
    match words.word() {
        "ethernet" => Form::Ethernet,
        "udp" => Form::Udp,
        _ => {
            words.refuse(Fault::BadName);
            Form::Udp
        }
    }
}

/// Answers `ok`, or a fault and its place.
pub fn put_fault(answer: &mut Answer, fault: Option<WireFault>) {
    match fault {
        Some(fault) => {
            answer.name(fault.kind);
            answer.put(fault.at);
        }
        None => answer.put("ok"),
    }
}

/// A datagram: COMMAND INDEX ADDRESS CIRCULATING IRQ COUNTER BYTES.
pub fn datagram_of(words: &mut Words<'_>) -> Datagram {
    let command = words.command();
    let index = u8_of(words);
    let address = u32_of(words);
    let circulating = words.yes();
    let irq = u16_of(words);
    let counter = u16_of(words);
    let mut payload = ArrayVec::new();
    if payload
        .try_extend_from_slice(words.bytes_to("").as_slice())
        .is_err()
    {
        words.refuse(Fault::OutOfRange);
    }
    Datagram {
        command,
        index,
        address,
        circulating,
        irq,
        payload,
        counter,
    }
}

/// The number of a datagram that the frame has.
fn number_in(frame: &FrameBuf, words: &mut Words<'_>) -> Option<usize>
    ensures { IfSome result (λ k. k < length frame.now) }
{
    let k = words.number(127) as usize;
    if k < frame.count() {
        Some(k)
    } else {
        words.refuse(Fault::OutOfRange);
        None
    }
}

/// Verbs that read the last frame.
pub fn tell_of_frame(
    verb: &str,
    frame: &FrameBuf,
    words: &mut Words<'_>,
    answer: &mut Answer,
) -> bool {
    match verb {
        "spelt" => answer.bytes(frame.bytes()),
        "count" => answer.put(frame.count()),
        "length" => answer.put(frame.bytes().len()),
        "datagram" => {
            if let Some(k) = number_in(frame, words) {
                put_datagram(answer, frame, k);
            }
        }
        "data" => {
            if let Some(k) = number_in(frame, words) {
                answer.bytes(frame.data(k));
            }
        }
        "alone" => {
            if let Some(k) = number_in(frame, words) {
                answer.bytes(FrameBuf::of(&frame.get(k)).bytes());
            }
        }
        _ => return false,
    }
    true
}

/// Answers the fields of a datagram but its data, as a line gives them.
fn put_datagram(answer: &mut Answer, frame: &FrameBuf, k: usize)
    requires { k < length frame.now }
{
    answer.put(frame.command(k).name());
    answer.put(frame.index(k));
    answer.hex(u64::from(frame.address(k)));
    answer.put(frame.circulating(k));
    answer.hex(u64::from(frame.irq(k)));
    answer.hex(u64::from(frame.counter(k)));
}

/// Verbs that change the last frame: `refill FORM BYTES`, `push DATAGRAM`, `push_again K`, and `frame_FIELD K
/// VALUE`.
pub fn act_on_frame(
    verb: &str,
    frame: &mut FrameBuf,
    words: &mut Words<'_>,
    answer: &mut Answer,
) -> bool {
    match verb {
        "refill" => {
            let form = form_of(words);
            put_fault(
                answer,
                frame.refill(words.bytes_to("").as_slice(), form).err(),
            );
        }
        "push" => put_pushed(frame, &datagram_of(words), answer),
        "push_again" => {
            if let Some(k) = number_in(frame, words) {
                let datagram = frame.get(k);
                put_pushed(frame, &datagram, answer);
            }
        }
        _ => match verb.strip_prefix("frame_") {
            Some(field) => match number_in(frame, words) {
                Some(k) => return set_field(field, frame, k, words),
                None => return true,
            },
            None => return false,
        },
    }
    true
}

/// Pushes a datagram, and answers whether there was room.
fn put_pushed(frame: &mut FrameBuf, datagram: &Datagram, answer: &mut Answer) {
    match frame.push(datagram) {
        Ok(()) => answer.put("ok"),
        Err(full) => answer.name(full),
    }
}

/// Sets a field of a datagram.
fn set_field(field: &str, frame: &mut FrameBuf, k: usize, words: &mut Words<'_>) -> bool
    requires { k < length frame.old }
{
    match field {
        "counter" => frame.set_counter(k, u16_of(words)),
        "adp" => frame.set_adp(k, u16_of(words)),
        "irq" => frame.set_irq(k, u16_of(words)),
        "circulating" => frame.set_circulating(k, words.yes()),
        "data" => set_data(frame, k, words),
        _ => return false,
    }
    true
}

/// Sets the data of a datagram, as many bytes as it has.
fn set_data(frame: &mut FrameBuf, k: usize, words: &mut Words<'_>)
    requires { k < length frame.old }
{
    let bytes = words.bytes_to("");
    let data = frame.data_mut(k);
    if data.len() == bytes.len() {
        data.copy_from_slice(bytes.as_slice());
    } else {
        words.refuse(Fault::OutOfRange);
    }
}

/// Verbs on addresses, and on the join of a sent value and of two copies of it.
pub fn tell_of_values(verb: &str, words: &mut Words<'_>, answer: &mut Answer) -> bool {
    match verb {
        "address_of" => {
            let adp = u16_of(words);
            answer.hex(u64::from(address_of(adp, u16_of(words))));
        }
        "adp_of" => answer.hex(u64::from(adp_of(u32_of(words)))),
        "ado_of" => answer.hex(u64::from(ado_of(u32_of(words)))),
        "join_counter" => {
            let (sent, a, b) = (u16_of(words), u16_of(words), u16_of(words));
            let Counter(joined) = Counter::join(Counter(sent), Counter(a), Counter(b));
            answer.put(joined);
        }
        "join_irq" => {
            let (sent, a, b) = (u16_of(words), u16_of(words), u16_of(words));
            let Irq(joined) = Irq::join(Irq(sent), Irq(a), Irq(b));
            answer.hex(u64::from(joined));
        }
        "join_byte" => {
            let (sent, a, b) = (u8_of(words), u8_of(words), u8_of(words));
            let Byte(joined) = Byte::join(Byte(sent), Byte(a), Byte(b));
            answer.hex_byte(joined);
        }
        "join_flag" => {
            let (sent, a, b) = (words.yes(), words.yes(), words.yes());
            let Flag(joined) = Flag::join(Flag(sent), Flag(a), Flag(b));
            answer.put(joined);
        }
        "join_bytes" => tell_joined(words, answer),
        _ => return false,
    }
    true
}

/// `join_bytes SENT and A and B`: runs of bytes of one length, joined.
fn tell_joined(words: &mut Words<'_>, answer: &mut Answer) {
    let sent = words.bytes_to("and");
    let mut into = words.bytes_to("and");
    let other = words.bytes_to("");
    if into.len() == sent.len() && other.len() == sent.len() {
        join_bytes(sent.as_slice(), into.as_mut_slice(), other.as_slice());
        answer.bytes(into.as_slice());
    } else {
        words.refuse(Fault::OutOfRange);
    }
}

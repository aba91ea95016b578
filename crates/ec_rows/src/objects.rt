//! Verbs on objects, SDOs, mails and abort codes: `ec_app` without a slave.

use crate::answer::Answer;
use crate::records::{fill, u8_of, u16_of, u32_of};
use crate::words::{Fault, Words};
use ec_app::mail::{REQUEST, RESPONSE};
use ec_app::{AbortCode, Mail, Objects, Rights, Sdo, Value};

/// `One`, `Two` or `Four`, and a number of so many bytes.
pub fn value_of(words: &mut Words<'_>) -> Value {
    match words.word() {
        "One" => Value::One(u8_of(words)),
        "Two" => Value::Two(u16_of(words)),
        "Four" => Value::Four(u32_of(words)),
        _ => {
            words.refuse(Fault::BadName);
            Value::One(0)
        }
    }
}

/// `ReadOnly`, `WriteOnly` or `Both`.
fn rights_of(words: &mut Words<'_>) -> Rights {
    match words.word() {
        "ReadOnly" => Rights::ReadOnly,
        "WriteOnly" => Rights::WriteOnly,
        "Both" => Rights::Both,
        _ => {
            words.refuse(Fault::BadName);
            Rights::Both
        }
    }
}

/// An SDO: its kind and its fields, INDEX SUB and a value or the code of an abort; `Other` and eight bytes.
fn sdo_of(words: &mut Words<'_>) -> Sdo {
    let kind = words.word();
    if kind == "Other" {
        let mut bytes = [0; 8];
        fill(&mut bytes, words);
        return Sdo::Other(bytes);
    }
    let index = u16_of(words);
    let sub = u8_of(words);
    match kind {
        "Upload" => Sdo::Upload { index, sub },
        "DownloadAnswer" => Sdo::DownloadAnswer { index, sub },
        "UploadAnswer" => {
            let value = value_of(words);
            Sdo::UploadAnswer { index, sub, value }
        }
        "Download" => {
            let value = value_of(words);
            Sdo::Download { index, sub, value }
        }
        "Abort" => {
            let code = u32_of(words);
            Sdo::Abort { index, sub, code }
        }
        _ => {
            words.refuse(Fault::BadName);
            Sdo::Upload { index, sub }
        }
    }
}

/// Answers a value: `One`, `Two` or `Four`, and the number.
pub fn put_value(answer: &mut Answer, value: Value) {
    match value {
        Value::One(number) => {
            answer.put("One");
            answer.hex_byte(number);
        }
        Value::Two(number) => {
            answer.put("Two");
            answer.hex(u64::from(number));
        }
        Value::Four(number) => {
            answer.put("Four");
            answer.hex(u64::from(number));
        }
    }
}

/// Answers what an object holds, `none` where there is none.
pub fn put_held(answer: &mut Answer, held: Option<(Rights, Value)>) {
    match held {
        Some((rights, value)) => {
            answer.name(rights);
            put_value(answer, value);
        }
        None => answer.put("none"),
    }
}

/// Answers the kind of an SDO and its place.
fn put_place(answer: &mut Answer, kind: &'static str, index: u16, sub: u8) {
    answer.put(kind);
    answer.hex(u64::from(index));
    answer.put(sub);
}

/// Answers an SDO, as a line gives it.
fn put_sdo(answer: &mut Answer, sdo: &Sdo) {
    match *sdo {
        Sdo::Upload { index, sub } => put_place(answer, "Upload", index, sub),
        Sdo::DownloadAnswer { index, sub } => put_place(answer, "DownloadAnswer", index, sub),
        Sdo::UploadAnswer { index, sub, value } => {
            put_place(answer, "UploadAnswer", index, sub);
            put_value(answer, value);
        }
        Sdo::Download { index, sub, value } => {
            put_place(answer, "Download", index, sub);
            put_value(answer, value);
        }
        Sdo::Abort { index, sub, code } => {
            put_place(answer, "Abort", index, sub);
            answer.hex(u64::from(code));
        }
        Sdo::Other(bytes) => put_other(answer, bytes),
    }
}

/// Answers eight bytes that are no other SDO.
fn put_other(answer: &mut Answer, bytes: [u8; 8]) {
    answer.put("Other");
    answer.bytes(&bytes);
}

/// Verbs on bytes and names alone.
pub fn tell_of_sdos(verb: &str, words: &mut Words<'_>, answer: &mut Answer) -> bool {
    match verb {
        "abort_code" => match AbortCode::from_code(u32_of(words)) {
            Some(reason) => {
                answer.hex(u64::from(reason.code()));
                answer.put(reason.name());
            }
            None => answer.put("none"),
        },
        "size" => answer.put(value_of(words).size()),
        "sdo_of" => {
            let mut bytes = [0; 8];
            fill(&mut bytes, words);
            put_sdo(answer, &Sdo::read(&bytes));
        }
        "sdo_bytes" => answer.bytes(&sdo_of(words).write()),
        "mail_of" => match Mail::read(words.bytes_to("").as_slice()) {
            Ok(mail) => put_mail(answer, &mail),
            Err(fault) => answer.name(fault),
        },
        "mail_bytes" => tell_spelt(&mail_of(words), words, answer),
        "mail_again" => match Mail::read(words.bytes_to("").as_slice()) {
            Ok(mail) => tell_spelt(&mail, words, answer),
            Err(fault) => answer.name(fault),
        },
        _ => return false,
    }
    true
}

/// A mail: ADDRESS CHANNEL PRIORITY COUNTER NUMBER SERVICE, and the SDO.
fn mail_of(words: &mut Words<'_>) -> Mail {
    Mail {
        address: u16_of(words),
        channel: u8_of(words),
        priority: u8_of(words),
        counter: u8_of(words),
        number: u16_of(words),
        service: u8_of(words),
        sdo: sdo_of(words),
    }
}

/// Answers a mail, as a line gives it.
fn put_mail(answer: &mut Answer, mail: &Mail) {
    answer.hex(u64::from(mail.address));
    answer.put(mail.channel);
    answer.put(mail.priority);
    answer.put(mail.counter);
    answer.hex(u64::from(mail.number));
    answer.put(mail.service);
    put_sdo(answer, &mail.sdo);
}

/// Answers a mail's bytes.
fn tell_spelt(mail: &Mail, words: &mut Words<'_>, answer: &mut Answer) {
    let has_counter = 1 <= mail.counter && mail.counter <= 7;
    let has_service = mail.service == REQUEST || mail.service == RESPONSE;
    if has_counter && has_service {
        answer.bytes(&mail.write());
    } else {
        words.refuse(Fault::OutOfRange);
    }
}

/// Verbs that read a dictionary of objects.
pub fn tell_of_objects(
    verb: &str,
    objects: &Objects,
    words: &mut Words<'_>,
    answer: &mut Answer,
) -> bool {
    match verb {
        "object_at" | "held" => {
            let index = u16_of(words);
            put_held(answer, objects.get(index, u8_of(words)));
        }
        "object_count" | "held_count" => answer.put(objects.count()),
        "has_index" => answer.put(objects.has_index(u16_of(words))),
        _ => return false,
    }
    true
}

/// Verbs that change a dictionary: `object INDEX SUB RIGHTS VALUE` adds one, `set_object INDEX SUB VALUE`
/// gives one another value.
pub fn act_on_objects(
    verb: &str,
    objects: &mut Objects,
    words: &mut Words<'_>,
    answer: &mut Answer,
) -> bool {
    match verb {
        "object" => {
            let index = u16_of(words);
            let sub = u8_of(words);
            let rights = rights_of(words);
            match objects.add(index, sub, rights, value_of(words)) {
                Ok(()) => answer.put("ok"),
                Err(fault) => answer.name(fault),
            }
        }
        "set_object" => {
            let index = u16_of(words);
            let sub = u8_of(words);
            let value = value_of(words);
            if objects.get(index, sub).is_some() {
                objects.set(index, sub, value);
            } else {
                words.refuse(Fault::OutOfRange);
            }
        }
        _ => return false,
    }
    true
}

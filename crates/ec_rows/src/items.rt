//! Verbs on an item: what a master asks in each cycle.

ghost use Rattle.std.specs.Prelude.{◌≤◌, length};

use crate::answer::Answer;
use crate::records::{u8_of, u16_of, u32_of};
use crate::words::{Fault, Words};
use ec_map::{Item, Kind};
use ec_wire::FrameBuf;
use std::alloc::Global;

/// The kinds of items.
const KINDS: [Kind; 6] = [
    Kind::Lrd,
    Kind::Lwr,
    Kind::Lrw,
    Kind::Brd,
    Kind::Fprd,
    Kind::Fpwr,
];

/// A kind, by the name of its command.
fn kind_of(words: &mut Words<'_>) -> Kind {
    let word = words.word();
    for kind in KINDS {
        if kind.command().name() == word {
            return kind;
        }
    }
    words.refuse(Fault::BadName);
    Kind::Lrd
}

/// An item: KIND ADDRESS BYTES.
pub fn item_of(words: &mut Words<'_>) -> Option<Item> {
    let kind = kind_of(words);
    let address = u32_of(words);
    Item::new(kind, address, words.bytes_to("").as_slice()).ok()
}

/// So many bytes, which are all this one.
fn run(alloc: Global, count: u16, byte: u8) -> Option<Vec<u8>> {
    let mut bytes = Vec::new(alloc);
    for _ in 0..count {
        bytes.push(byte).ok()?;
    }
    Some(bytes)
}

/// An item: KIND ADDRESS COUNT BYTE.
pub fn run_of(words: &mut Words<'_>) -> Option<Item> {
    let kind = kind_of(words);
    let address = u32_of(words);
    let count = u16_of(words);
    let bytes = run(words.alloc(), count, u8_of(words))?;
    Item::new(kind, address, bytes.as_slice()).ok()
}

/// An item of zeros, KIND ADDRESS COUNT; the line is refused where there is none.
pub fn zeros_of(words: &mut Words<'_>) -> Option<Item> {
    let kind = kind_of(words);
    let address = u32_of(words);
    let count = u16_of(words);
    let made = match run(words.alloc(), count, 0) {
        Some(bytes) => Item::new(kind, address, bytes.as_slice()).ok(),
        None => None,
    };
    if made.is_none() {
        words.refuse(Fault::OutOfRange);
    }
    made
}

/// `item_fault KIND ADDRESS COUNT`: why there is no such item of zeros, `none` where there is one.
pub fn put_item_fault(words: &mut Words<'_>, answer: &mut Answer) {
    let kind = kind_of(words);
    let address = u32_of(words);
    let count = u16_of(words);
    match run(words.alloc(), count, 0) {
        Some(bytes) => match Item::new(kind, address, bytes.as_slice()) {
            Ok(_item) => answer.put("none"),
            Err(fault) => answer.name(fault),
        },
        None => words.refuse(Fault::NoMemory),
    }
}

/// Verbs that read an item.
pub fn tell_of_item(verb: &str, item: &Item, words: &mut Words<'_>, answer: &mut Answer) -> bool {
    match verb {
        "item_kind" => answer.name(item.kind()),
        "item_address" => answer.hex(u64::from(item.address())),
        "item_length" => answer.put(item.len()),
        "item_data" => answer.bytes(item.data()),
        "item_counter" => answer.hex(u64::from(item.counter())),
        "item_adp" => answer.hex(u64::from(item.adp())),
        "item_bit" => answer.number(item.bit(words.number(u64::MAX))),
        "item_command" => answer.put(item.datagram(0).command.code()),
        "item_spelt" => {
            let index = u8_of(words);
            answer.bytes(FrameBuf::of(&item.datagram(index)).bytes());
        }
        _ => return false,
    }
    true
}

/// Verbs that set an item: `set_item_counter N`, `set_item_adp N` and `set_item_data BYTES`.
pub fn act_on_item(verb: &str, item: &mut Item, words: &mut Words<'_>) -> bool {
    match verb {
        "set_item_counter" => item.set_counter(u16_of(words)),
        "set_item_adp" => item.set_adp(u16_of(words)),
        "set_item_data" => {
            let bytes = words.bytes_to("");
            if bytes.len() == item.len() {
                item.set_data(bytes.as_slice());
            } else {
                words.refuse(Fault::OutOfRange);
            }
        }
        _ => return false,
    }
    true
}

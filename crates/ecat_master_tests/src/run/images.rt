//! The outputs of cycles as a text gives them.

use crate::asserts::assert_found;
use crate::master::line;
use ec_map::{Item, Kind};
use ec_master::Work;
use ec_run::{Outputs, image_length, read_images};
use std::process::Abort;

/// A text that has the outputs, and what the items of a work send in a cycle.
struct Sending {
    name: &'static str,
    text: &'static [u8],
    /// Whether the work reads, writes, and writes and reads; else it is one exchange.
    mixed: bool,
    cycle: u64,
    items: &'static [&'static [u8]],
}

/// Two lines, of which the first comes again behind the last.
const TWO: &[u8] = b"0a1B2c\nff00ee\n";

/// What is sent, by its text and its cycle.
static SENDING: [Sending; 6] = [
    Sending {
        name: "the first line",
        text: TWO,
        mixed: false,
        cycle: 0,
        items: &[&[0x0a, 0x1b, 0x2c]],
    },
    Sending {
        name: "the last line",
        text: TWO,
        mixed: false,
        cycle: 1,
        items: &[&[0xff, 0x00, 0xee]],
    },
    Sending {
        name: "behind the last line comes the first again",
        text: TWO,
        mixed: false,
        cycle: 2,
        items: &[&[0x0a, 0x1b, 0x2c]],
    },
    Sending {
        name: "the line of the greatest cycle",
        text: TWO,
        mixed: false,
        cycle: u64::MAX,
        items: &[&[0xff, 0x00, 0xee]],
    },
    Sending {
        name: "the last line may end without LF",
        text: b"010203",
        mixed: false,
        cycle: 7,
        items: &[&[1, 2, 3]],
    },
    Sending {
        name: "the items that write take the image one after the other",
        text: b"01020304\n",
        mixed: true,
        cycle: 5,
        items: &[&[9, 9], &[1, 2, 3], &[4]],
    },
];

/// Asserts what each item of a work sends.
fn sends(rt: &(impl AllocGlobal + Abort), row: &Sending, work: &Work) {
    let images = read_images(rt.alloc(), row.text, image_length(work))
        .ok()
        .expect(rt, "images");
    let sent = Outputs::Images(images.as_slice()).of(row.cycle, work);
    assert_found(rt, row.name, sent.len(), row.items.len());
    for (k, wanted) in row.items.iter().enumerate() {
        if k < sent.len() {
            assert_found(rt, row.name, sent.item(k).data(), *wanted);
        }
    }
}

/// A work that reads, writes, and writes and reads.
fn mixed(rt: &impl Abort) -> Work {
    let mut work = Work::new();
    for (kind, bytes) in [
        (Kind::Lrd, [9u8, 9].as_slice()),
        (Kind::Lwr, [9, 9, 9].as_slice()),
        (Kind::Lrw, [9].as_slice()),
    ] {
        let item = Item::new(kind, 0x10000, bytes).ok().expect(rt, "an item");
        assert!(rt; work.push(item).is_ok());
    }
    work
}

#[test]
fn the_items_send_the_lines_in_turn(rt: HostRuntime) {
    let (exchange, mixed) = (line::exchange(&rt), mixed(&rt));
    assert_found(&rt, "bytes of an image", image_length(&mixed), 4);
    for row in &SENDING {
        let work = if row.mixed { &mixed } else { &exchange };
        sends(&rt, row, work);
    }
}

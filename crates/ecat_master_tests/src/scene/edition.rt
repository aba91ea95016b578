//! Texts of the second edition, and what they are in the first.

use crate::asserts::assert_same;
use ecat_scene::to_first_edition;
use std::process::Abort;

/// A text, and what it is in the first edition.
struct Row {
    text: &'static str,
    first: &'static str,
}

/// Texts of the second edition, and some that are none and stay as they are.
static ROWS: [Row; 16] = [
    Row {
        text: "scene 2",
        first: "#cene 2",
    },
    Row {
        text: "scene 2\r\nslave\t1\r\n",
        first: "#cene 2 \nslave 1 \n",
    },
    Row {
        text: "scene 2\nslave 1 # X axis: 3 µm\n#tail",
        first: "#cene 2\nslave 1                \n     ",
    },
    Row {
        text: "scene 2 # of a machine\nname Drive#1\tA # 2",
        first: "#cene 2               \nname Drive#1 A    ",
    },
    Row {
        text: "scene 2\nstate OP\nstate Init\nstate preop",
        first: "#cene 2\nstate 8 \nstate 1   \nstate 2    ",
    },
    Row {
        text: "scene 2\n\tstate  Pre-Op # now\r\nstate safe-op\nstate SAFEOP",
        first: "#cene 2\n state  2            \nstate 4      \nstate 4     ",
    },
    Row {
        text: "scene 2\nstate 8\nstate 0x04\nstate Ops\nstate\nstates op",
        first: "#cene 2\nstate 8\nstate 0x04\nstate Ops\nstate\nstates op",
    },
    Row {
        text: "scene 2\nname state op\nstate\nop",
        first: "#cene 2\nname state op\nstate\nop",
    },
    Row {
        text: "scene 2\nstate op boot",
        first: "#cene 2\nstate 8  boot",
    },
    Row {
        text: "scene 2\nname µ",
        first: "#cene 2\nname µ",
    },
    Row {
        text: "scene 20\nslave 1\r\n",
        first: "scene 20\nslave 1\r\n",
    },
    Row {
        text: "scene\t2\nstate OP",
        first: "scene\t2\nstate OP",
    },
    Row {
        text: "\nscene 2\nstate OP # x",
        first: "\nscene 2\nstate OP # x",
    },
    Row {
        text: "slave 1\r\nstate OP\t# x",
        first: "slave 1\r\nstate OP\t# x",
    },
    Row {
        text: "",
        first: "",
    },
    Row {
        text: "scene",
        first: "scene",
    },
];

/// The most bytes of a text of these rows.
const MOST: usize = 80;

/// Asserts what a text is in the first edition.
fn assert_row(rt: &impl Abort, row: &Row) {
    let mut room = [0u8; MOST];
    let text = room.get_mut(..row.text.len()).expect(rt, "a short text");
    text.copy_from_slice(row.text.as_bytes());
    to_first_edition(text);
    assert_same(rt, str::from_utf8(text), Ok(row.first));
}

#[test]
fn texts_of_the_second_edition_are_of_the_first(rt: HostRuntime) {
    for row in &ROWS {
        assert_row(&rt, row);
    }
}

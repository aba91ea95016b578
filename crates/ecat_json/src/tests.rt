//! Lines by hand: each kind of member, what a text holds, and lists.

use crate::JsonLines;
use std::alloc::Global;
use std::io;
use std::process::Abort;

/// One object with a member of each kind, and one that has its kind alone.
const ALL_KINDS: &str = "{\"kind\":\"slave\",\"station\":4097,\"state\":\"Op\",\"milliseconds\":-3,\
     \"whole\":true,\"time_utc\":null,\"links\":[0,18446744073709551615],\"names\":[\"a\",\"b,c\"],\
     \"none\":[]}\n{\"kind\":\"end\"}\n";

/// Writes what `ALL_KINDS` has.
fn write_all_kinds(alloc: Global, out: &mut Vec<u8>) -> io::Result<()> {
    let mut lines = JsonLines::new(out, Vec::new(alloc));
    let object = lines.object("slave")?.number("station", 4097)?;
    let object = object.text("state", "Op")?.signed("milliseconds", -3)?;
    let object = object.truth("whole", true)?.nothing("time_utc")?;
    let links = object.list("links")?.number(0)?.number(u64::MAX)?;
    let names = links.end()?.list("names")?.text("a")?.text("b,c")?;
    let none = names.end()?.list("none")?;
    lines.put(none.end()?)?;
    let last = lines.object("end")?;
    lines.put(last)
}

#[test]
fn an_object_has_its_members_in_their_order(rt: HostRuntime) {
    let mut out = Vec::new(rt.alloc());
    let written = write_all_kinds(rt.alloc(), &mut out);
    assert!(rt; written.is_ok());
    assert!(rt; out.as_slice() == ALL_KINDS.as_bytes(), "another text");
}

/// Texts, and how they stand in a line.
const TEXTS: [(&str, &str); 6] = [
    ("", "\"\""),
    ("say \"no\"", "\"say \\\"no\\\"\""),
    ("a\\b", "\"a\\\\b\""),
    ("one\ntwo\ttab\r", "\"one\\ntwo\\ttab\\r\""),
    ("\u{1}\u{1f}\u{7f}", "\"\\u0001\\u001f\u{7f}\""),
    ("\u{e4}\u{20ac}\u{1f980}", "\"\u{e4}\u{20ac}\u{1f980}\""),
];

/// Writes one object with a text.
fn write_text(alloc: Global, out: &mut Vec<u8>, text: &str) -> io::Result<()> {
    let mut lines = JsonLines::new(out, Vec::new(alloc));
    let object = lines.object("text")?.text("text", text)?;
    lines.put(object)
}

/// Asserts how a text stands in a line.
fn assert_text(rt: &(impl Abort + AllocGlobal), text: &str, wanted: &str) {
    let mut out = Vec::new(rt.alloc());
    let written = write_text(rt.alloc(), &mut out, text);
    assert!(rt; written.is_ok());
    let Some(rest) = out.as_slice().strip_prefix(b"{\"kind\":\"text\",\"text\":") else {
        panic!(rt; "another beginning");
    };
    assert!(rt;
        rest.strip_suffix(b"}\n") == Some(wanted.as_bytes()),
        "{wanted}"
    );
}

#[test]
fn what_json_has_a_meaning_for_is_escaped(rt: HostRuntime) {
    for (text, wanted) in TEXTS {
        assert_text(&rt, text, wanted);
    }
}

//! Lines that are written: their words, by hand, and that they read back as what was written.

use super::told;
use ec_app::{Rights, Value};
use ec_regs::AlState;
use ec_wire::{Kind, address_of};
use ecat_scene::SceneLine::{Areas, Fmmu, Item, Load, Object, Simple, Slave, State, SyncMan};
use ecat_scene::{AreaKind, SceneLine, Through, put_line, put_row, put_startup};
use std::alloc::{AllocError, Global};
use std::process::Abort;

/// A line without bytes, and its words.
struct Row(SceneLine, &'static str);

const LINES: [Row; 16] = [
    Row(Slave(0x1001), "slave 0x1001"),
    Row(State(AlState::Op), "state 8"),
    Row(Simple, "simple"),
    Row(Areas(1, 65_535), "areas 1 65535"),
    Row(
        SyncMan(0, 0x1800, 128, AreaKind::MailboxWrite),
        "sm 0 0x1800 128 mailbox-write",
    ),
    Row(
        SyncMan(1, 0x1880, 128, AreaKind::MailboxRead),
        "sm 1 0x1880 128 mailbox-read",
    ),
    Row(
        SyncMan(2, 0x1000, 6, AreaKind::Write),
        "sm 2 0x1000 6 write",
    ),
    Row(SyncMan(7, 0xffff, 0, AreaKind::Read), "sm 7 0xffff 0 read"),
    Row(
        Fmmu(0, 0x0001_0000, 6, 0, 7, 0x1000, 0, Through::Writes),
        "fmmu 0 0x00010000 6 0 7 0x1000 0 write",
    ),
    Row(
        Fmmu(1, 0xffff_ffff, 1, 2, 5, 0x080d, 3, Through::Reads),
        "fmmu 1 0xffffffff 1 2 5 0x080d 3 read",
    ),
    Row(
        Fmmu(7, 0, 65_535, 0, 7, 0x2fff, 0, Through::ReadsAndWrites),
        "fmmu 7 0x00000000 65535 0 7 0x2fff 0 both",
    ),
    Row(
        Object(0x1018, 1, Rights::ReadOnly, Value::Four(0x0000_0a6f)),
        "object 0x1018 1 4 ro 0x00000a6f",
    ),
    Row(
        Object(0x8000, 0, Rights::WriteOnly, Value::One(9)),
        "object 0x8000 0 1 wo 0x09",
    ),
    Row(
        Object(0x1c12, 255, Rights::Both, Value::Two(0x1600)),
        "object 0x1c12 255 2 rw 0x1600",
    ),
    Row(Slave(0), "slave 0x0000"),
    Row(State(AlState::Init), "state 1"),
];

/// Asserts of each line that its words are these, and one LF.
fn assert_words(rt: &impl Abort, alloc: Global) -> Result<(), AllocError> {
    for row in &LINES {
        let mut text = String::new(alloc);
        put_line(&mut text, row.0)?;
        let line = text.as_str().strip_suffix("\n").unwrap_or("");
        assert!(rt; line == row.1, "{}", row.1);
    }
    Ok(())
}

#[test]
fn lines_have_their_words(rt: HostRuntime) {
    let _ = assert_words(&rt, rt.alloc());
}

/// Lines that bytes end, and what they are.
fn put_rows(alloc: Global, text: &mut String) -> Result<(), AllocError> {
    put_line(text, Slave(0x1001))?;
    put_row(alloc, text, Load(0x1000), &[0x0f, 0xa0])?;
    put_startup(alloc, text, 0x8000, 1, Value::Two(1000))?;
    put_startup(alloc, text, 0x1c12, 0, Value::One(0))?;
    put_startup(alloc, text, 0x1c13, 2, Value::Four(0x7856_3412))?;
    put_row(alloc, text, Item(Kind::Lrd, 0x0001_0000), &[0])?;
    put_row(alloc, text, Item(Kind::Lwr, 7), &[0xa1, 0xb2])?;
    put_row(alloc, text, Item(Kind::Lrw, 0xffff_ffff), &[1])?;
    put_row(alloc, text, Item(Kind::Brd, address_of(0x0130, 0)), &[0, 0])?;
    put_row(
        alloc,
        text,
        Item(Kind::Fprd, address_of(0x1001, 0x1100)),
        &[0],
    )?;
    put_row(
        alloc,
        text,
        Item(Kind::Fpwr, address_of(0xffff, 0x2fff)),
        &[0x5a],
    )
}

const ROWS: &str = "\
slave 0x1001
mem 0x1000 0fa0
startup 0x8000 1 e803
startup 0x1c12 0 00
startup 0x1c13 2 12345678
lrd 0x00010000 00
lwr 0x00000007 a1b2
lrw 0xffffffff 01
brd 0x0130 0000
fprd 0x1001 0x1100 00
fpwr 0xffff 0x2fff 5a
";

/// Asserts that these lines have these words.
fn assert_rows(rt: &impl Abort, alloc: Global) -> Result<(), AllocError> {
    let mut text = String::new(alloc);
    put_rows(alloc, &mut text)?;
    assert!(rt; text.as_str() == ROWS, "{}", text.as_str());
    Ok(())
}

#[test]
fn rows_have_their_words(rt: HostRuntime) {
    let _ = assert_rows(&rt, rt.alloc());
}

/// What is read of lines that were written: all is as it was.
const READ: &str = "slave 4097 Init; mem 4096 [15, 160]; \
    [StartupObject { index: 32768, sub: 1, value: Two(1000) }, \
    StartupObject { index: 7186, sub: 0, value: One(0) }, \
    StartupObject { index: 7187, sub: 2, value: Four(2018915346) }]; \
    Lrd 65536 [0] counter 0 adp 0; Lwr 7 [161, 178] counter 0 adp 0; \
    Lrw 4294967295 [1] counter 0 adp 0; Brd 304 [0, 0] counter 0 adp 0; \
    Fprd 285216769 [0] counter 0 adp 0; Fpwr 805306367 [90] counter 0 adp 0";

#[test]
fn rows_read_back(rt: HostRuntime) {
    if let Some(found) = told(rt.alloc(), ROWS.as_bytes()) {
        assert!(&rt; found.as_str() == READ, "{}", found.as_str());
    }
}

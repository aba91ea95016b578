//! What the words behind the first one of a scene's line have to be: their forms, their ranges, and both in
//! words for a person.

use ecat_scene::{MAX_SIGNAL_NAME, number, test_bytes, test_signal_name, text_of};

/// What a word behind the first one of a line has to be.
#[derive(Clone, Copy)]
pub(crate) enum Form {
    /// A number, at most this one.
    Number(u64),
    /// An AL state by its code.
    State,
    /// What a sync manager is for.
    SyncManager,
    /// What the master does through an FMMU.
    Fmmu,
    /// What the master may do with an object.
    Rights,
    /// How many bytes an object has.
    Size,
    /// An address of process memory.
    Process,
    /// A row of bytes.
    Bytes,
    /// A number of a link.
    Link,
    /// The word `down`.
    Down,
    /// Links with commas between them, or a hyphen.
    Links,
    /// Which copies are lost.
    Lost,
    /// Which copy goes first.
    First,
    /// The name of a signal.
    Name,
    /// What the bits of a signal are.
    Kind,
}

/// The greatest number of 8, of 16 and of 32 bits.
const BYTE: u64 = 0xff;

const WORD: u64 = 0xffff;

const DOUBLE_WORD: u64 = 0xffff_ffff;

/// The greatest number of a sync manager or an FMMU.
const LAST_RECORD: u64 = 7;

/// The greatest number of an item.
const LAST_ITEM: u64 = 31;

/// The forms of the words that follow each first word of a scene, with the line as it is written.
pub(crate) fn forms_of(first: &[u8]) -> Option<(&'static str, &'static [Form])> {
    match text_of(first) {
        "slave" => Some(("slave STATION", &[Form::Number(WORD)])),
        "simple" => Some(("simple", &[])),
        "state" => Some(("state S", &[Form::State])),
        "areas" => Some(("areas OUT IN", &[Form::Number(WORD), Form::Number(WORD)])),
        "sm" => Some((
            "sm N START LENGTH KIND",
            &[
                Form::Number(LAST_RECORD),
                Form::Number(WORD),
                Form::Number(WORD),
                Form::SyncManager,
            ],
        )),
        "fmmu" => Some((
            "fmmu N LOGICAL LENGTH START STOP PHYSICAL BIT TYPE",
            &[
                Form::Number(LAST_RECORD),
                Form::Number(DOUBLE_WORD),
                Form::Number(WORD),
                Form::Number(BYTE),
                Form::Number(BYTE),
                Form::Number(WORD),
                Form::Number(BYTE),
                Form::Fmmu,
            ],
        )),
        "mem" => Some(("mem ADDRESS BYTES", &[Form::Process, Form::Bytes])),
        "object" => Some((
            "object INDEX SUB SIZE RIGHTS VALUE",
            &[
                Form::Number(WORD),
                Form::Number(BYTE),
                Form::Size,
                Form::Rights,
                Form::Number(DOUBLE_WORD),
            ],
        )),
        "startup" => Some((
            "startup INDEX SUB BYTES",
            &[Form::Number(WORD), Form::Number(BYTE), Form::Bytes],
        )),
        "plain" => Some(("plain", &[])),
        "device" => Some(("device", &[])),
        "identity" => Some((
            "identity VENDOR PRODUCT REVISION SERIAL",
            &[
                Form::Number(DOUBLE_WORD),
                Form::Number(DOUBLE_WORD),
                Form::Number(DOUBLE_WORD),
                Form::Number(DOUBLE_WORD),
            ],
        )),
        "alias" => Some(("alias NUMBER", &[Form::Number(WORD)])),
        "pdo" => Some((
            "pdo INDEX SM INDEX:SUB:BITS ..",
            &[Form::Number(WORD), Form::Number(LAST_RECORD)],
        )),
        "sii" => Some(("sii ADDRESS BYTES", &[Form::Number(WORD), Form::Bytes])),
        "name" => Some(("name TEXT", &[])),
        "signal" => Some((
            "signal NAME ITEM BIT COUNT KIND",
            &[
                Form::Name,
                Form::Number(LAST_ITEM),
                Form::Number(WORD),
                Form::Number(WORD),
                Form::Kind,
            ],
        )),
        "mirror" => Some((
            "mirror IN OUT",
            &[Form::Number(LAST_RECORD), Form::Number(LAST_RECORD)],
        )),
        "count" => Some(("count IN", &[Form::Number(LAST_RECORD)])),
        "link" => Some(("link K down", &[Form::Link, Form::Down])),
        "frame" => Some(("frame BYTES", &[Form::Bytes])),
        "step" => Some(("step", &[])),
        "lrd" => Some((
            "lrd ADDRESS BYTES",
            &[Form::Number(DOUBLE_WORD), Form::Bytes],
        )),
        "lwr" => Some((
            "lwr ADDRESS BYTES",
            &[Form::Number(DOUBLE_WORD), Form::Bytes],
        )),
        "lrw" => Some((
            "lrw ADDRESS BYTES",
            &[Form::Number(DOUBLE_WORD), Form::Bytes],
        )),
        "brd" => Some((
            "brd ADDRESS BYTES",
            &[Form::Number(DOUBLE_WORD), Form::Bytes],
        )),
        "fprd" => Some((
            "fprd STATION ADDRESS BYTES",
            &[Form::Number(WORD), Form::Number(WORD), Form::Bytes],
        )),
        "fpwr" => Some((
            "fpwr STATION ADDRESS BYTES",
            &[Form::Number(WORD), Form::Number(WORD), Form::Bytes],
        )),
        "weather" => Some((
            "weather A B LOST FIRST",
            &[Form::Links, Form::Links, Form::Lost, Form::First],
        )),
        _ => None,
    }
}

impl Form {
    /// Is a word of this form, whatever range it has to be in?
    pub(crate) fn has(self, word: &[u8]) -> bool {
        match self {
            Form::Number(_) | Form::State | Form::Size | Form::Process | Form::Link => {
                number(word).is_ok()
            }
            Form::SyncManager => matches!(
                text_of(word),
                "mailbox-write" | "mailbox-read" | "write" | "read"
            ),
            Form::Fmmu => matches!(text_of(word), "read" | "write" | "both"),
            Form::Rights => matches!(text_of(word), "ro" | "wo" | "rw"),
            Form::Bytes => test_bytes(word).is_ok(),
            Form::Down => text_of(word) == "down",
            Form::Links => are_links(word),
            Form::Lost => matches!(text_of(word), "-" | "a" | "b" | "ab"),
            Form::First => matches!(text_of(word), "a" | "b"),
            Form::Name => test_signal_name(word).is_ok(),
            Form::Kind => matches!(
                text_of(word),
                "bool" | "u8" | "i8" | "u16" | "i16" | "u32" | "i32" | "f32" | "raw"
            ),
        }
    }

    /// Is a word of this form in its range?
    pub(crate) fn is_in_range(self, word: &[u8]) -> bool {
        match (self, number(word)) {
            (Form::Number(most), Ok(number)) => number <= most,
            (Form::State, Ok(number)) => matches!(number, 1 | 2 | 4 | 8),
            (Form::Size, Ok(number)) => matches!(number, 1 | 2 | 4),
            (Form::Process, Ok(number)) => 0x1000 <= number && number <= 0x2fff,
            (Form::Name, _) => word.len() <= MAX_SIGNAL_NAME,
            _ => true,
        }
    }

    /// What a word of another form is not.
    pub(crate) fn noun(self) -> &'static str {
        match self {
            Form::Number(_) | Form::State | Form::Size | Form::Process | Form::Link => "no number",
            Form::Bytes => "no row of bytes",
            Form::Links => "no list of links",
            Form::Name => "no name of a signal",
            Form::SyncManager
            | Form::Fmmu
            | Form::Rights
            | Form::Down
            | Form::Lost
            | Form::First
            | Form::Kind => "no such word",
        }
    }

    /// What is wanted.
    pub(crate) fn wanted(self) -> &'static str {
        match self {
            Form::Number(LAST_RECORD) => "0 to 7",
            Form::Number(LAST_ITEM) => "an item of the scene, 0 to 31",
            Form::Number(BYTE) => "0 to 255",
            Form::Number(WORD) => "0 to 65535",
            Form::Number(_) => "0 to 4294967295",
            Form::State => "1, 2, 4 or 8 (Init, Pre-Op, Safe-Op, Op)",
            Form::SyncManager => "mailbox-write, mailbox-read, write or read",
            Form::Fmmu => "read, write or both",
            Form::Rights => "ro, wo or rw",
            Form::Size => "1, 2 or 4 bytes",
            Form::Process => "an address in 0x1000 to 0x2FFF",
            Form::Bytes => "two hexadecimal digits for each byte, without 0x",
            Form::Link => "a link of the line: 0 before the first slave, then one behind each",
            Form::Down => "down",
            Form::Links => "links with commas between them, or -",
            Form::Lost => "-, a, b or ab: the copies that are lost",
            Form::First => "a or b: the copy that goes first",
            Form::Name => "1 to 32 letters, digits, _, . and -, and no number",
            Form::Kind => "bool, u8, i8, u16, i16, u32, i32, f32 or raw",
        }
    }
}

/// Is a word a list of links, or the hyphen that stands for none?
fn are_links(word: &[u8]) -> bool {
    word == b"-".as_slice()
        || word
            .split(|byte| *byte == b',')
            .all(|part| number(part).is_ok())
}

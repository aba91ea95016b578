//! The lines of a scene, as they are written.

ghost use Rattle.std.specs.Prelude.{◌≡◌, ◌++◌, ◌∷◌, ◌<◌, ℕ, IsTrue, List, [], Some, Ok, OnOk, codes, length};
ghost use Rattle.std.specs.String.{string_bytes};
ghost use Rattle.std.specs.Fmt.{decimal};
ghost use Rattle.hex.specs.Hex.{encode_lower, IsBytes};
ghost use Rattle.ec_regs.specs.Al.{code_of};
ghost use Rattle.ec_regs.specs.declared.al.AlState.{AlState};
ghost use Rattle.ec_app.specs.declared.value.Rights.{Rights};
ghost use Rattle.ecat_scene.specs.declared.written.AreaKind.{AreaKind};
ghost use Rattle.ecat_scene.specs.declared.written.Through.{Through};
ghost use Rattle.ecat_scene.specs.Words.{area_of, rights_of, row_of, state_of, through_of};
ghost use Rattle.ecat_scene.specs.Lines.{area_word, item_words, line_words, logical_words, object_words};
ghost use Rattle.ecat_scene.specs.Lines.{physical_words, rights_word, through_word};
ghost use Rattle.ecat_scene.specs.Deeds.{text_does};
ghost use Rattle.ecat_scene.specs.Meant.{AreWritten, text_of_lines, with_lines, WrittenLine};
ghost use Rattle.ecat_scene.specs.Scene.{SceneRecord};
ghost use Rattle.ecat_scene.specs.Spelt.{IsSpelt, ends_with_row, spelt};
ghost use Rattle.ecat_scene.specs.declared.written.SceneLine.{SceneLine};
ghost use Rattle.ecat_scene.specs.Text.{words_in};

use ec_app::{Rights, Value};
use ec_map::Item;
use ec_regs::AlState;
use ec_wire::{Kind, ado_of, adp_of};
use std::alloc::{AllocError, Global};
use std::fmt;

/// What the area of a sync manager is: bits 0 to 3 of its control byte (IEC 61158-4-12, sync manager entity).
#[derive(Clone, Copy, PartialEq, Eq, Debug)]
pub enum AreaKind {
    /// A mailbox that the master writes.
    MailboxWrite,
    /// A mailbox that the master reads.
    MailboxRead,
    /// A buffered area that the master writes.
    Write,
    /// A buffered area that the master reads.
    Read,
}

impl fmt::Display for AreaKind {
    ghost output = { λ kind. Some (area_word kind) };

    fn fmt<W: fmt::Write>(&self, f: &mut fmt::Formatter<W>) -> fmt::Result {
        match self {
            AreaKind::MailboxWrite => write!(f, "mailbox-write"),
            AreaKind::MailboxRead => write!(f, "mailbox-read"),
            AreaKind::Write => write!(f, "write"),
            AreaKind::Read => write!(f, "read"),
        }
    }
}

/// What the master does through an FMMU (IEC 61158-4-12, FMMU entity).
#[derive(Clone, Copy, PartialEq, Eq, Debug)]
pub enum Through {
    /// It reads.
    Reads,
    /// It writes.
    Writes,
    /// Both.
    ReadsAndWrites,
}

impl fmt::Display for Through {
    ghost output = { λ through. Some (through_word through) };

    fn fmt<W: fmt::Write>(&self, f: &mut fmt::Formatter<W>) -> fmt::Result {
        match self {
            Through::Reads => write!(f, "read"),
            Through::Writes => write!(f, "write"),
            Through::ReadsAndWrites => write!(f, "both"),
        }
    }
}

/// A line of a scene that describes a slave, or an item of its cycle. Where a row of bytes ends the line, it
/// is what stands in front of it.
#[derive(Clone, Copy, PartialEq, Eq, Debug)]
pub enum SceneLine {
    /// `slave STATION`
    Slave(u16),
    /// `state S`
    State(AlState),
    /// `simple`
    Simple,
    /// `areas OUT IN`, in bytes
    Areas(u16, u16),
    /// `sm N START LENGTH KIND`
    SyncMan(usize, u16, u16, AreaKind),
    /// `fmmu N LOGICAL LENGTH START STOP PHYSICAL BIT TYPE`
    Fmmu(usize, u32, u16, u8, u8, u16, u8, Through),
    /// `mem ADDRESS BYTES`
    Load(u16),
    /// `object INDEX SUB SIZE RIGHTS VALUE`
    Object(u16, u8, Rights, Value),
    /// `startup INDEX SUB BYTES`
    Startup(u16, u8),
    /// An item, `lrd ADDRESS BYTES` to `fpwr STATION ADDRESS BYTES`, by its kind and its address: a logical
    /// one, the register of a broadcast read, or the station and 65,536 times the register.
    Item(Kind, u32),
}

/// An object's size, rights and value, as they are written.
#[derive(Drop)]
struct ObjectText {
    rights: Rights,
    value: Value,
}

/// The rights of an object, as they are written.
#[derive(Drop)]
struct RightsText(Rights);

impl fmt::Display for RightsText {
    ghost output = { λ text. Some (rights_word text.0) };

    fn fmt<W: fmt::Write>(&self, f: &mut fmt::Formatter<W>) -> fmt::Result {
        match self.0 {
            Rights::ReadOnly => write!(f, "ro"),
            Rights::WriteOnly => write!(f, "wo"),
            Rights::Both => write!(f, "rw"),
        }
    }
}

impl fmt::Display for ObjectText {
    ghost output = { λ text. Some (object_words text.rights text.value) };

    fn fmt<W: fmt::Write>(&self, f: &mut fmt::Formatter<W>) -> fmt::Result {
        let rights = RightsText(self.rights);
        match self.value {
            Value::One(number) => write!(f, "1 {rights} 0x{number:02x}"),
            Value::Two(number) => write!(f, "2 {rights} 0x{number:04x}"),
            Value::Four(number) => write!(f, "4 {rights} 0x{number:08x}"),
        }
    }
}

/// An item in front of its bytes, as it is written.
#[derive(Drop)]
struct ItemText {
    kind: Kind,
    address: u32,
}

impl fmt::Display for ItemText {
    ghost output = { λ text. Some (item_words text.kind text.address) };

    fn fmt<W: fmt::Write>(&self, f: &mut fmt::Formatter<W>) -> fmt::Result {
        let address = self.address;
        let station = adp_of(address);
        let register = ado_of(address);
        match self.kind {
            Kind::Lrd => write!(f, "lrd 0x{address:08x} "),
            Kind::Lwr => write!(f, "lwr 0x{address:08x} "),
            Kind::Lrw => write!(f, "lrw 0x{address:08x} "),
            Kind::Brd => write!(f, "brd 0x{address:04x} "),
            Kind::Fprd => write!(f, "fprd 0x{station:04x} 0x{register:04x} "),
            Kind::Fpwr => write!(f, "fpwr 0x{station:04x} 0x{register:04x} "),
        }
    }
}

/// The logical side of an FMMU, as it is written.
#[derive(Drop)]
struct LogicalText {
    logical: u32,
    length: u16,
    first: u8,
    last: u8,
}

impl fmt::Display for LogicalText {
    ghost output = { λ text. Some (logical_words text.logical text.length text.first text.last) };

    fn fmt<W: fmt::Write>(&self, f: &mut fmt::Formatter<W>) -> fmt::Result {
        let logical = self.logical;
        let length = self.length;
        let first = self.first;
        let last = self.last;
        write!(f, "{logical:08x} {length} {first} {last}")
    }
}

/// The physical side of an FMMU, as it is written.
#[derive(Drop)]
struct PhysicalText {
    physical: u16,
    bit: u8,
    through: Through,
}

impl fmt::Display for PhysicalText {
    ghost output = { λ text. Some (physical_words text.physical text.bit text.through) };

    fn fmt<W: fmt::Write>(&self, f: &mut fmt::Formatter<W>) -> fmt::Result {
        let physical = self.physical;
        let bit = self.bit;
        let through = self.through;
        write!(f, "{physical:04x} {bit} {through}")
    }
}

impl fmt::Display for SceneLine {
    ghost output = { λ line. Some (line_words line) };

    fn fmt<W: fmt::Write>(&self, f: &mut fmt::Formatter<W>) -> fmt::Result {
        match *self {
            SceneLine::Slave(station) => write!(f, "slave 0x{station:04x}"),
            SceneLine::State(state) => {
                let code = state.code();
                write!(f, "state {code}")
            }
            SceneLine::Simple => write!(f, "simple"),
            SceneLine::Areas(outputs, inputs) => write!(f, "areas {outputs} {inputs}"),
            SceneLine::SyncMan(number, start, length, kind) => {
                write!(f, "sm {number} 0x{start:04x} {length} {kind}")
            }
            SceneLine::Fmmu(number, logical, length, first, last, physical, bit, through) => {
                let mapped = LogicalText {
                    logical,
                    length,
                    first,
                    last,
                };
                let onto = PhysicalText {
                    physical,
                    bit,
                    through,
                };
                write!(f, "fmmu {number} 0x{mapped} 0x{onto}")
            }
            SceneLine::Load(address) => write!(f, "mem 0x{address:04x} "),
            SceneLine::Object(index, sub, rights, value) => {
                let object = ObjectText { rights, value };
                write!(f, "object 0x{index:04x} {sub} {object}")
            }
            SceneLine::Startup(index, sub) => write!(f, "startup 0x{index:04x} {sub} "),
            SceneLine::Item(kind, address) => {
                let item = ItemText { kind, address };
                write!(f, "{item}")
            }
        }
    }
}

/// The words of a line that is written are those that it was put together of: its first word, each of its
/// numbers and words, and the row of bytes that ends it where there is one. By `numbers_read_back` each
/// number is read as it was.
pub fn lines_read_back()
    ensures words { (line : SceneLine) → IsSpelt line → words_in (line_words line) ≡ spelt line }
    ensures rows { (line : SceneLine) (bytes : List ℕ) → IsSpelt line → IsTrue (ends_with_row line)
        → 0 < length bytes
        → words_in (line_words line ++ encode_lower bytes) ≡ spelt line ++ encode_lower bytes ∷ [] }
{}

/// What is written of a thing is read as this thing: the kind of an area, a direction, the rights of an
/// object, a state, and a row of bytes.
pub fn things_read_back()
    ensures areas { (kind : AreaKind) → area_of (area_word kind) ≡ Ok kind }
    ensures directions { (through : Through) → through_of (through_word through) ≡ Ok through }
    ensures rights { (rights : Rights) → rights_of (rights_word rights) ≡ Ok rights }
    ensures states { (state : AlState) → state_of (decimal (code_of state)) ≡ Ok state }
    ensures rows { (bytes : List ℕ) → IsBytes bytes → 0 < length bytes
        → row_of (encode_lower bytes) ≡ Ok bytes }
{}

/// The text of lines that are written, each ended by LF, does to a scene what these lines mean, one after
/// the other, up to the first for which a limit is passed.
pub fn scenes_read_back()
    ensures { (lines : List WrittenLine) (scene : SceneRecord) → AreWritten lines
        → text_does (text_of_lines lines) scene ≡ Some (with_lines lines scene) }
{}

/// Puts a line that no row of bytes ends behind a text.
pub fn put_line(text: &mut String, line: SceneLine) -> Result<(), AllocError>
    ensures { OnOk result (string_bytes text.new ≡ string_bytes text.old ++ line_words line ++ 10 ∷ []) }
{
    write!(text, "{line}")?;
    text.push_str("\n")
}

/// Puts a line that these bytes end behind a text, two hexadecimal digits each.
pub fn put_row(
    alloc: Global,
    text: &mut String,
    line: SceneLine,
    bytes: &[u8],
) -> Result<(), AllocError>
    ensures { OnOk result (string_bytes text.new
        ≡ string_bytes text.old ++ line_words line ++ encode_lower bytes.now ++ 10 ∷ []) }
{
    let row = hex::encode(alloc, bytes)?;
    write!(text, "{line}")?;
    text.push_str(row.as_str())?;
    text.push_str("\n")
}

/// Puts the line of an object that the master writes when it starts a slave behind a text.
pub fn put_startup(
    alloc: Global,
    text: &mut String,
    index: u16,
    sub: u8,
    value: Value,
) -> Result<(), AllocError> {
    let line = SceneLine::Startup(index, sub);
    match value {
        Value::One(number) => put_row(alloc, text, line, &[number]),
        Value::Two(number) => put_row(alloc, text, line, &number.to_le_bytes()),
        Value::Four(number) => put_row(alloc, text, line, &number.to_le_bytes()),
    }
}

/// Puts the line of an item behind a text, with its data.
pub fn put_item(alloc: Global, text: &mut String, item: &Item) -> Result<(), AllocError>
    ensures { OnOk result (string_bytes text.new ≡ string_bytes text.old
        ++ item_words item.now.kind item.now.address ++ encode_lower item.now.payload ++ 10 ∷ []) }
{
    let line = SceneLine::Item(item.kind(), item.address());
    put_row(alloc, text, line, item.data())
}

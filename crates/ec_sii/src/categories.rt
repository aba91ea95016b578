//! What the words of a category tell (ETG.1000.6, slave information interface; ETG.2010). The bytes here are
//! those of one category, and a place is counted from its first.

ghost use Rattle.std.specs.Prelude.{◌≡◌, ◌+◌, ◌-◌, ◌*◌, ◌^◌, ◌<◌, ◌≤◌, length, slice_index};
ghost use Rattle.std.specs.Prelude.{IfOk, IfSome};
ghost use Rattle.ec_sii.specs.Reading.{entry_at, general_in, pdo_at, sync_manager_at, text_at, text_place};

use crate::image::{PdoEntry, SiiSyncManager};
use crate::reading::{SiiFault, has, word_at};

/// How many bytes a sync manager, the head of a PDO, and an entry of a PDO have.
pub const RECORD: usize = 8;

/// How many bytes of the category General are read.
const GENERAL_READ: usize = 18;

/// Where a text of the category STRINGS stands.
#[derive(Clone, Copy, PartialEq, Eq, Debug)]
pub struct Text {
    /// The place of its first letter.
    pub from: usize,
    /// How many letters it has, one byte each.
    pub length: usize,
}

/// What the category General tells.
#[derive(Clone, Copy, PartialEq, Eq, Debug)]
pub struct General {
    /// The number of the text that is the group's name, 0 for none.
    pub group: u8,
    /// The number of the text that is the image's name, 0 for none.
    pub image: u8,
    /// The number of the text that is the order number, 0 for none.
    pub order: u8,
    /// The number of the text that is the slave's name, 0 for none.
    pub name: u8,
    /// The details of CoE: 1 SDOs, 2 SDO information, 4 PDOs can be assigned, 8 configured, 16 and uploaded,
    /// 32 complete access, added.
    pub coe_details: u8,
    /// The details of FoE: bit 0, it is spoken.
    pub foe_details: u8,
    /// The details of EoE: bit 0, it is spoken.
    pub eoe_details: u8,
    /// Bit 0: Safe-Operational is enabled; bit 1: it takes no LRW.
    pub flags: u8,
    /// What it draws from the E-bus, in mA, as a number of two's complement: 0x8000 and more feed in.
    pub current: u16,
    /// Four bits for each port, port 0 lowest: 0 none, 1 MII, 3 E-bus.
    pub ports: u16,
}

/// The head of a PDO of the categories TXPDO and RXPDO.
#[derive(Clone, Copy, PartialEq, Eq, Debug)]
pub struct PdoHead {
    /// The index of the object that lists it, as 0x1600 or 0x1A00.
    pub index: u16,
    /// How many entries it has.
    pub count: u8,
    /// The sync manager in whose area it stands; 0xFF where none does by default.
    pub sync_manager: u8,
    /// Which of its Distributed Clocks' modes it goes with.
    pub sync: u8,
    /// The number of the text that is its name, 0 for none.
    pub name: u8,
    /// Its flags: bit 0, it is mandatory; bit 4, its entries are fixed.
    pub flags: u16,
    /// The place of its first entry; each has 8 bytes.
    pub from: usize,
    /// The place behind its last entry, where the next PDO begins.
    pub next: usize,
}

/// An entry of a PDO with its name.
#[derive(Clone, Copy, PartialEq, Eq, Debug)]
pub struct NamedEntry {
    /// The object that it maps.
    pub entry: PdoEntry,
    /// The number of the text that is its name, 0 for none.
    pub name: u8,
}

/// The byte at a place, and 0 behind the end.
fn byte_or_0(bytes: &[u8], at: usize) -> usize
    ensures value { result ≡ slice_index bytes.now at }
    ensures bound { result < 256 }
{
    if at < bytes.len() {
        usize::from(bytes[at])
    } else {
        0
    }
}

/// Where the text with a number would begin, its length first: texts stand one behind the other.
#[tactic(auto, using(crate::proofs::PartLemmas::text_place_step))]
fn text_place(bytes: &[u8], number: u8) -> usize
    ensures value { result ≡ text_place bytes.now 1 (number - 1) }
    ensures bound { result < 2 ^ 17 }
{
    let mut at = 1usize;
    for _passed in 1..number {
        at = at + 1 + byte_or_0(bytes, at);
    }
    at
}

/// The text with a number, from 1 on, of the category STRINGS; `None` where there is no such text, as for 0,
/// and where it is not all there.
#[tactic(auto, unfolding(crate::specs::Reading::text_at))]
pub fn text_at(bytes: &[u8], number: u8) -> Option<Text>
    ensures value { result ≡ text_at bytes.now number }
    ensures within { IfSome result (λ t. t.from + t.length ≤ length bytes.now) }
{
    if number == 0 || byte_or_0(bytes, 0) < usize::from(number) {
        return None;
    }
    let at = text_place(bytes, number);
    let length = byte_or_0(bytes, at);
    if !has(bytes, at, 1 + length) {
        return None;
    }
    Some(Text {
        from: at + 1,
        length,
    })
}

impl General {
    /// What the bytes of the category General tell; `None` where they are fewer than 18 of its 32, behind
    /// which nothing is read.
    pub fn read(bytes: &[u8]) -> Option<General>
        ensures { result ≡ general_in bytes.now }
    {
        if bytes.len() < GENERAL_READ {
            return None;
        }
        Some(General {
            group: bytes[0],
            image: bytes[1],
            order: bytes[2],
            name: bytes[3],
            coe_details: bytes[5],
            foe_details: bytes[6],
            eoe_details: bytes[7],
            flags: bytes[11],
            current: word_at(bytes, 12),
            ports: word_at(bytes, 16),
        })
    }
}

/// The sync manager of the category SyncM whose eight bytes begin at a place; `None` where they are not all
/// there. Its status, the sixth byte, is passed over.
pub fn sync_manager_at(bytes: &[u8], at: usize) -> Option<SiiSyncManager>
    ensures { result ≡ sync_manager_at bytes.now at }
{
    if !has(bytes, at, RECORD) {
        return None;
    }
    Some(SiiSyncManager {
        start: word_at(bytes, at),
        length: word_at(bytes, at + 2),
        control: bytes[at + 4],
        enable: bytes[at + 6],
        kind: bytes[at + 7],
    })
}

/// The head of the PDO that begins at a place of the categories TXPDO or RXPDO: first at 0, then at `next` of
/// the one before. There is `None` where no byte stands; `CutPdo` where its head or its entries are not all
/// there.
#[tactic(auto, unfolding(crate::specs::Reading::pdo_at))]
pub fn pdo_at(bytes: &[u8], at: usize) -> Result<Option<PdoHead>, SiiFault>
    ensures value { result ≡ pdo_at bytes.now at }
    ensures begins { IfOk result (λ found. IfSome found (λ p. p.from ≡ at + 8)) }
    ensures entries { IfOk result (λ found. IfSome found (λ p. p.next ≡ p.from + 8 * p.count)) }
    ensures within { IfOk result (λ found. IfSome found (λ p. p.next ≤ length bytes.now)) }
{
    if at >= bytes.len() {
        return Ok(None);
    }
    if !has(bytes, at, RECORD) {
        return Err(SiiFault::CutPdo);
    }
    let from = at + RECORD;
    let size = RECORD * usize::from(bytes[at + 2]);
    if !has(bytes, from, size) {
        return Err(SiiFault::CutPdo);
    }
    Ok(Some(PdoHead {
        index: word_at(bytes, at),
        count: bytes[at + 2],
        sync_manager: bytes[at + 3],
        sync: bytes[at + 4],
        name: bytes[at + 5],
        flags: word_at(bytes, at + 6),
        from,
        next: from + size,
    }))
}

/// The entry of a PDO whose eight bytes begin at a place, as `from + 8 * k` of its head; `None` where they
/// are not all there. Its flags, the last two bytes, are passed over.
pub fn entry_at(bytes: &[u8], at: usize) -> Option<NamedEntry>
    ensures { result ≡ entry_at bytes.now at }
{
    if !has(bytes, at, RECORD) {
        return None;
    }
    Some(NamedEntry {
        entry: PdoEntry {
            index: word_at(bytes, at),
            subindex: bytes[at + 2],
            kind: bytes[at + 4],
            bits: bytes[at + 5],
        },
        name: bytes[at + 3],
    })
}

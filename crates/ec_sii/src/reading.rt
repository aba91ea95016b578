//! What the bytes of an EEPROM tell, whoever wrote them and wherever they end: the head, and the categories
//! behind it (ETG.1000.6, slave information interface; ETG.2010).
//!
//! Nothing is taken on trust: each function answers for any bytes and any place, and takes no memory.

ghost use Rattle.std.specs.Prelude.{◌≡◌, ◌+◌, ◌≤◌, length, IfOk, IfSome};
ghost use Rattle.ec_sii.specs.Reading.{category_at, double_at, has, head_in, identity_in, mailboxes_in};
ghost use Rattle.ec_sii.specs.Reading.{word_at};

use crate::crc::crc8;
use crate::image::{Identity, Mailboxes};

/// How many bytes the head has, 64 words: the first category begins there.
pub const HEAD: usize = 128;

/// How many bytes at the front of the head its checksum is of.
const CHECKED: usize = 14;

/// The kind that stands where the categories end.
const END_KIND: u16 = 0xFFFF;

/// Why bytes are no EEPROM's. A caller knows where: at the place that it asked for.
#[derive(Clone, Copy, PartialEq, Eq, Debug)]
pub enum SiiFault {
    /// The bytes end before word 0x40, inside the head.
    Short,
    /// The bytes end inside the category that begins here: in its kind, its size or its words.
    CutCategory,
    /// The category ends inside the PDO that begins here: in its head or its entries.
    CutPdo,
}

/// What the head tells, words 0 to 0x3F (ETG.1000.6, slave information interface).
#[derive(Clone, Copy, PartialEq, Eq, Debug)]
pub struct SiiHead {
    /// The alias by which a master may name the slave, 0 for none: word 4.
    pub alias: u16,
    /// The checksum as it stands: the low byte of word 7.
    pub checksum: u8,
    /// The checksum that words 0 to 6 have. A controller takes them only where it is what stands.
    pub computed: u8,
    /// Who made the slave, and what it is: words 8 to 15.
    pub identity: Identity,
    /// Where its mailboxes lie, and what they speak: words 0x18 to 0x1C.
    pub mailboxes: Mailboxes,
    /// The size of the EEPROM in Kbit, less 1: word 0x3E.
    pub size: u16,
    /// The version of the layout, 1: word 0x3F.
    pub version: u16,
}

/// Where a category's words stand.
#[derive(Clone, Copy, PartialEq, Eq, Debug)]
pub struct Category {
    /// Its kind, as 10 STRINGS, 30 General, 40 FMMU with a byte for each, 41 SyncM, 50 TXPDO, 51 RXPDO.
    pub kind: u16,
    /// The place of its first byte, behind its kind and its size.
    pub from: usize,
    /// How many bytes it has; the next category begins at `from + length`.
    pub length: usize,
}

// ---- places

/// Whether so many bytes from a place on are there.
pub(crate) fn has(bytes: &[u8], at: usize, count: usize) -> bool
    ensures { result ≡ has bytes.now at count }
{
    at <= bytes.len() && count <= bytes.len() - at
}

/// The number in the two bytes from a place on.
pub(crate) fn word_at(bytes: &[u8], at: usize) -> u16
    requires { at + 2 ≤ length bytes.now }
    ensures { result ≡ word_at bytes.now at }
{
    u16::from_le_bytes([bytes[at], bytes[at + 1]])
}

/// The number in the four bytes from a place on.
fn double_at(bytes: &[u8], at: usize) -> u32
    requires { at + 4 ≤ length bytes.now }
    ensures { result ≡ double_at bytes.now at }
{
    u32::from_le_bytes([bytes[at], bytes[at + 1], bytes[at + 2], bytes[at + 3]])
}

// ---- the head

/// The identity in the head.
fn identity_in(bytes: &[u8]) -> Identity
    requires { HEAD ≤ length bytes.now }
    ensures { result ≡ identity_in bytes.now }
{
    Identity {
        vendor: double_at(bytes, 16),
        product: double_at(bytes, 20),
        revision: double_at(bytes, 24),
        serial: double_at(bytes, 28),
    }
}

/// The mailboxes in the head.
fn mailboxes_in(bytes: &[u8]) -> Mailboxes
    requires { HEAD ≤ length bytes.now }
    ensures { result ≡ mailboxes_in bytes.now }
{
    Mailboxes {
        out_start: word_at(bytes, 48),
        out_length: word_at(bytes, 50),
        in_start: word_at(bytes, 52),
        in_length: word_at(bytes, 54),
        protocols: word_at(bytes, 56),
    }
}

impl SiiHead {
    /// The head of these bytes, or `Short` where they are fewer than 128. What stands behind it does not
    /// matter.
    pub fn read(bytes: &[u8]) -> Result<SiiHead, SiiFault>
        ensures { result ≡ head_in bytes.now }
    {
        if bytes.len() < HEAD {
            return Err(SiiFault::Short);
        }
        Ok(SiiHead {
            alias: word_at(bytes, 8),
            checksum: bytes[CHECKED],
            computed: crc8(&bytes[..CHECKED]),
            identity: identity_in(bytes),
            mailboxes: mailboxes_in(bytes),
            size: word_at(bytes, 124),
            version: word_at(bytes, 126),
        })
    }
}

// ---- categories

/// The category that begins at a place: first at `HEAD`, then where the one before ends. There is `None`
/// where the kind 0xFFFF stands, and where no byte stands, since contents may end without that kind;
/// `CutCategory` where it is not all there.
#[tactic(auto, unfolding(crate::specs::Reading::category_at))]
pub fn category_at(bytes: &[u8], at: usize) -> Result<Option<Category>, SiiFault>
    ensures value { result ≡ category_at bytes.now at }
    ensures begins { IfOk result (λ found. IfSome found (λ c. c.from ≡ at + 4)) }
    ensures within { IfOk result (λ found. IfSome found (λ c. c.from + c.length ≤ length bytes.now)) }
{
    if at >= bytes.len() {
        return Ok(None);
    }
    if !has(bytes, at, 2) {
        return Err(SiiFault::CutCategory);
    }
    let kind = word_at(bytes, at);
    if kind == END_KIND {
        return Ok(None);
    }
    if !has(bytes, at, 4) {
        return Err(SiiFault::CutCategory);
    }
    let length = 2 * usize::from(word_at(bytes, at + 2));
    if !has(bytes, at + 4, length) {
        return Err(SiiFault::CutCategory);
    }
    Ok(Some(Category {
        kind,
        from: at + 4,
        length,
    }))
}

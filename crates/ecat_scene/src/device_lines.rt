//! The lines that say what a slave tells of itself.

ghost use Rattle.std.specs.Prelude.{◌≡◌, ◌<◌, ◌++◌, ◌∷◌, [], length, map, IfOk, IfSome, OnOk, List, ℕ};
ghost use Rattle.std.specs.List.{flat_map};
ghost use Rattle.ecat_scene.specs.Deeds.{alias_line, Does, identity_line, kind_line, name_line};
ghost use Rattle.ecat_scene.specs.Deeds.{pdo_line, sii_line};
ghost use Rattle.ecat_scene.specs.Order.{MissesSlave};
ghost use Rattle.ecat_scene.specs.Scene.{pdo_record, scene_record, sii_record};
ghost use Rattle.ecat_scene.specs.Words.{alias_of, all_mapped, colon_in, entries_from, entry_in, Gives};
ghost use Rattle.ecat_scene.specs.Words.{halves, identity_of, mapped, name_of, pdo_of, seen, sii_of, spaced};
ghost use Rattle.ecat_scene.specs.Fields.{fitting};
ghost use Rattle.ec_regs.specs.declared.registers.TheConstants.{SYNC_MANAGER_COUNT};

use crate::fault::{LineFault, Stop};
use crate::last_slave::{add_pdo, add_sii, set_alias, set_identity, set_kind, set_name};
use crate::numbers::{byte, bytes, double_word, number, test_bytes, word};
use crate::reader::Reader;
use crate::scene::{
    MAX_EEPROM, MAX_NAME, MAX_PDO_ENTRIES, ScenePdo, ScenePdoEntry, SiiBytes, SlaveKind,
};
use ec_regs::registers::SYNC_MANAGER_COUNT;
use ec_sii::Identity;
use std::alloc::{AllocError, Global};

impl Reader {
    /// `plain` and `device`
    #[tactic(auto, unfolding(crate::specs::Deeds::kind_line))]
    pub(crate) fn kind(&mut self, kind: SlaveKind, words: &[&[u8]]) -> Result<(), Stop>
        ensures misses { MissesSlave 0 words.now self.old.scene result }
        ensures links { self.new.links.items ≡ self.old.links.items }
        ensures done { Does result (scene_record self.new.scene)
            (kind_line kind (map (λ word. word.now) words.now) (scene_record self.old.scene)) }
    {
        let [] = words else {
            return Err(Stop::Fault(LineFault::WrongCount));
        };
        set_kind(&mut self.scene.slaves, kind)
    }

    /// `identity VENDOR PRODUCT REVISION SERIAL`
    #[tactic(auto, unfolding(crate::specs::Deeds::identity_line))]
    pub(crate) fn identity(&mut self, words: &[&[u8]]) -> Result<(), Stop>
        ensures misses { MissesSlave 4 words.now self.old.scene result }
        ensures links { self.new.links.items ≡ self.old.links.items }
        ensures done { Does result (scene_record self.new.scene)
            (identity_line (map (λ word. word.now) words.now) (scene_record self.old.scene)) }
    {
        let [vendor, product, revision, serial] = words else {
            return Err(Stop::Fault(LineFault::WrongCount));
        };
        set_identity(&mut self.scene.slaves, vendor, product, revision, serial)
    }

    /// `alias NUMBER`
    #[tactic(auto, unfolding(crate::specs::Deeds::alias_line))]
    pub(crate) fn alias(&mut self, words: &[&[u8]]) -> Result<(), Stop>
        ensures misses { MissesSlave 1 words.now self.old.scene result }
        ensures links { self.new.links.items ≡ self.old.links.items }
        ensures done { Does result (scene_record self.new.scene)
            (alias_line (map (λ word. word.now) words.now) (scene_record self.old.scene)) }
    {
        let [alias] = words else {
            return Err(Stop::Fault(LineFault::WrongCount));
        };
        set_alias(&mut self.scene.slaves, alias)
    }

    /// `name TEXT`
    #[tactic(auto, unfolding(crate::specs::Deeds::name_line))]
    pub(crate) fn name(&mut self, words: &[&[u8]]) -> Result<(), Stop>
        ensures links { self.new.links.items ≡ self.old.links.items }
        ensures done { Does result (scene_record self.new.scene)
            (name_line (map (λ word. word.now) words.now) (scene_record self.old.scene)) }
    {
        let [first, more @ ..] = words else {
            return Err(Stop::Fault(LineFault::WrongCount));
        };
        set_name(self.alloc, &mut self.scene.slaves, first, more)
    }

    /// `pdo INDEX SM INDEX:SUB:BITS ..`
    #[tactic(auto, unfolding(crate::specs::Deeds::pdo_line))]
    pub(crate) fn pdo(&mut self, words: &[&[u8]]) -> Result<(), Stop>
        ensures links { self.new.links.items ≡ self.old.links.items }
        ensures done { Does result (scene_record self.new.scene)
            (pdo_line (map (λ word. word.now) words.now) (scene_record self.old.scene)) }
    {
        let [index, manager, entries @ ..] = words else {
            return Err(Stop::Fault(LineFault::WrongCount));
        };
        add_pdo(self.alloc, &mut self.scene.slaves, index, manager, entries)
    }

    /// `sii ADDRESS BYTES`
    #[tactic(auto, unfolding(crate::specs::Deeds::sii_line))]
    pub(crate) fn sii(&mut self, words: &[&[u8]]) -> Result<(), Stop>
        ensures misses { MissesSlave 2 words.now self.old.scene result }
        ensures links { self.new.links.items ≡ self.old.links.items }
        ensures done { Does result (scene_record self.new.scene)
            (sii_line (map (λ word. word.now) words.now) (scene_record self.old.scene)) }
    {
        let [address, row] = words else {
            return Err(Stop::Fault(LineFault::WrongCount));
        };
        add_sii(self.alloc, &mut self.scene.slaves, address, row)
    }
}

/// The identity of these words.
#[tactic(auto, unfolding(crate::specs::Words::identity_of))]
pub(crate) fn identity_of(
    vendor: &[u8],
    product: &[u8],
    revision: &[u8],
    serial: &[u8],
) -> Result<Identity, LineFault>
    ensures { result ≡ identity_of vendor.now product.now revision.now serial.now }
{
    let vendor = number(vendor)?;
    let product = number(product)?;
    let revision = number(revision)?;
    let serial = number(serial)?;
    let vendor = double_word(vendor)?;
    let product = double_word(product)?;
    let revision = double_word(revision)?;
    let serial = double_word(serial)?;
    Ok(Identity {
        vendor,
        product,
        revision,
        serial,
    })
}

/// The alias of a word.
#[tactic(auto, unfolding(crate::specs::Words::alias_of))]
pub(crate) fn alias_of(alias: &[u8]) -> Result<u16, LineFault>
    ensures { result ≡ alias_of alias.now }
{
    word(number(alias)?)
}

/// Where the first colon of a word stands.
fn colon_in(word: &[u8]) -> Option<usize>
    ensures value { result ≡ colon_in word.now }
    ensures inside { IfSome result (λ at. at < length word.now) }
{
    word.iter().position(|byte| *byte == b':')
}

/// What stands before the first colon of a word, and behind it.
fn halves(word: &[u8]) -> Result<(&[u8], &[u8]), LineFault>
    ensures { seen (λ both. (both.0.now, both.1.now)) result ≡ halves word.now }
{
    match colon_in(word) {
        Some(at) => {
            let (_front, behind) = word.split_at(at + 1);
            Ok((&word[..at], behind))
        }
        None => Err(LineFault::BadNumber),
    }
}

/// The numbers of an object that a PDO maps, `INDEX:SUB:BITS`.
#[tactic(auto, unfolding(crate::specs::Words::mapped))]
fn mapped(word: &[u8]) -> Result<(u64, u64, u64), LineFault>
    ensures { result ≡ mapped word.now }
{
    let (index, rest) = halves(word)?;
    let (sub, bits) = halves(rest)?;
    let index = number(index)?;
    let sub = number(sub)?;
    let bits = number(bits)?;
    Ok((index, sub, bits))
}

/// The object of these numbers.
#[tactic(auto, unfolding(crate::specs::Words::entry_in))]
fn entry_in(numbers: (u64, u64, u64)) -> Result<ScenePdoEntry, LineFault>
    ensures { result ≡ entry_in numbers }
{
    let index = word(numbers.0)?;
    let sub = byte(numbers.1)?;
    let bits = byte(numbers.2)?;
    Ok(ScenePdoEntry { index, sub, bits })
}

/// Tests that each word has the form of an object that a PDO maps.
fn test_mapped(words: &[&[u8]]) -> Result<(), LineFault>
    ensures { result ≡ all_mapped (map (λ word. word.now) words.now) }
{
    for word in words {
        let _numbers = mapped(word)?;
    }
    Ok(())
}

/// The objects that these words name.
fn entries_of(alloc: Global, words: &[&[u8]]) -> Result<Vec<ScenePdoEntry>, Stop>
    ensures { Gives (λ entries. entries.items) result (entries_from [] (map (λ word. word.now) words.now)) }
{
    let mut entries = Vec::new(alloc);
    for word in words {
        let entry = entry_in(mapped(word)?)?;
        entries.push(entry)?;
    }
    Ok(entries)
}

/// The PDO of these words.
#[tactic(auto, unfolding(crate::specs::Words::pdo_of))]
pub(crate) fn pdo_of(
    alloc: Global,
    index: &[u8],
    manager: &[u8],
    words: &[&[u8]],
) -> Result<ScenePdo, Stop>
    ensures { Gives pdo_record result (pdo_of index.now manager.now (map (λ word. word.now) words.now)) }
{
    let index = number(index)?;
    let manager = number(manager)?;
    test_mapped(words)?;
    let index = word(index)?;
    let manager = manager_in(manager)?;
    if MAX_PDO_ENTRIES < words.len() {
        return Err(Stop::Fault(LineFault::TooMany));
    }
    let entries = entries_of(alloc, words)?;
    Ok(ScenePdo {
        index,
        manager,
        entries,
    })
}

/// A number as that of a sync manager.
fn manager_in(number: u64) -> Result<u8, LineFault>
    ensures { result ≡ fitting SYNC_MANAGER_COUNT number }
{
    if number < SYNC_MANAGER_COUNT as u64 {
        Ok(number as u8)
    } else {
        Err(LineFault::OutOfRange)
    }
}

/// The bytes of a row for an EEPROM, from a word on.
#[tactic(auto, using(crate::proofs::RowLemmas::rows), unfolding(crate::specs::Words::sii_of))]
pub(crate) fn sii_of(alloc: Global, address: &[u8], row: &[u8]) -> Result<SiiBytes, Stop>
    ensures { Gives sii_record result (sii_of address.now row.now) }
{
    let address = number(address)?;
    test_bytes(row)?;
    let word = word(address)?;
    let bytes = bytes(alloc, row)?;
    if MAX_EEPROM < 2 * usize::from(word) + bytes.len() {
        return Err(Stop::Fault(LineFault::OutOfRange));
    }
    Ok(SiiBytes { word, bytes })
}

/// Words with a space between any two of them.
fn spaced(alloc: Global, first: &[u8], more: &[&[u8]]) -> Result<Vec<u8>, AllocError>
    ensures { IfOk result (λ text. text.items ≡ spaced first.now (map (λ word. word.now) more.now)) }
{
    let mut text = Vec::new(alloc);
    text.extend_from_slice(first)?;
    put_words(&mut text, more)?;
    Ok(text)
}

/// Puts each word behind a space.
fn put_words(text: &mut Vec<u8>, words: &[&[u8]]) -> Result<(), AllocError>
    ensures { OnOk result (text.new.items
        ≡ text.old.items ++ flat_map (λ (word : List ℕ). 32 ∷ word) (map (λ word. word.now) words.now)) }
{
    for word in words {
        text.push(b' ')?;
        text.extend_from_slice(word)?;
    }
    Ok(())
}

/// The name of these words, which has 64 bytes at the most.
#[tactic(auto, unfolding(crate::specs::Words::name_of))]
pub(crate) fn name_of(alloc: Global, first: &[u8], more: &[&[u8]]) -> Result<Vec<u8>, Stop>
    ensures { Gives (λ name. name.items) result (name_of first.now (map (λ word. word.now) more.now)) }
{
    let name = spaced(alloc, first, more)?;
    if MAX_NAME < name.len() {
        return Err(Stop::Fault(LineFault::OutOfRange));
    }
    Ok(name)
}

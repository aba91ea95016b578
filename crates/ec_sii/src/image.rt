//! The contents of an EEPROM, made of what a slave is (ETG.1000.6, slave information interface; ETG.2010).

ghost use Rattle.std.specs.Prelude.{◌≡◌, ◌++◌, OnOk, IfOk, codes};
ghost use Rattle.std.specs.List.{flat_map};
ghost use Rattle.ec_sii.specs.Image.{category, checked_words, device_bytes, entry_bytes, first_words};
ghost use Rattle.ec_sii.specs.Image.{general_bytes};
ghost use Rattle.ec_sii.specs.Image.{head_bytes, identity_bytes, image_bytes, mailbox_bytes, pdo_bytes};
ghost use Rattle.ec_sii.specs.Image.{process_bytes, size_bytes, strings_bytes, sync_manager_bytes, text};

use crate::crc::crc8;
use std::alloc::{AllocError, Global};

/// The kinds of categories, by the standard's names: STRINGS, General, FMMU, SyncM, TXPDO and RXPDO.
const STRINGS: u16 = 10;

const GENERAL: u16 = 30;

const FMMUS: u16 = 40;

const SYNC_MANAGERS: u16 = 41;

const INPUTS: u16 = 50;

const OUTPUTS: u16 = 51;

/// The kind that ends the categories.
const END: [u8; 2] = [0xFF, 0xFF];

/// The most words that a category has.
const MOST_WORDS: usize = 0xFFFF;

/// The most bytes of a text, and entries of a PDO.
const MOST: usize = 0xFF;

/// What the PDOs that the master writes are called, the text 2.
const OUTPUTS_TEXT: &[u8] = b"Outputs";

const OUTPUTS_NUMBER: u8 = 2;

/// What the PDOs that the master reads are called, the text 3.
const INPUTS_TEXT: &[u8] = b"Inputs";

const INPUTS_NUMBER: u8 = 3;

/// Who made the slave, and what it is, as in object 0x1018.
#[derive(Clone, Copy, PartialEq, Eq, Debug)]
pub struct Identity {
    /// The vendor, by its number.
    pub vendor: u32,
    /// The product code.
    pub product: u32,
    /// The revision.
    pub revision: u32,
    /// The serial number.
    pub serial: u32,
}

/// Where the mailboxes lie, and what is spoken through them; all 0 where there are none.
#[derive(Clone, Copy, PartialEq, Eq, Debug)]
pub struct Mailboxes {
    /// The first byte of the mailbox that the master writes.
    pub out_start: u16,
    /// Its length, in bytes.
    pub out_length: u16,
    /// The first byte of the mailbox that the master reads.
    pub in_start: u16,
    /// Its length, in bytes.
    pub in_length: u16,
    /// The protocols: 1 AoE, 2 EoE, 4 CoE, 8 FoE, 16 SoE, 32 VoE, added.
    pub protocols: u16,
}

/// What a sync manager of the slave is for.
#[derive(Clone, Copy, PartialEq, Eq, Debug)]
pub struct SiiSyncManager {
    /// The first byte of its area.
    pub start: u16,
    /// The length of its area, in bytes.
    pub length: u16,
    /// Its control byte.
    pub control: u8,
    /// Bit 0: it is enabled.
    pub enable: u8,
    /// 0 unused, 1 mailbox that the master writes, 2 mailbox that it reads, 3 outputs, 4 inputs.
    pub kind: u8,
}

/// An object that a PDO maps.
#[derive(Clone, Copy, PartialEq, Eq, Debug)]
pub struct PdoEntry {
    /// The index of the object, 0 for a gap.
    pub index: u16,
    /// Its subindex.
    pub subindex: u8,
    /// The type of its value, by the number of the type, as 5 for UNSIGNED8.
    pub kind: u8,
    /// How many bits it takes.
    pub bits: u8,
}

/// A run of process data: the objects that it maps, one after the other.
#[derive(Drop)]
pub struct Pdo {
    /// The index of the object that lists it, as 0x1600 or 0x1A00.
    pub index: u16,
    /// The sync manager in whose area it stands.
    pub sync_manager: u8,
    /// The objects that it maps, at most 255.
    pub entries: Vec<PdoEntry>,
}

/// What the EEPROM of a slave tells.
#[derive(Drop)]
pub struct SiiContents {
    /// The alias by which a master may name the slave, 0 for none.
    pub alias: u16,
    /// Who made it, and what it is.
    pub identity: Identity,
    /// Its mailboxes.
    pub mailboxes: Mailboxes,
    /// Its name, at most 255 bytes of text.
    pub name: Vec<u8>,
    /// The details of CoE: 1 SDOs, 2 SDO information, 4 PDOs can be assigned, 8 configured, 16 and uploaded,
    /// 32 complete access, added.
    pub coe_details: u8,
    /// What each FMMU is for: 0 unused, 1 outputs, 2 inputs, 3 the state of a mailbox.
    pub fmmus: Vec<u8>,
    /// What each sync manager is for.
    pub sync_managers: Vec<SiiSyncManager>,
    /// The PDOs that the master reads.
    pub inputs: Vec<Pdo>,
    /// The PDOs that the master writes.
    pub outputs: Vec<Pdo>,
}

/// Why no contents were made.
#[derive(Clone, Copy, PartialEq, Eq, Debug)]
pub enum ImageFault {
    /// The name has more than 255 bytes, a PDO more than 255 entries, or a category more than 65,535 words.
    TooLong,
    /// Memory ran out.
    NoMemory,
}

impl From<AllocError> for ImageFault {
    fn from(_refused: AllocError) -> ImageFault {
        ImageFault::NoMemory
    }
}

// ---- the head

/// Words 0 to 6.
fn first_words(alias: u16) -> [u8; 14]
    ensures { result ≡ first_words alias }
{
    let alias = alias.to_le_bytes();
    [0, 0, 0, 0, 0, 0, 0, 0, alias[0], alias[1], 0, 0, 0, 0]
}

/// Puts words 0 to 7.
fn put_first(out: &mut Vec<u8>, alias: u16) -> Result<(), ImageFault>
    ensures { OnOk result (out.new.items ≡ out.old.items ++ checked_words alias) }
{
    let first = first_words(alias);
    out.extend_from_slice(&first)?;
    out.extend_from_slice(&[crc8(&first), 0])?;
    Ok(())
}

/// Puts words 8 to 15.
fn put_identity(out: &mut Vec<u8>, identity: &Identity) -> Result<(), ImageFault>
    ensures { OnOk result (out.new.items ≡ out.old.items ++ identity_bytes identity.now) }
{
    out.extend_from_slice(&identity.vendor.to_le_bytes())?;
    out.extend_from_slice(&identity.product.to_le_bytes())?;
    out.extend_from_slice(&identity.revision.to_le_bytes())?;
    out.extend_from_slice(&identity.serial.to_le_bytes())?;
    Ok(())
}

/// Puts words 24 to 28.
fn put_mailboxes(out: &mut Vec<u8>, mailboxes: &Mailboxes) -> Result<(), ImageFault>
    ensures { OnOk result (out.new.items ≡ out.old.items ++ mailbox_bytes mailboxes.now) }
{
    out.extend_from_slice(&mailboxes.out_start.to_le_bytes())?;
    out.extend_from_slice(&mailboxes.out_length.to_le_bytes())?;
    out.extend_from_slice(&mailboxes.in_start.to_le_bytes())?;
    out.extend_from_slice(&mailboxes.in_length.to_le_bytes())?;
    out.extend_from_slice(&mailboxes.protocols.to_le_bytes())?;
    Ok(())
}

/// Puts words 29 to 63.
fn put_size(out: &mut Vec<u8>) -> Result<(), ImageFault>
    ensures { OnOk result (out.new.items ≡ out.old.items ++ size_bytes) }
{
    out.extend_from_slice(&[0; 66])?;
    out.extend_from_slice(&[15, 0, 1, 0])?;
    Ok(())
}

/// Puts the first 64 words.
fn put_head(out: &mut Vec<u8>, contents: &SiiContents) -> Result<(), ImageFault>
    ensures { OnOk result (out.new.items ≡ out.old.items ++ head_bytes contents.now) }
{
    put_first(out, contents.alias)?;
    put_identity(out, &contents.identity)?;
    out.extend_from_slice(&[0; 16])?;
    put_mailboxes(out, &contents.mailboxes)?;
    put_size(out)
}

// ---- categories

/// Puts a category of these bytes, or nothing where there are none.
fn put_category(out: &mut Vec<u8>, kind: u16, bytes: &[u8]) -> Result<(), ImageFault>
    ensures { OnOk result (out.new.items ≡ out.old.items ++ category kind bytes.now) }
{
    let words = bytes.len() / 2 + bytes.len() % 2;
    if words == 0 {
        return Ok(());
    }
    if words > MOST_WORDS {
        return Err(ImageFault::TooLong);
    }
    out.extend_from_slice(&kind.to_le_bytes())?;
    out.extend_from_slice(&(words as u16).to_le_bytes())?;
    out.extend_from_slice(bytes)?;
    if bytes.len() % 2 == 1 {
        out.extend_from_slice(&[0])?;
    }
    Ok(())
}

/// Puts a text.
fn put_text(out: &mut Vec<u8>, letters: &[u8]) -> Result<(), ImageFault>
    ensures { OnOk result (out.new.items ≡ out.old.items ++ text letters.now) }
{
    if letters.len() > MOST {
        return Err(ImageFault::TooLong);
    }
    out.extend_from_slice(&[letters.len() as u8])?;
    out.extend_from_slice(letters)?;
    Ok(())
}

/// The bytes of the texts.
fn strings(alloc: Global, name: &[u8]) -> Result<Vec<u8>, ImageFault>
    ensures { IfOk result (λ v. v.items ≡ strings_bytes name.now) }
{
    let mut bytes = Vec::new(alloc);
    bytes.extend_from_slice(&[3])?;
    put_text(&mut bytes, name)?;
    put_text(&mut bytes, OUTPUTS_TEXT)?;
    put_text(&mut bytes, INPUTS_TEXT)?;
    Ok(bytes)
}

/// The bytes of the category General.
fn general(details: u8) -> [u8; 32]
    ensures { result ≡ general_bytes details }
{
    [
        0, 0, 1, 1, 0, details, 0, 0, 0, 0, 0, 0, 0, 0, 0, 0, 0x11, 0, 0, 0, 0, 0, 0, 0, 0, 0, 0,
        0, 0, 0, 0, 0,
    ]
}

/// Puts a sync manager.
fn put_sync_manager(out: &mut Vec<u8>, manager: &SiiSyncManager) -> Result<(), ImageFault>
    ensures { OnOk result (out.new.items ≡ out.old.items ++ sync_manager_bytes manager.now) }
{
    out.extend_from_slice(&manager.start.to_le_bytes())?;
    out.extend_from_slice(&manager.length.to_le_bytes())?;
    out.extend_from_slice(&[manager.control, 0, manager.enable, manager.kind])?;
    Ok(())
}

/// The bytes of the sync managers.
fn sync_managers(alloc: Global, managers: &[SiiSyncManager]) -> Result<Vec<u8>, ImageFault>
    ensures { IfOk result (λ v. v.items ≡ flat_map sync_manager_bytes managers.now) }
{
    let mut bytes = Vec::new(alloc);
    for manager in managers {
        put_sync_manager(&mut bytes, manager)?;
    }
    Ok(bytes)
}

/// Puts an entry of a PDO.
fn put_entry(out: &mut Vec<u8>, entry: &PdoEntry) -> Result<(), ImageFault>
    ensures { OnOk result (out.new.items ≡ out.old.items ++ entry_bytes entry.now) }
{
    out.extend_from_slice(&entry.index.to_le_bytes())?;
    out.extend_from_slice(&[entry.subindex, 0, entry.kind, entry.bits, 0, 0])?;
    Ok(())
}

/// Puts the entries of a PDO.
fn put_entries(out: &mut Vec<u8>, entries: &[PdoEntry]) -> Result<(), ImageFault>
    ensures { OnOk result (out.new.items ≡ out.old.items ++ flat_map entry_bytes entries.now) }
{
    for entry in entries {
        put_entry(out, entry)?;
    }
    Ok(())
}

/// Puts a PDO, which is called by the text with a number.
fn put_pdo(out: &mut Vec<u8>, name: u8, pdo: &Pdo) -> Result<(), ImageFault>
    ensures { OnOk result (out.new.items ≡ out.old.items ++ pdo_bytes name pdo.now) }
{
    let count = pdo.entries.len();
    if count > MOST {
        return Err(ImageFault::TooLong);
    }
    out.extend_from_slice(&pdo.index.to_le_bytes())?;
    out.extend_from_slice(&[count as u8, pdo.sync_manager, 0, name, 0, 0])?;
    put_entries(out, pdo.entries.as_slice())
}

/// The bytes of PDOs, which are called by the text with a number.
fn pdos(alloc: Global, name: u8, all: &[Pdo]) -> Result<Vec<u8>, ImageFault>
    ensures { IfOk result (λ v. v.items ≡ flat_map (pdo_bytes name) all.now) }
{
    let mut bytes = Vec::new(alloc);
    for pdo in all {
        put_pdo(&mut bytes, name, pdo)?;
    }
    Ok(bytes)
}

// ---- all of it

/// Puts the categories that tell of the device.
fn put_device(alloc: Global, out: &mut Vec<u8>, contents: &SiiContents) -> Result<(), ImageFault>
    ensures { OnOk result (out.new.items ≡ out.old.items ++ device_bytes contents.now) }
{
    let texts = strings(alloc, contents.name.as_slice())?;
    put_category(out, STRINGS, texts.as_slice())?;
    put_category(out, GENERAL, &general(contents.coe_details))?;
    put_category(out, FMMUS, contents.fmmus.as_slice())?;
    let managers = sync_managers(alloc, contents.sync_managers.as_slice())?;
    put_category(out, SYNC_MANAGERS, managers.as_slice())
}

/// Puts the categories that tell of process data.
fn put_process(alloc: Global, out: &mut Vec<u8>, contents: &SiiContents) -> Result<(), ImageFault>
    ensures { OnOk result (out.new.items ≡ out.old.items ++ process_bytes contents.now) }
{
    let inputs = pdos(alloc, INPUTS_NUMBER, contents.inputs.as_slice())?;
    put_category(out, INPUTS, inputs.as_slice())?;
    let outputs = pdos(alloc, OUTPUTS_NUMBER, contents.outputs.as_slice())?;
    put_category(out, OUTPUTS, outputs.as_slice())
}

impl SiiContents {
    /// The bytes of an EEPROM that tells this: a head of 64 words with a checksum, then categories: STRINGS,
    /// General, FMMU, SyncM, TXPDO and RXPDO, without those that have nothing to tell (ETG.1000.6, slave
    /// information interface; ETG.2010).
    pub fn image(&self, alloc: Global) -> Result<Vec<u8>, ImageFault>
        ensures { IfOk result (λ v. v.items ≡ image_bytes self.now) }
    {
        let mut out = Vec::new(alloc);
        put_head(&mut out, self)?;
        put_device(alloc, &mut out, self)?;
        put_process(alloc, &mut out, self)?;
        out.extend_from_slice(&END)?;
        Ok(out)
    }
}

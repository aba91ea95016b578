//! Which PDOs map the process data of a device (ETG.1000.6, PDO mapping): those that its objects list, or
//! else such as are made up, the same in its EEPROM and in its objects.

ghost use Rattle.std.specs.Prelude.{◌≡◌, ◌-◌, ◌%◌, ◌<◌, ◌^◌, IfOk, length, map, min};
ghost use Rattle.ecat_scene.specs.Scene.{pdo_record, slave_record};
ghost use Rattle.ecat_setup.specs.ProcessData.{count_at, entry_of, has_pdo, kind_of, length_of, listed};
ghost use Rattle.ecat_setup.specs.ProcessData.{listed_at, listed_entries, listed_pdo, made_entries};
ghost use Rattle.ecat_setup.specs.ProcessData.{made_entry, made_pdo, made_up, mapped_by, mapped_pdo};
ghost use Rattle.ecat_setup.specs.ProcessData.{number_at, objects_for, pdos_of, said, said_entry, said_pdo};

use ec_app::{ObjectFault, Objects, Rights, Value};
use ec_sii::{Pdo, PdoEntry};
use ecat_scene::{ScenePdo, ScenePdoEntry, SceneSlave};
use std::alloc::{AllocError, Global};

/// How many bytes a PDO maps that is made up, at most.
const PDO_BYTES: u16 = 256;

/// The types of values, by their numbers (ETG.1000.6, data types).
const BOOLEAN: u8 = 1;

const UNSIGNED8: u8 = 5;

const UNSIGNED16: u8 = 6;

const UNSIGNED32: u8 = 7;

/// Which objects and which sync manager process data of one direction have.
#[derive(Clone, Copy)]
pub(crate) struct Direction {
    /// The object that lists the PDOs of the sync manager.
    pub(crate) assigned: u16,
    /// The object of the first PDO.
    first_pdo: u16,
    /// The object of the first values that are mapped.
    first_values: u16,
    /// The sync manager that guards them.
    pub(crate) sync_manager: u8,
}

impl Direction {
    /// Is the object of a PDO with this index one of this direction: those of what the master reads begin at
    /// 0x1A00, and those of what it writes lie below (ETG.1000.6, CoE communication area)?
    fn has(self, index: u16) -> bool
        ensures { result ≡ has_pdo self index }
    {
        (INPUTS.first_pdo <= index) == (INPUTS.first_pdo <= self.first_pdo)
    }

    /// How many bytes of process data of this direction a slave has.
    fn length(self, described: &SceneSlave) -> u16
        ensures { result ≡ length_of self (slave_record described.now) }
    {
        if self.has(OUTPUTS.first_pdo) {
            described.output_length
        } else {
            described.input_length
        }
    }
}

/// What the master writes.
pub(crate) const OUTPUTS: Direction = Direction {
    assigned: 0x1C12,
    first_pdo: 0x1600,
    first_values: 0x7000,
    sync_manager: 2,
};

/// What it reads.
pub(crate) const INPUTS: Direction = Direction {
    assigned: 0x1C13,
    first_pdo: 0x1A00,
    first_values: 0x6000,
    sync_manager: 3,
};

/// The number at an index and a subindex, if there is one.
pub(crate) fn number_at(objects: &Objects, index: u16, sub: u8) -> Option<u32>
    ensures { result ≡ number_at objects.now index sub }
{
    match objects.get(index, sub) {
        Some((_, Value::One(value))) => Some(u32::from(value)),
        Some((_, Value::Two(value))) => Some(u32::from(value)),
        Some((_, Value::Four(value))) => Some(value),
        None => None,
    }
}

/// How many subindexes an object says that it has.
fn count_at(objects: &Objects, index: u16) -> u8
    ensures { result ≡ count_at objects.now index }
{
    match objects.get(index, 0) {
        Some((_, Value::One(count))) => count,
        _ => 0,
    }
}

/// The number at the subindex of an object behind that one, 0 where there is none.
fn listed_at(objects: &Objects, index: u16, k: u8) -> u32
    requires { k < 2 ^ 8 - 1 }
    ensures { result ≡ listed_at objects.now index k }
{
    number_at(objects, index, k + 1).unwrap_or(0)
}

/// The PDOs of one direction: those that the objects of a slave list, or else its lines, or else such as are
/// made up for as many bytes as go that way.
pub(crate) fn pdos_of(
    alloc: Global,
    described: &SceneSlave,
    direction: Direction,
) -> Result<Vec<Pdo>, AllocError>
    ensures { IfOk result (λ pdos. map mapped_pdo pdos.items
        ≡ pdos_of direction (slave_record described.now)) }
{
    if described.objects.has_index(direction.assigned) {
        listed(alloc, &described.objects, direction)
    } else if described.pdos.is_empty() {
        made_up(alloc, direction, direction.length(described))
    } else {
        said(alloc, described.pdos.as_slice(), direction)
    }
}

// ---- those that lines say

/// The PDOs of one direction that lines say.
fn said(alloc: Global, pdos: &[ScenePdo], direction: Direction) -> Result<Vec<Pdo>, AllocError>
    ensures { IfOk result (λ all. map mapped_pdo all.items ≡ said direction (map pdo_record pdos.now)) }
{
    let mut all = Vec::new(alloc);
    for pdo in pdos {
        if direction.has(pdo.index) {
            all.push(said_pdo(alloc, pdo)?)?;
        }
    }
    Ok(all)
}

/// A PDO that a line says.
fn said_pdo(alloc: Global, pdo: &ScenePdo) -> Result<Pdo, AllocError>
    ensures { IfOk result (λ made. mapped_pdo made ≡ said_pdo (pdo_record pdo.now)) }
{
    Ok(Pdo {
        index: pdo.index,
        sync_manager: pdo.manager,
        entries: entries_said(alloc, pdo.entries.as_slice())?,
    })
}

/// What a PDO maps that a line says.
fn entries_said(alloc: Global, said: &[ScenePdoEntry]) -> Result<Vec<PdoEntry>, AllocError>
    ensures { IfOk result (λ entries. entries.items ≡ map said_entry said.now) }
{
    let mut entries = Vec::new(alloc);
    for entry in said {
        entries.push(PdoEntry {
            index: entry.index,
            subindex: entry.sub,
            kind: kind_of(entry.bits),
            bits: entry.bits,
        })?;
    }
    Ok(entries)
}

// ---- those that objects list

/// The PDOs that the objects of a slave assign.
fn listed(alloc: Global, objects: &Objects, direction: Direction) -> Result<Vec<Pdo>, AllocError>
    ensures { IfOk result (λ all. map mapped_pdo all.items ≡ listed direction objects.now) }
{
    let mut all = Vec::new(alloc);
    for k in 0..count_at(objects, direction.assigned) {
        let number = listed_at(objects, direction.assigned, k);
        let index = (number % 0x1_0000) as u16;
        all.push(listed_pdo(alloc, objects, direction, index)?)?;
    }
    Ok(all)
}

/// The PDO of one direction that the object with an index is.
fn listed_pdo(
    alloc: Global,
    objects: &Objects,
    direction: Direction,
    index: u16,
) -> Result<Pdo, AllocError>
    ensures { IfOk result (λ pdo. mapped_pdo pdo ≡ listed_pdo direction objects.now index) }
{
    Ok(Pdo {
        index,
        sync_manager: direction.sync_manager,
        entries: entries_at(alloc, objects, index)?,
    })
}

/// What the object of a PDO maps.
fn entries_at(alloc: Global, objects: &Objects, index: u16) -> Result<Vec<PdoEntry>, AllocError>
    ensures { IfOk result (λ entries. entries.items ≡ listed_entries objects.now index) }
{
    let mut entries = Vec::new(alloc);
    for k in 0..count_at(objects, index) {
        entries.push(entry_of(listed_at(objects, index, k)))?;
    }
    Ok(entries)
}

/// The entry that a number of a PDO's object means: index, subindex and bits, from the highest byte on.
fn entry_of(mapped: u32) -> PdoEntry
    ensures { result ≡ entry_of mapped }
{
    let bits = (mapped % 0x100) as u8;
    PdoEntry {
        index: (mapped / 0x1_0000) as u16,
        subindex: (mapped / 0x100 % 0x100) as u8,
        kind: kind_of(bits),
        bits,
    }
}

/// The number that means an entry in a PDO's object.
fn mapped_by(entry: &PdoEntry) -> u32
    ensures { result ≡ mapped_by entry.now }
{
    u32::from(entry.index) * 0x1_0000 + u32::from(entry.subindex) * 0x100 + u32::from(entry.bits)
}

/// The type of a value of so many bits, 0 where none is sure.
fn kind_of(bits: u8) -> u8
    ensures { result ≡ kind_of bits }
{
    match bits {
        1 => BOOLEAN,
        8 => UNSIGNED8,
        16 => UNSIGNED16,
        32 => UNSIGNED32,
        _ => 0,
    }
}

// ---- those that are made up

/// PDOs that map so many bytes.
fn made_up(alloc: Global, direction: Direction, length: u16) -> Result<Vec<Pdo>, AllocError>
    ensures { IfOk result (λ all. map mapped_pdo all.items ≡ made_up direction length) }
{
    let mut all = Vec::new(alloc);
    for k in 0..length.div_ceil(PDO_BYTES) {
        all.push(made_pdo(alloc, direction, length, k)?)?;
    }
    Ok(all)
}

/// The PDO with a number, of those that map so many bytes.
fn made_pdo(alloc: Global, direction: Direction, length: u16, k: u16) -> Result<Pdo, AllocError>
    requires { k < 2 ^ 8 }
    ensures { IfOk result (λ pdo. mapped_pdo pdo ≡ made_pdo direction length k) }
{
    let left = length.saturating_sub(k * PDO_BYTES);
    let values = direction.first_values.wrapping_add(k * 16);
    Ok(Pdo {
        index: direction.first_pdo.wrapping_add(k),
        sync_manager: direction.sync_manager,
        entries: entries_of(alloc, values, left.min(PDO_BYTES))?,
    })
}

/// Entries that map so many bytes, 256 at most: four each, and one each of those that are left.
fn entries_of(alloc: Global, index: u16, bytes: u16) -> Result<Vec<PdoEntry>, AllocError>
    ensures { IfOk result (λ entries. entries.items ≡ made_entries index bytes) }
{
    let wide = bytes / 4;
    let mut entries = Vec::new(alloc);
    for k in 0..wide + bytes % 4 {
        entries.push(made_entry(index, wide, k))?;
    }
    Ok(entries)
}

/// The entry with a number, of which the first ones map four bytes each.
fn made_entry(index: u16, wide: u16, k: u16) -> PdoEntry
    ensures { result ≡ made_entry index wide k }
{
    let bits = if k < wide { 32 } else { 8 };
    PdoEntry {
        index,
        subindex: subindex(usize::from(k) + 1),
        kind: kind_of(bits),
        bits,
    }
}

// ---- the objects of PDOs

/// A number as a subindex; a slave has no object with more than 255 of them.
fn subindex(number: usize) -> u8
    ensures { result ≡ number % 2 ^ 8 }
{
    (number % 0x100) as u8
}

/// How many objects more say which PDOs one direction has, where none does yet.
pub(crate) fn objects_for(objects: &Objects, direction: Direction, pdos: &[Pdo]) -> usize
    ensures { result ≡ min (objects_for objects.now direction (map mapped_pdo pdos.now)) (2 ^ 64 - 1) }
{
    if objects.has_index(direction.assigned) {
        return 0;
    }
    let mut count = 1;
    for pdo in pdos {
        count = pdo.entries.len().saturating_add(count).saturating_add(2);
    }
    count
}

/// Adds the objects that say which PDOs one direction has, where none does yet. The list can be written, as
/// masters do it that set up what is mapped.
pub(crate) fn list(
    objects: &mut Objects,
    direction: Direction,
    pdos: &[Pdo],
) -> Result<(), ObjectFault> {
    if objects.has_index(direction.assigned) {
        return Ok(());
    }
    let count = Value::One(subindex(pdos.len()));
    objects.add(direction.assigned, 0, Rights::Both, count)?;
    for (k, pdo) in pdos.iter().enumerate() {
        let sub = subindex(k.saturating_add(1));
        objects.add(direction.assigned, sub, Rights::Both, Value::Two(pdo.index))?;
        list_entries(objects, pdo)?;
    }
    Ok(())
}

/// Adds the objects that say what a PDO maps.
fn list_entries(objects: &mut Objects, pdo: &Pdo) -> Result<(), ObjectFault> {
    let count = Value::One(subindex(pdo.entries.len()));
    objects.add(pdo.index, 0, Rights::ReadOnly, count)?;
    for (k, entry) in pdo.entries.iter().enumerate() {
        let sub = subindex(k.saturating_add(1));
        let mapped = Value::Four(mapped_by(entry));
        objects.add(pdo.index, sub, Rights::ReadOnly, mapped)?;
    }
    Ok(())
}

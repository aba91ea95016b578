//! Which process data of a slave no FMMU maps (IEC 61158-4-12, FMMU and sync manager).

ghost use Rattle.std.specs.Prelude.{◌≡◌, ◌+◌, ◌-◌, find, count_by};
ghost use Rattle.ecat_lint.specs.Mapping.{guards, moves, maps_byte, is_mapped, is_unmapped, area_bytes};
ghost use Rattle.ecat_lint.specs.Mapping.{mapped_count, count_behind, unmapped, fewer_mapped, fits};
ghost use Rattle.ecat_lint.specs.Mapping.{bytes_there, area_differs};

use crate::oddity::{Oddity, ProcessData};
use ec_app::roles::{fits_inputs, fits_outputs};
use ec_regs::{Fmmu, SyncMan};

/// How many bits a byte has.
const BYTE: u64 = 8;

/// Does the sync manager guard an area of these process data?
fn guards(kind: ProcessData, manager: &SyncMan) -> bool
    ensures { result ≡ guards kind manager.now }
{
    match kind {
        ProcessData::Outputs => manager.guards_outputs(),
        ProcessData::Inputs => manager.guards_inputs(),
    }
}

/// Does the master move them through the FMMU?
fn moves(kind: ProcessData, fmmu: &Fmmu) -> bool
    ensures { result ≡ moves kind fmmu.now }
{
    match kind {
        ProcessData::Outputs => fmmu.writes(),
        ProcessData::Inputs => fmmu.reads(),
    }
}

/// Does the FMMU map a bit of the byte at an address?
fn maps_byte(fmmu: &Fmmu, address: u32) -> bool
    ensures { result ≡ maps_byte fmmu.now address }
{
    let bits = u64::from(fmmu.mapped_bits());
    let first = u64::from(fmmu.first_physical());
    let byte = BYTE * u64::from(address);
    bits != 0 && first < byte + BYTE && byte < first + bits
}

/// Does one of the FMMUs through which they are moved map a bit of the byte at an address?
fn is_mapped(kind: ProcessData, fmmus: &[Fmmu], address: u32) -> bool
    ensures { result ≡ is_mapped kind fmmus.now address }
{
    fmmus
        .iter()
        .any(|fmmu| moves(kind, fmmu) && maps_byte(fmmu, address))
}

/// Does none of them?
fn is_unmapped(kind: ProcessData, fmmus: &[Fmmu], address: u32) -> bool
    ensures { result ≡ is_unmapped kind fmmus.now address }
{
    !is_mapped(kind, fmmus, address)
}

/// The address behind the last byte of an area.
fn end_of(manager: &SyncMan) -> u32
    ensures { result ≡ manager.now.start + manager.now.length }
{
    u32::from(manager.start) + u32::from(manager.length)
}

/// The address of the last byte of an area, which has a byte.
fn last_of(manager: &SyncMan) -> u32
    ensures { result ≡ manager.now.start + manager.now.length - 1 }
{
    end_of(manager).saturating_sub(1)
}

/// The address of the first byte of the area that no FMMU maps.
fn first_unmapped(kind: ProcessData, fmmus: &[Fmmu], manager: &SyncMan) -> Option<u32>
    ensures { result ≡ find (is_unmapped kind fmmus.now) (area_bytes manager.now) }
{
    (u32::from(manager.start)..end_of(manager)).find(|byte| is_unmapped(kind, fmmus, *byte))
}

/// How many bytes of the area stand behind the last one that no FMMU maps.
fn count_behind(kind: ProcessData, fmmus: &[Fmmu], manager: &SyncMan) -> Option<u32>
    ensures { result ≡ count_behind kind fmmus.now manager.now }
{
    let last = last_of(manager);
    (0..u32::from(manager.length)).find(|behind| is_unmapped(
        kind,
        fmmus,
        last.saturating_sub(*behind),
    ))
}

/// How many bytes of the area no FMMU maps.
fn count_unmapped(kind: ProcessData, fmmus: &[Fmmu], manager: &SyncMan) -> usize
    ensures { result ≡ count_by (is_unmapped kind fmmus.now) (area_bytes manager.now) }
{
    (u32::from(manager.start)..end_of(manager))
        .filter(|byte| is_unmapped(kind, fmmus, *byte))
        .count()
}

/// How many bytes of the area FMMUs map.
fn count_mapped(kind: ProcessData, fmmus: &[Fmmu], manager: &SyncMan) -> usize
    ensures { result ≡ count_by (is_mapped kind fmmus.now) (area_bytes manager.now) }
{
    (u32::from(manager.start)..end_of(manager))
        .filter(|byte| is_mapped(kind, fmmus, *byte))
        .count()
}

/// How many bytes FMMUs map of the area, if it is one of these process data; else none.
fn mapped_count(kind: ProcessData, fmmus: &[Fmmu], manager: &SyncMan) -> usize
    ensures { result ≡ mapped_count kind fmmus.now manager.now }
{
    if guards(kind, manager) {
        count_mapped(kind, fmmus, manager)
    } else {
        0
    }
}

/// What is odd about an area of these process data, which the sync manager with this number guards: bytes
/// that no FMMU maps for the way that they go.
pub(crate) fn unmapped(
    number: usize,
    kind: ProcessData,
    fmmus: &[Fmmu],
    manager: &SyncMan,
) -> Option<Oddity>
    ensures { result ≡ unmapped number kind fmmus.now manager.now }
{
    if !guards(kind, manager) {
        return None;
    }
    let first = first_unmapped(kind, fmmus, manager)?;
    let behind = count_behind(kind, fmmus, manager)?;
    Some(Oddity::Unmapped {
        manager: number,
        kind,
        count: count_unmapped(kind, fmmus, manager),
        length: manager.length,
        first,
        last: last_of(manager).saturating_sub(behind),
    })
}

/// What is odd about so many bytes that an application has: fewer of them are mapped, of the area that the
/// sync manager guards.
pub(crate) fn fewer_mapped(
    kind: ProcessData,
    fmmus: &[Fmmu],
    manager: &SyncMan,
    wanted: u16,
) -> Option<Oddity>
    ensures { result ≡ fewer_mapped kind fmmus.now manager.now wanted }
{
    let mapped = mapped_count(kind, fmmus, manager);
    if mapped >= usize::from(wanted) {
        return None;
    }
    Some(Oddity::FewerMapped {
        kind,
        mapped,
        wanted,
    })
}

/// Does the sync manager guard process data of this length, or nothing where the length is 0?
fn fits(kind: ProcessData, manager: &SyncMan, wanted: u16) -> bool
    ensures { result ≡ fits kind manager.now wanted }
{
    match kind {
        ProcessData::Outputs => fits_outputs(manager, wanted),
        ProcessData::Inputs => fits_inputs(manager, wanted),
    }
}

/// How many bytes of them there are; where none are wanted, how many the area has, whatever it is.
fn bytes_there(kind: ProcessData, manager: &SyncMan, wanted: u16) -> u16
    ensures { result ≡ bytes_there kind manager.now wanted }
{
    if wanted == 0 || guards(kind, manager) {
        manager.length
    } else {
        0
    }
}

/// What is odd about so many bytes that an application has: the sync manager with this number, which should
/// guard them, guards no area of them that is so long.
pub(crate) fn area_differs(
    number: usize,
    kind: ProcessData,
    manager: &SyncMan,
    wanted: u16,
) -> Option<Oddity>
    ensures { result ≡ area_differs number kind manager.now wanted }
{
    if fits(kind, manager, wanted) {
        return None;
    }
    Some(Oddity::AreaDiffers {
        manager: number,
        kind,
        wanted,
        there: bytes_there(kind, manager, wanted),
    })
}

//! What the lines of a slave do to it: the last one that was begun.

ghost use Rattle.std.specs.Prelude.{◌≡◌, ◌+◌, length, vec_len, map, Ok, Err, IfOk};
ghost use Rattle.ecat_scene.specs.Deeds.{areas_of, Does, set_up, then_last, to_areas, to_simple, to_state};
ghost use Rattle.ecat_scene.specs.Deeds.{to_alias, to_identity, to_kind, to_name};
ghost use Rattle.ecat_scene.specs.Deeds.{where_begun, with_fmmu, with_last, with_load, with_object};
ghost use Rattle.ecat_scene.specs.Deeds.{with_pdo, with_sii, with_startup, with_sync_man};
ghost use Rattle.ecat_scene.specs.Scene.{pdo_record, setting_record, sii_record, slave_record};
ghost use Rattle.ecat_scene.specs.Words.{alias_of, identity_of, name_of, pdo_of, sii_of};
ghost use Rattle.ecat_scene.specs.Words.{fmmu_setting, load_of, object_of, seen, startup_of, state_of};
ghost use Rattle.ecat_scene.specs.Words.{sync_man_setting};
ghost use Rattle.ecat_scene.specs.declared.fault.LineFault.TheVariants.{NoSlave};
ghost use Rattle.ecat_scene.specs.declared.fault.Stop.TheVariants.{Fault};

use crate::device_lines::{alias_of, identity_of, name_of, pdo_of, sii_of};
use crate::fault::{LineFault, Stop};
use crate::scene::{MAX_STARTUP, ScenePdo, SceneSlave, Setting, SiiBytes, SlaveKind};
use crate::slave_lines::{
    areas_of, fmmu_setting, load_of, object_of, startup_of, state_of, sync_man_setting,
};
use ec_app::ObjectFault;
use std::alloc::Global;

/// The place of the last slave.
fn last_of(slaves: &[SceneSlave]) -> Result<usize, LineFault>
    ensures begun { seen (λ _. tt) result ≡ where_begun (map slave_record slaves.now) }
    ensures place { IfOk result (λ last. last + 1 ≡ length slaves.now) }
{
    if slaves.is_empty() {
        Err(LineFault::NoSlave)
    } else {
        Ok(slaves.len() - 1)
    }
}

/// Gives the last slave the state of a code.
#[tactic(auto, using(crate::proofs::LastLemmas::lasts))]
pub(crate) fn set_state(slaves: &mut Vec<SceneSlave>, code: &[u8]) -> Result<(), Stop>
    ensures misses { vec_len slaves.old ≡ 0 → result ≡ Err (Fault NoSlave) }
    ensures done { Does result (map slave_record slaves.new.items)
        (then_last (state_of code.now) to_state (map slave_record slaves.old.items)) }
{
    let last = last_of(slaves.as_slice())?;
    let state = state_of(code)?;
    slaves[last].state = state;
    Ok(())
}

/// Gives the last slave the lengths of its areas.
#[tactic(auto, using(crate::proofs::LastLemmas::lasts))]
pub(crate) fn set_areas(
    slaves: &mut Vec<SceneSlave>,
    outputs: &[u8],
    inputs: &[u8],
) -> Result<(), Stop>
    ensures misses { vec_len slaves.old ≡ 0 → result ≡ Err (Fault NoSlave) }
    ensures done { Does result (map slave_record slaves.new.items)
        (then_last (areas_of outputs.now inputs.now) to_areas (map slave_record slaves.old.items)) }
{
    let last = last_of(slaves.as_slice())?;
    let (outputs, inputs) = areas_of(outputs, inputs)?;
    let slave = &mut slaves[last];
    slave.output_length = outputs;
    slave.input_length = inputs;
    Ok(())
}

/// Makes the last slave a simple one.
#[tactic(auto, using(crate::proofs::LastLemmas::lasts))]
pub(crate) fn set_simple(slaves: &mut Vec<SceneSlave>) -> Result<(), Stop>
    ensures misses { vec_len slaves.old ≡ 0 → result ≡ Err (Fault NoSlave) }
    ensures done { Does result (map slave_record slaves.new.items)
        (then_last (Ok tt) to_simple (map slave_record slaves.old.items)) }
{
    let last = last_of(slaves.as_slice())?;
    slaves[last].simple = true;
    Ok(())
}

/// Adds a setting to the last slave, which stands at this place.
fn set_up(slaves: &mut Vec<SceneSlave>, last: usize, setting: Setting) -> Result<(), Stop>
    requires { last + 1 ≡ length slaves.old.items }
    ensures { Does result (map slave_record slaves.new.items)
        (with_last (set_up (setting_record setting)) (map slave_record slaves.old.items)) }
{
    slaves[last].settings.push(setting)?;
    Ok(())
}

/// Sets up a sync manager of the last slave.
#[tactic(auto, using(crate::proofs::LastLemmas::lasts))]
pub(crate) fn add_sync_man(
    slaves: &mut Vec<SceneSlave>,
    index: &[u8],
    start: &[u8],
    length: &[u8],
    kind: &[u8],
) -> Result<(), Stop>
    ensures misses { vec_len slaves.old ≡ 0 → result ≡ Err (Fault NoSlave) }
    ensures done { Does result (map slave_record slaves.new.items)
        (then_last (sync_man_setting index.now start.now length.now kind.now) with_sync_man
        (map slave_record slaves.old.items)) }
{
    let last = last_of(slaves.as_slice())?;
    let setting = sync_man_setting(index, start, length, kind)?;
    set_up(slaves, last, Setting::SyncMan(setting))
}

/// Sets up an FMMU of the last slave.
#[tactic(auto, using(crate::proofs::LastLemmas::lasts))]
pub(crate) fn add_fmmu(
    slaves: &mut Vec<SceneSlave>,
    index: &[u8],
    logical: &[u8],
    length: &[u8],
    start: &[u8],
    stop: &[u8],
    physical: &[u8],
    bit: &[u8],
    kind: &[u8],
) -> Result<(), Stop>
    ensures misses { vec_len slaves.old ≡ 0 → result ≡ Err (Fault NoSlave) }
    ensures done { Does result (map slave_record slaves.new.items)
        (then_last (fmmu_setting index.now logical.now length.now start.now stop.now physical.now bit.now
        kind.now) with_fmmu (map slave_record slaves.old.items)) }
{
    let last = last_of(slaves.as_slice())?;
    let setting = fmmu_setting(index, logical, length, start, stop, physical, bit, kind)?;
    set_up(slaves, last, Setting::Fmmu(setting))
}

/// Loads bytes into the process memory of the last slave.
#[tactic(auto, using(crate::proofs::LastLemmas::lasts))]
pub(crate) fn add_load(
    alloc: Global,
    slaves: &mut Vec<SceneSlave>,
    address: &[u8],
    row: &[u8],
) -> Result<(), Stop>
    ensures misses { vec_len slaves.old ≡ 0 → result ≡ Err (Fault NoSlave) }
    ensures done { Does result (map slave_record slaves.new.items)
        (then_last (load_of address.now row.now) with_load (map slave_record slaves.old.items)) }
{
    let last = last_of(slaves.as_slice())?;
    let load = load_of(alloc, address, row)?;
    set_up(slaves, last, Setting::Load(load))
}

/// Adds an object to the last slave.
#[tactic(auto, using(crate::proofs::LastLemmas::lasts))]
pub(crate) fn add_object(
    slaves: &mut Vec<SceneSlave>,
    index: &[u8],
    sub: &[u8],
    size: &[u8],
    rights: &[u8],
    value: &[u8],
) -> Result<(), Stop>
    ensures misses { vec_len slaves.old ≡ 0 → result ≡ Err (Fault NoSlave) }
    ensures done { Does result (map slave_record slaves.new.items)
        (then_last (object_of index.now sub.now size.now rights.now value.now) with_object
        (map slave_record slaves.old.items)) }
{
    let last = last_of(slaves.as_slice())?;
    let (index, sub, rights, value) = object_of(index, sub, size, rights, value)?;
    match slaves[last].objects.add(index, sub, rights, value) {
        Ok(()) => Ok(()),
        Err(ObjectFault::Full) => Err(Stop::Fault(LineFault::TooMany)),
        Err(ObjectFault::Twin) => Err(Stop::Fault(LineFault::Twin)),
    }
}

/// Adds a startup object to the last slave.
#[tactic(auto, using(crate::proofs::LastLemmas::lasts))]
pub(crate) fn add_startup(
    alloc: Global,
    slaves: &mut Vec<SceneSlave>,
    index: &[u8],
    sub: &[u8],
    row: &[u8],
) -> Result<(), Stop>
    ensures misses { vec_len slaves.old ≡ 0 → result ≡ Err (Fault NoSlave) }
    ensures done { Does result (map slave_record slaves.new.items)
        (then_last (startup_of index.now sub.now row.now) with_startup (map slave_record slaves.old.items)) }
{
    let last = last_of(slaves.as_slice())?;
    let object = startup_of(alloc, index, sub, row)?;
    if slaves[last].startup.len() >= MAX_STARTUP {
        return Err(Stop::Fault(LineFault::TooMany));
    }
    slaves[last].startup.push(object)?;
    Ok(())
}

/// Has the last slave be of a kind.
#[tactic(auto, using(crate::proofs::LastLemmas::lasts))]
pub(crate) fn set_kind(slaves: &mut Vec<SceneSlave>, kind: SlaveKind) -> Result<(), Stop>
    ensures misses { vec_len slaves.old ≡ 0 → result ≡ Err (Fault NoSlave) }
    ensures done { Does result (map slave_record slaves.new.items)
        (then_last (Ok tt) (to_kind kind) (map slave_record slaves.old.items)) }
{
    let last = last_of(slaves.as_slice())?;
    slaves[last].kind = kind;
    Ok(())
}

/// Gives the last slave an identity.
#[tactic(auto, using(crate::proofs::LastLemmas::lasts))]
pub(crate) fn set_identity(
    slaves: &mut Vec<SceneSlave>,
    vendor: &[u8],
    product: &[u8],
    revision: &[u8],
    serial: &[u8],
) -> Result<(), Stop>
    ensures misses { vec_len slaves.old ≡ 0 → result ≡ Err (Fault NoSlave) }
    ensures done { Does result (map slave_record slaves.new.items)
        (then_last (identity_of vendor.now product.now revision.now serial.now) to_identity
        (map slave_record slaves.old.items)) }
{
    let last = last_of(slaves.as_slice())?;
    let identity = identity_of(vendor, product, revision, serial)?;
    slaves[last].identity = Some(identity);
    Ok(())
}

/// Gives the last slave an alias.
#[tactic(auto, using(crate::proofs::LastLemmas::lasts))]
pub(crate) fn set_alias(slaves: &mut Vec<SceneSlave>, alias: &[u8]) -> Result<(), Stop>
    ensures misses { vec_len slaves.old ≡ 0 → result ≡ Err (Fault NoSlave) }
    ensures done { Does result (map slave_record slaves.new.items)
        (then_last (alias_of alias.now) to_alias (map slave_record slaves.old.items)) }
{
    let last = last_of(slaves.as_slice())?;
    let alias = alias_of(alias)?;
    slaves[last].alias = alias;
    Ok(())
}

/// Gives the last slave a name.
#[tactic(auto, using(crate::proofs::LastLemmas::lasts))]
pub(crate) fn set_name(
    alloc: Global,
    slaves: &mut Vec<SceneSlave>,
    first: &[u8],
    more: &[&[u8]],
) -> Result<(), Stop>
    ensures misses { vec_len slaves.old ≡ 0 → result ≡ Err (Fault NoSlave) }
    ensures done { Does result (map slave_record slaves.new.items)
        (then_last (name_of first.now (map (λ word. word.now) more.now)) to_name
        (map slave_record slaves.old.items)) }
{
    let last = last_of(slaves.as_slice())?;
    let name = name_of(alloc, first, more)?;
    slaves[last].name = name;
    Ok(())
}

/// Puts bytes into the EEPROM of the last slave.
#[tactic(auto, using(crate::proofs::LastLemmas::lasts))]
pub(crate) fn add_sii(
    alloc: Global,
    slaves: &mut Vec<SceneSlave>,
    address: &[u8],
    row: &[u8],
) -> Result<(), Stop>
    ensures misses { vec_len slaves.old ≡ 0 → result ≡ Err (Fault NoSlave) }
    ensures done { Does result (map slave_record slaves.new.items)
        (then_last (sii_of address.now row.now) with_sii (map slave_record slaves.old.items)) }
{
    let last = last_of(slaves.as_slice())?;
    let piece = sii_of(alloc, address, row)?;
    push_sii(slaves, last, piece)
}

/// Puts bytes into the EEPROM of the last slave, which stands at this place.
fn push_sii(slaves: &mut Vec<SceneSlave>, last: usize, piece: SiiBytes) -> Result<(), Stop>
    requires { last + 1 ≡ length slaves.old.items }
    ensures { Does result (map slave_record slaves.new.items)
        (with_last (with_sii (sii_record piece)) (map slave_record slaves.old.items)) }
{
    slaves[last].sii.push(piece)?;
    Ok(())
}

/// Adds a PDO to the last slave.
#[tactic(auto, using(crate::proofs::LastLemmas::lasts))]
pub(crate) fn add_pdo(
    alloc: Global,
    slaves: &mut Vec<SceneSlave>,
    index: &[u8],
    manager: &[u8],
    entries: &[&[u8]],
) -> Result<(), Stop>
    ensures misses { vec_len slaves.old ≡ 0 → result ≡ Err (Fault NoSlave) }
    ensures done { Does result (map slave_record slaves.new.items)
        (then_last (pdo_of index.now manager.now (map (λ word. word.now) entries.now)) with_pdo
        (map slave_record slaves.old.items)) }
{
    let last = last_of(slaves.as_slice())?;
    let pdo = pdo_of(alloc, index, manager, entries)?;
    push_pdo(slaves, last, pdo)
}

/// Adds a PDO to the last slave, which stands at this place.
fn push_pdo(slaves: &mut Vec<SceneSlave>, last: usize, pdo: ScenePdo) -> Result<(), Stop>
    requires { last + 1 ≡ length slaves.old.items }
    ensures { Does result (map slave_record slaves.new.items)
        (with_last (with_pdo (pdo_record pdo)) (map slave_record slaves.old.items)) }
{
    slaves[last].pdos.push(pdo)?;
    Ok(())
}

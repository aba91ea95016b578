//! The lines that describe a slave.

ghost use Rattle.std.specs.Prelude.{◌≡◌, ◌<◌, ◌^◌, vec_len, map, Ok, Err, IfOk, IsOk};
ghost use Rattle.ecat_scene.specs.Deeds.{areas_line, areas_of, Does, fmmu_line, load_line, object_line};
ghost use Rattle.ecat_scene.specs.Deeds.{simple_line, slave_line, startup_line, state_line, sync_man_line};
ghost use Rattle.ecat_scene.specs.Fields.{active_fmmu, enabled_sync_man, fitting, wire_value};
ghost use Rattle.ecat_scene.specs.Order.{MissesSlave};
ghost use Rattle.ecat_scene.specs.Scene.{scene_record};
ghost use Rattle.ecat_scene.specs.Words.{area_of, control_bits, fmmu_of, fmmu_setting, Gives, load_of};
ghost use Rattle.ecat_scene.specs.Words.{object_of, rights_of, seen, startup_of, state_of, sync_man_of};
ghost use Rattle.ecat_scene.specs.Words.{sync_man_setting, through_of, type_bits, value_of};

use crate::fault::{LineFault, Stop};
use crate::last_slave::{
    add_fmmu, add_load, add_object, add_startup, add_sync_man, set_areas, set_simple, set_state,
};
use crate::numbers::{byte, bytes, double_word, number, test_bytes, word};
use crate::reader::Reader;
use crate::scene::{
    FmmuSetting, Load, MAX_SLAVES, SceneSlave, SlaveKind, StartupObject, SyncManSetting,
};
use crate::words::text_of;
use bitflags::Flags;
use ec_app::{Objects, Rights, Value};
use ec_applications::Behaviour;
use ec_regs::registers::{FMMU_COUNT, MEMORY_SIZE, PROCESS_MEMORY, SYNC_MANAGER_COUNT};
use ec_regs::{AlState, Fmmu, FmmuType, SyncMan, SyncManControl};
use std::alloc::Global;

/// The first address behind the memory.
const MEMORY_END: usize = MEMORY_SIZE as usize;

impl Reader {
    ghost use Rattle.ecat_scene.specs.declared.fault.LineFault.TheVariants.{NoSlave};

    /// `slave STATION`
    #[tactic(auto, unfolding(crate::specs::Deeds::slave_line))]
    pub(crate) fn slave(&mut self, words: &[&[u8]]) -> Result<(), Stop>
        ensures links { self.new.links.items ≡ self.old.links.items }
        ensures done { Does result (scene_record self.new.scene)
            (slave_line (map (λ word. word.now) words.now) (scene_record self.old.scene)) }
    {
        let [station] = words else {
            return Err(Stop::Fault(LineFault::WrongCount));
        };
        let station = word(number(station)?)?;
        if self.scene.slaves.len() >= MAX_SLAVES {
            return Err(Stop::Fault(LineFault::TooMany));
        }
        let slave = SceneSlave {
            station,
            state: AlState::Init,
            simple: false,
            output_length: 0,
            input_length: 0,
            settings: Vec::new(self.alloc),
            objects: Objects::new(),
            behaviours: Vec::new(self.alloc),
            startup: Vec::new(self.alloc),
            kind: SlaveKind::Unsaid,
            identity: None,
            alias: 0,
            name: Vec::new(self.alloc),
            pdos: Vec::new(self.alloc),
            sii: Vec::new(self.alloc),
        };
        self.scene.slaves.push(slave)?;
        Ok(())
    }

    /// Tests that a slave was begun.
    fn test_slave(&self) -> Result<(), LineFault>
        ensures { vec_len self.now.scene.slaves ≡ 0 → result ≡ Err NoSlave }
    {
        if self.scene.slaves.is_empty() {
            return Err(LineFault::NoSlave);
        }
        Ok(())
    }

    /// The last slave begun.
    fn last_slave(&mut self) -> Result<&mut SceneSlave, LineFault> {
        match self.scene.slaves.last_mut() {
            None => Err(LineFault::NoSlave),
            Some(slave) => Ok(slave),
        }
    }

    /// `state S`
    #[tactic(auto, unfolding(crate::specs::Deeds::state_line))]
    pub(crate) fn state(&mut self, words: &[&[u8]]) -> Result<(), Stop>
        ensures misses { MissesSlave 1 words.now self.old.scene result }
        ensures links { self.new.links.items ≡ self.old.links.items }
        ensures done { Does result (scene_record self.new.scene)
            (state_line (map (λ word. word.now) words.now) (scene_record self.old.scene)) }
    {
        let [code] = words else {
            return Err(Stop::Fault(LineFault::WrongCount));
        };
        set_state(&mut self.scene.slaves, code)
    }

    /// `areas OUT IN`
    #[tactic(auto, unfolding(crate::specs::Deeds::areas_line))]
    pub(crate) fn areas(&mut self, words: &[&[u8]]) -> Result<(), Stop>
        ensures misses { MissesSlave 2 words.now self.old.scene result }
        ensures links { self.new.links.items ≡ self.old.links.items }
        ensures done { Does result (scene_record self.new.scene)
            (areas_line (map (λ word. word.now) words.now) (scene_record self.old.scene)) }
    {
        let [outputs, inputs] = words else {
            return Err(Stop::Fault(LineFault::WrongCount));
        };
        set_areas(&mut self.scene.slaves, outputs, inputs)
    }

    /// `simple`
    #[tactic(auto, unfolding(crate::specs::Deeds::simple_line))]
    pub(crate) fn simple(&mut self, words: &[&[u8]]) -> Result<(), Stop>
        ensures misses { MissesSlave 0 words.now self.old.scene result }
        ensures links { self.new.links.items ≡ self.old.links.items }
        ensures done { Does result (scene_record self.new.scene)
            (simple_line (map (λ word. word.now) words.now) (scene_record self.old.scene)) }
    {
        let [] = words else {
            return Err(Stop::Fault(LineFault::WrongCount));
        };
        set_simple(&mut self.scene.slaves)
    }

    /// `mirror IN OUT`
    pub(crate) fn mirror(&mut self, words: &[&[u8]]) -> Result<(), Stop>
        ensures { MissesSlave 2 words.now self.old.scene result }
    {
        let [inputs, outputs] = words else {
            return Err(Stop::Fault(LineFault::WrongCount));
        };
        self.test_slave()?;
        let inputs = number(inputs)?;
        let outputs = number(outputs)?;
        let inputs = index_of(inputs, SYNC_MANAGER_COUNT)?;
        let outputs = index_of(outputs, SYNC_MANAGER_COUNT)?;
        self.behave(Behaviour::Mirror { inputs, outputs })
    }

    /// `count IN`
    pub(crate) fn count(&mut self, words: &[&[u8]]) -> Result<(), Stop>
        ensures { MissesSlave 1 words.now self.old.scene result }
    {
        let [inputs] = words else {
            return Err(Stop::Fault(LineFault::WrongCount));
        };
        self.test_slave()?;
        let inputs = number(inputs)?;
        let inputs = index_of(inputs, SYNC_MANAGER_COUNT)?;
        self.behave(Behaviour::Count { inputs })
    }

    /// Has the application of the last slave do this, unless it puts those inputs already.
    fn behave(&mut self, behaviour: Behaviour) -> Result<(), Stop> {
        let slave = self.last_slave()?;
        let inputs = behaviour.inputs();
        if slave.behaviours.iter().any(|one| one.inputs() == inputs) {
            return Err(Stop::Fault(LineFault::Twin));
        }
        slave.behaviours.push(behaviour)?;
        Ok(())
    }

    /// `sm N START LENGTH KIND`
    #[tactic(auto, unfolding(crate::specs::Deeds::sync_man_line))]
    pub(crate) fn sync_manager(&mut self, words: &[&[u8]]) -> Result<(), Stop>
        ensures misses { MissesSlave 4 words.now self.old.scene result }
        ensures links { self.new.links.items ≡ self.old.links.items }
        ensures done { Does result (scene_record self.new.scene)
            (sync_man_line (map (λ word. word.now) words.now) (scene_record self.old.scene)) }
    {
        let [index, start, length, kind] = words else {
            return Err(Stop::Fault(LineFault::WrongCount));
        };
        add_sync_man(&mut self.scene.slaves, index, start, length, kind)
    }

    /// `fmmu N LOGICAL LENGTH START STOP PHYSICAL BIT TYPE`
    #[tactic(auto, unfolding(crate::specs::Deeds::fmmu_line))]
    pub(crate) fn fmmu(&mut self, words: &[&[u8]]) -> Result<(), Stop>
        ensures misses { MissesSlave 8 words.now self.old.scene result }
        ensures links { self.new.links.items ≡ self.old.links.items }
        ensures done { Does result (scene_record self.new.scene)
            (fmmu_line (map (λ word. word.now) words.now) (scene_record self.old.scene)) }
    {
        let [index, logical, length, start, stop, physical, bit, kind] = words else {
            return Err(Stop::Fault(LineFault::WrongCount));
        };
        let slaves = &mut self.scene.slaves;
        add_fmmu(
            slaves, index, logical, length, start, stop, physical, bit, kind,
        )
    }

    /// `mem ADDRESS BYTES`
    #[tactic(auto, unfolding(crate::specs::Deeds::load_line))]
    pub(crate) fn load(&mut self, words: &[&[u8]]) -> Result<(), Stop>
        ensures misses { MissesSlave 2 words.now self.old.scene result }
        ensures links { self.new.links.items ≡ self.old.links.items }
        ensures done { Does result (scene_record self.new.scene)
            (load_line (map (λ word. word.now) words.now) (scene_record self.old.scene)) }
    {
        let [address, row] = words else {
            return Err(Stop::Fault(LineFault::WrongCount));
        };
        add_load(self.alloc, &mut self.scene.slaves, address, row)
    }

    /// `object INDEX SUB SIZE RIGHTS VALUE`
    #[tactic(auto, unfolding(crate::specs::Deeds::object_line))]
    pub(crate) fn object(&mut self, words: &[&[u8]]) -> Result<(), Stop>
        ensures misses { MissesSlave 5 words.now self.old.scene result }
        ensures links { self.new.links.items ≡ self.old.links.items }
        ensures done { Does result (scene_record self.new.scene)
            (object_line (map (λ word. word.now) words.now) (scene_record self.old.scene)) }
    {
        let [index, sub, size, rights, value] = words else {
            return Err(Stop::Fault(LineFault::WrongCount));
        };
        add_object(&mut self.scene.slaves, index, sub, size, rights, value)
    }

    /// `startup INDEX SUB BYTES`
    #[tactic(auto, unfolding(crate::specs::Deeds::startup_line))]
    pub(crate) fn startup(&mut self, words: &[&[u8]]) -> Result<(), Stop>
        ensures misses { MissesSlave 3 words.now self.old.scene result }
        ensures links { self.new.links.items ≡ self.old.links.items }
        ensures done { Does result (scene_record self.new.scene)
            (startup_line (map (λ word. word.now) words.now) (scene_record self.old.scene)) }
    {
        let [index, sub, row] = words else {
            return Err(Stop::Fault(LineFault::WrongCount));
        };
        add_startup(self.alloc, &mut self.scene.slaves, index, sub, row)
    }
}

/// The lengths of the areas of these words, outputs first.
#[tactic(auto, unfolding(crate::specs::Deeds::areas_of))]
pub(crate) fn areas_of(outputs: &[u8], inputs: &[u8]) -> Result<(u16, u16), LineFault>
    ensures { result ≡ areas_of outputs.now inputs.now }
{
    let outputs = number(outputs)?;
    let inputs = number(inputs)?;
    Ok((word(outputs)?, word(inputs)?))
}

/// The setting of a sync manager of these words.
#[tactic(auto, unfolding(crate::specs::Words::sync_man_setting))]
pub(crate) fn sync_man_setting(
    index: &[u8],
    start: &[u8],
    length: &[u8],
    kind: &[u8],
) -> Result<SyncManSetting, LineFault>
    ensures { seen (λ setting. (setting.index, setting.record)) result
        ≡ sync_man_setting index.now start.now length.now kind.now }
{
    let index = number(index)?;
    let start = number(start)?;
    let length = number(length)?;
    let control = control_of(kind)?;
    let index = index_of(index, SYNC_MANAGER_COUNT)?;
    let record = sync_man_of(start, length, control.bits())?;
    Ok(SyncManSetting { index, record })
}

/// The setting of an FMMU of these words.
#[tactic(auto, unfolding(crate::specs::Words::fmmu_setting))]
pub(crate) fn fmmu_setting(
    index: &[u8],
    logical: &[u8],
    length: &[u8],
    start: &[u8],
    stop: &[u8],
    physical: &[u8],
    bit: &[u8],
    kind: &[u8],
) -> Result<FmmuSetting, LineFault>
    ensures { seen (λ setting. (setting.index, setting.record)) result
        ≡ fmmu_setting index.now logical.now length.now start.now stop.now physical.now bit.now kind.now }
{
    let index = number(index)?;
    let logical = number(logical)?;
    let length = number(length)?;
    let start = number(start)?;
    let stop = number(stop)?;
    let physical = number(physical)?;
    let bit = number(bit)?;
    let kind = type_of(kind)?;
    let index = index_of(index, FMMU_COUNT)?;
    let record = fmmu_of(logical, length, start, stop, physical, bit, kind.bits())?;
    Ok(FmmuSetting { index, record })
}

/// The index, the subindex, the rights and the value of an object of these words.
#[tactic(auto, unfolding(crate::specs::Words::object_of))]
pub fn object_of(
    index: &[u8],
    sub: &[u8],
    size: &[u8],
    rights: &[u8],
    value: &[u8],
) -> Result<(u16, u8, Rights, Value), LineFault>
    ensures { result ≡ object_of index.now sub.now size.now rights.now value.now }
{
    let index = number(index)?;
    let sub = number(sub)?;
    let size = number(size)?;
    let rights = rights_of(rights)?;
    let value = number(value)?;
    Ok((word(index)?, byte(sub)?, rights, value_of(size, value)?))
}

/// The object that a master writes when it starts a slave, with the bytes of a row as they lie on the wire.
#[tactic(auto, using(crate::proofs::RowLemmas::rows), unfolding(crate::specs::Words::startup_of))]
pub fn startup_of(
    alloc: Global,
    index: &[u8],
    sub: &[u8],
    row: &[u8],
) -> Result<StartupObject, Stop>
    ensures { Gives (λ object. object) result (startup_of index.now sub.now row.now) }
{
    let index = number(index)?;
    let sub = number(sub)?;
    test_bytes(row)?;
    let index = word(index)?;
    let sub = byte(sub)?;
    let row = bytes(alloc, row)?;
    let value = wire_value(row.as_slice())?;
    Ok(StartupObject { index, sub, value })
}

/// The value of one, two or four bytes, the lowest first.
fn wire_value(row: &[u8]) -> Result<Value, LineFault>
    ensures { result ≡ wire_value row.now }
{
    match row {
        [one] => Ok(Value::One(*one)),
        [low, high] => Ok(Value::Two(u16::from_le_bytes([*low, *high]))),
        [a, b, c, d] => Ok(Value::Four(u32::from_le_bytes([*a, *b, *c, *d]))),
        _ => Err(LineFault::OutOfRange),
    }
}

/// The state of a code: 1, 2, 4 or 8.
#[tactic(auto, unfolding(crate::specs::Words::state_of))]
pub(crate) fn state_of(code: &[u8]) -> Result<AlState, LineFault>
    ensures { result ≡ state_of code.now }
{
    let code = byte(number(code)?)?;
    match AlState::from_code(code) {
        Some(state) => Ok(state),
        None => Err(LineFault::OutOfRange),
    }
}

/// The bytes of a row for process memory from an address on.
#[tactic(auto, using(crate::proofs::RowLemmas::rows), unfolding(crate::specs::Words::load_of))]
pub(crate) fn load_of(alloc: Global, address: &[u8], row: &[u8]) -> Result<Load, Stop>
    ensures { Gives (λ load. (load.address, load.bytes.items)) result (load_of address.now row.now) }
{
    let address = number(address)?;
    test_bytes(row)?;
    let address = word(address)?;
    let bytes = bytes(alloc, row)?;
    if address < PROCESS_MEMORY || usize::from(address) + bytes.len() > MEMORY_END {
        return Err(Stop::Fault(LineFault::OutOfRange));
    }
    Ok(Load { address, bytes })
}

/// The record of an enabled sync manager of these numbers.
#[tactic(auto, unfolding(crate::specs::Words::sync_man_of))]
pub fn sync_man_of(start: u64, length: u64, control: u8) -> Result<SyncMan, LineFault>
    ensures read { result ≡ sync_man_of start length control }
    ensures numbers { IfOk result (λ made. made ≡ enabled_sync_man start length control) }
    ensures fits { start < 2 ^ 16 → length < 2 ^ 16 → IsOk result }
{
    Ok(SyncMan {
        start: word(start)?,
        length: word(length)?,
        control,
        status: 0,
        activate: 1,
        pdi: 0,
    })
}

/// The record of an active FMMU of these numbers.
#[tactic(auto, unfolding(crate::specs::Words::fmmu_of))]
fn fmmu_of(
    logical: u64,
    length: u64,
    start: u64,
    stop: u64,
    physical: u64,
    bit: u64,
    kind: u8,
) -> Result<Fmmu, LineFault>
    ensures read { result ≡ fmmu_of logical length start stop physical bit kind }
    ensures numbers { IfOk result (λ made.
        made ≡ active_fmmu logical length start stop physical bit kind) }
    ensures fits { logical < 2 ^ 32 → length < 2 ^ 16 → start < 2 ^ 8 → stop < 2 ^ 8 → physical < 2 ^ 16
        → bit < 2 ^ 8 → IsOk result }
{
    Ok(Fmmu {
        logical: double_word(logical)?,
        length: word(length)?,
        start: byte(start)?,
        stop: byte(stop)?,
        physical: word(physical)?,
        bit: byte(bit)?,
        kind,
        activate: 1,
        reserved: [0; 3],
    })
}

/// What a sync manager of a kind may do.
pub fn control_of(kind: &[u8]) -> Result<SyncManControl, LineFault>
    ensures { seen (λ control. control.0) result ≡ seen control_bits (area_of kind.now) }
{
    match text_of(kind) {
        "mailbox-write" => Ok(SyncManControl::MAILBOX.union(SyncManControl::WRITE)),
        "mailbox-read" => Ok(SyncManControl::MAILBOX),
        "write" => Ok(SyncManControl::WRITE),
        "read" => Ok(SyncManControl::empty()),
        _ => Err(LineFault::BadNumber),
    }
}

/// What the master does through an FMMU.
fn type_of(kind: &[u8]) -> Result<FmmuType, LineFault>
    ensures { seen (λ kind. kind.0) result ≡ seen type_bits (through_of kind.now) }
{
    match text_of(kind) {
        "read" => Ok(FmmuType::READ),
        "write" => Ok(FmmuType::WRITE),
        "both" => Ok(FmmuType::READ.union(FmmuType::WRITE)),
        _ => Err(LineFault::BadNumber),
    }
}

/// The number of one of so many records.
fn index_of(number: u64, count: usize) -> Result<usize, LineFault>
    ensures { result ≡ fitting count number }
{
    if number < count as u64 {
        Ok(number as usize)
    } else {
        Err(LineFault::OutOfRange)
    }
}

/// What the master may do with an object.
fn rights_of(rights: &[u8]) -> Result<Rights, LineFault>
    ensures { result ≡ rights_of rights.now }
{
    match text_of(rights) {
        "ro" => Ok(Rights::ReadOnly),
        "wo" => Ok(Rights::WriteOnly),
        "rw" => Ok(Rights::Both),
        _ => Err(LineFault::BadNumber),
    }
}

/// A value of a size in bytes.
fn value_of(size: u64, value: u64) -> Result<Value, LineFault>
    ensures { result ≡ value_of size value }
{
    match size {
        1 => Ok(Value::One(byte(value)?)),
        2 => Ok(Value::Two(word(value)?)),
        4 => Ok(Value::Four(double_word(value)?)),
        _ => Err(LineFault::OutOfRange),
    }
}

//! The lines of a slave, as far as they are told.

use crate::byte::Byte;
use crate::groups::Group;
use crate::learner::Learner;
use crate::page::Page;
use crate::registers::{FMMU_PLACE, STATUS_PLACE, SYNC_MANAGER_PLACE};
use crate::slave::Slave;
use ec_app::{Rights, Value};
use ec_regs::{AlState, LONGEST_MAILBOX};
use ec_wire::Command;
use ecat_scene::{AreaKind, MAX_STARTUP, SceneLine, Through, put_line, put_row, put_startup};
use std::alloc::AllocError;

/// Where a slave is, and what is told of its start-up.
#[derive(Clone, Copy)]
pub(crate) struct Place {
    /// Its place on the line.
    pub number: usize,
    /// Did the capture show a start-up?
    pub started: bool,
    /// Which start-up is that of the line.
    pub epoch: u64,
}

/// How many records there are of a kind.
const RECORDS: usize = 8;

/// The first address of a scene's areas.
const AREAS: u16 = 0x1000;

/// How much higher an area below them is put.
const MOVED: u16 = 0x2000;

/// The most objects of a scene's slave.
const MAX_OBJECTS: usize = 32;

/// A sync manager that is told to be enabled.
#[derive(Clone, Copy)]
struct Manager {
    number: usize,
    start: u16,
    length: u16,
    kind: AreaKind,
    /// Is each of its bytes sure?
    sure: bool,
    /// Has its control byte more than kind and direction?
    more: bool,
}

/// What is told of a record.
#[derive(Clone, Copy)]
enum Record<T> {
    /// It is off.
    Off,
    /// It is on.
    On(T),
    /// Not all of it is told.
    Hole,
}

/// An FMMU that is told to be active.
#[derive(Clone, Copy)]
struct Mapping {
    number: usize,
    logical: u32,
    length: u16,
    first: u8,
    last: u8,
    physical: u16,
    bit: u8,
    through: Through,
    sure: bool,
}

/// The kind of an area by its control byte: bits 0 and 1 are 2 for a mailbox, bit 2 is set where the master
/// writes it.
fn kind_of(control: u8) -> AreaKind {
    match (control & 3 == 2, control & 4 == 4) {
        (true, true) => AreaKind::MailboxWrite,
        (true, false) => AreaKind::MailboxRead,
        (false, true) => AreaKind::Write,
        (false, false) => AreaKind::Read,
    }
}

/// Is each of so many bytes from a place on sure?
fn is_sure(slave: &Slave, place: usize, count: usize) -> bool {
    for offset in 0..count {
        if let Some(Byte::Guessed(_)) = slave.bytes.get(place.saturating_add(offset)) {
            return false;
        }
    }
    true
}

/// Is it told whether a record is on, by its activate byte at a place? Where the capture shows a start-up,
/// one that was never written is off.
fn switch_of(slave: &Slave, place: usize, started: bool) -> Record<()> {
    match slave.bytes.get(place) {
        Some(Byte::Told(value)) | Some(Byte::Guessed(value)) => {
            if value & 1 == 1 {
                Record::On(())
            } else {
                Record::Off
            }
        }
        Some(Byte::Untold) => { if started { Record::Off } else { Record::Hole } }
        Some(Byte::Lost) | None => Record::Hole,
    }
}

/// What is told of a sync manager.
fn manager_of(slave: &Slave, number: usize, started: bool) -> Record<Manager> {
    let place = SYNC_MANAGER_PLACE + RECORDS * (number % RECORDS);
    match switch_of(slave, place + 6, started) {
        Record::Off => Record::Off,
        Record::Hole => Record::Hole,
        Record::On(()) => match told_manager(slave, number, place) {
            Some(manager) => Record::On(manager),
            None => Record::Hole,
        },
    }
}

/// The sync manager of the record at a place, where it is told.
fn told_manager(slave: &Slave, number: usize, place: usize) -> Option<Manager> {
    let start = slave.word(place)?;
    let length = slave.word(place.saturating_add(2))?;
    let control = slave.value(place.saturating_add(4))?;
    Some(Manager {
        number,
        start,
        length,
        kind: kind_of(control),
        sure: is_sure(slave, place, 5) && is_sure(slave, place.saturating_add(6), 1),
        more: control & 0x0f != control,
    })
}

/// What is told of an FMMU.
fn mapping_of(slave: &Slave, number: usize, started: bool) -> Record<Mapping> {
    let place = FMMU_PLACE + 2 * RECORDS * (number % RECORDS);
    match switch_of(slave, place + 12, started) {
        Record::Off => Record::Off,
        Record::Hole => Record::Hole,
        Record::On(()) => match told_mapping(slave, number, place) {
            Some(mapping) => Record::On(mapping),
            None => Record::Hole,
        },
    }
}

/// The FMMU of the record at a place, where it is told.
fn told_mapping(slave: &Slave, number: usize, place: usize) -> Option<Mapping> {
    let low = slave.word(place)?;
    let high = slave.word(place.saturating_add(2))?;
    let kind = slave.value(place.saturating_add(11))?;
    let through = match kind & 3 {
        1 => Through::Reads,
        2 => Through::Writes,
        3 => Through::ReadsAndWrites,
        _ => return None,
    };
    Some(Mapping {
        number,
        logical: u32::from(low) + 65_536 * u32::from(high),
        length: slave.word(place.saturating_add(4))?,
        first: slave.value(place.saturating_add(6))?,
        last: slave.value(place.saturating_add(7))?,
        physical: slave.word(place.saturating_add(8))?,
        bit: slave.value(place.saturating_add(10))?,
        through,
        sure: is_sure(slave, place, 13),
    })
}

/// Puts the lines of a slave.
pub(crate) fn put_slave(
    page: &mut Page,
    learner: &Learner,
    place: &Place,
    slave: &Slave,
) -> Result<(), AllocError> {
    put_registers(page, place, slave)?;
    put_inputs(page, learner, place, slave)?;
    put_objects(page, learner, place)?;
    put_written(page, learner, place)
}

/// Puts the lines of a slave that its registers tell.
pub(crate) fn put_registers(
    page: &mut Page,
    place: &Place,
    slave: &Slave,
) -> Result<(), AllocError> {
    match slave.station() {
        Some(station) => put_line(&mut page.text, SceneLine::Slave(station))?,
        None => page.hole("slave ?")?,
    }
    put_state(page, place, slave)?;
    put_areas(page, place, slave)?;
    put_managers(page, place, slave)?;
    put_mappings(page, place, slave)
}

/// Puts the AL state.
fn put_state(page: &mut Page, place: &Place, slave: &Slave) -> Result<(), AllocError> {
    let Some(status) = slave.value(STATUS_PLACE) else {
        return page.comment("not told: its state");
    };
    if status & 0x10 != 0 {
        let code = slave.word(STATUS_PLACE + 4).unwrap_or(0);
        page.comment(format_args!("left out: AL error, with code 0x{code:04x}"))?;
    }
    let Some(state) = AlState::from_code(status & 0x0f) else {
        return page.comment(format_args!("left out: AL status 0x{status:02x}"));
    };
    put_line(&mut page.text, SceneLine::State(state))?;
    if state != AlState::Init && !has_mailbox(slave, place.started) {
        put_line(&mut page.text, SceneLine::Simple)?;
    }
    Ok(())
}

/// May a slave have mailboxes?
fn has_mailbox(slave: &Slave, started: bool) -> bool {
    for number in 0..RECORDS {
        match manager_of(slave, number, started) {
            Record::Off => {}
            Record::Hole => return true,
            Record::On(manager) => match manager.kind {
                AreaKind::MailboxWrite | AreaKind::MailboxRead => return true,
                AreaKind::Write | AreaKind::Read => {}
            },
        }
    }
    false
}

/// The length of a buffered area of a kind, by the number of its sync manager; 0 where it is none.
fn length_of(slave: &Slave, number: usize, kind: AreaKind, started: bool) -> u16 {
    match manager_of(slave, number, started) {
        Record::On(manager) => {
            if manager.kind == kind {
                manager.length
            } else {
                0
            }
        }
        Record::Off | Record::Hole => 0,
    }
}

/// Puts how many bytes of outputs and inputs the application has: those of sync managers 2 and 3.
fn put_areas(page: &mut Page, place: &Place, slave: &Slave) -> Result<(), AllocError> {
    let outputs = length_of(slave, 2, AreaKind::Write, place.started);
    let inputs = length_of(slave, 3, AreaKind::Read, place.started);
    if outputs == 0 && inputs == 0 {
        return Ok(());
    }
    put_line(&mut page.text, SceneLine::Areas(outputs, inputs))
}

/// Puts the sync managers.
fn put_managers(page: &mut Page, place: &Place, slave: &Slave) -> Result<(), AllocError> {
    for number in 0..RECORDS {
        match manager_of(slave, number, place.started) {
            Record::Off => {}
            Record::On(manager) => put_manager(page, &manager)?,
            Record::Hole => {
                if are_holes(slave, SYNC_MANAGER_PLACE, RECORDS, number) {
                    return page.hole("sm ?");
                }
                page.hole(format_args!("sm {number} ?"))?;
            }
        }
    }
    Ok(())
}

/// Is no byte told of the records from a number on, which have so many bytes each from a place on?
fn are_holes(slave: &Slave, place: usize, size: usize, number: usize) -> bool {
    let first = size.saturating_mul(number);
    let all = size.saturating_mul(RECORDS);
    for offset in first..all {
        match slave.bytes.get(place.saturating_add(offset)) {
            Some(Byte::Untold) | Some(Byte::Lost) | None => {}
            Some(Byte::Guessed(_)) | Some(Byte::Told(_)) => return false,
        }
    }
    true
}

/// Puts a sync manager, as a scene may have it.
fn put_manager(page: &mut Page, manager: &Manager) -> Result<(), AllocError> {
    let number = manager.number;
    let mut start = manager.start;
    let mut length = manager.length;
    if !manager.sure {
        page.comment(format_args!("guess: sm {number} took what was written"))?;
    }
    if start < AREAS {
        page.comment(format_args!(
            "changed: sm {number} lies at 0x{start:04x}; an area of a scene lies from 0x1000 on"
        ))?;
        start += MOVED;
    }
    let is_mailbox = match manager.kind {
        AreaKind::MailboxWrite | AreaKind::MailboxRead => true,
        AreaKind::Write | AreaKind::Read => false,
    };
    if is_mailbox && LONGEST_MAILBOX < length {
        page.comment(format_args!(
            "changed: sm {number} has {length} bytes; a mailbox of a scene has {LONGEST_MAILBOX} at most"
        ))?;
        length = LONGEST_MAILBOX;
    }
    let line = SceneLine::SyncMan(number, start, length, manager.kind);
    put_line(&mut page.text, line)?;
    if manager.more {
        page.more = page.more.saturating_add(1);
    }
    Ok(())
}

/// Does a physical address lie in an area that was put higher?
fn is_moved(slave: &Slave, physical: u16, started: bool) -> bool {
    for number in 0..RECORDS {
        if let Record::On(manager) = manager_of(slave, number, started)
            && manager.start < AREAS
            && manager.start <= physical
            && u32::from(physical) < u32::from(manager.start) + u32::from(manager.length)
        {
            return true;
        }
    }
    false
}

/// Puts the FMMUs.
fn put_mappings(page: &mut Page, place: &Place, slave: &Slave) -> Result<(), AllocError> {
    for number in 0..RECORDS {
        match mapping_of(slave, number, place.started) {
            Record::Off => {}
            Record::On(mapping) => {
                let moved = is_moved(slave, mapping.physical, place.started);
                put_mapping(page, &mapping, moved)?;
            }
            Record::Hole => {
                if are_holes(slave, FMMU_PLACE, 2 * RECORDS, number) {
                    return page.hole("fmmu ?");
                }
                page.hole(format_args!("fmmu {number} ?"))?;
            }
        }
    }
    Ok(())
}

/// Puts an FMMU, as a scene may have it.
fn put_mapping(page: &mut Page, mapping: &Mapping, moved: bool) -> Result<(), AllocError> {
    let number = mapping.number;
    if !mapping.sure {
        page.comment(format_args!("guess: fmmu {number} took what was written"))?;
    }
    let physical = if moved && mapping.physical < AREAS {
        mapping.physical + MOVED
    } else {
        mapping.physical
    };
    let line = SceneLine::Fmmu(
        number,
        mapping.logical,
        mapping.length,
        mapping.first,
        mapping.last,
        physical,
        mapping.bit,
        mapping.through,
    );
    put_line(&mut page.text, line)
}

/// Puts the inputs as the last data of an item brought them, where they are asked for.
fn put_inputs(
    page: &mut Page,
    learner: &Learner,
    place: &Place,
    slave: &Slave,
) -> Result<(), AllocError> {
    if !page.values {
        return Ok(());
    }
    for number in 0..RECORDS {
        if let Record::On(mapping) = mapping_of(slave, number, place.started)
            && mapping.through == Through::Reads
            && mapping.first == 0
            && mapping.last == 7
            && mapping.bit == 0
            && !is_moved(slave, mapping.physical, place.started)
        {
            put_input(page, learner.groups.groups(), &mapping)?;
        }
    }
    Ok(())
}

/// Puts the inputs of an FMMU that reads whole bytes, if an item brings them and they are process memory.
fn put_input(page: &mut Page, groups: &[Group], mapping: &Mapping) -> Result<(), AllocError> {
    let end = u32::from(mapping.physical) + u32::from(mapping.length);
    if mapping.physical < AREAS || 0x3000 < end || mapping.length == 0 {
        return Ok(());
    }
    for group in groups {
        if let Some(bytes) = inputs_in(group, mapping) {
            let line = SceneLine::Load(mapping.physical);
            return put_row(page.alloc, &mut page.text, line, bytes);
        }
    }
    Ok(())
}

/// The bytes of an FMMU in the last data of a group.
fn inputs_in<'a>(group: &'a Group, mapping: &Mapping) -> Option<&'a [u8]> {
    if !matches!(group.command, Command::Lrd | Command::Lrw) {
        return None;
    }
    let from = mapping.logical.checked_sub(group.key.address)? as usize;
    group.last.get(from..from + usize::from(mapping.length))
}

/// What a master may do with an object that it read, or wrote.
fn rights_of(read: bool, written: bool) -> Rights {
    match (read, written) {
        (true, true) => Rights::Both,
        (false, true) => Rights::WriteOnly,
        (true, false) | (false, false) => Rights::ReadOnly,
    }
}

/// Puts the objects that mails told.
fn put_objects(page: &mut Page, learner: &Learner, place: &Place) -> Result<(), AllocError> {
    if page.objects <= place.number {
        return Ok(());
    }
    let mut count = 0usize;
    for object in &learner.mails.objects {
        if object.slave == place.number {
            if count < MAX_OBJECTS {
                let rights = rights_of(object.read, object.written);
                let line = SceneLine::Object(object.index, object.sub, rights, object.value);
                put_line(&mut page.text, line)?;
            }
            count = count.saturating_add(1);
        }
    }
    put_rest(page, count, MAX_OBJECTS, "objects")
}

/// Puts how many are left out, past the most that a scene may have.
fn put_rest(page: &mut Page, count: usize, most: usize, what: &str) -> Result<(), AllocError> {
    if most < count {
        let rest = count - most;
        return page.comment(format_args!("left out: {rest} {what} behind the first {most}"));
    }
    Ok(())
}

/// Puts what the master wrote to the slave in the start-up of the line.
fn put_written(page: &mut Page, learner: &Learner, place: &Place) -> Result<(), AllocError> {
    if page.objects <= place.number {
        return Ok(());
    }
    let mut count = 0usize;
    for written in &learner.mails.written {
        if written.slave == place.number && written.epoch == place.epoch {
            if count < MAX_STARTUP {
                let alloc = page.alloc;
                let value: Value = written.value;
                put_startup(alloc, &mut page.text, written.index, written.sub, value)?;
            }
            count = count.saturating_add(1);
        }
    }
    put_rest(page, count, MAX_STARTUP, "startup objects")
}

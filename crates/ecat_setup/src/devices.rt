//! What a device tells of itself, made of what a scene says of it: the contents of its EEPROM (ETG.1000.6 and
//! ETG.2010, slave information interface), and objects that say the same (ETG.1000.6, CoE communication
//! area). What no line and no object says is made up.

ghost use Rattle.std.specs.Prelude.{◌≡◌, ◌+◌, ◌≤◌, IfOk, OnOk, filter, length, map};
ghost use Rattle.ecat_scene.specs.Scene.{setting_record, sii_record, slave_record};
ghost use Rattle.ecat_setup.specs.Devices.{IsEepromOf, Tells, alias_by, alias_in, alias_taken};
ghost use Rattle.ecat_setup.specs.Devices.{aliases_taken, as_device, buffered, details_of, fmmus_of};
ghost use Rattle.ecat_setup.specs.Devices.{found_by};
ghost use Rattle.ecat_setup.specs.Devices.{identity_of, is_load, line_put, lines_put, lists_fit};
ghost use Rattle.ecat_setup.specs.Devices.{made_identity, mailbox_of, mailboxes_of, manager_of, name_of};
ghost use Rattle.ecat_setup.specs.Devices.{over, reaching, start_of, switched_on, sync_managers_of};
ghost use Rattle.ecat_setup.specs.Devices.{wanted_at, with_alias_of};
ghost use Rattle.ecat_setup.specs.ProcessData.{mapped_pdo};

use crate::failure::LineFailure;
use crate::process_data::{INPUTS, OUTPUTS, list, number_at, objects_for, pdos_of};
use ec_app::objects::MAX_OBJECTS;
use ec_app::{ObjectFault, Objects, Rights, Value};
use ec_applications::PlacedEeprom;
use ec_regs::{AlState, SyncMan};
use ec_sii::{Eeprom, Identity, ImageFault, Mailboxes, Pdo, SiiContents, SiiSyncManager};
use ecat_scene::{SceneSlave, Setting, SiiBytes, SlaveKind};
use std::alloc::{AllocError, Global};
use std::io::Write;

/// The object that says who made a slave and what it is.
const IDENTITY: u16 = 0x1018;

/// The object that says what a slave is for.
const DEVICE_TYPE: u16 = 0x1000;

/// The object that says what each sync manager is for.
const COMMUNICATION: u16 = 0x1C00;

/// The vendor that is made up.
const VENDOR: u32 = 0xECA7;

/// How long a mailbox is that is made up, and where those two begin.
const MAILBOX: u16 = 128;

const MAILBOX_OUT: u16 = 0x1800;

const MAILBOX_IN: u16 = 0x1C00;

/// Where the alias stands in an EEPROM, in bytes.
const ALIAS_AT: usize = 8;

/// CoE, of the protocols that a mailbox carries.
const COE: u16 = 4;

/// What of CoE a device has: objects can be asked for, and lists of PDOs be written.
const SDOS: u8 = 0x01;

const ASSIGNED: u8 = 0x04;

/// Has all slaves of which no line says what they tell of themselves be devices.
pub fn make_devices(slaves: &mut [SceneSlave])
    ensures { map slave_record slaves.new ≡ map as_device (map slave_record slaves.old) }
{
    for k in 0..slaves.len() {
        make_device(&mut slaves[k]);
    }
}

/// Has a slave of which no line says what it tells of itself be a device.
fn make_device(slave: &mut SceneSlave)
    ensures { slave_record slave.new ≡ as_device (slave_record slave.old) }
{
    if slave.kind == SlaveKind::Unsaid {
        slave.kind = SlaveKind::Device;
    }
}

/// Has each device begin as one that was just switched on: in Init, without a station address, and with no
/// sync manager and no FMMU; what lines say of these stands in its EEPROM, which was made before. What lines
/// put into process memory is there.
pub fn switch_on(slaves: &mut [SceneSlave])
    ensures { map slave_record slaves.new ≡ map switched_on (map slave_record slaves.old) }
{
    for k in 0..slaves.len() {
        switch_one_on(&mut slaves[k]);
    }
}

/// Has a slave, if it is a device, begin as one that was just switched on.
fn switch_one_on(slave: &mut SceneSlave)
    ensures { slave_record slave.new ≡ switched_on (slave_record slave.old) }
{
    if slave.kind == SlaveKind::Device {
        slave.station = 0;
        slave.state = AlState::Init;
        keep_loads(&mut slave.settings);
    }
}

/// Drops the settings of sync managers and FMMUs.
fn keep_loads(settings: &mut Vec<Setting>)
    ensures { map setting_record settings.new.items ≡ filter is_load (map setting_record settings.old.items) }
{
    settings.retain(|setting| is_load(setting));
}

/// Does a line put bytes into process memory?
fn is_load(setting: &Setting) -> bool
    ensures { result ≡ is_load (setting_record setting.now) }
{
    match setting {
        Setting::SyncMan(_) | Setting::Fmmu(_) => false,
        Setting::Load(_) => true,
    }
}

/// Has slaves tell the alias that stands in the EEPROM which they are given (ETG.1000.6, slave information
/// interface, configured station alias).
pub fn take_aliases(slaves: &mut [SceneSlave], given: &[PlacedEeprom])
    ensures { map slave_record slaves.new ≡ aliases_taken given.now (map slave_record slaves.old) }
{
    for one in given {
        take_alias(slaves, one);
    }
}

/// Has the slave of an EEPROM, if there is one, tell the alias that stands in it.
fn take_alias(slaves: &mut [SceneSlave], one: &PlacedEeprom)
    ensures { map slave_record slaves.new ≡ alias_taken one.now (map slave_record slaves.old) }
{
    if one.place < slaves.len() {
        tell_alias(&mut slaves[one.place], &one.eeprom);
    }
}

/// Has a slave tell the alias that stands in an EEPROM, if that reaches as far.
fn tell_alias(slave: &mut SceneSlave, eeprom: &Eeprom)
    ensures { slave_record slave.new ≡ with_alias_of eeprom.now (slave_record slave.old) }
{
    if ALIAS_AT + 2 <= eeprom.bytes().len() {
        let at = ALIAS_AT as u64;
        slave.alias = u16::from_le_bytes([eeprom.byte(at), eeprom.byte(at + 1)]);
    }
}

/// The EEPROM of the device at a place, made of what its scene says (ETG.1000.6 and ETG.2010, slave
/// information interface). It fails where memory runs out, or its PDOs have no room.
pub fn eeprom_of(alloc: Global, place: usize, described: &SceneSlave) -> Result<Eeprom, LineFailure>
    ensures { IfOk result (λ eeprom. IsEepromOf place (slave_record described.now) eeprom) }
{
    let Ok(contents) = contents_of(alloc, place, described) else {
        return Err(LineFailure::NoMemory);
    };
    let mut bytes = match contents.image(alloc) {
        Ok(bytes) => bytes,
        Err(ImageFault::NoMemory) => return Err(LineFailure::NoMemory),
        Err(ImageFault::TooLong) => return Err(LineFailure::TooMany),
    };
    match put_lines(&mut bytes, described.sii.as_slice()) {
        Ok(()) => Ok(Eeprom::new(bytes)),
        Err(_) => Err(LineFailure::NoMemory),
    }
}

/// Puts the bytes of lines into contents, one line after the other.
fn put_lines(contents: &mut Vec<u8>, lines: &[SiiBytes]) -> Result<(), AllocError>
    ensures { OnOk result (contents.new.items ≡ lines_put (map sii_record lines.now) contents.old.items) }
{
    for line in lines {
        put(contents, line)?;
    }
    Ok(())
}

/// Puts bytes into contents, which end with them at the least; what lies between is 0xFF, as in an EEPROM
/// that is empty there.
fn put(contents: &mut Vec<u8>, piece: &SiiBytes) -> Result<(), AllocError>
    ensures { OnOk result (contents.new.items ≡ line_put (sii_record piece.now) contents.old.items) }
{
    let at = 2 * usize::from(piece.word);
    reach(contents, at + piece.bytes.len())?;
    put_at(contents.as_mut_slice(), at, piece.bytes.as_slice());
    Ok(())
}

/// Has contents reach up to an end at the least.
fn reach(contents: &mut Vec<u8>, end: usize) -> Result<(), AllocError>
    ensures { OnOk result (contents.new.items ≡ reaching end contents.old.items) }
{
    if contents.len() < end {
        contents.resize(end, 0xFF)?;
    }
    Ok(())
}

/// Puts bytes over those from a place on.
fn put_at(contents: &mut [u8], at: usize, bytes: &[u8])
    requires { at + length bytes.now ≤ length contents.old }
    ensures { contents.new ≡ over at bytes.now contents.old }
{
    contents[at..at + bytes.len()].copy_from_slice(bytes);
}

/// The alias that the EEPROM of a slave has, whose scene says this one: the last bytes that a line puts
/// there.
pub(crate) fn alias_in(said: u16, pieces: &[SiiBytes]) -> u16
    ensures { result ≡ alias_in said (map sii_record pieces.now) }
{
    let mut alias = said;
    for piece in pieces {
        alias = alias_by(alias, piece);
    }
    alias
}

/// The alias that the bytes of a line tell, or else the one that was told before.
fn alias_by(said: u16, piece: &SiiBytes) -> u16
    ensures { result ≡ alias_by said (sii_record piece.now) }
{
    let at = 2 * usize::from(piece.word);
    let bytes = piece.bytes.as_slice();
    if at <= ALIAS_AT && ALIAS_AT + 2 <= at + bytes.len() {
        u16::from_le_bytes([bytes[ALIAS_AT - at], bytes[ALIAS_AT + 1 - at]])
    } else {
        said
    }
}

/// What the EEPROM of the device at a place tells.
fn contents_of(
    alloc: Global,
    place: usize,
    described: &SceneSlave,
) -> Result<SiiContents, AllocError>
    ensures { IfOk result (λ contents. Tells place (slave_record described.now) contents) }
{
    let inputs = pdos_of(alloc, described, INPUTS)?;
    let outputs = pdos_of(alloc, described, OUTPUTS)?;
    Ok(SiiContents {
        alias: described.alias,
        identity: identity_of(place, described),
        mailboxes: mailboxes_of(described),
        name: name_of(alloc, place, described)?,
        coe_details: details_of(described, outputs.as_slice(), inputs.as_slice()),
        fmmus: fmmus_of(alloc, described)?,
        sync_managers: sync_managers_of(alloc, described)?,
        inputs,
        outputs,
    })
}

// ---- who it is

/// Who made the device at a place and what it is: as a line says it, or its objects, or else made up.
pub(crate) fn identity_of(place: usize, described: &SceneSlave) -> Identity
    ensures { result ≡ identity_of place (slave_record described.now) }
{
    match described.identity {
        Some(identity) => identity,
        None => made_identity(place, described),
    }
}

/// Who made the device at a place and what it is, as its objects say it, or else made up.
fn made_identity(place: usize, described: &SceneSlave) -> Identity
    ensures { result ≡ made_identity place (slave_record described.now) }
{
    let objects = &described.objects;
    let product = if described.simple { 1 } else { 2 };
    Identity {
        vendor: number_at(objects, IDENTITY, 1).unwrap_or(VENDOR),
        product: number_at(objects, IDENTITY, 2).unwrap_or(product),
        revision: number_at(objects, IDENTITY, 3).unwrap_or(1),
        serial: number_at(objects, IDENTITY, 4).unwrap_or((place % 0x1_0000) as u32 + 1),
    }
}

/// The name of the device at a place.
fn name_of(alloc: Global, place: usize, described: &SceneSlave) -> Result<Vec<u8>, AllocError>
    ensures { IfOk result (λ name. name.items ≡ name_of place (slave_record described.now)) }
{
    let mut name = Vec::new(alloc);
    if !described.name.is_empty() {
        name.extend_from_slice(described.name.as_slice())?;
        return Ok(name);
    }
    match write!(name, "Slave {place}") {
        Ok(()) => Ok(name),
        Err(_) => Err(AllocError),
    }
}

// ---- what it has

/// The sync manager with a number as a line sets it, the last one that does.
fn manager_of(described: &SceneSlave, number: usize) -> Option<SyncMan>
    ensures { result ≡ manager_of (slave_record described.now) number }
{
    let mut found = None;
    for setting in described.settings.iter() {
        found = found_by(number, found, setting);
    }
    found
}

/// The sync manager with a number as a line sets it, or else as it was found before.
fn found_by(number: usize, found: Option<SyncMan>, setting: &Setting) -> Option<SyncMan>
    ensures { result ≡ found_by number found (setting_record setting.now) }
{
    match setting {
        Setting::SyncMan(manager) => {
            if manager.index == number {
                Some(manager.record)
            } else {
                found
            }
        }
        Setting::Fmmu(_) | Setting::Load(_) => found,
    }
}

/// The first byte and the length of a mailbox.
fn mailbox_of(described: &SceneSlave, number: usize, start: u16) -> (u16, u16)
    ensures { result ≡ mailbox_of (slave_record described.now) number start }
{
    match manager_of(described, number) {
        Some(manager) => (manager.start, manager.length),
        None => (start, MAILBOX),
    }
}

/// Where the mailboxes lie, if there are any.
fn mailboxes_of(described: &SceneSlave) -> Mailboxes
    ensures { result ≡ mailboxes_of (slave_record described.now) }
{
    if described.simple {
        return Mailboxes {
            out_start: 0,
            out_length: 0,
            in_start: 0,
            in_length: 0,
            protocols: 0,
        };
    }
    let (out_start, out_length) = mailbox_of(described, 0, MAILBOX_OUT);
    let (in_start, in_length) = mailbox_of(described, 1, MAILBOX_IN);
    Mailboxes {
        out_start,
        out_length,
        in_start,
        in_length,
        protocols: COE,
    }
}

/// The details of CoE: objects can be asked for, and lists of PDOs that are made can be written; none without
/// mailboxes.
fn details_of(described: &SceneSlave, outputs: &[Pdo], inputs: &[Pdo]) -> u8
    ensures { result ≡ details_of (slave_record described.now) (map mapped_pdo outputs.now)
        (map mapped_pdo inputs.now) }
{
    if described.simple {
        0
    } else if lists_fit(&described.objects, outputs, inputs) {
        SDOS | ASSIGNED
    } else {
        SDOS
    }
}

/// What each FMMU is for: 1 outputs, 2 inputs, 3 the state of a mailbox.
fn fmmus_of(alloc: Global, described: &SceneSlave) -> Result<Vec<u8>, AllocError>
    ensures { IfOk result (λ fmmus. fmmus.items ≡ fmmus_of (slave_record described.now)) }
{
    let mut all = Vec::new(alloc);
    if 0 < described.output_length {
        all.push(1)?;
    }
    if 0 < described.input_length {
        all.push(2)?;
    }
    if !described.simple {
        all.push(3)?;
    }
    Ok(all)
}

/// Where the areas of process data begin that no line sets: outputs at 0x1000, and inputs at 0x1100 or behind
/// longer outputs.
fn start_of(described: &SceneSlave, number: usize) -> u16
    ensures { result ≡ start_of (slave_record described.now) number }
{
    match manager_of(described, number) {
        Some(manager) => manager.start,
        None if number == 2 => 0x1000,
        None => 0x1000u16.saturating_add(described.output_length.max(0x100)),
    }
}

/// A sync manager of process data, which is enabled where there is some.
fn buffered(start: u16, length: u16, control: u8, kind: u8) -> SiiSyncManager
    ensures { result ≡ buffered start length control kind }
{
    SiiSyncManager {
        start,
        length,
        control,
        enable: u8::from(0 < length),
        kind,
    }
}

/// What each of the first four sync managers is for.
fn sync_managers_of(
    alloc: Global,
    described: &SceneSlave,
) -> Result<Vec<SiiSyncManager>, AllocError>
    ensures { IfOk result (λ all. all.items ≡ sync_managers_of (slave_record described.now)) }
{
    let mailboxes = mailboxes_of(described);
    let is_used = u8::from(!described.simple);
    let all = vec![in alloc;
        SiiSyncManager {
            start: mailboxes.out_start,
            length: mailboxes.out_length,
            control: 0x26 * is_used,
            enable: is_used,
            kind: is_used,
        },
        SiiSyncManager {
            start: mailboxes.in_start,
            length: mailboxes.in_length,
            control: 0x22 * is_used,
            enable: is_used,
            kind: 2 * is_used,
        },
        buffered(start_of(described, 2), described.output_length, 0x64, 3),
        buffered(start_of(described, 3), described.input_length, 0x20, 4),
    ]?;
    Ok(all)
}

// ---- its objects

/// Adds the objects of the device at a place that its scene does not list: what masters read of one that has
/// mailboxes. The lists of PDOs are added whole, or not at all where they have no room.
pub(crate) fn add_objects(
    alloc: Global,
    place: usize,
    described: &mut SceneSlave,
) -> Result<(), AllocError> {
    if described.simple {
        return Ok(());
    }
    let objects = &described.objects;
    let outputs = pdos_of(alloc, described, OUTPUTS)?;
    let inputs = pdos_of(alloc, described, INPUTS)?;
    let has_room = lists_fit(objects, outputs.as_slice(), inputs.as_slice());
    let identity = identity_of(place, described);
    let _ = add_facts(&mut described.objects, &identity);
    if has_room {
        let _ = add_lists(
            &mut described.objects,
            outputs.as_slice(),
            inputs.as_slice(),
        );
    }
    Ok(())
}

/// How many objects an index has that the device gets, where its scene lists none there.
fn wanted_at(objects: &Objects, index: u16, count: usize) -> usize
    ensures { result ≡ wanted_at objects.now index count }
{
    if objects.has_index(index) { 0 } else { count }
}

/// Is there room for all objects that a device has beside those that its scene lists?
fn lists_fit(objects: &Objects, outputs: &[Pdo], inputs: &[Pdo]) -> bool
    ensures { result ≡ lists_fit objects.now (map mapped_pdo outputs.now) (map mapped_pdo inputs.now) }
{
    let wanted = wanted_at(objects, DEVICE_TYPE, 1)
        .saturating_add(wanted_at(objects, IDENTITY, 5))
        .saturating_add(wanted_at(objects, COMMUNICATION, 5))
        .saturating_add(objects_for(objects, OUTPUTS, outputs))
        .saturating_add(objects_for(objects, INPUTS, inputs));
    wanted.saturating_add(objects.count()) <= MAX_OBJECTS
}

/// Adds what says what a device is, as far as there is room.
fn add_facts(objects: &mut Objects, identity: &Identity) -> Result<(), ObjectFault> {
    if !objects.has_index(DEVICE_TYPE) {
        objects.add(DEVICE_TYPE, 0, Rights::ReadOnly, Value::Four(0))?;
    }
    if !objects.has_index(IDENTITY) {
        objects.add(IDENTITY, 0, Rights::ReadOnly, Value::One(4))?;
        objects.add(IDENTITY, 1, Rights::ReadOnly, Value::Four(identity.vendor))?;
        objects.add(IDENTITY, 2, Rights::ReadOnly, Value::Four(identity.product))?;
        objects.add(
            IDENTITY,
            3,
            Rights::ReadOnly,
            Value::Four(identity.revision),
        )?;
        objects.add(IDENTITY, 4, Rights::ReadOnly, Value::Four(identity.serial))?;
    }
    Ok(())
}

/// Adds what each sync manager is for and which PDOs there are.
fn add_lists(objects: &mut Objects, outputs: &[Pdo], inputs: &[Pdo]) -> Result<(), ObjectFault> {
    if !objects.has_index(COMMUNICATION) {
        add_kinds(objects)?;
    }
    list(objects, OUTPUTS, outputs)?;
    list(objects, INPUTS, inputs)
}

/// Adds what each of four sync managers is for, by its number: 1 mailbox that the master writes, 2 mailbox
/// that it reads, 3 outputs, 4 inputs.
fn add_kinds(objects: &mut Objects) -> Result<(), ObjectFault> {
    objects.add(COMMUNICATION, 0, Rights::ReadOnly, Value::One(4))?;
    for kind in 1..5 {
        objects.add(COMMUNICATION, kind, Rights::ReadOnly, Value::One(kind))?;
    }
    Ok(())
}

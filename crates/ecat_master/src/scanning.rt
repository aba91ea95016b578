//! What stands on a line, slave by slave.

ghost use Rattle.std.specs.Prelude.{◌≡◌, ◌≢◌, ◌≤◌, ◌<◌, ◌==◌, [], IfSome, IfOk, length, true};
ghost use Rattle.std.specs.List.{list_all};
ghost use Rattle.ec_diag.specs.declared.located.Located.TheVariants.{Unknown};
ghost use Rattle.ec_run.specs.Watched.{WatchedTrips};
ghost use Rattle.ec_services.specs.Mailbox.{IsPeer};
ghost use Rattle.ec_services.specs.Stations.{adp_of_place};
ghost use Rattle.ec_wire.specs.Datagram.{address_of, nth, record_of};
ghost use Rattle.ecat_master.specs.Scan.{AreAsked, ArePlacesRead, IsAsk, IsLookedThrough, IsPlaceRead};
ghost use Rattle.ecat_master.specs.Scan.{IsReadAt, IsScanned, are_alike, greater, greatest, is_enough};
ghost use Rattle.ecat_master.specs.Scan.{register_read, way_to, with_count};
ghost use Rattle.ecat_master.specs.declared.scanning.ScanEnd.TheVariants.{Ask, Output};

use crate::identity::{IDENTITY, put_value};
use crate::ports::are_swapped;
use crate::startup::look_surely;
use crate::words::{put_code, put_fault, put_look, state_name};
use arrayvec::ArrayVec;
use ec_app::Value;
use ec_app::roles::{ANSWER_MAILBOX, REQUEST_MAILBOX};
use ec_diag::Located;
use ec_master::Ports;
use ec_regs::registers::{
    AL_STATUS, FMMU_BASE, FMMU_COUNT, STATION_ADDRESS, SYNC_MANAGER_BASE, SYNC_MANAGER_COUNT,
};
use ec_regs::{AlState, AlStatus, Fmmu, SyncMan};
use ec_ring::{HeardPorts, MAX_SLAVES};
use ec_run::{Watched, count_slaves, one_counted, peer_between, put};
use ec_services::{MasterFault, Peer, request, upload_surely};
use ec_wire::{Command, Datagram, FrameBuf, address_of};
use ecat_text::Lines;
use std::io::{self, Write};
use std::marker::Model;

/// The most trips by which an object is read.
const TRIPS: u32 = 64;

/// The bytes of AL status, two reserved bytes and the AL status code.
const STATUS_BYTES: usize = 6;

/// The bytes of a sync manager's record.
const MANAGER_BYTES: usize = 8;

/// The bytes of an FMMU's record.
const FMMU_BYTES: usize = 16;

/// Who takes what a scan reads of the slaves.
pub trait Finder {
    /// Takes what the registers of the slave at a place hold, from an address on: its station address, six
    /// bytes of AL status and its code, and the records of its sync managers and FMMUs.
    fn registers(&mut self, place: u16, address: u16, bytes: &[u8]);

    /// Takes an entry of the object that says who the slave at a place is (0x1018), by its subindex.
    fn identity(&mut self, place: u16, sub: u8, value: Value);

    /// Takes why that entry could not be read.
    fn unidentified(&mut self, _place: u16, _sub: u8, _fault: MasterFault) {}

    /// Takes how many slaves were counted, each time that a copy of that frame came back.
    fn counted(&mut self, _counts: &[u16]) {}

    /// Takes where the cable is broken, or that the ports of the master are swapped.
    fn cable(&mut self, _located: Located, _swapped: bool) {}

    /// Takes what the slave at a place shows of itself.
    fn shown(&mut self, _place: u16, _shown: &Shown) {}

    /// Takes why the slave at a place could not be read.
    fn unread(&mut self, _place: u16, _fault: MasterFault) {}

    /// All is read of the slave at a place that can be.
    fn done(&mut self, _place: u16) {}
}

/// Nobody takes it.
#[derive(Clone, Copy, Debug)]
pub struct Unfound;

impl Finder for Unfound {
    fn registers(&mut self, _place: u16, _address: u16, _bytes: &[u8]) {}

    fn identity(&mut self, _place: u16, _sub: u8, _value: Value) {}
}

/// Why a scan has ended early.
#[derive(Drop)]
pub enum ScanEnd {
    /// A line could not be written.
    Output,
    /// The slaves could not be counted, or the cable not be looked at.
    Ask(MasterFault),
}

impl From<io::Error> for ScanEnd {
    fn from(_error: io::Error) -> ScanEnd
        ensures { result ≡ Output }
    {
        ScanEnd::Output
    }
}

impl From<MasterFault> for ScanEnd {
    fn from(fault: MasterFault) -> ScanEnd
        ensures { result ≡ Ask fault }
    {
        ScanEnd::Ask(fault)
    }
}

/// What a slave shows of itself.
#[derive(Clone, Copy)]
pub struct Shown {
    /// Its station address.
    pub station: u16,
    /// Its AL status.
    pub status: AlStatus,
    /// Its AL status code.
    pub code: u16,
    /// Its sync managers.
    pub managers: [SyncMan; SYNC_MANAGER_COUNT],
    /// Its FMMUs.
    pub fmmus: [Fmmu; FMMU_COUNT],
}

/// Writes a line for each slave that is counted: its place, its station address, its AL state and error, its
/// active sync managers and FMMUs, and who it is where it has mailboxes; before them how many there are and
/// where the cable is broken. Behind a broken link with slaves on both sides a slave is read by its place
/// only where no other answers with it; the line of another one says `BadAnswer`, and that two may answer.
/// What is read of a slave goes to the finder too. It answers whether copies came back, the counts of the
/// slaves were alike, something is known of the cable, and all slaves could be read: of each as many as were
/// counted, one after the other, its station address, its AL status and the records of its sync managers and
/// FMMUs, each by a read on which exactly one slave counted.
pub fn scan<P: HeardPorts, W: Write, F: Finder>(
    ports: &mut Watched<P>,
    lines: &mut Lines<'_, W>,
    finder: &mut F,
) -> Result<bool, ScanEnd>
    ensures scanned { IfOk result (λ all. all ≡ true → IsScanned P.trips ports.old ports.new) }
{
    let counted = count_often(ports)?;
    finder.counted(counted.counts.as_slice());
    let Some(count) = counted.greatest() else {
        lines.text("nobody answers at A")?;
        lines.end()?;
        return Ok(false);
    };
    put_counted(&counted, count, lines)?;
    let located = match look_surely(ports, usize::from(count)) {
        Some(located) => located,
        None => return Err(ScanEnd::Ask(MasterFault::Port)),
    };
    let swapped = are_swapped(ports);
    finder.cable(located, swapped);
    put_links(located, swapped, lines)?;
    lines.end()?;
    let read = scan_slaves(ports, count, located, lines, finder)?;
    Ok(is_all(located, &counted, read))
}

/// Is all known: where the cable is broken, how many slaves there are, and each of them by its registers?
fn is_all(located: Located, counted: &Counted, read: bool) -> bool
    ensures known { result ≡ true → located ≢ Unknown }
    ensures alike { result ≡ true → are_alike counted.now ≡ true }
    ensures read { result ≡ true → read ≡ true }
{
    match located {
        Located::Unknown => false,
        _ => { if counted.are_alike() { read } else { false } }
    }
}

/// How often the slaves are counted.
const COUNTS: usize = 3;

/// How often they are asked for that, at the most: an answer of which no copy came is none.
const ASKS: usize = 10;

/// What the slaves of a line were counted to be.
#[derive(Drop)]
struct Counted {
    counts: ArrayVec<u16, COUNTS>,
}

impl Model for Counted {
    ghost use Rattle.std.specs.Prelude.{List, ℕ};

    ghost Value = { List ℕ };

    ghost view = { λ c. c.counts.items };
}

impl Counted {
    /// Nothing was counted.
    fn new() -> Counted
        ensures { result ≡ [] }
    {
        Counted {
            counts: ArrayVec::new(),
        }
    }

    /// Keeps a count, where there is one.
    fn keep(&mut self, told: Option<u16>)
        requires { length self.old < COUNTS }
        ensures { self.new ≡ with_count self.old told }
    {
        match told {
            Some(count) => self.counts.push(count),
            None => {}
        }
    }

    /// Are there as many counts as are wanted?
    fn is_enough(&self) -> bool
        ensures { result ≡ is_enough self.now }
    {
        self.counts.len() == COUNTS
    }

    /// The most slaves that were counted; nothing where nobody answered.
    fn greatest(&self) -> Option<u16>
        ensures { result ≡ greatest self.now }
    {
        greatest_of(self.counts.as_slice())
    }

    /// Was the same counted each time?
    fn are_alike(&self) -> bool
        ensures { result ≡ are_alike self.now }
    {
        are_alike(self.counts.as_slice())
    }
}

/// The greater of a count and of another one, if there is one.
fn greater(found: Option<u16>, count: u16) -> u16
    ensures { result ≡ greater found count }
{
    match found {
        Some(other) => other.max(count),
        None => count,
    }
}

/// The greatest of these counts.
fn greatest_of(counts: &[u16]) -> Option<u16>
    ensures { result ≡ greatest counts.now }
{
    let mut greatest = None;
    for count in counts {
        greatest = Some(greater(greatest, *count));
    }
    greatest
}

/// Are all these counts the first one?
fn are_alike(counts: &[u16]) -> bool
    ensures { result ≡ are_alike counts.now }
{
    match counts.first() {
        Some(first) => all_are(counts, *first),
        None => true,
    }
}

/// Are all these counts this one?
fn all_are(counts: &[u16], wanted: u16) -> bool
    ensures { result ≡ list_all (λ count. count == wanted) counts.now }
{
    counts.iter().all(|count| *count == wanted)
}

/// Counts the slaves once; nothing where no copy came.
fn count_once<P: HeardPorts>(ports: &mut Watched<P>) -> Result<Option<u16>, MasterFault>
    ensures { IsAsk P.trips ports.old result ports.new }
{
    ports.clear();
    match count_slaves(ports) {
        Ok(count) => {
            if ports.has_heard() {
                Ok(Some(count))
            } else {
                Ok(None)
            }
        }
        Err(fault) => Err(fault),
    }
}

/// Counts the slaves `COUNTS` times, as far as copies come.
fn count_often<P: HeardPorts>(ports: &mut Watched<P>) -> Result<Counted, MasterFault>
    ensures { AreAsked P.trips ports.old ASKS [] result ports.new }
{
    let mut counted = Counted::new();
    for _ask in 0..ASKS {
        match count_once(ports) {
            Ok(told) => counted.keep(told),
            Err(fault) => return Err(fault),
        }
        if counted.is_enough() {
            return Ok(counted);
        }
    }
    Ok(counted)
}

/// Writes how many slaves there are, and what else was counted.
fn put_counted<W: Write>(
    counted: &Counted,
    count: u16,
    lines: &mut Lines<'_, W>,
) -> io::Result<()> {
    lines.text(format_args!("slaves {count}"))?;
    if !counted.are_alike() {
        lines.text("; counts differ:")?;
        for count in counted.counts.as_slice() {
            lines.text(format_args!(" {count}"))?;
        }
        lines.line()?;
        lines.text("does another master run here?")?;
    }
    lines.end()
}

/// Puts where the cable is broken, with no name of a slave.
fn put_links<W: Write>(
    located: Located,
    swapped: bool,
    lines: &mut Lines<'_, W>,
) -> io::Result<()> {
    match located {
        Located::One(link) => lines.text(format_args!("link {link} down")),
        _ => put_look(located, swapped, &[], lines),
    }
}

/// Writes the line of each slave, and answers whether all could be read.
fn scan_slaves<P: HeardPorts, W: Write, F: Finder>(
    ports: &mut Watched<P>,
    count: u16,
    located: Located,
    lines: &mut Lines<'_, W>,
    finder: &mut F,
) -> Result<bool, ScanEnd>
    ensures { IfOk result (λ all. all ≡ true → ArePlacesRead P.trips ports.old located count ports.new) }
{
    let mut all = true;
    for place in 0..count {
        let read = scan_slave(ports, place, located, lines, finder)?;
        all = both(all, read);
    }
    Ok(all)
}

/// Is it so of both?
fn both(first: bool, second: bool) -> bool
    ensures first { result ≡ true → first ≡ true }
    ensures second { result ≡ true → second ≡ true }
{
    if first { second } else { false }
}

/// Writes the line of one slave, and answers whether it could be read.
fn scan_slave<P: HeardPorts, W: Write, F: Finder>(
    ports: &mut Watched<P>,
    place: u16,
    located: Located,
    lines: &mut Lines<'_, W>,
    finder: &mut F,
) -> Result<bool, ScanEnd>
    ensures { IfOk result (λ read. read ≡ true → IsPlaceRead P.trips ports.old located place ports.new) }
{
    lines.text(format_args!("slave {place}"))?;
    let read = read_slave(ports, place, located, lines, finder)?;
    finder.done(place);
    lines.end()?;
    Ok(read)
}

/// Reads one slave and puts what it shows of itself, or why it could not be read; and answers whether it
/// could.
fn read_slave<P: HeardPorts, W: Write, F: Finder>(
    ports: &mut Watched<P>,
    place: u16,
    located: Located,
    lines: &mut Lines<'_, W>,
    finder: &mut F,
) -> Result<bool, ScanEnd>
    ensures { IfOk result (λ read. read ≡ true → IsPlaceRead P.trips ports.old located place ports.new) }
{
    match look(ports, way_to(place, located), place, finder) {
        Err(MasterFault::Port) => Err(ScanEnd::Ask(MasterFault::Port)),
        Err(fault) => {
            finder.unread(place, fault);
            put_unread(fault, located, lines)?;
            Ok(false)
        }
        Ok(shown) => {
            finder.shown(place, &shown);
            put_shown(&shown, lines)?;
            put_identity(ports, &shown, place, lines, finder)?;
            Ok(true)
        }
    }
}

/// Puts why a slave could not be read.
fn put_unread<W: Write>(
    fault: MasterFault,
    located: Located,
    lines: &mut Lines<'_, W>,
) -> io::Result<()> {
    lines.text(" ")?;
    put_fault(fault, lines)?;
    if fault == MasterFault::BadAnswer && located != Located::Whole {
        lines.text(" (while the cable is broken, another slave may answer for it)")?;
    }
    Ok(())
}

/// How a slave is reached by its place.
#[derive(Clone, Copy)]
struct Way {
    /// Its distance from where the copy that reaches it begins to be processed.
    distance: u16,
    /// Whether the frame circulates, so that no slave behind a broken link takes it.
    circulating: bool,
}

/// How the slave at a place is reached, over a cable that is broken there.
fn way_to(place: u16, located: Located) -> Way
    ensures { result ≡ way_to place located }
{
    match located {
        Located::One(link) if usize::from(place) >= link => Way {
            distance: place - link as u16,
            circulating: false,
        },
        Located::One(_) => Way {
            distance: place,
            circulating: true,
        },
        _ => Way {
            distance: place,
            circulating: false,
        },
    }
}

/// The address of a register of the slave at a distance from where a copy begins to be processed.
fn address_behind(distance: u16, ado: u16) -> u32
    ensures { result ≡ address_of (adp_of_place distance) ado }
{
    address_of(distance.wrapping_neg(), ado)
}

/// The read of so many bytes of a slave, from a register on.
fn register_read(way: Way, ado: u16, size: usize) -> Datagram
    requires { size ≤ 128 }
    ensures read { record_of result ≡ register_read way ado size }
    ensures size { length result.payload.items ≡ size }
{
    let room = [0; 128];
    let address = address_behind(way.distance, ado);
    let mut sent = request(Command::Aprd, address, &room[..size]);
    sent.circulating = way.circulating;
    sent
}

/// Reads a run of registers of one slave.
fn read_at<P: Ports>(
    ports: &mut P,
    way: Way,
    ado: u16,
    count: usize,
) -> Result<FrameBuf, MasterFault>
    requires { count ≤ 128 }
    ensures read { IsReadAt P.trips ports.old way ado count result ports.new }
    ensures one { IfOk result (λ joined. length joined ≡ 1) }
    ensures size { IfOk result (λ joined. length (nth joined 0).payload ≡ count) }
{
    let sent = register_read(way, ado, count);
    let answer = put(ports, &sent);
    match one_counted(&answer) {
        Ok(()) => answer,
        Err(fault) => Err(fault),
    }
}

/// Reads what a slave shows of itself.
fn look<P: Ports, F: Finder>(
    ports: &mut P,
    way: Way,
    place: u16,
    finder: &mut F,
) -> Result<Shown, MasterFault>
    ensures { IfOk result (λ shown. IsLookedThrough P.trips ports.old way ports.new) }
{
    let station = read_at(ports, way, STATION_ADDRESS, 2)?;
    let status = read_at(ports, way, AL_STATUS, STATUS_BYTES)?;
    let managers = read_at(
        ports,
        way,
        SYNC_MANAGER_BASE,
        MANAGER_BYTES * SYNC_MANAGER_COUNT,
    )?;
    let fmmus = read_at(ports, way, FMMU_BASE, FMMU_BYTES * FMMU_COUNT)?;
    finder.registers(place, STATION_ADDRESS, station.data(0));
    finder.registers(place, AL_STATUS, status.data(0));
    finder.registers(place, SYNC_MANAGER_BASE, managers.data(0));
    finder.registers(place, FMMU_BASE, fmmus.data(0));
    let station = station.data(0);
    let status = status.data(0);
    Ok(Shown {
        station: u16::from_le_bytes([station[0], station[1]]),
        status: AlStatus::of_byte(status[0]),
        code: u16::from_le_bytes([status[4], status[5]]),
        managers: managers_in(managers.data(0)),
        fmmus: fmmus_in(fmmus.data(0)),
    })
}

/// The records of the sync managers in these bytes.
fn managers_in(bytes: &[u8]) -> [SyncMan; SYNC_MANAGER_COUNT]
    requires { length bytes.now ≡ 64 }
{
    let mut managers = [SyncMan::read(&[0; MANAGER_BYTES]); SYNC_MANAGER_COUNT];
    for number in 0..SYNC_MANAGER_COUNT {
        let mut record = [0; MANAGER_BYTES];
        let at = MANAGER_BYTES * number;
        record.copy_from_slice(&bytes[at..at + MANAGER_BYTES]);
        managers[number] = SyncMan::read(&record);
    }
    managers
}

/// The records of the FMMUs in these bytes.
fn fmmus_in(bytes: &[u8]) -> [Fmmu; FMMU_COUNT]
    requires { length bytes.now ≡ 128 }
{
    let mut fmmus = [Fmmu::read(&[0; FMMU_BYTES]); FMMU_COUNT];
    for number in 0..FMMU_COUNT {
        let mut record = [0; FMMU_BYTES];
        let at = FMMU_BYTES * number;
        record.copy_from_slice(&bytes[at..at + FMMU_BYTES]);
        fmmus[number] = Fmmu::read(&record);
    }
    fmmus
}

/// Puts what a slave shows of itself.
fn put_shown<W: Write>(shown: &Shown, lines: &mut Lines<'_, W>) -> io::Result<()> {
    let station = shown.station;
    let state = state_name(shown.status.state);
    lines.text(format_args!(" station 0x{station:04x} state {state}"))?;
    if shown.status.error {
        lines.text(" error ")?;
        put_code(shown.code, lines)?;
    }
    for (number, manager) in shown.managers.iter().enumerate() {
        if manager.is_active() {
            put_manager(number, manager, lines)?;
        }
    }
    for (number, fmmu) in shown.fmmus.iter().enumerate() {
        if fmmu.is_switched_on() {
            put_fmmu(number, fmmu, lines)?;
        }
    }
    Ok(())
}

/// Puts an active sync manager in the words of a scene.
fn put_manager<W: Write>(
    number: usize,
    manager: &SyncMan,
    lines: &mut Lines<'_, W>,
) -> io::Result<()> {
    let start = manager.start;
    let length = manager.length;
    lines.text(format_args!(" sm {number} 0x{start:04x} {length}"))?;
    lines.text(match (manager.is_mailbox(), manager.master_writes()) {
        (true, true) => " mailbox-write",
        (true, false) => " mailbox-read",
        (false, true) => " write",
        (false, false) => " read",
    })
}

/// Puts an FMMU that is switched on in the words of a scene.
fn put_fmmu<W: Write>(number: usize, fmmu: &Fmmu, lines: &mut Lines<'_, W>) -> io::Result<()> {
    let Fmmu {
        logical,
        length,
        start,
        stop,
        physical,
        bit,
        ..
    } = *fmmu;
    lines.text(format_args!(
        " fmmu {number} 0x{logical:08x} {length} {start} {stop} 0x{physical:04x} {bit}"
    ))?;
    lines.text(match (fmmu.reads(), fmmu.writes()) {
        (true, true) => " both",
        (true, false) => " read",
        (false, true) => " write",
        (false, false) => " nothing",
    })
}

/// A slave as one with which mails are exchanged, if it has both mailboxes and answers mails in its state.
fn peer_of(shown: &Shown) -> Option<Peer>
    ensures { IfSome result IsPeer }
{
    if shown.status.state == AlState::Init {
        return None;
    }
    let requests = &shown.managers[REQUEST_MAILBOX];
    let answers = &shown.managers[ANSWER_MAILBOX];
    peer_between(shown.station, requests, answers, 1)
}

/// Puts who a slave is, if it answers mails: its vendor and its product.
fn put_identity<P: Ports, W: Write, F: Finder>(
    ports: &mut P,
    shown: &Shown,
    place: u16,
    lines: &mut Lines<'_, W>,
    finder: &mut F,
) -> io::Result<()> {
    let Some(mut peer) = peer_of(shown) else {
        return Ok(());
    };
    put_object(ports, &mut peer, place, 1, lines, finder)?;
    put_object(ports, &mut peer, place, 2, lines, finder)
}

/// Puts one entry of the object that says who a slave is, or why it could not be read.
fn put_object<P: Ports, W: Write, F: Finder>(
    ports: &mut P,
    peer: &mut Peer,
    place: u16,
    sub: u8,
    lines: &mut Lines<'_, W>,
    finder: &mut F,
) -> io::Result<()>
    requires { IsPeer peer.old }
    ensures { IsPeer peer.new }
{
    lines.text(format_args!(" 0x1018:{sub} "))?;
    match upload_surely(ports, peer, IDENTITY, sub, TRIPS) {
        Ok(value) => {
            finder.identity(place, sub, value);
            put_value(value, lines)
        }
        Err(fault) => {
            finder.unidentified(place, sub, fault);
            put_fault(fault, lines)
        }
    }
}

//! The steps by which a slave is brought up.

ghost use Rattle.std.specs.Prelude.{◌≡◌, ◌≤◌, ◌<◌, true, false, Ok, Err, length, slice_get};
ghost use Rattle.ec_services.specs.Ask.{IsAsked, Talks, done, write};
ghost use Rattle.ec_services.specs.declared.fault.MasterFault.TheVariants.{Port};
ghost use Rattle.ec_run.specs.Step.{manager_number, fmmu_number, startup_number, register_write, holds};
ghost use Rattle.ec_run.specs.Step.{manager_talk, fmmu_talk, address_write, behind_question, is_answered};
ghost use Rattle.ec_run.specs.Step.{IsDone, IsPart, IsTried, SetsFmmuOn, SetsManagerOn, fmmu_question};
ghost use Rattle.ec_run.specs.Step.{is_last_of_fmmu, is_last_of_manager, manager_question, told_behind};

use crate::ask::{held_by, one_counted, one_or_two, put};
use crate::objects::write_startup;
use crate::wanted::{MAX_STARTUP, Wanted};
use ec_master::Ports;
use ec_regs::AlState;
use ec_regs::registers::{
    FMMU_BASE, FMMU_COUNT, FMMU_SIZE, STATION_ADDRESS, SYNC_MANAGER_ACTIVATE, SYNC_MANAGER_BASE,
    SYNC_MANAGER_COUNT, SYNC_MANAGER_SIZE,
};
use ec_services::{MasterFault, request, request_state};
use ec_wire::{Command, address_of};

/// How many bytes of a sync manager's record tell its area: start, length and control.
const AREA_BYTES: usize = 5;

/// Where the byte stands in a sync manager's record that switches it on.
const SWITCH_AT: usize = 6;

/// The most bytes of a record.
const MOST_BYTES: usize = 16;

/// How often AL status is read at the most until a slave is in a state that it was asked for (IEC 61158-6-12,
/// AL management), where nothing else is said.
pub const MOST_READS: u32 = 1000;

/// How many questions a step has behind its first one, at the most: a sync manager is set by four.
pub(crate) const MORE_QUESTIONS: u32 = 3;

/// How often a step is tried again that no slave answered: a frame may have been lost.
pub(crate) const MORE_TRIES: u32 = 19;

/// A step by which a slave is brought up. Numbers of sync managers and FMMUs are those of a slave, and begin
/// anew at `SYNC_MANAGER_COUNT` and `FMMU_COUNT`.
#[derive(Clone, Copy, PartialEq, Eq, Debug)]
pub enum Step {
    /// It is given its station address, by its place on the line.
    Station,
    /// It is given its station address by a copy that turns round at the broken link before the slave at this
    /// place; the slave as far from the other end, where there is one, takes that address too, and gets its
    /// own back afterwards.
    StationBehind(u16),
    /// It is given its station address by its place on the line, by a frame that no slave behind a broken
    /// link takes: one that circulates, which is destroyed where it turns round at a port 0.
    StationBefore,
    /// The sync manager with this number is switched off, its record is written, and it is read back.
    SyncManager(u8),
    /// The record of the FMMU with this number is written and read back.
    Fmmu(u8),
    /// The startup object with this number is written, if there is one; numbers begin anew at `MAX_STARTUP`.
    Startup(u8),
    /// It is asked for this state, which acknowledges an error that stands.
    State(AlState),
}

/// Which sync manager a number names.
fn manager_number(number: u8) -> usize
    ensures value { result ≡ manager_number number }
    ensures bound { result < SYNC_MANAGER_COUNT }
{
    usize::from(number) % SYNC_MANAGER_COUNT
}

/// Which FMMU a number names.
fn fmmu_number(number: u8) -> usize
    ensures value { result ≡ fmmu_number number }
    ensures bound { result < FMMU_COUNT }
{
    usize::from(number) % FMMU_COUNT
}

/// Which startup object a number names.
pub fn startup_number(number: u8) -> usize
    ensures value { result ≡ startup_number number }
    ensures bound { result < MAX_STARTUP }
{
    usize::from(number) % MAX_STARTUP
}

/// Writes bytes to a run of registers of one slave.
fn write_at<P: Ports>(
    ports: &mut P,
    station: u16,
    ado: u16,
    bytes: &[u8],
) -> Result<(), MasterFault>
    requires { length bytes.now ≤ MOST_BYTES }
    ensures asked { IsAsked P.trips ports.old (write {A = Unit {0}} (register_write station ado bytes.now))
        (done result) ports.new }
    ensures counted { result ≡ Err Port → P.failed ports.old < P.failed ports.new }
    ensures never_lower { P.failed ports.old ≤ P.failed ports.new }
{
    let sent = request(Command::Fpwr, address_of(station, ado), bytes);
    one_counted(&put(ports, &sent))
}

/// Reads a run of registers of one slave, which is to hold these bytes.
fn check_at<P: Ports>(
    ports: &mut P,
    station: u16,
    ado: u16,
    bytes: &[u8],
) -> Result<(), MasterFault>
    requires { length bytes.now ≤ MOST_BYTES }
    ensures asked { IsAsked P.trips ports.old (holds station ado bytes.now) (done result) ports.new }
    ensures counted { result ≡ Err Port → P.failed ports.old < P.failed ports.new }
    ensures never_lower { P.failed ports.old ≤ P.failed ports.new }
{
    let room = [0; MOST_BYTES];
    let sent = request(
        Command::Fprd,
        address_of(station, ado),
        &room[..bytes.len()],
    );
    held_by(bytes, &put(ports, &sent))
}

/// Switches a sync manager off, writes its record, and reads back what tells its area and whether it is
/// switched on: the other bytes are the slave's.
fn set_manager<P: Ports>(
    ports: &mut P,
    station: u16,
    number: usize,
    bytes: &[u8; 8],
) -> Result<(), MasterFault>
    requires { number < SYNC_MANAGER_COUNT }
    ensures talk { Talks P.trips ports.old (manager_talk station number bytes.now) (Ok tt) result ports.new }
    ensures counted { result ≡ Err Port → P.failed ports.old < P.failed ports.new }
    ensures never_lower { P.failed ports.old ≤ P.failed ports.new }
{
    let record = SYNC_MANAGER_BASE + SYNC_MANAGER_SIZE * number as u16;
    let switch = record + SYNC_MANAGER_ACTIVATE;
    write_at(ports, station, switch, &[0])?;
    write_at(ports, station, record, bytes)?;
    check_at(ports, station, record, &bytes[..AREA_BYTES])?;
    check_at(ports, station, switch, &[bytes[SWITCH_AT]])
}

/// Writes the record of an FMMU and reads it back.
fn set_fmmu<P: Ports>(
    ports: &mut P,
    station: u16,
    number: usize,
    bytes: &[u8; 16],
) -> Result<(), MasterFault>
    requires { number < FMMU_COUNT }
    ensures talk { Talks P.trips ports.old (fmmu_talk station number bytes.now) (Ok tt) result ports.new }
    ensures counted { result ≡ Err Port → P.failed ports.old < P.failed ports.new }
    ensures never_lower { P.failed ports.old ≤ P.failed ports.new }
{
    let record = FMMU_BASE + FMMU_SIZE * number as u16;
    write_at(ports, station, record, bytes)?;
    check_at(ports, station, record, bytes)
}

/// What a question tells behind which there is another one.
fn more(asked: Result<(), MasterFault>) -> Result<Option<()>, MasterFault>
    ensures { result ≡ told_behind false (done asked) }
{
    match asked {
        Ok(()) => Ok(None),
        Err(fault) => Err(fault),
    }
}

/// What the last question of a step tells.
fn last(asked: Result<(), MasterFault>) -> Result<Option<()>, MasterFault>
    ensures { result ≡ told_behind true (done asked) }
{
    match asked {
        Ok(()) => Ok(Some(())),
        Err(fault) => Err(fault),
    }
}

/// Asks the next of the questions by which a sync manager is set (`set_manager`), of which so many were
/// asked.
fn manager_part<P: Ports>(
    ports: &mut P,
    station: u16,
    number: usize,
    bytes: &[u8; 8],
    asked: u32,
) -> Result<Option<()>, MasterFault>
    requires { number < SYNC_MANAGER_COUNT }
    ensures part { IsPart P.trips ports.old (manager_question station number bytes.now asked)
        (is_last_of_manager asked) result ports.new }
    ensures never_lower { P.failed ports.old ≤ P.failed ports.new }
{
    let record = SYNC_MANAGER_BASE + SYNC_MANAGER_SIZE * number as u16;
    let switch = record + SYNC_MANAGER_ACTIVATE;
    if asked == 0 {
        more(write_at(ports, station, switch, &[0]))
    } else if asked == 1 {
        more(write_at(ports, station, record, bytes))
    } else if asked == 2 {
        more(check_at(ports, station, record, &bytes[..AREA_BYTES]))
    } else {
        last(check_at(ports, station, switch, &[bytes[SWITCH_AT]]))
    }
}

/// Asks the next of the questions by which an FMMU is set (`set_fmmu`), of which so many were asked.
fn fmmu_part<P: Ports>(
    ports: &mut P,
    station: u16,
    number: usize,
    bytes: &[u8; 16],
    asked: u32,
) -> Result<Option<()>, MasterFault>
    requires { number < FMMU_COUNT }
    ensures part { IsPart P.trips ports.old (fmmu_question station number bytes.now asked)
        (is_last_of_fmmu asked) result ports.new }
    ensures never_lower { P.failed ports.old ≤ P.failed ports.new }
{
    let record = FMMU_BASE + FMMU_SIZE * number as u16;
    if asked == 0 {
        more(write_at(ports, station, record, bytes))
    } else {
        last(check_at(ports, station, record, bytes))
    }
}

/// Asks the next of the questions by which the sync manager with this number is set, of which so many were
/// asked. `None` where there are more of them.
pub(crate) fn set_manager_on<P: Ports>(
    ports: &mut P,
    wanted: &Wanted,
    number: u8,
    asked: u32,
) -> Result<Option<()>, MasterFault>
    ensures sets { SetsManagerOn P.trips ports.old wanted.now.station (manager_number number)
        (slice_get wanted.now.managers (manager_number number)) asked result ports.new }
    ensures never_lower { P.failed ports.old ≤ P.failed ports.new }
{
    let number = manager_number(number);
    let record = wanted.manager(number).write();
    manager_part(ports, wanted.station, number, &record, asked)
}

/// Asks the next of the questions by which the FMMU with this number is set, of which so many were asked.
/// `None` where there is one more.
pub(crate) fn set_fmmu_on<P: Ports>(
    ports: &mut P,
    wanted: &Wanted,
    number: u8,
    asked: u32,
) -> Result<Option<()>, MasterFault>
    ensures sets { SetsFmmuOn P.trips ports.old wanted.now.station (fmmu_number number)
        (slice_get wanted.now.fmmus (fmmu_number number)) asked result ports.new }
    ensures never_lower { P.failed ports.old ≤ P.failed ports.new }
{
    let number = fmmu_number(number);
    let record = wanted.fmmu(number).write();
    fmmu_part(ports, wanted.station, number, &record, asked)
}

/// Gives a station address by place, by a frame that circulates or does not.
fn give_station<P: Ports>(
    ports: &mut P,
    place: u16,
    station: u16,
    circulating: bool,
) -> Result<(), MasterFault>
    ensures asked { IsAsked P.trips ports.old
        (write {A = Unit {0}} (address_write place station circulating)) (done result) ports.new }
    ensures counted { result ≡ Err Port → P.failed ports.old < P.failed ports.new }
    ensures never_lower { P.failed ports.old ≤ P.failed ports.new }
{
    let address = address_of(place.wrapping_neg(), STATION_ADDRESS);
    let mut sent = request(Command::Apwr, address, &station.to_le_bytes());
    sent.circulating = circulating;
    one_counted(&put(ports, &sent))
}

/// Gives a station address to the slave that is so far behind a broken link.
fn give_station_behind<P: Ports>(
    ports: &mut P,
    distance: u16,
    station: u16,
) -> Result<(), MasterFault>
    ensures asked { IsAsked P.trips ports.old (behind_question distance station) (done result) ports.new }
    ensures counted { result ≡ Err Port → P.failed ports.old < P.failed ports.new }
    ensures never_lower { P.failed ports.old ≤ P.failed ports.new }
{
    let address = address_of(distance.wrapping_neg(), STATION_ADDRESS);
    let sent = request(Command::Apwr, address, &station.to_le_bytes());
    one_or_two(&put(ports, &sent))
}

/// Does a step with the slave at a place, once.
pub(crate) fn take<P: Ports>(
    ports: &mut P,
    place: u16,
    wanted: &Wanted,
    step: Step,
) -> Result<(), MasterFault>
    ensures done { IsDone P.trips ports.old place wanted.now step result ports.new }
    ensures counted { result ≡ Err Port → P.failed ports.old < P.failed ports.new }
    ensures never_lower { P.failed ports.old ≤ P.failed ports.new }
{
    let station = wanted.station;
    match step {
        Step::Station => give_station(ports, place, station, false),
        Step::StationBehind(first) => {
            give_station_behind(ports, place.wrapping_sub(first), station)
        }
        Step::StationBefore => give_station(ports, place, station, true),
        Step::SyncManager(number) => {
            let number = manager_number(number);
            let record = wanted.manager(number).write();
            set_manager(ports, station, number, &record)
        }
        Step::Fmmu(number) => {
            let number = fmmu_number(number);
            let record = wanted.fmmu(number).write();
            set_fmmu(ports, station, number, &record)
        }
        Step::Startup(number) => write_startup(ports, wanted, startup_number(number)),
        Step::State(state) => request_state(ports, station, state, MOST_READS),
    }
}

/// Did some slave answer? Where none did, a frame may have been lost.
fn is_answered(done: Result<(), MasterFault>) -> bool
    ensures { result ≡ is_answered done }
{
    match done {
        Err(MasterFault::NoSlave) => false,
        _ => true,
    }
}

/// Does a step with the slave at a place, and again where no slave answered, at most `MORE_TRIES` times: each
/// step may be done twice.
pub(crate) fn try_step<P: Ports>(
    ports: &mut P,
    place: u16,
    wanted: &Wanted,
    step: Step,
) -> Result<(), MasterFault>
    ensures tried { IsTried P.trips ports.old place wanted.now step MORE_TRIES result ports.new }
    ensures counted { result ≡ Err Port → P.failed ports.old < P.failed ports.new }
    ensures never_lower { P.failed ports.old ≤ P.failed ports.new }
{
    for _try in 0..MORE_TRIES {
        let done = take(ports, place, wanted, step);
        if is_answered(done) {
            return done;
        }
    }
    take(ports, place, wanted, step)
}

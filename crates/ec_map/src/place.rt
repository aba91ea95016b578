//! Where an addressed item may go.

ghost use Rattle.std.specs.Prelude.{◌≡◌, ◌≤◌, ◌<◌, ℕ, true, List, OnOk, IfErr, MatchOption, length};
ghost use Rattle.std.specs.List.{list_any};
ghost use Rattle.ec_wire.specs.declared.datagram.TheConstants.{MAX_DATA};
ghost use Rattle.ec_areas.specs.Records.{sync_managers_of};
ghost use Rattle.ec_regs.specs.declared.registers.TheConstants.{SYNC_MANAGER_COUNT};
ghost use Rattle.ec_esc.specs.State.{ControllerState};
ghost use Rattle.ec_check.specs.Fit.{IsFit};
ghost use Rattle.ec_check.specs.Line.{controllers_by, controller_of, station_of};
ghost use Rattle.ec_map.specs.Item.{ItemRecord};
ghost use Rattle.ec_map.specs.Place.{station_named, ado_named, holds_run, is_input_run, is_output_run};
ghost use Rattle.ec_map.specs.Place.{may_read, may_write, HasNoStation, IsFirstOfStation, IsPlaceFault};
ghost use Rattle.ec_map.specs.Place.{IsPlaced};

use crate::item::Item;
use ec_check::Mapped;
use ec_regs::registers::{PROCESS_MEMORY, SYNC_MANAGER_COUNT};
use ec_regs::{AddressRange, SyncMan};
use ec_wire::{Kind, ado_of, adp_of};

/// An addressed item that goes where a cycle may not. It names the slave, the first one of the item's
/// station, and the item's ADO.
#[derive(Clone, Copy, PartialEq, Eq, Debug)]
pub enum PlaceFault {
    /// A read lies neither in the registers nor in one active buffered area that the master reads.
    OutsideRead {
        /// The slave.
        slave: usize,
        /// The first address that is read.
        address: u16,
    },
    /// A write does not lie in one active buffered area that the master writes.
    OutsideWrite {
        /// The slave.
        slave: usize,
        /// The first address that is written.
        address: u16,
    },
}

/// Does the item go where a cycle may? Logical items and broadcast reads always do, and so does one that is
/// addressed to a station that is not on the line.
pub fn check_item<S: Mapped>(line: &[S], item: &Item) -> Result<(), PlaceFault>
    ensures accepted { OnOk result (IsPlaced (controllers_by S.controller line.now) item.now) }
    ensures refused { IfErr result (IsPlaceFault (controllers_by S.controller line.now) item.now) }
{
    match item.kind() {
        Kind::Fprd => check_read(line, item),
        Kind::Fpwr => check_write(line, item),
        Kind::Lrd | Kind::Lwr | Kind::Lrw | Kind::Brd => Ok(()),
    }
}

/// May the addressed read go where it goes?
fn check_read<S: Mapped>(line: &[S], item: &Item) -> Result<(), PlaceFault>
    requires { item.now.kind ≡ Kind.Fprd }
    ensures accepted { OnOk result (IsPlaced (controllers_by S.controller line.now) item.now) }
    ensures refused { IfErr result (IsPlaceFault (controllers_by S.controller line.now) item.now) }
{
    let Some(slave) = first_of_station(line, station_named(item)) else {
        return Ok(());
    };
    let address = ado_named(item);
    if may_read(&line[slave], address, item.len()) {
        return Ok(());
    }
    Err(PlaceFault::OutsideRead { slave, address })
}

/// May the addressed write go where it goes?
fn check_write<S: Mapped>(line: &[S], item: &Item) -> Result<(), PlaceFault>
    requires { item.now.kind ≡ Kind.Fpwr }
    ensures accepted { OnOk result (IsPlaced (controllers_by S.controller line.now) item.now) }
    ensures refused { IfErr result (IsPlaceFault (controllers_by S.controller line.now) item.now) }
{
    let Some(slave) = first_of_station(line, station_named(item)) else {
        return Ok(());
    };
    let address = ado_named(item);
    if may_write(&line[slave], address, item.len()) {
        return Ok(());
    }
    Err(PlaceFault::OutsideWrite { slave, address })
}

/// The station that an addressed item names.
fn station_named(item: &Item) -> u16
    ensures { result ≡ station_named item.now }
{
    adp_of(item.address())
}

/// The first byte of the memory that an addressed item names.
fn ado_named(item: &Item) -> u16
    ensures { result ≡ ado_named item.now }
{
    ado_of(item.address())
}

/// The first slave with a station address.
fn first_of_station<S: Mapped>(line: &[S], station: u16) -> Option<usize>
    ensures { MatchOption result (HasNoStation (controllers_by S.controller line.now) station)
        (IsFirstOfStation (controllers_by S.controller line.now) station) }
{
    for slave in 0..line.len() {
        if line[slave].station() == station {
            return Some(slave);
        }
    }
    None
}

/// May a cycle read that many bytes from an address on?
fn may_read<S: Mapped>(slave: &S, from: u16, count: usize) -> bool
    requires { count ≤ MAX_DATA }
    ensures { result ≡ may_read (S.controller slave.now) from count }
{
    let to = usize::from(from) + count;
    to <= usize::from(PROCESS_MEMORY) || lies_in_inputs(slave, from, count)
}

/// May a cycle write that many bytes from an address on?
fn may_write<S: Mapped>(slave: &S, from: u16, count: usize) -> bool
    requires { count ≤ MAX_DATA }
    ensures { result ≡ may_write (S.controller slave.now) from count }
{
    for number in 0..SYNC_MANAGER_COUNT {
        if is_output_run(&slave.sync_manager(number), from, count) {
            return true;
        }
    }
    false
}

/// Do that many bytes lie in one active buffered area that the master reads?
fn lies_in_inputs<S: Mapped>(slave: &S, from: u16, count: usize) -> bool
    requires { count ≤ MAX_DATA }
    ensures { result
        ≡ list_any (is_input_run from count) (sync_managers_of (S.controller slave.now).memory) }
{
    for number in 0..SYNC_MANAGER_COUNT {
        if is_input_run(&slave.sync_manager(number), from, count) {
            return true;
        }
    }
    false
}

/// Does the sync manager guard inputs, and hold that many bytes from an address on?
fn is_input_run(manager: &SyncMan, from: u16, count: usize) -> bool
    requires { count ≤ MAX_DATA }
    ensures { result ≡ is_input_run from count manager.now }
{
    manager.guards_inputs() && holds_run(manager, from, count)
}

/// Does the sync manager guard outputs, and hold that many bytes from an address on?
fn is_output_run(manager: &SyncMan, from: u16, count: usize) -> bool
    requires { count ≤ MAX_DATA }
    ensures { result ≡ is_output_run from count manager.now }
{
    manager.guards_outputs() && holds_run(manager, from, count)
}

/// Does the area of the sync manager hold that many bytes from an address on?
fn holds_run(manager: &SyncMan, from: u16, count: usize) -> bool
    requires { count ≤ MAX_DATA }
    ensures { result ≡ holds_run manager.now from count }
{
    let run = AddressRange {
        first: from,
        count: count as u16,
    };
    manager.area().holds(&run)
}

/// On a fit line an item that is accepted goes where a cycle may, at the slave of its station.
pub fn placed_item()
    ensures reads { (line : List ControllerState) (r : ItemRecord) (slave : ℕ) → IsFit line → IsPlaced line r
        → r.kind ≡ Kind.Fprd → slave < length line → station_of line slave ≡ station_named r
        → may_read (controller_of line slave) (ado_named r) (length r.payload) ≡ true }
    ensures writes { (line : List ControllerState) (r : ItemRecord) (slave : ℕ) → IsFit line → IsPlaced line r
        → r.kind ≡ Kind.Fpwr → slave < length line → station_of line slave ≡ station_named r
        → may_write (controller_of line slave) (ado_named r) (length r.payload) ≡ true }
{}

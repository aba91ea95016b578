//! Station addresses by place on the line.

ghost use Rattle.std.specs.Prelude.{◌≡◌, ◌≤◌, ◌<◌, IfOk, Ok, Err, Option, List, length, ◌+◌};
ghost use Rattle.std.specs.Borrow.{Bor};
ghost use Rattle.std.specs.Option.{option_copied};
ghost use Rattle.ec_wire.specs.Datagram.{DatagramRecord};
ghost use Rattle.ec_ring.specs.declared.links.TheConstants.{MAX_SLAVES};
ghost use Rattle.ec_services.specs.Ask.{Asks, IsAsked, write, done};
ghost use Rattle.ec_services.specs.Stations.{status_broadcast, counted_on, is_broken, slave_count};
ghost use Rattle.ec_services.specs.Stations.{adp_of_place, station_write, AreAssigned, IsCounted};
ghost use Rattle.ec_services.specs.declared.fault.MasterFault.TheVariants.{Port};

use crate::asking::{Back, ask, request, write};
use crate::fault::MasterFault;
use ec_master::Ports;
use ec_regs::registers::{AL_STATUS, STATION_ADDRESS};
use ec_ring::{Came, MAX_SLAVES};
use ec_wire::{Command, FrameBuf, address_of};

/// How many slaves counted on a copy.
fn counted_on(copy: &Option<FrameBuf>) -> u16
    ensures { result ≡ counted_on copy.now }
{
    match copy {
        Some(frame) if frame.count() > 0 => frame.counter(0),
        _ => 0,
    }
}

/// Is the cable broken?
fn is_broken(came: &Came) -> bool
    ensures { result ≡ is_broken came.now }
{
    came.a.is_none() || came.b.is_none() || counted_on(&came.a) > 0 && counted_on(&came.b) > 0
}

/// How many slaves there are, by what came back of the broadcast read.
fn slave_count(back: &Back) -> Result<u16, MasterFault>
    requires { length back.now.joined ≡ 1 }
    ensures { result ≡ slave_count (Ok back.now) }
{
    if is_broken(&back.came) {
        return Err(MasterFault::Broken);
    }
    let count = back.joined.counter(0);
    if count == 0 {
        Err(MasterFault::NoSlave)
    } else if usize::from(count) > MAX_SLAVES {
        Err(MasterFault::BadAnswer)
    } else {
        Ok(count)
    }
}

/// Counts the slaves by a broadcast read of AL status.
fn count_slaves<P: Ports>(ports: &mut P) -> Result<u16, MasterFault>
    ensures counting { IsCounted P.trips ports.old result ports.new }
    ensures limit { IfOk result (λ count. count ≤ MAX_SLAVES) }
    ensures counted { result ≡ Err Port → P.failed ports.old < P.failed ports.new }
    ensures never_lower { P.failed ports.old ≤ P.failed ports.new }
{
    let sent = request(Command::Brd, address_of(0, AL_STATUS), &[0; 2]);
    slave_count(&ask(ports, &sent)?)
}

/// Writes its station address to the slave at a place.
fn write_station<P: Ports>(ports: &mut P, place: u16, station: u16) -> Result<(), MasterFault>
    ensures asked { IsAsked P.trips ports.old (write {A = Unit {0}} (station_write place station))
        (done result) ports.new }
    ensures counted { result ≡ Err Port → P.failed ports.old < P.failed ports.new }
    ensures never_lower { P.failed ports.old ≤ P.failed ports.new }
{
    let address = address_of(place.wrapping_neg(), STATION_ADDRESS);
    let sent = request(Command::Apwr, address, &station.to_le_bytes());
    write(ports, &sent)
}

/// Writes station addresses to the places of the line, rising from `first`, and answers how many slaves were
/// counted (IEC 61158-4-12, configured station address). A broadcast read of AL status counts them;
/// then each is written to by its place. It takes no memory.
///
/// A trip that fails is `Port`, and a copy of another frame `Stranger`. Then, by the broadcast read: `Broken`
/// where a copy is missing or slaves counted on both, `NoSlave` where none counted, `BadAnswer` where more
/// than 256 did. By the write to a slave: `NoSlave` where it came back with the working counter 0,
/// `BadAnswer` where with more than 1; those before it were counted once each.
pub fn assign_stations<P: Ports>(ports: &mut P, first: u16) -> Result<u16, MasterFault>
    requires { first ≤ 65000 }
    ensures service { AreAssigned P.trips ports.old first result ports.new }
    ensures counted { result ≡ Err Port → P.failed ports.old < P.failed ports.new }
    ensures never_lower { P.failed ports.old ≤ P.failed ports.new }
{
    let count = count_slaves(ports)?;
    for place in 0..count {
        write_station(ports, place, first + place)?;
    }
    Ok(count)
}

//! Lines of slaves as the tests make them.

ghost use Rattle.std.specs.Prelude.{◌≤◌};

use ec_app::{Objects, Rights, Slave, Value};
use ec_map::{Item, Kind};
use ec_master::Work;
use ec_regs::{AlState, Fmmu, SyncMan};
use ec_ring::Ring;
use ec_run::{Wanted, add_states, wanted_of};
use std::alloc::Global;
use std::process::Abort;

/// A slave in Init with an object that is read and one of two bytes that is written, a byte of outputs and a
/// byte of inputs, and nothing set.
fn bare(rt: &impl Abort, alloc: Global, station: u16) -> Slave {
    let mut objects = Objects::new();
    let added = objects.add(0x1018, 1, Rights::ReadOnly, Value::Four(2));
    assert!(rt; added.is_ok());
    let added = objects.add(0x8000, 1, Rights::Both, Value::Two(0));
    assert!(rt; added.is_ok());
    Slave::new(alloc, station, objects, 1, 1).expect(rt, "memory")
}

/// The slave at a place as the scene has it: requests at 0x1800, answers at 0x1880, its outputs at 0x1000,
/// its inputs at 0x1100; both lie at the logical byte 0x10000 and its place.
fn set(rt: &impl Abort, alloc: Global, place: u16) -> Slave
    requires { place ≤ 255 }
{
    let mut slave = bare(rt, alloc, 0x1001 + place);
    let controller = slave.controller_mut();
    controller.set_syncman(0, &SyncMan::mailbox_from_master(0x1800, 32));
    controller.set_syncman(1, &SyncMan::mailbox_to_master(0x1880, 32));
    controller.set_syncman(2, &SyncMan::outputs(0x1000, 1));
    controller.set_syncman(3, &SyncMan::inputs(0x1100, 1));
    let logical = 0x10000 + u32::from(place);
    controller.set_fmmu(0, &Fmmu::writing(logical, 1, 0x1000));
    controller.set_fmmu(1, &Fmmu::reading(logical, 1, 0x1100));
    slave
}

/// What three slaves are to be told.
pub fn wanted(rt: &impl Abort, alloc: Global) -> Vec<Wanted> {
    let mut line = Vec::new(alloc);
    for place in 0..3 {
        let pushed = line.push(set(rt, alloc, place));
        assert!(rt; pushed.is_ok());
    }
    wanted_of(alloc, line.as_slice()).expect(rt, "memory")
}

/// A ring of so many slaves that were told nothing, at most three, whose inputs are 0xA0 and their places.
pub fn ring(rt: &impl Abort, alloc: Global, count: u16) -> Ring
    requires { count ≤ 3 }
{
    let mut line = Vec::new(alloc);
    for place in 0..count {
        let mut slave = bare(rt, alloc, 0);
        slave.controller_mut().load(0x1100, &[0xA0 + place as u8]);
        let pushed = line.push(slave);
        assert!(rt; pushed.is_ok());
    }
    Ring::new(line).ok().expect(rt, "no more than the most")
}

/// One exchange of the three bytes: each slave is to count 3.
pub fn exchange(rt: &impl Abort) -> Work {
    let mut work = Work::new();
    let item = Item::new(Kind::Lrw, 0x10000, &[0x11, 0x22, 0x33]).expect(rt, "an item");
    let pushed = work.push(item);
    assert!(rt; pushed.is_ok());
    work
}

/// That exchange and the read of the states, which each slave counts once.
pub fn work(rt: &impl Abort) -> Work {
    let mut work = exchange(rt);
    assert!(rt; add_states(&mut work));
    work
}

/// What is expected of the counter of the exchange.
pub const EXCHANGED: [u16; 1] = [9];

/// What is expected of the counters of both.
pub const EXPECTED: [u16; 2] = [9, 3];

/// The state and the station address of the slave at a place, where there is one.
pub fn shown(ring: &Ring, place: usize) -> Option<(AlState, u16)> {
    let slave = ring.slaves().get(place)?;
    let controller = slave.controller();
    Some((slave.state(), controller.station()))
}

/// What the object holds that is written of the slave at a place, where there is one.
pub fn held(ring: &Ring, place: usize) -> Option<Value> {
    let (_, value) = ring.slaves().get(place)?.objects().get(0x8000, 1)?;
    Some(value)
}

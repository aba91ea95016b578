//! Station addresses on a ring of three slaves, by the law of them and by what the slaves then have.

ghost use Rattle.std.specs.Prelude.{◌≡◌, ◌≤◌, ℕ, true, ◌++◌, [], ◌∷◌, List, length, map, Ok};
ghost use Rattle.std.specs.List.{range_with_len};
ghost use Rattle.ec_ring.specs.Links.{is_up};
ghost use Rattle.ec_over_ring.specs.Stations.{HasSlaves, station_of};
ghost use Rattle.ec_over_ring.specs.Transfers.{IsSlave};

use crate::asserts::assert_same;
use ec_app::{Objects, Slave};
use ec_master::RingPorts;
use ec_over_ring::stations::stations_over_ring;
use ec_ring::Ring;
use ec_services::{MasterFault, assign_stations};
use std::alloc::Global;
use std::process::Abort;

/// A slave in Init without objects.
fn fresh(rt: &impl Abort, alloc: Global) -> Slave
    ensures { IsSlave result }
{
    let slave = Slave::new(alloc, 0x3000, Objects::new(), 0, 0).expect(rt, "memory");
    // For the prover: one whose station is read is a controller.
    let _station = slave.controller().station();
    slave
}

/// A line with one slave more.
fn longer(rt: &impl Abort, line: Vec<Slave>, slave: Slave) -> Vec<Slave>
    ensures { result.items ≡ line.items ++ slave ∷ [] }
{
    let mut line = line;
    let pushed = line.push(slave);
    assert!(rt; pushed.is_ok());
    line
}

/// Three slaves without objects on a ring with all links up: the law of station addresses applies to it.
fn fresh_ports(rt: &impl Abort, alloc: Global) -> RingPorts
    ensures slaves { HasSlaves result }
    ensures three { length result.slaves ≡ 3 }
    ensures up { (k : ℕ) → is_up result.links k ≡ true }
{
    let line = longer(rt, Vec::new(alloc), fresh(rt, alloc));
    let line = longer(rt, line, fresh(rt, alloc));
    let line = longer(rt, line, fresh(rt, alloc));
    RingPorts::new(Ring::new(line).ok().expect(rt, "no more than the most"))
}

/// Station addresses on such a ring, and the law of them.
fn assigned(rt: &impl Abort, alloc: Global, first: u16) -> (Result<u16, MasterFault>, RingPorts)
    requires { first ≤ 65000 }
    ensures result { result.0 ≡ Ok 3 }
    ensures stations { map station_of result.1.slaves ≡ range_with_len first 3 }
{
    stations_over_ring();
    let mut ports = fresh_ports(rt, alloc);
    let result = assign_stations(&mut ports, first);
    (result, ports)
}

/// The station addresses of three slaves.
fn stations(ports: &RingPorts) -> [Option<u16>; 3] {
    let slaves = ports.ring().slaves();
    [
        slaves.get(0).map(|slave| slave.controller().station()),
        slaves.get(1).map(|slave| slave.controller().station()),
        slaves.get(2).map(|slave| slave.controller().station()),
    ]
}

#[test]
fn each_slave_has_the_address_of_its_place(rt: HostRuntime) {
    let (result, ports) = assigned(&rt, rt.alloc(), 0x1001);
    assert_same(&rt, result, Ok(3));
    let wanted = [Some(0x1001), Some(0x1002), Some(0x1003)];
    assert_same(&rt, stations(&ports), wanted);
}

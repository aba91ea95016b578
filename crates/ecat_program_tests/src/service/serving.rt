//! A line that is served, over ends in memory of which one call may fail.

ghost use Rattle.ecat_serve.specs.Ends.{any_receive, any_send};

use crate::outputs::{NoRoom, ROOM, written};
use ec_master::PortFault;
use ec_ring::Port;
use ec_wire::PACKET_ROOM;
use ecat_scene::Scene;
use ecat_serve::{Arrived, Ends, Served};
use ecat_service::{Service, line_to_serve, serve};
use ecat_setup::LineFailure;
use std::alloc::Global;
use std::io::Cursor;
use std::net::{Ipv4Addr, SocketAddr};

/// A slave that takes a byte, and a cable behind it that is broken.
const LINE: &[u8] =
    b"slave 0x1001\nsm 2 0x1000 1 write\nfmmu 0 0x10000 1 0 7 0x1000 0 write\nlink 1 down\nlrw 0x10000 ff\n";

/// An LWR of AA, as a master sends it.
const SENT: [u8; 15] = [
    0x0D, 0x10, 0x0B, 0x00, 0x00, 0x00, 0x01, 0x00, 0x01, 0x00, 0x00, 0x00, 0xAA, 0x00, 0x00,
];

/// What is printed where the line lies.
const SERVING: &[u8] = b"serving A 127.0.0.1:34980 B 127.0.0.1:34981\n";

/// Ends to which one frame comes, and then one packet that is none; one of their calls may fail.
#[derive(Drop)]
struct Two {
    calls: usize,
    failing: usize,
    received: usize,
}

impl Two {
    /// Ends whose call of this number fails, from 1 on, and none where it is 0.
    fn new(failing: usize) -> Two {
        Two {
            calls: 0,
            failing,
            received: 0,
        }
    }

    /// Counts a call, and fails where it is to fail.
    fn call(&mut self) -> Result<(), PortFault> {
        self.calls = self.calls.wrapping_add(1);
        if self.calls == self.failing {
            return Err(PortFault);
        }
        Ok(())
    }
}

impl Ends for Two {
    ghost receives = { any_receive };

    ghost sends = { any_send };

    fn receive(&mut self, into: &mut [u8; PACKET_ROOM]) -> Result<Option<Arrived>, PortFault> {
        self.call()?;
        self.received = self.received.wrapping_add(1);
        let count = match self.received {
            1 => SENT.len(),
            2 => 3,
            _ => return Ok(None),
        };
        into[..SENT.len()].copy_from_slice(&SENT);
        Ok(Some(Arrived {
            at: Port::A,
            from: SocketAddr::from((Ipv4Addr::LOCALHOST, 1)),
            count,
        }))
    }

    fn send(&mut self, _from: Port, _to: SocketAddr, _bytes: &[u8]) -> Result<(), PortFault> {
        self.call()
    }
}

/// A service on this machine, of as many packets as come.
const SERVICE: Service = Service {
    address: Ipv4Addr::LOCALHOST,
    port: 34980,
    packets: None,
    forever: false,
    control: false,
    log: false,
    plain: false,
    set_up: true,
    raw: None,
};

/// The line as it is served; none where memory ran out.
fn line_of(alloc: Global) -> Option<Served> {
    let scene = Scene::read(alloc, LINE).ok()?;
    line_to_serve(alloc, SERVICE, scene, Vec::new(alloc)).ok()
}

#[test]
fn each_call_that_fails_ends_the_service(rt: HostRuntime) {
    for failing in 1..5usize {
        let mut printed = Cursor::new([0u8; ROOM]);
        let mut complained = Cursor::new([0u8; ROOM]);
        if let Some(served) = line_of(rt.alloc()) {
            let mut ends = Two::new(failing);
            let done = serve(served, SERVICE, &mut ends, &mut printed, &mut complained);
            assert!(rt; matches!(done, Err(LineFailure::Port)), "call {failing}");
            assert!(rt; written(&printed) == SERVING && written(&complained).is_empty());
        }
    }
}

/// Where nothing can be printed nothing is received.
#[test]
fn an_output_that_fails_ends_the_service(rt: HostRuntime) {
    if let Some(served) = line_of(rt.alloc()) {
        let mut complained = Cursor::new([0u8; ROOM]);
        let mut ends = Two::new(0);
        let done = serve(served, SERVICE, &mut ends, &mut NoRoom, &mut complained);
        assert!(rt; matches!(done, Err(LineFailure::Output)));
        assert!(rt; ends.calls == 0 && written(&complained).is_empty());
    }
}

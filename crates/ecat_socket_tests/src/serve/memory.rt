//! Ends in memory, to which packets come one after the other, and one of whose calls may fail.

ghost use Rattle.ecat_serve.specs.Ends.{any_receive, any_send};

use crate::asserts::assert_found;
use crate::serve::line::Spelling;
use ec_ring::{Port, PortFault};
use ec_wire::PACKET_ROOM;
use ecat_serve::{Arrived, Counts, Ends, Served};
use std::net::{Ipv4Addr, SocketAddr};
use std::process::Abort;

/// A packet of sixteen bytes at an end, and the port of somebody who sent it or to whom it is sent.
#[derive(Clone, Copy)]
pub struct Packet {
    pub at: Port,
    pub peer: u16,
    pub spelling: Spelling,
}

/// A packet that was sent from an end to somebody's port.
#[derive(Clone, Copy, PartialEq, Eq, Debug)]
pub struct Sent {
    from: Port,
    peer: u16,
    bytes: [u8; 16],
}

/// Ends that write down what is sent.
#[derive(Drop)]
pub struct MemoryEnds {
    coming: &'static [Packet],
    received: usize,
    sent: [Option<Sent>; 4],
    count: usize,
    calls: usize,
    failing: usize,
}

impl MemoryEnds {
    /// Ends to which these packets come; the call of this number fails, from 1 on, none where it is 0.
    pub fn new(coming: &'static [Packet], failing: usize) -> MemoryEnds {
        MemoryEnds {
            coming,
            received: 0,
            sent: [None; 4],
            count: 0,
            calls: 0,
            failing,
        }
    }

    /// Asserts that these packets alone were sent, at most four, and how many calls were made.
    pub fn assert_sent(&self, rt: &impl Abort, row: &str, wanted: &[Packet], calls: usize) {
        for (place, found) in self.sent.iter().enumerate() {
            let wanted = match wanted.get(place) {
                Some(packet) => Some(Sent {
                    from: packet.at,
                    peer: packet.peer,
                    bytes: packet.spelling.bytes(),
                }),
                None => None,
            };
            assert_found(rt, row, *found, wanted);
        }
        assert_found(rt, row, self.calls, calls);
    }

    /// Counts a call, and fails where it is to fail.
    fn call(&mut self) -> Result<(), PortFault> {
        self.calls = self.calls.wrapping_add(1);
        if self.calls == self.failing {
            return Err(PortFault);
        }
        Ok(())
    }
}

impl Ends for MemoryEnds {
    ghost receives = { any_receive };

    ghost sends = { any_send };

    fn receive(&mut self, into: &mut [u8; PACKET_ROOM]) -> Result<Option<Arrived>, PortFault> {
        self.call()?;
        let Some(packet) = self.coming.get(self.received) else {
            return Ok(None);
        };
        self.received = self.received.wrapping_add(1);
        into[..16].copy_from_slice(&packet.spelling.bytes());
        Ok(Some(Arrived {
            at: packet.at,
            from: SocketAddr::from((Ipv4Addr::LOCALHOST, packet.peer)),
            count: 16,
        }))
    }

    fn send(&mut self, from: Port, to: SocketAddr, bytes: &[u8]) -> Result<(), PortFault> {
        self.call()?;
        let mut sent = Sent {
            from,
            peer: to.port(),
            bytes: [0; 16],
        };
        if bytes.len() == 16 {
            sent.bytes.copy_from_slice(bytes);
        }
        if let Some(place) = self.sent.get_mut(self.count) {
            *place = Some(sent);
        }
        self.count = self.count.wrapping_add(1);
        Ok(())
    }
}

/// What comes to a line, and how it is served.
#[derive(Clone, Copy)]
pub struct Service {
    /// What comes.
    pub coming: &'static [Packet],
    /// How many packets are served at most.
    pub most: u64,
    /// The number of the call that fails, none where it is 0.
    pub failing: usize,
    /// How many packets are frames and how many are dropped, `None` where a call fails.
    pub counts: Option<(u64, u64)>,
    /// What is sent.
    pub sent: &'static [Packet],
    /// How many calls are made.
    pub calls: usize,
}

/// Asserts that a line serves what comes as a row says.
pub fn assert_served(rt: &impl Abort, served: &mut Served, row: &str, service: &Service) {
    let mut ends = MemoryEnds::new(service.coming, service.failing);
    let counts = served.serve(&mut ends, service.most);
    assert_counts(rt, row, counts, service.counts);
    ends.assert_sent(rt, row, service.sent, service.calls);
}

/// Asserts how many packets came that are frames and how many that are none, or that a call failed.
pub fn assert_counts(
    rt: &impl Abort,
    row: &str,
    found: Result<Counts, PortFault>,
    wanted: Option<(u64, u64)>,
) {
    let wanted = match wanted {
        Some((frames, dropped)) => Ok(Counts { frames, dropped }),
        None => Err(PortFault),
    };
    assert_found(rt, row, found, wanted);
}

//! Packets that are written down, in the place of a line.

ghost use Rattle.std.specs.Prelude.{◌≡◌, ◌-◌, ◌≤◌, ◌<◌, length, take, drop, true};
ghost use Rattle.ecat_remote.specs.Tape.{first_in, behind_first};

use crate::carrier::{Carrier, copy_front};
use crate::ready::Ready;
use ec_ring::{Port, PortFault};
use ec_wire::PACKET_ROOM;

/// Packets that are written down, one behind the other and all of one size: each receive gives the next one,
/// at whatever port it is, and none once all were given. What is sent is lost. So it is known which packets a
/// trip was given: those that were not given before it.
#[derive(Drop)]
pub struct Tape<'a> {
    rest: &'a [u8],
    size: usize,
    whole: usize,
}

impl<'a> Tape<'a> {
    /// The packets of so many bytes each that stand in these bytes, of which none was given yet.
    pub fn new(bytes: &'a [u8], size: usize) -> Tape<'a>
        ensures rest { result.rest.now ≡ bytes.now }
        ensures size { result.size ≡ size }
        ensures whole { result.whole ≡ length bytes.now }
    {
        Tape {
            rest: bytes,
            size,
            whole: bytes.len(),
        }
    }
}

impl<'a> Carrier for Tape<'a> {
    ghost failed = { λ tape. 0 };

    ghost gives = { λ before at packet later. (packet ≡ first_in before.rest.now before.size)
        × (later.rest.now ≡ behind_first before.rest.now before.size)
        × (later.size ≡ before.size) × (later.whole ≡ before.whole) };

    // by how many bytes were given, receives are told apart
    ghost heard = { λ tape. tape.whole - length tape.rest.now };

    ghost speaks = { λ tape at. true };

    fn speaks(&self, _at: Port) -> bool {
        true
    }

    fn send(&mut self, _from: Port, _bytes: &[u8]) -> Result<(), PortFault> {
        Ok(())
    }

    fn wait(&self, _within: u64) -> Ready {
        Ready::both()
    }

    fn receive(
        &mut self,
        _at: Port,
        into: &mut [u8; PACKET_ROOM],
        _within: u64,
    ) -> Result<Option<usize>, PortFault> {
        if self.rest.len() < self.size {
            return Ok(None);
        }
        let (packet, rest) = self.rest.split_at(self.size);
        self.rest = rest;
        Ok(Some(copy_front(packet, into)))
    }

    fn failures(&self) -> u64 {
        0
    }
}

//! A frame: its bytes, seen as the list of its datagrams (IEC 61158-4-12, frame structure).

ghost use Rattle.std.specs.Prelude.{◌≡◌, ℕ, ◌+◌, ◌*◌, ◌%◌, ◌/◌, ◌<◌, ◌≤◌, List, length, take, slice_set};
ghost use Rattle.std.specs.Prelude.{slice_index_or};
ghost use Rattle.ec_wire.specs.Datagram.{nth, record_of, adp, ado};
ghost use Rattle.ec_wire.specs.Spelling.{spelling, IsFrameValue};
ghost use Rattle.ec_wire.specs.Frame.{start_of};

use crate::address::{ado_of, adp_of};
use crate::cells::Cells;
use crate::command::Command;
use crate::datagram::{Datagram, MAX_DATA};
use crate::layout::{ADDRESS, CIRCULATING, HEAD, INDEX, IRQ, LENGTH, LENGTHS, OVERHEAD};
use arrayvec::ArrayVec;
use std::marker::Model;

/// The most bytes of a frame: an Ethernet payload.
pub const MAX_FRAME: usize = 1500;

/// Room for a packet: one byte more than a frame has, so that a longer packet is seen to be none.
pub const PACKET_ROOM: usize = MAX_FRAME + 1;

/// The most datagrams of a frame: each takes at least twelve bytes.
pub const MAX_DATAGRAMS: usize = 124;

/// A frame in place: at least one datagram, at most 1,500 bytes, always spelt as IEC 61158-4-12
/// says. Contracts see it as the list of its datagrams' records.
#[derive(Drop)]
pub struct FrameBuf {
    pub(crate) cells: Cells<MAX_FRAME>,
    pub(crate) size: usize,
    pub(crate) starts: ArrayVec<u16, MAX_DATAGRAMS>,
}

impl Model for FrameBuf {
    ghost use Rattle.std.specs.Prelude.{List};
    ghost use Rattle.ec_wire.specs.Datagram.{DatagramRecord};

    ghost Value = { List DatagramRecord };

    ghost use Rattle.ec_wire.specs.Frame.{records_at, Keeps};

    ghost view = { λ f. records_at f.cells.bytes f.starts.items };

    ghost invariant = { λ f.
        Keeps f.cells.bytes f.size f.starts.items (records_at f.cells.bytes f.starts.items) };
}

impl FrameBuf {
    /// The number of datagrams, 1 to 124. (Its clause `value` is what a proof knows of every frame.)
    pub fn count(&self) -> usize
        ensures count { result ≡ length self.now }
        ensures value { IsFrameValue self.now }
    {
        self.starts.len()
    }

    /// The frame's bytes, without padding.
    pub fn bytes(&self) -> &[u8]
        ensures { result.now ≡ spelling self.now }
    {
        &self.cells.as_slice()[..self.size]
    }

    /// Where the datagram at `k` begins.
    pub(crate) fn start(&self, k: usize) -> usize
        requires { k < length self.now }
        ensures value { result ≡ start_of self.now k }
        ensures room { result + OVERHEAD + length (nth self.now k).payload ≤ MAX_FRAME }
        ensures count { length self.now ≤ MAX_DATAGRAMS }
    {
        usize::from(self.starts[k])
    }

    /// The number of data bytes of the datagram at `k`.
    pub(crate) fn data_len(&self, k: usize) -> usize
        requires { k < length self.now }
        ensures { result ≡ length (nth self.now k).payload }
    {
        let at = self.start(k) + LENGTH;
        usize::from(self.cells.word(at) % LENGTHS)
    }

    /// The command of the datagram at `k`.
    pub fn command(&self, k: usize) -> Command
        requires { k < length self.now }
        ensures { result ≡ (nth self.now k).command }
    {
        let at = self.start(k);
        Command::from_code(self.cells.as_slice()[at]).unwrap()
    }

    /// The index of the datagram at `k`.
    pub fn index(&self, k: usize) -> u8
        requires { k < length self.now }
        ensures { result ≡ (nth self.now k).index }
    {
        let at = self.start(k) + INDEX;
        self.cells.as_slice()[at]
    }

    /// The address of the datagram at `k`: logical, or ADP plus 65,536 times ADO.
    pub fn address(&self, k: usize) -> u32
        requires { k < length self.now }
        ensures { result ≡ (nth self.now k).address }
    {
        let at = self.start(k) + ADDRESS;
        self.cells.double_word(at)
    }

    /// The low half of the address of the datagram at `k`: of a physical command the ADP, which names the
    /// slave.
    pub fn adp(&self, k: usize) -> u16
        requires { k < length self.now }
        ensures { result ≡ adp (nth self.now k) }
    {
        adp_of(self.address(k))
    }

    /// The high half of the address of the datagram at `k`: of a physical command the ADO, the first address
    /// in the slave's memory.
    pub fn ado(&self, k: usize) -> u16
        requires { k < length self.now }
        ensures { result ≡ ado (nth self.now k) }
    {
        ado_of(self.address(k))
    }

    /// The circulating bit of the datagram at `k`.
    pub fn circulating(&self, k: usize) -> bool
        requires { k < length self.now }
        ensures { result ≡ (nth self.now k).circulating }
    {
        let at = self.start(k) + LENGTH;
        self.cells.word(at) / CIRCULATING % 2 == 1
    }

    /// The event requests of the datagram at `k`.
    pub fn irq(&self, k: usize) -> u16
        requires { k < length self.now }
        ensures { result ≡ (nth self.now k).irq }
    {
        let at = self.start(k) + IRQ;
        self.cells.word(at)
    }

    /// The data of the datagram at `k`, at most 1,486 bytes.
    pub fn data(&self, k: usize) -> &[u8]
        requires { k < length self.now }
        ensures value { result.now ≡ (nth self.now k).payload }
        ensures room { length result.now ≤ MAX_DATA }
    {
        let at = self.start(k) + HEAD;
        &self.cells.as_slice()[at..at + self.data_len(k)]
    }

    /// The working counter of the datagram at `k`.
    pub fn counter(&self, k: usize) -> u16
        requires { k < length self.now }
        ensures { result ≡ (nth self.now k).counter }
    {
        let at = self.start(k) + HEAD + self.data_len(k);
        self.cells.word(at)
    }

    /// The datagram at `k`, copied out.
    pub fn get(&self, k: usize) -> Datagram
        requires { k < length self.now }
        ensures { record_of result ≡ nth self.now k }
    {
        // For the prover: where the datagram begins, its data end in the frame.
        let _room = self.start(k);
        let mut payload = ArrayVec::new();
        payload.try_extend_from_slice(self.data(k)).unwrap();
        Datagram {
            command: self.command(k),
            index: self.index(k),
            address: self.address(k),
            circulating: self.circulating(k),
            irq: self.irq(k),
            payload,
            counter: self.counter(k),
        }
    }

    /// A second frame with the same bytes.
    pub fn copy(&self) -> FrameBuf
        ensures { result ≡ self.now }
    {
        let mut starts = ArrayVec::new();
        starts
            .try_extend_from_slice(self.starts.as_slice())
            .unwrap();
        FrameBuf {
            cells: self.cells.copy(),
            size: self.size,
            starts,
        }
    }

    /// Another frame takes the place of this one, of which no more is written than its bytes and where its
    /// datagrams begin.
    pub fn copy_from(&mut self, frame: &FrameBuf)
        ensures { self.new ≡ frame.now }
    {
        self.size = frame.size;
        self.cells.put(0, frame.bytes());
        self.starts.clear();
        self.starts
            .try_extend_from_slice(frame.starts.as_slice())
            .unwrap();
    }
}

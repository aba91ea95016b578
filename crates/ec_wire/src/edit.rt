//! The fields of a frame's datagrams, written in place.

ghost use Rattle.std.specs.Prelude.{◌≡◌, ℕ, ◌+◌, ◌*◌, ◌/◌, ◌<◌, length, slice_set};
ghost use Rattle.std.specs.Borrow.{sem};
ghost use Rattle.ec_wire.specs.Datagram.{nth, with_adp};
ghost use Rattle.ec_wire.specs.Lending.{LendsData};

use crate::frame::FrameBuf;
use crate::layout::{ADDRESS, HEAD, INDEX, IRQ, LENGTH};
use crate::write::length_field;

impl FrameBuf {
    /// The data of the datagram at `k`, for writing; all else of the frame stays.
    pub fn data_mut(&mut self, k: usize) -> &mut [u8]
        requires { k < length self.old }
        ensures* writes_back { sem 𝓛 (LendsData self.entry k result) }
        ensures value { result.now ≡ (nth self.old k).payload }
    {
        let at = self.start(k) + HEAD;
        let end = at + self.data_len(k);
        self.cells.run_mut(at, end)
    }

    /// Sets the working counter of the datagram at `k`, and leaves all else.
    pub fn set_counter(&mut self, k: usize, counter: u16)
        requires { k < length self.old }
        ensures { self.new ≡ slice_set self.old k (record (nth self.old k) { counter = counter }) }
    {
        let at = self.start(k) + HEAD + self.data_len(k);
        self.cells.put(at, &counter.to_le_bytes());
    }

    /// Sets the index of the datagram at `k`, the byte by which a master tells its datagrams apart, and
    /// leaves all else.
    pub fn set_index(&mut self, k: usize, index: u8)
        requires { k < length self.old }
        ensures { self.new ≡ slice_set self.old k (record (nth self.old k) { index = index }) }
    {
        let at = self.start(k) + INDEX;
        self.cells.put(at, &[index]);
    }

    /// Sets the low 16 bits of the address of the datagram at `k`, whatever its command, and leaves
    /// all else: for a physical command they are the ADP.
    pub fn set_adp(&mut self, k: usize, adp: u16)
        requires { k < length self.old }
        ensures { self.new ≡ slice_set self.old k (with_adp adp (nth self.old k)) }
    {
        let at = self.start(k) + ADDRESS;
        self.cells.put(at, &adp.to_le_bytes());
    }

    /// Sets the event requests of the datagram at `k`, and leaves all else.
    pub fn set_irq(&mut self, k: usize, irq: u16)
        requires { k < length self.old }
        ensures { self.new ≡ slice_set self.old k (record (nth self.old k) { irq = irq }) }
    {
        let at = self.start(k) + IRQ;
        self.cells.put(at, &irq.to_le_bytes());
    }

    /// Sets the circulating bit of the datagram at `k`, and leaves all else.
    pub fn set_circulating(&mut self, k: usize, circulating: bool)
        requires { k < length self.old }
        ensures { self.new ≡ slice_set self.old k (record (nth self.old k) { circulating = circulating }) }
    {
        let at = self.start(k) + LENGTH;
        let field = length_field(self.data_len(k), circulating, k + 1 < self.count());
        self.cells.put(at, &field.to_le_bytes());
    }
}

//! The physical commands: reads, writes and exchanges of a range of addresses, where the controller is
//! addressed (IEC 61158-4-12, physical memory access).
ghost use Rattle.std.specs.Prelude.{◌≡◌, ◌+◌, ◌≤◌, ◌<◌, ℕ, length, true, IsTrue};
ghost use Rattle.ec_wire.specs.Datagram.{nth, ado};
ghost use Rattle.ec_esc.specs.Pass.{range_sources, broadcast_sources};
ghost use Rattle.ec_esc.specs.Pass.{range_read, range_write, only_reads, only_writes};
ghost use Rattle.ec_esc.specs.Pass.{written_by, Arrives, IsServed};
ghost use Rattle.ec_esc.specs.Writing.{with_emptied};
ghost use Rattle.ec_esc.specs.Place.{payload_at, size_at, ado_at, IsInMemory, serves_range_read_at};
ghost use Rattle.ec_esc.specs.Place.{serves_range_write_at, read_mailbox_at, range_read_at};
ghost use Rattle.ec_esc.specs.Place.{broadcast_read_at, range_write_at, range_taken_at, filled_at};
ghost use Rattle.ec_esc.specs.Place.{counted_at};

use crate::controller::Controller;
use crate::counting::{LONE_WRITE_GAIN, READ_GAIN, WRITE_GAIN, add_to_counter};
use ec_areas::{copy_run, emptied_by, merge_run, serves_physical_read, serves_physical_write};
use ec_regs::AddressRange;
use ec_wire::FrameBuf;

/// The range that the datagram at `k` addresses: a byte for each of its data.
fn range(frame: &FrameBuf, k: usize) -> AddressRange
    requires { k < length frame.now }
    ensures { result ≡ record { first = ado_at frame.now k; count = size_at frame.now k } }
{
    AddressRange {
        first: frame.ado(k),
        count: frame.data(k).len() as u16,
    }
}

impl Controller {
    /// Is a read of the range of the datagram at `k` served?
    fn serves_read(&self, frame: &FrameBuf, k: usize) -> bool
        requires { k < length frame.now }
        ensures value { result ≡ serves_range_read_at self.now frame.now k }
        ensures inside { IsTrue result
            → IsInMemory frame.now k }
    {
        serves_physical_read(self.memory.managers(), range(frame, k))
    }

    /// Fills the data of the datagram at `k` with the bytes of its range; all else stays.
    fn copy_data(&self, frame: &mut FrameBuf, k: usize)
        requires at { k < length frame.old }
        requires inside { IsInMemory frame.old k }
        ensures { frame.new
            ≡ filled_at frame.old k self.now.memory (range_sources (ado_at frame.old k)) }
    {
        let from = usize::from(frame.ado(k));
        copy_run(self.memory.bytes(), from, frame.data_mut(k));
    }

    /// Ors the bytes of its range into the data of the datagram at `k`; all else stays.
    fn merge_data(&self, frame: &mut FrameBuf, k: usize)
        requires at { k < length frame.old }
        requires inside { IsInMemory frame.old k }
        ensures { frame.new
            ≡ filled_at frame.old k self.now.memory (broadcast_sources self.now (ado_at frame.old k)) }
    {
        let from = usize::from(frame.ado(k));
        merge_run(self.memory.bytes(), from, frame.data_mut(k));
    }

    /// Empties the mailbox that a read of the datagram at `k` takes, if it takes one; all else stays.
    fn read_out(&mut self, frame: &FrameBuf, k: usize)
        requires at { k < length frame.now }
        requires inside { IsInMemory frame.now k }
        ensures { self.new ≡ record self.old {
          memory = with_emptied (read_mailbox_at self.old frame.now k) self.old.memory;
        } }
    {
        match emptied_by(self.memory.managers(), range(frame, k)) {
            Some(number) => self.mark_empty(number),
            None => {}
        }
    }

    /// Counts a read of the datagram at `k` whose data were filled, and empties the mailbox that it takes,
    /// if it takes one; all else stays.
    fn finish_read(&mut self, frame: &mut FrameBuf, k: usize)
        requires at { k < length frame.old }
        requires inside { IsInMemory frame.old k }
        ensures frame { frame.new
            ≡ counted_at frame.old k 1 }
        ensures state { self.new ≡ record self.old {
          memory = with_emptied (read_mailbox_at self.old frame.old k) self.old.memory;
        } }
    {
        self.read_out(frame, k);
        add_to_counter(frame, k, READ_GAIN);
    }

    /// A read of the range of the datagram at `k`, where it is served; all other datagrams stay.
    pub(crate) fn range_read(&mut self, frame: &mut FrameBuf, k: usize)
        requires inside { k < length frame.old }
        requires arrives { Arrives self.old (nth frame.old k) }
        ensures { IsServed (only_reads (range_read_at self.old frame.old k))
            k frame.old self.old frame.new self.new }
    {
        if self.serves_read(frame, k) {
            self.copy_data(frame, k);
            self.finish_read(frame, k);
        }
    }

    /// A broadcast read of the range of the datagram at `k`, where it is served; all other datagrams stay.
    pub(crate) fn broadcast_read(&mut self, frame: &mut FrameBuf, k: usize)
        requires inside { k < length frame.old }
        requires arrives { Arrives self.old (nth frame.old k) }
        ensures { IsServed (only_reads (broadcast_read_at self.old frame.old k))
            k frame.old self.old frame.new self.new }
    {
        if self.serves_read(frame, k) {
            self.merge_data(frame, k);
            self.finish_read(frame, k);
        }
    }

    /// Is a write of the range of the datagram at `k` served?
    fn serves_write(&self, frame: &FrameBuf, k: usize) -> bool
        requires { k < length frame.now }
        ensures value { result ≡ serves_range_write_at self.now frame.now k }
        ensures inside { IsTrue result
            → IsInMemory frame.now k }
    {
        serves_physical_write(
            self.memory.managers(),
            self.memory.has_sii(),
            range(frame, k),
        )
    }

    /// Writes the data of the datagram at `k` to its range.
    fn take_data(&mut self, frame: &FrameBuf, k: usize)
        requires at { k < length frame.now }
        requires inside { IsInMemory frame.now k }
        ensures { (n : ℕ) → self.new
            ≡ written_by (range_taken_at n self.old frame.now k)
            (payload_at frame.now k) self.old }
    {
        self.write_range(frame.ado(k), frame.data(k));
    }

    /// Writes the data of the datagram at `k` to its range, and fills them with the bytes that stood there;
    /// all else of the frame stays.
    fn swap_data(&mut self, frame: &mut FrameBuf, k: usize)
        requires at { k < length frame.old }
        requires inside { IsInMemory frame.old k }
        ensures frame { frame.new
            ≡ filled_at frame.old k self.old.memory (range_sources (ado_at frame.old k)) }
        ensures state { (n : ℕ) → self.new
            ≡ written_by (range_taken_at n self.old frame.old k)
            (payload_at frame.old k) self.old }
    {
        let from = frame.ado(k);
        self.swap_range(from, frame.data_mut(k));
    }

    /// A write of the range of the datagram at `k`, where it is served; all other datagrams stay.
    pub(crate) fn range_write(&mut self, frame: &mut FrameBuf, k: usize)
        requires inside { k < length frame.old }
        requires arrives { Arrives self.old (nth frame.old k) }
        ensures { IsServed (only_writes (range_write_at 1 self.old frame.old k))
            k frame.old self.old frame.new self.new }
    {
        if self.serves_write(frame, k) {
            self.take_data(frame, k);
            add_to_counter(frame, k, LONE_WRITE_GAIN);
        }
    }

    /// A write of the range of the datagram at `k` that is served, and a read that may be; all other
    /// datagrams stay.
    fn served_exchange(&mut self, frame: &mut FrameBuf, k: usize)
        requires inside { k < length frame.old }
        requires arrives { Arrives self.old (nth frame.old k) }
        requires room { IsInMemory frame.old k }
        requires served { serves_range_write_at self.old frame.old k ≡ true }
        ensures { IsServed (record {
          reading = range_read_at self.old frame.old k;
          writing = range_taken_at 2 self.old frame.old k;
        }) k frame.old self.old frame.new self.new }
    {
        if self.serves_read(frame, k) {
            self.swap_data(frame, k);
            add_to_counter(frame, k, READ_GAIN + WRITE_GAIN);
        } else {
            self.take_data(frame, k);
            add_to_counter(frame, k, WRITE_GAIN);
        }
    }

    /// A read and a write of the range of the datagram at `k`, each where it is served; all other datagrams
    /// stay.
    pub(crate) fn range_exchange(&mut self, frame: &mut FrameBuf, k: usize)
        requires inside { k < length frame.old }
        requires arrives { Arrives self.old (nth frame.old k) }
        ensures { IsServed (record {
          reading = range_read_at self.old frame.old k;
          writing = range_write_at 2 self.old frame.old k;
        }) k frame.old self.old frame.new self.new }
    {
        if self.serves_write(frame, k) {
            self.served_exchange(frame, k);
        } else {
            self.range_read(frame, k);
        }
    }
}

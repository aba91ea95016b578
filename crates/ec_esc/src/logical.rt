//! The logical commands: LRD, LWR and LRW (IEC 61158-4-12, FMMU). Most slaves on a line map nothing of such a
//! datagram, and a look at the hulls of what their FMMUs read and write tells that.

ghost use Rattle.std.specs.Prelude.{◌≡◌, ◌+◌, ◌<◌, ℕ, length, true, false, if◌then◌else◌, IsTrue};
ghost use Rattle.ec_wire.specs.Datagram.{nth};
ghost use Rattle.ec_areas.specs.Records.{fmmus_of, sync_managers_of};
ghost use Rattle.ec_areas.specs.Apart.{are_apart};
ghost use Rattle.ec_esc.specs.Pass.{read_sources, serves_write, mapped_write};
ghost use Rattle.ec_esc.specs.Pass.{only_reads, only_writes, written_by, Arrives, IsServed};
ghost use Rattle.ec_esc.specs.Place.{address_at, payload_at, size_at, serves_read_at, mapped_read_at};
ghost use Rattle.ec_esc.specs.Place.{mapped_write_at, mapped_exchange_at, filled_at};
ghost use Rattle.ec_esc.specs.Writing.{reaches_byte, shown_after};

use crate::controller::Controller;
use crate::counting::{LONE_WRITE_GAIN, READ_GAIN, WRITE_GAIN, add_to_counter};
use crate::process::are_bytes;
use arrayvec::ArrayVec;
use ec_regs::registers::SYNC_MANAGER_COUNT;
use ec_wire::{FrameBuf, MAX_DATA};

/// What the working counter of an LRW gains, by whether its read and its write are served.
fn exchange_gain(is_read: bool, is_written: bool) -> u16
    ensures { result ≡ (if is_read then 1 else 0) + (if is_written then 2 else 0) }
{
    let read = if is_read { READ_GAIN } else { 0 };
    let write = if is_written { WRITE_GAIN } else { 0 };
    read + write
}

impl Controller {
    /// LRD: a read of the datagram at `k` through FMMUs; all others stay.
    pub(crate) fn logical_read(&self, frame: &mut FrameBuf, k: usize)
        requires inside { k < length frame.old }
        requires arrives { Arrives self.now (nth frame.old k) }
        ensures { IsServed (only_reads (mapped_read_at self.now frame.old k))
            k frame.old self.now frame.new self.now }
    {
        if self.fill_data(frame, k) {
            add_to_counter(frame, k, READ_GAIN);
        }
    }

    /// Fills the data of the datagram at `k` from the memory where its logical address is readable, and says
    /// whether there is such a bit; all else stays.
    fn fill_data(&self, frame: &mut FrameBuf, k: usize) -> bool
        requires { k < length frame.old }
        ensures frame { frame.new
            ≡ filled_at frame.old k self.now.memory (read_sources self.now (address_at frame.old k)) }
        ensures served { result ≡ serves_read_at self.now frame.old k }
    {
        let address = frame.address(k);
        self.memory.read_mapped(address, frame.data_mut(k))
    }

    /// LWR: a write of the datagram at `k` through FMMUs; all others stay.
    pub(crate) fn logical_write(&mut self, frame: &mut FrameBuf, k: usize)
        requires inside { k < length frame.old }
        requires arrives { Arrives self.old (nth frame.old k) }
        ensures { IsServed (only_writes (mapped_write_at 1 self.old frame.old k))
            k frame.old self.old frame.new self.new }
    {
        if self.write_data(frame.address(k), frame.data(k)) {
            add_to_counter(frame, k, LONE_WRITE_GAIN);
        }
    }

    /// LRW: a read and a write of the datagram at `k` through FMMUs; the read sees the memory, and the write
    /// takes the data, as they were on arrival; all others stay.
    pub(crate) fn logical_exchange(&mut self, frame: &mut FrameBuf, k: usize)
        requires inside { k < length frame.old }
        requires arrives { Arrives self.old (nth frame.old k) }
        ensures { IsServed (mapped_exchange_at self.old frame.old k) k frame.old self.old frame.new self.new }
    {
        let gain = self.exchange_data(frame, k);
        add_to_counter(frame, k, gain);
    }

    /// Reads and writes the data of the datagram at `k`, each as on arrival, and says what its working
    /// counter gains; all else stays.
    fn exchange_data(&mut self, frame: &mut FrameBuf, k: usize) -> u16
        requires { k < length frame.old }
        ensures frame { frame.new
            ≡ filled_at frame.old k self.old.memory (read_sources self.old (address_at frame.old k)) }
        ensures state { self.new
            ≡ written_by (mapped_write_at 2 self.old frame.old k) (payload_at frame.old k) self.old }
        ensures gain { result
            ≡ (mapped_read_at self.old frame.old k).gain
            + (mapped_write_at 2 self.old frame.old k).gain }
    {
        if self.memory.is_apart() {
            self.write_then_read(frame, k)
        } else {
            self.read_then_write(frame, k)
        }
    }

    /// Exchanges the data of the datagram at `k` where no bit that is read may be written: the read finds the
    /// memory as it was on arrival, and the write needs no copy of the data.
    fn write_then_read(&mut self, frame: &mut FrameBuf, k: usize) -> u16
        requires inside { k < length frame.old }
        requires apart { are_apart (fmmus_of self.old.memory) ≡ true }
        ensures frame { frame.new
            ≡ filled_at frame.old k self.old.memory (read_sources self.old (address_at frame.old k)) }
        ensures state { self.new
            ≡ written_by (mapped_write_at 2 self.old frame.old k) (payload_at frame.old k) self.old }
        ensures gain { result
            ≡ (mapped_read_at self.old frame.old k).gain
            + (mapped_write_at 2 self.old frame.old k).gain }
    {
        self.arrival(frame, k);
        let is_written = self.write_data(frame.address(k), frame.data(k));
        let is_read = self.fill_data(frame, k);
        exchange_gain(is_read, is_written)
    }

    /// Exchanges the data of the datagram at `k`, whatever the FMMUs: the write takes a copy of the data that
    /// arrived.
    fn read_then_write(&mut self, frame: &mut FrameBuf, k: usize) -> u16
        requires { k < length frame.old }
        ensures frame { frame.new
            ≡ filled_at frame.old k self.old.memory (read_sources self.old (address_at frame.old k)) }
        ensures state { self.new
            ≡ written_by (mapped_write_at 2 self.old frame.old k) (payload_at frame.old k) self.old }
        ensures gain { result
            ≡ (mapped_read_at self.old frame.old k).gain
            + (mapped_write_at 2 self.old frame.old k).gain }
    {
        let address = frame.address(k);
        let mut arrived: ArrayVec<u8, MAX_DATA> = ArrayVec::new();
        arrived.try_extend_from_slice(frame.data(k)).unwrap();
        let is_read = self.fill_data(frame, k);
        let is_written = self.write_data(address, arrived.as_slice());
        exchange_gain(is_read, is_written)
    }

    /// Writes data to the memory where their logical address is writable, shows each area whose last byte
    /// was written, and says whether there is a writable bit. The first data byte stands at the logical
    /// byte `address`.
    fn write_data(&mut self, address: u32, payload: &[u8]) -> bool
        ensures state { (n : ℕ) → self.new
            ≡ written_by (mapped_write n self.old address (length payload.now)) payload.now self.old }
        ensures served { result ≡ serves_write self.old address (length payload.now) }
    {
        are_bytes(self.memory.bytes());
        if self.memory.writes_elsewhere(address, payload.len()) {
            return false;
        }
        let served = self.memory.write_mapped(address, payload);
        self.show_outputs(address, payload.len());
        served
    }

    /// Shows the outputs of which a write of `count` bytes at the logical byte `address` reaches the last
    /// byte, as they stand in the memory; all else stays.
    fn show_outputs(&mut self, address: u32, count: usize)
        ensures { self.new ≡ record self.old {
          shown = shown_after (reaches_byte self.old.memory address count)
              (sync_managers_of self.old.memory) (sync_managers_of self.old.memory)
              self.old.memory self.old.shown;
        } }
    {
        // The sizes of memory and shown bytes are known of a controller of which a field is read.
        let _memory = &self.memory;
        for number in 0..SYNC_MANAGER_COUNT {
            if self.memory.hands_over(number, address, count) {
                let area = self.syncman(number);
                self.show_area(&area);
            }
        }
    }
}

//! What the working counter of a datagram gains at a slave (IEC 61158-4-12, working counter).

ghost use Rattle.std.specs.Prelude.{◌≡◌, ◌<◌, ◌≤◌, ◌+◌, ◌&&◌, if◌then◌else◌, length};
ghost use Rattle.ec_wire.specs.Command.{reads, writes, addressing};
ghost use Rattle.ec_wire.specs.Datagram.{ado_of};
ghost use Rattle.ec_esc.specs.Pass.{effect, gain_of, serves_reading, serves_writing};
ghost use Rattle.ec_esc.specs.Place.{counted_at};

use crate::controller::Controller;
use ec_areas::{reads_some, serves_physical_read, serves_physical_write, writes_some};
use ec_regs::AddressRange;
use ec_wire::{Addressing, Command, FrameBuf, ado_of};

/// The most controllers of a line whose counters certify an answer: what they gain together, at most three
/// each for a datagram, stays far below 65,536.
pub const MOST_CONTROLLERS: usize = 256;

/// What a working counter gains for a read that is served.
pub(crate) const READ_GAIN: u16 = 1;

/// What a working counter gains for a write that is served, where the command does not read.
pub(crate) const LONE_WRITE_GAIN: u16 = 1;

/// What a working counter gains for a write that is served, where the command reads too.
pub(crate) const WRITE_GAIN: u16 = 2;

/// Adds to the working counter of the datagram at `k`, modulo 65536; all else stays.
pub(crate) fn add_to_counter(frame: &mut FrameBuf, k: usize, gain: u16)
    requires { k < length frame.old }
    ensures { frame.new
        ≡ counted_at frame.old k gain }
{
    let counter = frame.counter(k);
    frame.set_counter(k, counter.wrapping_add(gain));
}

/// A number where something was served, else 0.
fn counted(served: bool, gain: u16) -> u16
    ensures value { result ≡ (if served then gain else 0) }
    ensures bound { result ≤ gain }
{
    if served { gain } else { 0 }
}

/// What a working counter gains for a write that is served, by its command.
fn write_gain(command: Command) -> u16
    ensures value { result ≡ (if reads command then 2 else 1) }
    ensures bound { result ≤ 2 }
{
    if command.reads() {
        WRITE_GAIN
    } else {
        LONE_WRITE_GAIN
    }
}

/// What a working counter gains for a command, 0 to 3, by whether its read is served, and its write.
pub fn gained(command: Command, is_read: bool, is_written: bool) -> u16
    ensures value { result
        ≡ (if is_read then 1 else 0) + (if is_written then (if reads command then 2 else 1) else 0) }
    ensures bound { result ≤ 3 }
{
    counted(is_read, READ_GAIN) + counted(is_written, write_gain(command))
}

/// The range of a physical command with this address and number of data bytes.
fn range_at(address: u32, count: u16) -> AddressRange
    ensures { result ≡ record { first = ado_of address; count = count } }
{
    AddressRange {
        first: ado_of(address),
        count,
    }
}

impl Controller {
    /// What the working counter of a datagram gains here, 0 to 3, by its command, its address and the number
    /// of its data bytes; the controller is left as it is.
    pub fn gain(&self, command: Command, address: u32, count: u16) -> u16
        ensures value { result ≡ gain_of (effect command self.now address count) }
        ensures bound { result ≤ 3 }
    {
        let is_read = self.reads_at(command, address, count);
        let is_written = self.writes_at(command, address, count);
        gained(command, is_read, is_written)
    }

    /// Does the command read, and is its read served?
    fn reads_at(&self, command: Command, address: u32, count: u16) -> bool
        ensures { result ≡ (reads command && serves_reading (addressing command) self.now address count) }
    {
        command.reads() && self.serves_reading(command.addressing(), address, count)
    }

    /// Does the command write, and is its write served?
    fn writes_at(&self, command: Command, address: u32, count: u16) -> bool
        ensures { result ≡ (writes command && serves_writing (addressing command) self.now address count) }
    {
        command.writes() && self.serves_writing(command.addressing(), address, count)
    }

    /// Is a read served, of a command that addresses so?
    fn serves_reading(&self, addressing: Addressing, address: u32, count: u16) -> bool
        ensures { result ≡ serves_reading addressing self.now address count }
    {
        let managers = self.memory.managers();
        match addressing {
            Addressing::Logical => reads_some(managers, self.memory.fmmus(), address, count.into()),
            Addressing::Nobody
            | Addressing::AutoIncrement
            | Addressing::ConfiguredStation
            | Addressing::All => {
                self.is_named(addressing, address)
                    && serves_physical_read(managers, range_at(address, count))
            }
        }
    }

    /// Is a write served, of a command that addresses so?
    fn serves_writing(&self, addressing: Addressing, address: u32, count: u16) -> bool
        ensures { result ≡ serves_writing addressing self.now address count }
    {
        let managers = self.memory.managers();
        match addressing {
            Addressing::Logical => writes_some(
                managers,
                self.memory.fmmus(),
                address,
                count.into(),
            ),
            Addressing::Nobody
            | Addressing::AutoIncrement
            | Addressing::ConfiguredStation
            | Addressing::All => {
                self.is_named(addressing, address)
                    && serves_physical_write(
                        managers,
                        self.memory.has_sii(),
                        range_at(address, count),
                    )
            }
        }
    }
}

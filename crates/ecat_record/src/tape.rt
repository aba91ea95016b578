//! A capture that is written, over any writer.
ghost use Rattle.std.specs.Prelude.{◌≡◌, ◌≤◌, OnOk, OnErr, false, not, true, length};
ghost use Rattle.std.specs.Io.KnownBytes.{Appends, Keeps};
ghost use Rattle.ecat_record.specs.Written.{header_of, record_of};

use crate::format::{Unit, head_of, header_of, told_time};
use arrayvec::ArrayVec;
use std::io::Write;
use std::marker::Model;

/// The most bytes of a packet that is written: an EtherCAT frame behind the longest header.
pub const MOST_PACKET: usize = 1522;

/// The most bytes of a record.
const MOST_RECORD: usize = 16 + MOST_PACKET;

/// A write of a capture has failed; what was written before it stands.
#[derive(Clone, Copy, Debug, PartialEq, Eq)]
pub struct TapeFault;

/// A capture that grows by a record a packet.
///
/// Each record goes out at once, so that a program that is ended from outside leaves a whole capture. After a
/// write that has failed nothing more is written, since it would stand behind half a record.
#[derive(Drop)]
pub struct Tape<W: Write> {
    out: W,
    unit: Unit,
    has_failed: bool,
}

impl<W: Write> Model for Tape<W> {
    ghost use Rattle.ecat_record.specs.State.{TapeState};

    ghost Value = { TapeState };

    ghost view = { λ t. record { held = W.contents t.out; unit = t.unit; has_failed = t.has_failed } };
}

impl<W: Write> Tape<W> {
    /// A capture without packets: its header is written.
    pub fn new(out: W, unit: Unit) -> Tape<W>
        ensures unit { result.unit ≡ unit }
        ensures header { result.has_failed ≡ false → Appends (W.contents out) result.held (header_of unit) }
    {
        let mut tape = Tape {
            out,
            unit,
            has_failed: false,
        };
        tape.write(header_of(unit).as_slice());
        tape
    }

    /// Writes the record of a packet that went by so many units of time after the epoch; a time past the year
    /// 2106 is told as the last that a record has room for.
    pub fn record(&mut self, ticks: u64, packet: &[u8])
        requires { length packet.now ≤ MOST_PACKET }
        ensures grown { self.new.has_failed ≡ false →
            Appends self.old.held self.new.held (record_of self.old.unit ticks packet.now) }
        ensures silent { self.old.has_failed ≡ true → self.new ≡ self.old }
        ensures unit { self.new.unit ≡ self.old.unit }
    {
        self.write(record_of(self.unit, ticks, packet).as_slice());
    }

    /// The writer.
    pub fn writer(&self) -> &W {
        &self.out
    }

    /// Has every write been made?
    pub fn is_whole(&self) -> bool
        ensures { result ≡ not self.now.has_failed }
    {
        !self.has_failed
    }

    /// Flushes the writer, and says whether every write was made.
    pub fn finish(&mut self) -> Result<(), TapeFault>
        ensures ok { OnOk result (self.old.has_failed ≡ false) }
        ensures kept { OnOk result (Keeps self.old.held self.new.held) }
        ensures failed { self.old.has_failed ≡ true → OnErr result (self.new ≡ self.old) }
    {
        if self.has_failed {
            return Err(TapeFault);
        }
        match self.out.flush() {
            Ok(()) => Ok(()),
            Err(_) => {
                self.has_failed = true;
                Err(TapeFault)
            }
        }
    }

    // Writes bytes, unless a write has failed before.
    fn write(&mut self, bytes: &[u8])
        ensures grown { self.new.has_failed ≡ false → Appends self.old.held self.new.held bytes.now }
        ensures silent { self.old.has_failed ≡ true → self.new ≡ self.old }
        ensures unit { self.new.unit ≡ self.old.unit }
    {
        if !self.has_failed && self.out.write_all(bytes).is_err() {
            self.has_failed = true;
        }
    }
}

// The record of a packet.
fn record_of(unit: Unit, ticks: u64, packet: &[u8]) -> ArrayVec<u8, MOST_RECORD>
    requires { length packet.now ≤ MOST_PACKET }
    ensures { result.items ≡ record_of unit ticks packet.now }
{
    let mut record = ArrayVec::new();
    record
        .try_extend_from_slice(head_of(
            unit,
            told_time(unit, ticks),
            packet.len() as u32,
        ).as_slice())
        .unwrap();
    record.try_extend_from_slice(packet).unwrap();
    record
}

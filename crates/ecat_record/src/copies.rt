//! The copies of EtherCAT frames at a master's ports, as Ethernet frames.
ghost use Rattle.std.specs.Prelude.{◌≡◌, ◌≤◌, IfSome, OnOk, false, is_some, length, take, true};
ghost use Rattle.std.specs.Io.KnownBytes.{Appends};
ghost use Rattle.ec_wire.specs.declared.frame.TheConstants.{MAX_FRAME};
ghost use Rattle.ecat_record.specs.Copies.{IsRecorded, address_of, copy_record, passed};

use crate::format::Unit;
use crate::moments::{Counter, Moments};
use crate::tape::{Tape, TapeFault};
use ec_ring::Port;
use ec_wire::MAX_FRAME;
use ecat_raw::{ADDRESS_A, ADDRESS_B, packet_of};
use std::io::{Sink, Write};

/// Which way a copy of a frame goes at a port of the master.
#[derive(Clone, Copy, Debug, PartialEq, Eq)]
pub enum Way {
    /// It leaves the master.
    Leaves,
    /// It arrives at the master.
    Arrives,
}

/// The source address of what leaves the master at a port, or arrives there: controllers set bit 1 of the
/// first byte in what they pass on.
pub fn address_of(port: Port, way: Way) -> [u8; 6]
    ensures { result ≡ address_of port way }
{
    let address = match port {
        Port::A => ADDRESS_A,
        Port::B => ADDRESS_B,
    };
    match way {
        Way::Leaves => address,
        Way::Arrives => passed(address),
    }
}

// The address as controllers pass it on.
fn passed(address: [u8; 6]) -> [u8; 6]
    ensures { result ≡ passed address }
{
    let [first, b, c, d, e, f] = address;
    let marked = if first / 2 % 2 == 1 { first } else { first + 2 };
    [marked, b, c, d, e, f]
}

// The first bytes, as many as a frame may have.
fn front_of(frame: &[u8]) -> &[u8]
    ensures value { result.now ≡ take MAX_FRAME frame.now }
    ensures few { length result.now ≤ MAX_FRAME }
{
    &frame[..MAX_FRAME.min(frame.len())]
}

impl<W: Write> Tape<W> {
    /// Writes the record of a copy that left or arrived at a port, so many units of time after the epoch: an
    /// Ethernet frame to every station, of type 0x88A4, padded with zeros to 60 bytes. Of a longer frame the
    /// first 1,500 bytes are written. It is not put in line: each caller would else have room for packets on
    /// its stack, where nobody wants any too.
    #[inline(never)]
    pub fn copy(&mut self, ticks: u64, port: Port, way: Way, frame: &[u8])
        ensures grown { self.new.has_failed ≡ false → Appends self.old.held self.new.held
            (copy_record self.old.unit ticks port way frame.now) }
        ensures silent { self.old.has_failed ≡ true → self.new ≡ self.old }
        ensures unit { self.new.unit ≡ self.old.unit }
    {
        let packet = packet_of(address_of(port, way), front_of(frame));
        self.record(ticks, packet.as_slice());
    }
}

/// The copies of a master's frames, as they leave it and arrive there, each at a moment of its own; or nobody
/// wants them.
#[derive(Drop)]
pub struct Recorder<W: Write, M> {
    tape: Option<Tape<W>>,
    moments: M,
}

impl<W: Write, M: Moments> Recorder<W, M> {
    /// A capture without copies, in microseconds.
    pub fn new(out: W, moments: M) -> Recorder<W, M> {
        Recorder::to(Some(out), moments)
    }

    /// A capture without copies, as by `new`; or copies that nobody wants, where there is no writer.
    pub fn to(out: Option<W>, moments: M) -> Recorder<W, M>
        ensures wanted { is_some result.tape ≡ is_some out }
    {
        let tape = match out {
            Some(out) => Some(Tape::new(out, Unit::Microseconds)),
            None => None,
        };
        Recorder { tape, moments }
    }

    /// Records the copy that left or arrived at a port, if anybody wants it.
    pub fn copy(&mut self, port: Port, way: Way, frame: &[u8])
        ensures { IsRecorded port way frame.now self.old.tape self.new.tape }
    {
        if let Some(tape) = &mut self.tape {
            tape.copy(self.moments.next(), port, way, frame);
        }
    }

    /// The writer of the copies, if anybody wants them.
    pub fn writer(&self) -> Option<&W> {
        match &self.tape {
            Some(tape) => Some(tape.writer()),
            None => None,
        }
    }

    /// Flushes the writer, and says whether every write was made.
    pub fn finish(&mut self) -> Result<(), TapeFault>
        ensures { OnOk result (IfSome self.old.tape (λ tape. tape.has_failed ≡ false)) }
    {
        match &mut self.tape {
            Some(tape) => tape.finish(),
            None => Ok(()),
        }
    }
}

/// A recorder of copies that nobody wants.
pub fn unrecorded() -> Recorder<Sink, Counter> {
    Recorder {
        tape: None,
        moments: Counter::new(),
    }
}

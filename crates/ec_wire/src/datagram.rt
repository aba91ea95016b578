//! One datagram by itself, as it is put into a frame and copied out of one (IEC 61158-4-12, datagrams).

ghost use Rattle.std.specs.Prelude.{◌≡◌, ◌≤◌};
ghost use Rattle.ec_wire.specs.declared.layout.TheConstants.{MAX_LENGTH};

use crate::command::Command;
use crate::layout::OVERHEAD;
use arrayvec::ArrayVec;

/// The most data bytes that a datagram may carry: those that fill a frame alone.
pub const MAX_DATA: usize = 1486;

/// One datagram of a frame (IEC 61158-4-12, the datagram structure).
#[derive(Debug, Drop)]
pub struct Datagram {
    /// What it asks of the slaves.
    pub command: Command,
    /// The master's number for this datagram; slaves leave it as it is.
    pub index: u8,
    /// The logical address, or for a physical command the ADP plus 65,536 times the ADO.
    pub address: u32,
    /// Whether the frame has turned round at a slave's closed port 0.
    pub circulating: bool,
    /// The slaves' event requests, or-ed.
    pub irq: u16,
    /// The data bytes.
    pub payload: ArrayVec<u8, MAX_DATA>,
    /// The working counter.
    pub counter: u16,
}

impl Datagram {
    ghost use Rattle.ec_wire.specs.Datagram.{record_of, datagram_length, Fits};

    /// The bytes that it takes in a frame: ten of its head, the data, and two of the working counter.
    pub fn wire_length(&self) -> usize
        ensures value { result ≡ datagram_length (record_of self.now) }
        ensures room { result ≤ MAX_LENGTH }
        ensures fits { Fits (record_of self.now) }
    {
        // The fields' types bound them, which a proof knows of fields that are read.
        let _index = self.index;
        let _address = self.address;
        let _irq = self.irq;
        let _counter = self.counter;
        OVERHEAD + self.payload.len()
    }
}

//! A frame made of a datagram, and one more datagram put behind its last.

ghost use Rattle.std.specs.Prelude.{◌≡◌, ℕ, ◌+◌, ◌-◌, ◌*◌, ◌<◌, ◌≤◌, ◌↔◌, [], ◌∷◌, ◌++◌, length, take, drop};
ghost use Rattle.std.specs.Prelude.{IsErr, OnOk, OnErr};
ghost use Rattle.ec_wire.specs.Datagram.{record_of, datagram_length};
ghost use Rattle.ec_wire.specs.Spelling.{datagram, bit_of, body_length};
ghost use Rattle.ec_wire.specs.declared.layout.TheConstants.{MAX_LENGTH};

use crate::cells::Cells;
use crate::datagram::Datagram;
use crate::frame::{FrameBuf, MAX_FRAME};
use crate::layout::{
    ADDRESS, CIRCULATING, COMMANDS, HEAD, HEADER, IRQ, LENGTH, MORE, OVERHEAD, TYPE,
};
use arrayvec::ArrayVec;

/// The frame has no room for one more datagram.
#[derive(Clone, Copy, PartialEq, Eq, Debug)]
pub struct Full;

/// The field of a datagram that has its data length, the circulating bit 14 and the more bit 15.
pub(crate) fn length_field(length: usize, circulating: bool, more: bool) -> u16
    requires { length < 2048 }
    ensures { result ≡ length + 16384 * bit_of circulating + 32768 * bit_of more }
{
    length as u16 + CIRCULATING * u16::from(circulating) + MORE * u16::from(more)
}

/// The frame's header: the length of all datagrams, and the type of EtherCAT commands.
fn header_field(length: usize) -> u16
    requires { length < 2048 }
    ensures { result ≡ length + 4096 }
{
    length as u16 + TYPE * COMMANDS
}

/// Writes a datagram's bytes from `at` on; `more` says that another one follows it.
fn write_datagram(cells: &mut Cells<MAX_FRAME>, at: usize, written: &Datagram, more: bool)
    requires { at + OVERHEAD + length written.now.payload.items ≤ MAX_FRAME }
    ensures { cells.new.bytes ≡ take at cells.old.bytes
        ++ (datagram more (record_of written.now)
        ++ drop (at + datagram_length (record_of written.now)) cells.old.bytes) }
{
    let length = written.payload.len();
    let field = length_field(length, written.circulating, more);
    cells.put(at, &[written.command.code(), written.index]);
    cells.put(at + ADDRESS, &written.address.to_le_bytes());
    cells.put(at + LENGTH, &field.to_le_bytes());
    cells.put(at + IRQ, &written.irq.to_le_bytes());
    cells.put(at + HEAD, written.payload.as_slice());
    cells.put(at + HEAD + length, &written.counter.to_le_bytes());
}

impl FrameBuf {
    /// The frame of one datagram.
    pub fn of(datagram: &Datagram) -> FrameBuf
        ensures { result ≡ record_of datagram.now ∷ [] }
    {
        let length = datagram.wire_length();
        let mut cells = Cells::new();
        cells.put(0, &header_field(length).to_le_bytes());
        write_datagram(&mut cells, HEADER, datagram, false);
        let mut starts = ArrayVec::new();
        starts.push(HEADER as u16);
        FrameBuf {
            cells,
            size: HEADER + length,
            starts,
        }
    }

    /// Puts a datagram at the end, unless the datagrams would pass 1,498 bytes.
    pub fn push(&mut self, datagram: &Datagram) -> Result<(), Full>
        ensures ok { OnOk result (self.new ≡ self.old ++ record_of datagram.now ∷ []) }
        ensures err { OnErr result (self.new ≡ self.old) }
        ensures full { IsErr result
            ↔ (MAX_LENGTH < body_length self.old + datagram_length (record_of datagram.now)) }
    {
        let at = self.size;
        let end = at + datagram.wire_length();
        if end > MAX_FRAME {
            return Err(Full);
        }
        let last = self.count() - 1;
        let field_at = self.start(last) + LENGTH;
        let field = length_field(self.data_len(last), self.circulating(last), true);
        self.cells.put(field_at, &field.to_le_bytes());
        write_datagram(&mut self.cells, at, datagram, false);
        self.cells.put(0, &header_field(end - HEADER).to_le_bytes());
        self.starts.push(at as u16);
        self.size = end;
        Ok(())
    }

    /// Takes the last datagram off a frame of more than one.
    pub fn pop(&mut self)
        requires { 1 < length self.old }
        ensures { self.new ≡ take (length self.old - 1) self.old }
    {
        let last = self.count() - 1;
        let end = self.start(last);
        let before = last - 1;
        let field_at = self.start(before) + LENGTH;
        let field = length_field(self.data_len(before), self.circulating(before), false);
        self.cells.put(field_at, &field.to_le_bytes());
        self.cells.put(0, &header_field(end - HEADER).to_le_bytes());
        self.starts.truncate(last);
        self.size = end;
    }
}

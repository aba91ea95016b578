//! What a master asks in each cycle, as plain data beside its process image.

ghost use Rattle.std.specs.Prelude.{◌≡◌, ◌<◌, ◌≤◌, ◌+◌, ℕ, List, true, None, length, slice_range};
ghost use Rattle.std.specs.Prelude.{MatchOption};
ghost use Rattle.ec_map.specs.Item.{is_broadcast, is_in_range, wire_address, datagram_of};
ghost use Rattle.ec_wire.specs.Command.{reads};
ghost use Rattle.ec_wire.specs.Datagram.{record_of};
ghost use Rattle.ec_wire.specs.Kind.{command_of};
ghost use Rattle.rummymaple.specs.Items.{kind_of, kind_named, refusal, asked, AreTaken, IsFirstRefused};

use crate::numbers::Code;
use ec_regs::registers::{LOGICAL_BYTES, MEMORY_SIZE, PROCESS_MEMORY};
use ec_wire::{Kind, MAX_DATA, address_of, ado_of};

/// The most items of a master: as many as a datagram's index has values.
pub const MAX_ITEMS: usize = 256;

/// The code of a broadcast read.
pub(crate) const BROADCAST_READ: u16 = 7;

/// One thing that is asked in each cycle: `struct rmp_item` of the header.
#[repr(C)]
#[derive(Clone, Copy)]
pub struct Item {
    /// The logical address; of a broadcast read the ADO; of a read or write of one slave its station plus
    /// 65,536 times the ADO.
    pub address: u32,
    /// Where its data begin in the process image.
    pub offset: u32,
    /// The number of its data bytes.
    pub length: u16,
    /// Its command by the standard's code: 4 FPRD, 5 FPWR, 7 BRD, 10 LRD, 11 LWR, 12 LRW.
    pub kind: u16,
    /// By how much its working counter has to move.
    pub expected: u16,
    /// The working counter with which it goes out.
    pub sent: u16,
    /// The working counter with which it came back.
    pub came: u16,
    /// The ADP with which it came back, which each slave counts up for a broadcast read; of other kinds 0.
    pub passed: u16,
}

/// The kind of item of a command's code.
#[tactic(auto, unfolding(crate::specs::Items::kind_of))]
pub(crate) fn kind_of(code: u16) -> Option<Kind>
    ensures { result ≡ kind_of code }
{
    match code {
        4 => Some(Kind::Fprd),
        5 => Some(Kind::Fpwr),
        7 => Some(Kind::Brd),
        10 => Some(Kind::Lrd),
        11 => Some(Kind::Lwr),
        12 => Some(Kind::Lrw),
        _ => None,
    }
}

/// Do that many bytes exist from an address on?
pub(crate) fn is_in_range(kind: Kind, address: u32, length: u16) -> bool
    ensures { result ≡ is_in_range kind address length }
{
    let length = u64::from(length);
    match kind {
        Kind::Lrd | Kind::Lwr | Kind::Lrw => u64::from(address) + length <= LOGICAL_BYTES,
        Kind::Brd => u64::from(address) + length <= u64::from(PROCESS_MEMORY),
        Kind::Fprd | Kind::Fpwr => u64::from(ado_of(address)) + length <= u64::from(MEMORY_SIZE),
    }
}

impl Item {
    /// The kind that it names; a logical read where it names none.
    pub(crate) fn kind(&self) -> Kind
        ensures { result ≡ kind_named self.now.kind }
    {
        kind_of(self.kind).unwrap_or(Kind::Lrd)
    }

    /// Do its data come from the slaves?
    pub(crate) fn reads(&self) -> bool
        ensures { result ≡ reads (command_of (kind_named self.now.kind)) }
    {
        self.kind().command().reads()
    }

    /// Where its data begin in the image, and where they end.
    pub(crate) fn place(&self) -> (usize, usize)
        ensures begin { result.0 ≡ self.now.offset }
        ensures end { result.1 ≡ self.now.offset + self.now.length }
    {
        let begin = self.offset as usize;
        (begin, begin + usize::from(self.length))
    }

    /// Why it is not taken, over an image of so many bytes.
    #[tactic(auto, unfolding(crate::specs::Items::refusal))]
    fn refusal(&self, size: usize) -> Option<Code>
        ensures { result ≡ refusal size self.now }
    {
        let Some(kind) = kind_of(self.kind) else {
            return Some(Code::BadKind);
        };
        if self.length == 0 {
            return Some(Code::BadLength);
        }
        if usize::from(self.length) > MAX_DATA {
            return Some(Code::BadLength);
        }
        if !is_in_range(kind, self.address, self.length) {
            return Some(Code::BadRange);
        }
        if self.place().1 > size {
            return Some(Code::BadPlace);
        }
        None
    }

    /// The address in its datagram: a broadcast read begins with ADP 0.
    pub(crate) fn wire_address(&self) -> u32
        requires { is_broadcast (kind_named self.now.kind) ≡ true → self.now.address < 65536 }
        ensures { (image : List ℕ) → result ≡ wire_address (asked image self.now) }
    {
        if self.kind() == Kind::Brd {
            address_of(0, self.address as u16)
        } else {
            self.address
        }
    }

    /// Its data in the image.
    pub(crate) fn data<'a>(&self, image: &'a [u8]) -> &'a [u8]
        requires { self.now.offset + self.now.length ≤ length image.now }
        ensures value { result.now
            ≡ slice_range image.now self.now.offset (self.now.offset + self.now.length) }
        ensures count { length result.now ≡ self.now.length }
    {
        let (begin, end) = self.place();
        &image[begin..end]
    }
}

/// An item that is not taken, and why.
#[derive(Drop)]
pub(crate) struct Refused {
    /// The number of the item.
    pub(crate) at: usize,
    /// Why it is not taken.
    pub(crate) why: Code,
}

/// The first item that is not taken, over an image of so many bytes.
pub(crate) fn first_refused(items: &[Item], size: usize) -> Option<Refused>
    ensures { MatchOption result (AreTaken size items.now) (IsFirstRefused size items.now) }
{
    for k in 0..items.len() {
        if let Some(why) = items[k].refusal(size) {
            return Some(Refused { at: k, why });
        }
    }
    None
}

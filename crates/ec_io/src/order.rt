//! What a program wants of the next cycle.

ghost use Rattle.std.specs.Prelude.{◌≡◌, ◌+◌, ◌≤◌, ◌↔◌, ◌++◌, length, drop, Some, Err, IsOk, IfOk, IfErr};
ghost use Rattle.std.specs.Prelude.{IsOkAnd, IsTrue, OnErr};
ghost use Rattle.ec_io.specs.Cycle.{IsSpellable};
ghost use Rattle.ec_io.specs.Order.{IsOrder, OrderValue, order_at, order_bytes, order_fault, order_head};
ghost use Rattle.ec_io.specs.Order.{order_value};
ghost use Rattle.ec_io.specs.declared.fault.PacketFault.{PacketFault};

use crate::cycle::{cycle_number, cycle_of, is_spellable};
use crate::fault::{NoRoom, PacketFault};
use crate::front::{front_fault, packet_size, put_front, put_packet};
use crate::layout::{MAX_DATA, ORDER, ORDER_HEAD, SEEN_AT};
use crate::numbers::u64_at;
use byteorder::{ByteOrder, LittleEndian};

/// What a program wants of the next cycle.
#[derive(Clone, Copy, PartialEq, Eq, Debug)]
pub struct Order<'a> {
    /// The number of the cycle of the last report that the program saw, below `u64::MAX`; none where it saw
    /// none.
    pub seen: Option<u64>,
    /// The outputs, at most 65,535 bytes.
    pub outputs: &'a [u8],
}

impl<'a> Order<'a> {
    /// The order that the bytes are, all of them, or their first fault.
    pub fn read(bytes: &'a [u8]) -> Result<Order<'a>, PacketFault>
        ensures found { IfOk result (λ order. IsOrder bytes.now (order_value order)) }
        ensures fault { IfErr result (λ fault. order_fault bytes.now ≡ Some fault) }
        ensures only_found { (v : OrderValue) → IsOrder bytes.now v
            → IsOkAnd result (λ order. order_value order ≡ v) }
        ensures only_fault { (f : PacketFault) → order_fault bytes.now ≡ Some f → result ≡ Err f }
    {
        match front_fault(bytes, ORDER_HEAD, ORDER) {
            Some(fault) => Err(fault),
            None => Ok(order_in(bytes)),
        }
    }

    /// Can the order be written: is the cycle that was seen none, or below `u64::MAX`?
    pub fn is_spellable(&self) -> bool
        ensures { IsTrue result ↔ IsSpellable self.now.seen }
    {
        is_spellable(self.seen)
    }

    /// Writes the order to the front of `into`, leaves what is behind it, and says how many bytes it takes.
    /// Where there is no room for it, or the outputs are more than 65,535 bytes, nothing is written.
    pub fn write(&self, into: &mut [u8]) -> Result<usize, NoRoom>
        requires { IsSpellable self.now.seen }
        ensures size { IfOk result (λ size. size ≡ ORDER_HEAD + length self.now.outputs.now) }
        ensures written { IfOk result (λ size. into.new
            ≡ order_bytes (order_value self.now) ++ drop size into.old) }
        ensures kept { OnErr result (into.new ≡ into.old) }
        ensures room { IsOk result ↔ ((length self.now.outputs.now ≤ MAX_DATA)
            × (ORDER_HEAD + length self.now.outputs.now ≤ length into.old)) }
    {
        let size = packet_size(ORDER_HEAD, self.outputs.len(), into.len())?;
        let head = order_head(self.seen, self.outputs.len() as u16);
        put_packet(into, &head, self.outputs);
        Ok(size)
    }
}

/// What the bytes of an order say.
fn order_in(bytes: &[u8]) -> Order<'_>
    requires { ORDER_HEAD ≤ length bytes.now }
    ensures { order_value result ≡ order_at bytes.now }
{
    Order {
        seen: cycle_of(u64_at(bytes, SEEN_AT)),
        outputs: &bytes[ORDER_HEAD..],
    }
}

/// The head of an order with as many bytes of outputs.
fn order_head(seen: Option<u64>, count: u16) -> [u8; ORDER_HEAD]
    ensures { result ≡ order_head seen count }
{
    let mut head = [0; ORDER_HEAD];
    put_front(&mut head, ORDER, count);
    LittleEndian::write_u64(&mut head[SEEN_AT..], cycle_number(seen));
    head
}

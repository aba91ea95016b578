//! What a master asks in each cycle.

ghost use Rattle.std.specs.Prelude.{◌≡◌, ◌==◌, ◌<◌, ◌≤◌, ◌*◌, ◌++◌, IfOk, length, take, drop};
ghost use Rattle.std.specs.Result.{result_err};
ghost use Rattle.ec_regs.specs.Bits.{bit};
ghost use Rattle.ec_map.specs.Item.{item_fault, new_item};

use crate::kind::{ItemFault, is_broadcast, is_in_range, is_logical};
use arrayvec::ArrayVec;
use ec_wire::{Datagram, Kind, MAX_DATA, address_of};
use std::marker::Model;

/// What a master asks in each cycle, with the data and the counter of the last answer. Contracts see its
/// kind, address, data, counter and ADP.
#[derive(Drop)]
pub struct Item {
    kind: Kind,
    address: u32,
    payload: ArrayVec<u8, MAX_DATA>,
    counter: u16,
    adp: u16,
}

impl Model for Item {
    ghost use Rattle.std.specs.Prelude.{◌≡◌, None, length};
    ghost use Rattle.ec_map.specs.Item.{ItemRecord, item_fault};

    ghost Value = { ItemRecord };

    ghost view = { λ i. record {
      kind = i.kind;
      address = i.address;
      payload = i.payload.items;
      counter = i.counter;
      adp = i.adp;
    } };

    ghost invariant = { λ i. item_fault i.kind i.address (length i.payload.items) ≡ None };
}

/// Bit `at` of the bytes.
fn bit(bytes: &[u8], at: usize) -> bool
    requires { at < 8 * length bytes.now }
    ensures { result ≡ (bit bytes.now at == 1) }
{
    bytes[at / 8] >> (at % 8) & 1 == 1
}

/// Gives a list of bytes those of another.
fn assign_bytes(bytes: &mut ArrayVec<u8, MAX_DATA>, other: &[u8])
    requires { length other.now ≤ MAX_DATA }
    ensures { bytes.new.items ≡ other.now }
{
    if bytes.len() != other.len() {
        bytes.clear();
        bytes.try_extend_from_slice(other).unwrap();
    } else {
        bytes.as_mut_slice().copy_from_slice(other);
    }
}

/// Puts bytes in front of others, of which as many give way.
fn put_before(others: &mut [u8], bytes: &[u8])
    ensures value { others.new
        ≡ take (length others.old) bytes.now ++ drop (length bytes.now) others.old }
    ensures size { length others.new ≡ length others.old }
{
    if bytes.len() < others.len() {
        others[..bytes.len()].copy_from_slice(bytes);
    } else {
        others.copy_from_slice(&bytes[..others.len()]);
    }
}

impl Default for Item {
    /// What an unused place of a list of items holds: a logical read of one byte at address 0.
    fn default() -> Self {
        let mut payload = ArrayVec::new();
        payload.push(0);
        Item {
            kind: Kind::Lrd,
            address: 0,
            payload,
            counter: 0,
            adp: 0,
        }
    }
}

impl Item {
    ghost use Rattle.ec_wire.specs.Datagram.{record_of};
    ghost use Rattle.ec_map.specs.Item.{IsItem, with_adp, wire_address, datagram_of, item_bit};

    /// An item with counter 0 and ADP 0. The address is a logical one; for a broadcast read the ADO, below
    /// 0x1000; for an addressed item the station plus 65,536 times the ADO. It is refused, in this order,
    /// with `BadLength` where there are no data or more than 1,486 bytes, and with `BadRange` where a logical
    /// range ends past 2^32, a broadcast read past 0x1000, or an addressed range past 0x3000.
    pub fn new(kind: Kind, address: u32, bytes: &[u8]) -> Result<Item, ItemFault>
        ensures item { IfOk result (λ item. item ≡ new_item kind address bytes.now) }
        ensures fault { result_err result ≡ item_fault kind address (length bytes.now) }
    {
        if bytes.is_empty() || bytes.len() > MAX_DATA {
            return Err(ItemFault::BadLength);
        }
        if !is_in_range(kind, address, bytes.len()) {
            return Err(ItemFault::BadRange);
        }
        let mut payload = ArrayVec::new();
        payload.try_extend_from_slice(bytes).unwrap();
        Ok(Item {
            kind,
            address,
            payload,
            counter: 0,
            adp: 0,
        })
    }

    /// A second item with the same fields.
    pub fn copy(&self) -> Item
        ensures { result ≡ self.now }
    {
        let mut payload = ArrayVec::new();
        payload
            .try_extend_from_slice(self.payload.as_slice())
            .unwrap();
        Item {
            kind: self.kind,
            address: self.address,
            payload,
            counter: self.counter,
            adp: self.adp,
        }
    }

    /// Becomes a second item with the same fields as another. Where both have as many data, nothing but these
    /// is copied.
    pub fn assign(&mut self, other: &Item)
        ensures { self.new ≡ other.now }
    {
        assign_bytes(&mut self.payload, other.payload.as_slice());
        self.kind = other.kind;
        self.address = other.address;
        self.counter = other.counter;
        self.adp = other.adp;
    }

    /// What it asks.
    pub fn kind(&self) -> Kind
        ensures { result ≡ self.now.kind }
    {
        self.kind
    }

    /// The address of the item, as it was made.
    pub fn address(&self) -> u32
        ensures { result ≡ self.now.address }
    {
        self.address
    }

    /// The data of the item.
    pub fn data(&self) -> &[u8]
        ensures { result.now ≡ self.now.payload }
    {
        self.payload.as_slice()
    }

    /// The working counter of the item.
    pub fn counter(&self) -> u16
        ensures { result ≡ self.now.counter }
    {
        self.counter
    }

    /// The ADP of the item, which a broadcast read counts up at each slave; of other kinds 0.
    pub fn adp(&self) -> u16
        ensures { result ≡ self.now.adp }
    {
        self.adp
    }

    /// The number of its data bytes, 1 to 1,486. (Its clause `item` is what a proof knows of every item.)
    pub fn len(&self) -> usize
        ensures length { result ≡ length self.now.payload }
        ensures item { IsItem self.now }
    {
        // For the prover: fields that are read are numbers of their types.
        let _address = self.address;
        let _counter = self.counter;
        let _adp = self.adp;
        self.payload.len()
    }

    /// Gives it other data of the same length; all else stays.
    pub fn set_data(&mut self, bytes: &[u8])
        requires { length bytes.now ≡ length self.old.payload }
        ensures { self.new ≡ record self.old { payload = bytes.now } }
    {
        self.payload.as_mut_slice().copy_from_slice(bytes);
    }

    /// Puts bytes in front of its data, of which as many give way; all else stays.
    pub fn put_front(&mut self, bytes: &[u8])
        ensures { self.new ≡ record self.old {
          payload = take (length self.old.payload) bytes.now ++ drop (length bytes.now) self.old.payload;
        } }
    {
        put_before(self.payload.as_mut_slice(), bytes);
    }

    /// Sets its working counter; all else stays.
    pub fn set_counter(&mut self, counter: u16)
        ensures { self.new ≡ record self.old { counter = counter } }
    {
        self.counter = counter;
    }

    /// Sets the ADP of a broadcast read; all else stays, and every other kind of item.
    pub fn set_adp(&mut self, adp: u16)
        ensures { self.new ≡ with_adp self.old adp }
    {
        if is_broadcast(self.kind) {
            self.adp = adp;
        }
    }

    /// The address in its datagram.
    pub(crate) fn wire_address(&self) -> u32
        ensures { result ≡ wire_address self.now }
    {
        if is_broadcast(self.kind) {
            address_of(self.adp, self.address as u16)
        } else {
            self.address
        }
    }

    /// The datagram that asks it, with an index, not circulating and without event requests.
    pub fn datagram(&self, index: u8) -> Datagram
        ensures { record_of result ≡ datagram_of self.now index }
    {
        let mut payload = ArrayVec::new();
        payload
            .try_extend_from_slice(self.payload.as_slice())
            .unwrap();
        Datagram {
            command: self.kind.command(),
            index,
            address: self.wire_address(),
            circulating: false,
            irq: 0,
            payload,
            counter: self.counter,
        }
    }

    /// Makes a datagram the one that asks it, with this index, whatever it was. Where both have as many data,
    /// nothing but these is copied.
    pub fn put_datagram(&self, index: u8, datagram: &mut Datagram)
        ensures { record_of datagram.new ≡ datagram_of self.now index }
    {
        assign_bytes(&mut datagram.payload, self.payload.as_slice());
        datagram.command = self.kind.command();
        datagram.index = index;
        datagram.address = self.wire_address();
        datagram.circulating = false;
        datagram.irq = 0;
        datagram.counter = self.counter;
    }

    /// The data's bit of a logical bit, 8 * byte + bit, or `None` where the item is not logical or the bit
    /// does not lie in it.
    pub fn bit(&self, logical: u64) -> Option<bool>
        ensures { result ≡ item_bit self.now logical }
    {
        if !is_logical(self.kind) {
            return None;
        }
        let first = 8 * u64::from(self.address);
        let bits = 8 * self.payload.len() as u64;
        if logical < first || logical - first >= bits {
            return None;
        }
        Some(bit(self.payload.as_slice(), (logical - first) as usize))
    }
}

//! What is told of one slave.

ghost use Rattle.std.specs.Prelude.{◌≡◌, ◌<◌, ◌≤◌, ◌+◌, length};
ghost use Rattle.ecat_told.specs.Registers.{gate_at, manager_gate};
ghost use Rattle.ecat_told.specs.Slave.{is_at, station_of, told_run, untold, with_byte, with_bytes, word_of};

use crate::byte::{Byte, Gate, How};
use crate::registers::{KEPT, SYNC_MANAGER_PLACE, place_of};

/// What is told of one slave: of each byte of its station address, of AL status, and of the records of its
/// FMMUs and sync managers, in the places of `registers`.
#[derive(Clone, Copy, PartialEq, Eq, Debug)]
pub struct Slave {
    /// Its bytes.
    pub bytes: [Byte; KEPT],
}

/// The number of two bytes, where both are told.
fn word_of(low: Option<u8>, high: Option<u8>) -> Option<u16>
    ensures { result ≡ word_of low high }
{
    match low {
        None => None,
        Some(low) => match high {
            None => None,
            Some(high) => Some(u16::from(low) + 256 * u16::from(high)),
        },
    }
}

/// May a master write a byte of sync managers' records, which has this offset in all of them?
fn manager_gate(bytes: &[Byte; KEPT], offset: u32) -> Gate
    requires { offset < 64 }
    ensures { result ≡ manager_gate bytes.now offset }
{
    match offset % 8 {
        5 | 7 => Gate::Shut,
        6 => Gate::Open,
        _ => bytes[(offset / 8 * 8 + 142) as usize].gate(),
    }
}

/// May a master write the byte at an address?
#[tactic(auto, unfolding(crate::specs::Registers::gate_at))]
fn gate_at(bytes: &[Byte; KEPT], address: u32) -> Gate
    ensures { result ≡ gate_at bytes.now address }
{
    match address {
        0x0130..=0x0135 => Gate::Shut,
        0x0800..=0x083f => manager_gate(bytes, address - 0x0800),
        _ => Gate::Open,
    }
}

/// Tells of the byte at an address what a datagram that carries this value did with it.
#[tactic(auto, unfolding(crate::specs::Slave::with_byte))]
fn put_byte(now: &mut [Byte; KEPT], arrived: &[Byte; KEPT], how: How, address: u32, value: u8)
    ensures { now.new ≡ with_byte how arrived.now address value now.old }
{
    match place_of(address) {
        Some(place) => {
            now[place] = now[place].after(how, gate_at(arrived, address), value);
        }
        None => {}
    }
}

impl Slave {
    /// Nothing is told.
    pub fn new() -> Slave
        ensures { result ≡ untold }
    {
        Slave {
            bytes: [Byte::Untold; KEPT],
        }
    }

    /// Its station address, where both bytes are told.
    #[tactic(auto, unfolding(crate::specs::Slave::station_of))]
    pub fn station(&self) -> Option<u16>
        ensures { result ≡ station_of self.now }
    {
        word_of(self.bytes[0].value(), self.bytes[1].value())
    }

    /// Is its station address told, and is it this one?
    pub(crate) fn is_at(&self, station: u16) -> bool
        ensures { result ≡ is_at station self.now }
    {
        match self.station() {
            None => false,
            Some(x) => x == station,
        }
    }

    /// Takes what a datagram did with a run of bytes from an address on.
    #[tactic(auto, unfolding(crate::specs::Slave::told_run))]
    pub fn take(&mut self, how: How, address: u16, values: &[u8])
        requires { length values.now < 65536 }
        ensures { self.new ≡ told_run how address values.now self.old }
    {
        let arrived = self.bytes;
        put_bytes(&mut self.bytes, &arrived, how, u32::from(address), values);
    }
}

/// Tells of a run of bytes from an address on what a datagram did with them.
fn put_bytes(now: &mut [Byte; KEPT], arrived: &[Byte; KEPT], how: How, address: u32, values: &[u8])
    requires address { address < 65536 }
    requires size { length values.now < 65536 }
    ensures { now.new ≡ with_bytes how arrived.now address values.now now.old }
{
    for k in 0..values.len() {
        put_byte(now, arrived, how, address + k as u32, values[k]);
    }
}

impl Slave {
    /// The value of the byte at a place, where it is told or guessed.
    pub(crate) fn value(&self, place: usize) -> Option<u8> {
        self.bytes.get(place)?.value()
    }

    /// The number of two bytes from a place on.
    pub(crate) fn word(&self, place: usize) -> Option<u16> {
        let low = self.value(place)?;
        let high = self.value(place.saturating_add(1))?;
        Some(u16::from_le_bytes([low, high]))
    }

    /// Is there a mailbox from an address on, told to be enabled, which the master writes, or reads?
    pub(crate) fn has_mailbox(&self, address: u16, writes: bool) -> bool {
        for number in 0..8usize {
            if self.is_mailbox(SYNC_MANAGER_PLACE + 8 * number, address, writes) {
                return true;
            }
        }
        false
    }

    /// Is the record at a place that of such a mailbox?
    fn is_mailbox(&self, place: usize, address: u16, writes: bool) -> bool {
        let kind = if writes { 6 } else { 2 };
        self.word(place) == Some(address)
            && self
                .value(place.saturating_add(4))
                .is_some_and(|control| control & 0x0f == kind)
            && self
                .value(place.saturating_add(6))
                .is_some_and(|activate| activate & 1 == 1)
    }
}

//! Where an item may go on a line, and by how much its working counter moves, by the slaves' records alone.

ghost use Rattle.std.specs.Prelude.{◌≡◌, IfOk, replicate};
ghost use Rattle.std.specs.Result.{result_err};
ghost use Rattle.ec_wire.specs.declared.datagram.TheConstants.{MAX_DATA};
ghost use Rattle.ec_map.specs.Item.{item_fault, new_item};
ghost use Rattle.rummymaple.specs.Asked.{expectation, item_code, request, request_fault};
ghost use Rattle.rummymaple.specs.Asked.{IsPlaceEnd, place_answer};
ghost use Rattle.rummymaple.specs.declared.asked.PlaceEnd.{PlaceEnd};

use crate::item::{Item, kind_of};
use crate::judge::ItemAnswer;
use crate::numbers::Code;
use ec_check::Records;
use ec_map::{ItemFault, PlaceFault, check_item, expected};
use ec_wire::{Kind, MAX_DATA};

/// How the check of an item ended.
#[derive(Clone, Copy)]
pub enum PlaceEnd {
    /// It goes where a cycle may.
    Placed,
    /// It goes where a cycle may not.
    Outside(PlaceFault),
    /// It is no item.
    NoItem(Code),
}

/// By how much a working counter moves: `struct rmp_expectation` of the header.
#[repr(C)]
#[derive(Clone, Copy)]
pub struct Expectation {
    /// By how much, modulo 65,536.
    pub counter: u32,
    /// How it ended: good, or why there is no such item.
    pub code: u32,
}

/// The code of why there is no item.
fn item_code(fault: ItemFault) -> Code
    ensures { result ≡ item_code fault }
{
    match fault {
        ItemFault::BadLength => Code::BadLength,
        ItemFault::BadRange => Code::BadRange,
    }
}

/// As many zeros as an item has at most.
fn most_zeros() -> [u8; MAX_DATA]
    ensures { result ≡ replicate MAX_DATA 0 }
{
    [0; MAX_DATA]
}

/// A master's item of so many zeros.
fn zeros(kind: Kind, address: u32, count: u16) -> Result<ec_map::Item, ItemFault>
    ensures item { IfOk result (λ item. item ≡ new_item kind address (replicate count 0)) }
    ensures fault { result_err result ≡ item_fault kind address count }
{
    let count = usize::from(count);
    if count > MAX_DATA {
        return Err(ItemFault::BadLength);
    }
    let zeros = most_zeros();
    ec_map::Item::new(kind, address, &zeros[..count])
}

/// The item of a master that asks what this one asks.
fn request(item: &Item) -> Result<ec_map::Item, Code>
    ensures made { IfOk result (λ made. made ≡ request item.now) }
    ensures fault { result_err result ≡ request_fault item.now }
{
    let Some(kind) = kind_of(item.kind) else {
        return Err(Code::BadKind);
    };
    match zeros(kind, item.address, item.length) {
        Ok(item) => Ok(item),
        Err(fault) => Err(item_code(fault)),
    }
}

impl PlaceEnd {
    /// The end in numbers.
    fn answer(self) -> ItemAnswer
        ensures { result ≡ place_answer self }
    {
        let (at, code) = match self {
            PlaceEnd::Placed => (0, Code::Good),
            PlaceEnd::Outside(PlaceFault::OutsideRead { slave, .. }) => (slave, Code::OutsideRead),
            PlaceEnd::Outside(PlaceFault::OutsideWrite { slave, .. }) => (
                slave,
                Code::OutsideWrite,
            ),
            PlaceEnd::NoItem(code) => (0, code),
        };
        ItemAnswer {
            at,
            code: code.number(),
        }
    }
}

/// Checks where an item goes.
fn place(line: &[Records], item: &Item) -> PlaceEnd
    ensures { IsPlaceEnd line.now item.now result }
{
    let item = match request(item) {
        Ok(item) => item,
        Err(code) => return PlaceEnd::NoItem(code),
    };
    match check_item(line, &item) {
        Ok(()) => PlaceEnd::Placed,
        Err(fault) => PlaceEnd::Outside(fault),
    }
}

/// Says whether an item goes where a cycle may, on a line of slaves with these records: an addressed read to
/// registers or into one buffered area that the master reads, an addressed write into one that it writes;
/// else the slave of its station is named. Logical items and broadcast reads always do.
#[unsafe(no_mangle)]
pub extern "C" fn rmp_check_item(line: &[Records], item: &Item) -> ItemAnswer
    ensures { (end : PlaceEnd) × (result ≡ place_answer end) × IsPlaceEnd line.now item.now end }
{
    place(line, item).answer()
}

/// Says by how much the working counter of an item moves on a line of slaves with these records, where all
/// links are up and each slave takes part.
#[unsafe(no_mangle)]
pub extern "C" fn rmp_expected(line: &[Records], item: &Item) -> Expectation
    ensures { result ≡ expectation line.now item.now (request_fault item.now) }
{
    match request(item) {
        Ok(item) => Expectation {
            counter: u32::from(expected(line, &item)),
            code: Code::Good.number(),
        },
        Err(code) => Expectation {
            counter: 0,
            code: code.number(),
        },
    }
}

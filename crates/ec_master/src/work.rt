//! What a master asks in each cycle.

ghost use Rattle.std.specs.Prelude.{◌≡◌, ◌+◌, ◌++◌, ◌∷◌, ◌<◌, ◌≤◌, ◌↔◌, ℕ, [], length, map, slice_get, Some};
ghost use Rattle.std.specs.Prelude.{OnOk, OnErr, IsErr};
ghost use Rattle.std.specs.Borrow.{sem};
ghost use Rattle.std.specs.List.{AllByRecursion};
ghost use Rattle.ec_master.specs.Lending.{LendsItem};
ghost use Rattle.ec_master.specs.Rounds.{begun, round_counter};
ghost use Rattle.ec_master.specs.Unordered.{HasBytes};
ghost use Rattle.ec_master.specs.Work.{nth_item, rewound, with_answer, with_answers_at};
ghost use Rattle.ec_map.specs.Item.{IsItem, datagram_of, with_adp};
ghost use Rattle.ec_regs.specs.Bits.{AreBytes};
ghost use Rattle.ec_wire.specs.Datagram.{nth, record_of};

use ec_map::Item;
use ec_wire::{Datagram, FrameBuf};
use std::marker::Model;

/// The most items of a work.
pub const MAX_ITEMS: usize = 32;

/// By how much the counters of a round differ from those of the one before it.
const ROUND_STEP: u16 = 2048;

/// How many rounds have counters of their own.
const ROUNDS: u64 = 32;

/// A work has `MAX_ITEMS` items.
#[derive(Clone, Copy, PartialEq, Eq, Debug)]
pub struct Full;

/// What a master asks in each cycle: at most `MAX_ITEMS` items, with the last answers. Contracts see the list
/// of its items.
#[derive(Drop)]
pub struct Work {
    items: [Item; MAX_ITEMS],
    count: usize,
}

impl Model for Work {
    ghost use Rattle.std.specs.Prelude.{◌≡◌, ◌≤◌, List, length, take};
    ghost use Rattle.ec_map.specs.Item.{ItemRecord};
    ghost use Rattle.ec_master.specs.declared.work.TheConstants.{MAX_ITEMS};

    ghost Value = { List ItemRecord };

    ghost view = { λ w. take w.count w.items };

    ghost invariant = { λ w. (w.count ≤ MAX_ITEMS) × (length w.items ≡ MAX_ITEMS) };
}

impl Work {
    /// A work without items.
    pub fn new() -> Work
        ensures { result ≡ [] }
    {
        Work {
            items: Default::default(),
            count: 0,
        }
    }

    /// Adds an item behind the others; a work of `MAX_ITEMS` stays as it is.
    pub fn push(&mut self, item: Item) -> Result<(), Full>
        ensures ok { OnOk result (self.new ≡ self.old ++ item ∷ []) }
        ensures err { OnErr result (self.new ≡ self.old) }
        ensures full { IsErr result ↔ (length self.old ≡ MAX_ITEMS) }
    {
        if self.count == MAX_ITEMS {
            return Err(Full);
        }
        self.items[self.count] = item;
        self.count += 1;
        Ok(())
    }

    /// Becomes a second work with the same items as another. Nothing but these is copied, and of items that
    /// have as many data as those that stood here before, nothing but the data.
    pub fn assign(&mut self, other: &Work)
        ensures { self.new ≡ other.now }
    {
        self.resize(other.len());
        self.fill(other);
    }

    /// Has so many items, whichever.
    fn resize(&mut self, count: usize)
        requires { count ≤ MAX_ITEMS }
        ensures { length self.new ≡ count }
    {
        self.count = count;
    }

    /// Takes the items of another work that has as many.
    fn fill(&mut self, other: &Work)
        requires { length self.old ≡ length other.now }
        ensures { self.new ≡ other.now }
    {
        for k in 0..other.len() {
            self.item_mut(k).assign(other.item(k));
        }
    }

    /// The number of items, at most `MAX_ITEMS`.
    pub fn len(&self) -> usize
        ensures count { result ≡ length self.now }
        ensures limit { result ≤ MAX_ITEMS }
    {
        self.count
    }

    /// The item at `k`.
    pub fn item(&self, k: usize) -> &Item
        requires { k < length self.now }
        ensures { slice_get self.now k ≡ Some result.now }
    {
        // For the prover: a work that is counted has at most `MAX_ITEMS` items.
        let _count = self.len();
        &self.items[k]
    }

    /// The item at `k`, to be given other data; all else stays.
    pub fn item_mut(&mut self, k: usize) -> &mut Item
        requires { k < length self.old }
        ensures* writes_back { sem 𝓛 (LendsItem self.entry k result) }
        ensures value { slice_get self.old k ≡ Some result.now }
    {
        // For the prover: a work that is counted has at most `MAX_ITEMS` items.
        let _count = self.len();
        &mut self.items[k]
    }

    /// The datagram that asks the item at `k`, with `k` as index. (Its clause `item` is what a proof knows of
    /// every item of a work.)
    pub(crate) fn datagram(&self, k: usize) -> Datagram
        requires { k < length self.now }
        ensures datagram { record_of result ≡ datagram_of (nth_item self.now k) k }
        ensures item { IsItem (nth_item self.now k) }
    {
        // For the prover: a work that is counted has at most `MAX_ITEMS` items.
        let _count = self.len();
        let item = self.item(k);
        let _length = item.len();
        item.datagram(k as u8)
    }

    /// Makes a datagram the one that asks the item at `k`, with `k` as index, whatever it was.
    pub(crate) fn put_datagram(&self, k: usize, datagram: &mut Datagram)
        requires { k < length self.now }
        ensures { record_of datagram.new ≡ datagram_of (nth_item self.now k) k }
    {
        // For the prover: a work that is counted has at most `MAX_ITEMS` items.
        let _count = self.len();
        self.item(k).put_datagram(k as u8, datagram);
    }

    /// Does nothing; its clauses are what a proof knows of the items of every work.
    pub fn are_items(&self)
        ensures items { AllByRecursion IsItem self.now }
        ensures limit { length self.now ≤ MAX_ITEMS }
    {
        for k in 0..self.len() {
            let _length = self.item(k).len();
        }
    }

    /// Does nothing; its clause is what a proof knows of the data of every work: those of each item are
    /// bytes.
    pub fn data_are_bytes(&self)
        ensures { AllByRecursion HasBytes self.now }
    {
        for k in 0..self.len() {
            are_bytes(self.item(k).data());
        }
    }

    /// Gives the items from `first` on the answers of a frame, each its own.
    pub(crate) fn take_answers(&mut self, first: usize, joined: &FrameBuf)
        requires room { first + length joined.now ≤ length self.old }
        requires sizes { (j : ℕ) → j < length joined.now
            → length (nth joined.now j).payload ≡ length (nth_item self.old (first + j)).payload }
        ensures { self.new ≡ with_answers_at first self.old joined.now }
    {
        // For the prover: a work that is counted has at most `MAX_ITEMS` items.
        let _count = self.len();
        for j in 0..joined.count() {
            take_answer(self.item_mut(first + j), joined, j);
        }
    }

    /// Sets the counters, and the ADP of broadcast reads, to 0; all else stays.
    pub fn rewind(&mut self)
        ensures { self.new ≡ map rewound self.old }
    {
        self.begin_round(0);
    }

    /// Begins a round: sets the counters to those with which the frames of cycle number `round` go out, and
    /// the ADP of broadcast reads to 0; all else stays. Of rounds that are less than 32 apart no two have the
    /// same counters. When a copy that comes some rounds late shows in the verdict is said at `run_cycle`
    /// (`frames_suffice`).
    pub fn begin_round(&mut self, round: u64)
        ensures { self.new ≡ map (begun round) self.old }
    {
        let counter = round_counter(round);
        for k in 0..self.len() {
            begin_item(self.item_mut(k), counter);
        }
    }
}

/// What is known of every slice of bytes: each of its elements is below 256.
fn are_bytes(bytes: &[u8])
    ensures { AreBytes bytes.now }
{}

/// Gives an item the answer of the datagram at `j`: its data, its working counter, and its ADP where the item
/// is a broadcast read.
fn take_answer(item: &mut Item, joined: &FrameBuf, j: usize)
    requires there { j < length joined.now }
    requires size { length (nth joined.now j).payload ≡ length item.old.payload }
    ensures { item.new ≡ with_answer item.old (nth joined.now j) }
{
    item.set_data(joined.data(j));
    item.set_counter(joined.counter(j));
    item.set_adp(joined.adp(j));
}

/// The counter with which the frames of a round go out.
fn round_counter(round: u64) -> u16
    ensures { result ≡ round_counter round }
{
    ROUND_STEP * (round % ROUNDS) as u16
}

/// Sets an item's counter to that of a round, and the ADP of a broadcast read to 0.
fn begin_item(item: &mut Item, counter: u16)
    ensures { item.new ≡ with_adp (record item.old { counter = counter }) 0 }
{
    item.set_counter(counter);
    item.set_adp(0);
}

//! The outputs that lines change.

ghost use Rattle.std.specs.Prelude.{◌≡◌, ◌<◌, ◌++◌, ◌∷◌, [], IfOk, IsTrue, OnErr, OnOk, Err, Ok, length};
ghost use Rattle.std.specs.Prelude.{take};
ghost use Rattle.ecat_control.specs.Changes.{bytes_of, changed, outputs_in, outputs_of, placed, placed_in};
ghost use Rattle.ecat_control.specs.Changes.{has_run, over, put_placed, span_of, spans_in};
ghost use Rattle.ecat_control.specs.declared.refusal.Fault.{Fault};

use crate::change::{Change, Place, Run, bytes_of};
use crate::refusal::Fault;
use arrayvec::ArrayVec;
use ec_map::Item;
use ec_master::{MAX_ITEMS, Work};
use ec_regs::bits::copy_bits;
use std::alloc::{AllocError, Global};

/// How many bits a byte has.
const BYTE: usize = 8;

/// Where the bytes of an item stand among the outputs, and how many there are.
#[derive(Clone, Copy, PartialEq, Eq, Default, Debug)]
pub(crate) struct Span {
    /// Whether it writes. One that does not has no outputs.
    pub(crate) writes: bool,
    /// Behind how many of the outputs its own stand.
    pub(crate) at: usize,
    /// How many bytes the item has.
    pub(crate) count: usize,
}

/// The outputs of a work, item after item, as lines change them.
#[derive(Drop)]
pub struct Outputs {
    pub(crate) spans: ArrayVec<Span, MAX_ITEMS>,
    pub(crate) bytes: Vec<u8>,
    /// Room for outputs that may come to be refused.
    trial: Vec<u8>,
    ghost room: { length trial.items ≡ length bytes.items },
}

impl Outputs {
    /// The outputs of the first so many items of a work, as they stand there.
    pub fn of(alloc: Global, work: &Work, items: usize) -> Result<Outputs, AllocError>
        ensures spans { IfOk result (λ outputs. outputs.spans.items ≡ spans_in 0 (take items work.now)) }
        ensures bytes { IfOk result (λ outputs. outputs.bytes.items ≡ outputs_in (take items work.now)) }
    {
        let mut spans = ArrayVec::new();
        let mut bytes = Vec::new(alloc);
        for k in 0..work.len().min(items) {
            put_item(work.item(k), &mut spans, &mut bytes)?;
        }
        let trial = vec![in alloc; 0; bytes.len()]?;
        Ok(Outputs {
            spans,
            bytes,
            trial,
        })
    }

    /// The bytes, one item behind the other.
    pub fn bytes(&self) -> &[u8]
        ensures { result.now ≡ self.now.bytes.items }
    {
        self.bytes.as_slice()
    }

    /// How many items there are.
    pub fn items(&self) -> usize
        ensures { result ≡ length self.now.spans.items }
    {
        self.spans.len()
    }

    /// How many bytes an item has, if there is one of this number.
    pub fn length_of(&self, item: usize) -> Option<usize> {
        match self.spans.get(item) {
            Some(span) => Some(span.count),
            None => None,
        }
    }

    /// Changes the bytes of each place of a change, one place after the other. Where one of them lies in no
    /// item that writes, or not in it to its end, all bytes stay as they were, and it is said what is wrong
    /// with the first one.
    pub fn set(&mut self, change: &Change) -> Result<(), Fault>
        ensures done { IfOk result (λ _. changed self.old.spans.items change.now.bytes.items
            change.now.places.items self.old.bytes.items ≡ Ok self.new.bytes.items) }
        ensures refused { (fault : Fault) → result ≡ Err fault → changed self.old.spans.items
            change.now.bytes.items change.now.places.items self.old.bytes.items ≡ Err fault }
        ensures stays { OnErr result (self.new.bytes.items ≡ self.old.bytes.items) }
        ensures spans { self.new.spans ≡ self.old.spans }
    {
        set_whole(
            self.spans.as_slice(),
            change.places.as_slice(),
            change.bytes.as_slice(),
            self.bytes.as_mut_slice(),
            self.trial.as_mut_slice(),
        )
    }
}

/// Puts the outputs of an item behind others, and where they stand.
fn put_item(
    item: &Item,
    spans: &mut ArrayVec<Span, MAX_ITEMS>,
    bytes: &mut Vec<u8>,
) -> Result<(), AllocError>
    requires { length spans.old.items < MAX_ITEMS }
    ensures spans { spans.new.items ≡ spans.old.items ++ span_of (length bytes.old.items) item.now ∷ [] }
    ensures bytes { OnOk result (bytes.new.items ≡ bytes.old.items ++ outputs_of item.now) }
{
    let _ = spans.try_push(span_of(item, bytes.len()));
    if item.kind().command().writes() {
        bytes.extend_from_slice(item.data())?;
    }
    Ok(())
}

/// Where the outputs of an item stand that are to stand there.
fn span_of(item: &Item, at: usize) -> Span
    ensures { result ≡ span_of at item.now }
{
    Span {
        writes: item.kind().command().writes(),
        at,
        count: item.len(),
    }
}

/// Puts the bytes of each place among outputs, or leaves them as they are: those that come of it are made in
/// room beside.
fn set_whole(
    spans: &[Span],
    places: &[Place],
    bytes: &[u8],
    outputs: &mut [u8],
    trial: &mut [u8],
) -> Result<(), Fault>
    requires { length trial.old ≡ length outputs.old }
    ensures done { IfOk result (λ _. changed spans.now bytes.now places.now outputs.old ≡ Ok outputs.new) }
    ensures refused { (fault : Fault) → result ≡ Err fault
        → changed spans.now bytes.now places.now outputs.old ≡ Err fault }
    ensures stays { OnErr result (outputs.new ≡ outputs.old) }
    ensures size { length outputs.new ≡ length outputs.old }
    ensures room { length trial.new ≡ length outputs.new }
{
    trial.copy_from_slice(outputs);
    match put_places(spans, places, bytes, trial) {
        Ok(()) => {}
        Err(fault) => return Err(fault),
    }
    outputs.copy_from_slice(trial);
    Ok(())
}

/// Puts the bytes of each place among outputs, one place after the other, up to the first one that lies in no
/// item that writes, or not in it to its end.
fn put_places(
    spans: &[Span],
    places: &[Place],
    bytes: &[u8],
    outputs: &mut [u8],
) -> Result<(), Fault>
    ensures done { IfOk result (λ _. changed spans.now bytes.now places.now outputs.old ≡ Ok outputs.new) }
    ensures refused { (fault : Fault) → result ≡ Err fault
        → changed spans.now bytes.now places.now outputs.old ≡ Err fault }
    ensures size { length outputs.new ≡ length outputs.old }
{
    for place in places {
        match put_place(spans, *place, bytes, outputs) {
            Ok(()) => {}
            Err(fault) => return Err(fault),
        }
    }
    Ok(())
}

/// Puts the bytes of a place among outputs, if it lies in an item that writes, to its end; else nothing is
/// changed.
fn put_place(spans: &[Span], place: Place, bytes: &[u8], outputs: &mut [u8]) -> Result<(), Fault>
    ensures done { IfOk result (λ _. put_placed (placed spans.now place) place.run
        (bytes_of place bytes.now) outputs.old ≡ Ok outputs.new) }
    ensures refused { (fault : Fault) → result ≡ Err fault → put_placed (placed spans.now place) place.run
        (bytes_of place bytes.now) outputs.old ≡ Err fault }
    ensures size { length outputs.new ≡ length outputs.old }
{
    let at = placed(spans, place)?;
    put_bytes(outputs, at, place.run, bytes_of(place, bytes))
}

/// Where among the outputs the bytes of a place go, if it lies in an item that writes, to its end; else what
/// is wrong with it.
fn placed(spans: &[Span], place: Place) -> Result<usize, Fault>
    ensures { result ≡ placed spans.now place }
{
    match spans.get(place.item) {
        None => Err(Fault::NoItem),
        Some(span) => placed_in(*span, place),
    }
}

/// Where among the outputs the bytes of a place go that is to lie in this item.
fn placed_in(span: Span, place: Place) -> Result<usize, Fault>
    ensures { result ≡ placed_in span place }
{
    if !span.writes {
        return Err(Fault::NoOutputs);
    }
    if place.offset <= span.count && place.count <= span.count - place.offset {
        Ok(span.at.saturating_add(place.offset))
    } else {
        Err(Fault::OutOfRange)
    }
}

/// Puts bytes among others, or the bits of a run alone, at a place where they have room; else nothing is
/// changed.
fn put_bytes(outputs: &mut [u8], at: usize, run: Option<Run>, bytes: &[u8]) -> Result<(), Fault>
    ensures done { IfOk result (λ _. put_placed (Ok at) run bytes.now outputs.old ≡ Ok outputs.new) }
    ensures refused { (fault : Fault) → result ≡ Err fault
        → put_placed (Ok at) run bytes.now outputs.old ≡ Err fault }
    ensures stays { OnErr result (outputs.new ≡ outputs.old) }
    ensures size { length outputs.new ≡ length outputs.old }
{
    if at > outputs.len() || bytes.len() > outputs.len() - at {
        return Err(Fault::OutOfRange);
    }
    if !has_run(run, bytes) {
        return Err(Fault::OutOfRange);
    }
    put_over(run, bytes, &mut outputs[at..at + bytes.len()]);
    Ok(())
}

/// Puts bytes in the place of as many others, or the bits of a run alone, which lies in them.
fn put_over(run: Option<Run>, bytes: &[u8], others: &mut [u8])
    requires size { length others.old ≡ length bytes.now }
    requires inside { IsTrue (has_run run bytes.now) }
    ensures put { others.new ≡ over run bytes.now others.old }
    ensures size { length others.new ≡ length others.old }
{
    match run {
        None => others.copy_from_slice(bytes),
        Some(Run { first, count }) => copy_bits(others, first, bytes, first, count),
    }
}

/// Does a run lie in bytes?
fn has_run(run: Option<Run>, bytes: &[u8]) -> bool
    ensures { result ≡ has_run run bytes.now }
{
    match run {
        None => true,
        Some(Run { first, count }) => {
            let bits = bytes.len().saturating_mul(BYTE);
            first <= bits && count <= bits - first
        }
    }
}

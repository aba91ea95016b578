//! A source whose bytes are looked at before they are taken.
ghost use Rattle.std.specs.Prelude.{◌≡◌, ◌<◌, ◌≤◌, ◌++◌, IfOk, Err, Ok, [], length, take, true};
ghost use Rattle.std.specs.Prelude.{false, vec_len};
ghost use Rattle.ecat_capture.specs.Input.{BeginsWith, IsExhausted, ahead, place_behind, run};
ghost use Rattle.ecat_source.specs.Source.{CanFail};
ghost use Rattle.std.specs.Io.KnownBytes.{Consumes, IsAtEnd, Keeps};

use ecat_source::Source;
use std::alloc::{AllocError, Global};
use std::marker::Model;
use std::mem;

/// How many bytes are asked of the source at a time.
const READ_LEN: usize = 65536;

/// Why bytes couldn't be read.
#[derive(Clone, Copy)]
pub(crate) enum InputFault {
    /// A read of the source failed.
    Read,
    /// Memory ran out.
    NoMemory,
}

/// A source, and what was read of it and not taken yet, which is looked at in one piece.
#[derive(Drop)]
pub(crate) struct Window<S: Source> {
    source: S,
    alloc: Global,
    // what one read gives
    chunk: Vec<u8>,
    // what was read, of which the bytes from `from` on are not taken
    buffer: Vec<u8>,
    // where the next buffer is made
    spare: Vec<u8>,
    from: usize,
    place: u64,
    // where the packet lies that was taken last
    packet_from: usize,
    packet_to: usize,
}

impl<S: Source> Model for Window<S> {
    ghost use Rattle.std.specs.Prelude.{◌≤◌, drop, vec_len};
    ghost use Rattle.ecat_capture.specs.Input.{Input, run};

    ghost Value = { Input };

    ghost view = { λ w. record {
      loaded = drop w.from w.buffer.items;
      rest = S.remaining w.source;
      count = S.count w.source;
      place = w.place;
      packet = run w.packet_from w.packet_to w.buffer.items;
    } };

    ghost invariant = { λ w. (w.from ≤ vec_len w.buffer) × (w.packet_from ≤ w.packet_to)
        × (w.packet_to ≤ vec_len w.buffer) };
}

impl<S: Source> Window<S> {
    /// All that the source has left is ahead, and nothing was read of it yet.
    pub(crate) fn new(alloc: Global, source: S) -> Window<S>
        ensures loaded { result.loaded ≡ [] }
        ensures rest { result.rest ≡ S.remaining source }
        ensures count { result.count ≡ S.count source }
        ensures place { result.place ≡ 0 }
        ensures packet { result.packet ≡ [] }
    {
        Window {
            source,
            alloc,
            chunk: Vec::new(alloc),
            buffer: Vec::new(alloc),
            spare: Vec::new(alloc),
            from: 0,
            place: 0,
            packet_from: 0,
            packet_to: 0,
        }
    }

    /// How often the source has failed.
    pub(crate) fn failures(&self) -> u64
        ensures { result ≡ self.now.count }
    {
        self.source.failures()
    }

    /// How many bytes were taken.
    pub(crate) fn place(&self) -> u64
        ensures { result ≡ self.now.place }
    {
        self.place
    }

    /// The bytes of the packet that was taken last.
    pub(crate) fn packet(&self) -> &[u8]
        ensures { result.now ≡ self.now.packet }
    {
        &self.buffer[self.packet_from..self.packet_to]
    }

    /// How many bytes are loaded.
    pub(crate) fn len(&self) -> usize
        ensures { result ≡ length self.now.loaded }
    {
        self.buffer.len() - self.from
    }

    /// The first bytes ahead.
    pub(crate) fn front(&self, count: usize) -> &[u8]
        requires { count ≤ length self.now.loaded }
        ensures value { result.now ≡ take count self.now.loaded }
        ensures len { length result.now ≡ count }
        ensures begins { BeginsWith (ahead self.now) result.now }
    {
        &self.buffer[self.from..self.from + count]
    }

    /// Takes the first bytes ahead, among which the bytes of a packet lie.
    pub(crate) fn take(&mut self, count: usize, packet_from: usize, packet_to: usize)
        requires within { packet_from ≤ packet_to }
        requires reach { packet_to ≤ count }
        requires loaded { count ≤ length self.old.loaded }
        ensures taken { Consumes (ahead self.old) (ahead self.new) (take count self.old.loaded) }
        ensures packet { self.new.packet ≡ run packet_from packet_to (take count self.old.loaded) }
        ensures place { self.new.place ≡ place_behind self.old.place count }
        ensures count { self.new.count ≡ self.old.count }
    {
        self.packet_from = self.from + packet_from;
        self.packet_to = self.from + packet_to;
        self.from += count;
        self.place = self.place.saturating_add(count as u64);
    }

    /// Loads bytes until there are so many, and says whether there are.
    pub(crate) fn fill(&mut self, wanted: usize) -> Result<bool, InputFault>
        ensures loaded { result ≡ Ok true → wanted ≤ length self.new.loaded }
        ensures end { result ≡ Ok false → IsExhausted self.new }
        ensures few { result ≡ Ok false → length self.new.loaded < wanted }
        ensures same { IfOk result (λ _. Keeps (ahead self.old) (ahead self.new)) }
        ensures front { IfOk result (λ _.
            take (length self.old.loaded) self.new.loaded ≡ self.old.loaded) }
        ensures more { IfOk result (λ _. length self.old.loaded ≤ length self.new.loaded) }
        ensures place { self.new.place ≡ self.old.place }
        ensures monotone { self.old.count ≤ self.new.count }
        ensures read { result ≡ Err InputFault.Read → self.old.count < self.new.count }
    {
        while self.len() < wanted {
            if !self.read_on()? {
                return Ok(false);
            }
        }
        Ok(true)
    }

    // Reads on behind what is loaded, and says whether anything came.
    fn read_on(&mut self) -> Result<bool, InputFault>
        ensures grows { result ≡ Ok true → length self.old.loaded < length self.new.loaded }
        ensures end { result ≡ Ok false → IsExhausted self.new }
        ensures kept { result ≡ Ok false → self.new.loaded ≡ self.old.loaded }
        ensures same { IfOk result (λ _. Keeps (ahead self.old) (ahead self.new)) }
        ensures front { IfOk result (λ _.
            take (length self.old.loaded) self.new.loaded ≡ self.old.loaded) }
        ensures more { IfOk result (λ _. length self.old.loaded ≤ length self.new.loaded) }
        ensures place { self.new.place ≡ self.old.place }
        ensures monotone { self.old.count ≤ self.new.count }
        ensures read { result ≡ Err InputFault.Read → self.old.count < self.new.count }
    {
        let count = read_chunk(self.alloc, &mut self.source, &mut self.chunk)?;
        let left = &self.buffer[self.from..];
        if join(left, &self.chunk[..count], &mut self.spare).is_err() {
            return Err(InputFault::NoMemory);
        }
        mem::swap(&mut self.buffer, &mut self.spare);
        self.from = 0;
        self.packet_from = 0;
        self.packet_to = 0;
        Ok(count > 0)
    }
}

// Reads into the front of the room, which is allocated if it isn't there yet.
fn read_chunk<S: Source>(
    alloc: Global,
    source: &mut S,
    chunk: &mut Vec<u8>,
) -> Result<usize, InputFault>
    ensures bound { IfOk result (λ count. count ≤ vec_len chunk.new) }
    ensures taken { IfOk result (λ count.
        Consumes (S.remaining source.old) (S.remaining source.new) (take count chunk.new.items)) }
    ensures end { IfOk result (λ count.
        count ≡ 0 → CanFail (S.count source.new) → IsAtEnd (S.remaining source.new)) }
    ensures monotone { S.count source.old ≤ S.count source.new }
    ensures read { result ≡ Err InputFault.Read → S.count source.old < S.count source.new }
{
    if chunk.is_empty() {
        *chunk = match Vec::from_elem(alloc, 0, READ_LEN) {
            Ok(empty) => empty,
            Err(_) => return Err(InputFault::NoMemory),
        };
    }
    match source.read(chunk.as_mut_slice()) {
        Ok(count) => Ok(count),
        Err(_) => Err(InputFault::Read),
    }
}

// Puts two runs, one behind the other, in the place of what the room holds.
fn join(first: &[u8], second: &[u8], into: &mut Vec<u8>) -> Result<(), AllocError>
    ensures { IfOk result (λ _. into.new.items ≡ first.now ++ second.now) }
{
    into.clear();
    into.extend_from_slice(first)?;
    into.extend_from_slice(second)
}

//! A source behind a buffer, so that small pieces cost no read each.
ghost use Rattle.std.specs.Prelude.{◌≡◌, ◌<◌, ◌≤◌, IfOk, Err, length, take, vec_len};
ghost use Rattle.std.specs.Io.KnownBytes.{Consumes, IsAtEnd};
ghost use Rattle.ecat_source.specs.Source.{CanFail};

use crate::sources::Source;
use std::alloc::Global;
use std::marker::Model;

/// How many bytes are asked of the source at a time.
const BUFFER_LEN: usize = 65536;

/// Why bytes couldn't be taken.
#[derive(Clone, Copy)]
pub(crate) enum InputFault {
    /// A read of the source failed.
    Read,
    /// Memory for the buffer ran out.
    NoMemory,
}

/// A source, and what was read of it and not taken yet. The first read allocates the buffer.
#[derive(Drop)]
pub(crate) struct Buffered<S: Source> {
    source: S,
    alloc: Global,
    buffer: Vec<u8>,
    from: usize,
    to: usize,
}

impl<S: Source> Model for Buffered<S> {
    ghost use Rattle.std.specs.Prelude.{◌≤◌, vec_len};
    ghost use Rattle.std.specs.Io.KnownBytes.{prepend_known};
    ghost use Rattle.ecat_source.specs.Input.{Input, run};

    ghost Value = { Input };

    ghost view = { λ b. record {
      ahead = prepend_known (run b.from b.to b.buffer.items) (S.remaining b.source);
      count = S.count b.source;
    } };

    ghost invariant = { λ b. (b.from ≤ b.to) × (b.to ≤ vec_len b.buffer) };
}

impl<S: Source> Buffered<S> {
    /// All that the source has left is ahead, and nothing was read of it yet.
    pub(crate) fn new(alloc: Global, source: S) -> Buffered<S>
        ensures ahead { result.ahead ≡ S.remaining source }
        ensures count { result.count ≡ S.count source }
    {
        Buffered {
            source,
            alloc,
            buffer: Vec::new(alloc),
            from: 0,
            to: 0,
        }
    }

    /// How often the source has failed.
    pub(crate) fn failures(&self) -> u64
        ensures { result ≡ self.now.count }
    {
        self.source.failures()
    }

    /// Fills the room with the bytes ahead, and says how many they are: fewer than there is room for only at
    /// the end, or where the source's count of failures stands at the greatest number.
    pub(crate) fn take(&mut self, into: &mut [u8]) -> Result<usize, InputFault>
        ensures bound { IfOk result (λ count. count ≤ length into.new) }
        ensures taken { IfOk result (λ count.
            Consumes self.old.ahead self.new.ahead (take count into.new)) }
        ensures end { IfOk result (λ count.
            count < length into.new → CanFail self.new.count → IsAtEnd self.new.ahead) }
        ensures monotone { self.old.count ≤ self.new.count }
        ensures read { result ≡ Err InputFault.Read → self.old.count < self.new.count }
    {
        let mut count = 0;
        while count < into.len() {
            let some = self.take_some(&mut into[count..])?;
            if some == 0 {
                break;
            }
            count += some;
        }
        Ok(count)
    }

    // Takes some of the bytes ahead, as a read of a source does.
    fn take_some(&mut self, into: &mut [u8]) -> Result<usize, InputFault>
        requires { 0 < length into.old }
        ensures bound { IfOk result (λ count. count ≤ length into.new) }
        ensures taken { IfOk result (λ count.
            Consumes self.old.ahead self.new.ahead (take count into.new)) }
        ensures end { IfOk result (λ count.
            count ≡ 0 → CanFail self.new.count → IsAtEnd self.new.ahead) }
        ensures monotone { self.old.count ≤ self.new.count }
        ensures read { result ≡ Err InputFault.Read → self.old.count < self.new.count }
    {
        if self.from == self.to {
            self.from = 0;
            self.to = 0;
            self.to = refill(self.alloc, &mut self.source, &mut self.buffer)?;
        }
        let count = (self.to - self.from).min(into.len());
        into[..count].copy_from_slice(&self.buffer[self.from..self.from + count]);
        self.from += count;
        Ok(count)
    }
}

// Reads into the front of the buffer, which is allocated if it isn't there yet.
fn refill<S: Source>(
    alloc: Global,
    source: &mut S,
    buffer: &mut Vec<u8>,
) -> Result<usize, InputFault>
    ensures bound { IfOk result (λ count. count ≤ vec_len buffer.new) }
    ensures taken { IfOk result (λ count.
        Consumes (S.remaining source.old) (S.remaining source.new) (take count buffer.new.items)) }
    ensures end { IfOk result (λ count.
        count ≡ 0 → CanFail (S.count source.new) → IsAtEnd (S.remaining source.new)) }
    ensures monotone { S.count source.old ≤ S.count source.new }
    ensures read { result ≡ Err InputFault.Read → S.count source.old < S.count source.new }
{
    if buffer.is_empty() {
        *buffer = match Vec::from_elem(alloc, 0, BUFFER_LEN) {
            Ok(empty) => empty,
            Err(_) => return Err(InputFault::NoMemory),
        };
    }
    match source.read(buffer.as_mut_slice()) {
        Ok(count) => Ok(count),
        Err(_) => Err(InputFault::Read),
    }
}

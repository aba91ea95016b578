//! What gives bytes: the trait, and its two implementations for programs.
ghost use Rattle.std.specs.Prelude.{◌≡◌, ◌<◌, ◌≤◌, ◌-◌, ◌^◌, ℕ, List, IfOk, OnErr, Ok, Option, Some, drop};
ghost use Rattle.std.specs.Prelude.{length, min, take};
ghost use Rattle.std.specs.Io.KnownBytes.{Consumes, IsAtEnd, Keeps};
ghost use Rattle.ecat_source.specs.Source.{CanFail};

use std::io::Read;
use thiserror::Error;

/// A read failed. The source's count of failures says that too.
#[derive(Clone, Copy, Debug, PartialEq, Eq, Error)]
#[error("Read")]
pub struct SourceFault;

/// What gives bytes, and counts its failures.
///
/// A source may tell proofs which bytes it has left, as bytes in memory do. A file tells nothing.
pub trait Source {
    // the bytes that reads give from here on, where the source tells them
    ghost remaining: { Self → Option (List ℕ) };

    // how often a read has failed
    ghost count: { Self → ℕ };

    /// Reads some bytes into the front of the room, and says how many: at most as many as there is room
    /// for, and perhaps fewer although more are left.
    ///
    /// It is 0 only at the end, or where the count of failures stands at the greatest number, so that
    /// a failure couldn't be counted any more.
    fn read(&mut self, into: &mut [u8]) -> Result<usize, SourceFault>
        requires room { 0 < length into.old }

        ensures bound { IfOk result (λ n. n ≤ length into.new) }
        ensures taken { IfOk result (λ n.
            Consumes (remaining self.old) (remaining self.new) (take n into.new)) }
        ensures end { IfOk result (λ n.
            n ≡ 0 → CanFail (count self.old) → IsAtEnd (remaining self.new)) }

        ensures monotone { count self.old ≤ count self.new }
        ensures failed { OnErr result (count self.old < count self.new) }
        ensures err { OnErr result (Keeps (remaining self.old) (remaining self.new)) }
        ensures greatest { 2 ^ 64 - 1 ≤ count self.old → result ≡ Ok 0 };

    /// How often a read has failed.
    fn failures(&self) -> u64
        ensures { result ≡ count self.now };
}

impl<S: Source> Source for &mut S {
    ghost remaining = { λ s. S.remaining s.now };

    ghost count = { λ s. S.count s.now };

    fn read(&mut self, into: &mut [u8]) -> Result<usize, SourceFault> {
        Source::read(&mut **self, into)
    }

    fn failures(&self) -> u64 {
        Source::failures(&**self)
    }
}

/// Bytes in memory, as a source that tells them and never fails.
#[derive(Drop)]
pub struct Bytes<'a> {
    left: &'a [u8],
}

impl<'a> Bytes<'a> {
    /// A source of these bytes.
    pub fn new(bytes: &'a [u8]) -> Bytes<'a>
        ensures { ⟦<Bytes<'a> as Source>⟧.remaining result ≡ Some bytes.entry.now }
    {
        Bytes { left: bytes }
    }
}

impl Source for Bytes<'_> {
    ghost remaining = { λ s. Some s.left.now };

    ghost count = { λ _. 0 };

    fn read(&mut self, into: &mut [u8]) -> Result<usize, SourceFault> {
        Ok(take_front(&mut self.left, into))
    }

    fn failures(&self) -> u64 {
        0
    }
}

/// A reader of std, as a source that counts its errors.
#[derive(Drop)]
pub struct Counted<R> {
    reader: R,
    failures: u64,
}

impl<R: Read> Counted<R> {
    /// A source of what the reader gives, which has not failed yet.
    pub fn new(reader: R) -> Counted<R>
        ensures remaining { ⟦<Counted<R> as Source>⟧.remaining result ≡ R.remaining reader }
        ensures count { ⟦<Counted<R> as Source>⟧.count result ≡ 0 }
    {
        Counted {
            reader,
            failures: 0,
        }
    }
}

impl<R: Read> Source for Counted<R> {
    ghost remaining = { λ s. R.remaining s.reader };

    ghost count = { λ s. s.failures };

    fn read(&mut self, into: &mut [u8]) -> Result<usize, SourceFault> {
        if self.failures == u64::MAX {
            return Ok(0);
        }
        match self.reader.read(into) {
            Ok(count) => Ok(count),
            Err(_) => {
                self.failures += 1;
                Err(SourceFault)
            }
        }
    }

    fn failures(&self) -> u64 {
        self.failures
    }
}

/// Copies as many bytes as are left and there is room for, takes them from what is left, and says how
/// many they are.
pub(crate) fn take_front(left: &mut &[u8], into: &mut [u8]) -> usize
    ensures count { result ≡ min (length left.old.now) (length into.old) }
    ensures taken { take result into.new ≡ take result left.old.now }
    ensures rest { left.new.now ≡ drop result left.old.now }
{
    let all: &[u8] = *left;
    let count = all.len().min(into.len());
    into[..count].copy_from_slice(&all[..count]);
    *left = &all[count..];
    count
}

//! Sources for tests: bytes in memory that come in small pieces, and a read that fails.
ghost use Rattle.std.specs.Prelude.{◌≡◌, ◌<◌, Some};

use crate::sources::{Source, SourceFault, take_front};

/// Bytes in memory, of which a read gives a few at a time. It tells its bytes, and never fails.
#[derive(Drop)]
pub struct Pieces<'a> {
    left: &'a [u8],
    most: usize,
    ghost some: { 0 < most },
}

impl<'a> Pieces<'a> {
    /// A source of these bytes, of which a read gives at most this many, 1 or more.
    pub fn new(bytes: &'a [u8], most: usize) -> Pieces<'a>
        requires { 0 < most }
        ensures { ⟦<Pieces<'a> as Source>⟧.remaining result ≡ Some bytes.entry.now }
    {
        Pieces { left: bytes, most }
    }
}

impl Source for Pieces<'_> {
    ghost remaining = { λ s. Some s.left.now };

    ghost count = { λ _. 0 };

    fn read(&mut self, into: &mut [u8]) -> Result<usize, SourceFault> {
        let room = into.len().min(self.most);
        Ok(take_front(&mut self.left, &mut into[..room]))
    }

    fn failures(&self) -> u64 {
        0
    }
}

/// Bytes in memory that come in small pieces, and one read that fails. It tells its bytes.
#[derive(Drop)]
pub struct FailsAt<'a> {
    pieces: Pieces<'a>,
    reads_before: u64,
    has_failed: bool,
}

impl<'a> FailsAt<'a> {
    ghost use Rattle.ecat_source.specs.Fakes.{reads_before_failure};

    /// A source of these bytes, of which a read gives at most this many, 1 or more. The first
    /// `reads_before` reads succeed, and the next one fails. A read after that succeeds again.
    pub fn new(bytes: &'a [u8], most: usize, reads_before: u64) -> FailsAt<'a>
        requires { 0 < most }
        ensures remaining { ⟦<FailsAt<'a> as Source>⟧.remaining result ≡ Some bytes.entry.now }
        ensures count { ⟦<FailsAt<'a> as Source>⟧.count result ≡ 0 }
        ensures reads { reads_before_failure result ≡ reads_before }
    {
        FailsAt {
            pieces: Pieces::new(bytes, most),
            reads_before,
            has_failed: false,
        }
    }
}

impl Source for FailsAt<'_> {
    ghost use Rattle.std.specs.Prelude.{if◌then◌else◌, Some};

    ghost remaining = { λ s. Some s.pieces.left.now };

    ghost count = { λ s. if s.has_failed then 1 else 0 };

    fn read(&mut self, into: &mut [u8]) -> Result<usize, SourceFault> {
        if self.reads_before == 0 && !self.has_failed {
            self.has_failed = true;
            return Err(SourceFault);
        }
        self.reads_before = self.reads_before.saturating_sub(1);
        self.pieces.read(into)
    }

    fn failures(&self) -> u64 {
        u64::from(self.has_failed)
    }
}

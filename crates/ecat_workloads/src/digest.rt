//! A digest of what is written, however it is cut into writes.

use byteorder::{ByteOrder, LittleEndian};
use std::io::{self, Write};

/// How many bytes are digested at a time.
const BLOCK: usize = 4096;

/// How many words of eight bytes they are.
const WORDS: usize = BLOCK / 8;

/// What a word is multiplied by.
const FACTOR: u64 = 0x9FB2_1C65_1E98_DF25;

/// An output that keeps a digest of all that is written to it, and none of the bytes.
#[derive(Drop)]
pub(crate) struct Digest {
    block: [u8; BLOCK],
    filled: usize,
    value: u64,
}

impl Digest {
    /// The digest of nothing.
    pub(crate) fn new() -> Digest {
        Digest {
            block: [0; BLOCK],
            filled: 0,
            value: FACTOR,
        }
    }

    /// The digest of all that was written.
    pub(crate) fn value(&mut self) -> u64 {
        let filled = self.filled.min(BLOCK);
        for byte in &mut self.block[filled..] {
            *byte = 0;
        }
        self.absorb();
        self.take(filled as u64);
        self.value
    }

    /// Takes a number.
    pub(crate) fn take(&mut self, word: u64) {
        self.value = (self.value ^ word).wrapping_mul(FACTOR).rotate_left(23);
    }

    /// Takes the block.
    fn absorb(&mut self) {
        for k in 0..WORDS {
            let word = LittleEndian::read_u64(&self.block[8 * k..8 * k + 8]);
            self.take(word);
        }
        self.filled = 0;
    }
}

impl Write for Digest {
    fn write(&mut self, bytes: &[u8]) -> io::Result<usize> {
        if self.filled >= BLOCK {
            self.absorb();
        }
        let from = self.filled.min(BLOCK);
        let count = bytes.len().min(BLOCK - from);
        self.block[from..from + count].copy_from_slice(&bytes[..count]);
        self.filled = from + count;
        Ok(count)
    }

    fn flush(&mut self) -> io::Result<()> {
        Ok(())
    }
}

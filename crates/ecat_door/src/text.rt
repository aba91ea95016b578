//! Room for an answer.

ghost use Rattle.std.specs.Prelude.{◌≡◌, ◌++◌, [], false};

use std::alloc::{AllocError, Global};
use std::io::{self, Write};

/// What is answered where an answer has no room.
const CUT: &[u8] = b"failed: the answer is longer than there is room\n";

/// Room for so many bytes of an answer. What is written where there is none is left out, and then the whole
/// text is one line that says so.
#[derive(Drop)]
pub struct Text {
    bytes: Vec<u8>,
    room: usize,
    is_cut: bool,
}

impl Text {
    /// Room for so many bytes, whose memory is taken here.
    pub fn with_room(alloc: Global, room: usize) -> Result<Text, AllocError> {
        Ok(Text {
            bytes: Vec::with_capacity(alloc, room)?,
            room,
            is_cut: false,
        })
    }

    /// What was written, or the line that says that there was no room for it.
    pub fn as_slice(&self) -> &[u8]
        ensures whole { self.now.is_cut ≡ false → result.now ≡ self.now.bytes.items }
    {
        if self.is_cut {
            CUT
        } else {
            self.bytes.as_slice()
        }
    }

    /// Was nothing written?
    pub fn is_empty(&self) -> bool {
        self.bytes.is_empty() && !self.is_cut
    }

    /// Forgets what was written.
    pub fn clear(&mut self)
        ensures { (self.new.bytes.items ≡ []) × (self.new.is_cut ≡ false) }
    {
        self.bytes.clear();
        self.is_cut = false;
    }

    /// Writes bytes behind what was written, all of them, or notes that there is no room.
    fn put(&mut self, bytes: &[u8])
        ensures whole { self.new.is_cut ≡ false
            → (self.old.is_cut ≡ false) × (self.new.bytes.items ≡ self.old.bytes.items ++ bytes.now) }
    {
        let left = self.room.saturating_sub(self.bytes.len());
        if left < bytes.len() || self.bytes.extend_from_slice(bytes).is_err() {
            self.is_cut = true;
        }
    }
}

impl Write for Text {
    fn write(&mut self, bytes: &[u8]) -> io::Result<usize> {
        self.put(bytes);
        Ok(bytes.len())
    }

    fn flush(&mut self) -> io::Result<()> {
        Ok(())
    }
}

//! What goes out at once: no more than one line, with its stamp.

ghost use Rattle.std.specs.Prelude.{◌≡◌, ◌≤◌, ◌-◌, ◌++◌, List, OnOk, IfOk, ℕ, is_none, position, take};
ghost use Rattle.std.specs.Io.KnownBytes.{Appends};
ghost use Rattle.ecat_stamps.specs.Stamps.{IsBefore, ends_line, taken};

use crate::stamp::{STAMP, stamp_of};
use arrayvec::{ArrayString, ArrayVec};
use std::io::{self, ErrorKind, Write};

/// How many bytes go out at once, at the most.
const AT_ONCE: usize = 4096;

/// How many of them are those of the line.
const ROOM: usize = AT_ONCE - STAMP;

/// How far the lines of a writer have come.
#[derive(Clone, Copy)]
pub(crate) struct Place {
    /// Whether what went out last is no end of a line.
    is_within: bool,
    /// The time that was written last, in nanoseconds since 1970.
    last: u64,
}

impl Place {
    /// Before the first line.
    pub(crate) fn first() -> Place {
        Place {
            is_within: false,
            last: 0,
        }
    }

    /// What stands before the bytes that are written next, where it is that time, if one is to stand there:
    /// the stamp of a line that begins. No time is before the last one.
    fn before(&mut self, now: Option<u64>) -> ArrayString<STAMP>
        ensures text { IsBefore self.old.is_within self.old.last now result.bytes }
        ensures within { self.new.is_within ≡ self.old.is_within }
        ensures never_falls { self.old.last ≤ self.new.last }
    {
        match now {
            Some(now) if !self.is_within => {
                self.last = self.last.max(now);
                stamp_of(self.last)
            }
            _ => ArrayString::new(),
        }
    }

    /// Writes the first line of some bytes, as far as it goes out at once, behind what stands before it,
    /// where it is that time; and answers how many bytes of the line these are.
    pub(crate) fn put_line<W: Write>(
        &mut self,
        now: Option<u64>,
        bytes: &[u8],
        out: &mut W,
    ) -> io::Result<usize>
        ensures count { IfOk result (λ count. count ≡ taken bytes.now (4096 - 34)) }
        ensures within { IfOk result
            (λ count. self.new.is_within ≡ is_none (position ends_line (take count bytes.now))) }
        ensures never_falls { self.old.last ≤ self.new.last }
        ensures written { IfOk result (λ count. (stamp : List ℕ)
            × IsBefore self.old.is_within self.old.last now stamp
            × Appends (W.contents out.old) (W.contents out.new) (stamp ++ take count bytes.now)) }
    {
        let stamp = self.before(now);
        let count = taken(bytes, ROOM);
        put(stamp.as_str().as_bytes(), &bytes[..count], out)?;
        self.is_within = end_of_line(&bytes[..count]).is_none();
        Ok(count)
    }
}

/// How many of some bytes go out at once where there is so much room: those of their first line, with its
/// end, as far as they fit.
fn taken(bytes: &[u8], room: usize) -> usize
    ensures { result ≡ taken bytes.now room }
{
    let line = match end_of_line(bytes) {
        Some(place) => place + 1,
        None => bytes.len(),
    };
    line.min(room)
}

/// Where the first line of some bytes ends, if it does there.
fn end_of_line(bytes: &[u8]) -> Option<usize>
    ensures { result ≡ position ends_line bytes.now }
{
    bytes.iter().position(|byte| ends_line(*byte))
}

/// Does a byte end a line?
fn ends_line(byte: u8) -> bool
    ensures { result ≡ ends_line byte }
{
    byte == b'\n'
}

/// Writes bytes with a stamp before them, by one write where the writer takes it whole. Its room stands on
/// the stack only where lines have their time.
#[inline(never)]
fn put<W: Write>(stamp: &[u8], bytes: &[u8], out: &mut W) -> io::Result<()>
    ensures { OnOk result (Appends (W.contents out.old) (W.contents out.new) (stamp.now ++ bytes.now)) }
{
    let mut piece = ArrayVec::<u8, AT_ONCE>::new();
    if piece.try_extend_from_slice(stamp).is_err() || piece.try_extend_from_slice(bytes).is_err() {
        return Err(io::Error::from(ErrorKind::InvalidInput));
    }
    out.write_all(piece.as_slice())
}

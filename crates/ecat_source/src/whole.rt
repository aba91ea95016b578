//! The whole of a source, as a scene wants it.
ghost use Rattle.std.specs.Prelude.{◌≡◌, ◌+◌, ◌<◌, ◌≤◌, List, ℕ, Err, IfOk, IfSome, OnOk, length, vec_len};
ghost use Rattle.std.specs.Io.KnownBytes.{Consumes, IsAtEnd};
ghost use Rattle.ecat_source.specs.Source.{CanFail};

use crate::sources::Source;
use std::alloc::Global;
use thiserror::Error;

/// Why a source's bytes are not there whole.
#[derive(Clone, Copy, Debug, PartialEq, Eq, Error)]
pub enum ReadAllFault {
    /// There are more bytes than the limit.
    #[error("TooLong")]
    TooLong,
    /// A read of the source failed.
    #[error("Read")]
    Read,
    /// Memory ran out.
    #[error("NoMemory")]
    NoMemory,
}

/// How many bytes are asked for at a time.
const CHUNK: usize = 4096;

/// All bytes that a source has left, if they are at most `limit`. Of a longer source no more than one byte
/// past the limit is read.
///
/// Where the source's count of failures stands at the greatest number, its reads answer that nothing is
/// left, and so what came before that is taken for the whole.
pub fn read_all<S: Source>(
    alloc: Global,
    source: &mut S,
    limit: usize,
) -> Result<Vec<u8>, ReadAllFault>
    ensures exact { IfOk result (λ bytes. CanFail (S.count source.new) →
        IfSome (S.remaining source.old) (λ all. bytes.items ≡ all)) }
    ensures bound { IfOk result (λ bytes. vec_len bytes ≤ limit) }
    ensures taken { IfOk result (λ bytes.
        Consumes (S.remaining source.old) (S.remaining source.new) bytes.items) }
    ensures whole { OnOk result (CanFail (S.count source.new) → IsAtEnd (S.remaining source.new)) }

    ensures too_long { result ≡ Err ReadAllFault.TooLong → (front : List ℕ) ×
        (length front ≡ limit + 1) × Consumes (S.remaining source.old) (S.remaining source.new) front }
    ensures read { result ≡ Err ReadAllFault.Read → S.count source.old < S.count source.new }
    ensures monotone { S.count source.old ≤ S.count source.new }
{
    let mut bytes = Vec::new(alloc);
    let mut chunk = [0; CHUNK];
    loop {
        let room = (limit - bytes.len()).min(CHUNK - 1) + 1;
        let count = match source.read(&mut chunk[..room]) {
            Ok(0) => return Ok(bytes),
            Ok(count) => count,
            Err(_) => return Err(ReadAllFault::Read),
        };
        if bytes.extend_from_slice(&chunk[..count]).is_err() {
            return Err(ReadAllFault::NoMemory);
        }
        if limit < bytes.len() {
            return Err(ReadAllFault::TooLong);
        }
    }
}

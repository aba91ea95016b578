//! Bytes put into the caller's room, one part behind the other.

ghost use Rattle.std.specs.Prelude.{◌≡◌, ◌+◌, ◌≤◌, ◌++◌, ℕ, List, length};
ghost use Rattle.rummymaple.specs.Room.{IsWritten};

/// Puts a part into the room that is written up to `at`, and says up to where it is written then.
pub(crate) fn put(room: &mut [u8], at: usize, part: &[u8]) -> usize
    requires { at + length part.now ≤ length room.old }
    ensures written { (written before : List ℕ) → IsWritten written before at room.old
        → IsWritten (written ++ part.now) before result room.new }
    ensures end { result ≡ at + length part.now }
    ensures size { length room.new ≡ length room.old }
{
    let end = at + part.len();
    room[at..end].copy_from_slice(part);
    end
}

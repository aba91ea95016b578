//! A frame's bytes put into the caller's room, and a frame to read others into.

ghost use Rattle.std.specs.Prelude.{◌≡◌, ◌<◌, IfSome, IfNone, length};
ghost use Rattle.ec_wire.specs.Spelling.{spelling, IsFrameValue};
ghost use Rattle.rummymaple.specs.Join.{IsPut};

use ec_diag::probe;
use ec_wire::FrameBuf;

/// How the writing of a frame into a room ended, in numbers: `struct rmp_written` of the header.
#[repr(C)]
#[derive(Clone, Copy)]
pub struct WrittenAnswer {
    /// How many bytes were written.
    pub bytes: usize,
    /// The first datagram that differs, or the byte at fault.
    pub at: usize,
    /// How it ended.
    pub code: u32,
}

/// A frame to read into: it is refilled in its place, so that a read moves no frame.
pub(crate) fn blank() -> FrameBuf {
    probe()
}

/// Puts the frame's bytes at the front of the room and says how many they are, or leaves a room that is too
/// small as it is.
pub(crate) fn put_frame(frame: &FrameBuf, room: &mut [u8]) -> Option<usize>
    ensures value { IsFrameValue frame.now }
    ensures put { IfSome result (λ count. IsPut (spelling frame.now) room.old count room.new) }
    ensures no_room { IfNone result (length room.old < length (spelling frame.now)) }
    ensures kept { IfNone result (room.new ≡ room.old) }
{
    let _datagrams = frame.count(); // its clause says that what is put is a frame
    let bytes = frame.bytes();
    let count = bytes.len();
    if room.len() < count {
        return None;
    }
    room[..count].copy_from_slice(bytes);
    Some(count)
}

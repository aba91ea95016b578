//! The worked rows that are scenes, with what `check` and `run` print.

use arrayvec::ArrayVec;
use ecat_record::unrecorded;
use ecat_scene::Scene;
use ecat_setup::LineFailure;
use ecat_simulation::{check, run};
use std::alloc::Global;
use std::io::Cursor;

/// Room for the text of a row's scene, and for what it prints.
pub const ROOM: usize = 1024;

/// Three slaves in Op, Safe-Op and Op.
pub const THREE: &[u8] = b"slave 0x1001\nstate 8\nslave 0x1002\nstate 4\nslave 0x1003\nstate 8\n";

/// One slave that writes and reads the same byte of the image.
const EXCHANGE: &[u8] = b"slave 0x1001\nsm 2 0x1000 1 write\nsm 3 0x1100 1 read\n\
    fmmu 0 0x10000 1 0 7 0x1000 0 write\nfmmu 1 0x10000 1 0 7 0x1100 0 read\nmem 0x1100 12\n";

/// Does a line that these slaves make, with what is then done, print so under `run`?
pub fn prints(
    alloc: Global,
    line: &[u8],
    done: &[u8],
    printed: &[u8],
    status: u8,
) -> Result<bool, LineFailure> {
    let mut text = ArrayVec::<u8, ROOM>::new();
    if text.try_extend_from_slice(line).is_err() || text.try_extend_from_slice(done).is_err() {
        return Ok(false);
    }
    let mut out = Cursor::new([0u8; ROOM]);
    let scene = Scene::read(alloc, text.as_slice())?;
    let answer = run(alloc, false, &mut unrecorded(), scene, &mut out)?;
    Ok(answer == status && written(&out) == printed)
}

/// Does `check` print so of this scene?
fn checks(alloc: Global, text: &[u8], printed: &[u8], status: u8) -> Result<bool, LineFailure> {
    let mut out = Cursor::new([0u8; ROOM]);
    let answer = check(alloc, &Scene::read(alloc, text)?, &mut out)?;
    Ok(answer == status && written(&out) == printed)
}

/// What was written to a cursor over an array.
pub fn written(cursor: &Cursor<[u8; ROOM]>) -> &[u8] {
    let count = cursor.position().min(ROOM as u64) as usize;
    &cursor.get_ref()[..count]
}

/// A slave that maps nothing leaves a logical read as it is.
pub fn unmapped_read_is_unchanged(alloc: Global) -> Result<bool, LineFailure> {
    let sent = b"frame 10100a070000010004000000000000000000\n";
    prints(alloc, b"slave 0x1001\n", sent, sent, 0)
}

/// A broadcast read takes the or of what all slaves have, and counts each of them.
pub fn broadcasts_reach_all(alloc: Global) -> Result<bool, LineFailure> {
    let sent = b"frame 0e100701000030010200000000000000\n";
    let back = b"frame 0e10070103003001020000000c000300\n";
    prints(alloc, THREE, sent, back, 0)
}

/// A broadcast read and an addressed read in one frame.
pub fn commands_of_one_frame_are_served(alloc: Global) -> Result<bool, LineFailure> {
    let sent = b"frame 1c1007000000300102800000000000000401011010000200000000000000\n";
    let back = b"frame 1c1007000100300102800000080001000401011010000200000001100100\n";
    prints(alloc, b"slave 0x1001\nstate 8\n", sent, back, 0)
}

/// A byte of a slave lies across two of the image; all other bits stay.
pub fn bits_are_taken_where_they_lie(alloc: Global) -> Result<bool, LineFailure> {
    let line =
        b"slave 0x1001\nsm 3 0x1100 1 read\nfmmu 0 0x10000 2 6 1 0x1100 0 read\nmem 0x1100 0b\n";
    let sent = b"frame 0e100a00000001000200000000000000\nframe 0e100a000000010002000000ffff0000\n";
    let back = b"frame 0e100a000000010002000000c0020100\nframe 0e100a000000010002000000fffe0100\n";
    prints(alloc, line, sent, back, 0)
}

/// An exchange leaves its outputs in the slave and brings back its inputs.
pub fn outputs_are_taken_and_inputs_given(alloc: Global) -> Result<bool, LineFailure> {
    let back = b"item 0 LRW data 12 wkc 3 of 3\nslave 0 sm 2 open ff shown ff\n";
    Ok(
        checks(alloc, EXCHANGE, b"accepted\n", 0)?
            && prints(alloc, EXCHANGE, b"lrw 0x10000 ff\n", back, 0)?,
    )
}

/// A byte of the image that is written to one slave and read from another.
pub fn read_and_written_is_refused(alloc: Global) -> Result<bool, LineFailure> {
    let scene = b"slave 0x1001\nsm 2 0x1000 1 write\nfmmu 0 0x10000 1 0 7 0x1000 0 write\n\
        slave 0x1002\nsm 3 0x1100 1 read\nfmmu 0 0x10000 1 0 7 0x1100 0 read\nmem 0x1100 12\n";
    let refused = b"refused: ReadAndWritten slave 1 fmmu 0 slave 0 fmmu 0 bit 524288\n";
    checks(alloc, scene, refused, 1)
}

/// Two slaves give four bits each, in both orders, with no link down and with each.
pub fn two_slaves_share_a_byte(alloc: Global) -> Result<bool, LineFailure> {
    let low_first =
        b"slave 0x1001\nsm 3 0x1100 1 read\nfmmu 0 0x10000 1 0 3 0x1100 0 read\nmem 0x1100 05\n\
        slave 0x1002\nsm 3 0x1100 1 read\nfmmu 0 0x10000 1 4 7 0x1100 0 read\nmem 0x1100 0a\n";
    let high_first =
        b"slave 0x1001\nsm 3 0x1100 1 read\nfmmu 0 0x10000 1 4 7 0x1100 0 read\nmem 0x1100 0a\n\
        slave 0x1002\nsm 3 0x1100 1 read\nfmmu 0 0x10000 1 0 3 0x1100 0 read\nmem 0x1100 05\n";
    let read: [&[u8]; 4] = [
        b"lrd 0x10000 00\n",
        b"link 0 down\nlrd 0x10000 00\n",
        b"link 1 down\nlrd 0x10000 00\n",
        b"link 2 down\nlrd 0x10000 00\n",
    ];
    let back = b"item 0 LRD data a5 wkc 2 of 2\n";
    for done in read {
        if !prints(alloc, low_first, done, back, 0)? || !prints(alloc, high_first, done, back, 0)? {
            return Ok(false);
        }
    }
    Ok(true)
}

/// A copy that turns round at a closed port is marked, and is destroyed where it comes marked.
pub fn a_ring_of_one_turns_once(alloc: Global) -> Result<bool, LineFailure> {
    let line = b"slave 0x1001\nstate 8\nlink 0 down\n";
    let sent = b"frame 0e100701000030010200000000000000\nframe 0e100701000030010240000000000000\n";
    let back = b"frame 0e100701010030010240000008000100\nframe 0e100701000030010240000000000000\n";
    prints(alloc, line, sent, back, 0)
}

/// A mailbox takes a mail of its own length alone, and none while it is full.
pub fn a_full_mailbox_takes_no_mail(alloc: Global) -> Result<bool, LineFailure> {
    let line = b"slave 0x1001\nsm 0 0x1800 16 mailbox-write\n";
    let sent = b"frame 1b100500011000180f0000000000000000000000000000000000000000\n\
        frame 1c1005000110001810000000000000000000000000000000000000000000\n\
        frame 1c1005000110001810000000000000000000000000000000000000000000\n";
    let back = b"frame 1b100500011000180f0000000000000000000000000000000000000000\n\
        frame 1c1005000110001810000000000000000000000000000000000000000100\n\
        frame 1c1005000110001810000000000000000000000000000000000000000000\n";
    prints(alloc, line, sent, back, 0)
}

/// Outputs are shown once their last byte is written.
pub fn outputs_are_shown_whole(alloc: Global) -> Result<bool, LineFailure> {
    let line = b"slave 0x1001\nsm 2 0x1000 2 write\n";
    let first = b"frame 0d1005000110001001000000aa0000\n";
    let first_back = b"frame 0d1005000110001001000000aa0100\nslave 0 sm 2 open aa00 shown 0000\n";
    let both = b"frame 0d1005000110001001000000aa0000\nframe 0d1005000110011001000000bb0000\n";
    let both_back = b"frame 0d1005000110001001000000aa0100\nframe 0d1005000110011001000000bb0100\n\
        slave 0 sm 2 open aabb shown aabb\n";
    Ok(prints(alloc, line, first, first_back, 0)? && prints(alloc, line, both, both_back, 0)?)
}

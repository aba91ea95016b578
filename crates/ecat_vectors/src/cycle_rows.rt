//! The worked rows of what copies meet on their way, and what the working counters then say.

use crate::scene_rows::{ROOM, THREE, prints, written};
use ec_merge::join_frames;
use ec_ring::{Came, Links, MAX_LINKS, Travel, Weather};
use ec_wire::{Form, FrameBuf};
use ecat_record::{TapedRing, unrecorded};
use ecat_scene::Scene;
use ecat_setup::{LineFailure, ring_of, weathers_of, work_of};
use ecat_simulation::cycle;
use ecat_text::Lines;
use std::alloc::Global;
use std::io::Cursor;

/// The broadcast read of AL status that is sent over three slaves.
const SENT: [u8; 16] = [
    0x0e, 0x10, 0x07, 0x01, 0x00, 0x00, 0x30, 0x01, 0x02, 0x00, 0x00, 0x00, 0x00, 0x00, 0x00, 0x00,
];

/// It comes back from all three, after it turned round at a closed port.
const TURNED: [u8; 16] = [
    0x0e, 0x10, 0x07, 0x01, 0x03, 0x00, 0x30, 0x01, 0x02, 0x40, 0x00, 0x00, 0x0c, 0x00, 0x03, 0x00,
];

/// It comes back from all three, and did not turn round.
const STRAIGHT: [u8; 16] = [
    0x0e, 0x10, 0x07, 0x01, 0x03, 0x00, 0x30, 0x01, 0x02, 0x00, 0x00, 0x00, 0x0c, 0x00, 0x03, 0x00,
];

/// Two slaves of the three were passed by both copies.
const COUNTED_TWICE: [u8; 16] = [
    0x0e, 0x10, 0x07, 0x01, 0x05, 0x00, 0x30, 0x01, 0x02, 0x40, 0x00, 0x00, 0x0c, 0x00, 0x05, 0x00,
];

/// All links up, but one if it is named.
fn links_without(down: Option<usize>) -> Links {
    let mut links = Links::new();
    if let Some(link) = down {
        if link < MAX_LINKS {
            links.set(link, false);
        }
    }
    links
}

/// What comes back of a frame from three slaves, with one link down or none for each copy.
fn came_of(
    alloc: Global,
    sent: &FrameBuf,
    for_a: Option<usize>,
    for_b: Option<usize>,
) -> Result<Came, LineFailure> {
    let scene = Scene::read(alloc, THREE)?;
    let mut ring = ring_of(alloc, scene.slaves, &[])?;
    let weather = Weather {
        a: links_without(for_a),
        b: links_without(for_b),
        lost_a: false,
        lost_b: false,
        b_first: false,
    };
    Ok(ring.trip(sent, &weather))
}

/// Is the copy there, with these bytes?
fn has_bytes(copy: &Option<FrameBuf>, bytes: &[u8]) -> bool {
    match copy {
        Some(frame) => frame.bytes() == bytes,
        None => false,
    }
}

/// With the first link down copy B alone comes back, with the last one copy A.
pub fn the_copy_that_came_back_counts(alloc: Global) -> Result<bool, LineFailure> {
    let Ok(sent) = FrameBuf::read(&SENT, Form::Ethernet) else {
        return Ok(false);
    };
    let first = came_of(alloc, &sent, Some(0), Some(0))?;
    let last = came_of(alloc, &sent, Some(3), Some(3))?;
    Ok(
        first.a.is_none()
            && has_bytes(&first.b, &TURNED)
            && has_bytes(&last.a, &STRAIGHT)
            && last.b.is_none(),
    )
}

/// A line without slaves counts nothing, and that is good.
pub fn no_slave_is_good(alloc: Global) -> Result<bool, LineFailure> {
    let whole = b"lrd 0x10000 0000\nbrd 0x0130 0000\nweather - - - a\n";
    let broken = b"lrd 0x10000 0000\nbrd 0x0130 0000\nlink 0 down\nweather 0 0 - a\n";
    let back = b"good\nitem 0 LRD data 0000 wkc 0 of 0\nitem 1 BRD data 0000 wkc 0 of 0 adp 0\n";
    Ok(prints(alloc, b"", whole, back, 0)? && prints(alloc, b"", broken, back, 0)?)
}

/// Slaves that both copies pass count twice, and the work takes no answer.
pub fn passing_twice_is_over(alloc: Global) -> Result<bool, LineFailure> {
    let Ok(sent) = FrameBuf::read(&SENT, Form::Ethernet) else {
        return Ok(false);
    };
    let came = came_of(alloc, &sent, None, Some(1))?;
    let joined = join_frames(&sent, came.a.as_ref(), came.b.as_ref());
    let done = b"brd 0x0130 0000\nweather - 1 - a\n";
    let back = b"over 0\nitem 0 BRD data 0000 wkc 0 of 3 adp 0\n";
    Ok(has_bytes(&joined.ok(), &COUNTED_TWICE) && prints(alloc, THREE, done, back, 1)?)
}

/// Where copy A is lost on its way back and copy B passes all slaves, the count is good, also past 65,535.
pub fn a_lost_copy_still_counts(alloc: Global) -> Result<bool, LineFailure> {
    let done = b"brd 0x0130 0000\nweather - 0 a a\n";
    let back = b"good\nitem 0 BRD data 0c00 wkc 3 of 3 adp 3\n";
    Ok(prints(alloc, THREE, done, back, 0)? && a_counter_passes_its_end(alloc)?)
}

/// The same with an item whose counter is 65,535 before.
fn a_counter_passes_its_end(alloc: Global) -> Result<bool, LineFailure> {
    let text = b"slave 0x1001\nstate 8\nslave 0x1002\nstate 4\nslave 0x1003\nstate 8\n\
        brd 0x0130 0000\nweather - 0 a a\n";
    let mut scene = Scene::read(alloc, text)?;
    for item in scene.items.iter_mut() {
        item.set_counter(65_535);
    }
    let weathers = weathers_of(alloc, scene.weathers.as_slice())?;
    let ring = ring_of(alloc, scene.slaves, &[])?;
    let mut work = work_of(scene.items)?;
    let mut out = Cursor::new([0u8; ROOM]);
    let mut lines = Lines::new(&mut out);
    let mut recorder = unrecorded();
    let mut ring = TapedRing::new(ring, &mut recorder);
    let status = cycle(&mut ring, &mut work, weathers.as_slice(), &mut lines)?;
    let back = b"good\nitem 0 BRD data 0c00 wkc 2 of 3 adp 3\n";
    Ok(status == 0 && written(&out) == back.as_slice())
}

/// A slave that no copy reaches does not count: that is short, and the work takes no answer.
pub fn gaps_are_short(alloc: Global) -> Result<bool, LineFailure> {
    let judged = b"brd 0x0130 0000\nweather 1,2 1,2 - a\n";
    let judged_back = b"short 0\nitem 0 BRD data 0000 wkc 0 of 3 adp 0\n";
    let taken = b"link 1 down\nlink 2 down\nbrd 0x0130 0000\n";
    let taken_back = b"item 0 BRD data 0800 wkc 2 of 3 adp 2\n";
    Ok(prints(alloc, THREE, judged, judged_back, 1)? && prints(alloc, THREE, taken, taken_back, 0)?)
}

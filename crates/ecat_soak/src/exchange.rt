//! What a cycle hands to the slaves and takes from them.

ghost use Rattle.std.specs.Prelude.{◌≡◌, IfSome, length};

use crate::random::Random;
use crate::slaves::{IMAGE, INPUT_AREA, INPUTS, LENGTH, OUTPUT_AREA, OUTPUTS, SLAVES};
use ec_app::Slave;
use ec_map::{Item, Kind};
use ec_master::Work;
use ec_ring::Ring;

/// The bytes of all slaves, in their order.
pub(crate) type Image = [u8; IMAGE];

/// Bytes as they are drawn.
pub(crate) fn drawn(random: &mut Random) -> Image {
    let mut image = [0; IMAGE];
    for place in &mut image {
        *place = (random.draw() % 256) as u8;
    }
    image
}

/// The part of an image that is a slave's.
fn part(image: &Image, place: usize) -> &[u8] {
    image.chunks(LENGTH).nth(place).unwrap_or_default()
}

/// Gives the slaves these inputs, and tells whether all took theirs.
pub(crate) fn put_inputs(ring: &mut Ring, inputs: &Image) -> bool {
    for place in 0..SLAVES {
        if !put_input(ring, place, part(inputs, place)) {
            return false;
        }
    }
    true
}

/// Gives the slave at a place its inputs.
fn put_input(ring: &mut Ring, place: usize, bytes: &[u8]) -> bool {
    if place >= ring.slaves().len() {
        return false;
    }
    let slave = ring.slave_mut(place);
    slave.controller_mut().put_inputs(INPUT_AREA, bytes).is_ok()
}

/// Are these the outputs that the slaves are shown?
pub(crate) fn are_shown(ring: &Ring, outputs: &Image) -> bool {
    let slaves = ring.slaves();
    if slaves.len() != SLAVES {
        return false;
    }
    for place in 0..SLAVES {
        if !is_shown(&slaves[place], part(outputs, place)) {
            return false;
        }
    }
    true
}

/// Are these the outputs that a slave is shown?
fn is_shown(slave: &Slave, bytes: &[u8]) -> bool {
    match slave.controller().outputs(OUTPUT_AREA) {
        Some(shown) => shown == bytes,
        None => false,
    }
}

/// The work that hands over these outputs and asks for the inputs.
pub(crate) fn exchange(outputs: &Image) -> Option<Work>
    ensures { IfSome result (λ work. length work ≡ 2) }
{
    let mut work = Work::new();
    let hands = Item::new(Kind::Lwr, OUTPUTS, outputs).ok()?;
    let asks = Item::new(Kind::Lrd, INPUTS, &[0; IMAGE]).ok()?;
    work.push(hands).ok()?;
    work.push(asks).ok()?;
    Some(work)
}

//! The cycle of a scene: its items go over the ring, and what they bring back is printed.

use ec_master::{Work, ring_cycle, weather_cycle};
use ec_ring::Weather;
use ecat_record::{Moments, TapedRing};
use ecat_setup::Expected;
use ecat_text::{GOOD, Lines, print_items, print_verdict};
use std::io::{self, Write};

/// Does one cycle over the ring and prints a line for each item. With weathers their verdict comes first, and
/// the status says whether it is good; without them each frame travels under the ring's own links.
pub fn cycle<T: Write, M: Moments, W: Write>(
    ring: &mut TapedRing<'_, T, M>,
    work: &mut Work,
    weathers: &[Weather],
    lines: &mut Lines<'_, W>,
) -> io::Result<u8> {
    let expected = Expected::of(ring.ring.slaves(), work);
    let mut status = GOOD;
    if weathers.is_empty() {
        ring_cycle(ring, work);
    } else {
        let verdict = weather_cycle(ring, weathers, expected.counters(), work);
        status = print_verdict(verdict, lines)?;
    }
    print_items(work, expected.table(), lines)?;
    Ok(status)
}

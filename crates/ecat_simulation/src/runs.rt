//! `ecat run`: the actions of a scene, its cycle, and what its slaves show then.

use crate::carry::carry;
use crate::cycles::cycle;
use crate::judge::{judged_cycle, print_cable};
use ec_applications::Applications;
use ec_master::{Reporting, Work};
use ec_ring::Weather;
use ecat_record::{Moments, Recorder, TapedPorts, TapedRing};
use ecat_scene::{Action, Scene};
use ecat_setup::{Expected, LineFailure, applications_of, push_items, ring_of, weathers_of};
use ecat_text::{GOOD, Lines, REFUSED, print_areas, print_items, refuse, status_of};
use std::alloc::Global;
use std::io::Write;

/// Runs the scene: its frames and steps in their order; if it has items, one cycle of them, where the line
/// as it then is and the items are accepted; then a line for each active buffered area that the master
/// writes. Applications act behind each step and behind the cycle. With `judge` the cycle is judged whatever
/// the scene has, and what is in the way of a good verdict is printed. All memory is taken before anything
/// is printed. Each copy of its frames is recorded, if anybody wants it.
#[inline(never)]
pub fn run<'t, 'o, W, T, M>(
    alloc: Global,
    judge: bool,
    recorder: &'t mut Recorder<T, M>,
    scene: Scene,
    out: &'o mut W,
) -> Result<u8, LineFailure>
where
    W: Write,
    T: Write,
    M: Moments,
{
    let weathers = weathers_of(alloc, scene.weathers.as_slice())?;
    let mut applications = applications_of(alloc, scene.slaves.as_slice())?;
    let ring = ring_of(alloc, scene.slaves, scene.links_down.as_slice())?;
    let mut ring = TapedRing::new(ring, recorder);
    let mut lines = Lines::new(out);
    for action in &scene.actions {
        act_on(&mut ring, &mut applications, action, &mut lines)?;
    }
    if scene.items.is_empty() {
        print_areas(ring.ring.slaves(), &mut lines)?;
        return Ok(GOOD);
    }
    if refuse(ring.ring.slaves(), scene.items.as_slice(), &mut lines)? {
        return Ok(REFUSED);
    }
    let mut work = Work::new();
    push_items(&mut work, scene.items)?;
    if judge {
        return judged(
            ring,
            applications,
            &mut work,
            weathers.as_slice(),
            &mut lines,
        );
    }
    let status = cycle(&mut ring, &mut work, weathers.as_slice(), &mut lines)?;
    let mut ring = ring.ring;
    applications.act(&mut ring);
    print_areas(ring.slaves(), &mut lines)?;
    Ok(status)
}

/// Does one cycle of the work over the ring, and prints its verdict, what is in the way of a good one, the
/// items and the areas.
fn judged<T: Write, M: Moments, W: Write>(
    ring: TapedRing<'_, T, M>,
    mut applications: Applications,
    work: &mut Work,
    weathers: &[Weather],
    lines: &mut Lines<'_, W>,
) -> Result<u8, LineFailure> {
    let expected = Expected::of(ring.ring.slaves(), work);
    let mut ports = Reporting::new(TapedPorts::new(ring, weathers));
    let verdict = judged_cycle(&mut ports, work, expected.counters(), lines)?;
    let (ports, report) = ports.into_parts();
    let mut ring = ports.into_ring();
    applications.act(&mut ring);
    print_cable(verdict, &report, &mut ring, weathers, lines)?;
    print_items(work, expected.table(), lines)?;
    print_areas(ring.slaves(), lines)?;
    Ok(status_of(verdict))
}

/// Does one action, and prints the frame that it carries.
fn act_on<T: Write, M: Moments, W: Write>(
    ring: &mut TapedRing<'_, T, M>,
    applications: &mut Applications,
    action: &Action,
    lines: &mut Lines<'_, W>,
) -> Result<(), LineFailure> {
    match action {
        Action::Step => {
            ring.ring.step_all();
            applications.act(&mut ring.ring);
        }
        Action::Frame(sent) => {
            let Ok(joined) = carry(ring, sent) else {
                return Err(LineFailure::Stranger);
            };
            lines.bytes(b"frame ")?;
            lines.hex(joined.bytes())?;
            lines.end()?;
        }
    }
    Ok(())
}

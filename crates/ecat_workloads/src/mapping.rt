//! Lines that are checked, and swept with each cable broken.

use crate::chance::Chance;
use crate::digest::Digest;
use crate::line::Line;
use ecat_scene::Scene;
use ecat_simulation::{check, cover, lint, sweep};
use std::alloc::Global;

/// How many slaves a line of the checker has that map whole bytes.
const CHECKED_SLAVES: u32 = 256;

/// How many it has that map bits.
const CHECKED_BIT_SLAVES: u32 = 110;

/// `ecat sweep` of a machine's line of so many slaves.
pub(crate) fn swept(alloc: Global, seed: u32, slaves: u32) -> Option<u64> {
    let line = Line::of_bytes(alloc, &mut Chance::new(seed), slaves, false)?;
    sweep_of(alloc, &line)
}

/// `ecat sweep` of a line of so many slaves with bits at odd places, asked by many small items.
pub(crate) fn swept_bits(alloc: Global, seed: u32, slaves: u32) -> Option<u64> {
    let line = Line::of_bits(alloc, &mut Chance::new(seed), slaves)?;
    sweep_of(alloc, &line)
}

/// The digest of a sweep.
fn sweep_of(alloc: Global, line: &Line) -> Option<u64> {
    let mut digest = Digest::new();
    let scene = Scene::read(alloc, line.text()).ok()?;
    let status = sweep(alloc, scene, &mut digest).ok()?;
    digest.take(u64::from(status));
    Some(digest.value())
}

/// `ecat check`, `ecat cover` and `ecat lint` of so many pairs of lines, one with whole bytes and one with
/// bits.
pub(crate) fn checked(alloc: Global, seed: u32, pairs: u32) -> Option<u64> {
    let mut chance = Chance::new(seed);
    let mut digest = Digest::new();
    for _ in 0..pairs {
        let line = Line::of_bytes(alloc, &mut chance, CHECKED_SLAVES, false)?;
        check_of(alloc, &line, &mut digest)?;
        let line = Line::of_bits(alloc, &mut chance, CHECKED_BIT_SLAVES)?;
        check_of(alloc, &line, &mut digest)?;
    }
    Some(digest.value())
}

/// What the checker says of a line.
fn check_of(alloc: Global, line: &Line, digest: &mut Digest) -> Option<()> {
    let scene = Scene::read(alloc, line.text()).ok()?;
    let status = check(alloc, &scene, digest).ok()?;
    digest.take(u64::from(status));
    let status = cover(alloc, &scene, digest).ok()?;
    digest.take(u64::from(status));
    let status = lint(alloc, line.text(), &scene, digest).ok()?;
    digest.take(u64::from(status));
    Some(())
}

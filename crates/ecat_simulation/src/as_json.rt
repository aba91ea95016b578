//! `check`, `cover`, `lint` and `where` as objects of JSON, one a line.

use crate::cables::weather_of;
use ec_app::Slave;
use ec_diag::{Located, probe};
use ec_map::{Gap, Item, Mapped, NotShown, Way, WhyNotShown, first_not_shown, first_uncovered};
use ec_ring::{Arrivals, HeardPorts, Travel};
use ec_wire::FrameBuf;
use ecat_json::{JsonLines, Object};
use ecat_lint::odd_lines;
use ecat_scene::Scene;
use ecat_setup::{LineFailure, names_of, records_of, ring_of, slaves_of, weathers_of};
use ecat_text::{
    GOOD, REFUSED, are_swapped, json_arrived, json_break, json_copies, json_refuse_mapped,
    json_swapped,
};
use std::alloc::Global;
use std::io::{self, Write};

/// How many bytes a line has at the most: that of a cable, with 256 slaves that are cut off.
const ROOM: usize = 8_192;

/// Lines for this output, with room for the longest of them.
fn lines_to<W: Write>(alloc: Global, out: &mut W) -> Result<JsonLines<'_, W>, LineFailure> {
    match Vec::with_capacity(alloc, ROOM) {
        Ok(room) => Ok(JsonLines::new(out, room)),
        Err(_) => Err(LineFailure::NoMemory),
    }
}

/// Writes an object that has its kind alone.
fn put_kind<W: Write>(kind: &str, lines: &mut JsonLines<'_, W>) -> io::Result<()> {
    let object = lines.object(kind)?;
    lines.put(object)
}

/// Checks as `check` does, and writes one object: `accepted`, or what is `refused` first.
#[inline(never)]
pub fn json_check<W: Write>(alloc: Global, scene: &Scene, out: &mut W) -> Result<u8, LineFailure> {
    let slaves = records_of(alloc, scene.slaves.as_slice())?;
    let mut lines = lines_to(alloc, out)?;
    if json_refuse_mapped(slaves.as_slice(), scene.items.as_slice(), &mut lines)? {
        return Ok(REFUSED);
    }
    put_kind("accepted", &mut lines)?;
    Ok(GOOD)
}

// ---- cover

/// Adds a bit that is mapped and that no item carries.
fn with_gap(object: Object, gap: Gap) -> io::Result<Object> {
    let object = object.number("slave", gap.slave as u64)?;
    let object = object.number("fmmu", gap.fmmu as u64)?;
    let object = match gap.way {
        Way::Reads => object.text("way", "reads")?,
        Way::Writes => object.text("way", "writes")?,
    };
    object
        .number("logical_address", gap.bit / 8)?
        .number("bit", gap.bit % 8)
}

/// Adds an area of outputs that is not shown to its application.
fn with_not_shown(object: Object, area: NotShown) -> io::Result<Object> {
    let object = object.number("slave", area.slave as u64)?;
    let object = object.number("sync_manager", area.sync_manager as u64)?;
    match area.why {
        WhyNotShown::LeftBy { item } => {
            object
                .text("why", "left_by_item")?
                .number("item", item as u64)
        }
        WhyNotShown::NeverCompleted => object.text("why", "never_completed")?.nothing("item"),
    }
}

/// Checks as `cover` does, and writes one object: `covered`, what is `uncovered` or `not_shown` first, or
/// what is `refused`.
#[inline(never)]
pub fn json_cover<W: Write>(alloc: Global, scene: &Scene, out: &mut W) -> Result<u8, LineFailure> {
    let slaves = records_of(alloc, scene.slaves.as_slice())?;
    let mut lines = lines_to(alloc, out)?;
    if json_refuse_mapped(slaves.as_slice(), scene.items.as_slice(), &mut lines)? {
        return Ok(REFUSED);
    }
    Ok(put_cover(slaves.as_slice(), scene.items.as_slice(), &mut lines)?)
}

/// Writes what the items of a fit line leave out first, or that it is covered, and answers the status.
fn put_cover<S: Mapped, W: Write>(
    line: &[S],
    items: &[Item],
    lines: &mut JsonLines<'_, W>,
) -> io::Result<u8> {
    if let Some(gap) = first_uncovered(line, items) {
        let object = lines.object("uncovered")?;
        lines.put(with_gap(object, gap)?)?;
        return Ok(REFUSED);
    }
    if let Some(area) = first_not_shown(line, items) {
        let object = lines.object("not_shown")?;
        lines.put(with_not_shown(object, area)?)?;
        return Ok(REFUSED);
    }
    put_kind("covered", lines)?;
    Ok(GOOD)
}

// ---- lint

/// Names what is odd as `lint` does, an object each; and where the scene has no items, why its line is
/// refused if it is.
#[inline(never)]
pub fn json_lint<W: Write>(
    alloc: Global,
    text: &[u8],
    scene: &Scene,
    out: &mut W,
) -> Result<u8, LineFailure> {
    let Ok(found) = odd_lines(alloc, text) else {
        return Err(LineFailure::NoMemory);
    };
    let mut status = GOOD;
    let mut lines = lines_to(alloc, out)?;
    for line in found.iter() {
        let object = lines.object("odd")?;
        lines.put(line.members(object)?)?;
        status = REFUSED;
    }
    if scene.items.is_empty() {
        let slaves = records_of(alloc, scene.slaves.as_slice())?;
        if json_refuse_mapped(slaves.as_slice(), &[], &mut lines)? {
            status = REFUSED;
        }
    }
    Ok(status)
}

// ---- where

/// Sends one frame as `where_broken` does, and writes two objects: its `copies`, and the `cable`.
#[inline(never)]
pub fn json_where<W: Write>(alloc: Global, scene: Scene, out: &mut W) -> Result<u8, LineFailure> {
    let weathers = weathers_of(alloc, scene.weathers.as_slice())?;
    let names = names_of(alloc, scene.slaves.as_slice())?;
    let mut ring = ring_of(alloc, scene.slaves, scene.links_down.as_slice())?;
    let weather = weather_of(weathers.as_slice(), &ring);
    let sent = probe();
    let came = ring.arrivals(&sent, &weather);
    let mut lines = lines_to(alloc, out)?;
    json_copies(&sent, &came, &mut lines)?;
    let names = names.as_slice();
    Ok(put_told(ring.slaves(), names, &sent, &came, &mut lines)?)
}

/// Sends one frame as `where_far` does, and writes two objects: what `arrived`, and the `cable`.
pub fn json_where_far<P: HeardPorts, W: Write>(
    alloc: Global,
    ports: &mut P,
    scene: Scene,
    out: &mut W,
) -> Result<u8, LineFailure> {
    let names = names_of(alloc, scene.slaves.as_slice())?;
    let line = slaves_of(alloc, scene.slaves)?;
    let sent = probe();
    let Ok(came) = ports.trip_heard(&sent) else {
        return Err(LineFailure::Port);
    };
    let mut lines = lines_to(alloc, out)?;
    json_arrived(&sent, &came, &mut lines)?;
    if are_swapped(line.len(), &sent, &came) {
        return Ok(json_swapped(&mut lines)?);
    }
    let (line, names) = (line.as_slice(), names.as_slice());
    Ok(put_told(line, names, &sent, &came, &mut lines)?)
}

/// Writes what the copies of a frame tell of the cable of a line whose slaves have these names.
fn put_told<W: Write>(
    line: &[Slave],
    names: &[String],
    sent: &FrameBuf,
    came: &Arrivals,
    lines: &mut JsonLines<'_, W>,
) -> io::Result<u8> {
    let located = Located::Unknown.and_arrivals(line.len(), sent, came);
    json_break(located, line, names, lines)
}

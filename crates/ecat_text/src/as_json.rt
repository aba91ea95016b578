//! What is told of lines, items and cables as objects of JSON, member by member as in the texts.

ghost use Rattle.std.specs.Prelude.{◌≡◌, IfOk, Ok, false, true};
ghost use Rattle.ec_check.specs.Line.{controllers_by};
ghost use Rattle.ec_master.specs.declared.acceptance.Refusal.{Refusal};
ghost use Rattle.ecat_text.specs.Cables.{break_status};
ghost use Rattle.ecat_text.specs.Refused.{AreTaken, IsRefusedFor};
ghost use Rattle.ecat_text.specs.declared.status.TheConstants.{REFUSED};

use crate::cable::{End, Stationed, break_status, end_at, end_before, heard, name_at};
use crate::refusal::refusal_of;
use crate::status::REFUSED;
use ec_diag::{CutOff, Heard, Located};
use ec_map::{Item, MapFault, Mapped, PlaceFault};
use ec_master::Refusal;
use ec_ring::{Arrivals, Port};
use ec_wire::FrameBuf;
use ecat_json::{JsonLines, Object};
use std::io::{self, Write};

// ---- refusals

/// Adds two numbers, each with the name of its member.
fn with_two(object: Object, one: (&str, u64), other: (&str, u64)) -> io::Result<Object> {
    object.number(one.0, one.1)?.number(other.0, other.1)
}

/// Adds the rule that is broken, by its name, and the first number that says where.
fn with_rule(object: Object, name: &str, first: (&str, u64)) -> io::Result<Object> {
    object.text("rule", name)?.number(first.0, first.1)
}

/// Adds why a line is refused: the rule, the parties and the place.
fn with_line_fault(object: Object, fault: MapFault) -> io::Result<Object> {
    match fault {
        MapFault::TwinStation { slave, later_slave } => {
            let object = with_rule(object, "TwinStation", ("slave", slave as u64))?;
            object.number("later_slave", later_slave as u64)
        }
        MapFault::BadFmmu { slave, fmmu } => {
            let object = with_rule(object, "BadFmmu", ("slave", slave as u64))?;
            object.number("fmmu", fmmu as u64)
        }
        MapFault::AreasMeet {
            slave,
            sync_manager: manager,
            later_sync_manager: later,
            address,
        } => {
            let object = with_rule(object, "AreasMeet", ("slave", slave as u64))?;
            let later = ("later_sync_manager", later as u64);
            let object = with_two(object, ("sync_manager", manager as u64), later)?;
            object.number("address", u64::from(address))
        }
        MapFault::OutsideArea {
            slave,
            fmmu,
            address,
        } => {
            let object = with_rule(object, "OutsideArea", ("slave", slave as u64))?;
            with_two(
                object,
                ("fmmu", fmmu as u64),
                ("address", u64::from(address)),
            )
        }
        MapFault::TwiceWritten {
            slave,
            fmmu,
            later_fmmu: later,
            bit,
        } => {
            let object = with_rule(object, "TwiceWritten", ("slave", slave as u64))?;
            let later = ("later_fmmu", later as u64);
            with_two(object, ("fmmu", fmmu as u64), later)?.number("bit", bit)
        }
        MapFault::TwiceRead {
            slave,
            fmmu,
            later_slave,
            later_fmmu: later,
            bit,
        } => {
            let object = with_rule(object, "TwiceRead", ("slave", slave as u64))?;
            let later_slave = ("later_slave", later_slave as u64);
            let object = with_two(object, ("fmmu", fmmu as u64), later_slave)?;
            with_two(object, ("later_fmmu", later as u64), ("bit", bit))
        }
        MapFault::ReadAndWritten {
            reader,
            reader_fmmu: reads,
            writer,
            writer_fmmu: writes,
            bit,
        } => {
            let object = with_rule(object, "ReadAndWritten", ("reader", reader as u64))?;
            let reads = ("reader_fmmu", reads as u64);
            let object = with_two(object, reads, ("writer", writer as u64))?;
            with_two(object, ("writer_fmmu", writes as u64), ("bit", bit))
        }
    }
}

/// Adds why an item is refused, which has this number.
fn with_item_fault(object: Object, number: usize, fault: PlaceFault) -> io::Result<Object> {
    let item = ("item", number as u64);
    match fault {
        PlaceFault::OutsideRead { slave, address } => {
            let object = with_rule(object, "OutsideRead", item)?;
            with_two(
                object,
                ("slave", slave as u64),
                ("address", u64::from(address)),
            )
        }
        PlaceFault::OutsideWrite { slave, address } => {
            let object = with_rule(object, "OutsideWrite", item)?;
            with_two(
                object,
                ("slave", slave as u64),
                ("address", u64::from(address)),
            )
        }
    }
}

/// Adds why a line, or an item on it, is refused.
fn with_refusal(object: Object, refusal: Refusal) -> io::Result<Object> {
    match refusal {
        Refusal::Line(fault) => with_line_fault(object, fault),
        Refusal::Item(number, fault) => with_item_fault(object, number, fault),
    }
}

/// Checks a line and items as `refuse_mapped` does, and writes an object where one is refused.
pub fn json_refuse_mapped<S: Mapped, W: Write>(
    line: &[S],
    items: &[Item],
    lines: &mut JsonLines<'_, W>,
) -> io::Result<bool>
    ensures accepted { result ≡ Ok false → AreTaken (controllers_by S.controller line.now) items.now }
    ensures refused { result ≡ Ok true
        → (refusal : Refusal) × IsRefusedFor (controllers_by S.controller line.now) items.now refusal }
{
    match refusal_of(line, items) {
        Ok(()) => Ok(false),
        Err(refusal) => {
            let object = lines.object("refused")?;
            lines.put(with_refusal(object, refusal)?)?;
            Ok(true)
        }
    }
}

// ---- copies

/// Adds the port where a copy came back, and how many slaves counted on it.
fn with_copy(object: Object, names: (&str, &str), copy: Option<Heard>) -> io::Result<Object> {
    let (at, after) = names;
    match copy {
        None => object.nothing(at)?.nothing(after),
        Some(heard) => {
            let object = object.text(at, name_of(heard.at))?;
            object.number(after, u64::from(heard.count))
        }
    }
}

/// The name of a port of the master.
fn name_of(port: Port) -> &'static str {
    match port {
        Port::A => "A",
        Port::B => "B",
    }
}

/// Writes what came back of a frame: an object with both copies.
pub fn json_copies<W: Write>(
    sent: &FrameBuf,
    came: &Arrivals,
    lines: &mut JsonLines<'_, W>,
) -> io::Result<()> {
    let object = lines.object("copies")?;
    let object = with_copy(object, ("a_back_at", "a_after"), heard(sent, &came.a))?;
    let object = with_copy(object, ("b_back_at", "b_after"), heard(sent, &came.b))?;
    lines.put(object)
}

/// How many slaves counted on a copy, if one came.
fn count_of(copy: Option<Heard>) -> Option<u64> {
    match copy {
        None => None,
        Some(heard) => Some(u64::from(heard.count)),
    }
}

/// Writes what arrived at the master's ports of a frame, where it is not known which copy it is.
pub fn json_arrived<W: Write>(
    sent: &FrameBuf,
    came: &Arrivals,
    lines: &mut JsonLines<'_, W>,
) -> io::Result<()> {
    let object = lines.object("arrived")?;
    let object = object.number_if("at_a_after", count_of(heard(sent, &came.a)))?;
    let object = object.number_if("at_b_after", count_of(heard(sent, &came.b)))?;
    lines.put(object)
}

// ---- cables

/// What a cable is called of which this is known.
fn state_of(located: Located) -> &'static str {
    match located {
        Located::Unknown => "unknown",
        Located::Whole => "whole",
        Located::One(_) => "one_link_down",
        Located::Between(_, _) => "two_links_down",
        Located::First(_) => "first_link_down",
        Located::Last(_) => "last_link_down",
        Located::Changed => "changed",
    }
}

/// Adds the links that are down, as far as they are known.
fn with_links(object: Object, located: Located) -> io::Result<Object> {
    let links = object.list("links_down")?;
    match located {
        Located::Unknown | Located::Whole | Located::Changed => links.end(),
        Located::One(link) | Located::First(link) | Located::Last(link) => {
            links.number(link as u64)?.end()
        }
        Located::Between(first, last) => links.number(first as u64)?.number(last as u64)?.end(),
    }
}

/// How the members are called that tell of an end of a link.
#[derive(Clone, Copy)]
struct EndMembers {
    port: &'static str,
    slave: &'static str,
    station: &'static str,
    name: &'static str,
}

/// Of the end that is nearer to port A.
const BEFORE: EndMembers = EndMembers {
    port: "before_port",
    slave: "before_slave",
    station: "before_station",
    name: "before_name",
};

/// Of the other end.
const BEHIND: EndMembers = EndMembers {
    port: "behind_port",
    slave: "behind_slave",
    station: "behind_station",
    name: "behind_name",
};

/// Adds an end of a link that is down: the port of the master, or the slave, its station address and its
/// name.
fn with_end(object: Object, members: EndMembers, end: Option<End<'_>>) -> io::Result<Object> {
    let EndMembers {
        port,
        slave,
        station,
        name,
    } = members;
    match end {
        None => {
            let object = object.nothing(port)?.nothing(slave)?;
            object.nothing(station)?.nothing(name)
        }
        Some(End::AtPort(at)) => {
            let object = object.text(port, name_of(at))?.nothing(slave)?;
            object.nothing(station)?.nothing(name)
        }
        Some(End::AtSlave(place, address, called)) => {
            let object = object.nothing(port)?.number(slave, place as u64)?;
            let object = object.number(station, u64::from(address))?;
            object.named(name, called)
        }
    }
}

/// Adds between which ends the cable is broken, where one link is down.
fn with_ends<S: Stationed>(
    object: Object,
    located: Located,
    line: &[S],
    names: &[String],
) -> io::Result<Object> {
    let (before, behind) = match located {
        Located::One(link) => (
            Some(end_before(line, names, link)),
            Some(end_at(Port::B, line, names, link)),
        ),
        _ => (None, None),
    };
    with_end(with_end(object, BEFORE, before)?, BEHIND, behind)
}

/// The places from the first to behind the last of the slaves that are cut off.
fn cut_off(located: Located) -> (usize, usize) {
    match located.cut_off() {
        CutOff::Places(first, last) => (first, last.saturating_add(1)),
        _ => (0, 0),
    }
}

/// Adds what is known of a cable, and the links that are down; or that the ports of the master are swapped.
pub fn with_state(object: Object, located: Located, swapped: bool) -> io::Result<Object> {
    if swapped {
        return with_links(object.text("state", "swapped")?, Located::Changed);
    }
    with_links(object.text("state", state_of(located))?, located)
}

/// Adds the slaves that are cut off, by their places, their station addresses and their names.
fn with_cut_off<S: Stationed>(
    object: Object,
    located: Located,
    line: &[S],
    names: &[String],
) -> io::Result<Object> {
    let (first, end) = cut_off(located);
    let mut places = object.list("cut_off_slaves")?;
    for place in first..end {
        places = places.number(place as u64)?;
    }
    let mut stations = places.end()?.list("cut_off_stations")?;
    for slave in line.iter().skip(first).take(end.saturating_sub(first)) {
        stations = stations.number(u64::from(slave.station()))?;
    }
    let mut called = stations.end()?.list("cut_off_names")?;
    for place in first..end {
        called = called.named(name_at(names, place))?;
    }
    called.end()
}

/// Adds where the cable of a line is broken: what is known of it, the links that are down, between which ends
/// one of them is, and which slaves are cut off, where the slaves have these names.
pub fn with_cable<S: Stationed>(
    object: Object,
    located: Located,
    line: &[S],
    names: &[String],
) -> io::Result<Object> {
    let object = with_state(object, located, false)?;
    let object = with_ends(object, located, line, names)?;
    with_cut_off(object, located, line, names)
}

/// Writes where the cable of a line is broken and who is cut off, where the slaves have these names, and
/// answers the status.
pub fn json_break<S: Stationed, W: Write>(
    located: Located,
    line: &[S],
    names: &[String],
    lines: &mut JsonLines<'_, W>,
) -> io::Result<u8>
    ensures { IfOk result (λ status. status ≡ break_status located) }
{
    let object = lines.object("cable")?;
    lines.put(with_cable(object, located, line, names)?)?;
    Ok(break_status(located))
}

/// Writes that the ports of a master are swapped, and answers the status.
pub fn json_swapped<W: Write>(lines: &mut JsonLines<'_, W>) -> io::Result<u8>
    ensures { IfOk result (λ status. status ≡ REFUSED) }
{
    let object = with_state(lines.object("cable")?, Located::Changed, true)?;
    let object = with_end(with_end(object, BEFORE, None)?, BEHIND, None)?;
    let object = object.list("cut_off_slaves")?.end()?;
    let object = object.list("cut_off_stations")?.end()?;
    let object = object.list("cut_off_names")?.end()?;
    lines.put(object)?;
    Ok(REFUSED)
}

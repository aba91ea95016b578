//! The text of what was learned: a scene, and comments.

use crate::groups::{COUNTERS, Count, Counted, Group};
use crate::learner::{Learner, NAMED_STARTS, Stranger, Ways};
use crate::left_out::{KINDS, Seen, name_of};
use crate::slave::Slave;
use crate::slave_page::{Place, put_slave};
use ec_map::Item;
use ec_wire::{Command, Kind, ado_of, adp_of};
use ecat_scene::{MAX_ITEMS, MAX_TEXT, put_item};
use std::alloc::{AllocError, Global};
use std::fmt;

/// A text that is put together.
#[derive(Drop)]
pub(crate) struct Page {
    /// Where its memory comes from.
    pub alloc: Global,
    /// The text.
    pub text: String,
    /// Does it have comments?
    pub comments: bool,
    /// Of how many slaves it has objects.
    pub objects: usize,
    /// Are last data written?
    pub values: bool,
    /// How many holes there are.
    pub holes: u64,
    /// Is what was sent taken as taken?
    pub asked: bool,
    /// How many sync managers have more in their control bytes than kind and direction.
    pub more: u64,
}

impl Page {
    /// Puts a comment, if there are any.
    pub(crate) fn comment(&mut self, text: impl fmt::Display + Drop) -> Result<(), AllocError> {
        if self.comments {
            write!(self.text, "# {text}")?;
            self.text.push_str("\n")?;
        }
        Ok(())
    }

    /// Puts how often a sync manager has more in its control byte than a scene says.
    pub(crate) fn put_more(&mut self) -> Result<(), AllocError> {
        let more = self.more;
        if more == 0 {
            return Ok(());
        }
        self.comment(format_args!(
            "left out: control bits of sync managers but kind and direction, {more} times"
        ))
    }

    /// Puts a hole: a line that no command reads.
    pub(crate) fn hole(&mut self, text: impl fmt::Display + Drop) -> Result<(), AllocError> {
        self.holes = self.holes.saturating_add(1);
        write!(self.text, "{text}")?;
        self.text.push_str("\n")
    }
}

/// What was learned, as a text.
#[derive(Drop)]
pub(crate) struct Written {
    /// The text.
    pub text: String,
    /// Has it a hole?
    pub has_hole: bool,
}

/// The text of what was learned: of one past 65,536 bytes the comments are left out first, then the objects
/// from the last slave on.
pub(crate) fn write_page(
    alloc: Global,
    learner: &Learner,
    at_end: bool,
    values: bool,
) -> Result<Written, AllocError> {
    let slaves = learner.line(at_end).len();
    let whole = write_with(alloc, learner, at_end, values, true, slaves)?;
    if whole.text.len() <= MAX_TEXT {
        return Ok(whole);
    }
    let bare = write_with(alloc, learner, at_end, values, false, slaves)?;
    if bare.text.len() <= MAX_TEXT {
        return Ok(bare);
    }
    write_shorter(alloc, learner, at_end, values, slaves)
}

/// The text with the objects of as many slaves as there is room for.
fn write_shorter(
    alloc: Global,
    learner: &Learner,
    at_end: bool,
    values: bool,
    slaves: usize,
) -> Result<Written, AllocError> {
    for left in 0..slaves {
        let some = write_with(alloc, learner, at_end, values, false, slaves - left - 1)?;
        if some.text.len() <= MAX_TEXT {
            return Ok(some);
        }
    }
    write_with(alloc, learner, at_end, values, false, 0)
}

/// The text with comments or without, and with the objects of so many slaves.
fn write_with(
    alloc: Global,
    learner: &Learner,
    at_end: bool,
    values: bool,
    comments: bool,
    objects: usize,
) -> Result<Written, AllocError> {
    let mut page = Page {
        alloc,
        text: String::new(alloc),
        comments,
        objects,
        values,
        holes: 0,
        asked: learner.asked,
        more: 0,
    };
    put_head(&mut page, learner, at_end)?;
    put_slaves(&mut page, learner, at_end)?;
    put_items(&mut page, learner)?;
    put_left_out(&mut page, learner)?;
    Ok(Written {
        has_hole: 0 < page.holes,
        text: page.text,
    })
}

// ---- what it was learned of

/// Puts what it was learned of.
fn put_head(page: &mut Page, learner: &Learner, at_end: bool) -> Result<(), AllocError> {
    let first = learner.first.unwrap_or(0);
    let last = learner.last;
    let sent = learner.sums.sent;
    let returned = learner
        .sums
        .returned
        .saturating_add(learner.sums.stray)
        .saturating_add(learner.sums.late);
    let ways = WaysText(learner.ways);
    page.comment(format_args!(
        "learned of packets {first} to {last}: {sent} frames sent, {returned} returned, told by {ways}"
    ))?;
    put_starts(page, learner, at_end)?;
    if sent == 0 && 0 < returned {
        page.comment("guess: what was sent had the counters 0, since nothing of it was captured")?;
    }
    if learner.asked {
        page.comment("guess: what was sent was taken, as was asked for where nothing came back")?;
    } else if 0 < sent && returned == 0 {
        page.comment("not told: what the slaves did, since nothing came back")?;
    }
    put_unplaced(page, learner)
}

/// Puts how many datagrams by place told nothing, if some did.
fn put_unplaced(page: &mut Page, learner: &Learner) -> Result<(), AllocError> {
    let Some(first) = learner.first_unplaced else {
        return Ok(());
    };
    let times = learner.known.unplaced();
    page.comment(format_args!(
        "not told: what datagrams by place did over an open ring, {times} times from packet {first} on"
    ))
}

/// Puts where start-ups began, if there are several, or that there is none.
fn put_starts(page: &mut Page, learner: &Learner, at_end: bool) -> Result<(), AllocError> {
    if learner.started == 0 {
        return page.comment(
            "not told: stations and records, since the capture begins behind the start-up",
        );
    }
    if learner.started < 2 {
        return Ok(());
    }
    let starts = StartsText {
        packets: learner.starts,
        count: learner.started,
    };
    let line = learner.start_of_line(at_end);
    page.comment(format_args!(
        "start-ups from packets {starts}; the line is that of start-up {line}"
    ))
}

/// What tells the ways, as it is written.
#[derive(Drop)]
struct WaysText(Ways);

impl fmt::Display for WaysText {
    fn fmt<W: fmt::Write>(&self, f: &mut fmt::Formatter<W>) -> fmt::Result {
        let mut parted = "";
        for (told, name) in [
            (self.0.port, "port"),
            (self.0.place, "place"),
            (self.0.mark, "mark"),
            (self.0.counters, "counters"),
        ] {
            if told {
                write!(f, "{parted}{name}")?;
                parted = ", ";
            }
        }
        Ok(())
    }
}

/// The packets of start-ups, as they are written.
#[derive(Drop)]
struct StartsText {
    packets: [u64; NAMED_STARTS],
    count: u64,
}

impl fmt::Display for StartsText {
    fn fmt<W: fmt::Write>(&self, f: &mut fmt::Formatter<W>) -> fmt::Result {
        let mut parted = "";
        for packet in self.packets {
            if packet != 0 {
                write!(f, "{parted}{packet}")?;
                parted = ", ";
            }
        }
        if (NAMED_STARTS as u64) < self.count {
            write!(f, ", ..")?;
        }
        Ok(())
    }
}

// ---- slaves

/// Puts the lines of all slaves.
fn put_slaves(page: &mut Page, learner: &Learner, at_end: bool) -> Result<(), AllocError> {
    let slaves = learner.line(at_end);
    if slaves.is_empty() {
        page.comment("not told: how many slaves there are")?;
        page.hole("slave ?")?;
    }
    let epoch = learner.start_of_line(at_end);
    for (number, slave) in slaves.iter().enumerate() {
        let place = Place {
            number,
            started: 0 < learner.started,
            epoch,
        };
        put_slave(page, learner, &place, slave)?;
    }
    for stranger in &learner.strangers {
        put_stranger(page, slaves, stranger)?;
    }
    Ok(())
}

/// Puts what is told of a station that is at no told place.
fn put_stranger(page: &mut Page, slaves: &[Slave], stranger: &Stranger) -> Result<(), AllocError> {
    let station = stranger.station;
    if slaves.iter().any(|slave| slave.is_at(station)) {
        return Ok(());
    }
    match stranger.status {
        Some(status) => page.comment(format_args!(
            "not told: the place of station 0x{station:04x}, whose AL status is 0x{status:02x}"
        )),
        None => page.comment(format_args!("not told: the place of station 0x{station:04x}")),
    }
}

// ---- items

/// Which datagrams are counted: those of the line, or all of the capture.
pub(crate) fn count_of(group: &Group, all: bool) -> &Count {
    if all { &group.all } else { &group.line }
}

/// The kind of an item of a command.
pub(crate) fn kind_of(command: Command) -> Option<Kind> {
    match command {
        Command::Lrd => Some(Kind::Lrd),
        Command::Lwr => Some(Kind::Lwr),
        Command::Lrw => Some(Kind::Lrw),
        Command::Brd => Some(Kind::Brd),
        Command::Fprd => Some(Kind::Fprd),
        Command::Fpwr => Some(Kind::Fpwr),
        _ => None,
    }
}

/// Is a kind of item logical?
fn is_logical(kind: Kind) -> bool {
    matches!(kind, Kind::Lrd | Kind::Lwr | Kind::Lrw)
}

/// How often the most frequent logical datagram came back.
pub(crate) fn most(groups: &[Group], all: bool) -> u64 {
    let mut most = 0;
    for group in groups {
        if kind_of(group.command).is_some_and(is_logical) {
            most = count_of(group, all).times.max(most);
        }
    }
    most
}

/// Is a group an item? Each logical one is, and another where it came more than half as often as the most
/// frequent logical one.
fn is_item(group: &Group, all: bool, most: u64) -> bool {
    let times = count_of(group, all).times;
    match kind_of(group.command) {
        None => false,
        Some(kind) => {
            if is_logical(kind) {
                0 < times
            } else {
                most / 2 < times && 0 < most
            }
        }
    }
}

/// The item behind another one in the order in which they came first.
pub(crate) fn next_item<'a>(
    groups: &'a [Group],
    all: bool,
    most: u64,
    behind: Option<&Count>,
) -> Option<&'a Group> {
    let mut next: Option<&'a Group> = None;
    for group in groups {
        let count = count_of(group, all);
        let is_behind = match behind {
            Some(other) => other.is_before(count),
            None => true,
        };
        let is_first = match next {
            Some(other) => count.is_before(count_of(other, all)),
            None => true,
        };
        if is_item(group, all, most) && is_behind && is_first {
            next = Some(group);
        }
    }
    next
}

/// Puts the items, in the order in which they came first.
fn put_items(page: &mut Page, learner: &Learner) -> Result<(), AllocError> {
    let groups = learner.groups.groups();
    let all = most(groups, false) < 3;
    let most = most(groups, all);
    let mut behind: Option<&Count> = None;
    for _ in 0..MAX_ITEMS {
        let Some(group) = next_item(groups, all, most, behind) else {
            return Ok(());
        };
        put_group(page, group, count_of(group, all))?;
        behind = Some(count_of(group, all));
    }
    if next_item(groups, all, most, behind).is_some() {
        page.comment("left out: items behind the first 32")?;
    }
    Ok(())
}

/// The address of an item of a group.
pub(crate) fn item_address(kind: Kind, address: u32) -> u32 {
    match kind {
        Kind::Brd => u32::from(ado_of(address)),
        _ => address,
    }
}

/// The most data of a datagram.
pub(crate) const MOST_DATA: usize = 1486;

/// Puts an item, and how often it came back.
fn put_group(page: &mut Page, group: &Group, count: &Count) -> Result<(), AllocError> {
    let Some(kind) = kind_of(group.command) else {
        return Ok(());
    };
    let zeros = [0u8; MOST_DATA];
    let length = group.key.length.min(MOST_DATA);
    let address = item_address(kind, group.key.address);
    let bytes = if page.values && group.last.len() == length {
        group.last.as_slice()
    } else {
        &zeros[..length]
    };
    match Item::new(kind, address, bytes) {
        Ok(item) => {
            put_count(page, count)?;
            put_item(page.alloc, &mut page.text, &item)
        }
        Err(_) => {
            let name = GroupText(group);
            page.comment(format_args!("left out: {name}, which no item may be"))
        }
    }
}

/// Puts how often an item came back.
fn put_count(page: &mut Page, count: &Count) -> Result<(), AllocError> {
    if !page.comments {
        return Ok(());
    }
    let times = count.times;
    let verb = if page.asked { "sent" } else { "came back" };
    write!(page.text, "# {verb} {times} times")?;
    if let Some(period) = count.period() {
        let seconds = period / 1_000_000_000;
        let microseconds = period % 1_000_000_000 / 1000;
        write!(page.text, ", every {seconds}.{microseconds:06} s")?;
    }
    if !page.asked {
        put_counters(page, count)?;
    }
    page.text.push_str("\n")
}

/// Puts with which counters.
fn put_counters(page: &mut Page, count: &Count) -> Result<(), AllocError> {
    let alone = is_alone(&count.counters);
    let mut parted = ", with counter ";
    for entry in count.counters {
        if 0 < entry.times {
            put_counter(page, parted, entry, alone)?;
            parted = ", ";
        }
    }
    if 0 < count.others {
        let others = count.others;
        write!(page.text, ", others ({others} times)")?;
    }
    Ok(())
}

/// Did one counter alone come?
fn is_alone(counters: &[Counted; COUNTERS]) -> bool {
    counters[1].times == 0
}

/// Puts a counter, and how often it came unless it is the only one.
fn put_counter(
    page: &mut Page,
    parted: &str,
    entry: Counted,
    alone: bool,
) -> Result<(), AllocError> {
    let counter = entry.counter;
    let times = entry.times;
    if alone {
        write!(page.text, "{parted}{counter}")
    } else {
        write!(page.text, "{parted}{counter} ({times} times)")
    }
}

// ---- what a scene cannot say

/// A datagram by its command, address and length, as it is written.
struct GroupText<'a>(&'a Group);

impl<'a> Drop for GroupText<'a> {
    fn drop(self) {
        let GroupText(_) = self;
    }
}

impl<'a> fmt::Display for GroupText<'a> {
    fn fmt<W: fmt::Write>(&self, f: &mut fmt::Formatter<W>) -> fmt::Result {
        let name = self.0.command.name();
        let address = self.0.key.address;
        let length = self.0.key.length;
        let adp = adp_of(address);
        let ado = ado_of(address);
        match self.0.command {
            Command::Lrd | Command::Lwr | Command::Lrw => {
                write!(f, "{name} 0x{address:08x} {length} bytes")
            }
            Command::Armw => {
                let place = 0u16.wrapping_sub(adp);
                write!(f, "{name} of place {place}:0x{ado:04x} {length} bytes")
            }
            _ => write!(f, "{name} 0x{adp:04x}:0x{ado:04x} {length} bytes"),
        }
    }
}

/// Puts what a scene cannot say.
fn put_left_out(page: &mut Page, learner: &Learner) -> Result<(), AllocError> {
    for group in learner.groups.groups() {
        if matches!(group.command, Command::Brw | Command::Armw | Command::Frmw) {
            let name = GroupText(group);
            let times = group.all.times;
            let packet = group.all.packet;
            page.comment(format_args!("left out: {name}, {times} times from packet {packet}"))?;
        }
    }
    for (place, seen) in learner.left_out.seen().iter().enumerate() {
        put_seen(page, place, seen)?;
    }
    page.put_more()?;
    put_left_mails(page, learner.mails.long, learner.mails.aborted)?;
    let further = learner.groups.further;
    if 0 < further {
        page.comment(format_args!(
            "left out: {further} datagrams of commands and addresses behind the first 1024"
        ))?;
    }
    Ok(())
}

/// Puts how many datagrams of a kind there were.
fn put_seen(page: &mut Page, place: usize, seen: &Seen) -> Result<(), AllocError> {
    if seen.times == 0 || KINDS <= place {
        return Ok(());
    }
    let name = name_of(place);
    let times = seen.times;
    let packet = seen.packet;
    page.comment(format_args!("left out: {name}, {times} times from packet {packet}"))
}

/// Puts how many transfers are left out.
fn put_left_mails(page: &mut Page, long: u64, aborted: u64) -> Result<(), AllocError> {
    if 0 < long {
        page.comment(format_args!(
            "left out: {long} transfers of objects that are not expedited, or not of 1, 2 or 4 bytes"
        ))?;
    }
    if 0 < aborted {
        page.comment(format_args!("left out: {aborted} aborts of transfers"))?;
    }
    Ok(())
}

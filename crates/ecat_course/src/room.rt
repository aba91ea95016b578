//! Whether what a master sends has room for the numbers of its copies.

use ec_master::{Work, frame_from};
use ec_number::NUMBER_LENGTH;
use ec_wire::{MAX_DATA, MAX_FRAME};
use ecat_scene::{SceneSlave, Setting};
use ecat_text::Lines;
use std::io::{self, Write};

/// How many bytes of a frame stand in front of its datagrams (IEC 61158-4-12, the frame's header).
const HEADER: usize = 2;

/// How many bytes of data a datagram has that goes out alone with a number behind it, at the most.
const MOST_DATA: usize = MAX_DATA - NUMBER_LENGTH;

/// How many bytes of datagrams a frame has beside its number, at the most.
const MOST_DATAGRAMS: usize = MAX_FRAME - HEADER - NUMBER_LENGTH;

/// The sync managers below this one are those of mailboxes.
const MAILBOXES: usize = 2;

/// A frame of a work that has no room for a number.
#[derive(Clone, Copy)]
struct FullFrame {
    /// How many items are in it.
    count: usize,
    /// The last of them.
    last: usize,
    /// How many bytes of datagrams it has.
    datagrams: usize,
}

/// The first frame of a work that has no room for a number, if there is one.
fn full_frame(work: &Work) -> Option<FullFrame> {
    let mut first = 0;
    for _frame in 0..work.len() {
        if first >= work.len() {
            return None;
        }
        let frame = frame_from(work, first);
        let count = frame.count();
        let datagrams = frame.bytes().len().saturating_sub(HEADER);
        first = first.saturating_add(count);
        if datagrams > MOST_DATAGRAMS {
            return Some(FullFrame {
                count,
                last: first.saturating_sub(1),
                datagrams,
            });
        }
    }
    None
}

/// Has a frame of a work no room for a number? If so, prints the last item in it that is the scene's: where
/// the states of all slaves are read, the work's last item is that.
pub(crate) fn refuse_full<W: Write>(
    work: &Work,
    states: bool,
    lines: &mut Lines<'_, W>,
) -> io::Result<bool> {
    let Some(full) = full_frame(work) else {
        return Ok(false);
    };
    let has_states = states && full.last.saturating_add(1) == work.len();
    let item = full.last.saturating_sub(usize::from(has_states));
    lines.text(format_args!("refused: NoRoom item {item}, "))?;
    if full.count == 1 {
        lines.text(format_args!("{MOST_DATA} bytes of data at the most"))?;
    } else {
        let datagrams = full.datagrams;
        let states = if has_states {
            " with the read of states"
        } else {
            ""
        };
        lines.text(format_args!(
            "its frame has {datagrams} bytes of datagrams{states}, {MOST_DATAGRAMS} at the most"
        ))?;
    }
    lines.end()?;
    Ok(true)
}

/// The length of a slave's mailbox whose copies have no room for a number, if one is that long.
fn long_mailbox(slave: &SceneSlave) -> Option<u16> {
    let mut long = None;
    for setting in slave.settings.iter() {
        if let Setting::SyncMan(manager) = setting
            && manager.index < MAILBOXES
            && usize::from(manager.record.length) > MOST_DATA
        {
            long = Some(manager.record.length);
        }
    }
    long
}

/// Is a slave asked for objects: the one at this station, or without it each that has startup objects?
fn is_asked(slave: &SceneSlave, station: Option<u16>) -> bool {
    match station {
        Some(station) => slave.station == station,
        None => !slave.startup.is_empty(),
    }
}

/// Has a slave that is asked for objects a mailbox so long that a copy has no room for a number beside it? If
/// so, prints which one.
pub fn refuse_long_mailbox<W: Write>(
    slaves: &[SceneSlave],
    station: Option<u16>,
    lines: &mut Lines<'_, W>,
) -> io::Result<bool> {
    for (place, slave) in slaves.iter().enumerate() {
        if is_asked(slave, station)
            && let Some(length) = long_mailbox(slave)
        {
            lines.text(format_args!(
                "refused: NoRoom slave {place}, its mailbox has {length} bytes, {MOST_DATA} at the most"
            ))?;
            lines.end()?;
            return Ok(true);
        }
    }
    Ok(false)
}

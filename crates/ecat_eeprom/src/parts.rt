//! Categories of one line a thing: texts, what the device can do, FMMUs and sync managers.

use crate::numbers::{Four, Two, end_with, is_plain};
use ec_sii::{General, RECORD, SiiSyncManager, sync_manager_at, text_at};
use ecat_text::Lines;
use std::io::{self, Write};

/// How long a name is at the most in a scene.
const LONGEST_NAME: usize = 64;

/// The bytes of the text with a number, 0 of which is none.
pub(crate) fn text_of(strings: &[u8], number: u8) -> &[u8] {
    match text_at(strings, number) {
        Some(text) => &strings[text.from..text.from + text.length],
        None => &[],
    }
}

/// Prints each text, by its number.
pub(crate) fn print_strings<W: Write>(strings: &[u8], lines: &mut Lines<'_, W>) -> io::Result<()> {
    let count = strings.first().copied().unwrap_or(0);
    for number in 1..=count {
        lines.text(format_args!("# text {number}"))?;
        end_with(text_of(strings, number), lines)?;
    }
    Ok(())
}

/// Can a scene have this name?
fn is_name(text: &[u8]) -> bool {
    !text.is_empty()
        && text.len() <= LONGEST_NAME
        && !text.starts_with(b" ")
        && text.iter().all(|byte| is_plain(*byte))
}

/// Prints the name of the slave, and what it can do.
pub(crate) fn print_general<W: Write>(
    general: &General,
    strings: &[u8],
    lines: &mut Lines<'_, W>,
) -> io::Result<()> {
    let name = text_of(strings, general.name);
    lines.text(if is_name(name) { "name" } else { "# name" })?;
    end_with(name, lines)?;
    lines.text("# order")?;
    end_with(text_of(strings, general.order), lines)?;
    let coe = Two(general.coe_details);
    let foe = Two(general.foe_details);
    let eoe = Two(general.eoe_details);
    let flags = Two(general.flags);
    let ports = Four(general.ports);
    let current = i16::from_le_bytes(general.current.to_le_bytes());
    lines.text(format_args!(
        "# coe {coe} foe {foe} eoe {eoe} flags {flags} ports {ports} current {current} mA"
    ))?;
    lines.end()
}

/// What an FMMU is for.
fn use_of(kind: u8) -> &'static str {
    match kind {
        0 | 0xFF => "unused",
        1 => "outputs",
        2 => "inputs",
        3 => "mailbox-state",
        _ => "of another kind",
    }
}

/// Prints what each FMMU is for.
pub(crate) fn print_fmmus<W: Write>(fmmus: &[u8], lines: &mut Lines<'_, W>) -> io::Result<()> {
    for (number, kind) in fmmus.iter().enumerate() {
        let what = use_of(*kind);
        lines.text(format_args!("# fmmu {number} {what}"))?;
        lines.end()?;
    }
    Ok(())
}

/// Prints each sync manager.
pub(crate) fn print_sync_managers<W: Write>(
    managers: &[u8],
    lines: &mut Lines<'_, W>,
) -> io::Result<()> {
    for number in 0..managers.len() / RECORD {
        if let Some(manager) = sync_manager_at(managers, RECORD * number) {
            print_sync_manager(number, &manager, lines)?;
        }
    }
    Ok(())
}

/// What a sync manager is for, as a scene says it, if it can.
fn kind_of(manager: &SiiSyncManager) -> Option<&'static str> {
    if manager.length == 0 {
        return None;
    }
    match manager.kind {
        1 => Some("mailbox-write"),
        2 => Some("mailbox-read"),
        3 => Some("write"),
        4 => Some("read"),
        _ => None,
    }
}

/// Prints a sync manager: as a line of a scene, if one can say it.
fn print_sync_manager<W: Write>(
    number: usize,
    manager: &SiiSyncManager,
    lines: &mut Lines<'_, W>,
) -> io::Result<()> {
    let start = Four(manager.start);
    let length = manager.length;
    match kind_of(manager) {
        Some(kind) => lines.text(format_args!("sm {number} {start} {length} {kind}"))?,
        None => {
            let kind = manager.kind;
            let control = Two(manager.control);
            let enable = Two(manager.enable);
            lines.text(format_args!(
                "# sm {number} {start} {length} kind {kind} control {control} enable {enable}"
            ))?;
        }
    }
    lines.end()
}

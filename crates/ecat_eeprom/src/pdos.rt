//! Process data: the PDOs of a category, and the objects that they map.

use crate::numbers::{Four, end_with};
use crate::parts::text_of;
use ec_sii::{NamedEntry, PdoHead, RECORD, SiiFault, entry_at, pdo_at};
use ecat_text::Lines;
use std::io::{self, Write};

/// Which way the PDOs of a category go.
#[derive(Clone, Copy, PartialEq, Eq)]
pub(crate) enum Way {
    /// The master reads them, TXPDO.
    Inputs,
    /// It writes them, RXPDO.
    Outputs,
}

/// The first object of PDOs that the master reads; those of what it writes lie below (ETG.1000.6, CoE
/// communication area).
const FIRST_OF_INPUTS: u16 = 0x1A00;

/// How many sync managers a slave of a scene has.
const MANAGERS: u8 = 8;

/// Prints each PDO of a category, and answers where one of them is cut short, counted from the first byte of
/// the category.
pub(crate) fn print_pdos<W: Write>(
    way: Way,
    pdos: &[u8],
    strings: &[u8],
    lines: &mut Lines<'_, W>,
) -> io::Result<Option<(SiiFault, usize)>> {
    let mut at = 0;
    for _pdo in 0..pdos.len() {
        match pdo_at(pdos, at) {
            Ok(Some(pdo)) => {
                let entries = &pdos[pdo.from..pdo.next];
                print_names(&pdo, entries, strings, lines)?;
                print_pdo(way, &pdo, entries, lines)?;
                at = pdo.next;
            }
            Ok(None) => return Ok(None),
            Err(fault) => return Ok(Some((fault, at))),
        }
    }
    Ok(None)
}

/// Prints what a PDO and the objects that it maps are called, those that have a name.
fn print_names<W: Write>(
    pdo: &PdoHead,
    entries: &[u8],
    strings: &[u8],
    lines: &mut Lines<'_, W>,
) -> io::Result<()> {
    let name = text_of(strings, pdo.name);
    if !name.is_empty() {
        let index = Four(pdo.index);
        lines.text(format_args!("# {index}"))?;
        end_with(name, lines)?;
    }
    for number in 0..usize::from(pdo.count) {
        if let Some(entry) = entry_at(entries, RECORD * number) {
            print_name(&entry, strings, lines)?;
        }
    }
    Ok(())
}

/// Prints what an object is called that a PDO maps, if it has a name.
fn print_name<W: Write>(
    named: &NamedEntry,
    strings: &[u8],
    lines: &mut Lines<'_, W>,
) -> io::Result<()> {
    let name = text_of(strings, named.name);
    if name.is_empty() {
        return Ok(());
    }
    let index = Four(named.entry.index);
    let sub = named.entry.subindex;
    lines.text(format_args!("# {index}:{sub}"))?;
    end_with(name, lines)
}

/// Can a scene say this PDO, which goes this way? It stands in the area of a sync manager, and which way it
/// goes follows from its index.
fn is_said(way: Way, pdo: &PdoHead) -> bool {
    pdo.sync_manager < MANAGERS && (FIRST_OF_INPUTS <= pdo.index) == (way == Way::Inputs)
}

/// Prints a PDO and the objects that it maps: as a line of a scene, if one can say it.
fn print_pdo<W: Write>(
    way: Way,
    pdo: &PdoHead,
    entries: &[u8],
    lines: &mut Lines<'_, W>,
) -> io::Result<()> {
    let index = Four(pdo.index);
    let manager = pdo.sync_manager;
    let front = if is_said(way, pdo) { "" } else { "# " };
    lines.text(format_args!("{front}pdo {index} {manager}"))?;
    for number in 0..usize::from(pdo.count) {
        if let Some(entry) = entry_at(entries, RECORD * number) {
            put_entry(&entry, lines)?;
        }
    }
    lines.end()
}

/// Puts an object that a PDO maps, or a gap.
fn put_entry<W: Write>(named: &NamedEntry, lines: &mut Lines<'_, W>) -> io::Result<()> {
    let index = Four(named.entry.index);
    let sub = named.entry.subindex;
    let bits = named.entry.bits;
    lines.text(format_args!(" {index}:{sub}:{bits}"))
}

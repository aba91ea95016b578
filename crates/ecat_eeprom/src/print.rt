//! All of an EEPROM: its head, and then category after category.

use crate::head::print_head;
use crate::parts::{print_fmmus, print_general, print_strings, print_sync_managers};
use crate::pdos::{Way, print_pdos};
use ec_sii::{Category, General, HEAD, SiiFault, SiiHead, category_at};
use ecat_text::Lines;
use std::fmt;
use std::io::{self, Write};

/// The kinds of categories that are told, by the standard's names: STRINGS, General, FMMU, SyncM, TXPDO and
/// RXPDO.
const STRINGS: u16 = 10;

const GENERAL: u16 = 30;

const FMMUS: u16 = 40;

const SYNC_MANAGERS: u16 = 41;

const INPUTS: u16 = 50;

const OUTPUTS: u16 = 51;

/// Where the bytes of an EEPROM are cut short. What stands before it has been printed.
#[derive(Clone, Copy, PartialEq, Eq, Debug)]
pub struct Misread {
    /// What is cut short.
    pub fault: SiiFault,
    /// The address of the word where that begins.
    pub word: usize,
}

impl fmt::Display for Misread {
    fn fmt<W: fmt::Write>(&self, f: &mut fmt::Formatter<W>) -> fmt::Result {
        let word = self.word;
        match self.fault {
            SiiFault::Short => write!(f, "Short"),
            SiiFault::CutCategory => write!(f, "CutCategory at word 0x{word:04x}"),
            SiiFault::CutPdo => write!(f, "CutPdo at word 0x{word:04x}"),
        }
    }
}

/// Prints what the bytes of an EEPROM say, line by line, and answers where they are cut short, if they are.
/// It takes no memory.
pub fn print_eeprom<W: Write>(
    bytes: &[u8],
    lines: &mut Lines<'_, W>,
) -> io::Result<Option<Misread>> {
    match SiiHead::read(bytes) {
        Ok(head) => print_head(bytes.len(), &head, lines)?,
        Err(fault) => return Ok(Some(Misread { fault, word: 0 })),
    }
    let strings = strings_of(bytes);
    let mut at = HEAD;
    for _category in 0..bytes.len() {
        match category_at(bytes, at) {
            Ok(Some(category)) => {
                if let Some(misread) = print_category(bytes, category, strings, lines)? {
                    return Ok(Some(misread));
                }
                at = category.from + category.length;
            }
            Ok(None) => return Ok(None),
            Err(fault) => {
                return Ok(Some(Misread {
                    fault,
                    word: at / 2,
                }));
            }
        }
    }
    Ok(None)
}

/// The texts of an EEPROM: its first category of them, or nothing.
fn strings_of(bytes: &[u8]) -> &[u8] {
    let mut at = HEAD;
    for _category in 0..bytes.len() {
        match category_at(bytes, at) {
            Ok(Some(category)) if category.kind == STRINGS => return bytes_of(bytes, category),
            Ok(Some(category)) => at = category.from + category.length,
            Ok(None) | Err(_) => return &[],
        }
    }
    &[]
}

/// The bytes of a category.
fn bytes_of(bytes: &[u8], category: Category) -> &[u8] {
    let Some(from_there) = bytes.get(category.from..) else {
        return &[];
    };
    match from_there.get(..category.length) {
        Some(them) => them,
        None => &[],
    }
}

/// Prints a category, and answers where it is cut short, if it is.
fn print_category<W: Write>(
    bytes: &[u8],
    category: Category,
    strings: &[u8],
    lines: &mut Lines<'_, W>,
) -> io::Result<Option<Misread>> {
    let them = bytes_of(bytes, category);
    match category.kind {
        STRINGS => print_strings(them, lines)?,
        FMMUS => print_fmmus(them, lines)?,
        SYNC_MANAGERS => print_sync_managers(them, lines)?,
        GENERAL => match General::read(them) {
            Some(general) => print_general(&general, strings, lines)?,
            None => print_other(category, lines)?,
        },
        INPUTS => {
            let stop = print_pdos(Way::Inputs, them, strings, lines)?;
            return Ok(misread_in(category, stop));
        }
        OUTPUTS => {
            let stop = print_pdos(Way::Outputs, them, strings, lines)?;
            return Ok(misread_in(category, stop));
        }
        _ => print_other(category, lines)?,
    }
    Ok(None)
}

/// Where an EEPROM is cut short whose category is.
fn misread_in(category: Category, stop: Option<(SiiFault, usize)>) -> Option<Misread> {
    let (fault, at) = stop?;
    Some(Misread {
        fault,
        word: category.from / 2 + at / 2,
    })
}

/// Prints that there is a category of another kind.
fn print_other<W: Write>(category: Category, lines: &mut Lines<'_, W>) -> io::Result<()> {
    let kind = category.kind;
    let words = category.length / 2;
    lines.text(format_args!("# category {kind} of {words} words"))?;
    lines.end()
}

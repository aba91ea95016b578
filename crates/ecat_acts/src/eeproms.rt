//! What stands in the EEPROMs of slaves, in files as `ethercat sii_read` writes them: one file, or those of a
//! folder, as `serve --sii FOLDER` has them.

use crate::failure::{Failure, refuse, report, report_file};
use ec_applications::PlacedEeprom;
use ec_sii::Eeprom;
use ecat_setup::LineFailure;
use ecat_source::{Counted, ReadAllFault, read_all};
use std::alloc::{AllocError, Global};
use std::fs;
use std::io::{ErrorKind, Write};
use std::rt::Files;

/// How many bytes an EEPROM has at the most: 16 bits count its words.
const MOST_BYTES: usize = 0x2_0000;

/// The EEPROMs of the slaves of a line of so many that a folder has files for: `0.bin` of the first slave,
/// `1.bin` of the next one. Where there is no such file, or one cannot be read, it is told why, and the exit
/// status is the answer.
pub fn eeproms_at<R, W, V>(
    rt: &R,
    folder: &str,
    count: usize,
    out: &mut W,
    err: &mut V,
) -> Result<Vec<PlacedEeprom>, u8>
where
    R: Files + AllocGlobal,
    W: Write,
    V: Write,
{
    let mut eeproms = Vec::new(rt.alloc());
    for place in 0..count {
        let Some(eeprom) = eeprom_at(rt, folder, place, out, err)? else {
            continue;
        };
        if eeproms.push(PlacedEeprom { place, eeprom }).is_err() {
            return Err(report(&Failure::Line(LineFailure::NoMemory), out, err));
        }
    }
    if eeproms.is_empty() {
        let _ = writeln!(
            err,
            "{folder}: no file of a slave of the line; 0.bin is that of the first one"
        );
        return Err(refuse("sii: NoFile\n", out, err));
    }
    Ok(eeproms)
}

/// The path of the file of the slave at a place.
fn path_of(alloc: Global, folder: &str, place: usize) -> Result<String, AllocError> {
    let mut path = String::new(alloc);
    match std::fmt::Write::write_fmt(&mut path, format_args!("{folder}/{place}.bin")) {
        Ok(()) => Ok(path),
        Err(_) => Err(AllocError),
    }
}

/// The EEPROM of the slave at a place, if the folder has its file.
fn eeprom_at<R, W, V>(
    rt: &R,
    folder: &str,
    place: usize,
    out: &mut W,
    err: &mut V,
) -> Result<Option<Eeprom>, u8>
where
    R: Files + AllocGlobal,
    W: Write,
    V: Write,
{
    let Ok(path) = path_of(rt.alloc(), folder, place) else {
        return Err(report(&Failure::Line(LineFailure::NoMemory), out, err));
    };
    let file = match fs::open(rt, path.as_str()) {
        Ok(file) => file,
        Err(error) if error.kind() == ErrorKind::NotFound => return Ok(None),
        Err(error) => return Err(report_file(&Failure::Eeprom, path.as_str(), &error, out, err)),
    };
    eeprom_in(rt, file, path.as_str(), out, err).map(Some)
}

/// The EEPROM that an open file has, whose path is told where it cannot be read.
pub(crate) fn eeprom_in<R, W, V>(
    rt: &R,
    file: R::File,
    path: &str,
    out: &mut W,
    err: &mut V,
) -> Result<Eeprom, u8>
where
    R: Files + AllocGlobal,
    W: Write,
    V: Write,
{
    match read_all(rt.alloc(), &mut Counted::new(file), MOST_BYTES) {
        Ok(bytes) => Ok(Eeprom::new(bytes)),
        Err(fault) => Err(report_unread(fault, path, out, err)),
    }
}

/// Tells why the file of an EEPROM cannot be read, and answers the exit status.
fn report_unread<W: Write, V: Write>(
    fault: ReadAllFault,
    path: &str,
    out: &mut W,
    err: &mut V,
) -> u8 {
    match fault {
        ReadAllFault::TooLong => {
            let _ = writeln!(err, "{path}: more than {MOST_BYTES} bytes");
            refuse("sii: TooLong\n", out, err)
        }
        ReadAllFault::Read => report(&Failure::Line(LineFailure::Read), out, err),
        ReadAllFault::NoMemory => report(&Failure::Line(LineFailure::NoMemory), out, err),
    }
}

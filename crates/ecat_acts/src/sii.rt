//! `ecat sii`: what the EEPROM of a slave says, which stands in a file or is made of a scene.

use crate::eeproms::eeprom_in;
use crate::failure::{Failure, refuse, report, report_file, status_of};
use crate::tape::make_eeprom;
use ec_sii::Eeprom;
use ecat_args::SiiWords;
use ecat_eeprom::print_eeprom;
use ecat_scene::{Scene, SlaveKind};
use ecat_setup::{LineFailure, eeprom_of, make_devices, text_of};
use ecat_source::Counted;
use ecat_text::{GOOD, Lines, REFUSED};
use std::fs;
use std::io::Write;
use std::rt::Files;

/// Prints what an EEPROM says, and writes its bytes to a file where the words say so; and answers the exit
/// status.
#[inline(never)]
pub fn sii_by<R, W, V>(rt: &R, words: &SiiWords<'_>, out: &mut W, err: &mut V) -> u8
where
    R: Files + AllocGlobal,
    W: Write,
    V: Write,
{
    let found = match words.place {
        None => eeprom_at(rt, words.file, out, err),
        Some(place) => eeprom_by_scene(rt, words.file, place as usize, out, err),
    };
    let eeprom = match found {
        Ok(eeprom) => eeprom,
        Err(status) => return status,
    };
    if let Some(path) = words.write
        && let Err(status) = write_eeprom(rt, path, words.force, &eeprom, out, err)
    {
        return status;
    }
    let done = print(&eeprom, out);
    status_of(done, out, err)
}

/// The EEPROM that a file has.
fn eeprom_at<R, W, V>(rt: &R, path: &str, out: &mut W, err: &mut V) -> Result<Eeprom, u8>
where
    R: Files + AllocGlobal,
    W: Write,
    V: Write,
{
    match fs::open(rt, path) {
        Ok(file) => eeprom_in(rt, file, path, out, err),
        Err(error) => Err(report_file(&Failure::Eeprom, path, &error, out, err)),
    }
}

/// The EEPROM that `serve` makes for the slave at a place of a scene. A slave that the scene calls plain has
/// none.
fn eeprom_by_scene<R, W, V>(
    rt: &R,
    path: &str,
    place: usize,
    out: &mut W,
    err: &mut V,
) -> Result<Eeprom, u8>
where
    R: Files + AllocGlobal,
    W: Write,
    V: Write,
{
    let mut scene = match scene_at(rt, path, out, err) {
        Ok(scene) => scene,
        Err(status) => return Err(status),
    };
    make_devices(scene.slaves.as_mut_slice());
    let Some(slave) = scene.slaves.get(place) else {
        let count = scene.slaves.len();
        let _ = writeln!(
            err,
            "{path}: it has {count} slaves, the first of which is 0"
        );
        return Err(refuse("sii: NoSlave\n", out, err));
    };
    if slave.kind == SlaveKind::Plain {
        let _ = writeln!(err, "{path}: slave {place} is plain, and has no EEPROM");
        return Err(refuse("sii: NoEeprom\n", out, err));
    }
    match eeprom_of(rt.alloc(), place, slave) {
        Ok(eeprom) => Ok(eeprom),
        Err(failure) => Err(report(&Failure::Line(failure), out, err)),
    }
}

/// The scene that a file has.
fn scene_at<R, W, V>(rt: &R, path: &str, out: &mut W, err: &mut V) -> Result<Scene, u8>
where
    R: Files + AllocGlobal,
    W: Write,
    V: Write,
{
    let file = match fs::open(rt, path) {
        Ok(file) => file,
        Err(error) => return Err(report_file(&Failure::Open, path, &error, out, err)),
    };
    let text = match text_of(rt.alloc(), &mut Counted::new(file)) {
        Ok(text) => text,
        Err(failure) => return Err(report(&Failure::Line(failure), out, err)),
    };
    match Scene::read(rt.alloc(), text.as_slice()) {
        Ok(scene) => Ok(scene),
        Err(fault) => Err(report(&Failure::Line(LineFailure::Scene(fault)), out, err)),
    }
}

/// Writes the bytes of an EEPROM to a file.
fn write_eeprom<R, W, V>(
    rt: &R,
    path: &str,
    force: bool,
    eeprom: &Eeprom,
    out: &mut W,
    err: &mut V,
) -> Result<(), u8>
where
    R: Files,
    W: Write,
    V: Write,
{
    let mut file = make_eeprom(rt, path, force, out, err)?;
    match file.write_all(eeprom.bytes()) {
        Ok(()) => Ok(()),
        Err(error) => Err(report_file(&Failure::EepromWrite, path, &error, out, err)),
    }
}

/// Prints what an EEPROM says, and where its bytes are cut short, if they are; and answers the exit status.
fn print<W: Write>(eeprom: &Eeprom, out: &mut W) -> Result<u8, LineFailure> {
    let mut lines = Lines::new(out);
    let misread = print_eeprom(eeprom.bytes(), &mut lines)?;
    if let Some(misread) = misread {
        lines.text(format_args!("sii: {misread}"))?;
        lines.end()?;
    }
    lines.flush()?;
    Ok(if misread.is_some() { REFUSED } else { GOOD })
}

//! The file of a master's outputs: a line for each cycle.

use crate::failure::{Failure, report, report_file};
use ec_run::{Image, ImageFault, ImagesFault, MAX_IMAGES_TEXT, read_images};
use ecat_setup::LineFailure;
use ecat_source::{Counted, ReadAllFault, Source, read_all};
use std::alloc::Global;
use std::fs;
use std::io::Write;
use std::rt::Files;

/// Reads the images of the file at a path, of so many bytes each. Where there are none it is told why, and
/// the exit status is the answer.
pub fn images_at<R, W, V>(
    rt: &R,
    path: &str,
    length: usize,
    out: &mut W,
    err: &mut V,
) -> Result<Vec<Image>, u8>
where
    R: Files + AllocGlobal,
    W: Write,
    V: Write,
{
    let file = match fs::open(rt, path) {
        Ok(file) => file,
        Err(error) => return Err(report_file(&Failure::Outputs, path, &error, out, err)),
    };
    match images_in(rt.alloc(), &mut Counted::new(file), length) {
        Ok(images) => Ok(images),
        Err(failure) => {
            let status = report(&failure, out, err);
            hint_images(path, &failure, length, err);
            Err(status)
        }
    }
}

/// The images that a source has, of so many bytes each.
fn images_in<S: Source>(
    alloc: Global,
    source: &mut S,
    length: usize,
) -> Result<Vec<Image>, Failure> {
    let text = match read_all(alloc, source, MAX_IMAGES_TEXT) {
        Ok(text) => text,
        Err(ReadAllFault::TooLong) => return Err(Failure::Images(ImagesFault::TooLong)),
        Err(ReadAllFault::Read) => return Err(Failure::Line(LineFailure::Read)),
        Err(ReadAllFault::NoMemory) => return Err(Failure::Images(ImagesFault::NoMemory)),
    };
    match read_images(alloc, text.as_slice(), length) {
        Ok(images) => Ok(images),
        Err(fault) => Err(Failure::Images(fault)),
    }
}

/// Tells `err` what is wrong with a file that has no images of so many bytes.
fn hint_images<V: Write>(path: &str, failure: &Failure, length: usize, err: &mut V) {
    let Failure::Images(fault) = failure else {
        return;
    };
    let _ = match fault {
        ImagesFault::TooLong => writeln!(err, "{path}: more than {MAX_IMAGES_TEXT} bytes"),
        ImagesFault::Empty => writeln!(err, "{path}: no line; one for each cycle is wanted"),
        ImagesFault::Line(line, ImageFault::NotHex) => writeln!(
            err,
            "{path}:{line}: no row of bytes; two hexadecimal digits are wanted for each byte"
        ),
        ImagesFault::Line(line, ImageFault::Length(found)) => writeln!(
            err,
            "{path}:{line}: {found} bytes; the items that write have {length}"
        ),
        ImagesFault::NoMemory => Ok(()),
    };
}

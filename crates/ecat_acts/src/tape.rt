//! `--pcap FILE`: a capture of each copy, as it leaves the master and as it arrives there; and how a file is
//! made that is kept where it is there.

ghost use Rattle.std.specs.Prelude.{◌≡◌, is_some};

use crate::failure::{Failure, report, report_file};
use ecat_record::{Counter, Moments, Recorder, WallClock};
use ecat_text::FAILED;
use ecat_unblocking::{Behind, Records, never_waits};
use std::cell::Cell;
use std::fs::{self, File};
use std::io::{self, ErrorKind, Write};
use std::os::fd::AsRawFd;
use std::rt::{Clock, Files};

/// Where a capture is written.
#[derive(Clone, Copy)]
pub struct Pcap<'a> {
    /// The path of its file.
    pub path: &'a str,
    /// Whether a file that is there is overwritten.
    pub force: bool,
}

/// Where a scene is written.
#[derive(Clone, Copy)]
pub struct ToScene<'a> {
    /// The path of its file.
    pub path: &'a str,
    /// Whether a file that is there is overwritten.
    pub force: bool,
}

impl<'a> ToScene<'a> {
    /// The scene that the words of a command ask for, if they do.
    pub fn of(path: Option<&'a str>, force: bool) -> Option<ToScene<'a>>
        ensures { is_some result ≡ is_some path.entry }
    {
        match path {
            Some(path) => Some(ToScene { path, force }),
            None => None,
        }
    }
}

impl<'a> Pcap<'a> {
    /// The capture that the words of a command ask for, if they do.
    pub fn of(path: Option<&'a str>, force: bool) -> Option<Pcap<'a>>
        ensures { is_some result ≡ is_some path.entry }
    {
        match path {
            Some(path) => Some(Pcap { path, force }),
            None => None,
        }
    }
}

/// What records each copy at the time of the clock: into the file of a capture, or nobody where none is
/// wanted. Where the file cannot be made it is told why, and the exit status is the answer.
pub fn recorder_at<'a, R, W, V>(
    rt: &'a R,
    pcap: Option<Pcap<'_>>,
    out: &mut W,
    err: &mut V,
) -> Result<Recorder<R::File, WallClock<'a, R>>, u8>
where
    R: Clock + Files,
    W: Write,
    V: Write,
{
    Ok(Recorder::to(made(rt, pcap, out, err)?, WallClock::new(rt)))
}

/// A capture of which no write waits, but as long as a cell says so.
pub type Unawaited<'p, F> = Records<'p, F, Behind>;

/// What records each copy as by `recorder_at`, for a master whose cycles wait for no reader: where a pipe is
/// not read, packets are left out.
pub fn unawaited_at<'a, 'p, R, W, V>(
    rt: &'a R,
    pcap: Option<Pcap<'_>>,
    is_patient: &'p Cell<bool>,
    out: &mut W,
    err: &mut V,
) -> Result<Recorder<Unawaited<'p, R::File>, WallClock<'a, R>>, u8>
where
    R: Clock + Files,
    R::File: AsRawFd,
    W: Write,
    V: Write,
{
    let records = match made(rt, pcap, out, err)? {
        Some(file) => {
            never_waits(&file);
            let reader = Behind(file.as_raw_fd());
            Some(Records::new(file, reader, is_patient))
        }
        None => None,
    };
    Ok(Recorder::to(records, WallClock::new(rt)))
}

/// Tells how many packets were left out of a capture, since nobody read it, and ends it behind a command with
/// this exit status as `end` does.
pub fn end_unawaited<F, M, V>(
    recorder: &mut Recorder<Unawaited<'_, F>, M>,
    status: u8,
    err: &mut V,
) -> u8
where
    F: Write,
    M: Moments,
    V: Write,
{
    let left_out = recorder.writer().map_or(0, |records| records.left_out());
    if left_out != 0 {
        let _ = writeln!(
            err,
            "pcap: nobody read it, so packets were left out: {left_out}"
        );
    }
    end(recorder, status, err)
}

/// What records each copy as by `recorder_at`, one after the other, of which each has the next number as its
/// time.
pub fn counted_at<R, W, V>(
    rt: &R,
    pcap: Option<Pcap<'_>>,
    out: &mut W,
    err: &mut V,
) -> Result<Recorder<R::File, Counter>, u8>
where
    R: Files,
    W: Write,
    V: Write,
{
    Ok(Recorder::to(made(rt, pcap, out, err)?, Counter::new()))
}

/// Makes the file of a capture, if one is wanted. Where it cannot be made it is told why, and the exit status
/// is the answer.
fn made<R, W, V>(
    rt: &R,
    pcap: Option<Pcap<'_>>,
    out: &mut W,
    err: &mut V,
) -> Result<Option<R::File>, u8>
where
    R: Files,
    W: Write,
    V: Write,
{
    let Some(pcap) = pcap else {
        return Ok(None);
    };
    match made_at(rt, pcap.path, pcap.force) {
        Ok(file) => Ok(Some(file)),
        Err(error) => {
            let why = (Failure::PcapOpen, Failure::PcapExists);
            Err(report_unmade(pcap.path, &why, &error, out, err))
        }
    }
}

/// Makes the file of a scene, as `made` makes that of a capture.
pub fn make_scene<R, W, V>(
    rt: &R,
    scene: ToScene<'_>,
    out: &mut W,
    err: &mut V,
) -> Result<R::File, u8>
where
    R: Files,
    W: Write,
    V: Write,
{
    match made_at(rt, scene.path, scene.force) {
        Ok(file) => Ok(file),
        Err(error) => {
            let why = (Failure::SceneOpen, Failure::SceneExists);
            Err(report_unmade(scene.path, &why, &error, out, err))
        }
    }
}

/// Makes the file of an EEPROM, as `made` makes that of a capture.
pub fn make_eeprom<R, W, V>(
    rt: &R,
    path: &str,
    force: bool,
    out: &mut W,
    err: &mut V,
) -> Result<R::File, u8>
where
    R: Files,
    W: Write,
    V: Write,
{
    match made_at(rt, path, force) {
        Ok(file) => Ok(file),
        Err(error) => {
            let why = (Failure::Eeprom, Failure::EepromExists);
            Err(report_unmade(path, &why, &error, out, err))
        }
    }
}

/// Makes a file, in the place of one that is there if that is forced.
fn made_at<R: Files>(rt: &R, path: &str, force: bool) -> io::Result<R::File> {
    if force {
        fs::create(rt, path)
    } else {
        File::create_new(rt, path)
    }
}

/// Reports that a file could not be made, since it could not be opened or since it is there, and what helps.
fn report_unmade<W: Write, V: Write>(
    path: &str,
    why: &(Failure, Failure),
    error: &io::Error,
    out: &mut W,
    err: &mut V,
) -> u8 {
    if error.kind() != ErrorKind::AlreadyExists {
        return report_file(&why.0, path, error, out, err);
    }
    let status = report(&why.1, out, err);
    let _ = writeln!(err, "{path}: it is kept; --force overwrites it");
    status
}

/// Ends a capture behind a command with this exit status: tells `err` where a write of it has failed, and
/// answers the exit status then.
pub fn end<W, M, V>(recorder: &mut Recorder<W, M>, status: u8, err: &mut V) -> u8
where
    W: Write,
    M: Moments,
    V: Write,
{
    match recorder.finish() {
        Ok(()) => status,
        Err(_) => {
            let _ = err.write_all(b"pcap: Write\n");
            FAILED
        }
    }
}

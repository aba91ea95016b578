//! What is asked of a line somewhere else: who stands there, where its cable is broken, an object.

ghost use Rattle.std.specs.Prelude.{◌≡◌, IfOk, if◌then◌else◌, is_some};
ghost use Rattle.ecat_acts.specs.declared.act.Told.TheVariants.{Json, Texts};

use crate::act::Told;
use crate::failure::{Failure, report, report_file, status_of};
use crate::finding::Finding;
use crate::piped::Piped;
use crate::remote::{patience, reach_of, tell_failing, tell_late};
use crate::tape::{ToScene, make_scene};
use crate::through::{Far, Sought, ask_for};
use ec_master::Ports;
use ec_ring::{HeardPorts, Port};
use ec_run::Watched;
use ecat_args::ScanWords;
use ecat_course::refuse_long_mailbox;
use ecat_events::Finds;
use ecat_master::{Finder, Unfound, scan};
use ecat_reach::{Reach, open_ports};
use ecat_record::unrecorded;
use ecat_scene::{Scene, SceneFault};
use ecat_setup::LineFailure;
use ecat_simulation::{Asked, json_where_far, sdo_far, where_far};
use ecat_text::{GOOD, Lines, REFUSED};
use std::alloc::Global;
use std::io::{self, Write};
use std::net::Net;
use std::random::RandomSource;
use std::rt::{Clock, Files};

/// What the words of `scan` say.
#[derive(Clone, Copy)]
struct Scanning<'a> {
    /// How the line is reached.
    reach: Reach<'a>,
    /// For how many microseconds copies are waited for, where the words say so.
    limit: Option<u32>,
    /// Where a scene is written.
    scene: Option<ToScene<'a>>,
    /// How what is found is told.
    form: Told,
}

impl<'a> Scanning<'a> {
    /// What the words say, unless they do not say how the line is reached.
    fn of(words: &ScanWords<'a>) -> Result<Scanning<'a>, Failure>
        ensures form { IfOk result (λ scanning. scanning.form
            ≡ (if words.now.json then Json else Texts)) }
        ensures limit { IfOk result (λ scanning. scanning.limit ≡ words.now.limit) }
        ensures scene { IfOk result (λ scanning. is_some scanning.scene ≡ is_some words.now.scene) }
    {
        let reach = reach_of(words.at, words.raw)?;
        Ok(Scanning {
            reach,
            limit: words.limit,
            scene: ToScene::of(words.scene, words.force),
            form: Told::of(words.json),
        })
    }
}

/// Asks the slaves of a line somewhere else what they are, as the words of `scan` say, and answers the exit
/// status.
#[inline(never)]
pub fn scan_by<R, W, V>(rt: &R, words: &ScanWords<'_>, out: &mut W, err: &mut V) -> u8
where
    R: Clock + Files + Net + RandomSource + AllocGlobal,
    W: io::Write,
    V: io::Write,
{
    if let Some(door) = words.through {
        if words.json {
            return report(&Failure::Through, out, err);
        }
        let far = Far::of(words.at, words.raw, words.scene);
        return ask_for(rt, door, far, &Sought::Slaves, out, err);
    }
    let scanning = match Scanning::of(words) {
        Ok(scanning) => scanning,
        Err(failure) => return report(&failure, out, err),
    };
    tell_late(words.late, err);
    match scanning.scene {
        None => scan_at(rt, &scanning, &mut Unfound, out, err),
        Some(scene) => scan_to(rt, &scanning, scene, out, err),
    }
}

/// Asks the slaves of a line somewhere else what they are, and writes them as a scene.
fn scan_to<R, W, V>(
    rt: &R,
    scanning: &Scanning<'_>,
    scene: ToScene<'_>,
    out: &mut W,
    err: &mut V,
) -> u8
where
    R: Clock + Files + Net + RandomSource + AllocGlobal,
    W: io::Write,
    V: io::Write,
{
    let mut file = match make_scene(rt, scene, out, err) {
        Ok(file) => file,
        Err(status) => return status,
    };
    let mut finding = Finding::new(rt.alloc());
    let status = scan_at(rt, scanning, &mut finding, out, err);
    match finding.scene() {
        Ok(text) => match file.write_all(text.as_bytes()) {
            Ok(()) => status,
            Err(error) => report_file(&Failure::SceneWrite, scene.path, &error, out, err),
        },
        Err(_) => report(&Failure::Line(LineFailure::NoMemory), out, err),
    }
}

/// Asks the slaves of a line somewhere else what they are; what is read of them goes to the finder too.
fn scan_at<R, F, W, V>(
    rt: &R,
    scanning: &Scanning<'_>,
    finder: &mut F,
    out: &mut W,
    err: &mut V,
) -> u8
where
    R: Clock + Net + RandomSource + AllocGlobal,
    F: Finder,
    W: io::Write,
    V: io::Write,
{
    let within = patience(scanning.limit);
    match open_ports(rt, scanning.reach, within, &mut unrecorded()) {
        Ok(ports) => act_scan(rt.alloc(), ports, scanning.form, finder, out, err),
        Err(fault) => report(&Failure::from(fault), out, err),
    }
}

/// Says where the cable of a line somewhere else is broken, whose slaves are those of a scene.
#[inline(never)]
pub fn where_at<R, W, V>(
    rt: &R,
    reach: Reach<'_>,
    form: Told,
    scene: Result<Scene, SceneFault>,
    out: &mut W,
    err: &mut V,
) -> u8
where
    R: Clock + Net + RandomSource + AllocGlobal,
    W: io::Write,
    V: io::Write,
{
    match open_ports(rt, reach, patience(None), &mut unrecorded()) {
        Ok(mut ports) => {
            let told = located(rt.alloc(), &mut ports, form, scene, out);
            tell_failing_of(&ports, err);
            status_of(told, out, err)
        }
        Err(fault) => report(&Failure::from(fault), out, err),
    }
}

/// Tells which of these ports fail.
fn tell_failing_of<P: HeardPorts, V: Write>(ports: &P, err: &mut V) {
    tell_failing(ports.health(Port::A), ports.health(Port::B), err);
}

/// Says where the cable of the line at ports is broken, unless its scene is none.
fn located<P: HeardPorts, W: Write>(
    alloc: Global,
    ports: &mut P,
    form: Told,
    scene: Result<Scene, SceneFault>,
    out: &mut W,
) -> Result<u8, LineFailure> {
    match form {
        Told::Texts => where_far(alloc, ports, scene?, out),
        Told::Json => json_where_far(alloc, ports, scene?, out),
    }
}

/// Reads or writes an object of a slave on a line somewhere else, whose slaves are those of a scene.
#[inline(never)]
pub fn sdo_at<R, W, V>(
    rt: &R,
    reach: Reach<'_>,
    asked: &Asked,
    scene: Result<Scene, SceneFault>,
    out: &mut W,
    err: &mut V,
) -> u8
where
    R: Clock + Net + RandomSource + AllocGlobal,
    W: io::Write,
    V: io::Write,
{
    match open_ports(rt, reach, patience(None), &mut unrecorded()) {
        Ok(mut ports) => {
            let told = transferred(rt.alloc(), asked, &mut ports, scene, out, err);
            tell_failing_of(&ports, err);
            status_of(told, out, err)
        }
        Err(fault) => report(&Failure::from(fault), out, err),
    }
}

/// Reads or writes an object of a slave on the line at ports, unless its scene is none or its mailbox is so
/// long that copies have no room for a number.
fn transferred<P: Ports, W: Write, V: Write>(
    alloc: Global,
    asked: &Asked,
    ports: &mut P,
    scene: Result<Scene, SceneFault>,
    out: &mut W,
    err: &mut V,
) -> Result<u8, LineFailure> {
    let scene = scene?;
    if refuse_long_mailbox(
        scene.slaves.as_slice(),
        Some(asked.station),
        &mut Lines::new(out),
    )? {
        return Ok(REFUSED);
    }
    sdo_far(alloc, asked, ports, scene, out, err)
}

/// Prints what slaves stand on a line, and answers the exit status. Whoever reads the output may close it.
/// What was read of the slaves goes to the finder too.
fn act_scan<P, F, W, V>(
    alloc: Global,
    ports: P,
    form: Told,
    finder: &mut F,
    out: &mut W,
    err: &mut V,
) -> u8
where
    P: HeardPorts + Drop,
    F: Finder,
    W: Write,
    V: Write,
{
    let mut piped = Piped::new(out);
    let mut ports = Watched::new(ports);
    let done = match form {
        Told::Texts => scanned(&mut ports, finder, &mut piped),
        Told::Json => found(alloc, &mut ports, finder, &mut piped),
    };
    if piped.is_closed() {
        return GOOD;
    }
    tell_failing(ports.health(Port::A), ports.health(Port::B), err);
    status_of(done, out, err)
}

/// Prints what slaves stand on a line; the status says whether all could be read.
fn scanned<P: HeardPorts + Drop, F: Finder, W: Write>(
    ports: &mut Watched<P>,
    finder: &mut F,
    out: &mut W,
) -> Result<u8, Failure> {
    let mut lines = Lines::new(out);
    if scan(ports, &mut lines, finder)? {
        Ok(GOOD)
    } else {
        Ok(REFUSED)
    }
}

/// Prints what slaves stand on a line as objects; the status says whether all could be read.
fn found<P: HeardPorts + Drop, F: Finder, W: Write>(
    alloc: Global,
    ports: &mut Watched<P>,
    finder: &mut F,
    out: &mut W,
) -> Result<u8, Failure> {
    let Ok(mut finds) = Finds::new(alloc, out, finder) else {
        return Err(Failure::Line(LineFailure::NoMemory));
    };
    let mut nobody = io::sink();
    let is_all = scan(ports, &mut Lines::new(&mut nobody), &mut finds)?;
    finds.end()?;
    if is_all { Ok(GOOD) } else { Ok(REFUSED) }
}

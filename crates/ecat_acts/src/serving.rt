//! `ecat serve`: the ends that it opens, and who works on the line.

use crate::eeproms::eeproms_at;
use crate::failure::{Failure, report, status_of, unbound};
use crate::on_scene::report_unbound;
use crate::tape::{Pcap, end, recorder_at};
use ecat_events::{Counted, Objects, Voice, room_if};
use ecat_raw::{Carriers, Descriptors, RawEnds};
use ecat_record::{Moments, Recorder, TapedEnds};
use ecat_remote::{ClockTimer, Timer};
use ecat_scene::{Scene, SceneFault};
use ecat_serve::{Cabled, Console as LineConsole, Disturbed, Served, TimedEnds, Times, UdpEnds};
use ecat_service::{Service, control, line_to_serve, serve, serve_cabled};
use ecat_setup::LineFailure;
use ecat_stamps::Utc;
use std::cell::Cell;
use std::io;
use std::net::Net;
use std::rt::{Clock, Files, Stdin};

/// The files that a service reads and writes.
#[derive(Clone, Copy)]
pub struct ServeFiles<'a> {
    /// The folder with what stands in EEPROMs, if there is one.
    pub eeproms: Option<&'a str>,
    /// The capture that gets each copy, if there is one.
    pub pcap: Option<Pcap<'a>>,
}

/// Serves the line of a scene, and has what is told of it be objects of JSON, if they are to be.
#[inline(never)]
pub fn serve_told<R, W, V>(
    rt: &R,
    service: Service,
    files: ServeFiles<'_>,
    input: Stdin,
    json: bool,
    scene: Result<Scene, SceneFault>,
    out: &mut W,
    err: &mut V,
) -> u8
where
    R: Clock + Files + Net + AllocGlobal,
    W: io::Write,
    V: io::Write,
{
    let (Ok(told), Ok(logged)) = (room_if(rt.alloc(), json), room_if(rt.alloc(), json)) else {
        return report(&Failure::Line(LineFailure::NoMemory), out, err);
    };
    let (are_own, are_objects) = (Cell::new(true), Cell::new(false));
    let voice = Voice {
        are_own: &are_own,
        are_objects: &are_objects,
        counts: Counted::Packets,
    };
    let mut out = Objects::new(out, told, voice, &None::<Utc<'_, R>>);
    let mut err = Objects::new(err, logged, voice, &None::<Utc<'_, R>>);
    serve_at(rt, service, files, input, scene, &mut out, &mut err)
}

/// Serves the line of a scene. Its ends are opened once it is known that there is one. The service ends with
/// the input where that has commands, or where it is not left alone.
#[inline(never)]
fn serve_at<R, W, V>(
    rt: &R,
    service: Service,
    files: ServeFiles<'_>,
    input: Stdin,
    scene: Result<Scene, SceneFault>,
    out: &mut W,
    err: &mut V,
) -> u8
where
    R: Clock + Files + Net + AllocGlobal,
    W: io::Write,
    V: io::Write,
{
    let served = match served_of(rt, service, files.eeproms, scene, out, err) {
        Ok(served) => served,
        Err(status) => return status,
    };
    let mut recorder = match recorder_at(rt, files.pcap, out, err) {
        Ok(recorder) => recorder,
        Err(status) => return status,
    };
    let status = serve_taped(rt, service, input, served, &mut recorder, out, err);
    end(&mut recorder, status, err)
}

/// The line of a scene, as it is served, whose devices have the EEPROMs that stand in a folder, if one is
/// named. Where there is no such line it is told why, and the exit status is the answer.
fn served_of<R, W, V>(
    rt: &R,
    service: Service,
    folder: Option<&str>,
    scene: Result<Scene, SceneFault>,
    out: &mut W,
    err: &mut V,
) -> Result<Served, u8>
where
    R: Files + AllocGlobal,
    W: io::Write,
    V: io::Write,
{
    let scene = match scene {
        Ok(scene) => scene,
        Err(fault) => return Err(report(&Failure::Line(LineFailure::Scene(fault)), out, err)),
    };
    let eeproms = match folder {
        Some(folder) => eeproms_at(rt, folder, scene.slaves.len(), out, err)?,
        None => Vec::new(rt.alloc()),
    };
    match line_to_serve(rt.alloc(), service, scene, eeproms) {
        Ok(served) => Ok(served),
        Err(failure) => Err(report(&Failure::Line(failure), out, err)),
    }
}

/// Serves a line, and records each copy at its ends, if anybody wants it.
fn serve_taped<R, T, M, W, V>(
    rt: &R,
    service: Service,
    input: Stdin,
    served: Served,
    recorder: &mut Recorder<T, M>,
    out: &mut W,
    err: &mut V,
) -> u8
where
    R: Clock + Files + Net + AllocGlobal,
    T: io::Write,
    M: Moments,
    W: io::Write,
    V: io::Write,
{
    let awaited = if service.awaits_input() {
        Some(input)
    } else {
        None
    };
    if let Some(descriptors) = service.raw {
        return serve_raw(
            rt,
            service,
            descriptors,
            awaited,
            served,
            recorder,
            out,
            err,
        );
    }
    let mut ends = match UdpEnds::bind(rt, rt.alloc(), service.address, service.port, awaited) {
        Ok(ends) => ends,
        Err(fault) => {
            return report_unbound(&unbound(fault), service.address, service.port, out, err);
        }
    };
    if service.control {
        ends.keep_lines();
    }
    serve_ends(rt, service, &mut ends, served, recorder, out, err)
}

/// Serves a line at packet sockets, under commands where the service takes them, and records each copy at its
/// ends, if anybody wants it. A cable that is pulled there is the link of the line at that end.
fn serve_raw<R, T, M, W, V>(
    rt: &R,
    service: Service,
    descriptors: Descriptors,
    awaited: Option<Stdin>,
    served: Served,
    recorder: &mut Recorder<T, M>,
    out: &mut W,
    err: &mut V,
) -> u8
where
    R: Clock + Files + Net + AllocGlobal,
    T: io::Write,
    M: Moments,
    W: io::Write,
    V: io::Write,
{
    let mut ends = match RawEnds::open(rt, rt.alloc(), descriptors, awaited) {
        Ok(ends) => ends,
        Err(fault) => return report(&Failure::Raw(fault), out, err),
    };
    if service.control {
        ends.keep_lines();
    }
    let mut ends = TapedEnds::new(&mut ends, recorder);
    let Ok(timer) = ClockTimer::new(rt) else {
        return report(&Failure::Clock, out, err);
    };
    let times = ServedTimes { timer };
    let mut ends = Cabled::new(&mut ends, Carriers::of(rt, descriptors), times);
    serve_disturbed(rt, served, service, &mut ends, out, err)
}

/// Serves a line that has these ends, under commands where the service takes them, and records each copy at
/// its ends, if anybody wants it.
fn serve_ends<R, E, T, M, W, V>(
    rt: &R,
    service: Service,
    ends: &mut E,
    served: Served,
    recorder: &mut Recorder<T, M>,
    out: &mut W,
    err: &mut V,
) -> u8
where
    R: Clock + AllocGlobal,
    E: LineConsole + TimedEnds,
    T: io::Write,
    M: Moments,
    W: io::Write,
    V: io::Write,
{
    let mut ends = TapedEnds::new(ends, recorder);
    if service.control {
        serve_disturbed(rt, served, service, &mut ends, out, err)
    } else {
        status_of(serve(served, service, &mut ends, out, err), out, err)
    }
}

/// The clock by which copies of a served line are late.
#[derive(Drop)]
struct ServedTimes<'a, R: Clock> {
    timer: ClockTimer<'a, R>,
}

impl<R: Clock> Times for ServedTimes<'_, R> {
    fn now(&mut self) -> u64 {
        self.timer.now()
    }
}

/// Serves a line whose copies may leave its ends late, twice or damaged, as commands have them, where the
/// service takes commands.
fn serve_disturbed<R, E, W, V>(
    rt: &R,
    served: Served,
    service: Service,
    ends: &mut E,
    out: &mut W,
    err: &mut V,
) -> u8
where
    R: Clock + AllocGlobal,
    E: LineConsole + TimedEnds,
    W: io::Write,
    V: io::Write,
{
    let Ok(timer) = ClockTimer::new(rt) else {
        return report(&Failure::Clock, out, err);
    };
    let Ok(mut ends) = Disturbed::new(rt.alloc(), ends, ServedTimes { timer }) else {
        return report(&Failure::NoMemoryForSockets, out, err);
    };
    let done = if service.control {
        control(rt.alloc(), served, service, &mut ends, out, err)
    } else {
        serve_cabled(served, service, &mut ends, out, err)
    };
    status_of(done, out, err)
}

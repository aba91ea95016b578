//! The commands on a scene: those that need no more than it, and those that open sockets, a clock or a file
//! of their own.

use crate::act::{Alone, Told, act};
use crate::asked::asked_of;
use crate::asking::{sdo_at, where_at};
use crate::console::Console;
use crate::failure::{Failure, report, status_of};
use crate::mastering::master_by;
use crate::remote::reach_of;
use crate::serving::{ServeFiles, serve_told};
use crate::tape::{Pcap, counted_at, end};
use crate::through::{Far, Sought, ask_through};
use crate::udp::{Prepared, Wanted, act_udp, prepare_udp};
use ecat_args::SceneCommand;
use ecat_raw::{Descriptors, descriptors_of};
use ecat_record::{Moments, Recorder, TapedLine};
use ecat_scene::{Scene, SceneFault};
use ecat_service::Service;
use ecat_setup::LineFailure;
use ecat_simulation::run;
use ecat_udp::UdpLine;
use std::io;
use std::net::{Ipv4Addr, Net};
use std::os::fd::AsRawFd;
use std::random::RandomSource;
use std::rt::{Clock, Files};

/// Does a command on the scene that was read of this text, and answers the exit status. Where the text is no
/// scene, that is told where the command would begin with it: behind what is wrong with its words, and behind
/// the files and sockets that it opens first.
pub fn on_scene<R, W, V>(
    rt: &R,
    command: &SceneCommand<'_>,
    console: Console,
    text: &[u8],
    scene: Result<Scene, SceneFault>,
    out: &mut W,
    err: &mut V,
) -> u8
where
    R: Clock + Files + Net + RandomSource + AllocGlobal,
    R::File: AsRawFd,
    W: io::Write,
    V: io::Write,
{
    let alloc = rt.alloc();
    match command {
        SceneCommand::Check { json } => {
            act(alloc, &Alone::Check(Told::of(*json)), text, scene, out, err)
        }
        SceneCommand::Cover { json } => {
            act(alloc, &Alone::Cover(Told::of(*json)), text, scene, out, err)
        }
        SceneCommand::Lint { json } => {
            act(alloc, &Alone::Lint(Told::of(*json)), text, scene, out, err)
        }
        SceneCommand::Sweep => act(alloc, &Alone::Sweep, text, scene, out, err),
        SceneCommand::Where {
            through: Some(_),
            json: true,
            ..
        } => report(&Failure::Through, out, err),
        SceneCommand::Where {
            at,
            raw,
            through: Some(door),
            json: false,
        } => {
            let far = Far::of(*at, *raw, None);
            ask_through(rt, door, far, &Sought::Cable, scene, out, err)
        }
        SceneCommand::Where {
            at: None,
            raw: None,
            json,
            ..
        } => act(alloc, &Alone::Where(Told::of(*json)), text, scene, out, err),
        SceneCommand::Where { at, raw, json, .. } => match reach_of(*at, *raw) {
            Ok(reach) => where_at(rt, reach, Told::of(*json), scene, out, err),
            Err(failure) => report(&failure, out, err),
        },
        SceneCommand::Run {
            judge,
            pcap: None,
            ..
        } => act(alloc, &Alone::Run { judge: *judge }, text, scene, out, err),
        SceneCommand::Run { judge, pcap, force } => {
            run_taped(rt, *judge, Pcap::of(*pcap, *force), scene, out, err)
        }
        SceneCommand::Sdo {
            station,
            index,
            sub,
            value,
            at,
            raw,
            through: Some(door),
            ..
        } => {
            let asked = asked_of(*station, *index, *sub, *value, false);
            let far = Far::of(*at, *raw, None);
            ask_through(rt, door, far, &Sought::Object(asked), scene, out, err)
        }
        SceneCommand::Sdo {
            station,
            index,
            sub,
            value,
            surely,
            at: None,
            raw: None,
            ..
        } => {
            let asked = asked_of(*station, *index, *sub, *value, *surely);
            act(alloc, &Alone::Sdo(asked), text, scene, out, err)
        }
        SceneCommand::Sdo {
            station,
            index,
            sub,
            value,
            once,
            at,
            raw,
            ..
        } => {
            let asked = asked_of(*station, *index, *sub, *value, !*once);
            match reach_of(*at, *raw) {
                Ok(reach) => sdo_at(rt, reach, &asked, scene, out, err),
                Err(failure) => report(&failure, out, err),
            }
        }
        SceneCommand::Udp {
            port,
            judge,
            pcap,
            force,
        } => {
            let wanted = Wanted {
                port: *port,
                judge: *judge,
            };
            udp_at(rt, wanted, Pcap::of(*pcap, *force), scene, out, err)
        }
        SceneCommand::Serve {
            port,
            packets,
            address,
            forever,
            control,
            log,
            plain,
            set_up,
            sii,
            raw,
            pcap,
            force,
            json,
        } => {
            let Some(raw) = raw_of(*raw) else {
                return report(&Failure::Descriptors, out, err);
            };
            let service = Service {
                address: *address,
                port: *port,
                packets: *packets,
                forever: *forever,
                control: *control,
                log: *log,
                plain: *plain,
                set_up: *set_up,
                raw,
            };
            let files = ServeFiles {
                eeproms: *sii,
                pcap: Pcap::of(*pcap, *force),
            };
            serve_told(rt, service, files, console.input, *json, scene, out, err)
        }
        SceneCommand::Master(words) => master_by(rt, words, console, scene, out, err),
    }
}

/// The packet sockets that a word names, if there is one; `None` where it names none.
fn raw_of(word: Option<&str>) -> Option<Option<Descriptors>> {
    match word {
        None => Some(None),
        Some(word) => Some(Some(descriptors_of(word)?)),
    }
}

/// Does the work of a scene over sockets, which are opened once it is known that there is work.
#[inline(never)]
fn udp_at<R, W, V>(
    rt: &R,
    wanted: Wanted,
    pcap: Option<Pcap<'_>>,
    scene: Result<Scene, SceneFault>,
    out: &mut W,
    err: &mut V,
) -> u8
where
    R: Files + Net + AllocGlobal,
    W: io::Write,
    V: io::Write,
{
    let prepared = match prepare_udp(rt.alloc(), scene, out, err) {
        Ok(prepared) => prepared,
        Err(status) => return status,
    };
    let mut recorder = match counted_at(rt, pcap, out, err) {
        Ok(recorder) => recorder,
        Err(status) => return status,
    };
    let status = udp_taped(rt, prepared, wanted, &mut recorder, out, err);
    end(&mut recorder, status, err)
}

/// Opens the sockets of a line, over which the work of a scene is done, and records each copy at the master's
/// ports, if anybody wants it.
fn udp_taped<R, T, M, W, V>(
    rt: &R,
    prepared: Prepared,
    wanted: Wanted,
    recorder: &mut Recorder<T, M>,
    out: &mut W,
    err: &mut V,
) -> u8
where
    R: Net,
    T: io::Write,
    M: Moments,
    W: io::Write,
    V: io::Write,
{
    match UdpLine::bind(rt, wanted.port) {
        Ok(line) => {
            let line = TapedLine::new(line, recorder);
            act_udp(prepared, wanted.judge, line, out, err)
        }
        Err(_) => report_unbound(&Failure::Bind, Ipv4Addr::LOCALHOST, wanted.port, out, err),
    }
}

/// Reports that the sockets of a line could not be had, and which ones they are.
pub fn report_unbound<W: io::Write, V: io::Write>(
    failure: &Failure,
    address: Ipv4Addr,
    port: u16,
    out: &mut W,
    err: &mut V,
) -> u8 {
    let status = report(failure, out, err);
    if matches!(failure, Failure::Bind) {
        let next = u32::from(port) + 1;
        let _ = writeln!(
            err,
            "{address}: of the UDP ports {port} and {next} one cannot be had; --port names others"
        );
    }
    status
}

/// Runs a scene, and records each copy of its frames, if anybody wants it.
#[inline(never)]
fn run_taped<R, W, V>(
    rt: &R,
    judge: bool,
    pcap: Option<Pcap<'_>>,
    scene: Result<Scene, SceneFault>,
    out: &mut W,
    err: &mut V,
) -> u8
where
    R: Files + AllocGlobal,
    W: io::Write,
    V: io::Write,
{
    let mut recorder = match counted_at(rt, pcap, out, err) {
        Ok(recorder) => recorder,
        Err(status) => return status,
    };
    let done = match scene {
        Ok(scene) => run(rt.alloc(), judge, &mut recorder, scene, out),
        Err(fault) => Err(LineFailure::Scene(fault)),
    };
    let status = status_of(done, out, err);
    end(&mut recorder, status, err)
}

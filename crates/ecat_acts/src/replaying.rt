//! `ecat replay`: how like the line of a scene is to the one that a capture shows.

use crate::failure::{Failure, refuse, report};
use crate::judging::judge_by;
use ecat_frames::{End, Frames};
use ecat_judge::Asked as AskedOfJudge;
use ecat_replay::Replay;
use ecat_scene::{Scene, SceneFault};
use ecat_service::{Service, line_to_serve};
use ecat_setup::LineFailure;
use ecat_source::Source;
use ecat_text::{FAILED, GOOD, REFUSED};
use std::alloc::{AllocError, Global};
use std::io::{self, ErrorKind, Write};
use std::net::Ipv4Addr;

/// What is done with a capture by a scene.
#[derive(Clone, Copy)]
pub enum ByScene {
    /// It is judged.
    Judge(AskedOfJudge),
    /// What its master sent is sent to the line of the scene.
    Replay(Twin),
}

impl ByScene {
    /// Does it with a capture by the scene that was read, and answers the exit status.
    pub fn act<S, W, V>(
        &self,
        alloc: Global,
        scene: Result<Scene, SceneFault>,
        frames: &mut Frames<S>,
        out: &mut W,
        err: &mut V,
    ) -> u8
    where
        S: Source + Drop,
        W: Write,
        V: Write,
    {
        match self {
            ByScene::Judge(asked) => judge_by(alloc, scene, frames, asked, out, err),
            ByScene::Replay(twin) => replay_by(alloc, scene, *twin, frames, out, err),
        }
    }
}

/// How the slaves of a scene begin to which a capture is sent once more.
#[derive(Clone, Copy)]
pub struct Twin {
    /// Whether slaves of which the scene does not say it are no devices.
    pub plain: bool,
    /// Whether devices begin as the scene sets them up, and not as just switched on.
    pub set_up: bool,
}

impl Twin {
    /// The service that a line like that would have.
    fn service(self) -> Service {
        Service {
            address: Ipv4Addr::LOCALHOST,
            port: 0,
            packets: None,
            forever: false,
            control: false,
            log: false,
            plain: self.plain,
            set_up: self.set_up,
            raw: None,
        }
    }
}

/// Sends what the master of a capture sent to the line of a scene once more, tells what comes back otherwise,
/// and answers the exit status: that of a refusal where something but clocks did, or nothing was compared.
fn replay_by<S, W, V>(
    alloc: Global,
    scene: Result<Scene, SceneFault>,
    twin: Twin,
    frames: &mut Frames<S>,
    out: &mut W,
    err: &mut V,
) -> u8
where
    S: Source + Drop,
    W: Write,
    V: Write,
{
    let scene = match scene {
        Ok(scene) => scene,
        Err(fault) => return report(&Failure::Line(LineFailure::Scene(fault)), out, err),
    };
    let served = match line_to_serve(alloc, twin.service(), scene, Vec::new(alloc)) {
        Ok(served) => served,
        Err(failure) => return report(&Failure::Line(failure), out, err),
    };
    let replayed = match Replay::new(alloc, served) {
        Ok(replay) => play_all(replay, frames),
        Err(fault) => Err(fault),
    };
    match replayed {
        Ok(replay) => end_of_replay(&replay, frames.end(), out, err),
        Err(_) => {
            let _ = err.write_all(b"capture: NoMemory\n");
            FAILED
        }
    }
}

/// Sends all frames of a capture once more.
fn play_all<S: Source + Drop>(
    mut replay: Replay,
    frames: &mut Frames<S>,
) -> Result<Replay, AllocError> {
    for _ in 0..u64::MAX {
        let Some(packet) = frames.next() else {
            break;
        };
        replay.take(frames.marks(), &packet, frames.frame())?;
    }
    replay.end()?;
    Ok(replay)
}

/// Tells what was found, and answers the exit status. Whoever reads the output may close it.
fn end_of_replay<W: Write, V: Write>(replay: &Replay, end: End, out: &mut W, err: &mut V) -> u8 {
    match end {
        End::SourceFailed => return report(&Failure::Line(LineFailure::Read), out, err),
        End::NoMemory => {
            let _ = err.write_all(b"capture: NoMemory\n");
            return FAILED;
        }
        End::Whole if replay.tally().frames == 0 => {
            return refuse("replay: NoFrames\n", out, err);
        }
        End::Whole | End::Damaged(_) => {}
    }
    match put_replay(replay, out) {
        Ok(()) => {}
        Err(error) if error.kind() == ErrorKind::BrokenPipe => return GOOD,
        Err(_) => return report(&Failure::Line(LineFailure::Output), out, err),
    }
    if let End::Damaged(fault) = end {
        let _ = writeln!(err, "capture: {fault}");
        return REFUSED;
    }
    if replay.tally().is_like() {
        GOOD
    } else {
        REFUSED
    }
}

/// Writes what was found.
fn put_replay<W: Write>(replay: &Replay, out: &mut W) -> io::Result<()> {
    replay.put_findings(out)?;
    replay.put_sums(out)?;
    out.flush()
}

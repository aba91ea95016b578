//! `ecat judge`: which cycles of a capture were not good, by a scene or by the line that it shows itself.

ghost use Rattle.std.specs.Prelude.{◌≡◌, IfOk, None, false};

use crate::failure::{Failure, refuse, report};
use crate::learning::end_of_learning;
use crate::mastering::stamped_by;
use ecat_frames::{End, Frames, Looked, look};
use ecat_judge::{Asked, Judged, Known, judge, judge_usual};
use ecat_scene::{Scene, SceneFault};
use ecat_setup::{LineFailure, names_of, records_of};
use ecat_source::Source;
use ecat_text::{FAILED, GOOD, REFUSED};
use ecat_told::{Asked as AskedOfLine, Learned, Usual, learn_by};
use std::alloc::Global;
use std::io::Write;

/// How many lines of runs are printed where the words do not say it.
const LINES: u32 = 1000;

/// What the words of `judge` say but for its files: whether it writes rows or objects, which are not asked
/// for both, how many lines of runs, and what stands beside a time, which has to be `utc` or `none`.
pub fn asked_of_judge(
    csv: bool,
    json: bool,
    lines: Option<u32>,
    clock: Option<&str>,
) -> Result<Asked, Failure>
    ensures csv { IfOk result (λ asked. asked.csv ≡ csv) }
    ensures json { IfOk result (λ asked. asked.json ≡ json) }
    ensures usual { clock.entry ≡ None → IfOk result (λ asked. asked.dates ≡ false) }
{
    if csv && json {
        return Err(Failure::TwoForms);
    }
    Ok(Asked {
        csv,
        json,
        limit: u64::from(lines.unwrap_or(LINES)),
        dates: stamped_by(clock)?,
    })
}

/// The frames of a capture that is open twice, since the addresses of all packets tell their ways; else how
/// judging ends.
pub fn frames_of<S: Source + Drop>(alloc: Global, first: S, again: S) -> Result<Frames<S>, Judged> {
    let mut looked = Looked::new();
    match look(alloc, first, &mut looked) {
        End::SourceFailed => Err(Judged::SourceFailed),
        End::NoMemory => Err(Judged::NoMemory),
        End::Whole | End::Damaged(_) => Ok(Frames::of_file(alloc, again, looked, None)),
    }
}

/// Judges a capture by the scene that was read, and answers the exit status. What else is to be known of its
/// packets, `err` is told, of a file first.
pub fn judge_by<S, W, V>(
    alloc: Global,
    scene: Result<Scene, SceneFault>,
    frames: &mut Frames<S>,
    asked: &Asked,
    out: &mut W,
    err: &mut V,
) -> u8
where
    S: Source + Drop,
    W: Write,
    V: Write,
{
    frames.tell_notes(false, err);
    let status = judge_by_scene(alloc, scene, frames, asked, out, err);
    frames.tell_notes(true, err);
    status
}

/// Judges a capture by the scene that was read, and answers the exit status.
fn judge_by_scene<S, W, V>(
    alloc: Global,
    scene: Result<Scene, SceneFault>,
    frames: &mut Frames<S>,
    asked: &Asked,
    out: &mut W,
    err: &mut V,
) -> u8
where
    S: Source + Drop,
    W: Write,
    V: Write,
{
    let scene = match scene {
        Ok(scene) => scene,
        Err(fault) => return report(&Failure::Line(LineFailure::Scene(fault)), out, err),
    };
    let slaves = scene.slaves.as_slice();
    match (records_of(alloc, slaves), names_of(alloc, slaves)) {
        (Ok(line), Ok(names)) => {
            let line = Known {
                slaves: line.as_slice(),
                names,
                items: scene.items.as_slice(),
            };
            end_of_judging(judge(alloc, frames, line, asked, out), out, err)
        }
        (Err(failure), _) | (Ok(_), Err(failure)) => report(&Failure::Line(failure), out, err),
    }
}

/// Judges a capture, which `again` has once more, by the line that it shows itself, and answers the exit
/// status. Where it has no start-up, the counters that came most often are expected. Of that, and where the
/// capture does not tell the whole line, `err` is told.
pub fn judge_by_itself<S, W, V>(
    alloc: Global,
    frames: &mut Frames<S>,
    again: S,
    asked: &Asked,
    out: &mut W,
    err: &mut V,
) -> u8
where
    S: Source + Drop,
    W: Write,
    V: Write,
{
    frames.tell_notes(false, err);
    let line = AskedOfLine {
        at: None,
        asked: false,
        values: false,
    };
    let mut text = Vec::new(alloc);
    let mut usual = Usual::new(alloc);
    let learned = learn_by(alloc, frames, &line, &mut usual, &mut text);
    match learned {
        Learned::Holes | Learned::Damaged(_) if !usual.is_empty() => {
            return judge_by_usual(alloc, frames, again, &usual, asked, out, err);
        }
        Learned::Whole | Learned::Damaged(_) => {}
        Learned::Holes => {
            let _ = err.write_all(HOLES);
        }
        Learned::Closed | Learned::OutputFailed => {
            return end_of_learning(Learned::NoMemory, out, err);
        }
        ended => return end_of_learning(ended, out, err),
    }
    frames.begin_again(alloc, again);
    let scene = Scene::read(alloc, text.as_slice());
    judge_by_scene(alloc, scene, frames, asked, out, err)
}

/// Judges a capture that has no start-up, and that `again` has once more, by the counters that came most
/// often, and answers the exit status.
fn judge_by_usual<S, W, V>(
    alloc: Global,
    frames: &mut Frames<S>,
    again: S,
    usual: &Usual,
    asked: &Asked,
    out: &mut W,
    err: &mut V,
) -> u8
where
    S: Source + Drop,
    W: Write,
    V: Write,
{
    let _ = err.write_all(USUAL);
    frames.begin_again(alloc, again);
    let items = usual.items.as_slice();
    let counters = usual.counters.as_slice();
    let judged = judge_usual(alloc, frames, items, counters, asked, out);
    end_of_judging(judged, out, err)
}

/// What is said first where a capture has no start-up.
const USUAL: &[u8] = b"no start-up in this capture: expected counters are the most frequent\n";

/// What helps where a line is not told whole.
const HOLES: &[u8] =
    b"the capture does not tell the whole line: ecat learn shows what is missing\n";

/// Tells how judging ended, and answers the exit status: that of a refusal where a cycle was not good or
/// lost, and where nothing could be judged. Whoever reads the output may close it.
pub fn end_of_judging<W: Write, V: Write>(judged: Judged, out: &mut W, err: &mut V) -> u8 {
    match judged {
        Judged::Good | Judged::Closed => GOOD,
        Judged::NotGood => REFUSED,
        Judged::Damaged(fault) => {
            let _ = writeln!(err, "capture: {fault}");
            REFUSED
        }
        Judged::NoFrames => refuse("judge: NoFrames\n", out, err),
        Judged::NoItems => refuse("judge: NoItems\n", out, err),
        Judged::SourceFailed => report(&Failure::Line(LineFailure::Read), out, err),
        Judged::OutputFailed => report(&Failure::Line(LineFailure::Output), out, err),
        Judged::NoMemory => {
            let _ = err.write_all(b"capture: NoMemory\n");
            FAILED
        }
    }
}

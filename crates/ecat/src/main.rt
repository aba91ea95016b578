//! `ecat`: EtherCAT frames, scenes and captures from the command line.
#![tactic(auto)]

ghost use Rattle.std.specs.Prelude.{◌≡◌};
ghost use Rattle.ecat_acts.specs.Failures.{refusal_status};

use ecat_acts::act::act_vectors;
use ecat_acts::asking::scan_by;
use ecat_acts::console::Console;
use ecat_acts::failure::{Failure, report, report_file};
use ecat_acts::hints::{Fronted, Noted, hint_capture, hint_fault, hint_odd_lines, hint_scene};
use ecat_acts::judging::{asked_of_judge, end_of_judging, frames_of, judge_by_itself};
use ecat_acts::kinds::{FileWanted, hint_file, hint_files};
use ecat_acts::learning::{asked_of, end_of_learning};
use ecat_acts::listing::{Wanted, act_list, act_list_file};
use ecat_acts::on_scene::on_scene;
use ecat_acts::replaying::{ByScene, Twin};
use ecat_acts::show::act_show;
use ecat_acts::sii::sii_by;
use ecat_args::{Args, ArgsFault, CaptureCommand, SceneCommand, SiiWords, bad_word};
use ecat_frames::Frames;
use ecat_judge::{Asked as AskedOfJudge, Judged};
use ecat_scene::{Scene, SceneFault};
use ecat_setup::{LineFailure, text_of};
use ecat_source::{Counted, Source};
use ecat_text::{BAD_ARGUMENTS, FAILED, GOOD, REFUSED};
use ecat_told::{Asked, learn, learn_stream};
use std::fmt::Display;
use std::fs::OpenFile;
use std::io::IsTerminal;
use std::net::Net;
use std::os::fd::AsRawFd;
use std::process::ExitCode;
use std::random::RandomSource;
use std::rt::{Clock, Env, Files, Stdin};
use std::{env, fs, io};

/// The name of the program and of this version, as `--version` and `-V` print it.
const VERSION: &str = "ecat 2.0";

fn main(rt: HostRuntime) -> ExitCode {
    let console = Console {
        input: rt.stdin(),
        output: rt.stdout().as_raw_fd(),
        errors: rt.stderr().as_raw_fd(),
        is_watched: rt.stderr().is_terminal(),
        is_read: rt.stdout().is_terminal(),
    };
    ExitCode::from(start(&rt, console, &mut rt.stdout(), &mut rt.stderr()))
}

/// Reads the command line, opens the file that it names, and does the command.
fn start<R, W, V>(rt: &R, console: Console, out: &mut W, err: &mut V) -> u8
where
    R: Clock + Env + Files + Net + RandomSource + AllocGlobal,
    R::File: AsRawFd,
    W: io::Write,
    V: io::Write,
{
    let mut words = Vec::new(rt.alloc());
    match env::args(rt) {
        Ok(all) => {
            for word in all {
                if words.push(word).is_err() {
                    return report(&Failure::NoMemoryForWords, out, err);
                }
            }
        }
        Err(error) if error.kind() == io::ErrorKind::OutOfMemory => {
            return report(&Failure::NoMemoryForWords, out, err);
        }
        Err(_) => return tell_refusal(ArgsFault::BadNumber, err),
    }
    let mut texts = Vec::new(rt.alloc());
    for word in &words {
        if texts.push(word.as_str()).is_err() {
            return report(&Failure::NoMemoryForWords, out, err);
        }
    }
    if let [_, "--version" | "-V"] = texts.as_slice() {
        return print_or_fail(format_args!("{VERSION}\n"), out, err);
    }
    match Args::read(rt.alloc(), texts.as_slice()) {
        Ok(args) => open(rt, &args, console, out, err),
        Err(fault) => refuse_words(texts.as_slice(), fault, out, err),
    }
}

/// Tells why words are refused, and which of them is bad; the help that `ecat help` asks for goes to the
/// output, and that is good.
fn refuse_words<W: io::Write, V: io::Write>(
    words: &[&str],
    fault: ArgsFault,
    out: &mut W,
    err: &mut V,
) -> u8 {
    if fault.is_help() && words.get(1).is_some_and(|word| *word == "help") {
        return match fault {
            ArgsFault::Line(help) => print_or_fail(help, out, err),
            other => tell_refusal(other, err),
        };
    }
    let is_bad_number = matches!(fault, ArgsFault::BadNumber);
    let status = tell_refusal(fault, err);
    if is_bad_number && let Some(bad) = bad_word(words) {
        let _ = writeln!(err, "{bad}");
    }
    status
}

/// Prints a text, and answers the exit status.
fn print_or_fail<T, W, V>(text: T, out: &mut W, err: &mut V) -> u8
where
    T: Display + Drop,
    W: io::Write,
    V: io::Write,
{
    match write!(out, "{text}") {
        Ok(()) => GOOD,
        Err(_) => report(&Failure::Line(LineFailure::Output), out, err),
    }
}

/// Tells `err` why the words of the command line are refused, and answers the exit status. A fault of `err`
/// is passed over.
fn tell_refusal<V: io::Write>(fault: ArgsFault, err: &mut V) -> u8
    ensures { result ≡ refusal_status fault }
{
    match fault {
        ArgsFault::NoMemory => {
            let _ = err.write_all(b"arguments: NoMemory\n");
            FAILED
        }
        ArgsFault::BadNumber => {
            let _ = err.write_all(b"argument: BadNumber\n");
            BAD_ARGUMENTS
        }
        ArgsFault::Line(error) => {
            let _ = write!(err, "{error}");
            BAD_ARGUMENTS
        }
    }
}

/// Opens what a command opens first, and does the command.
fn open<R, W, V>(rt: &R, args: &Args<'_>, console: Console, out: &mut W, err: &mut V) -> u8
where
    R: Clock + Files + Net + RandomSource + AllocGlobal,
    R::File: AsRawFd,
    W: io::Write,
    V: io::Write,
{
    match args {
        Args::Capture(command) => {
            let status = on_capture(rt, command, console, out, err);
            hint_files(rt, command, status, err);
            status
        }
        Args::Scene { path, command } => match fs::open(rt, path_of(path)) {
            Ok(file) => {
                let mut source = Counted::new(file);
                let status = over_scene(rt, command, path, console, &mut source, out, err);
                hint_file(rt, path, FileWanted::Scene, status, err);
                status
            }
            Err(error) => report_file(&Failure::Open, path, &error, out, err),
        },
        Args::Scan(words) => scan_by(rt, words, out, err),
        Args::Sii(words) => {
            let file = path_of(words.file);
            sii_by(rt, &SiiWords { file, ..*words }, out, err)
        }
        Args::Vectors => act_vectors(rt.alloc(), out, err),
    }
}

/// Opens the capture of a command, and does the command.
fn on_capture<R, W, V>(
    rt: &R,
    command: &CaptureCommand<'_>,
    console: Console,
    out: &mut W,
    err: &mut V,
) -> u8
where
    R: Files + AllocGlobal,
    W: io::Write,
    V: io::Write,
{
    match command {
        CaptureCommand::Show { file } => open_capture(rt, file, &console, out, err),
        CaptureCommand::List {
            file,
            csv,
            faults,
            stats,
            by_index,
            json,
        } => match Wanted::of(*csv, *faults, *stats, *by_index, *json, &console) {
            Ok(wanted) => open_listing(rt, file, wanted, console.input, out, err),
            Err(failure) => report(&failure, out, err),
        },
        CaptureCommand::Learn {
            file,
            at,
            asked,
            values,
        } => {
            let asked = asked_of(*at, *asked, *values);
            open_learning(rt, file, asked, console.input, out, err)
        }
        CaptureCommand::Judge {
            file,
            scene,
            csv,
            lines,
            json,
            clock,
        } => match (asked_of_judge(*csv, *json, *lines, *clock), *scene) {
            (Ok(asked), Some(path)) => {
                let by = ByScene::Judge(asked);
                compare_with_scene(rt, file, path, by, console.input, out, err)
            }
            (Ok(asked), None) => judge_alone(rt, file, asked, out, err),
            (Err(failure), _) => report(&failure, out, err),
        },
        CaptureCommand::Replay {
            file,
            scene,
            plain,
            set_up,
        } => {
            let by = ByScene::Replay(Twin {
                plain: *plain,
                set_up: *set_up,
            });
            compare_with_scene(rt, file, scene, by, console.input, out, err)
        }
    }
}

/// Reads the scene of a command, once, does the command, and tells what helps where it was refused.
#[inline(never)]
fn over_scene<R, S, W, V>(
    rt: &R,
    command: &SceneCommand<'_>,
    path: &str,
    console: Console,
    file: &mut S,
    out: &mut W,
    err: &mut V,
) -> u8
where
    R: Clock + Files + Net + RandomSource + AllocGlobal,
    R::File: AsRawFd,
    S: Source,
    W: io::Write,
    V: io::Write,
{
    let text = match text_of(rt.alloc(), file) {
        Ok(text) => text,
        Err(failure) => return report(&Failure::Line(failure), out, err),
    };
    let text = text.as_slice();
    let scene = Scene::read(rt.alloc(), text);
    if scene.is_ok() {
        hint_odd_lines(rt.alloc(), command, path, text, err);
    }
    let noted = Noted::of(rt.alloc(), command, &scene);
    let status = on_scene(rt, command, console, text, scene, out, err);
    hint_scene(rt.alloc(), command, path, text, noted, status, err);
    status
}

/// Opens the capture that is to be shown, shows it, and tells what it is where it is none. Each packet's
/// lines come at once where somebody reads them at a terminal, or the capture may still grow since it is no
/// plain file.
#[inline(never)]
fn open_capture<R, W, V>(rt: &R, path: &str, console: &Console, out: &mut W, err: &mut V) -> u8
where
    R: Files + AllocGlobal,
    W: io::Write,
    V: io::Write,
{
    match fs::open(rt, path_of(path)) {
        Ok(file) => {
            let is_followed = console.follows(is_plain(&file));
            let mut source = Fronted::new(Counted::new(file));
            let status = act_show(rt.alloc(), is_followed, &mut source, out, err);
            hint_capture(path, &source, status, err);
            status
        }
        Err(error) => report_file(&Failure::Open, path, &error, out, err),
    }
}

/// The path of the file that a word names: `-` is standard input.
fn path_of(word: &str) -> &str {
    if word == "-" { "/dev/stdin" } else { word }
}

/// Is an open file a plain one, whose end stands? One of which the system does not say so is none.
fn is_plain<F: OpenFile>(file: &F) -> bool {
    match file.metadata() {
        Ok(known) => known.is_file(),
        Err(_) => false,
    }
}

/// Opens a capture, twice where it is a plain file, and writes the line that it shows.
#[inline(never)]
fn open_learning<R, W, V>(
    rt: &R,
    file: &str,
    asked: Asked,
    input: Stdin,
    out: &mut W,
    err: &mut V,
) -> u8
where
    R: Files + AllocGlobal,
    W: io::Write,
    V: io::Write,
{
    if file == "-" {
        let learned = learn_stream(rt.alloc(), Counted::new(input), &asked, out, err);
        return end_of_learning(learned, out, err);
    }
    let first = match fs::open(rt, file) {
        Ok(first) => first,
        Err(error) => return report_file(&Failure::Open, file, &error, out, err),
    };
    let is_plain = is_plain(&first);
    let first = Counted::new(first);
    let learned = if is_plain {
        match fs::open(rt, file) {
            Ok(again) => learn(rt.alloc(), first, Counted::new(again), &asked, out, err),
            Err(error) => return report_file(&Failure::Open, file, &error, out, err),
        }
    } else {
        learn_stream(rt.alloc(), first, &asked, out, err)
    };
    end_of_learning(learned, out, err)
}

/// Opens a scene, and the capture with which something is to be done by it, twice where that is a file, and
/// does it.
#[inline(never)]
fn compare_with_scene<R, W, V>(
    rt: &R,
    file: &str,
    path: &str,
    by: ByScene,
    input: Stdin,
    out: &mut W,
    err: &mut V,
) -> u8
where
    R: Files + AllocGlobal,
    W: io::Write,
    V: io::Write,
{
    let text = match fs::open(rt, path_of(path)) {
        Ok(scene) => text_of(rt.alloc(), &mut Counted::new(scene)),
        Err(error) => return report_file(&Failure::Open, path, &error, out, err),
    };
    let text = match text {
        Ok(text) => text,
        Err(failure) => return report(&Failure::Line(failure), out, err),
    };
    let text = text.as_slice();
    let scene = Scene::read(rt.alloc(), text);
    let fault = fault_of(&scene);
    let status = if file == "-" {
        match Frames::of_stream(rt.alloc(), Counted::new(input), None) {
            Ok(mut frames) => by.act(rt.alloc(), scene, &mut frames, out, err),
            Err(_) => end_of_judging(Judged::NoMemory, out, err),
        }
    } else {
        match frames_at(rt, file, out, err) {
            Ok(mut frames) => by.act(rt.alloc(), scene, &mut frames, out, err),
            Err(status) => return status,
        }
    };
    if status == REFUSED
        && let Some(fault) = fault
    {
        hint_fault(path, text, fault, err);
    }
    status
}

/// Why a text is no scene, where it is none.
fn fault_of(scene: &Result<Scene, SceneFault>) -> Option<SceneFault> {
    match scene {
        Ok(_) => None,
        Err(fault) => Some(*fault),
    }
}

/// Opens a capture, and judges it by the line that it shows itself.
#[inline(never)]
fn judge_alone<R, W, V>(rt: &R, file: &str, asked: AskedOfJudge, out: &mut W, err: &mut V) -> u8
where
    R: Files + AllocGlobal,
    W: io::Write,
    V: io::Write,
{
    if file == "-" {
        return report(&Failure::NeedsScene, out, err);
    }
    let again = match fs::open(rt, file) {
        Ok(again) => again,
        Err(error) => return report_file(&Failure::Open, file, &error, out, err),
    };
    if !is_plain(&again) {
        return report(&Failure::NeedsScene, out, err);
    }
    let again = Counted::new(again);
    match frames_at(rt, file, out, err) {
        Ok(mut frames) => judge_by_itself(rt.alloc(), &mut frames, again, &asked, out, err),
        Err(status) => status,
    }
}

/// Opens a capture, and tells the ways of its packets: of a plain file, which is opened twice, by all of
/// them, and else by the first ones; or tells why not, and answers the exit status.
fn frames_at<R, W, V>(
    rt: &R,
    file: &str,
    out: &mut W,
    err: &mut V,
) -> Result<Frames<Counted<R::File>>, u8>
where
    R: Files + AllocGlobal,
    W: io::Write,
    V: io::Write,
{
    let first = match fs::open(rt, file) {
        Ok(first) => first,
        Err(error) => return Err(report_file(&Failure::Open, file, &error, out, err)),
    };
    if !is_plain(&first) {
        return match Frames::of_stream(rt.alloc(), Counted::new(first), None) {
            Ok(frames) => Ok(frames),
            Err(_) => Err(end_of_judging(Judged::NoMemory, out, err)),
        };
    }
    let first = Counted::new(first);
    match fs::open(rt, file) {
        Ok(again) => match frames_of(rt.alloc(), first, Counted::new(again)) {
            Ok(frames) => Ok(frames),
            Err(judged) => Err(end_of_judging(judged, out, err)),
        },
        Err(error) => Err(report_file(&Failure::Open, file, &error, out, err)),
    }
}

/// Opens the capture of a listing, standard input where it is `-`, and lists it. A plain file is opened twice
/// where it is read twice; what is none has its packets once.
#[inline(never)]
fn open_listing<R, W, V>(
    rt: &R,
    file: &str,
    wanted: Wanted,
    input: Stdin,
    out: &mut W,
    err: &mut V,
) -> u8
where
    R: Files + AllocGlobal,
    W: io::Write,
    V: io::Write,
{
    if file == "-" {
        return act_list(rt.alloc(), wanted.live(), Counted::new(input), out, err);
    }
    let first = match fs::open(rt, file) {
        Ok(first) => first,
        Err(error) => return report_file(&Failure::Open, file, &error, out, err),
    };
    if !wanted.reads_twice() || !is_plain(&first) {
        return act_list(rt.alloc(), wanted, Counted::new(first), out, err);
    }
    let first = Counted::new(first);
    match fs::open(rt, file) {
        Ok(again) => act_list_file(rt.alloc(), wanted, first, Counted::new(again), out, err),
        Err(error) => report_file(&Failure::Open, file, &error, out, err),
    }
}

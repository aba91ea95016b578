//! What the words of the command line ask for.
ghost use Rattle.std.specs.Prelude.{◌≡◌, IfErr, IfOk, IsSome, MatchOption, Some, codes};
ghost use Rattle.std.specs.Prelude.{option_map};
ghost use Rattle.std.specs.Net.Grammar.{IsIpv4Text};
ghost use Rattle.clap.specs.Words.{first_of, found_of, rows_of};
ghost use Rattle.clap.specs.Walk.{texts};
ghost use Rattle.ecat_args.specs.Answer.{Explains, HasBadNumber, Says, Takes};
ghost use Rattle.ecat_args.specs.Given.{IsComplete, IsNoAddress, LiesAt, count_by, flag_by};
ghost use Rattle.ecat_args.specs.Given.{place_by, port_by, value_by};

use crate::commands::{CaptureCommand, MasterWords, ScanWords, SceneCommand, SiiWords};
use crate::number::{Value, number, value_of};
use clap::ArgMatches;
use clap::error::ErrorKind;
use ecat_commands::line;
use std::alloc::{AllocError, Global};
use std::net::Ipv4Addr;

/// The port of the line's end A where the words name none: EtherCAT's own, 34980.
const DEFAULT_PORT: u16 = 0x88a4;

/// The least port of the end A.
pub(crate) const LEAST_PORT: u32 = 1024;

/// The greatest port of the end A: the end B has the port after it.
pub(crate) const GREATEST_PORT: u32 = 65534;

/// The least number of packets, of cycles and of microseconds.
pub(crate) const LEAST_COUNT: u32 = 1;

/// A command of the program by what it opens first, with its texts and numbers.
#[derive(Clone, Copy, Debug)]
pub enum Args<'a> {
    /// It opens a capture.
    Capture(CaptureCommand<'a>),
    /// It opens the file of a scene.
    Scene {
        /// The path of the scene.
        path: &'a str,
        /// What is done with its line.
        command: SceneCommand<'a>,
    },
    /// `scan [--at AT] [--raw RAW] [--through THROUGH] [--limit LIMIT] [--late LATE] [--scene SCENE]
    /// [--force] [--json]`: tells what slaves a line has that lies somewhere else.
    Scan(ScanWords<'a>),
    /// `sii FILE [PLACE] [--write WRITE] [--force]`: prints what an EEPROM says.
    Sii(SiiWords<'a>),
    /// `vectors`: runs the worked rows.
    Vectors,
}

/// Why the words of the command line are refused.
#[derive(Debug, Drop)]
pub enum ArgsFault {
    /// The words are no command line of the program, or ask for help. The error has the text.
    Line(clap::Error),
    /// A word that is to be a number or an address is not one, or is out of its range.
    BadNumber,
    /// Memory ran out.
    NoMemory,
}

impl ArgsFault {
    /// Do the words ask for help, whose text the error has?
    pub fn is_help(&self) -> bool {
        match self {
            ArgsFault::Line(error) => error.kind() == ErrorKind::DisplayHelp,
            ArgsFault::BadNumber | ArgsFault::NoMemory => false,
        }
    }
}

impl From<AllocError> for ArgsFault {
    ghost use Rattle.ecat_args.specs.declared.args.ArgsFault.TheVariants.{NoMemory};

    ghost from_gives = { λ _ fault. fault ≡ NoMemory };

    fn from(_error: AllocError) -> ArgsFault {
        ArgsFault::NoMemory
    }
}

impl From<clap::Error> for ArgsFault {
    ghost use Rattle.ecat_args.specs.Answer.{Becomes};

    ghost from_gives = { Becomes };

    fn from(error: clap::Error) -> ArgsFault {
        match error.kind() {
            ErrorKind::OutOfMemory => ArgsFault::NoMemory,
            _ => ArgsFault::Line(error),
        }
    }
}

impl<'a> Args<'a> {
    /// Reads `words`, of which the first is the program's name, as in `env::args`.
    ///
    /// The answer is the command that clap's definition of the line gives for the words, with its
    /// texts as they stand and the numbers that they write. The fault is `Line` where that
    /// definition does not take the words, a call for help included; `BadNumber` where it takes
    /// them and a number is none in its range; and `NoMemory` where memory ran out.
    pub fn read(alloc: Global, words: &'a [&'a str]) -> Result<Args<'a>, ArgsFault>
        ensures taken { IfOk result (λ args. Takes (texts words.entry.now) (Says args)) }
        ensures refused { IfErr result (Explains (texts words.entry.now)) }
    {
        let matches = line(alloc)?.try_get_matches_from(words)?;
        let Some((name, given)) = matches.subcommand() else {
            unreachable!()
        };
        match command(name, given) {
            Some(args) => Ok(args),
            None => Err(ArgsFault::BadNumber),
        }
    }
}

// What a command says, unless a number is bad.
fn command<'a>(name: &str, given: &ArgMatches<'a>) -> Option<Args<'a>>
    requires { IsComplete (name.now, rows_of (found_of given.now)) }
    ensures { MatchOption result (HasBadNumber (name.now, rows_of (found_of given.now)))
        (λ args. Says args (name.now, rows_of (found_of given.now))) }
{
    match name {
        "show" => Some(Args::Capture(CaptureCommand::Show {
            file: text(given, "FILE"),
        })),
        "list" => Some(list(given)),
        "learn" => learn(given),
        "judge" => judge(given),
        "replay" => Some(replay(given)),
        "check" => Some(Args::Scene {
            path: text(given, "SCENE"),
            command: SceneCommand::Check {
                json: flag(given, "json"),
            },
        }),
        "cover" => Some(Args::Scene {
            path: text(given, "SCENE"),
            command: SceneCommand::Cover {
                json: flag(given, "json"),
            },
        }),
        "lint" => Some(Args::Scene {
            path: text(given, "SCENE"),
            command: SceneCommand::Lint {
                json: flag(given, "json"),
            },
        }),
        "where" => Some(where_broken(given)),
        "run" => Some(run(given)),
        "sweep" => Some(Args::Scene {
            path: text(given, "SCENE"),
            command: SceneCommand::Sweep,
        }),
        "sdo" => sdo(given),
        "udp" => udp(given),
        "serve" => serve(given),
        "master" => master(given),
        "scan" => scan(given),
        "sii" => sii(given),
        "vectors" => Some(Args::Vectors),
        _ => unreachable!(),
    }
}

// The word that was given under this name, if one was.
fn word<'a>(given: &ArgMatches<'a>, name: &str) -> Option<&'a str>
    ensures { option_map (λ w. w.now) result ≡ first_of name.now (rows_of (found_of given.now)) }
{
    given.get_str(name)
}

// The same of a word that has to be given.
fn text<'a>(given: &ArgMatches<'a>, name: &str) -> &'a str
    requires { IsSome (first_of name.now (rows_of (found_of given.now))) }
    ensures { first_of name.now (rows_of (found_of given.now)) ≡ Some result.now }
{
    match word(given, name) {
        Some(text) => text,
        None => unreachable!(),
    }
}

// Is the flag of this name given?
fn flag(given: &ArgMatches<'_>, name: &str) -> bool
    ensures { result ≡ flag_by (first_of name.now (rows_of (found_of given.now))) }
{
    match word(given, name) {
        Some(text) => text == "true",
        None => false,
    }
}

// What `list` says.
fn list<'a>(given: &ArgMatches<'a>) -> Args<'a>
    requires { IsComplete (codes "list", rows_of (found_of given.now)) }
    ensures { Says result (codes "list", rows_of (found_of given.now)) }
{
    Args::Capture(CaptureCommand::List {
        file: text(given, "FILE"),
        csv: flag(given, "csv"),
        faults: flag(given, "faults"),
        stats: flag(given, "stats"),
        by_index: flag(given, "index"),
        json: flag(given, "json"),
    })
}

// What `learn` says, unless the number of the packet is bad.
fn learn<'a>(given: &ArgMatches<'a>) -> Option<Args<'a>>
    requires { IsComplete (codes "learn", rows_of (found_of given.now)) }
    ensures { MatchOption result (HasBadNumber (codes "learn", rows_of (found_of given.now)))
        (λ args. Says args (codes "learn", rows_of (found_of given.now))) }
{
    let at = count_given(given, "PACKET")?;
    Some(Args::Capture(CaptureCommand::Learn {
        file: text(given, "FILE"),
        at,
        asked: flag(given, "asked"),
        values: flag(given, "data"),
    }))
}

// What `judge` says, unless the number of lines is bad.
fn judge<'a>(given: &ArgMatches<'a>) -> Option<Args<'a>>
    requires { IsComplete (codes "judge", rows_of (found_of given.now)) }
    ensures { MatchOption result (HasBadNumber (codes "judge", rows_of (found_of given.now)))
        (λ args. Says args (codes "judge", rows_of (found_of given.now))) }
{
    let lines = count_given(given, "LINES")?;
    Some(Args::Capture(CaptureCommand::Judge {
        file: text(given, "FILE"),
        scene: word(given, "SCENE"),
        csv: flag(given, "csv"),
        lines,
        clock: word(given, "CLOCK"),
        json: flag(given, "json"),
    }))
}

// What `replay` says.
fn replay<'a>(given: &ArgMatches<'a>) -> Args<'a>
    requires { IsComplete (codes "replay", rows_of (found_of given.now)) }
    ensures { Says result (codes "replay", rows_of (found_of given.now)) }
{
    Args::Capture(CaptureCommand::Replay {
        file: text(given, "FILE"),
        scene: text(given, "SCENE"),
        plain: flag(given, "plain"),
        set_up: flag(given, "set-up"),
    })
}

// What `where` says.
fn where_broken<'a>(given: &ArgMatches<'a>) -> Args<'a>
    requires { IsComplete (codes "where", rows_of (found_of given.now)) }
    ensures { Says result (codes "where", rows_of (found_of given.now)) }
{
    Args::Scene {
        path: text(given, "SCENE"),
        command: SceneCommand::Where {
            at: word(given, "AT"),
            raw: word(given, "RAW"),
            through: word(given, "THROUGH"),
            json: flag(given, "json"),
        },
    }
}

// What `run` says.
fn run<'a>(given: &ArgMatches<'a>) -> Args<'a>
    requires { IsComplete (codes "run", rows_of (found_of given.now)) }
    ensures { Says result (codes "run", rows_of (found_of given.now)) }
{
    Args::Scene {
        path: text(given, "SCENE"),
        command: SceneCommand::Run {
            judge: flag(given, "judge"),
            pcap: word(given, "PCAP"),
            force: flag(given, "force"),
        },
    }
}

// What `sdo` says, unless a number is bad.
fn sdo<'a>(given: &ArgMatches<'a>) -> Option<Args<'a>>
    requires { IsComplete (codes "sdo", rows_of (found_of given.now)) }
    ensures { MatchOption result (HasBadNumber (codes "sdo", rows_of (found_of given.now)))
        (λ args. Says args (codes "sdo", rows_of (found_of given.now))) }
{
    let station = number(text(given, "STATION"), 0, u16::MAX as u32)?;
    let index = number(text(given, "INDEX"), 0, u16::MAX as u32)?;
    let sub = number(text(given, "SUB"), 0, u8::MAX as u32)?;
    let value = value_given(given)?;
    Some(Args::Scene {
        path: text(given, "SCENE"),
        command: SceneCommand::Sdo {
            station: station as u16,
            index: index as u16,
            sub: sub as u8,
            value,
            surely: flag(given, "surely"),
            once: flag(given, "once"),
            at: word(given, "AT"),
            raw: word(given, "RAW"),
            through: word(given, "THROUGH"),
        },
    })
}

// The value of `sdo`, if one was given, unless it is bad.
fn value_given(given: &ArgMatches<'_>) -> Option<Option<Value>>
    ensures { result ≡ value_by (first_of (codes "VALUE") (rows_of (found_of given.now))) }
{
    match word(given, "VALUE") {
        Some(text) => Some(Some(value_of(text)?)),
        None => Some(None),
    }
}

// What `udp` says, unless the port is bad.
fn udp<'a>(given: &ArgMatches<'a>) -> Option<Args<'a>>
    requires { IsComplete (codes "udp", rows_of (found_of given.now)) }
    ensures { MatchOption result (HasBadNumber (codes "udp", rows_of (found_of given.now)))
        (λ args. Says args (codes "udp", rows_of (found_of given.now))) }
{
    let port = port_given(given)?;
    Some(Args::Scene {
        path: text(given, "SCENE"),
        command: SceneCommand::Udp {
            port,
            judge: flag(given, "judge"),
            pcap: word(given, "PCAP"),
            force: flag(given, "force"),
        },
    })
}

// What `serve` says, unless a number is bad.
fn serve<'a>(given: &ArgMatches<'a>) -> Option<Args<'a>>
    requires { IsComplete (codes "serve", rows_of (found_of given.now)) }
    ensures { MatchOption result (HasBadNumber (codes "serve", rows_of (found_of given.now)))
        (λ args. Says args (codes "serve", rows_of (found_of given.now))) }
{
    let port = port_given(given)?;
    let packets = count_given(given, "N")?;
    let address = address_given(given)?;
    Some(Args::Scene {
        path: text(given, "SCENE"),
        command: SceneCommand::Serve {
            port,
            packets,
            address,
            forever: flag(given, "forever"),
            control: flag(given, "control"),
            log: flag(given, "log"),
            plain: flag(given, "plain"),
            set_up: flag(given, "set-up"),
            sii: word(given, "FOLDER"),
            raw: word(given, "RAW"),
            pcap: word(given, "PCAP"),
            force: flag(given, "force"),
            json: flag(given, "json"),
        },
    })
}

// What `master` says, unless a number is bad.
fn master<'a>(given: &ArgMatches<'a>) -> Option<Args<'a>>
    requires { IsComplete (codes "master", rows_of (found_of given.now)) }
    ensures { MatchOption result (HasBadNumber (codes "master", rows_of (found_of given.now)))
        (λ args. Says args (codes "master", rows_of (found_of given.now))) }
{
    let cycles = count_given(given, "N")?;
    let every = count_given(given, "MICROSECONDS")?;
    let limit = count_given(given, "LIMIT")?;
    let late = count_given(given, "LATE")?;
    let io_stale = count_given(given, "CYCLES")?;
    let tries = count_given(given, "TRIES")?;
    Some(Args::Scene {
        path: text(given, "SCENE"),
        command: SceneCommand::Master(MasterWords {
            at: word(given, "AT"),
            raw: word(given, "RAW"),
            cycles,
            until_end: flag(given, "until-end"),
            every,
            busy: flag(given, "busy"),
            limit,
            late,
            outputs: word(given, "OUTPUTS"),
            log: word(given, "LOG"),
            log_images: flag(given, "log-images"),
            log_or_stop: flag(given, "log-or-stop"),
            clock: word(given, "CLOCK"),
            progress: word(given, "PROGRESS"),
            json: flag(given, "json"),
            io: word(given, "IO"),
            io_open: flag(given, "io-open"),
            io_stale,
            io_rest: word(given, "REST"),
            control: flag(given, "control"),
            stop: flag(given, "stop"),
            recover: flag(given, "recover"),
            tries,
            leave: word(given, "STATE"),
            pcap: word(given, "PCAP"),
            force: flag(given, "force"),
        }),
    })
}

// What `scan` says, unless a number is bad.
fn scan<'a>(given: &ArgMatches<'a>) -> Option<Args<'a>>
    requires { IsComplete (codes "scan", rows_of (found_of given.now)) }
    ensures { MatchOption result (HasBadNumber (codes "scan", rows_of (found_of given.now)))
        (λ args. Says args (codes "scan", rows_of (found_of given.now))) }
{
    let limit = count_given(given, "LIMIT")?;
    let late = count_given(given, "LATE")?;
    Some(Args::Scan(ScanWords {
        at: word(given, "AT"),
        raw: word(given, "RAW"),
        through: word(given, "THROUGH"),
        limit,
        late,
        scene: word(given, "SCENE"),
        force: flag(given, "force"),
        json: flag(given, "json"),
    }))
}

// What `sii` says, unless the place is bad.
fn sii<'a>(given: &ArgMatches<'a>) -> Option<Args<'a>>
    requires { IsComplete (codes "sii", rows_of (found_of given.now)) }
    ensures { MatchOption result (HasBadNumber (codes "sii", rows_of (found_of given.now)))
        (λ args. Says args (codes "sii", rows_of (found_of given.now))) }
{
    let place = place_given(given)?;
    Some(Args::Sii(SiiWords {
        file: text(given, "FILE"),
        place,
        write: word(given, "WRITE"),
        force: flag(given, "force"),
    }))
}

// The place of a slave, if one was given, unless it is bad.
fn place_given(given: &ArgMatches<'_>) -> Option<Option<u32>>
    ensures { result ≡ place_by (first_of (codes "PLACE") (rows_of (found_of given.now))) }
{
    match word(given, "PLACE") {
        Some(text) => Some(Some(number(text, 0, u32::MAX)?)),
        None => Some(None),
    }
}

// The port of the end A, or EtherCAT's own, unless it is bad.
fn port_given(given: &ArgMatches<'_>) -> Option<u16>
    ensures { result ≡ port_by (first_of (codes "P") (rows_of (found_of given.now))) }
{
    match word(given, "P") {
        Some(text) => Some(number(text, LEAST_PORT, GREATEST_PORT)? as u16),
        None => Some(DEFAULT_PORT),
    }
}

// The count of this name, if one was given, unless it is bad.
fn count_given(given: &ArgMatches<'_>, name: &str) -> Option<Option<u32>>
    ensures { result ≡ count_by (first_of name.now (rows_of (found_of given.now))) }
{
    match word(given, name) {
        Some(text) => Some(Some(number(text, LEAST_COUNT, u32::MAX)?)),
        None => Some(None),
    }
}

// The address of both ends, or that of this machine alone, unless it is bad.
fn address_given(given: &ArgMatches<'_>) -> Option<Ipv4Addr>
    ensures { MatchOption result (IsNoAddress (first_of (codes "ADDRESS") (rows_of (found_of given.now))))
        (LiesAt (first_of (codes "ADDRESS") (rows_of (found_of given.now)))) }
{
    match word(given, "ADDRESS") {
        Some(text) => address_of(text),
        None => Some(Ipv4Addr::LOCALHOST),
    }
}

// The address that a text writes, if it writes one.
pub(crate) fn address_of(text: &str) -> Option<Ipv4Addr>
    ensures { MatchOption result (IsNoAddress (Some text.now)) (IsIpv4Text text.now) }
{
    match text.parse() {
        Ok(address) => Some(address),
        Err(_) => None,
    }
}

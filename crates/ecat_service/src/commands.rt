//! A line that somebody works on while it is served, by a command a line of the input.

ghost use Rattle.std.specs.Prelude.{◌≡◌, OnErr};
ghost use Rattle.ecat_serve.specs.Commands.{IsCommanded};
ghost use Rattle.ecat_service.specs.Onward.{onward_of};

use crate::service::Service;
use crate::serving::{most_packets, print_counts, print_end, print_where};
use crate::slave_lines::print_line;
use ecat_log::{Cables, Log};
use ecat_scene::{BenchCommand, CommandFault, LineFault, SlaveName};
use ecat_serve::{
    BenchFault, Console, Counts, Desk, Disturb, Disturbance, Ends, Onward, Served, Watch,
};
use ecat_setup::LineFailure;
use ecat_text::{GOOD, Lines, print_areas};
use std::alloc::Global;
use std::fmt;
use std::io::Write;

/// Why a command was not done, as it is printed.
#[derive(Drop)]
enum Refusal {
    /// The line is longer than 1,024 bytes.
    TooLong,
    /// Memory ran out for its words.
    NoMemory,
    /// Memory ran out for a slave's controller.
    NoRoom,
    /// The line is at fault, or names what is not there.
    Line {
        fault: LineFault,
        wanted: &'static str,
    },
}

impl fmt::Display for Refusal {
    fn fmt<W: fmt::Write>(&self, f: &mut fmt::Formatter<W>) -> fmt::Result {
        match self {
            Refusal::TooLong => write!(f, "refused: TooLong, wanted 1024 bytes at most"),
            Refusal::NoMemory => write!(f, "refused: NoMemory, wanted memory for the words"),
            Refusal::NoRoom => write!(f, "refused: NoMemory, wanted memory for a controller"),
            Refusal::Line { fault, wanted } => write!(f, "refused: {fault}, wanted {wanted}"),
        }
    }
}

/// Who does what the lines of an input ask of a line that is served, and prints what they are answered by.
/// The first print that fails ends the service.
#[derive(Drop)]
struct Commands<'a, W> {
    alloc: Global,
    lines: Lines<'a, W>,
    failed: Option<LineFailure>,
}

impl<W: Write> Desk for Commands<'_, W> {
    fn take(&mut self, served: &mut Served, came: Counts, line: Option<&[u8]>) -> Onward {
        let answered = match line {
            None => print_refusal(Refusal::TooLong, &mut self.lines),
            Some(line) => answer(self.alloc, served, came, line, &mut self.lines),
        };
        match answered {
            Ok(onward) => onward,
            Err(failure) => {
                self.failed = Some(failure);
                Onward::Ends
            }
        }
    }
}

/// Does the command of a line, and prints what it is answered by: what was asked for and `ok`, or why it is
/// refused. It answers how the service goes on.
fn answer<W: Write>(
    alloc: Global,
    served: &mut Served,
    came: Counts,
    line: &[u8],
    lines: &mut Lines<'_, W>,
) -> Result<Onward, LineFailure>
    ensures { IsCommanded served.old served.new }
{
    let command = match BenchCommand::read(alloc, line) {
        Ok(command) => command,
        Err(fault) => return print_refusal(unread(fault), lines),
    };
    match change(alloc, served, &command) {
        Ok(()) => print_done(served, came, &command, lines),
        Err(fault) => print_refusal(refusal_of(fault), lines),
    }
}

/// Prints what a command that was done asks for, and `ok`; and answers how the service goes on.
fn print_done<W: Write>(
    served: &Served,
    came: Counts,
    command: &BenchCommand,
    lines: &mut Lines<'_, W>,
) -> Result<Onward, LineFailure> {
    match command {
        BenchCommand::Areas => print_areas(served.ring().slaves(), lines)?,
        BenchCommand::Line => print_line(served.ring(), lines)?,
        BenchCommand::Counts => print_counts(came, lines)?,
        BenchCommand::Nothing
        | BenchCommand::Link { .. }
        | BenchCommand::Load { .. }
        | BenchCommand::State { .. }
        | BenchCommand::Error { .. }
        | BenchCommand::Power { .. }
        | BenchCommand::Lose { .. }
        | BenchCommand::Late { .. }
        | BenchCommand::Double { .. }
        | BenchCommand::Damage { .. }
        | BenchCommand::Unplug { .. }
        | BenchCommand::Quit => {}
    }
    lines.text("ok")?;
    lines.end()?;
    Ok(onward_of(command))
}

/// How a service goes on behind a command that was done.
fn onward_of(command: &BenchCommand) -> Onward
    ensures { result ≡ onward_of command.now }
{
    match command {
        BenchCommand::Quit => Onward::Ends,
        BenchCommand::Late {
            at,
            milliseconds,
            count,
        } => Onward::Disturbed(*at, Disturbance::Late(*milliseconds), *count),
        BenchCommand::Double { at, count } => {
            Onward::Disturbed(*at, Disturbance::Double, *count)
        }
        BenchCommand::Damage { at, count } => {
            Onward::Disturbed(*at, Disturbance::Damage, *count)
        }
        _ => Onward::Goes,
    }
}

/// Changes the line as a command asks. What is refused changes nothing.
fn change(alloc: Global, served: &mut Served, command: &BenchCommand) -> Result<(), BenchFault>
    ensures refused { OnErr result (served.new ≡ served.old) }
    ensures done { IsCommanded served.old served.new }
{
    match command {
        BenchCommand::Link { number, up } => served.set_link(*number as usize, *up),
        BenchCommand::Load { slave, load } => {
            let place = place_of(served, *slave)?;
            served.load(place, load.address, load.bytes.as_slice())
        }
        BenchCommand::State { slave, state } => {
            let place = place_of(served, *slave)?;
            served.set_state(place, *state)
        }
        BenchCommand::Error { slave, code } => {
            let place = place_of(served, *slave)?;
            served.set_error(place, *code)
        }
        BenchCommand::Power { slave, on } => {
            let place = place_of(served, *slave)?;
            if *on {
                served.power_on(alloc, place)
            } else {
                served.power_off(place)
            }
        }
        BenchCommand::Lose { at, count } => {
            served.lose(*at, u64::from(*count));
            Ok(())
        }
        BenchCommand::Unplug { at } => {
            served.unplug(*at);
            Ok(())
        }
        BenchCommand::Nothing
        | BenchCommand::Late { .. }
        | BenchCommand::Double { .. }
        | BenchCommand::Damage { .. }
        | BenchCommand::Areas
        | BenchCommand::Line
        | BenchCommand::Counts
        | BenchCommand::Quit => Ok(()),
    }
}

/// The place that a name gives, which may be past the line's last slave; a station has none but its slave's.
fn place_of(served: &Served, slave: SlaveName) -> Result<usize, BenchFault> {
    match slave {
        SlaveName::Place(place) => Ok(place as usize),
        SlaveName::Station(station) => match served.place_of(station) {
            Some(place) => Ok(place),
            None => Err(BenchFault::NoSlave),
        },
    }
}

/// Why a line is no command, as it is printed.
fn unread(fault: CommandFault) -> Refusal {
    match fault {
        CommandFault::Refused { fault, wanted } => Refusal::Line { fault, wanted },
        CommandFault::NoMemory => Refusal::NoMemory,
    }
}

/// What the line does not have that a command names, as it is printed.
fn refusal_of(fault: BenchFault) -> Refusal {
    match fault {
        BenchFault::NoLink => Refusal::Line {
            fault: LineFault::OutOfRange,
            wanted: "a link of the line, 0 to its number of slaves",
        },
        BenchFault::NoSlave => Refusal::Line {
            fault: LineFault::NoSlave,
            wanted: "the place or the station of a slave",
        },
        BenchFault::OutsideMemory => Refusal::Line {
            fault: LineFault::OutOfRange,
            wanted: "bytes in 0x1000 to 0x2FFF",
        },
        BenchFault::NoMemory => Refusal::NoRoom,
    }
}

/// Prints why a command was not done. The service goes on.
fn print_refusal<W: Write>(
    refusal: Refusal,
    lines: &mut Lines<'_, W>,
) -> Result<Onward, LineFailure> {
    lines.text(refusal)?;
    lines.end()?;
    Ok(Onward::Goes)
}

/// Serves a line that has these ends under the commands that they bring, and answers the exit status. It
/// prints where the line is served, what each command is answered by, and at the end what `serve` prints;
/// `err` is told of each packet where the service logs, and of each cable that is pulled. It takes memory for
/// the words of a command, and for the controller of a slave whose power comes back.
pub fn control<E, W, V>(
    alloc: Global,
    served: Served,
    service: Service,
    ends: &mut E,
    out: &mut W,
    err: &mut V,
) -> Result<u8, LineFailure>
where
    E: Ends + Console + Disturb,
    W: Write,
    V: Write,
{
    if service.log {
        control_watched(alloc, served, service, ends, &mut Log::new(err), out)
    } else {
        control_watched(alloc, served, service, ends, &mut Cables::new(err), out)
    }
}

/// Serves a line under commands; somebody is told of each packet.
fn control_watched<E, V, W>(
    alloc: Global,
    mut served: Served,
    service: Service,
    ends: &mut E,
    watch: &mut V,
    out: &mut W,
) -> Result<u8, LineFailure>
where
    E: Ends + Console + Disturb,
    V: Watch,
    W: Write,
{
    let mut commands = Commands {
        alloc,
        lines: Lines::new(out),
        failed: None,
    };
    print_where(service, &mut commands.lines)?;
    let most = most_packets(service.packets);
    let counts = served.serve_commanded(ends, most, watch, &mut commands)?;
    let Commands {
        alloc: _,
        mut lines,
        failed,
    } = commands;
    if let Some(failure) = failed {
        return Err(failure);
    }
    print_end(counts, served.ring(), &mut lines)?;
    Ok(GOOD)
}

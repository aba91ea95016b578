//! The commands of a bench: the lines by which somebody works on a line of slaves while it is served.

ghost use Rattle.std.specs.Prelude.{◌≡◌, Err};
ghost use Rattle.ecat_scene.specs.Bench.{IsRefused, wanting};
ghost use Rattle.ecat_scene.specs.declared.fault.LineFault.{LineFault};
ghost use Rattle.ecat_scene.specs.Text.{tested};
ghost use Rattle.ecat_scene.specs.Order.{CountsWords};

use crate::fault::{LineFault, Stop};
use crate::numbers::{double_word, number, word};
use crate::scene::Load;
use crate::slave_lines::{load_of, state_of};
use crate::words::{test_text, text_of, words_of};
use ec_regs::AlState;
use ec_ring::Port;
use std::alloc::Global;

/// Which slave a command means.
#[derive(Clone, Copy, PartialEq, Eq, Debug)]
pub enum SlaveName {
    /// A decimal number: the slave at this place, the first one's being 0.
    Place(u64),
    /// A hexadecimal one: the first slave with this station address.
    Station(u16),
}

/// What a line asks for. Whether the line of slaves has such a link or such a slave is not known to it.
#[derive(Drop)]
pub enum BenchCommand {
    /// An empty line, or one that begins with `#`.
    Nothing,
    /// `link K up` or `link K down`
    Link {
        /// The number of the link; one past 64 bits is the greatest.
        number: u64,
        /// Is it to be up?
        up: bool,
    },
    /// `mem SLAVE ADDRESS BYTES`
    Load {
        /// Whose process memory takes the bytes.
        slave: SlaveName,
        /// The bytes, and where they go.
        load: Load,
    },
    /// `state SLAVE S`
    State {
        /// Which slave is put into a state.
        slave: SlaveName,
        /// The state.
        state: AlState,
    },
    /// `error SLAVE CODE`
    Error {
        /// Whose application finds an error.
        slave: SlaveName,
        /// The AL status code that tells it.
        code: u16,
    },
    /// `power SLAVE on` or `power SLAVE off`
    Power {
        /// Whose power is switched.
        slave: SlaveName,
        /// Is it to be on?
        on: bool,
    },
    /// `lose A N` or `lose B N`
    Lose {
        /// At which end copies are lost that arrive.
        at: Port,
        /// How many.
        count: u32,
    },
    /// `late A MILLISECONDS N` or `late B MILLISECONDS N`
    Late {
        /// At which end copies leave late.
        at: Port,
        /// By how much.
        milliseconds: u32,
        /// How many.
        count: u32,
    },
    /// `double A N` or `double B N`
    Double {
        /// At which end copies leave twice.
        at: Port,
        /// How many.
        count: u32,
    },
    /// `damage A N` or `damage B N`
    Damage {
        /// At which end copies leave damaged.
        at: Port,
        /// How many.
        count: u32,
    },
    /// `unplug A` or `unplug B`
    Unplug {
        /// At which end nobody has spoken from now on.
        at: Port,
    },
    /// `areas`
    Areas,
    /// `line`
    Line,
    /// `counts`
    Counts,
    /// `quit`
    Quit,
}

/// Why a line is no command.
#[derive(Clone, Copy, Debug)]
pub enum CommandFault {
    /// The line is refused.
    Refused {
        /// What is wrong with it.
        fault: LineFault,
        /// What was wanted in its place.
        wanted: &'static str,
    },
    /// Memory ran out.
    NoMemory,
}

impl BenchCommand {
    /// The command that a line says, or its first fault in the order of [`LineFault`]: its text, its first
    /// word, the count of its words, their forms, and the ranges of their values. Any bytes are taken.
    pub fn read(alloc: Global, line: &[u8]) -> Result<BenchCommand, CommandFault>
        ensures not_text { (fault : LineFault) → tested line.now ≡ Err fault → IsRefused fault result }
    {
        if let Err(fault) = test_text(line) {
            return Err(CommandFault::Refused {
                fault,
                wanted: "ASCII text",
            });
        }
        if line.starts_with(b"#") {
            return Ok(BenchCommand::Nothing);
        }
        match words_of(alloc, line) {
            Ok(words) => command_of(alloc, words.as_slice()),
            Err(_) => Err(CommandFault::NoMemory),
        }
    }
}

/// The command of these words.
fn command_of(alloc: Global, words: &[&[u8]]) -> Result<BenchCommand, CommandFault> {
    let [first, rest @ ..] = words else {
        return Ok(BenchCommand::Nothing);
    };
    match text_of(first) {
        "link" => wanting("link K up|down", link(rest)),
        "mem" => wanting("mem SLAVE ADDRESS BYTES", load(alloc, rest)),
        "state" => wanting("state SLAVE 1|2|4|8", state(rest)),
        "error" => wanting("error SLAVE CODE", error(rest)),
        "power" => wanting("power SLAVE on|off", power(rest)),
        "lose" => wanting("lose A|B N", lose(rest)),
        "late" => wanting("late A|B MILLISECONDS N", late(rest)),
        "double" => wanting("double A|B N", double(rest)),
        "damage" => wanting("damage A|B N", damage(rest)),
        "unplug" => wanting("unplug A|B", unplug(rest)),
        "areas" => wanting("areas", alone(rest, BenchCommand::Areas)),
        "line" => wanting("line", alone(rest, BenchCommand::Line)),
        "counts" => wanting("counts", alone(rest, BenchCommand::Counts)),
        "quit" => wanting("quit", alone(rest, BenchCommand::Quit)),
        _ => wanting(
            "link, mem, state, error, power, lose, late, double, damage, unplug, areas, line, counts or quit",
            Err(Stop::Fault(LineFault::UnknownWord)),
        ),
    }
}

/// What the reading of a line comes to that was to be of this form.
fn wanting(
    wanted: &'static str,
    read: Result<BenchCommand, Stop>,
) -> Result<BenchCommand, CommandFault>
    ensures { result ≡ wanting wanted.entry read }
{
    match read {
        Ok(command) => Ok(command),
        Err(Stop::Fault(fault)) => Err(CommandFault::Refused { fault, wanted }),
        Err(Stop::NoMemory) => Err(CommandFault::NoMemory),
    }
}

/// A command that is one word alone.
fn alone(words: &[&[u8]], command: BenchCommand) -> Result<BenchCommand, Stop>
    ensures { CountsWords 0 words.now result }
{
    if words.is_empty() {
        Ok(command)
    } else {
        Err(Stop::Fault(LineFault::WrongCount))
    }
}

/// `link K up` or `link K down`
fn link(words: &[&[u8]]) -> Result<BenchCommand, Stop>
    ensures { CountsWords 2 words.now result }
{
    let [link, switch] = words else {
        return Err(Stop::Fault(LineFault::WrongCount));
    };
    let number = number(link)?;
    let up = is_up(switch)?;
    Ok(BenchCommand::Link { number, up })
}

/// `mem SLAVE ADDRESS BYTES`
fn load(alloc: Global, words: &[&[u8]]) -> Result<BenchCommand, Stop>
    ensures { CountsWords 3 words.now result }
{
    let [slave, address, row] = words else {
        return Err(Stop::Fault(LineFault::WrongCount));
    };
    let slave_number = number(slave)?;
    let load = load_of(alloc, address, row)?;
    let slave = slave_of(slave, slave_number)?;
    Ok(BenchCommand::Load { slave, load })
}

/// `state SLAVE S`
fn state(words: &[&[u8]]) -> Result<BenchCommand, Stop>
    ensures { CountsWords 2 words.now result }
{
    let [slave, code] = words else {
        return Err(Stop::Fault(LineFault::WrongCount));
    };
    let slave_number = number(slave)?;
    let state = state_of(code)?;
    let slave = slave_of(slave, slave_number)?;
    Ok(BenchCommand::State { slave, state })
}

/// `error SLAVE CODE`
fn error(words: &[&[u8]]) -> Result<BenchCommand, Stop>
    ensures { CountsWords 2 words.now result }
{
    let [slave, code] = words else {
        return Err(Stop::Fault(LineFault::WrongCount));
    };
    let slave_number = number(slave)?;
    let code = number(code)?;
    let slave = slave_of(slave, slave_number)?;
    let code = word(code)?;
    Ok(BenchCommand::Error { slave, code })
}

/// `power SLAVE on` or `power SLAVE off`
fn power(words: &[&[u8]]) -> Result<BenchCommand, Stop>
    ensures { CountsWords 2 words.now result }
{
    let [slave, switch] = words else {
        return Err(Stop::Fault(LineFault::WrongCount));
    };
    let slave_number = number(slave)?;
    let on = is_on(switch)?;
    let slave = slave_of(slave, slave_number)?;
    Ok(BenchCommand::Power { slave, on })
}

/// `lose A N` or `lose B N`
fn lose(words: &[&[u8]]) -> Result<BenchCommand, Stop>
    ensures { CountsWords 2 words.now result }
{
    let [end, count] = words else {
        return Err(Stop::Fault(LineFault::WrongCount));
    };
    let at = end_of(end)?;
    let count = double_word(number(count)?)?;
    Ok(BenchCommand::Lose { at, count })
}

/// `late A MILLISECONDS N` or `late B MILLISECONDS N`
fn late(words: &[&[u8]]) -> Result<BenchCommand, Stop>
    ensures { CountsWords 3 words.now result }
{
    let [end, milliseconds, count] = words else {
        return Err(Stop::Fault(LineFault::WrongCount));
    };
    let at = end_of(end)?;
    let milliseconds = number(milliseconds)?;
    let count = number(count)?;
    let milliseconds = double_word(milliseconds)?;
    let count = double_word(count)?;
    Ok(BenchCommand::Late {
        at,
        milliseconds,
        count,
    })
}

/// `double A N` or `double B N`
fn double(words: &[&[u8]]) -> Result<BenchCommand, Stop>
    ensures { CountsWords 2 words.now result }
{
    let [end, count] = words else {
        return Err(Stop::Fault(LineFault::WrongCount));
    };
    let at = end_of(end)?;
    let count = double_word(number(count)?)?;
    Ok(BenchCommand::Double { at, count })
}

/// `damage A N` or `damage B N`
fn damage(words: &[&[u8]]) -> Result<BenchCommand, Stop>
    ensures { CountsWords 2 words.now result }
{
    let [end, count] = words else {
        return Err(Stop::Fault(LineFault::WrongCount));
    };
    let at = end_of(end)?;
    let count = double_word(number(count)?)?;
    Ok(BenchCommand::Damage { at, count })
}

/// `unplug A` or `unplug B`
fn unplug(words: &[&[u8]]) -> Result<BenchCommand, Stop>
    ensures { CountsWords 1 words.now result }
{
    let [end] = words else {
        return Err(Stop::Fault(LineFault::WrongCount));
    };
    let at = end_of(end)?;
    Ok(BenchCommand::Unplug { at })
}

/// The slave that a number of this spelling means.
fn slave_of(spelling: &[u8], number: u64) -> Result<SlaveName, LineFault> {
    if spelling.starts_with(b"0x") {
        return Ok(SlaveName::Station(word(number)?));
    }
    Ok(SlaveName::Place(number))
}

/// Is a link to be up?
fn is_up(switch: &[u8]) -> Result<bool, LineFault> {
    match text_of(switch) {
        "up" => Ok(true),
        "down" => Ok(false),
        _ => Err(LineFault::BadNumber),
    }
}

/// Is the power to be on?
fn is_on(switch: &[u8]) -> Result<bool, LineFault> {
    match text_of(switch) {
        "on" => Ok(true),
        "off" => Ok(false),
        _ => Err(LineFault::BadNumber),
    }
}

/// The end of a line that a word names.
fn end_of(end: &[u8]) -> Result<Port, LineFault> {
    match text_of(end) {
        "A" => Ok(Port::A),
        "B" => Ok(Port::B),
        _ => Err(LineFault::BadNumber),
    }
}

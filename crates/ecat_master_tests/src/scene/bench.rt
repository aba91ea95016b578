//! The commands of a bench, and the first fault of a line that is none.

use super::sides;
use ecat_scene::{BenchCommand, CommandFault};
use std::alloc::{AllocError, Global};
use std::process::Abort;

/// Lines, and what they say.
const TAKEN: &str = "\
link 2 down | link 2 false
  link  0x0A   up  | link 10 true
state 0 8 | state Place(0) Op
state 0x1001 0x4 | state Station(4097) SafeOp
error 2 0x001b | error Place(2) 27
error 0x1001 65535 | error Station(4097) 65535
power 1 off | power Place(1) false
power 0x1001 on | power Station(4097) true
mem 1 0x1100 00fF | mem Place(1) 4352 [0, 255]
lose A 3 | lose A 3
lose B 4294967295 | lose B 4294967295
late A 20 3 | late A 20 3
late B 0x10 4294967295 | late B 16 4294967295
double B 1 | double B 1
damage A 2 | damage A 2
unplug A | unplug A
unplug B | unplug B
areas | areas
line | line
counts | counts
 quit  | quit
| nothing
# link 1 down | nothing";

/// Lines that are refused: for their text, their first word or the count of their words, and for forms
/// before ranges.
const REFUSED: &str = "\
links\x07 | NotText
links | UnknownWord
slave 1 | UnknownWord
link x | WrongCount
mem 0 0x1000 | WrongCount
state 0 | WrongCount
error 0 | WrongCount
power 0 | WrongCount
lose A | WrongCount
late A 20 | WrongCount
double A | WrongCount
damage A 1 2 | WrongCount
unplug A B | WrongCount
quit now | WrongCount
link 1 open | BadNumber
link -1 up | BadNumber
mem 0x10000 0x1000 0 | BadNumber
state 0x10000 y | BadNumber
error 0x10000 y | BadNumber
power 0x10000 up | BadNumber
lose C 4294967296 | BadNumber
late A x 4294967296 | BadNumber
late C 20 1 | BadNumber
double A x | BadNumber
damage a 1 | BadNumber
unplug a | BadNumber
mem 0x10000 0x1000 00 | OutOfRange
mem 0 0x0fff 00 | OutOfRange
mem 0 0x2fff 0000 | OutOfRange
state 0 3 | OutOfRange
error 0 65536 | OutOfRange
error 0x10000 1 | OutOfRange
power 0x10000 on | OutOfRange
lose B 4294967296 | OutOfRange
late A 4294967296 1 | OutOfRange
late A 20 4294967296 | OutOfRange
double B 4294967296 | OutOfRange
damage B 4294967296 | OutOfRange";

/// What a command says, as the tables write it.
fn shown(alloc: Global, command: &BenchCommand) -> Result<String, AllocError> {
    match command {
        BenchCommand::Nothing => format!(in alloc; "nothing"),
        BenchCommand::Link { number, up } => format!(in alloc; "link {number} {up}"),
        BenchCommand::Load { slave, load } => {
            let address = load.address;
            let bytes = load.bytes.as_slice();
            format!(in alloc; "mem {slave:?} {address} {bytes:?}")
        }
        BenchCommand::State { slave, state } => format!(in alloc; "state {slave:?} {state:?}"),
        BenchCommand::Error { slave, code } => format!(in alloc; "error {slave:?} {code}"),
        BenchCommand::Power { slave, on } => format!(in alloc; "power {slave:?} {on}"),
        BenchCommand::Lose { at, count } => format!(in alloc; "lose {at:?} {count}"),
        BenchCommand::Late {
            at,
            milliseconds,
            count,
        } => format!(in alloc; "late {at:?} {milliseconds} {count}"),
        BenchCommand::Double { at, count } => format!(in alloc; "double {at:?} {count}"),
        BenchCommand::Damage { at, count } => format!(in alloc; "damage {at:?} {count}"),
        BenchCommand::Unplug { at } => format!(in alloc; "unplug {at:?}"),
        BenchCommand::Areas => format!(in alloc; "areas"),
        BenchCommand::Line => format!(in alloc; "line"),
        BenchCommand::Counts => format!(in alloc; "counts"),
        BenchCommand::Quit => format!(in alloc; "quit"),
    }
}

/// What a line says, or its fault, unless memory ran out.
fn told(alloc: Global, line: &[u8]) -> Option<String> {
    match BenchCommand::read(alloc, line) {
        Ok(command) => shown(alloc, &command).ok(),
        Err(CommandFault::NoMemory) => None,
        Err(CommandFault::Refused { fault, .. }) => format!(in alloc; "{fault}").ok(),
    }
}

/// Asserts of each row that what stands behind its bar is told of its line.
fn assert_rows(rt: &impl Abort, alloc: Global, rows: &str) {
    for row in rows.split('\n') {
        let (line, wanted) = sides(rt, row);
        if let Some(found) = told(alloc, line.as_bytes()) {
            assert!(rt; found.as_str() == wanted, "{row}: {found}");
        }
    }
}

#[test]
fn lines_of_a_bench_are_read_or_refused(rt: HostRuntime) {
    assert_rows(&rt, rt.alloc(), TAKEN);
    assert_rows(&rt, rt.alloc(), REFUSED);
}

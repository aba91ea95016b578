//! Lines of an input, and what they make of outputs.

use crate::change::Change;
use crate::held::Outputs;
use crate::refusal::Fault;
use crate::request::{Part, Request};
use ec_acyclic::Service;
use ec_app::Value;
use ec_map::{Item, Kind};
use ec_master::Work;
use ec_regs::AlState;
use ecat_master::Asked;
use std::process::Abort;
use std::rt::HostRuntime;

/// What lines say that are no `set`.
const ASKED: [(&str, Request); 9] = [
    ("", Request::Nothing),
    ("# get 0", Request::Nothing),
    ("get 7", Request::Get(Part { item: 7, run: None })),
    (
        "  get  0 0x1 2 ",
        Request::Get(Part {
            item: 0,
            run: Some((1, 2)),
        }),
    ),
    ("slaves", Request::Slaves),
    ("cable", Request::Cable),
    ("times", Request::Times),
    ("leave pre-op", Request::Leave(AlState::PreOp)),
    ("quit", Request::Quit),
];

#[test]
fn lines_say_what_they_ask(rt: HostRuntime) {
    for (line, wanted) in ASKED {
        let read = Request::read(line.as_bytes(), &[], &mut Change::none());
        assert_eq!(rt; read, Ok(wanted), "{line}");
    }
}

/// What lines ask of the slave with station address 0x1002.
const SERVICES: [(&str, Service); 7] = [
    (
        "sdo 0x1002 0x1018 1",
        Service::Read {
            index: 0x1018,
            sub: 1,
        },
    ),
    (
        "sdo 4098 4120 0xff",
        Service::Read {
            index: 0x1018,
            sub: 255,
        },
    ),
    (
        "sdo 0x1002 0x6060 0 0x08",
        Service::Write {
            index: 0x6060,
            sub: 0,
            value: Value::One(8),
        },
    ),
    (
        "sdo 0x1002 0x6071 0 0xFFf0",
        Service::Write {
            index: 0x6071,
            sub: 0,
            value: Value::Two(0xfff0),
        },
    ),
    (
        "sdo 0x1002 0x60ff 0 0x80000001",
        Service::Write {
            index: 0x60ff,
            sub: 0,
            value: Value::Four(0x8000_0001),
        },
    ),
    ("state 0x1002 safe-op", Service::State(AlState::SafeOp)),
    ("acknowledge 0x1002", Service::Acknowledge),
];

#[test]
fn lines_say_what_they_ask_of_a_slave(rt: HostRuntime) {
    for (line, service) in SERVICES {
        let wanted = Request::Ask(Asked {
            station: 0x1002,
            service,
        });
        let read = Request::read(line.as_bytes(), &[], &mut Change::none());
        assert_eq!(rt; read, Ok(wanted), "{line}");
    }
}

/// Lines that ask something of a slave and are refused, and what is wrong with them.
const REFUSED_SERVICES: [(&str, Fault); 14] = [
    ("sdo", Fault::WrongCount),
    ("sdo 0x1002 0x1018", Fault::WrongCount),
    ("sdo 0x1002 0x1018 1 0x01 0x02", Fault::WrongCount),
    ("sdo 65536 0x1018 1", Fault::BadNumber),
    ("sdo 0x1002 0x10000 1", Fault::BadNumber),
    ("sdo 0x1002 0x1018 256", Fault::BadNumber),
    ("sdo 0x1002 0x1018 1 5", Fault::BadNumber),
    ("sdo 0x1002 0x1018 1 0x123", Fault::BadNumber),
    ("sdo 0x1002 0x1018 1 0x0g", Fault::BadNumber),
    ("state 0x1002", Fault::WrongCount),
    ("state 0x1002 boot", Fault::BadNumber),
    ("state x init", Fault::BadNumber),
    ("acknowledge", Fault::WrongCount),
    ("acknowledge 0x1002 1", Fault::WrongCount),
];

#[test]
fn lines_that_ask_a_slave_are_refused_by_name(rt: HostRuntime) {
    for (line, wanted) in REFUSED_SERVICES {
        let read = Request::read(line.as_bytes(), &[], &mut Change::none());
        assert_eq!(rt;
            read.map_err(|refusal| refusal.fault),
            Err(wanted),
            "{line}"
        );
    }
}

/// Lines that are refused, and what is wrong with them.
const REFUSED: [(&str, Fault); 15] = [
    ("get\t0", Fault::NotText),
    ("get0", Fault::UnknownWord),
    ("Set 0 0 00", Fault::UnknownWord),
    ("set", Fault::WrongCount),
    ("set 0 0", Fault::WrongCount),
    ("set 0 0 00 00", Fault::WrongCount),
    ("set 0 0 00;", Fault::WrongCount),
    ("set ;0 0 00", Fault::WrongCount),
    ("set 0 0 0", Fault::BadNumber),
    ("set 0 0 0g", Fault::BadNumber),
    ("set 0 x 00", Fault::BadNumber),
    ("get", Fault::WrongCount),
    ("get 0 0", Fault::WrongCount),
    ("leave", Fault::WrongCount),
    ("leave boot", Fault::BadNumber),
];

#[test]
fn lines_are_refused_by_name(rt: HostRuntime) {
    for (line, wanted) in REFUSED {
        let read = Request::read(line.as_bytes(), &[], &mut Change::none());
        assert_eq!(rt;
            read.map_err(|refusal| refusal.fault),
            Err(wanted),
            "{line}"
        );
    }
}

/// A work whose items 0 and 2 write three bytes and two, and whose item 1 reads two.
fn work() -> Work {
    let mut work = Work::new();
    for (kind, bytes) in [
        (Kind::Lrw, [1, 2, 3].as_slice()),
        (Kind::Lrd, &[4, 5]),
        (Kind::Lwr, &[6, 7]),
    ] {
        if let Ok(item) = Item::new(kind, 0, bytes) {
            let _ = work.push(item);
        }
    }
    work
}

/// Changes, and what they make of the outputs of that work; or what is wrong with them.
const CHANGES: [(&str, Result<[u8; 5], Fault>); 10] = [
    ("set 0 0 aabbcc", Ok([0xaa, 0xbb, 0xcc, 6, 7])),
    ("set 0 1 AA", Ok([1, 0xaa, 3, 6, 7])),
    ("set 2 0 0102", Ok([1, 2, 3, 1, 2])),
    ("set 0 2 ff; 2 1 ee; 0 2 dd", Ok([1, 2, 0xdd, 6, 0xee])),
    ("set 0 1 aabbcc", Err(Fault::OutOfRange)),
    ("set 0 18446744073709551615 aa", Err(Fault::OutOfRange)),
    ("set 1 0 aa", Err(Fault::NoOutputs)),
    ("set 3 0 aa", Err(Fault::NoItem)),
    ("set 0 0 aa; 2 0 bb; 2 2 cc", Err(Fault::OutOfRange)),
    ("set 0 0 aa; 1 0 bb; 3 0 cc", Err(Fault::NoOutputs)),
];

#[test]
fn changes_are_whole(rt: HostRuntime) {
    for (line, wanted) in CHANGES {
        let Ok(mut outputs) = Outputs::of(rt.alloc(), &work(), 3) else {
            rt.abort();
        };
        let mut change = Change::none();
        let _ = Request::read(line.as_bytes(), &[], &mut change);
        let set = outputs.set(&change);
        match wanted {
            Ok(bytes) => {
                assert_eq!(rt; set, Ok(()), "{line}");
                assert_eq!(rt; outputs.bytes(), bytes.as_slice(), "{line}");
            }
            Err(fault) => {
                assert_eq!(rt; set, Err(fault), "{line}");
                assert_eq!(rt; outputs.bytes(), [1, 2, 3, 6, 7].as_slice(), "{line}");
            }
        }
    }
}

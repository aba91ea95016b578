//! Packets, with the bytes written out by hand.

ghost use Rattle.std.specs.Prelude.{◌<◌};

use crate::cycle::cycle_of;
use crate::end::CycleEnded;
use crate::fault::{NoRoom, PacketFault};
use crate::layout::{ORDER_HEAD, REPORT_HEAD};
use crate::order::Order;
use crate::report::Report;
use std::fmt::Debug;
use std::process::Abort;
use std::test::Fail;

mod text;

/// What stands in bytes before a packet is written there.
const BEFORE: u8 = 0x77;

/// Orders, and their bytes.
const ORDERS: [(Order<'static>, &[u8]); 5] = [
    (
        Order {
            seen: None,
            outputs: &[],
        },
        &[
            0x45, 0x63, 0x49, 0x4F, 0x01, 0x01, 0x00, 0x00, 0xFF, 0xFF, 0xFF, 0xFF, 0xFF, 0xFF,
            0xFF, 0xFF,
        ],
    ),
    (
        Order {
            seen: None,
            outputs: &[0xFF, 0x00],
        },
        &[
            0x45, 0x63, 0x49, 0x4F, 0x01, 0x01, 0x02, 0x00, 0xFF, 0xFF, 0xFF, 0xFF, 0xFF, 0xFF,
            0xFF, 0xFF, 0xFF, 0x00,
        ],
    ),
    (
        Order {
            seen: Some(0),
            outputs: &[0xA5],
        },
        &[
            0x45, 0x63, 0x49, 0x4F, 0x01, 0x01, 0x01, 0x00, 0x00, 0x00, 0x00, 0x00, 0x00, 0x00,
            0x00, 0x00, 0xA5,
        ],
    ),
    (
        Order {
            seen: Some(0x0123_4567_89AB_CDEF),
            outputs: &[0x01, 0x02, 0x03],
        },
        &[
            0x45, 0x63, 0x49, 0x4F, 0x01, 0x01, 0x03, 0x00, 0xEF, 0xCD, 0xAB, 0x89, 0x67, 0x45,
            0x23, 0x01, 0x01, 0x02, 0x03,
        ],
    ),
    (
        Order {
            seen: Some(0xFFFF_FFFF_FFFF_FFFE),
            outputs: &[],
        },
        &[
            0x45, 0x63, 0x49, 0x4F, 0x01, 0x01, 0x00, 0x00, 0xFE, 0xFF, 0xFF, 0xFF, 0xFF, 0xFF,
            0xFF, 0xFF,
        ],
    ),
];

/// A report of a good cycle, with port B missing.
const GOOD: Report<'static> = Report {
    cycle: 0x2A,
    at: 0x0001_E240,
    end: CycleEnded::Good,
    in_op: true,
    missing_a: false,
    missing_b: true,
    stale: false,
    late: 0x15,
    inputs_of: Some(0x2A),
    inputs: &[0x08],
};

/// Its bytes.
const GOOD_BYTES: [u8; 41] = [
    0x45, 0x63, 0x49, 0x4F, 0x01, 0x02, 0x01, 0x00, 0x2A, 0x00, 0x00, 0x00, 0x00, 0x00, 0x00, 0x00,
    0x40, 0xE2, 0x01, 0x00, 0x00, 0x00, 0x00, 0x00, 0x00, 0x04, 0x00, 0x00, 0x15, 0x00, 0x00, 0x00,
    0x2A, 0x00, 0x00, 0x00, 0x00, 0x00, 0x00, 0x00, 0x08,
];

/// Reports, and their bytes.
const REPORTS: [(Report<'static>, &[u8]); 5] = [
    (GOOD, &GOOD_BYTES),
    (
        Report {
            cycle: 0,
            at: 0,
            end: CycleEnded::PortFailed,
            in_op: false,
            missing_a: true,
            missing_b: true,
            stale: true,
            late: 0,
            inputs_of: None,
            inputs: &[],
        },
        &[
            0x45, 0x63, 0x49, 0x4F, 0x01, 0x02, 0x00, 0x00, 0x00, 0x00, 0x00, 0x00, 0x00, 0x00,
            0x00, 0x00, 0x00, 0x00, 0x00, 0x00, 0x00, 0x00, 0x00, 0x00, 0x03, 0x0F, 0x00, 0x00,
            0x00, 0x00, 0x00, 0x00, 0xFF, 0xFF, 0xFF, 0xFF, 0xFF, 0xFF, 0xFF, 0xFF,
        ],
    ),
    (
        Report {
            cycle: 0x0123_4567_89AB_CDEF,
            at: 0xFEDC_BA98_7654_3210,
            end: CycleEnded::Short(0x0201),
            in_op: false,
            missing_a: false,
            missing_b: false,
            stale: false,
            late: 0x0403_0201,
            inputs_of: Some(0x0807_0605_0403_0201),
            inputs: &[0x11, 0x22, 0x33],
        },
        &[
            0x45, 0x63, 0x49, 0x4F, 0x01, 0x02, 0x03, 0x00, 0xEF, 0xCD, 0xAB, 0x89, 0x67, 0x45,
            0x23, 0x01, 0x10, 0x32, 0x54, 0x76, 0x98, 0xBA, 0xDC, 0xFE, 0x01, 0x01, 0x01, 0x02,
            0x01, 0x02, 0x03, 0x04, 0x01, 0x02, 0x03, 0x04, 0x05, 0x06, 0x07, 0x08, 0x11, 0x22,
            0x33,
        ],
    ),
    (
        Report {
            cycle: u64::MAX,
            at: u64::MAX,
            end: CycleEnded::Over(0),
            in_op: true,
            missing_a: true,
            missing_b: false,
            stale: false,
            late: u32::MAX,
            inputs_of: Some(0),
            inputs: &[],
        },
        &[
            0x45, 0x63, 0x49, 0x4F, 0x01, 0x02, 0x00, 0x00, 0xFF, 0xFF, 0xFF, 0xFF, 0xFF, 0xFF,
            0xFF, 0xFF, 0xFF, 0xFF, 0xFF, 0xFF, 0xFF, 0xFF, 0xFF, 0xFF, 0x02, 0x02, 0x00, 0x00,
            0xFF, 0xFF, 0xFF, 0xFF, 0x00, 0x00, 0x00, 0x00, 0x00, 0x00, 0x00, 0x00,
        ],
    ),
    (
        Report {
            cycle: 1,
            at: 2,
            end: CycleEnded::Stranger,
            in_op: true,
            missing_a: false,
            missing_b: false,
            stale: true,
            late: 3,
            inputs_of: Some(0),
            inputs: &[0xFF, 0xFF],
        },
        &[
            0x45, 0x63, 0x49, 0x4F, 0x01, 0x02, 0x02, 0x00, 0x01, 0x00, 0x00, 0x00, 0x00, 0x00,
            0x00, 0x00, 0x02, 0x00, 0x00, 0x00, 0x00, 0x00, 0x00, 0x00, 0x04, 0x08, 0x00, 0x00,
            0x03, 0x00, 0x00, 0x00, 0x00, 0x00, 0x00, 0x00, 0x00, 0x00, 0x00, 0x00, 0xFF, 0xFF,
        ],
    ),
];

/// Asserts that what was found is what was wanted; once for all tests.
fn assert_same<T: PartialEq + Debug + Drop>(rt: &impl Abort, found: T, wanted: T) {
    assert_eq!(rt; found, wanted);
}

/// Asserts that bytes are an order that says so, and that it is written so.
fn assert_order(rt: &impl Abort, order: Order<'_>, bytes: &[u8]) -> Result<(), Fail> {
    let read = Order::read(bytes)?;
    assert_same(rt, read, order);
    let mut room = [BEFORE; 64];
    let size = read.write(&mut room)?;
    assert_same(rt, &room[..size], bytes);
    assert_same(rt, room[size..].iter().all(|byte| *byte == BEFORE), true);
    Ok(())
}

/// Asserts that bytes are a report that says so, and that it is written so.
fn assert_report(rt: &impl Abort, report: Report<'_>, bytes: &[u8]) -> Result<(), Fail> {
    let read = Report::read(bytes)?;
    assert_same(rt, read, report);
    let mut room = [BEFORE; 64];
    let size = read.write(&mut room)?;
    assert_same(rt, &room[..size], bytes);
    assert_same(rt, room[size..].iter().all(|byte| *byte == BEFORE), true);
    Ok(())
}

/// Asserts the fault of bytes as an order, or that they are one.
fn assert_order_fault(rt: &impl Abort, bytes: &[u8], wanted: Option<PacketFault>) {
    assert_same(rt, Order::read(bytes).err(), wanted);
}

/// Asserts the fault of bytes as a report, or that they are one.
fn assert_report_fault(rt: &impl Abort, bytes: &[u8], wanted: Option<PacketFault>) {
    assert_same(rt, Report::read(bytes).err(), wanted);
}

#[test]
fn orders_are_read_and_written(rt: HostRuntime) -> Result<(), Fail> {
    for (order, bytes) in ORDERS {
        assert_order(&rt, order, bytes)?;
        assert_report_fault(&rt, bytes, Some(PacketFault::Short));
    }
    Ok(())
}

#[test]
fn reports_are_read_and_written(rt: HostRuntime) -> Result<(), Fail> {
    for (report, bytes) in REPORTS {
        assert_report(&rt, report, bytes)?;
        assert_order_fault(&rt, bytes, Some(PacketFault::OtherKind(2)));
    }
    Ok(())
}

/// The fault of a packet that is cut off, by the size of its head and how many of its bytes are left.
fn cut_fault(size: usize, left: usize) -> Option<PacketFault> {
    if left < size {
        Some(PacketFault::Short)
    } else {
        Some(PacketFault::Length)
    }
}

#[test]
fn no_cut_of_a_packet_is_one(rt: HostRuntime) {
    for left in 0..GOOD_BYTES.len() {
        assert_report_fault(&rt, &GOOD_BYTES[..left], cut_fault(REPORT_HEAD, left));
    }
    for (_, bytes) in ORDERS {
        for left in 0..bytes.len() {
            assert_order_fault(&rt, &bytes[..left], cut_fault(ORDER_HEAD, left));
        }
    }
}

/// The fault of the good report where all bits of the byte at a place are turned over; none where it is
/// another report.
fn damage_fault(at: usize) -> Option<PacketFault> {
    match at {
        0..=3 => Some(PacketFault::OtherMagic),
        4 => Some(PacketFault::OtherVersion(0xFE)),
        5 => Some(PacketFault::OtherKind(0xFD)),
        6 | 7 => Some(PacketFault::Length),
        24 => Some(PacketFault::BadEnd(0xFF)),
        25 => Some(PacketFault::BadFlags(0xFB)),
        26 => Some(PacketFault::BadItem(0x00FF)),
        27 => Some(PacketFault::BadItem(0xFF00)),
        _ => None,
    }
}

#[test]
fn each_damaged_byte_of_a_report_is_a_fault_or_another_report(rt: HostRuntime) {
    for at in 0..GOOD_BYTES.len() {
        let mut bytes = GOOD_BYTES;
        bytes[at] ^= 0xFF;
        assert_report_fault(&rt, &bytes, damage_fault(at));
        assert_same(&rt, Report::read(&bytes) == Ok(GOOD), false);
    }
}

/// The bytes of the good report with other ones at some places.
fn changed(places: &[(usize, u8)]) -> [u8; 41] {
    let mut bytes = GOOD_BYTES;
    for (at, byte) in places {
        if *at < bytes.len() {
            bytes[*at] = *byte;
        }
    }
    bytes
}

/// Places of the good report with other bytes, and the fault of that.
const CHANGES: [(&[(usize, u8)], Option<PacketFault>); 12] = [
    (&[(24, 4)], None),
    (&[(24, 5)], Some(PacketFault::BadEnd(5))),
    (&[(25, 0x0F)], None),
    (&[(25, 0x10)], Some(PacketFault::BadFlags(0x10))),
    (&[(24, 1), (26, 7)], None),
    (&[(24, 2), (27, 7)], None),
    (&[(24, 3), (26, 7)], Some(PacketFault::BadItem(7))),
    (&[(24, 4), (27, 7)], Some(PacketFault::BadItem(0x0700))),
    (
        &[(24, 5), (25, 0xFF), (26, 7)],
        Some(PacketFault::BadEnd(5)),
    ),
    (&[(25, 0xFF), (26, 7)], Some(PacketFault::BadFlags(0xFF))),
    (&[(4, 2), (5, 3)], Some(PacketFault::OtherVersion(2))),
    (&[(5, 3), (6, 9)], Some(PacketFault::OtherKind(3))),
];

#[test]
fn the_first_fault_is_named(rt: HostRuntime) {
    for (places, wanted) in CHANGES {
        assert_report_fault(&rt, &changed(places), wanted);
    }
}

#[test]
fn inputs_are_of_a_cycle(rt: HostRuntime) {
    let mut bytes = GOOD_BYTES;
    bytes[32..40].copy_from_slice(&[0xFF; 8]);
    assert_report_fault(&rt, &bytes, Some(PacketFault::BadInputs));
    bytes[6] = 0;
    assert_report_fault(&rt, &bytes[..40], None);
}

#[test]
fn nothing_is_written_where_there_is_no_room(rt: HostRuntime) {
    let order = Order {
        seen: Some(5),
        outputs: &[0x01, 0x02],
    };
    let mut room = [BEFORE; 18];
    assert_same(&rt, order.write(&mut room[..17]), Err(NoRoom));
    assert_same(&rt, room, [BEFORE; 18]);
    assert_same(&rt, order.write(&mut room), Ok(18));
    let mut room = [BEFORE; 41];
    assert_same(&rt, GOOD.write(&mut room[..40]), Err(NoRoom));
    assert_same(&rt, room, [BEFORE; 41]);
    assert_same(&rt, GOOD.write(&mut room), Ok(41));
    assert_same(&rt, room, GOOD_BYTES);
}

/// Writes a report of which nothing is known, if it can be.
fn written(report: &Report<'_>, room: &mut [u8]) -> Option<usize> {
    if report.is_spellable() {
        report.write(room).ok()
    } else {
        None
    }
}

#[test]
fn what_has_no_spelling_is_not_written(rt: HostRuntime) {
    let mut room = [0; 64];
    for (inputs_of, inputs, wanted) in [
        (None, [0x08].as_slice(), None),
        (None, [].as_slice(), Some(40)),
        (Some(u64::MAX), [].as_slice(), None),
        (Some(u64::MAX - 1), [0x08].as_slice(), Some(41)),
    ] {
        let report = Report {
            inputs_of,
            inputs,
            ..GOOD
        };
        assert_same(&rt, written(&report, &mut room), wanted);
    }
    for (seen, wanted) in [(None, true), (Some(0), true), (Some(u64::MAX), false)] {
        let order = Order { seen, outputs: &[] };
        assert_same(&rt, order.is_spellable(), wanted);
    }
}

/// Faults, where they are, and their texts.
const TEXTS: [(PacketFault, Option<usize>, &str); 11] = [
    (PacketFault::Short, None, "the packet ends inside its head"),
    (
        PacketFault::OtherMagic,
        Some(0),
        "the packet does not begin with EcIO",
    ),
    (
        PacketFault::OtherVersion(2),
        Some(4),
        "the packet is of version 2, and 1 was wanted",
    ),
    (
        PacketFault::OtherKind(2),
        Some(5),
        "the packet is of kind 2, and another was wanted",
    ),
    (
        PacketFault::Length,
        Some(6),
        "the bytes behind the head are more or fewer than it says",
    ),
    (
        PacketFault::BadEnd(5),
        Some(24),
        "the cycle ended in the way 5, and there are 0 to 4",
    ),
    (
        PacketFault::BadFlags(0x10),
        Some(25),
        "the flags are 0x10, and bits 4 to 7 have to be 0",
    ),
    (
        PacketFault::BadItem(7),
        Some(26),
        "item 7 is named, and the cycle ended neither short nor over",
    ),
    (
        PacketFault::BadInputs,
        Some(32),
        "there are inputs, and they are of no cycle",
    ),
    (
        PacketFault::BadLast(2),
        Some(18),
        "whether it is the last reply is told by 2, and 0 or 1 was wanted",
    ),
    (
        PacketFault::LongText,
        Some(6),
        "there are more than 1024 bytes of text",
    ),
];

#[test]
fn faults_have_a_place_and_a_text(rt: HostRuntime) -> Result<(), Fail> {
    for (fault, at, text) in TEXTS {
        assert_same(&rt, fault.at(), at);
        let shown = format!(in rt.alloc(); "{fault}")?;
        assert_same(&rt, shown.as_str(), text);
    }
    let shown = format!(in rt.alloc(); "{NoRoom}")?;
    assert_same(&rt, shown.as_str(), "no room for the packet");
    Ok(())
}

#[test]
fn a_program_answers_a_report(rt: HostRuntime) -> Result<(), Fail> {
    let mut packet = [0; 64];
    let size = GOOD.write(&mut packet)?;
    let report = Report::read(&packet[..size])?;
    let order = Order {
        seen: cycle_of(report.cycle),
        outputs: &[0x01],
    };
    let mut answer = [0; 64];
    let size = order.write(&mut answer)?;
    assert_same(&rt, Order::read(&answer[..size])?.seen, Some(0x2A));
    Ok(())
}

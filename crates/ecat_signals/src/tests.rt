//! Values of fields, as they are worked out by hand.

use crate::field::{Field, FieldFault};
use crate::kind::SignalKind;
use std::process::Abort;
use std::rt::HostRuntime;

/// The bytes of an item.
const BYTES: [u8; 5] = [0x0f, 0xff, 0x80, 0x3f, 0x00];

/// Bits of them, from one on, what they are, and their number.
const READ: [(usize, usize, SignalKind, u32); 9] = [
    (0, 1, SignalKind::Bool, 1),
    (4, 1, SignalKind::Bool, 0),
    (0, 4, SignalKind::U8, 15),
    (0, 4, SignalKind::I8, 0xffff_ffff),
    (0, 5, SignalKind::I8, 15),
    (4, 12, SignalKind::U16, 0xff0),
    (4, 12, SignalKind::I16, 0xffff_fff0),
    (7, 32, SignalKind::U32, 0x007f_01fe),
    (8, 32, SignalKind::F32, 0x003f_80ff),
];

#[test]
fn signed_bits_are_read_with_their_sign(rt: HostRuntime) {
    for (bit, count, kind, number) in READ {
        let field = Field {
            item: 0,
            bit,
            count,
            kind,
        };
        assert_eq!(rt;
            field.number_in(&BYTES),
            Some(number),
            "{bit} {count} {kind}"
        );
    }
}

/// Bits of them, from one on, what they are, a number that is put there, and the bytes then.
const PUT: [(usize, usize, SignalKind, u32, Result<[u8; 5], FieldFault>); 6] = [
    (
        4,
        1,
        SignalKind::Bool,
        1,
        Ok([0x1f, 0xff, 0x80, 0x3f, 0x00]),
    ),
    (
        4,
        12,
        SignalKind::I16,
        0xffff_f800,
        Ok([0x0f, 0x80, 0x80, 0x3f, 0x00]),
    ),
    (
        39,
        1,
        SignalKind::Bool,
        1,
        Ok([0x0f, 0xff, 0x80, 0x3f, 0x80]),
    ),
    (40, 1, SignalKind::Bool, 1, Err(FieldFault::NoField)),
    (4, 12, SignalKind::I16, 2048, Err(FieldFault::OutOfRange)),
    (4, 12, SignalKind::U16, 4096, Err(FieldFault::OutOfRange)),
];

#[test]
fn numbers_change_their_bits_alone(rt: HostRuntime) {
    for (bit, count, kind, number, wanted) in PUT {
        let field = Field {
            item: 0,
            bit,
            count,
            kind,
        };
        let mut bytes = BYTES;
        let put = field.put_number(&mut bytes, number);
        assert_eq!(rt; put.map(|_| bytes), wanted, "{bit} {count} {kind}");
    }
}

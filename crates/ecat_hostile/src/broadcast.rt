//! A broadcast read of AL status, cut short at each byte, and with each byte changed to each other one.

ghost use Rattle.std.specs.Prelude.{◌<◌};

use crate::slave::{STATION, passes, slave};
use ec_app::Slave;
use ec_merge::{JoinFault, join_frames};
use ec_wire::{FaultKind, Form, FrameBuf, WireFault};
use std::process::Abort;
use std::test::Fail;

/// The frame: a broadcast read of the two bytes of AL status, with index 1.
const SENT: [u8; 16] = [
    0x0E, 0x10, 0x07, 0x01, 0x00, 0x00, 0x30, 0x01, 0x02, 0x00, 0x00, 0x00, 0x00, 0x00, 0x00, 0x00,
];

/// How the changed frames are answered.
#[derive(Clone, Copy, PartialEq, Eq, Debug, Default)]
struct Answers {
    accepted: u32,
    // The faults of a header, or of any part of the frame.
    short: u32,
    bad_type: u32,
    reserved: u32,
    empty: u32,
    too_long: u32,
    // The faults of a datagram, or of what follows the last one.
    bad_command: u32,
    overrun: u32,
    more_at_end: u32,
    left_over: u32,
    trailing: u32,
}

/// All changes of one byte: sixteen places, and 255 other values at each.
const CHANGES: u32 = 4080;

/// How many of them have which answer.
const ANSWERS: Answers = Answers {
    accepted: 2820,
    short: 246,
    bad_type: 240,
    reserved: 232,
    empty: 1,
    too_long: 2,
    bad_command: 241,
    overrun: 283,
    more_at_end: 2,
    left_over: 13,
    trailing: 0,
};

/// How many have the first five faults,
const REFUSED_BY_HEADER: u32 = 721;

/// and how many the last five.
const REFUSED_BY_DATAGRAM: u32 = 539;

/// How many accepted frames, taken for a copy of the sent one, are strangers,
const STRANGERS: u32 = 779;

/// and how many are joined with it.
const JOINED: u32 = 2041;

impl Answers {
    /// Counts one answer.
    fn count(&mut self, answer: &Result<FrameBuf, WireFault>) {
        let count = match answer {
            Ok(_) => &mut self.accepted,
            Err(fault) => self.of(fault.kind),
        };
        *count = count.wrapping_add(1);
    }

    /// The count of a fault.
    fn of(&mut self, kind: FaultKind) -> &mut u32 {
        match kind {
            FaultKind::Short => &mut self.short,
            FaultKind::BadType => &mut self.bad_type,
            FaultKind::Reserved => &mut self.reserved,
            FaultKind::Empty => &mut self.empty,
            FaultKind::TooLong => &mut self.too_long,
            FaultKind::BadCommand => &mut self.bad_command,
            FaultKind::Overrun => &mut self.overrun,
            FaultKind::MoreAtEnd => &mut self.more_at_end,
            FaultKind::LeftOver => &mut self.left_over,
            FaultKind::Trailing => &mut self.trailing,
        }
    }

    /// How many have one of the first five faults.
    fn by_header(&self) -> u32 {
        self.short
            .wrapping_add(self.bad_type)
            .wrapping_add(self.reserved)
            .wrapping_add(self.empty)
            .wrapping_add(self.too_long)
    }

    /// How many have one of the last five.
    fn by_datagram(&self) -> u32 {
        self.bad_command
            .wrapping_add(self.overrun)
            .wrapping_add(self.more_at_end)
            .wrapping_add(self.left_over)
            .wrapping_add(self.trailing)
    }
}

/// The frame with the byte at a place changed.
fn changed(place: usize, change: u8) -> Result<FrameBuf, WireFault>
    requires { place < 16 }
{
    let mut bytes = SENT;
    bytes[place] ^= change;
    FrameBuf::read(&bytes, Form::Udp)
}

#[test]
fn each_cut_is_short_where_it_ends(rt: HostRuntime) {
    for at in 0..16usize {
        let short = WireFault {
            at,
            kind: FaultKind::Short,
        };
        let found = FrameBuf::read(&SENT[..at], Form::Udp).err();
        assert_eq!(rt; found, Some(short), "cut to {at}");
    }
}

#[test]
fn each_changed_byte_is_taken_or_refused_by_name(rt: HostRuntime) {
    let mut answers = Answers::default();
    for place in 0..16usize {
        for change in 1..=255u8 {
            answers.count(&changed(place, change));
        }
    }
    assert_eq!(rt; answers, ANSWERS);
    assert_eq!(rt; answers.by_header(), REFUSED_BY_HEADER);
    assert_eq!(rt; answers.by_datagram(), REFUSED_BY_DATAGRAM);
    let refused = REFUSED_BY_HEADER.wrapping_add(REFUSED_BY_DATAGRAM);
    assert_eq!(rt; ANSWERS.accepted.wrapping_add(refused), CHANGES);
}

/// How the accepted frames fare as a copy of the sent one, of which the other copy is missing.
#[derive(Clone, Copy, PartialEq, Eq, Debug, Default)]
struct Joins {
    strangers: u32,
    joined: u32,
    others: u32,
}

impl Joins {
    /// Counts one frame.
    fn count(&mut self, sent: &FrameBuf, copy: &FrameBuf) {
        let count = match join_frames(sent, Some(copy), None) {
            Ok(_) => &mut self.joined,
            Err(JoinFault::StrangerA(0)) => &mut self.strangers,
            Err(_) => &mut self.others,
        };
        *count = count.wrapping_add(1);
    }
}

#[test]
fn each_changed_copy_is_joined_or_a_stranger(rt: HostRuntime) -> Result<(), Fail> {
    let sent = FrameBuf::read(&SENT, Form::Udp)?;
    let mut joins = Joins::default();
    for place in 0..16usize {
        for change in 1..=255u8 {
            if let Ok(copy) = changed(place, change) {
                joins.count(&sent, &copy);
            }
        }
    }
    let wanted = Joins {
        strangers: STRANGERS,
        joined: JOINED,
        others: 0,
    };
    assert_eq!(rt; joins, wanted);
    Ok(())
}

/// Passes a frame that was accepted through the slave, where it is read again as it came out, and tells
/// whether it was accepted.
fn pass(rt: &impl Abort, slave: &mut Slave, answer: &Result<FrameBuf, WireFault>) -> bool {
    match answer {
        Ok(frame) => {
            assert!(rt; passes(slave, frame));
            true
        }
        Err(_) => false,
    }
}

#[test]
fn each_accepted_frame_passes_a_slave_and_is_read_again(rt: HostRuntime) {
    let mut passed = 0u32;
    for place in 0..16usize {
        for change in 1..=255u8 {
            let mut slave = slave(&rt, rt.alloc(), STATION);
            if pass(&rt, &mut slave, &changed(place, change)) {
                passed = passed.wrapping_add(1);
            }
        }
    }
    assert_eq!(rt; passed, ANSWERS.accepted);
}

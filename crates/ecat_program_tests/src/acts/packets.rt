//! Cycles over packets, over lines that fail, lose all, or carry another frame.

ghost use Rattle.std.specs.Prelude.{⊤, ◌≡◌, ◌≤◌, ◌<◌, IsErr};

use crate::outputs::{ROOM, written};
use crate::reading::EXAMPLE;
use ec_master::PortFault;
use ec_wire::PACKET_ROOM;
use ecat_acts::udp::{act_udp, prepare_udp};
use ecat_scene::Scene;
use ecat_udp::{PacketLine, Socket};
use std::io::Cursor;
use std::process::Abort;

/// A frame that no cycle sends.
const OTHER: [u8; 14] = [
    0x0c, 0x10, 0x00, 0x63, 0x00, 0x00, 0x00, 0x00, 0x00, 0x00, 0x00, 0x00, 0x00, 0x00,
];

/// What a line does.
#[derive(Clone, Copy, PartialEq, Eq)]
pub(super) enum Way {
    /// Each call fails.
    Fails,
    /// No packet comes.
    Loses,
    /// At each socket a frame comes that was not sent.
    Replaces,
}

/// A line in memory.
#[derive(Drop)]
pub(super) struct Fake {
    way: Way,
    failed: u64,
}

impl Fake {
    /// A line that has not failed yet.
    pub(super) fn new(way: Way) -> Fake {
        Fake { way, failed: 0 }
    }

    /// Counts a failure; at the greatest count there is none.
    fn fail(&mut self) -> Result<(), PortFault>
        ensures counted { IsErr result → self.old.failed < self.new.failed }
        ensures never_lower { self.old.failed ≤ self.new.failed }
    {
        if self.way != Way::Fails || self.failed == u64::MAX {
            return Ok(());
        }
        self.failed += 1;
        Err(PortFault)
    }
}

impl PacketLine for Fake {
    ghost failed = { λ line. line.failed };

    ghost gives = { λ before at packet later. ⊤ };

    fn send(&mut self, _from: Socket, _to: Socket, _bytes: &[u8]) -> Result<(), PortFault> {
        self.fail()
    }

    fn receive(
        &mut self,
        _at: Socket,
        into: &mut [u8; PACKET_ROOM],
    ) -> Result<Option<usize>, PortFault> {
        self.fail()?;
        if self.way != Way::Replaces {
            return Ok(None);
        }
        into[..OTHER.len()].copy_from_slice(&OTHER);
        Ok(Some(OTHER.len()))
    }

    fn failures(&self) -> u64 {
        self.failed
    }
}

/// Does `udp` of the example over a line, with `--judge` or without, and asserts what it prints and answers,
/// or that memory ran out before it printed anything.
fn goes(
    rt: &(impl AllocGlobal + Abort),
    judge: bool,
    way: Way,
    status: u8,
    out: &[u8],
    err: &[u8],
) {
    let mut printed = Cursor::new([0u8; ROOM]);
    let mut complained = Cursor::new([0u8; ROOM]);
    let scene = Scene::read(rt.alloc(), EXAMPLE);
    let line = Fake::new(way);
    let answer = match prepare_udp(rt.alloc(), scene, &mut printed, &mut complained) {
        Ok(prepared) => act_udp(prepared, judge, line, &mut printed, &mut complained),
        Err(status) => status,
    };
    let failed = written(&complained);
    if failed == b"scene: NoMemory\n".as_slice() {
        assert_eq!(rt; answer, 3);
        assert!(rt; written(&printed).is_empty());
        return;
    }
    assert_eq!(rt; written(&printed), out);
    assert_eq!(rt; failed, err);
    assert_eq!(rt; answer, status);
}

#[test]
fn a_line_that_fails_ends_the_cycle(rt: HostRuntime) {
    goes(&rt, false, Way::Fails, 3, b"", b"cycle: Port\n");
}

#[test]
fn a_line_that_loses_all_is_short(rt: HostRuntime) {
    let out = b"short 0\nitem 0 LRW data ff wkc 0 of 3\nitem 1 BRD data 0000 wkc 0 of 2 adp 0\n\
        slave 0 sm 2 open 00 shown 00\n";
    goes(&rt, false, Way::Loses, 1, out, b"");
}

#[test]
fn a_judged_cycle_over_packets_says_what_is_in_the_way(rt: HostRuntime) {
    let lost = b"short 0\nitem 0: came 0 of 3\nitem 1: came 0 of 2\nframe 0: both lost\n\
        link 1 down: between slave 0 (0x1001) and slave 1 (0x1002)\n\
        item 0 LRW data ff wkc 0 of 3\nitem 1 BRD data 0000 wkc 0 of 2 adp 0\n\
        slave 0 sm 2 open 00 shown 00\n";
    goes(&rt, true, Way::Loses, 1, lost, b"");
    goes(&rt, true, Way::Replaces, 1, b"cycle: Stranger\n", b"");
    goes(&rt, true, Way::Fails, 3, b"", b"cycle: Port\n");
}

#[test]
fn a_frame_that_was_not_sent_is_a_stranger(rt: HostRuntime) {
    goes(&rt, false, Way::Replaces, 1, b"cycle: Stranger\n", b"");
}

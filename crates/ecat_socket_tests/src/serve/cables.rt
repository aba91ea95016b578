//! Cables at the ends of a line that somebody pulls and plugs in, by a clock that the test winds.

ghost use Rattle.ecat_serve.specs.Ends.{any_receive, any_send};

use crate::asserts::{assert_found, assert_same};
use crate::serve::line::served;
use ec_ring::{Port, PortFault, Travel};
use ec_wire::PACKET_ROOM;
use ecat_log::Cables;
use ecat_serve::{
    Arrived, Cabled, Console, Counts, Desk, Disturbed, Ends, InputLine, LINE_ROOM, Onward, Plugs,
    Served, TimedEnds, Times, Waited,
};
use std::io::Cursor;
use std::net::SocketAddr;
use std::process::Abort;
use std::time::Duration;

/// Ends that are silent for so many waits, and then end.
#[derive(Drop)]
struct Silence {
    left: u32,
}

impl Ends for Silence {
    ghost receives = { any_receive };

    ghost sends = { any_send };

    fn receive(&mut self, _into: &mut [u8; PACKET_ROOM]) -> Result<Option<Arrived>, PortFault> {
        Ok(None)
    }

    fn send(&mut self, _from: Port, _to: SocketAddr, _bytes: &[u8]) -> Result<(), PortFault> {
        Ok(())
    }
}

impl TimedEnds for Silence {
    fn receive_within(
        &mut self,
        _into: &mut [u8; PACKET_ROOM],
        _limit: Duration,
    ) -> Result<Waited, PortFault> {
        if self.left == 0 {
            return Ok(Waited::Ended);
        }
        self.left = self.left.saturating_sub(1);
        Ok(Waited::Silent)
    }
}

impl Console for Silence {
    fn take_line(&mut self, _into: &mut [u8; LINE_ROOM]) -> Option<InputLine> {
        None
    }
}

/// Cables that are plugged in, at ends A and B, as each look in turn finds them; then as the last one did.
#[derive(Drop)]
struct Plugged {
    looks: &'static [(bool, bool)],
    at: usize,
}

impl Plugs for Plugged {
    fn is_plugged(&mut self, at: Port) -> bool {
        let look = self.looks.get(self.at).or(self.looks.last());
        let (a, b) = look.copied().unwrap_or((true, true));
        match at {
            Port::A => a,
            Port::B => {
                self.at = self.at.wrapping_add(1);
                b
            }
        }
    }
}

/// A clock that goes on by 100 milliseconds each time that it is asked.
#[derive(Drop)]
struct Tenths {
    now: u64,
}

impl Times for Tenths {
    fn now(&mut self) -> u64 {
        self.now = self.now.saturating_add(100_000);
        self.now
    }
}

/// Somebody who gives no command.
#[derive(Drop)]
struct Nobody;

impl Desk for Nobody {
    fn take(&mut self, _served: &mut Served, _came: Counts, _line: Option<&[u8]>) -> Onward {
        Onward::Goes
    }
}

/// What looks find, and what they leave of the line: what is told, and which links at the ends are up.
struct Row {
    name: &'static str,
    looks: &'static [(bool, bool)],
    told: &'static str,
    links: (bool, bool),
}

/// Links of two slaves: link 0 is at end A, and link 2 at end B.
const ROWS: [Row; 4] = [
    Row {
        name: "none is pulled",
        looks: &[(true, true)],
        told: "",
        links: (true, true),
    },
    Row {
        name: "that at A is pulled",
        looks: &[(true, true), (false, true)],
        told: "end A: no carrier: link 0 down\n",
        links: (false, true),
    },
    Row {
        name: "both are pulled at once",
        looks: &[(false, false)],
        told: "end A: no carrier: link 0 down\nend B: no carrier: link 2 down\n",
        links: (false, false),
    },
    Row {
        name: "that at B is pulled and plugged in again",
        looks: &[(true, false), (true, false), (true, true)],
        told: "end B: no carrier: link 2 down\nend B: carrier again: link 2 up\n",
        links: (true, true),
    },
];

/// Serves a line at ends whose cables are watched, and says whether that went well.
fn serve_watched(
    rt: &(impl Abort + AllocGlobal),
    served: &mut Served,
    cabled: &mut Cabled<'_, Silence, Plugged, Tenths>,
    out: &mut Cursor<[u8; 256]>,
) -> bool {
    let ends = Disturbed::new(rt.alloc(), cabled, Tenths { now: 0 });
    let mut ends = ends.ok().expect(rt, "memory");
    let mut told = Cables::new(out);
    served
        .serve_commanded(&mut ends, 9, &mut told, &mut Nobody)
        .is_ok()
}

/// Asserts what the looks of a row leave of a line.
fn assert_row(rt: &(impl Abort + AllocGlobal), served: &mut Served, row: &Row) {
    let mut silence = Silence { left: 8 };
    let plugs = Plugged {
        looks: row.looks,
        at: 0,
    };
    let mut cabled = Cabled::new(&mut silence, plugs, Tenths { now: 0 });
    let mut out = Cursor::new([0u8; 256]);
    assert_same(rt, serve_watched(rt, served, &mut cabled, &mut out), true);
    let count = out.position().min(256) as usize;
    assert_found(
        rt,
        row.name,
        str::from_utf8(&out.get_ref()[..count]),
        Ok(row.told),
    );
    let links = served.ring().links();
    assert_found(rt, row.name, (links.is_up(0), links.is_up(2)), row.links);
}

#[test]
fn a_cable_that_is_pulled_is_the_link_at_its_end(rt: HostRuntime) {
    for row in &ROWS {
        let mut served = served(&rt, rt.alloc(), [true; 3]);
        assert_row(&rt, &mut served, row);
    }
}

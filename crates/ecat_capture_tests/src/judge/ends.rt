//! The use on the crate's page: an exchange with a drive that is good, and outputs that fail.

use crate::outputs::Fails;
use ec_check::Records;
use ec_map::Item;
use ec_regs::{Fmmu, SyncMan};
use ec_wire::Kind;
use ecat_frames::{Frames, Looked, look};
use ecat_judge::Judged::{Closed, Good, NoMemory, OutputFailed};
use ecat_judge::{Asked, Judged, Known, judge};
use ecat_source::Bytes;
use std::alloc::Global;
use std::io::{ErrorKind, Write};

/// A capture of an LRW of two bytes, as it was sent and as it came back.
const CYCLE: &str = "d4c3b2a1020004000000000000000000ffff000001000000\
    00000000000000001e0000001e000000ffffffffffff00010510000088a40e100c00000001000200000000000000\
    000000000a0000001e0000001e000000ffffffffffff02010510000088a40e100c00000001000200000000070300";

/// What is written of it.
const CYCLE_TEXT: &str = "\
item 0 LRW 0x00010000 2 bytes: sent 1 good 1 short 0 over 0 lost 0
  packets 1 to 1, 0.000000 to 0.000000
  back in 0.000010 0.000010 0.000010 s
";

/// A drive, which takes one byte of outputs and gives one of inputs behind it.
fn drive() -> Records {
    let mut records = Records::of_station(0x1001);
    records.set_syncman(2, &SyncMan::outputs(0x1000, 1));
    records.set_syncman(3, &SyncMan::inputs(0x1100, 1));
    records.set_fmmu(0, &Fmmu::writing(0x0001_0000, 1, 0x1000));
    records.set_fmmu(1, &Fmmu::reading(0x0001_0001, 1, 0x1100));
    records
}

/// How the cycle is judged that is written to this output; nothing where memory runs out in front of it.
fn judged<W: Write>(alloc: Global, out: &mut W) -> Option<Judged> {
    let bytes = hex::decode(alloc, CYCLE).ok()?;
    let item = Item::new(Kind::Lrw, 0x0001_0000, &[0, 0]).ok()?;
    let mut looked = Looked::new();
    let _ = look(alloc, Bytes::new(bytes.as_slice()), &mut looked);
    let mut frames = Frames::of_file(alloc, Bytes::new(bytes.as_slice()), looked, None);
    let asked = Asked {
        csv: false,
        dates: false,
        json: false,
        limit: 1000,
    };
    let (slaves, items) = ([drive()], [item]);
    let line = Known {
        slaves: &slaves,
        names: Vec::new(alloc),
        items: &items,
    };
    Some(judge(alloc, &mut frames, line, &asked, out))
}

#[test]
fn a_good_cycle(rt: HostRuntime) {
    let mut out = Vec::new(rt.alloc());
    let found = judged(rt.alloc(), &mut out);
    if found == Some(Good) {
        assert!(rt; out.as_slice() == CYCLE_TEXT.as_bytes(), "{out:?}");
    } else {
        assert!(rt;
            matches!(found, None | Some(NoMemory | OutputFailed)),
            "{found:?}"
        );
    }
}

/// Each failure, and how judging ends then.
const FAILURES: [(ErrorKind, Judged); 2] = [
    (ErrorKind::BrokenPipe, Closed),
    (ErrorKind::Other, OutputFailed),
];

#[test]
fn an_output_may_fail(rt: HostRuntime) {
    for (kind, wanted) in FAILURES {
        let mut out = Fails { kind };
        let found = judged(rt.alloc(), &mut out);
        if let Some(found) = found
            && found != NoMemory
        {
            assert_eq!(rt; found, wanted);
        }
    }
}

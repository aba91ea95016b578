//! Outputs and sources that fail.
use super::samples::{CUT, LINE, ONE};
use super::{ROOM, asked, written};
use crate::outputs::Fails;
use ecat_list::{Form, Listed, list};
use ecat_source::{Bytes, FailsAt};
use std::io::{Cursor, ErrorKind};

#[test]
fn a_closed_pipe_is_told_from_a_failed_write_and_a_failing_source(rt: HostRuntime) {
    let mut err = Cursor::new([0u8; ROOM]);
    for (kind, wanted) in [
        (ErrorKind::BrokenPipe, Listed::Closed),
        (ErrorKind::StorageFull, Listed::OutputFailed),
    ] {
        let mut out = Fails { kind };
        let source = Bytes::new(&ONE);
        let listed = list(rt.alloc(), source, asked(Form::Lines), &mut out, &mut err);
        assert!(&rt;
            listed == wanted || listed == Listed::NoMemory,
            "{kind:?}: {listed:?}"
        );
    }
    let mut out = Cursor::new([0u8; ROOM]);
    let source = FailsAt::new(&CUT, 68, 1);
    let listed = list(rt.alloc(), source, asked(Form::Lines), &mut out, &mut err);
    if listed != Listed::NoMemory {
        assert_eq!(&rt; listed, Listed::SourceFailed);
        assert_eq!(&rt; written(&out), LINE);
    }
}

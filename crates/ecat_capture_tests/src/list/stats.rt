//! Sums of captures whose outputs and sources fail.
use super::samples::CUT;
use crate::outputs::Fails;
use ecat_list::{Listed, OfTrips, tally};
use ecat_source::{Bytes, FailsAt};
use std::io::{Cursor, ErrorKind};

/// Sums not told apart by the index.
const SUMS: OfTrips = OfTrips {
    each: false,
    by_index: false,
    json: false,
    progress: false,
};

#[test]
fn outputs_and_sources_that_fail_are_told(rt: HostRuntime) {
    let mut err = Cursor::new([0u8; 8]);
    for (kind, wanted) in [
        (ErrorKind::BrokenPipe, Listed::Closed),
        (ErrorKind::StorageFull, Listed::OutputFailed),
    ] {
        let mut out = Fails { kind };
        let first = Bytes::new(&CUT);
        let listed = tally(
            rt.alloc(),
            first,
            Bytes::new(&CUT),
            SUMS,
            &mut out,
            &mut err,
        );
        assert!(&rt;
            listed == wanted || listed == Listed::NoMemory,
            "{listed:?}"
        );
    }
    let mut out = Cursor::new([0u8; 256]);
    let first = FailsAt::new(&CUT, 30, 1);
    let again = FailsAt::new(&CUT, 30, 1);
    let listed = tally(rt.alloc(), first, again, SUMS, &mut out, &mut err);
    assert!(&rt;
        listed == Listed::SourceFailed || listed == Listed::NoMemory,
        "{listed:?}"
    );
}

//! The worked rows, into an output that fails.

use crate::outputs::Stops;
use ecat_setup::LineFailure;
use ecat_vectors::vectors;

/// The first write that fails ends them, and so does the last.
#[test]
fn a_write_that_fails_ends_the_rows(rt: HostRuntime) {
    for left in [0usize, 25] {
        let done = vectors(rt.alloc(), &mut Stops { left });
        let failed = match &done {
            Ok(_) => false,
            // (the rows' scenes are good, so that a scene is refused for want of memory alone)
            Err(failure) => matches!(
                failure,
                LineFailure::Output | LineFailure::NoMemory | LineFailure::Scene(_)
            ),
        };
        assert!(rt; failed, "write {left}");
    }
}

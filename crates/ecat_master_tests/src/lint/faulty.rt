//! What a person is told of a faulty line.

use ecat_lint::explained;
use ecat_scene::LineFault;

#[test]
fn a_line_that_is_not_there_is_not_told_of(rt: HostRuntime) {
    for line in [2, 0] {
        assert!(&rt; explained(b"slave 1", line, LineFault::NoSlave).is_none());
    }
}

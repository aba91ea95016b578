//! Scenes that are taken, and what each of them holds; `/` ends a line.

use super::{assert_rows, taken};
use crate::asserts::assert_same;
use ec_app::{Rights, Value};

/// Sync managers of four kinds, FMMUs of three types, and process memory.
const SETTINGS: &str = "\
slave 0x1001/sm 3 0x1100 1 read/fmmu 0 0x10000 1 0 7 0x1100 0 read/mem 0x1100 12/\
    frame 0d100a000000010001000000000000 | \
        slave 4097 Init; \
        sm 3 SyncMan { start: 4352, length: 1, control: 0, status: 0, activate: 1, pdi: 0 }; \
        fmmu 0 Fmmu { logical: 65536, length: 1, start: 0, stop: 7, physical: 4352, bit: 0, kind: 1, \
            activate: 1, reserved: [0, 0, 0] }; mem 4352 [18]; \
        frame [13, 16, 10, 0, 0, 0, 1, 0, 1, 0, 0, 0, 0, 0, 0]
slave 1/sm 0 0x1800 32 mailbox-write/sm 1 0x1880 32 mailbox-read/sm 2 0x1000 1 write/sm 3 0x1100 1 read/\
    fmmu 0 0 1 0 7 0x1000 0 write/fmmu 7 0xFFFFFFFF 65535 255 255 65535 255 both | \
        slave 1 Init; \
        sm 0 SyncMan { start: 6144, length: 32, control: 6, status: 0, activate: 1, pdi: 0 }; \
        sm 1 SyncMan { start: 6272, length: 32, control: 2, status: 0, activate: 1, pdi: 0 }; \
        sm 2 SyncMan { start: 4096, length: 1, control: 4, status: 0, activate: 1, pdi: 0 }; \
        sm 3 SyncMan { start: 4352, length: 1, control: 0, status: 0, activate: 1, pdi: 0 }; \
        fmmu 0 Fmmu { logical: 0, length: 1, start: 0, stop: 7, physical: 4096, bit: 0, kind: 2, \
            activate: 1, reserved: [0, 0, 0] }; \
        fmmu 7 Fmmu { logical: 4294967295, length: 65535, start: 255, stop: 255, physical: 65535, \
            bit: 255, kind: 3, activate: 1, reserved: [0, 0, 0] }
slave 0xFfFf/mem 0x2fff 00 | slave 65535 Init; mem 12287 [0]";

/// Comments, blank lines and spaces are nothing; each slave has its own lines, in their order.
const SLAVES: &str = "\
# a line//   /  slave   4097  /#slave/ | slave 4097 Init
|
slave 1/state 8/areas 1 65535/slave 2/mem 0x1000 00/slave 3/state 2/state 4/areas 7 0x8 | \
        slave 1 Op areas 1 65535; slave 2 Init; mem 4096 [0]; slave 3 SafeOp areas 7 8
slave 1/state 1 | slave 1 Init
slave 1/object 7 1 1 ro 0/slave 1/object 7 1 1 ro 0 | slave 1 Init objects 1; slave 1 Init objects 1
slave 1/simple/slave 2/slave 3/simple/simple | slave 1 Init simple; slave 2 Init; slave 3 Init simple
slave 1/mirror 3 2/count 0x7/mirror 0 5/slave 2/count 3/slave 3 | \
        slave 1 Init; \
        [Mirror { inputs: 3, outputs: 2 }, Count { inputs: 7 }, Mirror { inputs: 0, outputs: 5 }]; \
        slave 2 Init; [Count { inputs: 3 }]; slave 3 Init
slave 1/startup 0x8000 1 e803/startup 0x1C12 0x0 00/slave 2/slave 3/startup 0x1C12 1 12345678/\
    startup 0x1C12 1 12345678 | \
        slave 1 Init; \
        [StartupObject { index: 32768, sub: 1, value: Two(1000) }, StartupObject { index: 7186, sub: 0, \
            value: One(0) }]; slave 2 Init; slave 3 Init; \
        [StartupObject { index: 7186, sub: 1, value: Four(2018915346) }, StartupObject { index: 7186, \
            sub: 1, value: Four(2018915346) }]";

/// A frame ends where its header says, and frames, steps, items, links and weathers stand in their order.
const WORKS: &str = "\
frame 0E100701000030010200000000000000ffff | frame [14, 16, 7, 1, 0, 0, 48, 1, 2, 0, 0, 0, 0, 0, 0, 0]
step/frame 0e100701000030010200000000000000/step | \
        step; frame [14, 16, 7, 1, 0, 0, 48, 1, 2, 0, 0, 0, 0, 0, 0, 0]; step
lrd 0 00/lwr 0x10000 a1B2/lrw 0xffffffff 01/brd 0x0130 0000/fprd 0x1001 0x1100 00/fpwr 65535 0x2fff 5a | \
        Lrd 0 [0] counter 0 adp 0; Lwr 65536 [161, 178] counter 0 adp 0; \
        Lrw 4294967295 [1] counter 0 adp 0; Brd 304 [0, 0] counter 0 adp 0; \
        Fprd 285216769 [0] counter 0 adp 0; Fpwr 805306367 [90] counter 0 adp 0
link 2 down/link 0 down/slave 1/slave 2/link 2 down | slave 1 Init; slave 2 Init; links [2, 0, 2]
slave 1/slave 2/weather - 0,2 - a/weather 1 - a b/weather - - b a/weather 0 0 ab b | \
        slave 1 Init; slave 2 Init; weather [] [0, 2] lost false false second false; \
        weather [1] [] lost true false second true; weather [] [] lost false true second false; \
        weather [0] [0] lost true true second true";

#[test]
fn scenes_are_taken_as_they_stand(rt: HostRuntime) {
    for rows in [SETTINGS, SLAVES, WORKS] {
        assert_rows(&rt, rt.alloc(), rows);
    }
}

#[test]
fn objects_have_sizes_and_rights(rt: HostRuntime) {
    let text =
        b"slave 1\nobject 0x1018 1 4 ro 2\nobject 0x1018 2 2 wo 0xffff\nobject 0x2000 1 1 rw 255";
    let Some(scene) = taken(&rt, text) else {
        return;
    };
    let [slave] = scene.slaves.as_slice() else {
        panic!(rt; "one slave");
    };
    assert_same(&rt, slave.objects.count(), 3);
    for (index, sub, wanted) in [
        (0x1018, 1, (Rights::ReadOnly, Value::Four(2))),
        (0x1018, 2, (Rights::WriteOnly, Value::Two(0xffff))),
        (0x2000, 1, (Rights::Both, Value::One(255))),
    ] {
        assert_same(&rt, slave.objects.get(index, sub), Some(wanted));
    }
}

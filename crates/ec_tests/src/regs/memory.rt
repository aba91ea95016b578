//! The bytes of one controller.

use crate::asserts::assert_same;
use ec_regs::Memory;

#[test]
fn a_new_memory_is_there_and_all_zero(rt: HostRuntime) {
    let memory = Memory::new(rt.alloc()).expect(&rt, "memory for 12,288 bytes");
    assert_same(&rt, memory.byte(0x0000), 0);
    assert_same(&rt, memory.byte(0x2FFF), 0);
    assert_same(&rt, memory.bytes().len(), 12_288);
}

#[test]
fn bytes_are_found_where_they_were_written(rt: HostRuntime) {
    let mut memory = Memory::new(rt.alloc()).expect(&rt, "memory for 12,288 bytes");
    memory.set_byte(0x2FFF, 0xAA);
    memory.load(0x1000, &[0x01, 0x02, 0x03]);
    memory.load(0x3000, &[]);
    for (address, value) in [
        (0x0FFF, 0),
        (0x1000, 1),
        (0x1001, 2),
        (0x1002, 3),
        (0x1003, 0),
        (0x2FFF, 0xAA),
    ] {
        assert_eq!(rt; memory.byte(address), value, "at {address}");
    }
}

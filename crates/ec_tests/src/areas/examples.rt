//! The use on the page of `ec_areas`, and the areas of the tests.

ghost use Rattle.ec_regs.specs.Bits.{AreBytes};

use crate::asserts::assert_same;
use ec_areas::{read_mapped, write_mapped};
use ec_regs::{Fmmu, Memory, PlannedFmmu, PlannedSyncMan, SyncMan, SyncManagers};

/// A sync manager that guards nothing.
pub(crate) const NO_AREA: SyncMan = SyncMan {
    start: 0,
    length: 0,
    control: 0,
    status: 0,
    activate: 0,
    pdi: 0,
};

/// One byte at 0x1000, buffered, written by the master, enabled.
pub(crate) const OUTPUTS: SyncMan = SyncMan {
    start: 0x1000,
    length: 1,
    control: 0x04,
    activate: 0x01,
    ..NO_AREA
};

/// Two bytes at 0x1100, buffered, read by the master, enabled.
pub(crate) const INPUTS: SyncMan = SyncMan {
    start: 0x1100,
    length: 2,
    control: 0x00,
    activate: 0x01,
    ..NO_AREA
};

/// The sync managers of a controller with those areas.
pub(crate) fn areas() -> SyncManagers {
    let no_area = PlannedSyncMan::new(NO_AREA);
    [
        no_area,
        no_area,
        PlannedSyncMan::new(OUTPUTS),
        PlannedSyncMan::new(INPUTS),
        no_area,
        no_area,
        no_area,
        no_area,
    ]
}

/// From bit 3 of logical byte 0x00010000 to bit 4 of the next, onto the inputs from bit 6 on; read, active.
const READ: Fmmu = Fmmu {
    logical: 0x0001_0000,
    length: 2,
    start: 3,
    stop: 4,
    physical: 0x1100,
    bit: 6,
    kind: 1,
    activate: 1,
    reserved: [0; 3],
};

/// Writes through FMMUs, as a controller does.
pub(crate) fn write(
    managers: &SyncManagers,
    fmmus: &[PlannedFmmu],
    memory: &mut Memory,
    address: u32,
    payload: &[u8],
) -> bool {
    let _size = hold_bytes(memory);
    write_mapped(managers, fmmus, memory, address, payload)
}

/// How many bytes a memory holds; each of them is one.
fn hold_bytes(memory: &Memory) -> usize
    ensures { AreBytes memory.now }
{
    let bytes = memory.bytes();
    bytes.len()
}

#[test]
fn a_read_moves_ten_bits_up_by_three(rt: HostRuntime) {
    let mut memory = Memory::new(rt.alloc()).expect(&rt, "memory");
    memory.load(0x1100, &[0xC0, 0x5A]);
    let fmmus = [PlannedFmmu::new(READ)];
    let mut data = [0x00, 0x00];
    assert!(rt; read_mapped(&areas(), &fmmus, memory.bytes(), 0x0001_0000, &mut data));
    assert_same(&rt, data, [0x58, 0x0B]);
    let mut data = [0xFF, 0xFF];
    assert!(rt; read_mapped(&areas(), &fmmus, memory.bytes(), 0x0001_0000, &mut data));
    assert_same(&rt, data, [0x5F, 0xEB]);
}

//! What small FMMUs map.

use ec_regs::Fmmu;

/// The physical bit of a logical one, found by going through the mapped bits one after the other: they
/// begin at the start bit of the first byte, go on bit by bit, and end with the stop bit of the last.
fn found_by_walking(record: &Fmmu, wanted: u64) -> Option<u32> {
    let fits = record.start < 8 && record.stop < 8 && record.bit < 8;
    if !fits || record.activate & 1 == 0 {
        return None;
    }
    let mut found = None;
    let mut physical = 8 * u32::from(record.physical) + u32::from(record.bit);
    for byte in 0..record.length {
        for bit in 0..8u8 {
            let before = byte == 0 && bit < record.start;
            let behind = byte + 1 == record.length && bit > record.stop;
            if before || behind {
                continue;
            }
            if wanted == 8 * (u64::from(record.logical) + u64::from(byte)) + u64::from(bit) {
                found = Some(physical);
            }
            physical = physical.wrapping_add(1);
        }
    }
    found
}

#[test]
fn small_fmmus_map_what_a_walk_over_their_bits_finds(rt: HostRuntime) {
    for length in 0..3u16 {
        for start in 0..9u8 {
            for stop in 0..9u8 {
                let record = Fmmu {
                    logical: 1,
                    length,
                    start,
                    stop,
                    physical: 2,
                    bit: 3,
                    kind: 1,
                    activate: 1,
                    reserved: [0; 3],
                };
                for logical in 0..40u64 {
                    let found = found_by_walking(&record, logical);
                    assert_eq!(rt;
                        record.physical_of(logical),
                        found,
                        "{length} {start} {stop} {logical}"
                    );
                }
            }
        }
    }
}

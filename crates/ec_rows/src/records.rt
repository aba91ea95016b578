//! Verbs on the records and numbers of `ec_regs`.

use crate::answer::Answer;
use crate::words::{Fault, Words};
use bitflags::Flags;
use ec_regs::bits::copy_bits;
use ec_regs::registers::ANSWER_MAILBOX_STATUS;
use ec_regs::{
    AddressRange, AlBits, AlState, AlStatus, AlStatusCode, Fmmu, FmmuType, Plan, PlannedFmmu,
    PlannedSyncMan, SyncMan, SyncManControl, acknowledges, status_address,
};

/// How many bytes a run of bits lies in at most.
const MOST_BYTES: usize = 0x2000;

/// A number of 8 bits.
pub fn u8_of(words: &mut Words<'_>) -> u8 {
    words.number(0xFF) as u8
}

/// A number of 16 bits.
pub fn u16_of(words: &mut Words<'_>) -> u16 {
    words.number(0xFFFF) as u16
}

/// A number of 32 bits.
pub fn u32_of(words: &mut Words<'_>) -> u32 {
    words.number(0xFFFF_FFFF) as u32
}

/// A range: FIRST COUNT.
fn range_of(words: &mut Words<'_>) -> AddressRange {
    AddressRange {
        first: u16_of(words),
        count: u16_of(words),
    }
}

/// The record LOGICAL LENGTH START STOP PHYSICAL BIT TYPE ACTIVATE [RESERVED RESERVED RESERVED].
pub fn fmmu_of(words: &mut Words<'_>) -> Fmmu {
    Fmmu {
        logical: u32_of(words),
        length: u16_of(words),
        start: u8_of(words),
        stop: u8_of(words),
        physical: u16_of(words),
        bit: u8_of(words),
        kind: u8_of(words),
        activate: u8_of(words),
        reserved: [reserved(words), reserved(words), reserved(words)],
    }
}

/// A reserved byte, 0 where the line has none.
fn reserved(words: &mut Words<'_>) -> u8 {
    match words.next_number(0xFF) {
        Some(byte) => byte as u8,
        None => 0,
    }
}

/// The record START LENGTH CONTROL STATUS ACTIVATE PDI.
pub fn manager_of(words: &mut Words<'_>) -> SyncMan {
    SyncMan {
        start: u16_of(words),
        length: u16_of(words),
        control: u8_of(words),
        status: u8_of(words),
        activate: u8_of(words),
        pdi: u8_of(words),
    }
}

/// Answers the fields of an FMMU's record, as a line gives them, and its reserved bytes.
pub fn put_fmmu(answer: &mut Answer, fmmu: &Fmmu) {
    answer.hex(u64::from(fmmu.logical));
    answer.put(fmmu.length);
    answer.put(fmmu.start);
    answer.put(fmmu.stop);
    answer.hex(u64::from(fmmu.physical));
    answer.put(fmmu.bit);
    answer.put(fmmu.kind);
    answer.put(fmmu.activate);
    answer.bytes(&fmmu.reserved);
}

/// Answers the fields of a sync manager's record, as a line gives them.
fn put_manager(answer: &mut Answer, manager: &SyncMan) {
    answer.hex(u64::from(manager.start));
    answer.put(manager.length);
    answer.hex_byte(manager.control);
    answer.hex_byte(manager.status);
    answer.hex_byte(manager.activate);
    answer.hex_byte(manager.pdi);
}

/// Answers a plan: is something mapped, LOGICAL PHYSICAL LENGTH, the two masks, and the distance.
fn put_plan(answer: &mut Answer, plan: &Plan) {
    answer.put(plan.is_mapped);
    answer.hex(u64::from(plan.logical));
    answer.hex(u64::from(plan.physical));
    answer.put(plan.length);
    answer.hex_byte(plan.first_mask);
    answer.hex_byte(plan.last_mask);
    answer.put(plan.distance);
}

/// Answers a status: STATE, and whether an error stands.
pub fn put_status(answer: &mut Answer, status: AlStatus) {
    answer.name(status.state);
    answer.put(status.error);
}

/// Verbs on ranges, on runs of bits and on the addresses of status bytes.
pub fn tell_of_ranges(verb: &str, words: &mut Words<'_>, answer: &mut Answer) -> bool {
    match verb {
        "contains" => {
            let range = range_of(words);
            answer.put(range.contains(u32_of(words)));
        }
        "meets" => {
            let range = range_of(words);
            answer.put(range.meets(&range_of(words)));
        }
        "holds" => {
            let range = range_of(words);
            answer.put(range.holds(&range_of(words)));
        }
        "status_address" => answer.hex(u64::from(status_address(words.number(7) as usize))),
        "answer_mailbox_status" => answer.hex(u64::from(ANSWER_MAILBOX_STATUS)),
        "copy_bits" => tell_copied(words, answer),
        _ => return false,
    }
    true
}

/// `copy_bits AT SOURCE COUNT BYTES from BYTES`: the first bytes with bits copied into them.
fn tell_copied(words: &mut Words<'_>, answer: &mut Answer) {
    let at = words.number(0xFFFF) as usize;
    let source = words.number(0xFFFF) as usize;
    let count = words.number(0xFFFF) as usize;
    let mut into = words.bytes_to("from");
    let bytes = words.bytes_to("");
    let is_inside = at + count <= 8 * into.len().min(MOST_BYTES)
        && source + count <= 8 * bytes.len().min(MOST_BYTES);
    if is_inside {
        copy_bits(into.as_mut_slice(), at, bytes.as_slice(), source, count);
        answer.bytes(into.as_slice());
    } else {
        words.refuse(Fault::OutOfRange);
    }
}

/// Verbs on states, on the bytes of AL control and AL status, and on flags.
pub fn tell_of_states(verb: &str, words: &mut Words<'_>, answer: &mut Answer) -> bool {
    match verb {
        "state" => match AlState::from_code(u8_of(words)) {
            Some(state) => answer.name(state),
            None => answer.put("none"),
        },
        "state_code" => answer.put(words.state().code()),
        "acknowledging" => answer.hex_byte(words.state().acknowledging_request()),
        "acknowledges" => answer.put(acknowledges(u8_of(words))),
        "status_byte" => {
            let state = words.state();
            let error = words.yes();
            answer.hex_byte(AlStatus { state, error }.byte());
        }
        "status" => put_status(answer, AlStatus::of_byte(u8_of(words))),
        "al_status_code" => match AlStatusCode::from_code(u16_of(words)) {
            Some(reason) => {
                answer.hex(u64::from(reason.code()));
                answer.put(reason.name());
            }
            None => answer.put("none"),
        },
        "flag" => tell_flag(words, answer),
        _ => return false,
    }
    true
}

/// `flag NAME`: the bits of a flag.
fn tell_flag(words: &mut Words<'_>, answer: &mut Answer) {
    match words.word() {
        "AlBits::ERROR" => answer.hex_byte(AlBits::ERROR.bits()),
        "AlBits::ACKNOWLEDGE" => answer.hex_byte(AlBits::ACKNOWLEDGE.bits()),
        "FmmuType::READ" => answer.hex_byte(FmmuType::READ.bits()),
        "FmmuType::WRITE" => answer.hex_byte(FmmuType::WRITE.bits()),
        "SyncManControl::MAILBOX" => answer.hex_byte(SyncManControl::MAILBOX.bits()),
        "SyncManControl::WRITE" => answer.hex_byte(SyncManControl::WRITE.bits()),
        _ => words.refuse(Fault::BadName),
    }
}

/// Verbs on the last FMMU.
pub fn tell_of_fmmu(verb: &str, fmmu: &Fmmu, words: &mut Words<'_>, answer: &mut Answer) -> bool {
    match verb {
        "fmmu_bytes" => answer.bytes(&fmmu.write()),
        "types" => {
            answer.put(fmmu.reads());
            answer.put(fmmu.writes());
        }
        "is_switched_on" => answer.put(fmmu.is_switched_on()),
        "mapped_bits" => answer.put(fmmu.mapped_bits()),
        "first_bits" => {
            answer.put(fmmu.first_logical());
            answer.put(fmmu.first_physical());
        }
        "physical_of" => answer.number(fmmu.physical_of(words.number(u64::MAX))),
        "logical_of" => answer.number(fmmu.logical_of(u32_of(words))),
        "plan" => put_plan(answer, &fmmu.plan()),
        "masks" => {
            let plan = fmmu.plan();
            answer.hex_byte(plan.first_mask);
            answer.hex_byte(plan.last_mask);
        }
        "distance" => answer.put(fmmu.plan().distance),
        _ => return false,
    }
    true
}

/// Verbs on the last FMMU as it is planned.
pub fn tell_of_planned(verb: &str, planned: &PlannedFmmu, answer: &mut Answer) -> bool {
    match verb {
        "planned_fmmu" => put_fmmu(answer, &planned.fmmu()),
        "planned_plan" => put_plan(answer, &planned.plan()),
        "planned_bits" => answer.put(planned.mapped_bits()),
        "planned_types" => {
            answer.put(planned.reads());
            answer.put(planned.writes());
        }
        "planned_first" => {
            answer.put(planned.first_logical());
            answer.put(planned.first_physical());
        }
        _ => return false,
    }
    true
}

/// Verbs on the last sync manager.
pub fn tell_of_manager(verb: &str, manager: &SyncMan, answer: &mut Answer) -> bool {
    let planned = PlannedSyncMan::new(*manager);
    match verb {
        "sm_bytes" => answer.bytes(&manager.write()),
        "is_active" => answer.put(manager.is_active()),
        "planned_sm" => put_manager(answer, &planned.manager()),
        "keeps_off" => {
            answer.put(planned.is_active());
            answer.put(planned.keeps_reads_off());
            answer.put(planned.keeps_writes_off());
            answer.put(planned.guards_outputs());
        }
        _ => return false,
    }
    true
}

/// Verbs on the bytes of records.
pub fn tell_of_bytes(verb: &str, words: &mut Words<'_>, answer: &mut Answer) -> bool {
    match verb {
        "fmmu_of" => {
            let mut record = [0; 16];
            fill(&mut record, words);
            put_fmmu(answer, &Fmmu::read(&record));
        }
        "sm_of" => {
            let mut record = [0; 8];
            fill(&mut record, words);
            put_manager(answer, &SyncMan::read(&record));
        }
        _ => return false,
    }
    true
}

/// Takes as many bytes as a record has.
pub fn fill(record: &mut [u8], words: &mut Words<'_>) {
    let bytes = words.bytes_to("");
    if bytes.len() == record.len() {
        record.copy_from_slice(bytes.as_slice());
    } else {
        words.refuse(Fault::TooFewWords);
    }
}

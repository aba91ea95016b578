//! Verbs on a controller: its memory and records, its application's side, and passes of frames.

use crate::answer::Answer;
use crate::records::{put_fmmu, put_status, u8_of, u16_of, u32_of};
use crate::words::{Fault, Words};
use ec_esc::Controller;
use ec_regs::registers::{MEMORY_SIZE, PROCESS_MEMORY};
use ec_regs::{AlStatus, Information};
use ec_wire::address_of;

/// Verbs that read a controller.
pub fn tell_of_controller(
    verb: &str,
    controller: &Controller,
    words: &mut Words<'_>,
    answer: &mut Answer,
) -> bool {
    match verb {
        "station" => answer.hex(u64::from(controller.station())),
        "byte" => answer.byte(controller.byte(words.number(0x2FFF) as u16)),
        "memory" => tell_memory(controller, words, answer),
        "shown_byte" => tell_shown_byte(controller, words, answer),
        "shown" => tell_shown(controller, words, answer),
        "fmmu_at" => put_fmmu(answer, &controller.fmmu(words.number(7) as usize)),
        "has_sii" => answer.put(controller.has_sii()),
        "sm_is_active" => answer.put(controller.syncman(words.number(7) as usize).is_active()),
        "al" => {
            let (status, code) = controller.al();
            put_status(answer, status);
            answer.hex(u64::from(code));
        }
        "lost_links" => answer.bytes(&controller.lost_links()),
        "outputs" => match controller.outputs(words.number(7) as usize) {
            Some(bytes) => answer.bytes(bytes),
            None => answer.put("none"),
        },
        "gain" => {
            let command = words.command();
            let address = u32_of(words);
            answer.put(controller.gain(command, address, u16_of(words)));
        }
        "gain_of_range" => {
            let command = words.command();
            let address = address_of(u16_of(words), u16_of(words));
            answer.put(controller.gain(command, address, u16_of(words)));
        }
        _ => return false,
    }
    true
}

/// `memory ADDRESS COUNT`: bytes of the memory.
fn tell_memory(controller: &Controller, words: &mut Words<'_>, answer: &mut Answer) {
    let address = u16_of(words);
    let count = u16_of(words);
    if u32::from(address) + u32::from(count) <= u32::from(MEMORY_SIZE) {
        answer.bytes(controller.bytes(address, count));
    } else {
        words.refuse(Fault::OutOfRange);
    }
}

/// `shown_byte ADDRESS`: a byte that the application is shown.
fn tell_shown_byte(controller: &Controller, words: &mut Words<'_>, answer: &mut Answer) {
    let address = words.number(0x2FFF) as u16;
    if PROCESS_MEMORY <= address {
        answer.byte(controller.shown(address));
    } else {
        words.refuse(Fault::OutOfRange);
    }
}

/// `shown ADDRESS COUNT`: bytes that the application is shown.
fn tell_shown(controller: &Controller, words: &mut Words<'_>, answer: &mut Answer) {
    let address = u16_of(words);
    let count = u16_of(words);
    let is_inside = u32::from(address) + u32::from(count) <= u32::from(MEMORY_SIZE);
    if PROCESS_MEMORY <= address && is_inside {
        answer.bytes(controller.shown_bytes(address, count));
    } else {
        words.refuse(Fault::OutOfRange);
    }
}

/// Verbs that change a controller.
pub fn act_on_controller(
    verb: &str,
    controller: &mut Controller,
    words: &mut Words<'_>,
    answer: &mut Answer,
) -> bool {
    match verb {
        "load" => load(controller, words),
        "ip_core" => controller.set_information(&Information::ip_core()),
        "information" => controller.set_information(&information_of(words)),
        "set_dl_status" => controller.set_dl_status(u16_of(words)),
        "set_al" => {
            let state = words.state();
            let error = words.yes();
            controller.set_al(AlStatus { state, error }, u16_of(words));
        }
        "take_control" => match controller.take_control() {
            Some(control) => answer.hex(u64::from(control)),
            None => answer.put("none"),
        },
        "put_inputs" => {
            let number = words.number(7) as usize;
            match controller.put_inputs(number, words.bytes_to("").as_slice()) {
                Ok(()) => answer.put("ok"),
                Err(fault) => answer.name(fault),
            }
        }
        "put_mail" => {
            let number = words.number(7) as usize;
            match controller.put_mail(number, words.bytes_to("").as_slice()) {
                Ok(()) => answer.put("ok"),
                Err(fault) => answer.name(fault),
            }
        }
        "take_mail" => match controller.take_mail(words.number(7) as usize) {
            Ok(mail) => answer.bytes(mail.as_slice()),
            Err(fault) => answer.name(fault),
        },
        "repeat_mail" => match controller.repeat_mail(words.number(7) as usize) {
            Ok(()) => answer.put("ok"),
            Err(fault) => answer.name(fault),
        },
        "set_lost_links" => controller.set_lost_links(&[u8_of(words), u8_of(words)]),
        _ => return false,
    }
    true
}

/// KIND REVISION BUILD FMMUS MANAGERS MEMORY PORTS FEATURES.
fn information_of(words: &mut Words<'_>) -> Information {
    Information {
        kind: u8_of(words),
        revision: u8_of(words),
        build: u16_of(words),
        fmmus: u8_of(words),
        sync_managers: u8_of(words),
        memory: u8_of(words),
        ports: u8_of(words),
        features: u16_of(words),
    }
}

/// `load ADDRESS BYTES`: bytes into the process memory, and shown.
fn load(controller: &mut Controller, words: &mut Words<'_>) {
    let address = u16_of(words);
    let bytes = words.bytes_to("");
    let is_inside = usize::from(address) + bytes.len() <= usize::from(MEMORY_SIZE);
    if bytes.is_empty() || (PROCESS_MEMORY <= address && is_inside) {
        controller.load(address, bytes.as_slice());
    } else {
        words.refuse(Fault::OutOfRange);
    }
}

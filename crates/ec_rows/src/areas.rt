//! Verbs on what the master reaches through the FMMUs of a controller: `ec_areas` over its memory.

ghost use Rattle.std.specs.Prelude.{◌≡◌, length};
ghost use Rattle.ec_regs.specs.declared.registers.TheConstants.{MEMORY_SIZE};
ghost use Rattle.ec_regs.specs.Bits.{AreBytes};

use crate::answer::Answer;
use crate::records::u32_of;
use crate::words::{Fault, Words};
use ec_areas::{
    fmmus_of, read_mapped, reads_some, sync_managers_of, write_mapped, writes_outputs, writes_some,
};
use ec_esc::Controller;
use ec_regs::Memory;
use ec_regs::registers::MEMORY_SIZE;

/// Verbs that change nothing.
pub fn tell_of_areas(
    verb: &str,
    controller: &Controller,
    words: &mut Words<'_>,
    answer: &mut Answer,
) -> bool {
    match verb {
        "mapped_read" => tell_read(controller, words, answer),
        "mapped_write" => tell_written(controller, words, answer),
        "reads_some" => {
            let memory = controller.bytes(0, MEMORY_SIZE);
            let address = u32_of(words);
            let count = words.number(0xFFFF) as usize;
            let served = reads_some(&sync_managers_of(memory), &fmmus_of(memory), address, count);
            answer.put(served);
        }
        "writes_some" => {
            let memory = controller.bytes(0, MEMORY_SIZE);
            let address = u32_of(words);
            let count = words.number(0xFFFF) as usize;
            let served = writes_some(&sync_managers_of(memory), &fmmus_of(memory), address, count);
            answer.put(served);
        }
        "writes_outputs" => tell_outputs(controller, words, answer),
        _ => return false,
    }
    true
}

/// `mapped_read ADDRESS BYTES`: is a bit served, and the bytes as they are read.
fn tell_read(controller: &Controller, words: &mut Words<'_>, answer: &mut Answer) {
    let memory = controller.bytes(0, MEMORY_SIZE);
    let address = u32_of(words);
    let mut data = words.bytes_to("");
    let served = read_mapped(
        &sync_managers_of(memory),
        &fmmus_of(memory),
        memory,
        address,
        data.as_mut_slice(),
    );
    answer.put(served);
    answer.bytes(data.as_slice());
}

/// `mapped_write ADDRESS BYTES at PLACE`: is a bit served, and the byte of the memory at the place.
fn tell_written(controller: &Controller, words: &mut Words<'_>, answer: &mut Answer) {
    let address = u32_of(words);
    let data = words.bytes_to("at");
    let place = words.number(0x2FFF) as u16;
    match Memory::new(words.alloc()) {
        Ok(mut memory) => {
            let held = controller.bytes(0, MEMORY_SIZE);
            memory.load(0, held);
            answer.put(write(held, &mut memory, address, data.as_slice()));
            answer.byte(memory.byte(place));
        }
        Err(_) => words.refuse(Fault::NoMemory),
    }
}

/// Writes through the FMMUs of a memory into a copy of it.
fn write(held: &[u8], memory: &mut Memory, address: u32, payload: &[u8]) -> bool
    requires { length held.now ≡ MEMORY_SIZE }
{
    let _size = hold_bytes(memory);
    write_mapped(
        &sync_managers_of(held),
        &fmmus_of(held),
        memory,
        address,
        payload,
    )
}

/// How many bytes a memory holds; each of them is one.
fn hold_bytes(memory: &Memory) -> usize
    ensures { AreBytes memory.now }
{
    let bytes = memory.bytes();
    bytes.len()
}

/// `writes_outputs ADDRESS COUNT`: which sync managers have their outputs shown by such a write.
fn tell_outputs(controller: &Controller, words: &mut Words<'_>, answer: &mut Answer) {
    let memory = controller.bytes(0, MEMORY_SIZE);
    let address = u32_of(words);
    let count = words.number(0xFFFF) as usize;
    let managers = sync_managers_of(memory);
    let fmmus = fmmus_of(memory);
    for area in managers.iter() {
        answer.put(writes_outputs(&managers, &fmmus, address, count, area));
    }
}

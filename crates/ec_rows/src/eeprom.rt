//! Verbs on an EEPROM: what it tells, its bytes, and what it answers to the registers of a slave.

use crate::answer::Answer;
use crate::records::{u8_of, u16_of, u32_of};
use crate::words::{Fault, Words};
use ec_app::Slave;
use ec_applications::dl_status;
use ec_esc::Controller;
use ec_sii::{Eeprom, Identity, Mailboxes, Pdo, PdoEntry, SiiContents, SiiSyncManager, crc8};
use std::alloc::Global;

/// The most entries that a line gives a PDO.
const MOST_ENTRIES: usize = 300;

/// What an EEPROM is to tell, and one with contents.
#[derive(Drop)]
pub struct Chip {
    tells: SiiContents,
    eeprom: Eeprom,
}

impl Chip {
    /// An EEPROM that is empty, and one that is to tell nothing.
    pub fn new(alloc: Global) -> Chip {
        Chip {
            tells: SiiContents {
                alias: 0,
                identity: Identity {
                    vendor: 0,
                    product: 0,
                    revision: 0,
                    serial: 0,
                },
                mailboxes: Mailboxes {
                    out_start: 0,
                    out_length: 0,
                    in_start: 0,
                    in_length: 0,
                    protocols: 0,
                },
                name: Vec::new(alloc),
                coe_details: 0,
                fmmus: Vec::new(alloc),
                sync_managers: Vec::new(alloc),
                inputs: Vec::new(alloc),
                outputs: Vec::new(alloc),
            },
            eeprom: Eeprom::new(Vec::new(alloc)),
        }
    }

    /// Verbs that change nothing.
    pub fn tell(&self, verb: &str, words: &mut Words<'_>, answer: &mut Answer) -> bool {
        match verb {
            "crc8" => answer.hex_byte(crc8(words.bytes_to("").as_slice())),
            "image" => match self.tells.image(words.alloc()) {
                Ok(bytes) => answer.bytes(bytes.as_slice()),
                Err(fault) => answer.name(fault),
            },
            "stored" => answer.bytes(self.eeprom.bytes()),
            "dl_status" => {
                let before = words.yes();
                let behind = words.yes();
                answer.hex(u64::from(dl_status(before, behind)));
            }
            _ => return false,
        }
        true
    }

    /// `sii BYTES`, the contents; `burn`, the contents are those of the image; and what the image is to tell.
    pub fn set(&mut self, verb: &str, words: &mut Words<'_>) -> bool {
        match verb {
            "sii" => self.eeprom = Eeprom::new(words.bytes_to("")),
            "burn" => self.burn(words),
            "alias" => self.tells.alias = u16_of(words),
            "identity" => self.tells.identity = identity_of(words),
            "mailboxes" => self.tells.mailboxes = mailboxes_of(words),
            "called" => self.tells.name = words.bytes_to(""),
            "coe_details" => self.tells.coe_details = u8_of(words),
            "fmmus" => self.tells.fmmus = words.bytes_to(""),
            _ => return self.push(verb, words),
        }
        true
    }

    /// `sm_use START LENGTH CONTROL ENABLE KIND`, `pdo_in` and `pdo_out` `INDEX SM` with entries of four
    /// numbers, INDEX SUB TYPE BITS: one more.
    fn push(&mut self, verb: &str, words: &mut Words<'_>) -> bool {
        let is_pushed = match verb {
            "sm_use" => self.tells.sync_managers.push(manager_of(words)).is_ok(),
            "pdo_in" => self.tells.inputs.push(pdo_of(words)).is_ok(),
            "pdo_out" => self.tells.outputs.push(pdo_of(words)).is_ok(),
            _ => return false,
        };
        if !is_pushed {
            words.refuse(Fault::NoMemory);
        }
        true
    }

    /// The contents are those of the image.
    fn burn(&mut self, words: &mut Words<'_>) {
        match self.tells.image(words.alloc()) {
            Ok(bytes) => self.eeprom = Eeprom::new(bytes),
            Err(_) => words.refuse(Fault::NoMemory),
        }
    }

    /// Answers what the registers of a slave ask.
    pub fn serve(&mut self, slave: &mut Slave) {
        serve_controller(slave.controller_mut(), &mut self.eeprom);
    }
}

fn serve_controller(controller: &mut Controller, eeprom: &mut Eeprom) {
    eeprom.serve(controller);
}

/// VENDOR PRODUCT REVISION SERIAL.
fn identity_of(words: &mut Words<'_>) -> Identity {
    Identity {
        vendor: u32_of(words),
        product: u32_of(words),
        revision: u32_of(words),
        serial: u32_of(words),
    }
}

/// START and LENGTH of the mailbox that the master writes, and of the other one, and PROTOCOLS.
fn mailboxes_of(words: &mut Words<'_>) -> Mailboxes {
    Mailboxes {
        out_start: u16_of(words),
        out_length: u16_of(words),
        in_start: u16_of(words),
        in_length: u16_of(words),
        protocols: u16_of(words),
    }
}

/// START LENGTH CONTROL ENABLE KIND.
fn manager_of(words: &mut Words<'_>) -> SiiSyncManager {
    SiiSyncManager {
        start: u16_of(words),
        length: u16_of(words),
        control: u8_of(words),
        enable: u8_of(words),
        kind: u8_of(words),
    }
}

/// INDEX SM, and entries of four numbers.
fn pdo_of(words: &mut Words<'_>) -> Pdo {
    let index = u16_of(words);
    let sync_manager = u8_of(words);
    let mut entries = Vec::new(words.alloc());
    for _ in 0..MOST_ENTRIES {
        match words.next_number(0xFFFF) {
            Some(index) => push_entry(&mut entries, index as u16, words),
            None => break,
        }
    }
    Pdo {
        index,
        sync_manager,
        entries,
    }
}

/// SUB TYPE BITS: one entry more, of the object with the index.
fn push_entry(entries: &mut Vec<PdoEntry>, index: u16, words: &mut Words<'_>) {
    let entry = PdoEntry {
        index,
        subindex: u8_of(words),
        kind: u8_of(words),
        bits: u8_of(words),
    };
    if entries.push(entry).is_err() {
        words.refuse(Fault::NoMemory);
    }
}

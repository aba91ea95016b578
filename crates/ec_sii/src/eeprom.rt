//! The EEPROM of a slave and what it answers (ETG.1000.4, slave information interface).

ghost use Rattle.std.specs.Prelude.{◌≡◌, ◌≤◌, ◌+◌, ◌^◌, ◌<◌, length};
ghost use Rattle.ec_sii.specs.Eeprom.{byte_at, eight_at, sii_answer, registers_after, contents_after};
ghost use Rattle.ec_sii.specs.Eeprom.{place, done};
ghost use Rattle.ec_sii.specs.declared.eeprom.SiiAnswer.TheVariants.{Stored};
ghost use Rattle.ec_sii.specs.Served.{served, contents_served};

use crate::registers::{DATA, SiiRegisters};
use ec_esc::Controller;
use std::marker::Model;

/// The commands, in bits 0 to 2 of the high byte of control and status.
const READ: u8 = 1;

const WRITE: u8 = 2;

const RELOAD: u8 = 4;

/// A command is what of that byte is below this.
const COMMANDS: u8 = 8;

/// Its highest bit says that a command runs; none does behind an answer.
const BUSY: u8 = 128;

/// The low byte of control and status behind an answer: a read gives eight bytes, and no write is let pass.
const READY: u8 = 0x40;

/// The command is none, or its word is none of the contents.
const COMMAND_ERROR: u8 = 0x20;

/// No write is let pass.
const ENABLE_ERROR: u8 = 0x40;

/// What the EEPROM answers to a command.
#[derive(Clone, Copy, PartialEq, Eq, Debug)]
pub enum SiiAnswer {
    /// There is no command.
    Idle,
    /// The eight bytes from the word on.
    Given,
    /// It is read anew, which changes nothing.
    Reloaded,
    /// The word has the first two bytes of data.
    Stored,
    /// Nothing is done: there is no such command, or a word to be written is none of the contents.
    Unserved,
    /// Nothing is done: a write is asked for, and none is let pass.
    NotEnabled,
}

/// The contents of an EEPROM, byte by byte; a word of the standard is two of them, the low byte first.
/// Contracts see the list of bytes.
#[derive(Drop)]
pub struct Eeprom {
    contents: Vec<u8>,
}

impl Model for Eeprom {
    ghost use Rattle.std.specs.Prelude.{ℕ, List};

    ghost Value = { List ℕ };

    ghost view = { λ e. e.contents.items };
}

impl Eeprom {
    /// An EEPROM with these contents.
    pub fn new(contents: Vec<u8>) -> Eeprom
        ensures { result ≡ contents.items }
    {
        Eeprom { contents }
    }

    /// The contents.
    pub fn bytes(&self) -> &[u8]
        ensures { result.now ≡ self.now }
    {
        self.contents.as_slice()
    }

    /// The byte at a place, and 0xFF behind the end.
    pub fn byte(&self, at: u64) -> u8
        ensures { result ≡ byte_at self.now at }
    {
        if at < self.contents.len() as u64 {
            self.contents[at as usize]
        } else {
            0xFF
        }
    }

    /// The eight bytes from a place on.
    fn eight(&self, at: u64) -> [u8; DATA]
        requires { at < 2 ^ 40 }
        ensures { result ≡ eight_at self.now at }
    {
        [
            self.byte(at),
            self.byte(at + 1),
            self.byte(at + 2),
            self.byte(at + 3),
            self.byte(at + 4),
            self.byte(at + 5),
            self.byte(at + 6),
            self.byte(at + 7),
        ]
    }

    /// What the EEPROM answers to the command in the registers.
    #[tactic(auto, unfolding(crate::specs::Eeprom::sii_answer))]
    pub fn answer(&self, registers: &SiiRegisters) -> SiiAnswer
        ensures value { result ≡ sii_answer self.now registers.now }
        ensures room { result ≡ Stored → place registers.now + 2 ≤ length self.now }
    {
        let asked = registers.command % COMMANDS;
        if asked == 0 {
            SiiAnswer::Idle
        } else if asked == READ {
            SiiAnswer::Given
        } else if asked == RELOAD {
            SiiAnswer::Reloaded
        } else if asked != WRITE {
            SiiAnswer::Unserved
        } else if registers.control % 2 != 1 {
            SiiAnswer::NotEnabled
        } else if (self.contents.len() as u64) < first_of(registers) + 2 {
            SiiAnswer::Unserved
        } else {
            SiiAnswer::Stored
        }
    }

    /// The registers behind an answer: no command stands, none runs, and the errors are those of this answer.
    fn registers_after(&self, registers: &SiiRegisters, answer: SiiAnswer) -> SiiRegisters
        ensures { result ≡ registers_after self.now registers.now answer }
    {
        match answer {
            SiiAnswer::Idle => done(registers, registers.command % BUSY),
            SiiAnswer::Given => SiiRegisters {
                words: self.eight(first_of(registers)),
                ..done(registers, 0)
            },
            SiiAnswer::Reloaded | SiiAnswer::Stored => done(registers, 0),
            SiiAnswer::Unserved => done(registers, COMMAND_ERROR),
            SiiAnswer::NotEnabled => done(registers, ENABLE_ERROR),
        }
    }

    /// Answers the command in the registers of a controller that has a slave information interface, and
    /// leaves one that has none. It never fails and takes no memory.
    pub fn serve(&mut self, controller: &mut Controller)
        ensures controller { controller.new ≡ served self.old controller.old }
        ensures contents { self.new ≡ contents_served self.old controller.old }
    {
        if !controller.has_sii() {
            return;
        }
        let registers = SiiRegisters::read(&controller.sii());
        let answer = self.answer(&registers);
        let after = self.registers_after(&registers, answer).write();
        controller.set_sii(&after);
        self.keep(&registers, answer);
    }

    /// Puts the first two bytes of data at the word, where that is the answer; else all stays.
    fn keep(&mut self, registers: &SiiRegisters, answer: SiiAnswer)
        requires { answer ≡ Stored → place registers.now + 2 ≤ length self.old }
        ensures { self.new ≡ contents_after self.old registers.now answer }
    {
        match answer {
            SiiAnswer::Stored => self.store(registers),
            SiiAnswer::Idle
            | SiiAnswer::Given
            | SiiAnswer::Reloaded
            | SiiAnswer::Unserved
            | SiiAnswer::NotEnabled => {}
        }
    }

    /// Puts the first two bytes of data at the word.
    fn store(&mut self, registers: &SiiRegisters)
        requires { place registers.now + 2 ≤ length self.old }
        ensures { self.new ≡ contents_after self.old registers.now Stored }
    {
        let at = first_of(registers) as usize;
        self.contents[at] = registers.words[0];
        self.contents[at + 1] = registers.words[1];
    }
}

/// The first byte of the word that the registers name.
fn first_of(registers: &SiiRegisters) -> u64
    ensures value { result ≡ place registers.now }
    ensures bound { result < 2 ^ 40 }
{
    2 * u64::from(registers.address)
}

/// The registers with no command and these errors.
fn done(registers: &SiiRegisters, errors: u8) -> SiiRegisters
    ensures { result ≡ done registers.now errors }
{
    SiiRegisters {
        pdi: 0,
        control: READY,
        command: errors,
        ..*registers
    }
}

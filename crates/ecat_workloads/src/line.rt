//! Scenes of lines as machines have them, made by chance.

use crate::chance::Chance;
use std::alloc::{AllocError, Global};
use std::fmt::Write;

/// Where the logical bytes begin.
const LOGICAL: u32 = 0x0001_0000;

/// How many bytes an item exchanges.
const EXCHANGED: u32 = 1024;

/// Where the bits of outputs begin, of lines that map bits.
const LOGICAL_OUTPUTS: u32 = 0x0002_0000;

/// How many bytes an item reads or writes, of lines that map bits.
const BIT_BYTES: u32 = 8;

/// A line in the making: its scene, and the logical byte, or the logical bits of inputs and outputs, where
/// the next slave is mapped.
#[derive(Drop)]
pub(crate) struct Line {
    text: String,
    slaves: u32,
    end: u32,
    input_bits: u32,
    output_bits: u32,
}

impl Line {
    /// A line without slaves.
    pub(crate) fn new(alloc: Global) -> Line {
        Line {
            text: String::new(alloc),
            slaves: 0,
            end: LOGICAL,
            input_bits: 0,
            output_bits: 0,
        }
    }

    /// The scene.
    pub(crate) fn text(&self) -> &[u8] {
        self.text.as_str().as_bytes()
    }

    /// A line of so many slaves with whole bytes of outputs and inputs, with mailboxes or without, and the
    /// exchanges of all of them.
    pub(crate) fn of_bytes(
        alloc: Global,
        chance: &mut Chance,
        slaves: u32,
        mailboxes: bool,
    ) -> Option<Line> {
        let mut line = Line::new(alloc);
        for _ in 0..slaves {
            line.begin_slave(mailboxes).ok()?;
            line.map_bytes(chance).ok()?;
        }
        line.exchange(chance).ok()?;
        Some(line)
    }

    /// A line of so many slaves with bits at odd places, and the items that read and write all of them.
    pub(crate) fn of_bits(alloc: Global, chance: &mut Chance, slaves: u32) -> Option<Line> {
        let mut line = Line::new(alloc);
        for _ in 0..slaves {
            line.begin_slave(false).ok()?;
            line.map_bits(chance).ok()?;
        }
        line.read_and_write(chance).ok()?;
        Some(line)
    }

    /// Begins a slave.
    fn begin_slave(&mut self, mailboxes: bool) -> Result<(), AllocError> {
        let station = self.slaves.wrapping_add(0x1001);
        self.slaves = self.slaves.wrapping_add(1);
        write!(self.text, "slave {station}\n")?;
        if mailboxes {
            self.text
                .push_str("sm 0 6144 64 mailbox-write\nsm 1 6400 64 mailbox-read\n")?;
            self.text
                .push_str("object 32768 1 2 rw 7\nstartup 32768 1 e803\n")
        } else {
            self.text.push_str("simple\n")
        }
    }

    /// Gives the slave areas of whole bytes: those of a digital or an analogue module, or of a drive.
    fn map_bytes(&mut self, chance: &mut Chance) -> Result<(), AllocError> {
        let (outputs, inputs) = match chance.below(8) {
            0 | 1 => (0, 1),
            2 | 3 => (1, 0),
            4 => (0, 8),
            5 => (8, 0),
            6 => (10, 14),
            _ => (1, 1),
        };
        let longest = outputs.max(inputs);
        if self.end % EXCHANGED > EXCHANGED - longest {
            self.end = (self.end / EXCHANGED)
                .wrapping_add(1)
                .wrapping_mul(EXCHANGED);
        }
        let at = self.end;
        self.end = at.wrapping_add(longest);
        write!(self.text, "areas {outputs} {inputs}\n")?;
        if outputs > 0 {
            write!(self.text, "sm 2 4096 {outputs} write\n")?;
            write!(self.text, "fmmu 0 {at} {outputs} 0 7 4096 0 write\n")?;
        }
        if inputs > 0 {
            write!(self.text, "sm 3 4352 {inputs} read\n")?;
            write!(self.text, "fmmu 1 {at} {inputs} 0 7 4352 0 read\nmem 4352 ")?;
            self.put_bytes(chance, inputs)?;
        }
        Ok(())
    }

    /// Gives the slave four bytes of outputs and four of inputs, of each of which a few bits are mapped.
    fn map_bits(&mut self, chance: &mut Chance) -> Result<(), AllocError> {
        self.text.push_str("areas 4 4\nsm 2 4096 4 write\nsm 3 4352 4 read\nmem 4352 ")?;
        self.put_bytes(chance, 4)?;
        for k in 0..4u32 {
            let bits = 1 + chance.below(4);
            let at = self.output_bits;
            self.output_bits = at.wrapping_add(bits);
            self.map(chance, LOGICAL_OUTPUTS, at, bits, k, "write")?;
            let at = self.input_bits;
            self.input_bits = at.wrapping_add(bits);
            self.map(chance, LOGICAL, at, bits, k.wrapping_add(4), "read")?;
        }
        Ok(())
    }

    /// Maps some bits of a byte by the FMMU with a number.
    fn map(
        &mut self,
        chance: &mut Chance,
        base: u32,
        at: u32,
        bits: u32,
        number: u32,
        kind: &str,
    ) -> Result<(), AllocError> {
        let last = at.wrapping_add(bits).wrapping_sub(1);
        let length = (last / 8).wrapping_sub(at / 8).wrapping_add(1);
        let first = base.wrapping_add(at / 8);
        let bit = chance.below(5);
        let area = if number < 4 { 4096 } else { 4352 };
        let physical = number % 4 + area;
        let (start, stop) = (at % 8, last % 8);
        write!(
            self.text,
            "fmmu {number} {first} {length} {start} {stop} {physical} {bit} {kind}\n"
        )
    }

    /// Exchanges all bytes that are mapped, and asks all slaves for their AL status.
    fn exchange(&mut self, chance: &mut Chance) -> Result<(), AllocError> {
        let bytes = self.end.saturating_sub(LOGICAL);
        for k in 0..bytes.div_ceil(EXCHANGED) {
            let done = EXCHANGED.wrapping_mul(k);
            let count = bytes.saturating_sub(done).min(EXCHANGED);
            write!(self.text, "lrw {} ", LOGICAL.wrapping_add(done))?;
            self.put_bytes(chance, count)?;
        }
        self.text.push_str("brd 304 0000\n")
    }

    /// Reads and writes all bits that are mapped, in a few bytes an item, and asks some slaves, and then all,
    /// for their AL status.
    fn read_and_write(&mut self, chance: &mut Chance) -> Result<(), AllocError> {
        self.ask(chance, "lrd", LOGICAL, self.input_bits)?;
        self.ask(chance, "lwr", LOGICAL_OUTPUTS, self.output_bits)?;
        let asked = self.slaves.min(6);
        for k in 0..asked {
            write!(self.text, "fprd {} 304 0000\n", k.wrapping_add(0x1001))?;
        }
        self.text.push_str("brd 304 0000\n")
    }

    /// Items of one kind for so many bits from a logical byte on.
    fn ask(
        &mut self,
        chance: &mut Chance,
        kind: &str,
        base: u32,
        bits: u32,
    ) -> Result<(), AllocError> {
        let bytes = bits / 8 + 1;
        let each = (bytes / 12 + 1).max(BIT_BYTES);
        for k in 0..bytes.div_ceil(each) {
            let done = each.wrapping_mul(k);
            let count = bytes.saturating_sub(done).min(each);
            write!(self.text, "{kind} {} ", base.wrapping_add(done))?;
            self.put_bytes(chance, count)?;
        }
        Ok(())
    }

    /// Puts some bytes, and ends the line.
    fn put_bytes(&mut self, chance: &mut Chance, count: u32) -> Result<(), AllocError> {
        for _ in 0..count {
            let digits = match chance.below(4) {
                0 => "00",
                1 => "5a",
                2 => "ff",
                _ => "37",
            };
            self.text.push_str(digits)?;
        }
        self.text.push_str("\n")
    }
}

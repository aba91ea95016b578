//! Captures that are listed and counted, made as they are read.

use crate::chance::Chance;
use crate::digest::Digest;
use crate::packets::{Model, models};
use ecat_list::{Asked, Form, Listed, OfTrips, list, tally};
use ecat_source::Counted;
use std::alloc::{AllocError, Global};
use std::io::{self, ErrorKind, Read};

/// How many packets there are to copy.
const MODELS: u32 = 64;

/// How many of them come by turns, as the frames of a cycle do; one in eight of all packets is another one.
const CYCLE: u64 = 8;

/// How many packets are made at a time.
const BATCH: u64 = 64;

/// When a capture begins, in seconds of the epoch.
const BEGINS: u64 = 1_700_000_000;

/// The head of a classic capture of Ethernet, with microseconds.
const CLASSIC: [u8; 24] = [
    0xd4, 0xc3, 0xb2, 0xa1, 2, 0, 4, 0, 0, 0, 0, 0, 0, 0, 0, 0, 0, 0, 4, 0, 1, 0, 0, 0,
];

/// A section and an interface of Ethernet, with microseconds, as pcapng has them.
const BLOCKS: [u8; 48] = [
    0x0a, 0x0d, 0x0d, 0x0a, 28, 0, 0, 0, 0x4d, 0x3c, 0x2b, 0x1a, 1, 0, 0, 0, 0xff, 0xff, 0xff,
    0xff, 0xff, 0xff, 0xff, 0xff, 28, 0, 0, 0, 1, 0, 0, 0, 20, 0, 0, 0, 1, 0, 0, 0, 0, 0, 4, 0, 20,
    0, 0, 0,
];

/// A capture of so many packets.
#[derive(Drop)]
struct Tape {
    chance: Chance,
    models: Vec<Model>,
    blocks: bool,
    left: u64,
    turn: u64,
    microseconds: u64,
    ahead: Vec<u8>,
    at: usize,
}

impl Tape {
    /// A capture of so many packets, classic or in blocks.
    fn new(alloc: Global, seed: u32, packets: u64, blocks: bool) -> Result<Tape, AllocError> {
        let mut chance = Chance::new(seed);
        let models = models(alloc, &mut chance, MODELS)?;
        let mut ahead = Vec::new(alloc);
        if blocks {
            ahead.extend_from_slice(&BLOCKS)?;
        } else {
            ahead.extend_from_slice(&CLASSIC)?;
        }
        Ok(Tape {
            chance,
            models,
            blocks,
            left: packets,
            turn: 0,
            microseconds: 0,
            ahead,
            at: 0,
        })
    }

    /// Makes some packets more.
    fn make(&mut self) -> Result<(), AllocError> {
        self.ahead.clear();
        self.at = 0;
        let count = self.left.min(BATCH);
        for _ in 0..count {
            self.put()?;
        }
        self.left = self.left.saturating_sub(count);
        Ok(())
    }

    /// Puts a packet, with a time, an index and data of its own.
    fn put(&mut self) -> Result<(), AllocError> {
        let number = self.chance.draw();
        let place = if number % CYCLE == 0 {
            (number >> 40) % u64::from(MODELS)
        } else {
            self.turn = self.turn.wrapping_add(1);
            self.turn % CYCLE
        };
        let Some(model) = self.models.get(place as usize) else {
            return Ok(());
        };
        self.microseconds = self.microseconds.wrapping_add(100 + (number >> 8) % 300);
        let caught = model.bytes.len().min(65535) as u32;
        let length = model.length.min(65535) as u32;
        let time = BEGINS
            .wrapping_mul(1_000_000)
            .wrapping_add(self.microseconds);
        if self.blocks {
            put_words(&mut self.ahead, &[6, size_of_block(caught), 0])?;
            put_words(
                &mut self.ahead,
                &[(time >> 32) as u32, (time % (1 << 32)) as u32],
            )?;
        } else {
            let seconds = (time / 1_000_000 % (1 << 32)) as u32;
            put_words(&mut self.ahead, &[seconds, (time % 1_000_000) as u32])?;
        }
        put_words(&mut self.ahead, &[caught, length])?;
        let from = self.ahead.len();
        self.ahead.extend_from_slice(model.bytes.as_slice())?;
        let frame = from.saturating_add(model.frame);
        let index = self.turn / CYCLE % 16;
        change(&mut self.ahead, frame.saturating_add(3), &[index as u8]);
        change(
            &mut self.ahead,
            frame.saturating_add(12),
            &number.to_le_bytes(),
        );
        if self.blocks {
            for _ in 0..caught.wrapping_neg() % 4 {
                self.ahead.push(0)?;
            }
            put_words(&mut self.ahead, &[size_of_block(caught)])?;
        }
        Ok(())
    }
}

/// How long the block of a packet is.
fn size_of_block(caught: u32) -> u32 {
    caught.wrapping_add(35) / 4 * 4
}

/// Puts numbers, the lowest byte first.
fn put_words(bytes: &mut Vec<u8>, words: &[u32]) -> Result<(), AllocError> {
    for word in words {
        bytes.extend_from_slice(&word.to_le_bytes())?;
    }
    Ok(())
}

/// Changes bytes, as far as there are so many.
fn change(bytes: &mut Vec<u8>, at: usize, by: &[u8]) {
    if at <= bytes.len() && by.len() <= bytes.len() - at {
        bytes[at..at + by.len()].copy_from_slice(by);
    }
}

impl Read for Tape {
    fn read(&mut self, into: &mut [u8]) -> io::Result<usize> {
        if self.at >= self.ahead.len() && self.make().is_err() {
            return Err(io::Error::from(ErrorKind::OutOfMemory));
        }
        let from = self.at.min(self.ahead.len());
        let count = into.len().min(self.ahead.len() - from);
        into[..count].copy_from_slice(&self.ahead[from..from + count]);
        self.at = from + count;
        Ok(count)
    }
}

/// The digest of `ecat list` of a classic capture of so many packets.
pub(crate) fn listed(alloc: Global, seed: u32, packets: u64) -> Option<u64> {
    let tape = Tape::new(alloc, seed, packets, false).ok()?;
    let asked = Asked {
        form: Form::Lines,
        live: false,
        progress: false,
    };
    let mut out = Digest::new();
    let mut err = Digest::new();
    match list(alloc, Counted::new(tape), asked, &mut out, &mut err) {
        Listed::Whole => Some(out.value()),
        _ => None,
    }
}

/// The digest of `ecat list --stats` of a capture of so many packets in blocks, which is made twice.
pub(crate) fn tallied(alloc: Global, seed: u32, packets: u64) -> Option<u64> {
    let first = Tape::new(alloc, seed, packets, true).ok()?;
    let again = Tape::new(alloc, seed, packets, true).ok()?;
    let asked = OfTrips {
        each: false,
        by_index: false,
        json: false,
        progress: false,
    };
    let mut out = Digest::new();
    let mut err = Digest::new();
    let listed = tally(
        alloc,
        Counted::new(first),
        Counted::new(again),
        asked,
        &mut out,
        &mut err,
    );
    match listed {
        Listed::Whole => Some(out.value()),
        _ => None,
    }
}

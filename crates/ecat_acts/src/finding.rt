//! `scan --scene FILE`: the line that a scan found, as a scene.

use ec_app::Value;
use ecat_master::Finder;
use ecat_told::{ENTRIES, Found, How, scene_of};
use std::alloc::{AllocError, Global};

/// What a scan found of the slaves, by their places.
#[derive(Drop)]
pub struct Finding {
    alloc: Global,
    line: Vec<Found>,
    /// Whether memory ran out for a slave.
    failed: bool,
}

impl Finding {
    /// Nothing is found yet.
    pub fn new(alloc: Global) -> Finding {
        Finding {
            alloc,
            line: Vec::new(alloc),
            failed: false,
        }
    }

    /// The text of the scene.
    pub fn scene(&self) -> Result<String, AllocError> {
        if self.failed {
            return Err(AllocError);
        }
        scene_of(self.alloc, self.line.as_slice())
    }

    /// What was found of the slave at a place; those before it that were not read are holes.
    fn at(&mut self, place: u16) -> Option<&mut Found> {
        let place = usize::from(place);
        for _slave in self.line.len()..=place {
            if self.line.push(Found::nothing()).is_err() {
                self.failed = true;
            }
        }
        self.line.get_mut(place)
    }
}

impl Finder for Finding {
    fn registers(&mut self, place: u16, address: u16, bytes: &[u8]) {
        if let Some(found) = self.at(place)
            && bytes.len() <= usize::from(u16::MAX)
        {
            found.slave.take(How::Read, address, bytes);
        }
    }

    fn identity(&mut self, place: u16, sub: u8, value: Value) {
        if let Some(found) = self.at(place)
            && sub != 0
            && usize::from(sub) <= ENTRIES
        {
            found.identity[usize::from(sub) - 1] = Some(value);
        }
    }
}

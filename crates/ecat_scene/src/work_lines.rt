//! The lines that say what is done with the slaves: links, frames, steps, items and weathers.

ghost use Rattle.std.specs.Prelude.{◌≡◌, map};
ghost use Rattle.ecat_scene.specs.Deeds.{addressed_item_line, Does, item_line, with_item};
ghost use Rattle.ecat_scene.specs.Scene.{scene_record};
ghost use Rattle.ecat_scene.specs.Words.{addressed_item_of, Gives, item_in, item_of};

use crate::fault::{LineFault, Stop};
use crate::numbers::{bytes, double_word, number, test_bytes, word};
use crate::reader::{NamedLink, Reader};
use crate::scene::{Action, MAX_ACTIONS, MAX_ITEMS, MAX_WEATHERS, SceneWeather};
use crate::words::text_of;
use ec_map::{Item, Kind};
use ec_wire::{Form, FrameBuf, address_of};
use std::alloc::Global;

/// What a weather line says of lost copies.
#[derive(Clone, Copy)]
struct Losses {
    /// Is the copy of port A lost?
    of_a: bool,
    /// Is the copy of port B lost?
    of_b: bool,
}

impl Reader {
    /// Keeps that the line names a link.
    fn name_link(&mut self, number: u64) -> Result<(), Stop> {
        let line = self.line;
        self.links.push(NamedLink { line, number })?;
        Ok(())
    }

    /// `link K down`
    pub(crate) fn link(&mut self, words: &[&[u8]]) -> Result<(), Stop> {
        let [link, down] = words else {
            return Err(Stop::Fault(LineFault::WrongCount));
        };
        let link = number(link)?;
        if *down != b"down".as_slice() {
            return Err(Stop::Fault(LineFault::BadNumber));
        }
        self.name_link(link)?;
        self.scene.links_down.push(link)?;
        Ok(())
    }

    /// Tests that another action has room.
    fn test_actions(&self) -> Result<(), LineFault> {
        if self.scene.actions.len() < MAX_ACTIONS {
            Ok(())
        } else {
            Err(LineFault::TooMany)
        }
    }

    /// `frame BYTES`
    pub(crate) fn frame(&mut self, words: &[&[u8]]) -> Result<(), Stop> {
        let [row] = words else {
            return Err(Stop::Fault(LineFault::WrongCount));
        };
        test_bytes(row)?;
        self.test_actions()?;
        let bytes = bytes(self.alloc, row)?;
        match FrameBuf::read(bytes.as_slice(), Form::Ethernet) {
            Ok(frame) => {
                self.scene.actions.push(Action::Frame(frame))?;
                Ok(())
            }
            Err(_) => Err(Stop::Fault(LineFault::BadFrame)),
        }
    }

    /// `step`
    pub(crate) fn step(&mut self, words: &[&[u8]]) -> Result<(), Stop> {
        if !words.is_empty() {
            return Err(Stop::Fault(LineFault::WrongCount));
        }
        self.test_actions()?;
        self.scene.actions.push(Action::Step)?;
        Ok(())
    }

    /// `lrd`, `lwr`, `lrw` or `brd`, with `ADDRESS BYTES`
    #[tactic(auto, unfolding(crate::specs::Deeds::item_line))]
    pub(crate) fn item(&mut self, kind: Kind, words: &[&[u8]]) -> Result<(), Stop>
        ensures links { self.new.links.items ≡ self.old.links.items }
        ensures done { Does result (scene_record self.new.scene)
            (item_line kind (map (λ word. word.now) words.now) (scene_record self.old.scene)) }
    {
        let [address, row] = words else {
            return Err(Stop::Fault(LineFault::WrongCount));
        };
        let item = item_of(self.alloc, kind, address, row)?;
        self.add_item(item)
    }

    /// `fprd` or `fpwr`, with `STATION ADDRESS BYTES`
    #[tactic(auto, unfolding(crate::specs::Deeds::addressed_item_line))]
    pub(crate) fn addressed_item(&mut self, kind: Kind, words: &[&[u8]]) -> Result<(), Stop>
        ensures links { self.new.links.items ≡ self.old.links.items }
        ensures done { Does result (scene_record self.new.scene)
            (addressed_item_line kind (map (λ word. word.now) words.now) (scene_record self.old.scene)) }
    {
        let [station, address, row] = words else {
            return Err(Stop::Fault(LineFault::WrongCount));
        };
        let item = addressed_item_of(self.alloc, kind, station, address, row)?;
        self.add_item(item)
    }

    /// Adds an item.
    fn add_item(&mut self, item: Item) -> Result<(), Stop>
        ensures links { self.new.links.items ≡ self.old.links.items }
        ensures done { Does result (scene_record self.new.scene)
            (with_item item (scene_record self.old.scene)) }
    {
        if self.scene.items.len() >= MAX_ITEMS {
            return Err(Stop::Fault(LineFault::TooMany));
        }
        self.scene.items.push(item)?;
        Ok(())
    }

    /// `weather A B LOST FIRST`
    pub(crate) fn weather(&mut self, words: &[&[u8]]) -> Result<(), Stop> {
        let [down_for_a, down_for_b, lost, first] = words else {
            return Err(Stop::Fault(LineFault::WrongCount));
        };
        let down_for_a = links_of(self.alloc, down_for_a)?;
        let down_for_b = links_of(self.alloc, down_for_b)?;
        let lost = losses_of(lost)?;
        let b_first = is_b_first(first)?;
        if self.scene.weathers.len() >= MAX_WEATHERS {
            return Err(Stop::Fault(LineFault::TooMany));
        }
        for link in down_for_a.iter().chain(down_for_b.iter()) {
            self.name_link(*link)?;
        }
        self.scene.weathers.push(SceneWeather {
            down_for_a,
            down_for_b,
            lost_a: lost.of_a,
            lost_b: lost.of_b,
            b_first,
        })?;
        Ok(())
    }
}

/// The item of a kind at an address, with the bytes of a row.
#[tactic(auto, using(crate::proofs::RowLemmas::rows), unfolding(crate::specs::Words::item_of))]
fn item_of(alloc: Global, kind: Kind, address: &[u8], row: &[u8]) -> Result<Item, Stop>
    ensures { Gives (λ item. item) result (item_of kind address.now row.now) }
{
    let address = number(address)?;
    test_bytes(row)?;
    let address = double_word(address)?;
    let bytes = bytes(alloc, row)?;
    item_in(kind, address, bytes.as_slice())
}

/// The item of a kind at a register of a station, with the bytes of a row.
#[tactic(auto, using(crate::proofs::RowLemmas::rows), unfolding(crate::specs::Words::addressed_item_of))]
fn addressed_item_of(
    alloc: Global,
    kind: Kind,
    station: &[u8],
    address: &[u8],
    row: &[u8],
) -> Result<Item, Stop>
    ensures { Gives (λ item. item) result (addressed_item_of kind station.now address.now row.now) }
{
    let station = number(station)?;
    let address = number(address)?;
    test_bytes(row)?;
    let station = word(station)?;
    let address = word(address)?;
    let bytes = bytes(alloc, row)?;
    item_in(kind, address_of(station, address), bytes.as_slice())
}

/// The item of these data if there is one.
fn item_in(kind: Kind, address: u32, bytes: &[u8]) -> Result<Item, Stop>
    ensures { Gives (λ item. item) result (item_in kind address bytes.now) }
{
    match Item::new(kind, address, bytes) {
        Ok(item) => Ok(item),
        Err(_) => Err(Stop::Fault(LineFault::OutOfRange)),
    }
}

/// The numbers of links: `-` for none, else numbers that commas separate.
fn links_of(alloc: Global, list: &[u8]) -> Result<Vec<u64>, Stop> {
    let mut links = Vec::new(alloc);
    if list == b"-".as_slice() {
        return Ok(links);
    }
    for part in list.split(|byte| *byte == b',') {
        links.push(number(part)?)?;
    }
    Ok(links)
}

/// Which copies are lost: `-`, `a`, `b` or `ab`.
fn losses_of(lost: &[u8]) -> Result<Losses, LineFault> {
    match text_of(lost) {
        "-" => Ok(Losses {
            of_a: false,
            of_b: false,
        }),
        "a" => Ok(Losses {
            of_a: true,
            of_b: false,
        }),
        "b" => Ok(Losses {
            of_a: false,
            of_b: true,
        }),
        "ab" => Ok(Losses {
            of_a: true,
            of_b: true,
        }),
        _ => Err(LineFault::BadNumber),
    }
}

/// Does the copy of port B go first: `a` or `b`?
fn is_b_first(first: &[u8]) -> Result<bool, LineFault> {
    match text_of(first) {
        "a" => Ok(false),
        "b" => Ok(true),
        _ => Err(LineFault::BadNumber),
    }
}

//! What is odd as members of an object of JSON: by its name, with its numbers, and as the sentence.

use crate::lint::OddLine;
use crate::oddity::{Oddity, ProcessData};
use ecat_json::Object;
use std::io;

impl OddLine {
    /// Adds the line of the scene, the slave or the item, what is odd by its name, and the sentence that is
    /// printed of it; and its numbers behind that.
    pub fn members(&self, object: Object) -> io::Result<Object> {
        let (slave, item) = self.subjects();
        let oddity = self.oddity();
        let object = object.number("line", self.line() as u64)?;
        let object = object.number_if("slave", slave)?.number_if("item", item)?;
        let object = object.text("oddity", oddity.name())?.shown("text", oddity)?;
        with_numbers(object, oddity)
    }
}

impl Oddity {
    /// Its name.
    fn name(self) -> &'static str {
        match self {
            Oddity::SyncManagerAgain { .. } => "SyncManagerAgain",
            Oddity::FmmuAgain { .. } => "FmmuAgain",
            Oddity::AreasAgain { .. } => "AreasAgain",
            Oddity::StateAgain { .. } => "StateAgain",
            Oddity::NeverActive => "NeverActive",
            Oddity::AreaDiffers { .. } => "AreaDiffers",
            Oddity::NoMailboxes => "NoMailboxes",
            Oddity::StartsWithoutMailboxes => "StartsWithoutMailboxes",
            Oddity::StartsWithNone => "StartsWithNone",
            Oddity::StartsReadOnly => "StartsReadOnly",
            Oddity::StartsOtherSize => "StartsOtherSize",
            Oddity::Unmapped { .. } => "Unmapped",
            Oddity::FewerMapped { .. } => "FewerMapped",
            Oddity::BuffersMeet { .. } => "BuffersMeet",
            Oddity::OutsideMappings { .. } => "OutsideMappings",
            Oddity::NotServed => "NotServed",
            Oddity::NoRoom { .. } => "NoRoom",
        }
    }
}

/// The name of process data by the way that they go.
fn name_of(data: ProcessData) -> &'static str {
    match data {
        ProcessData::Outputs => "outputs",
        ProcessData::Inputs => "inputs",
    }
}

/// Adds the numbers of what is odd, if it has any.
fn with_numbers(object: Object, oddity: Oddity) -> io::Result<Object> {
    match oddity {
        Oddity::SyncManagerAgain { line }
        | Oddity::FmmuAgain { line }
        | Oddity::AreasAgain { line }
        | Oddity::StateAgain { line } => object.number("earlier_line", line as u64),
        Oddity::AreaDiffers {
            manager,
            kind,
            wanted,
            there,
        } => {
            let object = object.number("sync_manager", manager as u64)?;
            let object = object.text("process_data", name_of(kind))?;
            let object = object.number("wanted_bytes", u64::from(wanted))?;
            object.number("area_bytes", u64::from(there))
        }
        Oddity::FewerMapped {
            kind,
            mapped,
            wanted,
        } => {
            let object = object.text("process_data", name_of(kind))?;
            let object = object.number("mapped_bytes", mapped as u64)?;
            object.number("wanted_bytes", u64::from(wanted))
        }
        Oddity::OutsideMappings { address, length } => {
            let object = object.number("logical_address", u64::from(address))?;
            object.number("bytes", length as u64)
        }
        Oddity::NoRoom { length, room } => {
            let object = object.number("bytes", length as u64)?;
            object.number("room_bytes", room as u64)
        }
        oddity => with_area(object, oddity),
    }
}

/// Adds the numbers of an area of a sync manager that is odd, if it is one.
fn with_area(object: Object, oddity: Oddity) -> io::Result<Object> {
    match oddity {
        Oddity::Unmapped {
            manager,
            kind,
            count,
            length,
            first,
            last,
        } => {
            let object = object.number("sync_manager", manager as u64)?;
            let object = object.text("process_data", name_of(kind))?;
            let object = object.number("unmapped_bytes", count as u64)?;
            let object = object.number("area_bytes", u64::from(length))?;
            let object = object.number("first_address", u64::from(first))?;
            object.number("last_address", u64::from(last))
        }
        Oddity::BuffersMeet {
            start,
            length,
            next,
            at,
        } => {
            let object = object.number("start_address", u64::from(start))?;
            let object = object.number("area_bytes", u64::from(length))?;
            let object = object.number("next_sync_manager", next as u64)?;
            object.number("next_address", u64::from(at))
        }
        _ => Ok(object),
    }
}

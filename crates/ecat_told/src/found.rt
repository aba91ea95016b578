//! A line whose slaves were asked what they are, as a scene.

use crate::page::Page;
use crate::slave::Slave;
use crate::slave_page::{Place, put_registers};
use ec_app::{Rights, Value};
use ecat_scene::{SceneLine, put_line};
use std::alloc::{AllocError, Global};

/// How many entries of a slave's identity are asked for, from subindex 1 on.
pub const ENTRIES: usize = 4;

/// The object that says who a slave is (IEC 61158-6-12, identity object).
const IDENTITY: u16 = 0x1018;

/// What a slave answered: what its registers hold, and entries of its identity.
#[derive(Clone, Copy, PartialEq, Eq, Debug)]
pub struct Found {
    /// Its registers, as far as they were read.
    pub slave: Slave,
    /// The entries of its identity that it has, from subindex 1 on.
    pub identity: [Option<Value>; ENTRIES],
}

impl Found {
    /// A slave that has answered nothing.
    pub fn nothing() -> Found {
        Found {
            slave: Slave::new(),
            identity: [None; ENTRIES],
        }
    }
}

/// The text of a scene of these slaves, in their order: as `learn` writes it of slaves all of whose registers
/// were read. A slave that was not read is a hole, which no command reads.
pub fn scene_of(alloc: Global, line: &[Found]) -> Result<String, AllocError> {
    let mut page = Page {
        alloc,
        text: String::new(alloc),
        comments: true,
        objects: 0,
        values: false,
        holes: 0,
        asked: false,
        more: 0,
    };
    let count = line.len();
    page.comment(format_args!("found by scan: {count} slaves"))?;
    for (number, found) in line.iter().enumerate() {
        let place = Place {
            number,
            started: true,
            epoch: 0,
        };
        put_registers(&mut page, &place, &found.slave)?;
        put_identity(&mut page, &found.identity)?;
    }
    page.put_more()?;
    Ok(page.text)
}

/// Puts the entries of a slave's identity, as objects that are read.
fn put_identity(page: &mut Page, identity: &[Option<Value>; ENTRIES]) -> Result<(), AllocError> {
    for number in 0..ENTRIES {
        if let Some(value) = identity[number] {
            let sub = number as u8 + 1;
            let line = SceneLine::Object(IDENTITY, sub, Rights::ReadOnly, value);
            put_line(&mut page.text, line)?;
        }
    }
    Ok(())
}

#![tactic(auto)]
//! The EEPROM of a slave, which a master reads at start through sixteen registers of the controller, the
//! slave information interface (IEC 61158-4-12 and ETG.1000.4).
//!
//! A master writes the address of a word and a command; behind the packet the slave's side answers. One use,
//! which `sii.rows` tries in `a_master_reads_the_vendor`:
//!
//! ```text
//! slave.set_information(&Information::ip_core());
//! let mut eeprom = Eeprom::new(contents.image(rt.alloc())?);
//! slave.process(&mut frame);
//! eeprom.serve(&mut slave);
//! ```
//!
//! Where the frame wrote the address 0x0008 and the command to read, registers 0x0508 to 0x050F have the
//! vendor and the product now, and no command is left. **A read gives eight bytes**, as bit 6 of control and
//! status tells; a master that takes four reads the first four of them. Behind the end of the contents all
//! bytes are 0xFF.
//!
//! The bytes of a device, as a file or the registers gave them, are read from their head on, category by
//! category:
//!
//! ```text
//! let head = SiiHead::read(bytes)?;
//! let mut at = HEAD;
//! while let Some(category) = category_at(bytes, at)? {
//!     let words = &bytes[category.from..category.from + category.length];
//!     at = category.from + category.length;
//! }
//! ```
//!
//! What is promised:
//!
//! - `Eeprom::answer` is a table of commands (`value`): read, reload, a write of one word that has to be let
//!   pass, and what is refused; `Eeprom::serve` does that on a controller (`controller`, `contents`), and
//!   leaves one that has no such interface.
//! - Serving is a move, so that a good cycle stays good whatever is asked of an EEPROM meanwhile
//!   (`promises::serving_moves`); what was answered is answered no second time (`promises::answers_once`).
//! - `SiiContents::image` makes the bytes of an EEPROM of what a slave is, by `specs/Image.antt`: identity,
//!   mailboxes, name, what FMMUs and sync managers are for, PDOs; with their checksum (`crc8`).
//! - Any bytes, as a device's own, are read or refused by name, wherever they end, with no memory taken, by
//!   `specs/Reading.antt`: `SiiHead::read`, then `category_at` from `HEAD` on, each next one where the one
//!   before ends, and in a category's bytes `text_at`, `General::read`, `sync_manager_at`, `pdo_at` and
//!   `entry_at`. What was made is read as the facts that it was made of, and an image as all its categories
//!   in their order (`promises::made_is_read`, `promises::made_parts_are_read`).

pub mod categories;
pub mod crc;
pub mod eeprom;
pub mod image;
pub mod promises;
pub mod reading;
pub mod registers;

pub use categories::{
    General, NamedEntry, PdoHead, RECORD, Text, entry_at, pdo_at, sync_manager_at, text_at,
};
pub use crc::crc8;
pub use eeprom::{Eeprom, SiiAnswer};
pub use image::{Identity, ImageFault, Mailboxes, Pdo, PdoEntry, SiiContents, SiiSyncManager};
pub use reading::{Category, HEAD, SiiFault, SiiHead, category_at};
pub use registers::SiiRegisters;

#![tactic(auto)]
//! The line of slaves that a scene describes: its ring, its applications, the weathers of its frames and the
//! work of its items; and why a command on it ends before its output does.
//!
//! One use:
//!
//! ```text
//! let text = text_of(alloc, &mut source)?;
//! let scene = Scene::read(alloc, text.as_slice())?;
//! let weathers = weathers_of(alloc, scene.weathers.as_slice())?;
//! let ring = ring_of(alloc, scene.slaves, scene.links_down.as_slice())?;
//! let work = work_of(scene.items)?;
//! let expected = Expected::of(ring.slaves(), &work);
//! ```
//!
//! What is promised:
//!
//! - Of texts and failures: as what a source counts that could not be read to its end (`unread`), and which
//!   scenes a line has that packets reach ([`for_packets`]).
//! - Of what a device tells of itself (`specs/Devices`): which slaves become devices ([`make_devices`]), how
//!   each begins ([`switch_on`]) and which alias it has behind the EEPROMs that are given
//!   ([`take_aliases`]); and every byte of an EEPROM that was made ([`eeprom_of`]): who it is, its name, its
//!   mailboxes, FMMUs, sync managers and details of CoE, its PDOs (`specs/ProcessData`), and over these the
//!   bytes of its lines.
//! - Of applications (`specs/Applications`): they are all behaviours of all slaves in their order, and
//!   exactly the devices have an EEPROM, the one given or else the one made ([`applications_with`]).
//! - Of a cycle: what is expected of each item ([`Expected`]), and the trips of a service over the line
//!   ([`SteppingPorts`]): each under the next weather, and then every slave takes its step.
//!
//! Tested, here and by the scenes and cases of the program, is that a line is the one that its scene
//! describes; that a device has the objects that its EEPROM speaks of; that the records alone
//! ([`records_of`]), by which a line is checked, are mapped as its slaves; and that what is made succeeds
//! where there is memory and room.

mod applications;
mod devices;
mod expected;
mod failure;
mod line;
mod names;
mod process_data;
mod reading;
mod records;
mod stepping_ports;
mod weathers;
mod work;

pub use applications::{applications_of, applications_with};
pub use devices::{eeprom_of, make_devices, switch_on, take_aliases};
pub use expected::Expected;
pub use failure::LineFailure;
pub use line::{ring_of, set_link, slaves_of};
pub use names::names_of;
pub use reading::{for_packets, is_for_run_alone, text_of, unread};
pub use records::records_of;
pub use stepping_ports::SteppingPorts;
pub use weathers::weathers_of;
pub use work::{push_items, work_of};

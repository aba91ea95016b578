#![tactic(auto)]
//! A master's cycles over a line of slaves, whole or broken, and what their working counters say.
//!
//! A machine reads its inputs and writes its outputs every cycle, and must know of each cycle whether it did.
//! One use, which `master/door.rt` of `ec_tests` tries: a slave is mapped, the line is checked, a work
//! asks for an exchange, and the verdict says whether its bytes are to be trusted. `area` and `byte` of
//! `master/many.rt` fill in the records of a sync manager and of an FMMU of one byte:
//!
//! ```text
//! let mut slave = Slave::new(rt.alloc(), 0x1001, Objects::new(), 1, 1)?;
//! let controller = slave.controller_mut();
//! controller.set_syncman(2, &area(0x1000, 0x04));
//! controller.set_syncman(3, &area(0x1100, 0x00));
//! controller.set_fmmu(0, &byte(0x0001_0000, 0x1000, 2));
//! controller.set_fmmu(1, &byte(0x0001_0000, 0x1100, 1));
//! controller.load(0x1100, &[0x12]);
//! let mut line = Vec::new(rt.alloc());
//! line.push(slave)?;
//! let mut ring = Ring::new(line).ok().expect(&rt, "at most 256");
//! ring.set_link(0, false);
//! check(ring.slaves())?;
//! let item = Item::new(Kind::Lrw, 0x0001_0000, &[0xFF])?;
//! let count = expected(ring.slaves(), &item);
//! let mut work = Work::new();
//! work.push(item)?;
//! let verdict = weather_cycle(&mut ring, &[], &[count], &mut work);
//! ```
//!
//! The link before the slave is down, and all the same `verdict` is `Good` and the item holds 0x12. What is
//! promised, of a line and items that `check` and `check_item` accept:
//!
//! - [`ring_cycle`], over a ring under its own links: with at most one link down, work and slaves are
//!   afterwards those of the cycle over slaves that are known by their stations alone (`order_free`);
//! - [`weather_cycle`], whatever befalls the frames: on `Good` so are the answers and the memories
//!   (`good_image`, `good_memories`), else the work is unchanged (`untouched_work`);
//! - [`run_cycle`], over any implementation of [`Ports`]: the frames are the cut of the work, each joined
//!   (`cycle`); and where what came back is what an accepted ring would give, the items get on `Good` the
//!   answers of that cycle, and else stay as they are (`frames_suffice`).
//!
//! A line is checked once, for ever: an accepted work stays accepted, and the same is expected of it, behind
//! each cycle (`again`, `still_expected`) and between cycles, while slaves take their steps and put inputs,
//! links change and items begin rounds ([`between`], [`step_slaves`](between::step_slaves)).
//!
//! Inside, `work` is what a master asks, and what answers give it; `cut` the frames that a work goes out in;
//! `ring`, `weather` and `cycle` the three cycles; `ports` what the third goes out over; `weathers_ahead` the
//! weathers of the frames that have not gone out; `verdict` what the counters say; `promises`, `certificate`,
//! `moments` and `between` laws over any ring and weathers.
//!
//! What the contracts speak of stands in specs/: the cycle in no order (`Unordered`), what comes back of
//! frames (`Travelled`), what counters say (`Verdict`, `Certificate`), what frames alone say (`Suffice`), and
//! trips end to end (`Ports`).

mod acceptance;
pub mod between;
pub mod certificate;
mod checked;
pub mod covered;
mod cut;
mod cycle;
pub mod moments;
mod ports;
pub mod promises;
mod report;
mod ring;
mod ring_ports;
pub mod shown;
mod verdict;
mod weather;
mod weather_ports;
mod weathers_ahead;
mod work;

pub use acceptance::{Refusal, accept, all_expected, checked_cycle};
pub use checked::CheckedRing;
pub use cut::frame_from;
pub use cycle::{CycleFault, run_cycle, run_cycle_in};
pub use ec_ring::PortFault;
pub use ports::Ports;
pub use report::{CopiesBack, Report, Reporting};
pub use ring::ring_cycle;
pub use ring_ports::RingPorts;
pub use verdict::Verdict;
pub use weather::{weather_cycle, weather_cycle_in};
pub use weather_ports::WeatherPorts;
pub use weathers_ahead::WeathersAhead;
pub use work::{Full, MAX_ITEMS, Work};

#![tactic(auto)]
//! A line of slaves between two ports of a master, whose cable may be cut anywhere, and how two copies of a
//! frame travel over it (IEC 61158-4-12, the ports of a slave and the circulating bit).
//!
//! It is the cable of this house: what a master sends over it comes back as it would over a real one, with
//! any links down and any copy lost. One use, which `ring/door.rt` of `ec_tests` tries; `slaves` and
//! `calm` of `ring/line.rt` make slaves in these states, and a weather in which both copies travel under the
//! same links:
//!
//! ```text
//! let three = slaves(&rt, rt.alloc(), &[AlState::Op; 3]);
//! let mut ring = Ring::new(three).ok().expect(&rt, "at most 256");
//! ring.set_link(1, false);
//! let links = ring.links();
//! let sent = FrameBuf::read(&STATUS, Form::Udp)?;
//! let came = ring.trip(&sent, &calm(links, links));
//! ```
//!
//! Both copies come back: one slave has counted on copy A, and two on copy B.
//!
//! - `Links`: which links of a line are up. A line of n slaves has n + 1: link 0 goes from port A to the
//!   first slave, link n from the last slave to port B.
//! - `Ring`: at most 256 slaves and their links. `Ring::walk` takes one copy over the line, from one port to
//!   where it arrives.
//! - `Weather`: what befalls one frame's two copies, and `Came`: the copies that came back.
//! - `Travel`: whatever a frame can travel over; contracts see it as a ring. `Ring` is one.
//!
//! A frame that enters a slave at port 0 is processed and leaves at port 1; one that enters at port 1 is
//! passed on to port 0 unprocessed. At a port whose link is down it turns round. Where it turns round at port
//! 0, which is its first processing then, the circulating bits of its datagrams are set, and a frame whose
//! first one is set already is destroyed.
//!
//! What is promised:
//!
//! - `walk` (`arrived`, `ring`) and `trip` (`came`, `ring`) are the ways of one copy and of both, as specs/
//!   says them; all but the slaves that a copy reaches stays.
//! - [`promises`] says the reach in the words of links (`reach`, `same_links`, `lost_by_links`), that a line
//!   keeps its length (`line_lasts`), and a trip as one over pieces of a line (`trip_passes`).
//!
//! What the contracts speak of stands in specs/: `Links` and `Reach` (how far a copy gets), `Walk` (one
//! copy's way), `Travel` (both copies), `Ring`.

pub mod arrivals;
pub mod health;
pub mod late;
pub mod links;
pub mod port;
pub mod promises;
pub mod ring;
pub mod travel;
pub mod weather;

pub use arrivals::{Arrival, Arrivals, HeardPorts};
pub use health::PortHealth;
pub use late::LateCopies;
pub use links::{Links, MAX_LINKS, MAX_SLAVES};
pub use port::{Port, PortFault, count_failure};
pub use ring::{Ring, RingFault};
pub use travel::Travel;
pub use weather::{Came, Weather};

#![tactic(auto)]
//! A master's two ports whose line lies somewhere else: at the ends of a real line of sockets, in another
//! process or on another machine.
//!
//! - `Carrier`: what carries packets between the master's ports and the line, and counts its failures.
//! - `Timer`: what the ports tell the time by, which does not go back; `ClockTimer` is the system's clock.
//! - `RemotePorts`: a master's two ports over a `Carrier`. It is an `ec_master::Ports`, and an
//!   `ec_ring::HeardPorts`: a copy arrived at the port where it was received.
//! - `UdpCarrier`: two UDP sockets, each of which speaks with one end of the line. It is a `Carrier`, as is
//!   `Tape`, packets that are written down. By [`greet`] whoever serves a line learns where the ports are.
//! - [`wait_at`] and [`receive_within`]: waiting at sockets at which no call waits by itself.
//!
//! A trip sends a copy from port A and one from port B, and then waits at both ports at once until nothing is
//! gained by waiting: both copies have come; or one has, with each counter that a cycle's datagrams are
//! expected to come back with, and the other one has had as long again; or its time is over, which is no
//! later than the deadline of its cycle. Each copy goes out under a number of its own that is not used twice
//! (`ec_number`), which is taken off what comes. A packet that is no copy of this trip is passed over,
//! however many there are: one that is no frame, or a frame of another question, another trip, an earlier run
//! or another master, or the same copy once more. A copy that does not come in time is lost; where it comes
//! on a later trip, that is told (`HeardPorts::take_late`). A frame with no room for a number is not sent.
//!
//! What is promised:
//!
//! - what came is what a packet is that a port gave in this trip: a copy exactly where it spells a frame in
//!   the UDP form that came of one of the two that went out, under its number; each of these is taken once,
//!   whichever comes first; then the number is off (`specs/Taken.antt`); no copy is invented;
//! - the time of a trip is shortened for what came only where one copy came with each counter that is
//!   expected (`specs/Enough.antt`); waiting ends, whatever the clock does;
//! - over any history of trips no number is given twice ([`no_number_is_given_twice`], `specs/History.antt`);
//! - where what bears a number of a trip is one of the trip's two copies, whatever else the network gave,
//!   late, doubled, of earlier trips, earlier runs or other masters, a good cycle is of its own copies
//!   ([`a_trip_is_its_own`], [`a_good_is_of_its_cycle`], `specs/Network.antt`, `specs/Moving.antt`). No time
//!   is in it;
//! - a trip that fails has grown the count of failures, and nothing lowers the count;
//! - which packets are late copies is exact (`specs/Late.antt`);
//! - where an end lies is what its text says, `HOST:PORT` (`ends_of`);
//! - a trip is handed no allocator (that the sockets' own calls take no memory is seen by reading).
//!
//! Of the bytes that come, nothing is stated: they are up to the line and to the system.

mod address;
mod carrier;
mod copies;
mod cycle;
mod enough;
mod greeting;
mod health;
mod late;
mod ports;
mod promises;
mod ready;
mod silence;
mod sockets;
mod steady;
mod tape;
mod timer;
mod waiting;

pub use address::{RemoteEnds, ends_of};
pub use carrier::{Carrier, copy_front};
pub use copies::{NumberedCopy, Outgoing};
pub use greeting::greet;
pub use health::PortsHealth;
pub use ports::RemotePorts;
pub use promises::{a_good_is_of_its_cycle, a_trip_is_its_own, no_number_is_given_twice};
pub use ready::Ready;
pub use sockets::{OpenFault, UdpCarrier};
pub use steady::SteadyCarrier;
pub use tape::Tape;
pub use timer::{ClockTimer, Timer};
pub use waiting::{receive_within, wait_at};

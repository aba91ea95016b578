#![tactic(auto)]
//! EtherCAT over UDP: a master's cycle over packets, with the ring that answers it in the same process.
//!
//! Over a ring in memory no call fails. Here the same cycle, `ec_master::run_cycle` with its contract, runs
//! over the system's sockets, where packets are lost, anything may come, and each call may fail.
//!
//! - `PacketLine`: what carries packets between the four sockets of a master and a line (`Socket`), and
//!   counts its failures.
//! - `UdpLine`: four UDP sockets on 127.0.0.1. It is a `PacketLine`.
//! - `UdpPorts`: a master's two ports over a `PacketLine`, and behind them a `Ring`. It is an
//!   `ec_master::Ports`, and an `ec_ring::HeardPorts`: a copy arrived at the port where it was received.
//!
//! A trip makes at most eight calls of the line, in this order:
//!
//! 1. The copy from port A is sent to the line's end A and received there. It walks over the ring, under the
//!    ring's own links. From the end where it arrives, it is sent to the master's port of that name.
//! 2. So is the copy from port B, from the line's end B on.
//! 3. A packet is received at the master's port A, and then one at its port B.
//!
//! A packet that does not come, or is no frame in the UDP form, is a lost copy. The first call that fails
//! ends the trip.
//!
//! One use, which `udp/real.rt` of `ecat_socket_tests` tries in `a_cycle_goes_over_real_sockets`:
//! `UdpLine::bind(&rt, 34980)` opens the sockets, where that port is free; then a ring stands behind them,
//! and a cycle runs.
//!
//! ```text
//! let mut ports = UdpPorts::new(ring(&rt, rt.alloc()), line);
//! for _cycle in 0..3usize {
//!     let mut work = work(&rt);
//!     let verdict = run_cycle(&mut ports, &mut work, &EXPECTED);
//!     assert_eq!(rt; verdict, Ok(Verdict::Good));
//!     assert_eq!(rt; left(&rt, &work), ([0x12, 0x34], 6));
//! }
//! assert_eq!(rt; taken(&rt, ports.ring()), [0x5A, 0xA5]);
//! ```
//!
//! What is promised:
//!
//! - a trip that fails has grown the count of failures, and nothing lowers the count;
//! - a trip changes nothing of the ring but by the walks of at most one copy from port A and then at most one
//!   from port B, so links stay and applications take no step;
//! - a packet is a copy exactly where it is a frame in the UDP form;
//! - the address of each socket of a `UdpLine` is 127.0.0.1, its port that of its name (`asked_address`);
//! - a trip is handed no allocator (that the sockets' own calls take no memory is seen by reading).
//!
//! Of the bytes that come, nothing is stated: they are up to the system (`specs/Trips.antt`).

pub mod line;
pub mod ports;
pub mod sockets;

pub use line::{PacketLine, Socket};
pub use ports::UdpPorts;
pub use sockets::{BindFault, UdpLine};

#![tactic(auto)]
//! A simulated line on the network, so that a master which somebody else wrote can be tried against slaves
//! that are proved to behave, with cables that break on demand.
//!
//! - `Served`: a ring to whose two ends anybody may speak. It keeps who spoke last at each end.
//! - `Ends`: what the two ends are asked, a receive that waits at both and a send. It is a trait, so that
//!   packets can also come from memory.
//! - `UdpEnds`: two UDP sockets at one address, which end with an input, as the standard one, if they get
//!   one.
//! - `Waiting`: what waits at two ends and at an input at once, for sockets of any kind (`EndSockets`).
//! - `Served::set_link`, `lose`, `unplug`, `load` and `set_state` (`bench`): what somebody does to the line
//!   between its packets, and `Console`: the lines by which he says so, which `UdpEnds` takes of its input.
//! - `Cabled`: ends at whose cables somebody looks (`Plugs`): one that is pulled is a link of the line that
//!   is down (`Served::put_cable`).
//! - `Disturbed`: ends whose copies leave late, twice or damaged where a command asks for it (`Disturb`).
//! - `Watch`: who is told of each packet by `Served::serve_watched`; what he is told is required to be so.
//!
//! A packet that is a frame in the UDP form walks from the end where it came in, under the ring's own links;
//! then each slave takes its step, and what arrives leaves from the end where it arrives, to whoever spoke
//! last there. While nobody has ever spoken to end B, the last link counts as down, as the last port of a
//! real line that is empty: so a master with one port gets its answers at end A. Any other packet is dropped,
//! and who sent it has not spoken.
//!
//! One use, which the test `a_frame_gets_its_answer_and_rubbish_none` tries:
//!
//! ```text
//! let mut ends = UdpEnds::<Stdin>::bind(&rt, rt.alloc(), Ipv4Addr::LOCALHOST, port, None)?;
//! let mut served = Served::new(ring);
//! let counts = served.serve(&mut ends, 1)?;
//! ```
//!
//! What is promised, of all ends:
//!
//! - each packet gets back what the walk gives, and the slaves are those behind the walk and the step
//!   (`Served::serve_one`, `IsRound` in `specs/Rounds.antt`);
//! - rounds follow one another until so many packets have come, none is to come, or a call fails, and each
//!   packet is counted once (`Served::serve`, `Serves`);
//! - a link, a slave's inputs and its state change as they are asked to, or nothing does (`BenchFault`); so
//!   many copies are lost at an end as were to be, and no more (`spared`, `once_lost`);
//! - a cable that is pulled at end A is link 0 down, and at end B the last link (`put_cable`);
//! - the lines of an input are what LF separates, in whatever pieces it comes (`InputLines::take`, `taken` in
//!   `specs/Lines.antt`);
//! - a service is handed no allocator, and takes no memory where its ends take none.
//!
//! and of `UdpEnds`: where the ends lie (`asked_address`), and of `Waiting` which of two ends that wait is
//! served next.
//!
//! Of the packets that come to a socket nothing is stated: they are up to the system.

pub mod bench;
pub mod cables;
pub mod commands;
pub mod disturbed;
pub mod ends;
pub mod lines;
pub mod served;
pub mod sockets;
pub mod waiting;
pub mod watch;

pub use bench::BenchFault;
pub use cables::{Cable, Cabled, Plugs};
pub use commands::{Desk, Onward};
pub use disturbed::{Disturb, Disturbance, Disturbed, Times};
pub use ends::{Arrived, Console, Ends, TimedEnds, Waited};
pub use lines::{InputLine, LINE_ROOM};
pub use served::{Counts, Round, Served};
pub use sockets::{BindFault, UdpEnds};
pub use waiting::{EndSockets, WaitFault, Waiting, may_try_again};
pub use watch::{Leaving, Unwatched, Watch};

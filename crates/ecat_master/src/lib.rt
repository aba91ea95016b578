#![tactic(auto)]
//! A master that runs, over any two ports: it brings a line to Op, cycles on it, and says where a cable
//! breaks and when it is whole again (IEC 61158-6-12, AL management; IEC 61158-4-12, working counter).
//!
//! What it does is that of `ec_run`: steps, cycles, recovery. Here is in which order a program does them,
//! what it tells of them, and its exit status, with no socket and no clock of its own: the ports are any that
//! tell where copies arrive ([`ec_ring::HeardPorts`]), the time is a [`Pace`], outputs are those of a
//! [`Task`] that is told what each cycle came to, and what else is told goes to writers.
//!
//! One use, which `master/door.rt` of `ecat_master_tests` tries; `wanted`, `ring` and `work` of
//! `master/line.rt` make three slaves as a scene has them, a ring of slaves that were told nothing, and an
//! exchange of three bytes; `Stage` and `Count` of `master/stage.rt` are ports to that ring, whose link 2
//! breaks before cycle 3, and so many cycles:
//!
//! ```text
//! let line = wanted(&rt, rt.alloc());
//! let events = [(3, Event::Link(2, false))];
//! let ports = Stage::new(ring(&rt, rt.alloc(), 3), &events);
//! let plan = Plan {
//!     outputs: Outputs::Count,
//!     stop: false,
//!     recover: true,
//!     tries: MOST_READS,
//!     progress: false,
//!     log: false,
//!     log_images: false,
//!     log_or_stop: false,
//!     states: true,
//!     identities: &[],
//!     names: &[],
//!     leave: Some(AlState::Init),
//!     leave_by_task: false,
//! };
//! let line_plan = LinePlan { line: line.as_slice(), expected: &EXPECTED, plan: &plan };
//! let writers = Writers { out: &mut out, err: &mut err, log: &mut log };
//! let mut pace = Count { left: 5 };
//! let status = master(ports, work, &line_plan, &mut pace, &mut NoTask, writers);
//! ```
//!
//! The status is 0, and `out` has
//!
//! ```text
//! slaves 3
//! ring whole
//! stations given
//! all in Init
//! all in Pre-Op
//! all in Safe-Op
//! all in Op
//! cycle 3: redundancy lost: link 2 down: between slave 1 (0x1002) and slave 2 (0x1003)
//! left in Init
//! cycles 5 good 5 short 0 over 0 fault 0 not-in-op 0
//! cycle time least 0 mean 0 greatest 0 microseconds, 50% within 0, 90% 0, 99% 0, 99.9% 0
//! item 0 LRW data a0a1a2 wkc 9 of 9
//! ```
//!
//! - [`start`] counts the slaves, looks at the cable, gives the stations by place, and brings all slaves to
//!   Op, phase by phase.
//! - [`run_cycles`] makes cycle after cycle, says where a cable breaks and when it is whole again, and brings
//!   slaves up again that have left Op. Beside the cycles it does what its task asks of slaves ([`Asked`]): a
//!   [`Service`] is done by one frame behind a cycle, until its [`Answer`] came.
//! - [`scan`] tells what stands on a line, slave by slave. [`master`] is all but that, with an exit status.
//!
//! What is promised:
//!
//! - [`start`] (`started`): where it answers Ok, the slaves were counted as many as they are to be, the looks
//!   found the cable whole or broken at one link, each slave was given its station address, and all of them
//!   were brought through the phases in their order, each by its steps. In Pre-Op each slave that has both
//!   mailboxes was asked for the entries of its identity that are wanted, one after the other, and what each
//!   told is what was wanted. (`failed`): a fault that it answers has its cause: a count that was not
//!   answered or told another number, a cable that the looks found broken otherwise, a step that failed so;
//!   and behind Pre-Op the first entry of an identity that is another one or could not be read, as it is
//!   told. (`trips`): so many trips are the most of a start that answers Ok, whatever a clock says.
//! - [`run_cycles`] (`course`): the cycles of a run are `Cycles::cycle`, one after the other, and their ends
//!   add up. Before each one its [`Task`] is listened to, and where that has other outputs the items that
//!   write have these. Cycles, a look at the cable, looks at slaves, turns of recoveries and of services
//!   follow each other end to end, one of them behind a cycle, from the ports before to those behind; a
//!   service is of a slave of the line, by its station address (`ec_acyclic`); what copies told is forgotten
//!   before each cycle, kept of its trips, and left as it is by a look at the cable. (`last`): it answers
//!   how the last cycle of that course ended. (`trips`): so many trips are the most for each cycle, whatever
//!   a clock says.
//! - [`master`] (`good`): an exit status of 0 says that the line was started so, and that the last cycle on
//!   it was good with all slaves in Op, if there was one. (`ended`): whichever it is, it is that of the fault
//!   of a start, or that of the last cycle and of the way in which the slaves were left; or it is 3, which it
//!   is too where output or log could not be written. Slaves are left in a state where all of them were asked
//!   for it and so many answered that they are in it; not all are where no round of asking brought that
//!   (`specs/Leaving.antt`).
//! - [`started_line`], a law: over a ring with at most one link down, of which nothing is lost, each slave
//!   of a line that was started is in Op without an error, alone with its station address, and with the FMMUs
//!   and the sync managers of process data that were wanted. [`found_line`], another one: what a start finds
//!   is so of such a ring: it has as many slaves as the line and is broken where that is answered; and each
//!   slave of the ring is in Op in the end.
//!
//! What is printed and when is tried by tests.

mod acyclic;
mod allowance;
mod care;
mod identity;
mod known;
mod late;
mod lateness;
mod leaving;
mod over_ring;
mod pace;
mod ports;
mod run;
mod scanning;
mod slaves;
mod spread;
mod startup;
mod strangers;
mod task;
mod teller;
mod telling;
mod words;

pub use acyclic::Asked;
pub use ec_acyclic::{Answer, Service};
pub use identity::{ENTRIES, IDENTITY, Identity, OtherSlave};
pub use known::Known;
pub use over_ring::{found_line, started_line};
pub use pace::Pace;
pub use run::{FAILED, GOOD, LinePlan, Plan, REFUSED, Writers, master, run_cycles};
pub use scanning::{Finder, ScanEnd, Shown, Unfound, scan};
pub use startup::{StartEnd, StartFault, put_start_fault, start};
pub use task::{NoTask, Report, Task};
pub use teller::{Teller, Unwritten};

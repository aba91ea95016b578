#![tactic(auto)]
//! What a master does that runs, over any two ports, and nothing of what it tells: it brings slaves up step
//! by step, makes cycle after cycle, and looks after slaves that have left Op (IEC 61158-6-12, AL management;
//! IEC 61158-4-12, working counter). No socket, no clock and no text is in it, but for images of outputs,
//! which are read from one.
//!
//! A master's calls leave to their caller in which order they are made, and what is done when one fails. That
//! order is here, in parts from which a program is put together, as `ecat_master` does. One part, as
//! `run/sent.rt` of `ecat_master_tests` tries it:
//!
//! ```text
//! let mut cycles = Cycles::new(work);
//! let ended = cycles.cycle(&mut ports, Outputs::Count, &EXPECTED);
//! ```
//!
//! - [`Wanted`] is what a slave is to be told; [`wanted_of`] reads it off the slaves of a scene, and its
//!   startup objects are put beside.
//! - [`bring_line`] brings all slaves through one of the [`PHASES`], each a list of steps ([`Step`]);
//!   [`count_slaves`] counts them before, and [`bring`] gives stations.
//! - [`Cycles`] is a work that is done again and again: [`Cycles::cycle`] makes one. Its [`Outputs`] may be
//!   images of a text, a line for each cycle ([`read_images`]).
//! - [`recover`] looks at a slave and brings it up again; [`Seen::remedy`] is the table of what is done.
//!   Beside cycles a [`Recovery`] does it in turns, by one frame behind each; [`look_along`] asks many slaves
//!   by one frame whether they are in Op.
//! - [`states_item`] reads the states of all slaves in each cycle; [`leave`] asks all of them for a state.
//! - [`Watched`] are ports that keep what the copies of their frames told ([`Tally`]).
//!
//! What is promised:
//!
//! - [`bring_line`] (`brings`): over any two ports the steps of a phase are done in their order with each
//!   slave in its order, each by the datagrams that its definition has, until one fails, which is named.
//! - [`Cycles::cycle`] (`cycle`): the items go out with their outputs at the start of the round of the
//!   cycle's number, the cycle is `ec_master::run_cycle`, its end is counted, and the image is what a good
//!   cycle brought and nothing else. `adds_up`: good, short, over and fault are all cycles together.
//! - [`recover`] (`recovers`): the slave is looked at by its station address until it answers, and the steps
//!   that the table has for what is seen are done with it in their order, until one fails. So one that is
//!   said to be brought to Op has answered that it is there; that it is there then is a law over rings
//!   (`ec_over_ring`, `recovered`). So many trips as `specs/Travels` says are the most.
//! - [`Recovery::turn`] (`turn`): the steps that the same table has are done one behind the other, by one
//!   frame in each turn; a state is asked for in one turn, and AL status is read once in each turn behind it.
//!   So a slave of which the last turn says that it was brought to Op has said so in that turn.
//! - [`look_along`] (`along`): one frame reads the AL status of slaves of a line in their order, and which is
//!   the first that does not say Op is exact.
//! - [`Tally::take`]: of one frame more is kept how its copies came back, at which ports, and how far each
//!   working counter moved, in copy A and in both together.
//! - [`Watched`]: each trip that did not fail is taken into its tally; clearing it leaves the ports as they
//!   are, and a look at the cable leaves the tally.
//! - [`tells_all_in_op`]: the byte that the last item brought back says Op and nothing else. Which states the
//!   slaves had then is a law over rings (`ec_over_ring`, `all_in_op`).
//! - [`over_like_ports`], a law: what is done over ports is done over any others whose trips theirs are, seen
//!   so. By it a law over rings holds of ports that have a ring and keep more, as [`Watched`] does.
//!
//! What the contracts speak of stands in specs/: `Step`, `Phase` and `StartupObjects` (start-up), `Wanted`,
//! `Cycles` and `Outputs`, `Recovery`, `Travels` (trips, counted), `States`, `Watched` (ports that tell where
//! copies arrive, as ports of a master, and what is told of their trips), `Tally` (what copies told), `Ask`
//! and `Counting` (one question), `Alike` (ports that are others, seen so), `Images` (the outputs of a text).

mod alike;
mod along;
mod ask;
mod counting;
mod counts;
mod cycles;
mod images;
mod inputs;
mod objects;
mod outputs;
mod phase;
mod recovering;
mod recovery;
mod states;
mod step;
mod tally;
mod turns;
mod wanted;
mod watched;

pub use alike::over_like_ports;
pub use along::{Along, MOST_ASKED, look_along};
pub use ask::{one_counted, put};
pub use counting::count_slaves;
pub use counts::Counts;
pub use cycles::{Cycles, MOST_CYCLES, Rooms};
pub use images::{Image, ImageFault, ImagesFault, MAX_IMAGES_TEXT, image_length, read_images};
pub use inputs::{Inputs, MOST_INPUTS, put_inputs};
pub use objects::peer_between;
pub use outputs::Outputs;
pub use phase::{ALL_STEPS, PHASES, Phase, StepFault, bring, bring_line};
pub use recovering::{Recovery, StepProgress};
pub use recovery::{Outcome, Remedy, Seen, look_at, look_for, recover, tells_places};
pub use states::{LEAVE_ASKS, add_states, leave, states_item, tells_all_in_op};
pub use step::{MOST_READS, Step, startup_number};
pub use tally::{Signs, Tally, Ways};
pub use turns::Turn;
pub use wanted::{MAX_STARTUP, StartupObject, Wanted, wanted_of};
pub use watched::Watched;

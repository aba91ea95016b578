#![tactic(auto)]
//! What a line of controllers answers to a frame: the core of the promises about cycles.
//!
//! A cable may break anywhere, and then two copies of a frame pass two pieces of the line, in other orders
//! than before. That the joined answer is the same is a fact about lists of controllers, whatever ring or
//! socket carries the copies, and so it stands here: no slaves' applications, no links, no works and no
//! ports. There is nothing to run. A law is the contract of a function with an empty body, which is cited
//! where it is called; lemmas of the crates above import it from `proofs/Laws.antt`. In [`promises`]:
//!
//! - `one_pass`, `steady_lasts`: a pass is the controller's answer, which accepted requests do not change;
//! - `one_answer`, `relation`: a set of controllers has at most one answer, in no order; nobody answers what
//!   was sent; one after the other, and two joined copies, answer together;
//! - `one_copy`, `own_copies`: what a copy brings that passed controllers each once; it is no stranger;
//! - `trips_core`: what came back and was joined is the answer of those passed by a copy that came back;
//! - `whole_trips`: where both copies come back and pass the line once, that is the answer of the whole line;
//! - `good_counters`: where the counters moved as the whole line counts, so are the answer and the memories;
//! - `no_area_twice`: where a frame writes no area twice, the shown bytes are the whole line's too;
//! - `reached_memories`, `twice_is_once`: what lost copies, and copies that pass twice, leave in the
//!   memories;
//! - `claims_by_pairs`, `takes_by_pairs`: logical requests, by the sets of pairs.
//!
//! In [`moving`], of lines whose slaves act while a frame is on its way:
//!
//! - `moving_trips`: the counters move as those count whom the copies passed that came back;
//! - `good_moments`: where they moved as the whole line counts, each slave's answer is of one moment, and the
//!   outputs are taken as they were sent;
//! - `still_lines`: a line that stands still is one that moves, at which nothing moves.
//!
//! The rest is definitions (specs/) and proofs:
//!
//! - `Request`: what an item asks, whatever its data. `Claims`: which data bits a controller claims for
//!   values of its own, which memory bits take data, and what the working counter gains. `Accepted`: which
//!   requests it accepts.
//! - `Steady`: the bytes that no accepted item changes, on which claims hang. `Fit`: a fit line as facts.
//! - `Answers`, `Answered`: what a set of controllers, in whatever order, makes of a datagram. `After`: a
//!   controller after an item and after a frame.
//! - `Trip`, `Run`: copy A passes a first piece of the line, copy B a last piece, what comes back is joined;
//!   and the trips of a cycle one after the other. `Memory`, `Shown`: what they leave.
//! - `Moving`: what an application may do between two passages, each slave as each copy meets it, and the
//!   moments of which an answer is.

pub mod moving;
pub mod promises;

#![tactic(auto)]
//! Which cycle of a capture was not good, which slaves were missing, and what was lost.
//!
//! A machine stopped, and somebody has a capture of its bus and a scene of its line. A working counter that
//! is too small says that slaves were missing, not which; inputs that still moved and a count of the slaves
//! say more. One use, which `judge/ends.rt` of `ecat_capture_tests` tries:
//!
//! ```text
//! let mut looked = Looked::new();
//! let _ = look(rt.alloc(), first, &mut looked);
//! let mut frames = Frames::of_file(rt.alloc(), again, looked, None);
//! let asked = Asked { csv: false, json: false, limit: 1000, dates: false };
//! let line = Known { slaves, names, items };
//! match judge(rt.alloc(), &mut frames, line, &asked, &mut out) {
//!     Judged::Good => {}       // all items came back, with the counters that the line gives
//!     Judged::NotGood => {}    // not all did
//!     ended => {}
//! }
//! ```
//!
//! ```text
//! packet 2141, 0.958718045: lost
//! packets 3233 to 4230, 1.504731462 to 2.003861647, 499 times, item 0 wkc 2 of 5: without slave 2 (0x1003)
//! item 0 LRW 0x00000000 30 bytes: sent 2003 good 1502 short 499 over 0 lost 2
//! ```
//!
//! A trip ([`ecat_trips`]) with items is good where each of their counters moved as far as [`ec_map`] expects
//! of the line. Trips are judged from the first one on in which a logical item moved. Bad ones that follow
//! each other with one counter of each item, and that something missing explains together, are one line: a
//! run. What is told of it is all that fits, joined by `or`, up to four names, and of more how many of each
//! class:
//!
//! - one slave; all slaves from one on, and of a master with two ports any run of neighbours; the inputs
//!   alone or the outputs alone of a slave that does not fit whole. Where none of these fits, how many sets
//!   of slaves fit the item that is short most;
//! - the name of each slave that has one: `slave 2 X axis (0x1003)`;
//! - `may be more` behind it, where two slaves fit as well that are no neighbours. So one name alone, without
//!   it, is all that fits of what is tried;
//! - `one copy alone`, where one of two sent copies did not come back, and `more than the slaves of the
//!   scene`.
//!
//! Where several items were short, and none of them counted at all, a line says `no item counted`; columns
//! name them all. As long as nothing was captured that was sent by a master with one port, a frame that came
//! back is judged as one that was sent with the counters 0; where nothing was in the end, a line says so.
//!
//! Where no line is known, [`judge_usual`] expects of each item the counter that it had most often, and a run
//! is `less than usual` or `more than usual`: which slave was missing, no one can tell then.
//!
//! With [`Asked::csv`] each run, and each row of losses, is a row of columns, and nothing else is written:
//!
//! ```text
//! first,last,from,to,times,counters,passed,verdict
//! 6,9,0.003000,0.004010,2,item 0 wkc 3 of 9; item 1 wkc 1 of 3,1 of 3,"without slave 2 (0x1003)"
//! ```
//!
//! `first` is the packet in which the first bad trip was sent, `last` the one in which the last came back,
//! `from` and `to` when that was, in seconds from the first frame on, `times` how many bad trips there were;
//! of losses both are sent packets. `counters` has the items that were not good, parted by `; `, and `passed`
//! how many slaves an ADP tells to have been passed. The verdict is `lost`, or what the line says. Behind
//! [`Asked::limit`] lines or rows further ones are counted alone, and a last one tells how many. With
//! [`Asked::dates`] the times of a line have date and time of day in UTC behind them, as
//! `2026-12-01T04:16:03.123456Z`, and a row has two columns more: `from_utc` and `to_utc`.
//!
//! With [`Asked::json`] all of it, runs, losses and sums, is objects of JSON, one a line, whose members are
//! those of `docs/JSON.md`; what explains a run stands behind it, an object each.
//!
//! What is promised:
//!
//! - [`is_good`], [`Counted`]: the verdict of a trip and how far a counter is short (`specs/Verdict.antt`);
//! - [`Evidence::fits`]: this explains what bad trips tell of counters, inputs and ADPs
//!   (`specs/Evidence.antt`);
//! - [`Candidates::new`]: what is tried, by classes (`specs/Candidates.antt`);
//! - [`Evidence::answer`], [`Evidence::all_names`], [`Evidence::names`]: how much of each class is told and
//!   by which names, and whether two slaves fit that are no neighbours (`specs/Answer.antt`);
//! - [`missing_fits`]: what is missing is among what fits (`specs/Without.antt`); [`one_name_alone`]: one
//!   name alone, where no more may be missing, is all that fits;
//! - [`Sums::count`]: what became of each datagram of an item is counted once (`specs/Sums.antt`), and an
//!   object has just that (`specs/Members.antt`);
//! - any bytes are taken, and all calls end.
//!
//! Only tested: which trips make a run, which bits a slave reads, how many sets fit where no class does,
//! texts and their order, and that the page puts the names that it is told.
//!
//! It cannot tell equal slaves apart where inputs stand still and no ADP is counted, nor two slaves that are
//! missing by turns from one, and it tries no three slaves that are no neighbours.
//!
//! - `share`, `evidence`, `candidates`: what a counter lacks, what fits, what is tried.
//! - `answer`: what is told of it; `sets`: how many sets, where nothing is told by name.
//! - `verdict`, `sums`, `times`: of one trip, of all.
//! - `table`: the line and its items; `strangers`: what no item asks for.
//! - `run`, `trial`: packet after packet; `page`, `as_json`: the lines; `door`: the whole capture.
//!
//! It takes what `ecat_trips` takes, and 400 KB for 256 slaves and 32 items; of two ports 1 MB more.

mod answer;
mod as_json;
mod candidates;
mod door;
mod evidence;
mod page;
mod promises;
mod run;
mod sets;
mod share;
mod strangers;
mod sums;
mod table;
mod times;
mod trial;
mod verdict;

pub use answer::Answer;
pub use candidates::Candidates;
pub use door::{Asked, Judged, Known, judge, judge_usual};
pub use evidence::{Evidence, Row};
pub use promises::{missing_fits, missing_lacks, one_name_alone};
pub use share::{Missing, Share, lacks};
pub use sums::{Outcome, Sums};
pub use verdict::{Counted, Standing, is_good};

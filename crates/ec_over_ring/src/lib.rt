#![tactic(auto)]
//! What services do over a ring of simulated slaves: from a call's contract, which speaks of questions and
//! answers, to the slave that is asked.
//!
//! A contract of `ec_services` says which datagrams a call sends and what their answers decide, over any two
//! ports. Here the ports are a ring ([`ec_master::RingPorts`]) with at most one link down, and an answer is
//! said by what the slave does. There is nothing to run. A law is the contract of a function with an empty
//! body, which is cited where it is called; lemmas of the crates above import it from `proofs/Laws.antt`. In
//! [`promises`]:
//!
//! - `one_question`: a question by station is answered by the one slave that has it, wherever the cable is
//!   broken, and leaves the others as they were;
//! - `no_station`: a question to a station that no slave has comes back as it was sent;
//! - `states_over_ring`: a state request ([`ec_services::request_state`]) comes to what AL status of that
//!   slave tells once it took the step after the write: the state that was asked for, or Refused and its
//!   code;
//! - `acknowledged_over_ring`: an error that is acknowledged ([`ec_services::acknowledge`]) leaves the slave
//!   in the state in which AL status was read, and that is told, where no error stands behind the write;
//! - `transfers_over_ring`: an object that is read or written ([`ec_services::sdo_upload`] and
//!   [`ec_services::sdo_download`]) comes to its value, to Ok, or to the abort code that says why not, and
//!   the law applies again to the next transfer;
//! - `settled_over_ring`: empty mailboxes are seen so ([`ec_services::settle`]) by the first look;
//! - `objects_over_ring`: an object that may be read is read, and one that may be written holds the value;
//! - `ready_at_first`: a slave in Pre-Op with two mailboxes takes a peer's first request.
//!
//! In [`stations`], `stations_over_ring`: station addresses ([`ec_services::assign_stations`]) come to each
//! slave's own with all links up, and to Broken, with nothing written, where any is down.
//!
//! In [`states`], `all_in_op`: where a cycle's verdict is good, in whatever weather, and its last item tells
//! that all slaves are in Op ([`ec_run::tells_all_in_op`]), each one whose AL status names a state is in Op
//! and has no error; where slaves move, each was so as the one copy met it that passed it with the last frame
//! and came back (`moving`, `told_moving`). `all_in_op_over_ports` says the same of a cycle of a running
//! master over whatever ports.
//!
//! In [`brought`], what a slave is at last that is brought up step by step ([`ec_run::recover`]), over a ring
//! with at most one link down, of which nothing is lost:
//!
//! - `recovered`: where it is said that a slave was brought to Op, one slave alone has that station address
//!   then, and it is in Op without an error; and one that is in Op and has its station alone is left alone;
//! - `entered`: so it is of each step that asks for a state and is done;
//! - `line_entered`: and of all slaves of a line that are asked one after the other ([`ec_run::bring`]), as
//!   in the last phase of a start-up: all of them are in Op in the end, not the last one alone;
//! - `started_over_ring`: behind the last two phases of a start-up each slave of a line is in Op, and its
//!   FMMUs and the sync managers of its process data stand as they were wanted;
//! - `start_succeeds`: slaves that fit what is wanted of them, and take the startup objects that are wanted,
//!   come to all that: no step of any phase fails, and the objects hold what was wanted of them last;
//! - `calls_leave_line`: a call that recovers leaves each slave of a line that was started in Op, and its
//!   records as they are;
//! - `read_off_fits`: what is read off a slave that stands as it is to be ([`ec_run::Wanted::of`]) fits it.
//!
//! In [`watched_ring`], a law of that name: the ports of a running master ([`ec_run::Watched`]) over a ring
//! make the trips of that ring, so what is said of the ring here is said of what it does
//! ([`ec_run::over_like_ports`]).
//!
//! Of calls that recover ([`ec_services::upload_surely`] and [`ec_services::download_surely`]), over a ring
//! in any weather, where copies are lost and pass a slave twice, and from any state of its mailboxes, in
//! [`recovery`]:
//!
//! - `calls_keep_their_own`: the invariant of such a call, kept in each of its trips: once it has posted, the
//!   slave holds nothing but its request or the answer to it;
//! - `uploads_recover` and `downloads_recover`: what they come to, said of the slave that is asked;
//! - `ten_trips_are_enough`: where nothing is lost they are answered within ten trips;
//! - `one_question_in_weather` and `calls_over_a_ring`: a trip over a ring in any weather is a trip of that
//!   slave, and so is a call; `recovery_over_a_ring` says what Ok and an abort mean there;
//! - `ten_trips_over_a_ring`: over [`ec_master::RingPorts`] with at most one link down ten trips are enough,
//!   and `recovery_over_ring_ports`: whatever links are down, Ok means what it means in any weather.
//!
//! The definitions are in specs/: `Question`, who is asked and what an answer carries; `States`, a station
//! that one slave has, and what a state request comes to; `Transfers`, a slave that takes a peer's next
//! request, and what a transfer comes to; `Stations`, what each slave of a line went through; `Recovery`, how
//! both copies of a frame fare at a slave, what stands in its mailboxes, and what a call that recovers comes
//! to; `InOp`, a cycle that tells that all slaves are in Op, and `InOpMoving`, as it met them where they
//! move; `Brought`, a slave in a state that has its station alone, and a line of such slaves; `Started`,
//! which records stand in their registers; `Fit`, what slaves need so that no phase of a start-up fails,
//! which startup objects they take, and which are stored in the end; `Heard`, a ring that says where copies
//! arrived.

pub mod brought;
pub mod promises;
pub mod recovery;
pub mod states;
pub mod stations;
pub mod watched_ring;

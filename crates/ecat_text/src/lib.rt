#![tactic(auto)]
//! The texts of the program: lines of output, and what is printed of cycles, cables, areas, objects and
//! refusals.
//!
//! Each text is a `Display` whose clause says its words (`specs/`), so that a swapped word or base is
//! refused; `Lines` writes what belongs to one line in one piece. One use:
//!
//! ```text
//! let mut lines = Lines::new(out);
//! let status = print_verdict(Verdict::Short(0), &mut lines)?;
//! ```
//!
//! The output is `short 0`, and `status` is `REFUSED`.

mod areas;
mod as_json;
mod cable;
mod cycle;
mod judgement;
mod lines;
mod object;
mod refusal;
mod status;
mod system;

pub use areas::print_areas;
pub use as_json::{
    json_arrived, json_break, json_copies, json_refuse_mapped, json_swapped, with_cable, with_state,
};
pub use cable::{
    End, Missing, Places, PortText, Stationed, are_swapped, missing_of, name_at, print_arrived,
    print_break, print_copies, print_swapped, put_break, put_swapped,
};
pub use cycle::{VerdictText, print_item, print_items, print_verdict, status_of};
pub use judgement::{CountText, print_counts, print_losses};
pub use lines::Lines;
pub use object::{FaultText, TripsText, ValueText, print_line, print_read, print_written};
pub use refusal::{refuse, refuse_mapped, refuse_work};
pub use status::{BAD_ARGUMENTS, FAILED, GOOD, REFUSED};
pub use system::SystemError;

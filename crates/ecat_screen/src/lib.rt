#![tactic(auto)]
//! A page on a terminal that shows how a master runs, as `top` shows how a machine does.
//!
//! - [`Watching`]: a task over another one of a master that draws the page behind its cycles, four times a
//!   second at the most.
//! - [`Recent`]: the last lines that were written, for the page, and [`Kept`]: the writer that keeps them.
//!   While the page is drawn it writes them nowhere else where the page lies on the same terminal.
//! - `page`: what stands on it: the counts of cycles, the cable, each slave by a letter and each link by a
//!   mark, who is not in Op, the last lines, and how long cycles took. `drawing`: letters, marks and bars.
//!
//! One use; `task` is that of a master, `recent` a cell for the last lines, `out` a writer:
//!
//! ```text
//! let recent: Shared = Cell::new(Some(Box::new(alloc, Recent::none())?));
//! let mut out = Kept::new(&mut out, &recent, is_apart, &is_over);
//! let mut task = Watching::new(task, &recent);
//! ```
//!
//! ```text
//! cycles 61000 good 60950 short 50 over 0 fault 0 not-in-op 0, 1000 a second, missed 0
//! link 2 down: between slave 1 (0x1002) and slave 2 (0x1003)
//! A-O-OxO-O-O-B
//! ```
//!
//! What is promised: each slave's letter is that of its state, each link's mark says whether it is up
//! (`specs/Drawn.antt`); of the lines that were written the page has the last ones, cut to its width, and no
//! byte of them commands the terminal (`specs/Kept.antt`). It takes no memory behind its beginning.
//!
//! Drawing begins at the top of the terminal, row for row, with lines that do not wrap, so that it does not
//! depend on its size; behind it the cursor stands below the page, and all is as it was: whoever ends the
//! program at any time finds his terminal so.

mod drawing;
mod page;
mod recent;
mod watching;

pub use drawing::{bar_of, letter_of, mark_of};
pub use recent::{Kept, Recent, Shared};
pub use watching::Watching;

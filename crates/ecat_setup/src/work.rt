//! The work of a scene's items.

use crate::failure::LineFailure;
use ec_map::Item;
use ec_master::Work;

/// The work of these items, in their order.
pub fn work_of(items: Vec<Item>) -> Result<Work, LineFailure> {
    let mut work = Work::new();
    push_items(&mut work, items)?;
    Ok(work)
}

/// Puts these items behind those of a work, in their order, as far as there is room: a work is large, and one
/// that stays where it is made costs no second place on the stack.
pub fn push_items(work: &mut Work, items: Vec<Item>) -> Result<(), LineFailure> {
    for item in items {
        if work.push(item).is_err() {
            return Err(LineFailure::TooMany);
        }
    }
    Ok(())
}

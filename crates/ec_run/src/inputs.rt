//! The inputs of a cycle.

ghost use Rattle.std.specs.Prelude.{◌≡◌, ◌≤◌, ◌+◌, ◌++◌, length, take};
ghost use Rattle.ec_run.specs.Inputs.{given_by, inputs_of};

use arrayvec::ArrayVec;
use ec_map::Item;
use ec_master::{MAX_ITEMS, Work};
use ec_wire::MAX_DATA;

/// The most bytes of the inputs of a cycle: each item of a work has as many data as a datagram can hold.
pub const MOST_INPUTS: usize = MAX_ITEMS * MAX_DATA;

/// The inputs of a cycle: the data of the items that read, one item behind the other.
pub type Inputs = ArrayVec<u8, MOST_INPUTS>;

/// Makes these the inputs that the first so many items of a work brought back, whatever was held there.
pub fn put_inputs(work: &Work, count: usize, into: &mut Inputs)
    ensures { into.new.items ≡ inputs_of (take count work.now) }
{
    into.clear();
    for k in 0..work.len().min(count) {
        put_input(work.item(k), into);
    }
}

/// Adds the data of an item if it reads.
fn put_input(item: &Item, into: &mut Inputs)
    requires { length into.old.items + MAX_DATA ≤ MOST_INPUTS }
    ensures value { into.new.items ≡ into.old.items ++ given_by item.now }
    ensures size { length into.new.items ≤ length into.old.items + MAX_DATA }
{
    // For the prover: an item has so many data at the most.
    let _count = item.len();
    if item.kind().command().reads() {
        append(into, item.data());
    }
}

/// Adds data for which there is room.
fn append(into: &mut Inputs, payload: &[u8])
    requires { length into.old.items + length payload.now ≤ MOST_INPUTS }
    ensures { into.new.items ≡ into.old.items ++ payload.now }
{
    match into.try_extend_from_slice(payload) {
        Ok(()) => {}
        Err(_) => {}
    }
}

//! The states of all slaves of a line at once: one datagram reads them in each cycle, one asks for a state.

ghost use Rattle.std.specs.Prelude.{◌≡◌, ◌≢◌, ◌≤◌, ◌<◌, ◌↔◌, IfOk, length, true};
ghost use Rattle.ec_wire.specs.Datagram.{nth};
ghost use Rattle.ec_master.specs.declared.work.TheConstants.{MAX_ITEMS};
ghost use Rattle.ec_run.specs.States.{Leaves, is_left, states_item, tells_all_in_op, with_states};

use crate::ask::put;
use ec_map::Item;
use ec_master::{MAX_ITEMS, Ports, Work};
use ec_regs::AlState;
use ec_regs::registers::{AL_CONTROL, AL_STATUS};
use ec_services::{MasterFault, request};
use ec_wire::{Command, FrameBuf, Kind, address_of};

/// What AL status says of a slave that is in Op and has no error (IEC 61158-6-12, AL status).
const IN_OP: u8 = 8;

/// How often [`leave`] asks all slaves for a state, at the most.
pub const LEAVE_ASKS: u32 = 25;

/// The item that reads the AL status of all slaves: a broadcast read of one byte, sent as 0. The answer has
/// each bit that the byte of any slave has (IEC 61158-4-12, broadcast read; IEC 61158-6-12, AL status).
pub fn states_item() -> Item
    ensures { result ≡ states_item }
{
    match Item::new(Kind::Brd, u32::from(AL_STATUS), &[0]) {
        Ok(item) => item,
        Err(_) => unreachable!(),
    }
}

/// Puts the item that reads the states behind those of a work, and answers whether there was room for it.
pub fn add_states(work: &mut Work) -> bool
    ensures added { work.new ≡ with_states work.old }
    ensures room { result ≡ true ↔ length work.old ≢ MAX_ITEMS }
{
    work.push(states_item()).is_ok()
}

/// Does an image, whose last item is `states_item`, tell that all slaves were in Op, without an error?
pub fn tells_all_in_op(image: &Work) -> bool
    ensures { result ≡ tells_all_in_op image.now }
{
    if image.len() == 0 {
        return false;
    }
    match image.item(image.len() - 1).data().first() {
        Some(byte) => *byte == IN_OP,
        None => false,
    }
}

/// Has an answer been counted by so many slaves, all of them in this state and without an error?
fn is_left(joined: &Result<FrameBuf, MasterFault>, state: AlState, slaves: u16) -> bool
    requires one { IfOk joined.now (λ frame. length frame ≡ 1) }
    requires size { IfOk joined.now (λ frame. length (nth frame 0).payload ≡ 1) }
    ensures { result ≡ is_left state slaves joined.now }
{
    match joined {
        Ok(joined) => joined.counter(0) == slaves && joined.data(0)[0] == state.code(),
        Err(_) => false,
    }
}

/// Asks all slaves of a line for a state at once, by a broadcast write of AL control, which acknowledges
/// errors that stand; and again until an answer says that as many slaves as there are to be are in that
/// state. A trip that fails is one that brings no answer. `NoAnswer`: none of `LEAVE_ASKS` answers said so.
pub fn leave<P: Ports>(ports: &mut P, state: AlState, slaves: u16) -> Result<(), MasterFault>
    ensures leaves { Leaves P.trips ports.old state slaves LEAVE_ASKS result ports.new }
    ensures never_lower { P.failed ports.old ≤ P.failed ports.new }
{
    let control = [state.acknowledging_request(), 0];
    let write = request(Command::Bwr, address_of(0, AL_CONTROL), &control);
    let read = request(Command::Brd, address_of(0, AL_STATUS), &[0]);
    for _ask in 0..LEAVE_ASKS {
        let _ = put(ports, &write);
        let joined = put(ports, &read);
        if is_left(&joined, state, slaves) {
            return Ok(());
        }
    }
    Err(MasterFault::NoAnswer)
}

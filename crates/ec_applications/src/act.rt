//! How applications act: by their controllers' outputs and inputs.

ghost use Rattle.std.specs.Prelude.{◌≡◌, ◌<◌, ◌≤◌, ◌-◌, ◌++◌, IfSome, length, take, option_map, replicate};
ghost use Rattle.std.specs.Int.{w64, to_le_bytes};
ghost use Rattle.ec_regs.specs.declared.registers.TheConstants.{SYNC_MANAGER_COUNT, PROCESS_MEMORY_SIZE};
ghost use Rattle.ec_areas.specs.Records.{sync_manager_at};
ghost use Rattle.ec_esc.specs.Application.{outputs_of};
ghost use Rattle.ec_applications.specs.Acting.{acted, behaved, one_acted, put, put_number, put_shown};
ghost use Rattle.ec_applications.specs.Acting.{slave_behaved};

use crate::application::{Application, Behaviour};
use ec_app::Slave;
use ec_esc::Controller;
use ec_regs::registers::{PROCESS_MEMORY_SIZE, SYNC_MANAGER_COUNT};
use ec_ring::Ring;

/// Room for the longest area.
const ROOM: usize = PROCESS_MEMORY_SIZE as usize;

/// Lets each application act, one after the other, on its slave.
pub(crate) fn act_each(all: &[Application], times: u64, ring: &mut Ring)
    ensures { ring.new ≡ acted times all.now ring.old }
{
    let mut room = [0; ROOM];
    for one in all.iter() {
        act_one(one, times, ring, &mut room);
    }
}

/// Lets one act on its slave, if the line has it.
fn act_one(one: &Application, times: u64, ring: &mut Ring, room: &mut [u8; ROOM])
    ensures { ring.new ≡ one_acted times one.now ring.old }
{
    if one.place < ring.slaves().len() {
        behave(ring.slave_mut(one.place), one.behaviour, times, room);
    }
}

/// Lets an application do what it does.
fn behave(slave: &mut Slave, behaviour: Behaviour, times: u64, room: &mut [u8; ROOM])
    ensures { slave.new ≡ slave_behaved times behaviour slave.old }
{
    act_by(slave.controller_mut(), behaviour, times, room);
}

/// What it does to its controller.
fn act_by(controller: &mut Controller, behaviour: Behaviour, times: u64, room: &mut [u8; ROOM])
    ensures { controller.new ≡ behaved times behaviour controller.old }
{
    match behaviour {
        Behaviour::Mirror { inputs, outputs } => {
            if inputs < SYNC_MANAGER_COUNT && outputs < SYNC_MANAGER_COUNT {
                mirror(controller, inputs, outputs, room);
            }
        }
        Behaviour::Count { inputs } => {
            if inputs < SYNC_MANAGER_COUNT {
                count(controller, inputs, times);
            }
        }
    }
}

/// Puts the outputs that the application is shown into its inputs.
fn mirror(controller: &mut Controller, inputs: usize, outputs: usize, room: &mut [u8; ROOM])
    requires inputs { inputs < SYNC_MANAGER_COUNT }
    requires outputs { outputs < SYNC_MANAGER_COUNT }
    ensures { controller.new ≡ put_shown controller.old inputs (outputs_of controller.old outputs) }
{
    if let Some(count) = see(controller, outputs, room) {
        put(controller, inputs, &room[..count]);
    }
}

/// Copies the outputs that the application is shown, and answers how many bytes they are; `None` where the
/// sync manager guards none.
fn see(controller: &Controller, outputs: usize, room: &mut [u8; ROOM]) -> Option<usize>
    requires { outputs < SYNC_MANAGER_COUNT }
    ensures seen { option_map (λ count. take count room.new) result ≡ outputs_of controller.now outputs }
    ensures fits { IfSome result (λ count. count ≤ PROCESS_MEMORY_SIZE) }
{
    // For the prover: each controller has as many shown bytes as process memory has.
    let _station = controller.station();
    let seen = controller.outputs(outputs)?;
    room[..seen.len()].copy_from_slice(seen);
    Some(seen.len())
}

/// Puts a number into the inputs, as many of its bytes as they have.
fn count(controller: &mut Controller, inputs: usize, times: u64)
    requires { inputs < SYNC_MANAGER_COUNT }
    ensures { controller.new ≡ put_number controller.old inputs times }
{
    let manager = controller.syncman(inputs);
    if manager.guards_inputs() {
        let bytes = spelt(times);
        put(controller, inputs, &bytes[..manager.length as usize]);
    }
}

/// A number of eight bytes, the lowest first, and zeros behind it, as they fill the longest area.
fn spelt(number: u64) -> [u8; ROOM]
    ensures { result ≡ to_le_bytes w64 number ++ replicate (PROCESS_MEMORY_SIZE - 8) 0 }
{
    let bytes = number.to_le_bytes();
    padded(&bytes)
}

/// Bytes and zeros behind them, as they fill the longest area.
fn padded(front: &[u8]) -> [u8; ROOM]
    requires { length front.now ≤ PROCESS_MEMORY_SIZE }
    ensures { result ≡ front.now ++ replicate (PROCESS_MEMORY_SIZE - length front.now) 0 }
{
    let mut bytes = [0; ROOM];
    bytes[..front.len()].copy_from_slice(front);
    bytes
}

/// Puts inputs; what is refused changes nothing.
fn put(controller: &mut Controller, inputs: usize, bytes: &[u8])
    requires { inputs < SYNC_MANAGER_COUNT }
    ensures { controller.new ≡ put controller.old inputs bytes.now }
{
    let _ = controller.put_inputs(inputs, bytes);
}

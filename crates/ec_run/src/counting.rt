//! How many slaves there are.

ghost use Rattle.std.specs.Prelude.{◌≡◌, ◌≤◌, ◌<◌, Err};
ghost use Rattle.ec_services.specs.declared.fault.MasterFault.TheVariants.{Port};
ghost use Rattle.ec_run.specs.Counting.{IsCounted};

use crate::ask::put;
use ec_master::Ports;
use ec_regs::registers::AL_STATUS;
use ec_services::{MasterFault, request};
use ec_wire::{Command, address_of};

/// Counts the slaves that a frame reaches, by a broadcast read of AL status, whatever the cable is like: over
/// an open ring its copies count together.
pub fn count_slaves<P: Ports>(ports: &mut P) -> Result<u16, MasterFault>
    ensures counting { IsCounted P.trips ports.old result ports.new }
    ensures counted { result ≡ Err Port → P.failed ports.old < P.failed ports.new }
    ensures never_lower { P.failed ports.old ≤ P.failed ports.new }
{
    let sent = request(Command::Brd, address_of(0, AL_STATUS), &[0; 2]);
    Ok(put(ports, &sent)?.counter(0))
}

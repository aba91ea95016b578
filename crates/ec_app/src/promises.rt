//! What a step of a slave leaves, as a law.

ghost use Rattle.std.specs.Prelude.{◌≡◌, length};
ghost use Rattle.ec_regs.specs.declared.registers.TheConstants.{MEMORY_SIZE};
ghost use Rattle.ec_app.specs.Left.{SameLeft};
ghost use Rattle.ec_app.specs.Slave.{step};
ghost use Rattle.ec_app.specs.State.{SlaveState};

/// A step (`Slave::step`) writes of a controller's registers AL status, AL status code and the status bytes
/// of both mailboxes alone (IEC 61158-6-12, AL management and CoE); every other register stays, so no
/// mapping and no station address changes.
pub fn step_leaves()
    ensures { (s : SlaveState) → length s.controller.memory ≡ MEMORY_SIZE
        → SameLeft s.controller.memory (step s).controller.memory }
{}

//! What the rules must know of a slave: its station address, and its records.

ghost use Rattle.std.specs.Prelude.{◌≡◌, ◌<◌, ◌≤◌};
ghost use Rattle.ec_regs.specs.declared.registers.TheConstants.{FMMU_COUNT, SYNC_MANAGER_COUNT};
ghost use Rattle.ec_regs.specs.declared.registers.TheConstants.{STATION_ADDRESS};
ghost use Rattle.ec_areas.specs.Records.{fmmu_at, sync_manager_at};
ghost use Rattle.ec_esc.specs.State.{ControllerState, IsController, word_at};
ghost use Rattle.ec_line.specs.Claims.{gain};

use ec_app::Slave;
use ec_regs::{Fmmu, SyncMan};
use ec_wire::Kind;

/// A slave as the rules of the mapping see it: by its station address, its FMMUs and its sync managers (IEC
/// 61158-4-12). Contracts see the controller that has them.
pub trait Mapped {
    /// The controller that has these records.
    ghost controller: { Self → ControllerState };

    /// The station address.
    fn station(&self) -> u16
        ensures value { result ≡ word_at (controller self.now).memory STATION_ADDRESS }
        ensures controller { IsController (controller self.now) };

    /// An FMMU, by its number.
    fn fmmu(&self, number: usize) -> Fmmu
        requires { number < FMMU_COUNT }
        ensures { result ≡ fmmu_at (controller self.now).memory number };

    /// A sync manager, by its number.
    fn sync_manager(&self, number: usize) -> SyncMan
        requires { number < SYNC_MANAGER_COUNT }
        ensures { result ≡ sync_manager_at (controller self.now).memory number };

    /// What the working counter of a request gains there, 0 to 3, by its kind, its address and the number of
    /// its data bytes.
    fn gain(&self, kind: Kind, address: u32, count: u16) -> u16
        ensures value { result
            ≡ gain (record { kind = kind; address = address; count = count }) (controller self.now) }
        ensures bound { result ≤ 3 };
}

/// A simulated slave is mapped as its controller is.
impl Mapped for Slave {
    ghost controller = { λ s. s.controller };

    fn station(&self) -> u16 {
        self.controller().station()
    }

    fn fmmu(&self, number: usize) -> Fmmu {
        self.controller().fmmu(number)
    }

    fn sync_manager(&self, number: usize) -> SyncMan {
        self.controller().syncman(number)
    }

    #[tactic(auto, unfolding(ec_line::specs::Claims::gain))]
    fn gain(&self, kind: Kind, address: u32, count: u16) -> u16 {
        self.controller().gain(kind.command(), address, count)
    }
}

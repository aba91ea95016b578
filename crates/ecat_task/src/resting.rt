//! The slaves of a line that rests while nobody gives its outputs.

ghost use Rattle.std.specs.Prelude.{◌≡◌, ◌≢◌, ◌≤◌, ◌+◌, IfNone, IfSome, IsOk, Some, false, length};
ghost use Rattle.std.specs.Prelude.{slice_get};
ghost use Rattle.ec_acyclic.specs.declared.service.Service.TheVariants.{State};
ghost use Rattle.ecat_task.specs.Resting.{state_of};

use ec_acyclic::{Answer, Service};
use ec_regs::AlState;
use ec_services::MasterFault;
use ecat_master::Asked;

/// Slaves that are asked for Safe-Op once outputs are stale, and for Op once they are not (IEC 61158-6-12, AL
/// management): one after the other, and all of them once more where one did not come to it.
#[derive(Drop)]
pub struct Resting {
    /// The station addresses of the slaves.
    pub(crate) stations: Vec<u16>,
    /// The state in which they are to be.
    pub(crate) state: AlState,
    /// How many of them were asked for it.
    pub(crate) asked: usize,
    /// Whether one of these did not come to it.
    pub(crate) has_missed: bool,
    /// For which state one is being asked.
    pub(crate) under_way: Option<AlState>,
}

impl Resting {
    /// Slaves with these station addresses, which are in Op.
    pub fn of(stations: Vec<u16>) -> Resting {
        Resting {
            asked: stations.len(),
            stations,
            state: AlState::Op,
            has_missed: false,
            under_way: None,
        }
    }

    /// Follows whether outputs are stale: they are to be in another state once that changes.
    pub fn follow(&mut self, are_stale: bool)
        ensures state { self.new.state ≡ state_of are_stale }
        ensures begins { self.new.state ≢ self.old.state → self.new.asked ≡ 0 }
        ensures goes_on { self.new.state ≡ self.old.state → self.new ≡ self.old }
        ensures stations { self.new.stations ≡ self.old.stations }
    {
        let state = state_of(are_stale);
        if state != self.state {
            self.state = state;
            self.asked = 0;
            self.has_missed = false;
        }
    }

    /// What the next slave is to be asked for, if one is.
    pub fn ask(&mut self) -> Option<Asked>
        ensures station { IfSome result
            (λ asked. slice_get self.old.stations.items self.old.asked ≡ Some asked.station) }
        ensures state { IfSome result (λ asked. asked.service ≡ State self.old.state) }
        ensures none { IfNone result (length self.old.stations.items ≤ self.old.asked) }
        ensures under_way { IfSome result (λ asked. self.new.under_way ≡ Some self.old.state) }
        ensures kept { self.new.asked ≡ self.old.asked }
        ensures stations { self.new.stations ≡ self.old.stations }
    {
        if self.asked >= self.stations.len() {
            return None;
        }
        self.under_way = Some(self.state);
        Some(Asked {
            station: self.stations[self.asked],
            service: Service::State(self.state),
        })
    }

    /// Takes what came of the last one that was asked. One that was asked for another state than it is to be
    /// in by now is asked again.
    pub fn take(&mut self, answer: &Result<Answer, MasterFault>)
        ensures one { self.new.asked ≤ self.old.asked + 1 }
        ensures other { self.old.under_way ≢ Some self.old.state → self.new.asked ≡ self.old.asked }
        ensures all { self.old.asked + 1 ≡ length self.old.stations.items
            → self.new.asked ≡ length self.old.stations.items
            → IsOk answer.now × (self.old.has_missed ≡ false) }
        ensures stations { self.new.stations ≡ self.old.stations }
    {
        let is_of_state = self.under_way == Some(self.state);
        self.under_way = None;
        if !is_of_state {
            return;
        }
        self.asked = self.asked.saturating_add(1);
        self.has_missed = self.has_missed || answer.is_err();
        if self.asked >= self.stations.len() && self.has_missed {
            self.asked = 0;
            self.has_missed = false;
        }
    }
}

/// The state in which slaves are to be, by whether outputs are stale.
fn state_of(are_stale: bool) -> AlState
    ensures { result ≡ state_of are_stale }
{
    if are_stale {
        AlState::SafeOp
    } else {
        AlState::Op
    }
}

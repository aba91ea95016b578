//! The AL step of a slave: what it does with a request of the master to change its state (IEC 61158-6-12, AL
//! management).

ghost use Rattle.std.specs.Prelude.{◌≡◌};
ghost use Rattle.ec_app.specs.AlStep.{al_answer, with_al_answer, al_step};

use crate::roles::{
    ANSWER_MAILBOX, INPUTS, OUTPUTS, REQUEST_MAILBOX, areas_meet, fits_inputs, fits_outputs,
    is_answer_mailbox, is_request_mailbox,
};
use crate::slave::Slave;
use ec_regs::{AlState, AlStatus, AlStatusCode, acknowledges};

/// The code of the state that is asked for is what of AL control is below this.
const CODES: u16 = 1 << 4;

/// The code of Bootstrap, a state that no slave here has.
const BOOTSTRAP: u8 = 3;

/// What a slave answers to a request for a state.
#[derive(Clone, Copy, PartialEq, Eq, Debug)]
enum AlAnswer {
    /// Nothing: an error stands that the request does not acknowledge.
    Ignored,
    /// The state stays, an error is told, and the AL status code says why.
    Refused(AlStatusCode),
    /// The slave is in this state, and no error stands.
    Entered(AlState),
}

impl Slave {
    ghost use Rattle.ec_app.specs.AlStep.{lacks_mailboxes, has_outputs, has_inputs};
    ghost use Rattle.ec_app.specs.Roles.{has_mailboxes};

    /// Are both mailboxes there, and do they share no byte?
    fn has_mailboxes(&self) -> bool
        ensures { result ≡ has_mailboxes self.now.controller.memory }
    {
        let requests = self.controller.syncman(REQUEST_MAILBOX);
        let answers = self.controller.syncman(ANSWER_MAILBOX);
        is_request_mailbox(&requests)
            && is_answer_mailbox(&answers)
            && !areas_meet(&requests, &answers)
    }

    /// Does the slave lack the mailboxes that it needs on the way to Pre-Op? A simple slave needs none.
    fn lacks_mailboxes(&self) -> bool
        ensures { result ≡ lacks_mailboxes self.now }
    {
        !self.simple && !self.has_mailboxes()
    }

    /// Does the sync manager of the outputs fit what the application works with?
    fn has_outputs(&self) -> bool
        ensures { result ≡ has_outputs self.now }
    {
        fits_outputs(&self.controller.syncman(OUTPUTS), self.out_length)
    }

    /// Does the sync manager of the inputs fit what the application works with?
    fn has_inputs(&self) -> bool
        ensures { result ≡ has_inputs self.now }
    {
        fits_inputs(&self.controller.syncman(INPUTS), self.in_length)
    }

    /// What the slave answers to this AL control.
    #[tactic(auto, unfolding(crate::specs::AlStep::al_answer))]
    fn al_answer(&self, control: u16) -> AlAnswer
        ensures { result ≡ al_answer self.now control }
    {
        let (status, _) = self.controller.al();
        let current = status.state.code();
        let asked = (control % CODES) as u8;
        if status.error && !acknowledges((control % 256) as u8) {
            return AlAnswer::Ignored;
        }
        if asked == BOOTSTRAP {
            return AlAnswer::Refused(AlStatusCode::BootstrapNotSupported);
        }
        let Some(state) = AlState::from_code(asked) else {
            return AlAnswer::Refused(AlStatusCode::UnknownState);
        };
        if asked <= current {
            return AlAnswer::Entered(state);
        }
        if asked > 2 * current {
            return AlAnswer::Refused(AlStatusCode::InvalidStateChange);
        }
        if state == AlState::PreOp && self.lacks_mailboxes() {
            return AlAnswer::Refused(AlStatusCode::InvalidMailboxConfiguration);
        }
        if state == AlState::SafeOp && !self.has_outputs() {
            return AlAnswer::Refused(AlStatusCode::InvalidOutputConfiguration);
        }
        if state == AlState::SafeOp && !self.has_inputs() {
            return AlAnswer::Refused(AlStatusCode::InvalidInputConfiguration);
        }
        AlAnswer::Entered(state)
    }

    /// Does what the answer says.
    fn apply_al(&mut self, answer: AlAnswer)
        ensures { self.new ≡ with_al_answer self.old answer }
    {
        match answer {
            AlAnswer::Ignored => {}
            AlAnswer::Refused(code) => {
                let status = AlStatus {
                    state: self.state(),
                    error: true,
                };
                self.controller.set_al(status, code.code());
            }
            AlAnswer::Entered(state) => {
                self.set_state(state);
                if state == AlState::Init {
                    self.kept = None;
                }
            }
        }
    }

    /// Answers the request in AL control, where the master wrote one since the last step.
    #[tactic(auto, unfolding(crate::specs::AlStep::al_step))]
    pub(crate) fn al_step(&mut self)
        ensures { self.new ≡ al_step self.old }
    {
        if let Some(control) = self.controller.take_control() {
            let answer = self.al_answer(control);
            self.apply_al(answer);
        }
    }
}

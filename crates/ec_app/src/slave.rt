//! One slave: its controller and its application.

ghost use Rattle.std.specs.Prelude.{◌≡◌, true, false, IfOk, None};
ghost use Rattle.std.specs.Borrow.{sem};
ghost use Rattle.ec_app.specs.AlStep.{with_state};
ghost use Rattle.ec_app.specs.Lending.{LendsController};
ghost use Rattle.ec_app.specs.Slave.{restarted, step};
ghost use Rattle.ec_esc.specs.Application.{al_status, al_status_code};
ghost use Rattle.ec_esc.specs.State.{IsFresh};

use crate::objects::Objects;
use ec_esc::Controller;
use ec_regs::{AlState, AlStatus, NoMemory};
use std::alloc::Global;
use std::marker::Model;

/// One slave (IEC 61158-6-12, application layer of a slave): a controller, by which the master reaches it,
/// and an application, which has the objects, keeps the counter of the last good mail that it took, and works
/// with outputs and inputs of a fixed length. The application of a simple slave (one of digital inputs or
/// outputs, say) needs no mailbox. Contracts see the state of the controller and that of the application.
#[derive(Drop)]
pub struct Slave {
    pub(crate) controller: Controller,
    pub(crate) objects: Objects,
    pub(crate) kept: Option<u8>,
    pub(crate) out_length: u16,
    pub(crate) in_length: u16,
    pub(crate) simple: bool,
}

impl Model for Slave {
    ghost use Rattle.ec_app.specs.Slave.{SlaveState};

    ghost Value = { SlaveState };

    ghost view = { λ s. record {
      controller = s.controller;
      application = record {
        objects = s.objects;
        kept = s.kept;
        out_length = s.out_length;
        in_length = s.in_length;
        simple = s.simple;
      };
    } };
}

impl Slave {
    /// A slave with this station address, in Init, with these objects and with outputs and inputs of these
    /// lengths in bytes; it has taken no mail. It fails only where the allocator has no room for its
    /// controller.
    pub fn new(
        alloc: Global,
        station: u16,
        objects: Objects,
        out_len: u16,
        in_len: u16,
    ) -> Result<Slave, NoMemory>
        ensures controller { IfOk result (λ slave. IsFresh station slave.controller) }
        ensures application { IfOk result (λ slave. slave.application ≡ record {
          objects = objects;
          kept = None;
          out_length = out_len;
          in_length = in_len;
          simple = false;
        }) }
    {
        Ok(Slave {
            controller: Controller::new(alloc, station)?,
            objects,
            kept: None,
            out_length: out_len,
            in_length: in_len,
            simple: false,
        })
    }

    /// A simple slave: as by [`Slave::new`], but on the way to Pre-Op it needs no mailbox (IEC 61158-6-12, AL
    /// management). Where the master configures mailboxes all the same, it answers mails as any slave.
    pub fn simple(
        alloc: Global,
        station: u16,
        objects: Objects,
        out_len: u16,
        in_len: u16,
    ) -> Result<Slave, NoMemory>
        ensures controller { IfOk result (λ slave. IsFresh station slave.controller) }
        ensures application { IfOk result (λ slave. slave.application ≡ record {
          objects = objects;
          kept = None;
          out_length = out_len;
          in_length = in_len;
          simple = true;
        }) }
    {
        let mut slave = Slave::new(alloc, station, objects, out_len, in_len)?;
        slave.simple = true;
        Ok(slave)
    }

    /// The controller, by which the master reaches the slave.
    pub fn controller(&self) -> &Controller
        ensures { result.now ≡ self.now.controller }
    {
        &self.controller
    }

    /// The controller, for frames to pass through and for its records to be set; the application stays.
    pub fn controller_mut(&mut self) -> &mut Controller
        ensures* writes_back { sem 𝓛 (LendsController self.entry result) }
        ensures value { result.now ≡ self.old.controller }
    {
        &mut self.controller
    }

    /// The objects, as the master's mails have left them.
    pub fn objects(&self) -> &Objects
        ensures { result.now ≡ self.now.application.objects }
    {
        &self.objects
    }

    /// The state of the application layer (IEC 61158-6-12, AL status), whether or not an error stands.
    pub fn state(&self) -> AlState
        ensures { result ≡ (al_status self.now.controller).state }
    {
        self.controller.al().0.state
    }

    /// Puts the slave into a state, with no error and with the AL status code 0 (IEC 61158-6-12, AL status);
    /// all else stays, the counter of the last good mail too.
    pub fn set_state(&mut self, state: AlState)
        ensures slave { self.new ≡ record self.old { controller = with_state self.old.controller state } }
        ensures status { al_status self.new.controller ≡ record { state = state; error = false } }
        ensures code { al_status_code self.new.controller ≡ 0 }
    {
        let status = AlStatus {
            state,
            error: false,
        };
        self.controller.set_al(status, 0);
    }

    /// Has the slave begin anew with this controller, as one whose power came back: it has taken no mail (IEC
    /// 61158-6-12, AL management); its objects and lengths stay.
    pub fn restart(&mut self, controller: Controller)
        ensures { self.new ≡ restarted controller self.old }
    {
        self.controller = controller;
        self.kept = None;
    }

    /// Answers at most one request for a state, then at most one mail; it never fails and takes no memory.
    ///
    /// - A request stands in AL control where the master wrote it since the last step; it is ignored, refused
    ///   with an AL status code, or met (IEC 61158-6-12, AL management).
    /// - A mail is taken in Pre-Op, Safe-Op and Op where the mailbox of requests (sync manager 0) is full and
    ///   that of answers (1) is empty. It is answered by its SDO (IEC 61158-6-12, SDO services), but dropped
    ///   where it is faulty or has the counter of the last good one. A request that is met for Init forgets
    ///   that counter.
    #[tactic(auto, unfolding(crate::specs::Slave::step))]
    pub fn step(&mut self)
        ensures step { self.new ≡ step self.old }
    {
        self.al_step();
        self.mail_step();
    }
}

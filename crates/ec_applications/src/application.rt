//! The applications of a line.

ghost use Rattle.std.specs.Prelude.{◌≡◌, []};
ghost use Rattle.ec_applications.specs.Acting.{inputs_of};
ghost use Rattle.ec_applications.specs.Behind.{applications_behind, line_acted, line_behind};
ghost use Rattle.ec_applications.specs.Eeproms.{all_served, all_kept};
ghost use Rattle.ec_applications.specs.State.{once_more};

use crate::act::act_each;
use crate::eeproms::{PlacedEeprom, serve_each};
use ec_ring::Ring;
use std::marker::Model;

/// What an application does with its process data behind a step of its slave. Sync managers are named by
/// their numbers, 0 to 7; with any other number nothing is done.
#[derive(Clone, Copy, PartialEq, Eq, Debug)]
pub enum Behaviour {
    /// It puts the outputs of one sync manager, as it is shown them, into the inputs of another one.
    Mirror {
        /// The sync manager of the inputs.
        inputs: usize,
        /// The sync manager of the outputs.
        outputs: usize,
    },
    /// It puts into the inputs of a sync manager how often the line's applications have acted, the lowest
    /// byte first: as many of the eight bytes as the inputs have, and zeros behind them.
    Count {
        /// The sync manager of the inputs.
        inputs: usize,
    },
}

impl Behaviour {
    /// The sync manager of the inputs that it puts.
    pub fn inputs(&self) -> usize
        ensures { result ≡ inputs_of self.now }
    {
        match self {
            Behaviour::Mirror { inputs, .. } | Behaviour::Count { inputs } => *inputs,
        }
    }
}

/// An application on a line.
#[derive(Clone, Copy, PartialEq, Eq, Debug)]
pub struct Application {
    /// The place of its slave, the first slave's being 0.
    pub place: usize,
    /// What it does.
    pub behaviour: Behaviour,
}

/// The applications of a line, in the order in which they act, and how often they have acted. Contracts see
/// these two.
#[derive(Drop)]
pub struct Applications {
    all: Option<Vec<Application>>,
    acted: u64,
    eeproms: Option<Vec<PlacedEeprom>>,
}

impl Model for Applications {
    ghost use Rattle.std.specs.Prelude.{option_map};
    ghost use Rattle.ec_applications.specs.State.{ApplicationsState, listed};

    ghost Value = { ApplicationsState };

    ghost view = { λ a. record {
      all = listed (option_map (λ v. v.items) a.all);
      acted = a.acted;
      eeproms = listed (option_map (λ v. v.items) a.eeproms);
    } };
}

impl Applications {
    /// No applications, which have not acted yet. They take no memory.
    pub fn none() -> Applications
        ensures all { result.all ≡ [] }
        ensures acted { result.acted ≡ 0 }
        ensures eeproms { result.eeproms ≡ [] }
    {
        Applications {
            all: None,
            acted: 0,
            eeproms: None,
        }
    }

    /// These applications, which have not acted yet.
    pub fn new(all: Vec<Application>) -> Applications
        ensures all { result.all ≡ all.items }
        ensures acted { result.acted ≡ 0 }
        ensures eeproms { result.eeproms ≡ [] }
    {
        Applications {
            all: Some(all),
            acted: 0,
            eeproms: None,
        }
    }

    /// The EEPROMs of the line's slaves are these.
    pub fn set_eeproms(&mut self, eeproms: Vec<PlacedEeprom>)
        ensures { self.new ≡ record self.old { eeproms = eeproms.items } }
    {
        self.eeproms = Some(eeproms);
    }

    /// Lets each application act once on the slaves of a line, and then each EEPROM answer and its slave give
    /// the last mail once more where the master asks for it, as they do behind each step of the slaves
    /// (`Ring::step_all`); all else of the line stays. What is refused, as inputs of another length than
    /// their area, changes nothing. It takes no memory.
    pub fn act(&mut self, ring: &mut Ring)
        ensures own { self.new ≡ applications_behind self.old ring.old }
        ensures ring { ring.new ≡ line_behind self.old ring.old }
    {
        self.behave(ring);
        self.serve(ring);
    }

    /// Lets each application act once.
    fn behave(&mut self, ring: &mut Ring)
        ensures own { self.new ≡ once_more self.old }
        ensures ring { ring.new ≡ line_acted self.old ring.old }
    {
        self.acted = self.acted.wrapping_add(1);
        if let Some(all) = &self.all {
            act_each(all.as_slice(), self.acted, ring);
        }
    }

    /// Lets each EEPROM answer, and its slave give the last mail once more.
    fn serve(&mut self, ring: &mut Ring)
        ensures own { self.new ≡ record self.old { eeproms = all_kept self.old.eeproms ring.old } }
        ensures ring { ring.new ≡ all_served self.old.eeproms ring.old }
    {
        match &mut self.eeproms {
            Some(eeproms) => serve_each(eeproms.as_mut_slice(), ring),
            None => {}
        }
    }
}

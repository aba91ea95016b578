//! The EEPROMs of a line's slaves, which answer behind each packet (ETG.1000.4, slave information
//! interface), each before its slave gives the last mail once more.

ghost use Rattle.std.specs.Prelude.{◌≡◌, ◌<◌, length, slice_get};
ghost use Rattle.ec_applications.specs.Eeproms.{one_served, contents_kept, slave_served, placed_after};
ghost use Rattle.ec_applications.specs.Eeproms.{all_served, all_kept};
ghost use Rattle.ec_applications.specs.Repeats.{repeated};
ghost use Rattle.ec_sii.specs.Served.{served, contents_served};

use crate::repeats::repeat_if_asked;
use ec_app::Slave;
use ec_esc::Controller;
use ec_ring::Ring;
use ec_sii::Eeprom;

/// The EEPROM of a slave on a line.
#[derive(Drop)]
pub struct PlacedEeprom {
    /// The place of its slave, the first slave's being 0.
    pub place: usize,
    /// What stands in it.
    pub eeprom: Eeprom,
}

impl PlacedEeprom {
    /// Answers what the master asked for through the slave's controller, and gives the last mail once more
    /// where that is asked for (IEC 61158-4-12, sync manager, repeat request), if the line has the slave and
    /// its controller the interface; all else of the line stays.
    pub fn serve(&mut self, ring: &mut Ring)
        ensures ring { ring.new ≡ one_served self.old.place self.old.eeprom ring.old }
        ensures own { self.new ≡ placed_after self.old ring.old }
    {
        let place = self.place;
        serve_at(ring, place, &mut self.eeprom);
    }
}

/// Lets each EEPROM answer, and its slave give the last mail once more, one after the other.
pub fn serve_each(all: &mut [PlacedEeprom], ring: &mut Ring)
    ensures ring { ring.new ≡ all_served all.old ring.old }
    ensures own { all.new ≡ all_kept all.old ring.old }
{
    for k in 0..all.len() {
        all[k].serve(ring);
    }
}

/// Serves the slave at a place, if the line has it.
fn serve_at(ring: &mut Ring, place: usize, eeprom: &mut Eeprom)
    ensures ring { ring.new ≡ one_served place eeprom.old ring.old }
    ensures own { eeprom.new ≡ contents_kept eeprom.old (slice_get ring.old.slaves place) }
{
    if place < ring.slaves().len() {
        serve_slave(ring.slave_mut(place), eeprom);
    }
}

/// Serves a slave.
fn serve_slave(slave: &mut Slave, eeprom: &mut Eeprom)
    ensures slave { slave.new ≡ slave_served eeprom.old slave.old }
    ensures own { eeprom.new ≡ contents_served eeprom.old slave.old.controller }
{
    serve_controller(slave.controller_mut(), eeprom);
}

/// Serves its controller: the EEPROM answers, and then the last mail is given once more where it is asked
/// for.
fn serve_controller(controller: &mut Controller, eeprom: &mut Eeprom)
    ensures controller { controller.new ≡ repeated (served eeprom.old controller.old) }
    ensures own { eeprom.new ≡ contents_served eeprom.old controller.old }
{
    eeprom.serve(controller);
    repeat_if_asked(controller);
}

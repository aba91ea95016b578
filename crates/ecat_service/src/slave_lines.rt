//! What `line` prints of a line that is served: a line for each slave.

ghost use Rattle.std.specs.Prelude.{◌≡◌, ◌+◌, ◌<◌, Some};
ghost use Rattle.ec_esc.specs.Application.{al_status};
ghost use Rattle.ec_esc.specs.State.{word_at};
ghost use Rattle.ec_regs.specs.Al.{code_of};
ghost use Rattle.ec_regs.specs.declared.registers.TheConstants.{STATION_ADDRESS};
ghost use Rattle.ec_ring.specs.Links.{is_up};
ghost use Rattle.ec_ring.specs.declared.links.TheConstants.{MAX_SLAVES};
ghost use Rattle.ecat_service.specs.Controls.{active_words, beside_words, error_of, four_digits, link_words};
ghost use Rattle.ecat_service.specs.Controls.{name_words, slave_words, status_words};

use ec_app::Slave;
use ec_esc::Controller;
use ec_regs::registers::{FMMU_COUNT, SYNC_MANAGER_COUNT};
use ec_ring::{Links, Ring, Travel};
use ecat_text::Lines;
use std::fmt;
use std::io::{self, Write};

/// A link, as it is printed.
#[derive(Drop)]
struct LinkText(bool);

impl fmt::Display for LinkText {
    ghost output = { λ link. Some (link_words link.0) };

    fn fmt<W: fmt::Write>(&self, f: &mut fmt::Formatter<W>) -> fmt::Result {
        match self.0 {
            true => write!(f, "up"),
            false => write!(f, "down"),
        }
    }
}

/// A number of 16 bits, as it is printed.
#[derive(Drop)]
struct FourDigits(u16);

impl fmt::Display for FourDigits {
    ghost output = { λ number. Some (four_digits number.0) };

    #[tactic(auto, unfolding(crate::specs::Controls::four_digits))]
    fn fmt<W: fmt::Write>(&self, f: &mut fmt::Formatter<W>) -> fmt::Result {
        let number = self.0;
        write!(f, "0x{number:04x}")
    }
}

/// A slave's place and station, as they are printed.
#[derive(Drop)]
struct Name {
    place: usize,
    station: u16,
}

impl fmt::Display for Name {
    ghost output = { λ name. Some (name_words name.place name.station) };

    #[tactic(auto, unfolding(crate::specs::Controls::name_words))]
    fn fmt<W: fmt::Write>(&self, f: &mut fmt::Formatter<W>) -> fmt::Result {
        let place = self.place;
        let station = FourDigits(self.station);
        write!(f, "slave {place} station {station}")
    }
}

/// The code of a slave's state, and of its error, as they are printed.
#[derive(Drop)]
struct Status {
    state: u8,
    error: u16,
}

impl fmt::Display for Status {
    ghost output = { λ status. Some (status_words status.state status.error) };

    #[tactic(auto, unfolding(crate::specs::Controls::status_words))]
    fn fmt<W: fmt::Write>(&self, f: &mut fmt::Formatter<W>) -> fmt::Result {
        let state = self.state;
        let error = FourDigits(self.error);
        write!(f, "state {state} error {error}")
    }
}

/// The links before and behind a slave, as they are printed.
#[derive(Drop)]
struct Beside {
    before: bool,
    behind: bool,
}

impl fmt::Display for Beside {
    ghost output = { λ links. Some (beside_words links.before links.behind) };

    #[tactic(auto, unfolding(crate::specs::Controls::beside_words))]
    fn fmt<W: fmt::Write>(&self, f: &mut fmt::Formatter<W>) -> fmt::Result {
        let before = LinkText(self.before);
        let behind = LinkText(self.behind);
        write!(f, "links {before} {behind}")
    }
}

/// How many FMMUs and sync managers are active, as it is printed.
#[derive(Drop)]
struct Active {
    fmmus: usize,
    managers: usize,
}

impl fmt::Display for Active {
    ghost output = { λ active. Some (active_words active.fmmus active.managers) };

    #[tactic(auto, unfolding(crate::specs::Controls::active_words))]
    fn fmt<W: fmt::Write>(&self, f: &mut fmt::Formatter<W>) -> fmt::Result {
        let fmmus = self.fmmus;
        let managers = self.managers;
        write!(f, "fmmus {fmmus} sms {managers}")
    }
}

/// A slave, as it is printed: the code of its state, the AL status code where the error bit stands (IEC
/// 61158-6-12, AL status) and else 0, the links before and behind it, and how many of its FMMUs and sync
/// managers are active.
#[derive(Drop)]
struct SlaveText {
    place: usize,
    station: u16,
    state: u8,
    error: u16,
    before: bool,
    behind: bool,
    fmmus: usize,
    managers: usize,
}

impl fmt::Display for SlaveText {
    ghost output = { λ slave. Some (slave_words slave) };

    fn fmt<W: fmt::Write>(&self, f: &mut fmt::Formatter<W>) -> fmt::Result {
        let name = Name {
            place: self.place,
            station: self.station,
        };
        let status = Status {
            state: self.state,
            error: self.error,
        };
        let beside = Beside {
            before: self.before,
            behind: self.behind,
        };
        let active = Active {
            fmmus: self.fmmus,
            managers: self.managers,
        };
        write!(f, "{name} {status} {beside} {active}")
    }
}

/// Prints a line for each slave of a ring.
pub fn print_line<W: Write>(ring: &Ring, lines: &mut Lines<'_, W>) -> io::Result<()> {
    let links = ring.links();
    for place in 0..ring.slaves().len() {
        lines.text(text_of(place, ring.slave(place), &links))?;
        lines.end()?;
    }
    Ok(())
}

/// What is printed of the slave at a place.
fn text_of(place: usize, slave: &Slave, links: &Links) -> SlaveText
    requires { place < MAX_SLAVES }
    ensures place { result.place ≡ place }
    ensures station { result.station ≡ word_at slave.now.controller.memory STATION_ADDRESS }
    ensures state { result.state ≡ code_of (al_status slave.now.controller).state }
    ensures error { result.error ≡ error_of slave.now.controller }
    ensures before { result.before ≡ is_up links.now place }
    ensures behind { result.behind ≡ is_up links.now (place + 1) }
{
    let controller = slave.controller();
    let (status, code) = controller.al();
    SlaveText {
        place,
        station: controller.station(),
        state: status.state.code(),
        error: if status.error { code } else { 0 },
        before: links.is_up(place),
        behind: links.is_up(place + 1),
        fmmus: active_fmmus(controller),
        managers: active_managers(controller),
    }
}

/// How many FMMUs are switched on.
fn active_fmmus(controller: &Controller) -> usize {
    let mut count = 0usize;
    for index in 0..FMMU_COUNT {
        if controller.fmmu(index).is_switched_on() {
            count = count.saturating_add(1);
        }
    }
    count
}

/// How many sync managers are active.
fn active_managers(controller: &Controller) -> usize {
    let mut count = 0usize;
    for index in 0..SYNC_MANAGER_COUNT {
        if controller.syncman(index).is_active() {
            count = count.saturating_add(1);
        }
    }
    count
}

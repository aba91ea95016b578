//! What a scan finds of a line, as objects of JSON.

ghost use Rattle.std.specs.Prelude.{◌≡◌};
ghost use Rattle.ecat_events.specs.Members.{fault_name, fmmu_use, manager_use};

use crate::members::state_text;
use ec_app::Value;
use ec_diag::Located;
use ec_regs::{Fmmu, SyncMan};
use ec_services::MasterFault;
use ecat_json::{JsonLines, Object};
use ecat_master::{Finder, Shown};
use ecat_text::{FaultText, with_state};
use std::alloc::{AllocError, Global};
use std::io::{self, Write};

/// How many bytes an object has at the most, but for a list of links or counts.
const ROOM: usize = 512;

/// What was read of a slave.
#[derive(Clone, Copy)]
struct Found {
    shown: Option<Shown>,
    fault: Option<MasterFault>,
    vendor: Option<u32>,
    product: Option<u32>,
    identity_fault: Option<MasterFault>,
}

impl Found {
    /// Nothing yet.
    fn nothing() -> Found {
        Found {
            shown: None,
            fault: None,
            vendor: None,
            product: None,
            identity_fault: None,
        }
    }
}

/// A finder over another one that writes objects of what a scan finds: how many slaves there are, the links,
/// and of each slave what it is and an object for each active sync manager and FMMU.
#[derive(Drop)]
pub struct Finds<'a, 'f, W, F> {
    lines: JsonLines<'a, W>,
    finder: &'f mut F,
    slave: Found,
    /// Why an object could not be written, behind which none is.
    failed: Option<io::Error>,
}

impl<'a, 'f, W: Write, F: Finder> Finds<'a, 'f, W, F> {
    /// Objects for this output, over another finder.
    pub fn new(
        alloc: Global,
        out: &'a mut W,
        finder: &'f mut F,
    ) -> Result<Finds<'a, 'f, W, F>, AllocError> {
        let room = Vec::with_capacity(alloc, ROOM)?;
        Ok(Finds {
            lines: JsonLines::new(out, room),
            finder,
            slave: Found::nothing(),
            failed: None,
        })
    }

    /// Whether all objects could be written.
    pub fn end(&mut self) -> io::Result<()> {
        match self.failed.take() {
            None => Ok(()),
            Some(error) => Err(error),
        }
    }

    /// Notes that an object could not be written.
    fn note(&mut self, written: io::Result<()>) {
        if let Err(error) = written {
            self.failed = Some(error);
        }
    }

    /// Writes how many slaves there are, and what was counted each time.
    fn put_counted(&mut self, counts: &[u16]) -> io::Result<()> {
        let most = most_of(counts);
        let object = self.lines.object("slaves")?;
        let mut list = object.number("slaves", u64::from(most))?.list("counts")?;
        for count in counts {
            list = list.number(u64::from(*count))?;
        }
        self.lines.put(list.end()?)
    }

    /// Writes what is known of the cable.
    fn put_cable(&mut self, located: Located, swapped: bool) -> io::Result<()> {
        let object = with_state(self.lines.object("links")?, located, swapped)?;
        self.lines.put(object)
    }

    /// Writes what was read of a slave.
    fn put_found(&mut self, place: u16, found: &Found) -> io::Result<()> {
        let object = self.lines.object("found")?;
        let object = with_shown(object.number("place", u64::from(place))?, &found.shown)?;
        let object = object.number_if("vendor", whole(found.vendor))?;
        let object = object.number_if("product", whole(found.product))?;
        let object = with_fault(object, "fault", found.fault)?;
        let object = with_fault(object, "identity_fault", found.identity_fault)?;
        self.lines.put(object)
    }

    /// Writes a sync manager of a slave, if it is active.
    fn put_manager(&mut self, place: u16, number: usize, manager: &SyncMan) -> io::Result<()> {
        if !manager.is_active() {
            return Ok(());
        }
        let object = self.lines.object("sync_manager")?;
        let object = with_number(object, place, number)?;
        let object = object.number("address", u64::from(manager.start))?;
        let object = object.number("length", u64::from(manager.length))?;
        self.lines.put(object.text("use", manager_use(manager))?)
    }

    /// Writes an FMMU of a slave, if it is switched on.
    fn put_fmmu(&mut self, place: u16, number: usize, fmmu: &Fmmu) -> io::Result<()> {
        if !fmmu.is_switched_on() {
            return Ok(());
        }
        let object = with_number(self.lines.object("fmmu")?, place, number)?;
        let object = object.number("logical_address", u64::from(fmmu.logical))?;
        let object = object.number("length", u64::from(fmmu.length))?;
        let object = object.number("start_bit", u64::from(fmmu.start))?;
        let object = object.number("stop_bit", u64::from(fmmu.stop))?;
        let object = object.number("address", u64::from(fmmu.physical))?;
        let object = object.number("bit", u64::from(fmmu.bit))?;
        self.lines.put(object.text("use", fmmu_use(fmmu))?)
    }

    /// Writes the active sync managers of a slave.
    fn put_managers(&mut self, place: u16, shown: &Shown) -> io::Result<()> {
        for (number, manager) in shown.managers.iter().enumerate() {
            self.put_manager(place, number, manager)?;
        }
        Ok(())
    }

    /// Writes the FMMUs of a slave that are switched on.
    fn put_fmmus(&mut self, place: u16, shown: &Shown) -> io::Result<()> {
        for (number, fmmu) in shown.fmmus.iter().enumerate() {
            self.put_fmmu(place, number, fmmu)?;
        }
        Ok(())
    }

    /// Writes all that was read of a slave.
    fn put_slave(&mut self, place: u16, found: &Found) -> io::Result<()> {
        self.put_found(place, found)?;
        match &found.shown {
            None => Ok(()),
            Some(shown) => {
                self.put_managers(place, shown)?;
                self.put_fmmus(place, shown)
            }
        }
    }
}

impl<W: Write, F: Finder> Finder for Finds<'_, '_, W, F> {
    fn registers(&mut self, place: u16, address: u16, bytes: &[u8]) {
        self.finder.registers(place, address, bytes);
    }

    fn identity(&mut self, place: u16, sub: u8, value: Value) {
        self.finder.identity(place, sub, value);
        match sub {
            1 => self.slave.vendor = Some(number_of(value)),
            _ => self.slave.product = Some(number_of(value)),
        }
    }

    fn unidentified(&mut self, _place: u16, _sub: u8, fault: MasterFault) {
        self.slave.identity_fault = Some(fault);
    }

    fn counted(&mut self, counts: &[u16]) {
        if self.failed.is_none() {
            let written = self.put_counted(counts);
            self.note(written);
        }
    }

    fn cable(&mut self, located: Located, swapped: bool) {
        if self.failed.is_none() {
            let written = self.put_cable(located, swapped);
            self.note(written);
        }
    }

    fn shown(&mut self, _place: u16, shown: &Shown) {
        self.slave.shown = Some(*shown);
    }

    fn unread(&mut self, _place: u16, fault: MasterFault) {
        self.slave.fault = Some(fault);
    }

    fn done(&mut self, place: u16) {
        let found = self.slave;
        self.slave = Found::nothing();
        if self.failed.is_none() {
            let written = self.put_slave(place, &found);
            self.note(written);
        }
    }
}

/// The most of these counts; 0 where there is none.
fn most_of(counts: &[u16]) -> u16 {
    let mut most = 0;
    for count in counts {
        most = (*count).max(most);
    }
    most
}

/// Adds the station, the state and the AL status code of a slave, 0 without an error, or that none is known.
fn with_shown(object: Object, shown: &Option<Shown>) -> io::Result<Object> {
    let Some(shown) = shown else {
        return object
            .nothing("station")?
            .nothing("state")?
            .nothing("error");
    };
    let object = object.number("station", u64::from(shown.station))?;
    let object = object.text("state", state_text(shown.status.state))?;
    let code = if shown.status.error { shown.code } else { 0 };
    object.number("error", u64::from(code))
}

/// Adds why something could not be read, or null where it could.
fn with_fault(object: Object, member: &str, fault: Option<MasterFault>) -> io::Result<Object> {
    match fault {
        None => object.nothing(member),
        Some(MasterFault::Abort(code)) => object.shown(member, FaultText(MasterFault::Abort(code))),
        Some(fault) => object.text(member, fault_name(fault)),
    }
}

/// A fault by its name.
fn fault_name(fault: MasterFault) -> &'static str
    ensures { result.now ≡ fault_name fault }
{
    match fault {
        MasterFault::NoSlave => "NoSlave",
        MasterFault::Refused(_) => "Refused",
        MasterFault::Abort(_) => "Abort",
        MasterFault::NoAnswer => "NoAnswer",
        MasterFault::BadAnswer => "BadAnswer",
        MasterFault::Broken => "Broken",
        MasterFault::Port => "Port",
        MasterFault::Stranger => "Stranger",
    }
}

/// Adds the place of a slave, and the number of one of its sync managers or FMMUs.
fn with_number(object: Object, place: u16, number: usize) -> io::Result<Object> {
    object
        .number("place", u64::from(place))?
        .number("number", number as u64)
}

/// What a sync manager is for, in the words of a scene.
fn manager_use(manager: &SyncMan) -> &'static str
    ensures { result.now ≡ manager_use manager.now }
{
    match (manager.is_mailbox(), manager.master_writes()) {
        (true, true) => "mailbox-write",
        (true, false) => "mailbox-read",
        (false, true) => "write",
        (false, false) => "read",
    }
}

/// What an FMMU is for, in the words of a scene.
fn fmmu_use(fmmu: &Fmmu) -> &'static str
    ensures { result.now ≡ fmmu_use fmmu.now }
{
    match (fmmu.reads(), fmmu.writes()) {
        (true, true) => "both",
        (true, false) => "read",
        (false, true) => "write",
        (false, false) => "nothing",
    }
}

/// The number that a value is.
fn number_of(value: Value) -> u32 {
    match value {
        Value::One(number) => u32::from(number),
        Value::Two(number) => u32::from(number),
        Value::Four(number) => number,
    }
}

/// A number as one of 64 bits, if there is one.
fn whole(number: Option<u32>) -> Option<u64> {
    match number {
        None => None,
        Some(number) => Some(u64::from(number)),
    }
}

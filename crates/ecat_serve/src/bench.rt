//! What is done to a line between its rounds: cables, lost copies, inputs and states.

ghost use Rattle.std.specs.Prelude.{◌≡◌, ◌≢◌, ℕ, ◌+◌, ◌-◌, ◌^◌, ◌==◌, ◌<◌, ◌≤◌};
ghost use Rattle.std.specs.Prelude.{OnOk, OnErr, IfOk, IfErr, Some, None, [], ◌∷◌, ◌⊎◌, length, min};
ghost use Rattle.std.specs.Prelude.{false, position};
ghost use Rattle.std.specs.Result.{result_err};
ghost use Rattle.ec_esc.specs.State.{word_at};
ghost use Rattle.ec_regs.specs.declared.registers.TheConstants.{MEMORY_SIZE, PROCESS_MEMORY, STATION_ADDRESS};
ghost use Rattle.ec_ring.specs.Links.{is_up};
ghost use Rattle.ec_ring.specs.declared.port.Port.TheVariants.{B};
ghost use Rattle.ecat_serve.specs.Bench.{Changes, bytes_fault, link_fault, load_fault, loaded};
ghost use Rattle.ecat_serve.specs.Bench.{fallen, put_in, slave_fault, with_error, with_links};
ghost use Rattle.ecat_serve.specs.Bench.{IsBegun};
ghost use Rattle.ecat_serve.specs.Commands.{ArePut, IsBack, IsCommanded};
ghost use Rattle.ec_app.specs.Slave.{restarted};
ghost use Rattle.ec_esc.specs.Application.{with_registers};
ghost use Rattle.ec_regs.specs.declared.registers.TheConstants.{CONTROLLER_TYPE, STATION_ALIAS};
ghost use Rattle.std.specs.Int.{w16, to_le_bytes};
ghost use Rattle.ecat_serve.specs.State.{linked, losing, to_lose_at, unplugged};

use crate::served::Served;
use ec_app::Slave;
use ec_esc::Controller;
use ec_regs::registers::{MEMORY_SIZE, PROCESS_MEMORY, STATION_ALIAS};
use ec_regs::{AlState, AlStatus, Information, NoMemory};
use ec_ring::Port;
use std::alloc::Global;

/// Why a line was not changed as asked. Where several hold, the first of them in this order is told.
#[derive(Clone, Copy, PartialEq, Eq, Debug)]
pub enum BenchFault {
    /// The line has no such link: its last one has the number of its slaves.
    NoLink,
    /// The line has no such slave.
    NoSlave,
    /// The bytes do not lie in process memory, 0x1000 to 0x2FFF.
    OutsideMemory,
    /// Memory ran out for the controller of a slave whose power comes back.
    NoMemory,
}

impl Served {
    /// Puts a link up or down, 0 before the first slave to n behind the last of n, which the slaves beside it
    /// tell; all else stays. Without such a link nothing changes.
    pub fn set_link(&mut self, k: usize, up: bool) -> Result<(), BenchFault>
        ensures err { result_err result ≡ link_fault self.old k }
        ensures unchanged { OnErr result (self.new ≡ self.old) }
        ensures at { OnOk result (is_up self.new.ring.links k ≡ up) }
        ensures others { OnOk result ((j : ℕ) → j ≢ k
            → is_up self.new.ring.links j ≡ is_up self.old.ring.links j) }
        ensures stays { OnOk result (self.new ≡ linked (with_links self.old self.new.ring.links)) }
        ensures commanded { IsCommanded self.old self.new }
    {
        if self.ring.slaves().len() < k {
            return Err(BenchFault::NoLink);
        }
        self.put_link(k, up);
        Ok(())
    }

    /// Puts a link of the line up or down, and has the slaves beside it tell it.
    fn put_link(&mut self, k: usize, up: bool)
        requires { k ≤ length self.old.ring.slaves }
        ensures at { is_up self.new.ring.links k ≡ up }
        ensures others { (j : ℕ) → j ≢ k → is_up self.new.ring.links j ≡ is_up self.old.ring.links j }
        ensures stays { self.new ≡ linked (with_links self.old self.new.ring.links) }
    {
        self.ring.set_link(k, up);
        self.tell_links();
    }

    /// Puts both links beside the slave at a place up or down, and has slaves tell them.
    fn put_links(&mut self, place: usize, up: bool)
        requires { place < length self.old.ring.slaves }
        ensures { ArePut self.old place up self.new }
    {
        // For the prover: a line has so few slaves that the next place is a number.
        let _slaves = self.ring.slaves();
        self.ring.set_link(place, up);
        self.ring.set_link(place + 1, up);
        self.tell_links();
    }

    /// Has this many more of the copies that arrive at an end be lost there; all else stays. What would be
    /// past the greatest number is that number.
    pub fn lose(&mut self, at: Port, count: u64)
        ensures line { self.new ≡ losing self.old at (min (to_lose_at self.old at + count) (2 ^ 64 - 1)) }
        ensures commanded { IsCommanded self.old self.new }
    {
        let before = self.to_lose(at);
        self.set_to_lose(at, before.saturating_add(count));
    }

    /// Unplugs whoever spoke last at an end: from now on nobody has spoken there, so that nothing is sent
    /// from it, and at end B the last link counts as down. All else stays; the next frame there plugs in
    /// again.
    pub fn unplug(&mut self, at: Port)
        ensures line { self.new ≡ unplugged self.old at }
        ensures commanded { IsCommanded self.old self.new }
    {
        match at {
            Port::A => self.peer_a = None,
            Port::B => self.unplug_b(),
        }
    }

    /// Unplugs whoever spoke last at end B, which takes the last link away.
    fn unplug_b(&mut self)
        ensures { self.new ≡ unplugged self.old B }
    {
        self.peer_b = None;
        self.tell_links();
    }

    /// The place of the first slave whose station address this is, the first slave's place being 0.
    pub fn place_of(&self, station: u16) -> Option<usize>
        ensures { result ≡ position
            (λ slave. word_at slave.controller.memory STATION_ADDRESS == station) self.now.ring.slaves }
    {
        self.ring
            .slaves()
            .iter()
            .position(|slave| slave.controller().station() == station)
    }

    /// Writes bytes to the process memory of the slave at a place, and shows them, as its application's
    /// inputs would be; all else stays. On an error nothing changes.
    pub fn load(&mut self, place: usize, address: u16, bytes: &[u8]) -> Result<(), BenchFault>
        ensures err { result_err result ≡ load_fault self.old place address bytes.now }
        ensures unchanged { OnErr result (self.new ≡ self.old) }
        ensures ok { OnOk result (Changes self.old place (loaded address bytes.now) self.new) }
        ensures commanded { IsCommanded self.old self.new }
    {
        self.check_slave(place)?;
        check_bytes(address, bytes)?;
        load_slave(self.ring.slave_mut(place), address, bytes);
        Ok(())
    }

    /// Puts the slave at a place into a state, with no error and with the AL status code 0 (IEC 61158-6-12,
    /// AL status); all else stays. Without such a slave nothing changes.
    pub fn set_state(&mut self, place: usize, state: AlState) -> Result<(), BenchFault>
        ensures err { result_err result ≡ slave_fault self.old place }
        ensures unchanged { OnErr result (self.new ≡ self.old) }
        ensures ok { OnOk result (Changes self.old place (put_in state) self.new) }
        ensures commanded { IsCommanded self.old self.new }
    {
        self.check_slave(place)?;
        self.ring.slave_mut(place).set_state(state);
        Ok(())
    }

    /// Has the application of the slave at a place find an error, which this AL status code tells: the error
    /// bit is set, and a slave in Op goes to Safe-Op (IEC 61158-6-12, AL management); all else stays. Without
    /// such a slave nothing changes.
    pub fn set_error(&mut self, place: usize, code: u16) -> Result<(), BenchFault>
        ensures err { result_err result ≡ slave_fault self.old place }
        ensures unchanged { OnErr result (self.new ≡ self.old) }
        ensures ok { OnOk result (Changes self.old place (with_error code) self.new) }
        ensures commanded { IsCommanded self.old self.new }
    {
        self.check_slave(place)?;
        put_error(self.ring.slave_mut(place), code);
        Ok(())
    }

    /// Switches the power of the slave at a place off: no frame gets past it, from either side, so that the
    /// links before and behind it are down; all else stays. Without such a slave nothing changes.
    pub fn power_off(&mut self, place: usize) -> Result<(), BenchFault>
        ensures err { result_err result ≡ slave_fault self.old place }
        ensures unchanged { OnErr result (self.new ≡ self.old) }
        ensures ok { OnOk result (ArePut self.old place false self.new) }
        ensures commanded { IsCommanded self.old self.new }
    {
        self.check_slave(place)?;
        self.put_links(place, false);
        Ok(())
    }

    /// Switches the power of the slave at a place on: it begins anew, in Init, without a station address,
    /// with no sync manager and no FMMU, and with process memory of zeros; a device tells what it is and its
    /// alias again, and its objects have the values that they had. The links before and behind it are up.
    /// Without such a slave, and without memory for its controller, nothing changes.
    pub fn power_on(&mut self, alloc: Global, place: usize) -> Result<(), BenchFault>
        ensures slave { OnOk result (slave_fault self.old place ≡ None) }
        ensures err { IfErr result (λ fault.
            (slave_fault self.old place ≡ Some fault) ⊎ (fault ≡ BenchFault.NoMemory)) }
        ensures unchanged { OnErr result (self.new ≡ self.old) }
        ensures ok { OnOk result (IsBack self.old place self.new) }
        ensures commanded { IsCommanded self.old self.new }
    {
        self.check_slave(place)?;
        let Ok(controller) = begun(alloc, self.ring.slave(place)) else {
            return Err(BenchFault::NoMemory);
        };
        self.begin_slave(place, controller);
        self.put_links(place, true);
        Ok(())
    }

    /// Has the slave at a place begin anew with a controller.
    fn begin_slave(&mut self, place: usize, controller: Controller)
        requires { place < length self.old.ring.slaves }
        ensures { Changes self.old place (restarted controller) self.new }
    {
        self.ring.slave_mut(place).restart(controller);
    }

    /// Tests that a slave has this place.
    fn check_slave(&self, place: usize) -> Result<(), BenchFault>
        ensures err { result_err result ≡ slave_fault self.now place }
        ensures there { OnOk result (place < length self.now.ring.slaves) }
    {
        if self.ring.slaves().len() <= place {
            return Err(BenchFault::NoSlave);
        }
        Ok(())
    }
}

/// Tests that bytes lie in process memory.
fn check_bytes(address: u16, bytes: &[u8]) -> Result<(), BenchFault>
    ensures err { result_err result ≡ bytes_fault address bytes.now }
    ensures from { OnOk result (PROCESS_MEMORY ≤ address) }
    ensures to { OnOk result (address + length bytes.now ≤ MEMORY_SIZE) }
{
    if address < PROCESS_MEMORY {
        return Err(BenchFault::OutsideMemory);
    }
    if usize::from(MEMORY_SIZE) < usize::from(address) + bytes.len() {
        return Err(BenchFault::OutsideMemory);
    }
    Ok(())
}

/// Writes bytes to the process memory of a slave, and shows them; all else stays.
fn load_slave(slave: &mut Slave, address: u16, bytes: &[u8])
    requires from { PROCESS_MEMORY ≤ address }
    requires to { address + length bytes.now ≤ MEMORY_SIZE }
    ensures { slave.new ≡ loaded address bytes.now slave.old }
{
    slave.controller_mut().load(address, bytes);
}

/// The controller of a slave whose power comes back: a fresh one without a station address, which tells of
/// itself as the one before did.
fn begun(alloc: Global, slave: &Slave) -> Result<Controller, NoMemory>
    ensures { IfOk result (IsBegun slave.now.controller) }
{
    let before = slave.controller();
    let mut fresh = Controller::new(alloc, 0)?;
    if before.has_sii() {
        let alias = u16::from_le_bytes([
            before.byte(STATION_ALIAS),
            before.byte(STATION_ALIAS + 1),
        ]);
        tell_again(&mut fresh, alias);
    }
    Ok(fresh)
}

/// Has a controller tell what it is, and its alias.
fn tell_again(controller: &mut Controller, alias: u16)
    ensures { controller.new ≡ with_registers
        (with_registers controller.old CONTROLLER_TYPE (4 ∷ 0 ∷ 0 ∷ 0 ∷ 8 ∷ 8 ∷ 8 ∷ 15 ∷ 0 ∷ 0 ∷ []))
        STATION_ALIAS (to_le_bytes w16 alias) }
{
    controller.set_information(&Information::ip_core());
    controller.set_alias(alias);
}

/// The state that an application leaves for where it finds an error: none stays in Op.
fn fallen(state: AlState) -> AlState
    ensures { result ≡ fallen state }
{
    match state {
        AlState::Op => AlState::SafeOp,
        AlState::Init | AlState::PreOp | AlState::SafeOp => state,
    }
}

/// Has a slave show an error of its application; all else stays.
fn put_error(slave: &mut Slave, code: u16)
    ensures { slave.new ≡ with_error code slave.old }
{
    let state = fallen(slave.state());
    let status = AlStatus { state, error: true };
    slave.controller_mut().set_al(status, code);
}

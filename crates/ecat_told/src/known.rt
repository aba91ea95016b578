//! What is told of a line of slaves, trip after trip.

ghost use Rattle.std.specs.Prelude.{◌≡◌, ◌<◌, ◌≤◌, ◌+◌, ◌-◌, ◌++◌, ◌∷◌, [], IfOk, IfErr, OnOk, length, map};
ghost use Rattle.std.specs.Prelude.{count_by, false, true, vec_len, ℕ, List};
ghost use Rattle.ec_wire.specs.Datagram.{ado_of, nth};
ghost use Rattle.ecat_trips.specs.Copies.{grown, moved};
ghost use Rattle.ecat_told.specs.Slave.{is_at, told_run};
ghost use Rattle.ecat_told.specs.Known.{at_place, at_station, by_whom, came_whole, doubtful, first_of};
ghost use Rattle.ecat_told.specs.Known.{is_one_state, is_place_read, is_place_write, may_be_two};
ghost use Rattle.ecat_told.specs.Known.{moves_logical, starts_up, tells_states, told_by};
ghost use Rattle.ecat_told.specs.Known.{with_states, writes_station};
ghost use Rattle.ecat_trips.specs.Alike.{moves_adp};
ghost use Rattle.ecat_told.specs.declared.slave.Slave.{Slave};

use crate::byte::How;
use crate::registers::{meets, touches};
use crate::slave::Slave;
use crate::whom::{Whom, did, is_logical, is_write, may_have_done, meant_by};
use ec_wire::{Command, FrameBuf, ado_of, adp_of};
use ecat_trips::{Trip, grown, moved};
use std::alloc::{AllocError, AllocFailed, Global};
use std::marker::Model;

/// The most slaves of a line.
pub const MAX_SLAVES: usize = 256;

/// Tells of the slave at a place what a datagram did.
fn tell_place(slaves: &mut [Slave], how: How, i: u16, register: u16, values: &[u8])
    requires { length values.now < 65536 }
    ensures { slaves.new ≡ at_place how i register values.now slaves.old }
{
    let i = usize::from(i);
    if i < slaves.len() {
        slaves[i].take(how, register, values);
    }
}

/// Tells of all slaves what a datagram did.
fn tell_all(slaves: &mut [Slave], how: How, register: u16, values: &[u8])
    requires { length values.now < 65536 }
    ensures { slaves.new ≡ map (told_run how register values.now) slaves.old }
{
    for slave in slaves.iter_mut() {
        slave.take(how, register, values);
    }
}

/// How many slaves have a station address.
fn holders_of(slaves: &[Slave], station: u16) -> usize
    ensures { result ≡ count_by (is_at station) slaves.now }
{
    slaves.iter().filter(|slave| slave.is_at(station)).count()
}

impl Slave {
    /// Takes what a datagram did that may have been another slave's.
    fn take_doubtful(&mut self, how: How, register: u16, values: &[u8])
        requires { length values.now < 65536 }
        ensures { self.new ≡ doubtful how register values.now self.old }
    {
        match how {
            How::Read => {}
            How::Written | How::MayBeWritten | How::Lost => {
                self.take(How::Lost, register, values);
            }
        }
    }

    /// Takes what a datagram did with the slave of a station address, which so many have.
    #[tactic(auto, unfolding(crate::specs::Known::at_station))]
    fn take_at(&mut self, how: How, holders: usize, station: u16, register: u16, values: &[u8])
        requires { length values.now < 65536 }
        ensures { self.new ≡ at_station how holders station register values.now self.old }
    {
        match self.station() {
            Some(x) => {
                if x == station {
                    if holders == 1 {
                        self.take(how, register, values);
                    } else {
                        self.take_doubtful(how, register, values);
                    }
                }
            }
            None => {
                if holders == 0 {
                    self.take_doubtful(how, register, values);
                }
            }
        }
    }
}

/// Tells of the slaves what a datagram did with the one of a station address, which so many have.
fn tell_station(
    slaves: &mut [Slave],
    how: How,
    holders: usize,
    station: u16,
    register: u16,
    values: &[u8],
)
    requires { length values.now < 65536 }
    ensures { slaves.new ≡ map (at_station how holders station register values.now) slaves.old }
{
    for slave in slaves.iter_mut() {
        slave.take_at(how, holders, station, register, values);
    }
}

/// Tells of the slaves what a datagram to an address did.
fn tell_whom(slaves: &mut [Slave], whom: Whom, how: How, address: u32, values: &[u8])
    requires { length values.now < 65536 }
    ensures { slaves.new ≡ by_whom whom how address values.now slaves.old }
{
    match whom {
        Whom::Nobody => {}
        Whom::Place => {
            let i = 0u16.wrapping_sub(adp_of(address));
            tell_place(slaves, how, i, ado_of(address), values);
        }
        Whom::Station => {
            let station = adp_of(address);
            let holders = holders_of(slaves, station);
            tell_station(slaves, how, holders, station, ado_of(address), values);
        }
        Whom::Everybody => tell_all(slaves, how, ado_of(address), values),
    }
}

/// Tells of the slaves what a command to an address did, if anything.
fn tell(slaves: &mut [Slave], how: Option<How>, command: Command, address: u32, values: &[u8])
    requires { length values.now < 65536 }
    ensures { slaves.new ≡ told_by how command address values.now slaves.old }
{
    match how {
        None => {}
        Some(how) => {
            if touches(ado_of(address), values.len() as u16) {
                tell_whom(slaves, meant_by(command), how, address, values);
            }
        }
    }
}

/// Is it a byte of AL status that tells one state alone, without an error?
fn is_one_state(byte: u8) -> bool
    ensures { result ≡ is_one_state byte }
{
    byte == 1 || byte == 2 || byte == 4 || byte == 8
}

/// The first byte, or 0.
fn first_of(bytes: &[u8]) -> u8
    ensures { result ≡ first_of bytes.now }
{
    match bytes {
        [] => 0,
        [first, ..] => *first,
    }
}

/// Does each slave count up the ADP of a command?
fn moves_adp(command: Command) -> bool
    ensures { result ≡ moves_adp command }
{
    matches!(
        command,
        Command::Aprd
            | Command::Apwr
            | Command::Aprw
            | Command::Brd
            | Command::Bwr
            | Command::Brw
            | Command::Armw
    )
}

/// Does a command read from the slave at a place?
fn is_place_read(command: Command) -> bool
    ensures { result ≡ is_place_read command }
{
    matches!(command, Command::Aprd)
}

/// Does a command write to the slave at a place?
fn is_place_write(command: Command) -> bool
    ensures { result ≡ is_place_write command }
{
    matches!(command, Command::Apwr | Command::Aprw)
}

/// May the place of datagram `k` of a frame that came back be two slaves', of so many? Over an open ring it
/// is that of a slave in front of the break and of one behind it.
fn may_be_two(
    broken: bool,
    all: bool,
    count: usize,
    sent: &FrameBuf,
    came: &FrameBuf,
    k: usize,
) -> bool
    requires sent { k < length sent.now }
    requires came { k < length came.now }
    ensures { result ≡ may_be_two broken all count (nth sent.now k) (nth came.now k) }
{
    if all {
        broken
    } else {
        usize::from(grown(sent, came, k)) != count
    }
}

/// Does datagram `k` of a frame write a station address?
fn writes_station(sent: &FrameBuf, k: usize) -> bool
    requires { k < length sent.now }
    ensures { result ≡ writes_station (nth sent.now k) }
{
    let address = u32::from(sent.ado(k));
    let count = sent.data(k).len() as u32;
    is_write(sent.command(k)) && meets(address, count, 0x0010, 0x0012)
}

/// Does a start-up begin with datagram `k` of a frame that came back?
fn starts_up(ready: bool, sent: &FrameBuf, came: &FrameBuf, k: usize) -> bool
    requires sent { k < length sent.now }
    requires came { k < length came.now }
    ensures { result ≡ starts_up ready (nth sent.now k) (nth came.now k) }
{
    ready && writes_station(sent, k) && 0 < moved(sent, came, k)
}

/// Is datagram `k` of a frame that came back a logical one that moved?
fn moves_logical(sent: &FrameBuf, came: &FrameBuf, k: usize) -> bool
    requires sent { k < length sent.now }
    requires came { k < length came.now }
    ensures { result ≡ moves_logical (nth sent.now k) (nth came.now k) }
{
    is_logical(sent.command(k)) && 0 < moved(sent, came, k)
}

/// Does datagram `k` of a frame that came back tell one AL state of so many slaves?
fn tells_states(count: usize, sent: &FrameBuf, came: &FrameBuf, k: usize) -> bool
    requires sent { k < length sent.now }
    requires came { k < length came.now }
    ensures { result ≡ tells_states count (nth sent.now k) (nth came.now k) }
{
    sent.ado(k) == AL_STATUS
        && usize::from(moved(sent, came, k)) == count
        && is_one_state(first_of(came.data(k)))
}

/// AL status.
const AL_STATUS: u16 = 0x0130;

/// Does what a command to an address did with so many bytes meet bytes that are kept?
fn meets_kept(how: Option<How>, address: u32, count: usize) -> bool
    requires { count < 65536 }
    ensures untold { result ≡ false → (command : Command) (values : List ℕ) (slaves : List Slave)
        → length values ≡ count → told_by how command address values slaves ≡ slaves }
{
    match how {
        None => false,
        Some(_) => touches(ado_of(address), count as u16),
    }
}

/// Why a trip can't be taken.
#[derive(Clone, Copy, PartialEq, Eq, Debug)]
pub enum KnownFault {
    /// The capture shows more than 256 slaves.
    TooManySlaves,
    /// Memory ran out.
    NoMemory,
}

impl From<AllocError> for KnownFault {
    fn from(_failed: AllocError) -> KnownFault {
        KnownFault::NoMemory
    }
}

impl<T: Drop> From<AllocFailed<T>> for KnownFault {
    fn from(_failed: AllocFailed<T>) -> KnownFault {
        KnownFault::NoMemory
    }
}

/// What is told of a line of slaves.
#[derive(Drop)]
pub struct Known {
    /// The slaves as they are told now.
    slaves: Vec<Slave>,
    /// As the last logical datagram that moved found them.
    line: Vec<Slave>,
    /// May the two differ?
    stale: bool,
    /// Does a start-up begin where stations are written?
    ready: bool,
    /// Has a logical datagram moved?
    cycled: bool,
    /// How many datagrams by place told nothing, since the place may have been two slaves'.
    unplaced: u64,
}

impl Model for Known {
    ghost use Rattle.std.specs.Prelude.{◌≡◌, false};
    ghost use Rattle.ecat_told.specs.Known.{KnownState};

    ghost Value = { KnownState };

    ghost view = { λ k. record {
      slaves = k.slaves.items;
      line = k.line.items;
      ready = k.ready;
      cycled = k.cycled;
    } };

    ghost invariant = { λ k. k.stale ≡ false → k.line.items ≡ k.slaves.items };
}

impl Known {
    ghost use Rattle.ecat_told.specs.Known.{counted, did, frame_lost, frame_returned, lost, nothing};
    ghost use Rattle.ecat_told.specs.Known.{lost_over, returned, returned_over, slaves_after, trip_after};
    ghost use Rattle.ecat_told.specs.Known.{unplaced};

    /// Nothing is told yet.
    pub fn new(alloc: Global) -> Known
        ensures { result ≡ nothing }
    {
        Known {
            slaves: Vec::new(alloc),
            line: Vec::new(alloc),
            stale: false,
            ready: true,
            cycled: false,
            unplaced: 0,
        }
    }

    /// Takes how many slaves datagram `k` of a frame that came back tells.
    fn count(
        &mut self,
        starts: bool,
        all: bool,
        sent: &FrameBuf,
        came: &FrameBuf,
        k: usize,
    ) -> Result<(), KnownFault>
        requires sent { k < length sent.now }
        requires came { k < length came.now }
        ensures { OnOk result (self.new ≡ record self.old {
          slaves = counted starts all (nth sent.now k) (nth came.now k) self.old.slaves;
        }) }
    {
        if all && moves_adp(sent.command(k)) {
            let grown = usize::from(grown(sent, came, k));
            let count = if starts {
                grown
            } else {
                grown.max(self.slaves.len())
            };
            if MAX_SLAVES < count {
                return Err(KnownFault::TooManySlaves);
            }
            self.stale = true;
            self.slaves.resize(count, Slave::new())?;
        }
        Ok(())
    }

    /// Takes what datagram `k` of a frame that came back tells of the slaves.
    fn tell(
        &mut self,
        starts: bool,
        all: bool,
        sent: &FrameBuf,
        came: &FrameBuf,
        k: usize,
    ) -> Result<(), KnownFault>
        requires sent { k < length sent.now }
        requires came { k < length came.now }
        ensures { OnOk result (self.new ≡ record self.old {
          slaves = slaves_after starts all (nth sent.now k) (nth came.now k) self.old.slaves;
        }) }
    {
        self.count(starts, all, sent, came, k)?;
        self.tell_kept(all, sent, came, k);
        self.tell_states(sent, came, k);
        Ok(())
    }

    /// Takes what datagram `k` of a frame that came back did with bytes that are kept.
    fn tell_kept(&mut self, all: bool, sent: &FrameBuf, came: &FrameBuf, k: usize)
        requires sent { k < length sent.now }
        requires came { k < length came.now }
        ensures { let s = nth sent.now k in let c = nth came.now k in self.new ≡ record self.old {
          slaves = told_by (did s.command (length self.old.slaves) (moved s c) all) s.command s.address
              c.payload self.old.slaves;
        } }
    {
        let command = sent.command(k);
        let address = sent.address(k);
        let values = came.data(k);
        let how = did(command, self.slaves.len(), moved(sent, came, k), all);
        if meets_kept(how, address, values.len()) {
            self.stale = true;
            tell(self.slaves.as_mut_slice(), how, command, address, values);
        }
    }

    /// Takes the state that datagram `k` of a frame that came back tells of all slaves, if it tells one.
    fn tell_states(&mut self, sent: &FrameBuf, came: &FrameBuf, k: usize)
        requires sent { k < length sent.now }
        requires came { k < length came.now }
        ensures { let s = nth sent.now k in let c = nth came.now k in self.new ≡ record self.old {
          slaves = with_states s.command s c self.old.slaves;
        } }
    {
        match sent.command(k) {
            Command::Brd => {
                if tells_states(self.slaves.len(), sent, came, k) {
                    self.stale = true;
                    let state = [first_of(came.data(k))];
                    tell_all(self.slaves.as_mut_slice(), How::Read, AL_STATUS, &state);
                }
            }
            _ => {}
        }
    }

    /// The slaves are the line, as a logical datagram finds them.
    fn find(&mut self) -> Result<(), KnownFault>
        ensures { OnOk result (self.new ≡ record self.old {
          line = self.old.slaves;
          ready = true;
          cycled = true;
        }) }
    {
        if self.stale {
            self.line.clear();
            self.line.extend_from_slice(self.slaves.as_slice())?;
            self.stale = false;
        }
        self.ready = true;
        self.cycled = true;
        Ok(())
    }

    /// Takes datagram `k` of a frame that came back; `all` says whether all copies of it did.
    #[tactic(auto, unfolding(crate::specs::Known::returned))]
    fn take_datagram(
        &mut self,
        all: bool,
        sent: &FrameBuf,
        came: &FrameBuf,
        k: usize,
    ) -> Result<(), KnownFault>
        requires sent { k < length sent.now }
        requires came { k < length came.now }
        ensures { OnOk result (self.new ≡ returned all (nth sent.now k) (nth came.now k) self.old) }
    {
        let starts = starts_up(self.ready, sent, came, k);
        self.tell(starts, all, sent, came, k)?;
        if moves_logical(sent, came, k) {
            self.find()
        } else {
            self.ready = self.ready && !starts;
            Ok(())
        }
    }

    /// Takes away what datagram `k` of a frame wrote by a place, where that may be two slaves'.
    #[tactic(auto, unfolding(crate::specs::Known::unplaced))]
    fn unplace(&mut self, two: bool, sent: &FrameBuf, k: usize)
        requires { k < length sent.now }
        ensures { self.new ≡ unplaced two (nth sent.now k) self.old }
    {
        if two && is_place_write(sent.command(k)) {
            self.stale = true;
            self.unplaced = self.unplaced.saturating_add(1);
            tell_all(
                self.slaves.as_mut_slice(),
                How::Lost,
                sent.ado(k),
                sent.data(k),
            );
        }
    }

    /// Takes datagram `k` of a frame that came back; `broken` says whether slaves processed both copies of
    /// it, `all` whether all copies of it came.
    fn take_over(
        &mut self,
        broken: bool,
        all: bool,
        sent: &FrameBuf,
        came: &FrameBuf,
        k: usize,
    ) -> Result<(), KnownFault>
        requires sent { k < length sent.now }
        requires came { k < length came.now }
        ensures { OnOk result (self.new
            ≡ returned_over broken all (nth sent.now k) (nth came.now k) self.old) }
    {
        let two = may_be_two(broken, all, self.slaves.len(), sent, came, k);
        if two && is_place_read(sent.command(k)) {
            self.unplaced = self.unplaced.saturating_add(1);
            return self.count(false, all, sent, came, k);
        }
        self.take_datagram(all, sent, came, k)?;
        self.unplace(two, sent, k);
        Ok(())
    }

    /// Takes datagram `k` of a frame that was lost, of which two copies were sent or one.
    fn lose_over(&mut self, two: bool, sent: &FrameBuf, k: usize)
        requires { k < length sent.now }
        ensures { self.new ≡ lost_over two (nth sent.now k) self.old }
    {
        self.lose_datagram(sent, k);
        self.unplace(two, sent, k);
    }

    /// Takes datagram `k` of a frame that was lost.
    #[tactic(auto, unfolding(crate::specs::Known::lost))]
    fn lose_datagram(&mut self, sent: &FrameBuf, k: usize)
        requires { k < length sent.now }
        ensures { self.new ≡ lost (nth sent.now k) self.old }
    {
        let command = sent.command(k);
        self.stale = true;
        tell(
            self.slaves.as_mut_slice(),
            may_have_done(command),
            command,
            sent.address(k),
            sent.data(k),
        );
    }

    /// Takes a frame that came back; `broken` says whether slaves processed both copies of it, `all` whether
    /// all copies of it came.
    fn take_frame(
        &mut self,
        broken: bool,
        all: bool,
        sent: &FrameBuf,
        came: &FrameBuf,
    ) -> Result<(), KnownFault>
        ensures { OnOk result (self.new ≡ frame_returned broken all sent.now came.now self.old) }
    {
        let shared = sent.count().min(came.count());
        for k in 0..shared {
            self.take_over(broken, all, sent, came, k)?;
        }
        Ok(())
    }

    /// Takes a frame that was lost, of which two copies were sent or one.
    fn lose_frame(&mut self, two: bool, sent: &FrameBuf)
        ensures { self.new ≡ frame_lost two sent.now self.old }
    {
        for k in 0..sent.count() {
            self.lose_over(two, sent, k);
        }
    }

    /// Takes a trip that ended.
    #[tactic(auto, unfolding(crate::specs::Known::trip_after))]
    pub fn take(&mut self, trip: &Trip) -> Result<(), KnownFault>
        ensures { OnOk result (self.new ≡ trip_after trip.now self.old) }
    {
        match &trip.came {
            None => {
                self.lose_frame(trip.second.is_some(), &trip.sent.frame);
                Ok(())
            }
            Some(came) => {
                let frame = came.frame();
                self.take_frame(trip.is_open, came_whole(trip), &trip.sent.frame, frame)
            }
        }
    }

    /// Takes a frame that came back, of which nothing is known that was sent.
    pub fn take_stray(&mut self, came: &FrameBuf, all: bool) -> Result<(), KnownFault> {
        let mut sent = came.copy();
        for k in 0..came.count() {
            unsend(&mut sent, k, self.slaves.len());
        }
        self.take_frame(false, all, &sent, came)
    }

    /// Takes a frame that was sent as if all slaves that it means had taken it, though nothing came back.
    pub fn take_asked(&mut self, sent: &FrameBuf) -> Result<(), KnownFault> {
        for k in 0..sent.count() {
            self.ask(sent, k)?;
        }
        Ok(())
    }

    /// Takes datagram `k` of such a frame.
    fn ask(&mut self, sent: &FrameBuf, k: usize) -> Result<(), KnownFault>
        requires { k < length sent.now }
    {
        let command = sent.command(k);
        if is_logical(command) {
            return self.find();
        }
        self.stale = true;
        if self.ready && writes_station(sent, k) {
            self.ready = false;
        }
        if meant_by(command) == Whom::Place {
            let place = usize::from(0u16.wrapping_sub(sent.adp(k)));
            if place < MAX_SLAVES && self.slaves.len() <= place {
                self.slaves.resize(place + 1, Slave::new())?;
            }
        }
        if is_write(command) {
            tell(
                self.slaves.as_mut_slice(),
                Some(How::MayBeWritten),
                command,
                sent.address(k),
                sent.data(k),
            );
        }
        Ok(())
    }

    /// How many datagrams by place told nothing, since the place may have been two slaves': one in front of a
    /// break and one behind it.
    pub fn unplaced(&self) -> u64 {
        self.unplaced
    }

    /// Does a start-up begin where stations are written next?
    pub fn is_ready(&self) -> bool
        ensures { result ≡ self.now.ready }
    {
        self.ready
    }

    /// The slaves as they are told now.
    pub fn slaves(&self) -> &[Slave]
        ensures { result.now ≡ self.now.slaves }
    {
        self.slaves.as_slice()
    }

    /// The slaves as the last logical datagram that moved found them.
    pub fn line(&self) -> &[Slave]
        ensures { result.now ≡ self.now.line }
    {
        self.line.as_slice()
    }

    /// Has a logical datagram moved?
    pub fn has_cycled(&self) -> bool
        ensures { result ≡ self.now.cycled }
    {
        self.cycled
    }
}

/// Did all copies of a trip come back that were sent?
fn came_whole(trip: &Trip) -> bool
    ensures { result ≡ came_whole trip.now }
{
    trip.back.is_some() && (trip.second.is_none() || trip.again.is_some())
}

/// Makes of datagram `k`, which came back, what should have been sent: with counter 0, and the ADP of a
/// broadcast 0, that of a command by place as many less as there are slaves.
fn unsend(frame: &mut FrameBuf, k: usize, count: usize) {
    if k < frame.count() {
        frame.set_counter(k, 0);
        match frame.command(k) {
            Command::Brd | Command::Bwr | Command::Brw => frame.set_adp(k, 0),
            Command::Aprd | Command::Apwr | Command::Aprw | Command::Armw => {
                let adp = frame.adp(k).wrapping_sub(count.min(MAX_SLAVES) as u16);
                frame.set_adp(k, adp);
            }
            _ => {}
        }
    }
}

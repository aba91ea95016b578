//! The application's side of a controller: AL control and AL status (IEC 61158-6-12, AL management), and
//! the areas of its sync managers (IEC 61158-4-12, sync manager). What the application writes stands in the
//! memory alone, where the wire reads it; the bytes that it is shown stay.

ghost use Rattle.std.specs.Prelude.{true, false, ◌≡◌, ◌+◌, ◌-◌, ◌%◌, ◌<◌, ◌≤◌, IfOk};
ghost use Rattle.std.specs.Prelude.{OnOk, OnErr, Some, ◌++◌, length, slice_index, option_map, replicate};
ghost use Rattle.std.specs.Result.{result_err};
ghost use Rattle.ec_regs.specs.declared.registers.TheConstants.{SYNC_MANAGER_COUNT};
ghost use Rattle.ec_regs.specs.declared.registers.TheConstants.{AL_STATUS, PROCESS_MEMORY, MEMORY_SIZE};
ghost use Rattle.ec_regs.specs.Al.{state_of};
ghost use Rattle.ec_regs.specs.SyncMan.{is_full};
ghost use Rattle.ec_areas.specs.Records.{sync_manager_at};
ghost use Rattle.ec_esc.specs.State.{word_at};
ghost use Rattle.std.specs.Int.{w16, to_le_bytes};
ghost use Rattle.ec_regs.specs.declared.registers.TheConstants.{CONTROLLER_TYPE, DL_STATUS, SII_BASE};
ghost use Rattle.ec_regs.specs.declared.registers.TheConstants.{STATION_ALIAS};
ghost use Rattle.ec_regs.specs.Information.{information_bytes};
ghost use Rattle.ec_areas.specs.Ranges.{has_sii};
ghost use Rattle.ec_esc.specs.Application.{with_registers, sii_registers};
ghost use Rattle.ec_esc.specs.Application.{new_control, with_control_taken, with_al, al_status};
ghost use Rattle.ec_esc.specs.Application.{al_status_code, outputs_of};
ghost use Rattle.ec_esc.specs.Application.{put_inputs_fault, with_inputs, take_mail_fault, mail_of};
ghost use Rattle.ec_esc.specs.Application.{with_mail_taken, put_mail_fault, with_mail_put};
ghost use Rattle.ec_esc.specs.Application.{repeat_mail_fault, with_mail_repeated, with_repeat_told};
ghost use Rattle.ec_esc.specs.Application.{has_bytes, lost_links};
ghost use Rattle.ec_regs.specs.declared.registers.TheConstants.{LOST_LINK};

use crate::controller::Controller;
use arrayvec::ArrayVec;
use ec_regs::registers::{
    AL_CONTROL, AL_STATUS_CODE, CONTROLLER_TYPE, DL_STATUS, LOST_LINK, SII_BASE, SII_SIZE,
    STATION_ALIAS,
};
use ec_regs::{AlStatus, Information, LONGEST_MAILBOX, SyncMan, pdi_address};

/// The longest mail, in bytes: the whole of the longest mailbox.
pub const LONGEST_MAIL: usize = LONGEST_MAILBOX as usize;

/// How many bytes the registers of the slave information interface are.
pub const SII: usize = SII_SIZE as usize;

/// Why the application may not use an area as it asked to (IEC 61158-4-12, sync manager, buffered mode and
/// mailbox mode). Where several hold, the first of them in this order is told.
#[derive(Clone, Copy, PartialEq, Eq, Debug)]
pub enum AreaFault {
    /// The sync manager is not active: it guards no area.
    NotActive,
    /// The area is of the other kind or of the other direction.
    WrongKind,
    /// Inputs are not as long as their area, or a mail is longer than its mailbox.
    WrongLength,
    /// The mailbox is full where a mail is put, or empty where one is taken.
    Busy,
}

/// Are these bytes inputs of the sync manager?
fn check_inputs(manager: &SyncMan, bytes: &[u8]) -> Result<(), AreaFault>
    ensures err { result_err result ≡ put_inputs_fault manager.now bytes.now }
    ensures from { OnOk result (PROCESS_MEMORY ≤ manager.now.start) }
    ensures to { OnOk result (manager.now.start + length bytes.now ≤ MEMORY_SIZE) }
{
    if !manager.is_active() {
        Err(AreaFault::NotActive)
    } else if !(manager.is_buffered() && manager.master_reads()) {
        Err(AreaFault::WrongKind)
    } else if bytes.len() != manager.length as usize {
        Err(AreaFault::WrongLength)
    } else {
        Ok(())
    }
}

/// Is there a mail of the master in the mailbox of the sync manager?
fn check_mail_is_there(manager: &SyncMan) -> Result<(), AreaFault>
    ensures err { result_err result ≡ take_mail_fault manager.now }
    ensures full { OnOk result (is_full manager.now ≡ true) }
    ensures to { OnOk result (manager.now.start + manager.now.length ≤ MEMORY_SIZE) }
    ensures bound { OnOk result (manager.now.length ≤ LONGEST_MAIL) }
{
    if !manager.is_active() {
        Err(AreaFault::NotActive)
    } else if !(manager.is_mailbox() && manager.master_writes()) {
        Err(AreaFault::WrongKind)
    } else if !manager.is_full() {
        Err(AreaFault::Busy)
    } else {
        Ok(())
    }
}

/// Does the mailbox of the sync manager take this mail for the master?
fn check_mail_fits(manager: &SyncMan, mail: &[u8]) -> Result<(), AreaFault>
    ensures err { result_err result ≡ put_mail_fault manager.now mail.now }
    ensures empty { OnOk result (is_full manager.now ≡ false) }
    ensures from { OnOk result (PROCESS_MEMORY ≤ manager.now.start) }
    ensures to { OnOk result (manager.now.start + manager.now.length ≤ MEMORY_SIZE) }
    ensures room { OnOk result (length mail.now ≤ manager.now.length) }
    ensures bound { OnOk result (manager.now.length ≤ LONGEST_MAIL) }
{
    if !manager.is_active() {
        Err(AreaFault::NotActive)
    } else if !(manager.is_mailbox() && manager.master_reads()) {
        Err(AreaFault::WrongKind)
    } else if mail.len() > manager.length as usize {
        Err(AreaFault::WrongLength)
    } else if manager.is_full() {
        Err(AreaFault::Busy)
    } else {
        Ok(())
    }
}

/// Does the sync manager guard a mailbox that the master reads?
fn check_mail_is_read(manager: &SyncMan) -> Result<(), AreaFault>
    ensures err { result_err result ≡ repeat_mail_fault manager.now }
    ensures to { OnOk result (manager.now.start + manager.now.length ≤ MEMORY_SIZE) }
{
    if !manager.is_active() {
        Err(AreaFault::NotActive)
    } else if !(manager.is_mailbox() && manager.master_reads()) {
        Err(AreaFault::WrongKind)
    } else {
        Ok(())
    }
}

/// Is a byte of an area not 0? No mail is of zeros alone.
fn has_bytes(area: &[u8]) -> bool
    ensures { result ≡ has_bytes area.now }
{
    area.iter().any(|byte| *byte != 0)
}

/// A mail and zeros after it, as they fill the longest mailbox.
fn padded(mail: &[u8]) -> [u8; LONGEST_MAIL]
    requires { length mail.now ≤ LONGEST_MAIL }
    ensures { result ≡ mail.now ++ replicate (LONGEST_MAIL - length mail.now) 0 }
{
    let mut area = [0; LONGEST_MAIL];
    area[..mail.len()].copy_from_slice(mail);
    area
}

impl Controller {
    /// The word at an address of the memory, its low byte first.
    pub(crate) fn word(&self, address: u16) -> u16
        requires { address + 1 < MEMORY_SIZE }
        ensures { result ≡ word_at self.now.memory address }
    {
        u16::from_le_bytes([self.byte(address), self.byte(address + 1)])
    }

    /// AL control (IEC 61158-6-12, AL control), if the master wrote it since the last such call, or `None`;
    /// the mark that it was written is cleared, and all else stays.
    pub fn take_control(&mut self) -> Option<u16>
        ensures value { result ≡ new_control self.old }
        ensures state { self.new ≡ with_control_taken self.old }
    {
        let is_new = self.written;
        self.written = false;
        is_new.then_some(self.word(AL_CONTROL))
    }

    /// Sets AL status, whose high byte becomes 0, and the AL status code, which tells why a request was
    /// refused (IEC 61158-6-12, AL status and AL status code); all else stays.
    pub fn set_al(&mut self, status: AlStatus, code: u16)
        ensures state { self.new ≡ with_al self.old status code }
        ensures status { al_status self.new ≡ status }
        ensures code { al_status_code self.new ≡ code }
    {
        self.memory.set_al_status(status);
        self.memory.load(AL_STATUS_CODE, &code.to_le_bytes());
    }

    /// AL status and the AL status code (IEC 61158-6-12). AL status of a controller always names a state.
    pub fn al(&self) -> (AlStatus, u16)
        ensures status { result.0 ≡ al_status self.now }
        ensures named { state_of (slice_index self.now.memory AL_STATUS % 16) ≡ Some result.0.state }
        ensures code { result.1 ≡ al_status_code self.now }
    {
        (self.memory.al_status(), self.word(AL_STATUS_CODE))
    }

    /// Sets what the controller tells of itself, registers 0x0000 to 0x0009 (IEC 61158-4-12, DL information);
    /// all else stays. Where its kind is not 0, the controller has a slave information interface from then
    /// on, whose registers the master may write.
    pub fn set_information(&mut self, information: &Information)
        ensures { self.new ≡ with_registers self.old CONTROLLER_TYPE (information_bytes information.now) }
    {
        self.memory
            .load_before(CONTROLLER_TYPE, &information.bytes());
    }

    /// Sets the station alias, register 0x0012 (IEC 61158-4-12, station alias); all else stays.
    pub fn set_alias(&mut self, alias: u16)
        ensures { self.new ≡ with_registers self.old STATION_ALIAS (to_le_bytes w16 alias) }
    {
        self.memory.load_before(STATION_ALIAS, &alias.to_le_bytes());
    }

    /// Sets DL status, register 0x0110: at which ports there is a link, and which are closed (IEC 61158-4-12,
    /// DL status); all else stays.
    pub fn set_dl_status(&mut self, status: u16)
        ensures { self.new ≡ with_registers self.old DL_STATUS (to_le_bytes w16 status) }
    {
        self.memory.load_before(DL_STATUS, &status.to_le_bytes());
    }

    /// The counters of lost links at ports 0 and 1, registers 0x0310 and 0x0311 (IEC 61158-4-12, lost link
    /// counter).
    pub fn lost_links(&self) -> [u8; 2]
        ensures { result ≡ lost_links self.now }
    {
        [self.byte(LOST_LINK), self.byte(LOST_LINK + 1)]
    }

    /// Sets the counters of lost links at ports 0 and 1, registers 0x0310 and 0x0311 (IEC 61158-4-12, lost
    /// link counter); all else stays.
    pub fn set_lost_links(&mut self, counts: &[u8; 2])
        ensures { self.new ≡ with_registers self.old LOST_LINK counts.now }
    {
        self.memory.load(LOST_LINK, counts);
    }

    /// DL status, register 0x0110 (IEC 61158-4-12, DL status).
    pub fn dl_status(&self) -> u16
        ensures { result ≡ word_at self.now.memory DL_STATUS }
    {
        self.word(DL_STATUS)
    }

    /// Has the controller a slave information interface: may the master write registers 0x0500 to 0x050F? It
    /// has where it tells of itself which kind of chip it is (IEC 61158-4-12, DL information, type).
    pub fn has_sii(&self) -> bool
        ensures { result ≡ has_sii self.now.memory }
    {
        self.memory.has_sii()
    }

    /// Registers 0x0500 to 0x050F (IEC 61158-4-12, slave information interface).
    pub fn sii(&self) -> [u8; SII]
        ensures { result ≡ sii_registers self.now }
    {
        let mut registers = [0; SII];
        registers.copy_from_slice(self.bytes(SII_BASE, SII_SIZE));
        registers
    }

    /// Sets registers 0x0500 to 0x050F (IEC 61158-4-12, slave information interface); all else stays.
    pub fn set_sii(&mut self, registers: &[u8; SII])
        ensures { self.new ≡ with_registers self.old SII_BASE registers.now }
    {
        self.memory.load(SII_BASE, registers);
    }

    /// The outputs in the area of a sync manager, 0 to 7, as the application is shown them, or `None` where
    /// it guards no buffered area that the master writes (IEC 61158-4-12, sync manager, buffered mode).
    pub fn outputs(&self, sm: usize) -> Option<&[u8]>
        requires { sm < SYNC_MANAGER_COUNT }
        ensures { option_map (λ bytes. bytes.now) result ≡ outputs_of self.now sm }
    {
        let manager = self.syncman(sm);
        if manager.guards_outputs() {
            Some(self.shown_bytes(manager.start, manager.length))
        } else {
            None
        }
    }

    /// Writes the inputs of a sync manager, 0 to 7: all bytes of its area, which is buffered and which the
    /// master reads (IEC 61158-4-12, sync manager, buffered mode); all else stays. On an error nothing
    /// changes.
    pub fn put_inputs(&mut self, sm: usize, bytes: &[u8]) -> Result<(), AreaFault>
        requires { sm < SYNC_MANAGER_COUNT }
        ensures ok { OnOk result (self.new ≡ with_inputs self.old sm bytes.now) }
        ensures err { result_err result ≡ put_inputs_fault (sync_manager_at self.old.memory sm) bytes.now }
        ensures unchanged { OnErr result (self.new ≡ self.old) }
    {
        let manager = self.syncman(sm);
        check_inputs(&manager, bytes)?;
        self.memory.load(manager.start, bytes);
        Ok(())
    }

    /// Takes the mail of the master from the mailbox of a sync manager, 0 to 7: gives its whole area, 16 to
    /// 1,486 bytes, and marks it empty (IEC 61158-4-12, sync manager, mailbox mode); all else stays. On an
    /// error nothing changes.
    pub fn take_mail(&mut self, sm: usize) -> Result<ArrayVec<u8, LONGEST_MAIL>, AreaFault>
        requires { sm < SYNC_MANAGER_COUNT }
        ensures mail { IfOk result (λ mail. mail.items
            ≡ mail_of (sync_manager_at self.old.memory sm) self.old.memory) }
        ensures ok { OnOk result (self.new ≡ with_mail_taken self.old sm) }
        ensures err { result_err result ≡ take_mail_fault (sync_manager_at self.old.memory sm) }
        ensures unchanged { OnErr result (self.new ≡ self.old) }
    {
        let manager = self.syncman(sm);
        check_mail_is_there(&manager)?;
        let mut mail = ArrayVec::new();
        mail.try_extend_from_slice(self.bytes(manager.start, manager.length))
            .unwrap();
        self.mark_empty(sm);
        Ok(mail)
    }

    /// Puts a mail for the master into the mailbox of a sync manager, 0 to 7: its area takes the bytes and
    /// zeros after them, and it is marked full (IEC 61158-4-12, sync manager, mailbox mode); all else
    /// stays. On an error nothing changes.
    pub fn put_mail(&mut self, sm: usize, bytes: &[u8]) -> Result<(), AreaFault>
        requires { sm < SYNC_MANAGER_COUNT }
        ensures ok { OnOk result (self.new ≡ with_mail_put self.old sm bytes.now) }
        ensures err { result_err result ≡ put_mail_fault (sync_manager_at self.old.memory sm) bytes.now }
        ensures unchanged { OnErr result (self.new ≡ self.old) }
    {
        let manager = self.syncman(sm);
        check_mail_fits(&manager, bytes)?;
        let area = padded(bytes);
        self.memory
            .load(manager.start, &area[..manager.length as usize]);
        self.mark_full(sm);
        Ok(())
    }

    /// Gives the master the last mail of the mailbox of a sync manager, 0 to 7, once more, as one asks for
    /// whose answer was lost (IEC 61158-4-12, sync manager, repeat request): marks the mailbox full, if a
    /// mail stands in its area, and tells in the PDI byte that it was done; all else stays. On an error
    /// nothing changes.
    pub fn repeat_mail(&mut self, sm: usize) -> Result<(), AreaFault>
        requires { sm < SYNC_MANAGER_COUNT }
        ensures ok { OnOk result (self.new ≡ with_mail_repeated self.old sm) }
        ensures err { result_err result ≡ repeat_mail_fault (sync_manager_at self.old.memory sm) }
        ensures unchanged { OnErr result (self.new ≡ self.old) }
    {
        let manager = self.syncman(sm);
        check_mail_is_read(&manager)?;
        let holds_mail = has_bytes(self.bytes(manager.start, manager.length));
        self.tell_repeated(sm);
        if holds_mail {
            self.mark_full(sm);
        }
        Ok(())
    }

    /// Tells in the PDI byte of a sync manager, 0 to 7, that what its activate byte asks for was done (IEC
    /// 61158-4-12, sync manager, repeat request); all else stays, the mailbox too.
    pub fn tell_repeated(&mut self, sm: usize)
        requires { sm < SYNC_MANAGER_COUNT }
        ensures { self.new ≡ with_repeat_told self.old sm }
    {
        let asked = self.syncman(sm).repeat_asked();
        self.memory.set_byte(pdi_address(sm), 2 * asked);
    }
}

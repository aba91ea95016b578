//! The addresses and sizes of the registers that this project uses (IEC 61158-4-12, registers of the
//! data link layer; AL control and AL status are used as in IEC 61158-6-12).

/// The type of the controller, 1 byte: which kind of chip it is, or 0 where it tells nothing of itself. The
/// master does not write it.
pub const CONTROLLER_TYPE: u16 = 0x0000;

/// How many bytes a controller tells of itself, from its type on: an `Information`.
pub const INFORMATION_SIZE: u16 = 10;

/// Station address, 2 bytes: the address by which FP commands name the slave.
pub const STATION_ADDRESS: u16 = 0x0010;

/// Station alias, 2 bytes: an address that a slave keeps, from its EEPROM. The master does not write it.
pub const STATION_ALIAS: u16 = 0x0012;

/// DL control, 4 bytes: what becomes of frames at the ports. Nothing hangs on it here.
pub const DL_CONTROL: u16 = 0x0100;

/// DL status, 2 bytes: at which ports there is a link, and which are closed. The master does not write it.
pub const DL_STATUS: u16 = 0x0110;

/// AL control, 2 bytes: bits 0 to 3 are the state asked for, bit 4 acknowledges an error.
pub const AL_CONTROL: u16 = 0x0120;

/// AL status, 2 bytes: bits 0 to 3 are the state, bit 4 tells that an error stands.
pub const AL_STATUS: u16 = 0x0130;

/// AL status code, 2 bytes: why the last request was refused.
pub const AL_STATUS_CODE: u16 = 0x0134;

/// The mask of events of which a controller tells the master, 2 bytes. Nothing hangs on it here.
pub const EVENT_MASK: u16 = 0x0200;

/// The counters of errors at the ports, 20 bytes: of receive errors, of frames that came with an error
/// already, and from `LOST_LINK` on of links that were lost.
pub const ERROR_COUNTERS: u16 = 0x0300;

/// How many bytes the counters of errors are.
pub const ERROR_COUNTERS_SIZE: u16 = 20;

/// The counters of lost links, one byte a port, from port 0 on.
pub const LOST_LINK: u16 = 0x0310;

/// The divider of both watchdogs, 2 bytes: how many 25ths of a microsecond, less 2, are one count of theirs.
pub const WATCHDOG_DIVIDER: u16 = 0x0400;

/// For how many counts the application may be silent, 2 bytes.
pub const PDI_WATCHDOG: u16 = 0x0410;

/// For how many counts no frame may write outputs, 2 bytes.
pub const PROCESS_DATA_WATCHDOG: u16 = 0x0420;

/// The first register of the slave information interface, by which the master reads the EEPROM of the slave:
/// access, control and status, the address of a word, and eight bytes of data.
pub const SII_BASE: u16 = 0x0500;

/// How many bytes the registers of the slave information interface are.
pub const SII_SIZE: u16 = 16;

/// The first FMMU record.
pub const FMMU_BASE: u16 = 0x0600;

/// The length of an FMMU record, in bytes.
pub const FMMU_SIZE: u16 = 16;

/// How many FMMUs a controller has.
pub const FMMU_COUNT: usize = 8;

/// The first sync manager record.
pub const SYNC_MANAGER_BASE: u16 = 0x0800;

/// The length of a sync manager record, in bytes.
pub const SYNC_MANAGER_SIZE: u16 = 8;

/// How many sync managers a controller has.
pub const SYNC_MANAGER_COUNT: usize = 8;

/// Where the status byte stands in a sync manager's record; the master does not write it.
pub const SYNC_MANAGER_STATUS: u16 = 5;

/// Where the activate byte stands in a sync manager's record; the master may always write it.
pub const SYNC_MANAGER_ACTIVATE: u16 = 6;

/// Where the PDI byte stands in a sync manager's record; the slave's side alone writes it.
pub const SYNC_MANAGER_PDI: u16 = 7;

/// The status byte of sync manager 1, the mailbox that the master reads; its bit 3 tells that a message
/// waits.
pub const ANSWER_MAILBOX_STATUS: u16 = SYNC_MANAGER_BASE + SYNC_MANAGER_SIZE + SYNC_MANAGER_STATUS;

/// The first byte of process memory; the bytes below it are registers.
pub const PROCESS_MEMORY: u16 = 0x1000;

/// How many bytes of process memory there are.
pub const PROCESS_MEMORY_SIZE: u16 = 0x2000;

/// How many bytes a controller has, registers and process memory together; an address is below it.
pub const MEMORY_SIZE: u16 = 0x3000;

/// How many logical bytes there are: one for each 32-bit address.
pub const LOGICAL_BYTES: u64 = 0x1_0000_0000;

/// How many logical bits there are.
pub const LOGICAL_BITS: u64 = 8 * LOGICAL_BYTES;

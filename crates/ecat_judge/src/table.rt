//! The items of a scene as they are judged: what the line adds to their counters, and which slaves read which
//! of their bits.

ghost use Rattle.std.specs.Prelude.{◌≡◌, ◌<◌, IfOk, length, map};
ghost use Rattle.ec_check.specs.Line.{controllers_by};
ghost use Rattle.ec_map.specs.Share.{expected_of, share};
ghost use Rattle.ec_map.specs.Item.{wire_address};
ghost use Rattle.ecat_judge.specs.Share.{whole};
ghost use Rattle.ecat_judge.specs.Verdict.{has_changed};

use crate::candidates::Candidates;
use crate::evidence::Row;
use crate::share::Share;
use ec_map::{Item, Mapped, expected};
use ec_regs::Fmmu;
use ec_regs::registers::{FMMU_COUNT, PROCESS_MEMORY};
use ec_wire::{Command, FrameBuf, Kind, ado_of};
use std::alloc::{AllocError, Global};

/// What the datagrams of an item have in common.
#[derive(Clone, Copy, PartialEq, Eq, Debug)]
pub(crate) struct Key {
    /// The command.
    pub command: Command,
    /// The address; of a broadcast the register alone.
    pub address: u32,
    /// The number of data bytes.
    pub length: usize,
}

/// Bits of a byte of an item that a slave reads.
#[derive(Clone, Copy)]
pub(crate) struct Window {
    /// The place of the slave on the line.
    pub slave: usize,
    /// The byte of the item.
    pub byte: usize,
    /// The bits.
    pub mask: u8,
}

impl Window {
    /// Did the slave change a bit that it reads of a byte that was sent and came back?
    pub(crate) fn has_changed(&self, before: u8, after: u8) -> bool
        ensures { result ≡ has_changed self.now.mask before after }
    {
        (before ^ after) & self.mask != 0
    }
}

/// An item as it is judged.
#[derive(Drop)]
pub(crate) struct Entry {
    /// By what its datagrams are known.
    pub key: Key,
    /// What the line adds to its counter.
    pub expected: u16,
    /// Which bits slaves read, of a logical item that is read.
    pub windows: Vec<Window>,
}

/// The line and the items that it is judged by.
#[derive(Drop)]
pub(crate) struct Table {
    /// The station address of each slave.
    pub stations: Vec<u16>,
    /// The items.
    pub entries: Vec<Entry>,
    /// What may be missing.
    pub candidates: Candidates,
    /// Is some item a logical one?
    pub logical: bool,
    /// Is the line known? Else the counters that are expected are those that came most often.
    pub is_known: bool,
}

/// Is it the command of a logical item?
pub(crate) fn is_logical(command: Command) -> bool {
    matches!(command, Command::Lrd | Command::Lwr | Command::Lrw)
}

/// By what datagram `k` of a frame is known.
pub(crate) fn key_of(frame: &FrameBuf, k: usize) -> Key
    requires { k < length frame.now }
{
    let command = frame.command(k);
    let address = match command {
        Command::Brd | Command::Bwr | Command::Brw => u32::from(frame.ado(k)),
        _ => frame.address(k),
    };
    Key {
        command,
        address,
        length: frame.data(k).len(),
    }
}

/// Does an item lie in registers?
fn lies_in_registers(item: &Item) -> bool {
    match item.kind() {
        Kind::Brd => true,
        Kind::Fprd | Kind::Fpwr => ado_of(item.address()) < PROCESS_MEMORY,
        Kind::Lrd | Kind::Lwr | Kind::Lrw => false,
    }
}

/// The share of a slave in the counter of an item, whose datagram has this address.
fn share_of<M: Mapped>(slave: &M, item: &Item, address: u32) -> Share
    requires { address ≡ wire_address item.now }
    ensures { whole result ≡ share item.now (M.controller slave.now) }
{
    let gain = slave.gain(item.kind(), address, item.len() as u16);
    Share::of(gain, item.kind(), lies_in_registers(item))
}

/// The share of each slave in the counter of an item.
fn shares_of<M: Mapped>(alloc: Global, line: &[M], item: &Item) -> Result<Vec<Share>, AllocError>
    ensures { IfOk result (λ shares. map whole shares.items
        ≡ map (share item.now) (controllers_by M.controller line.now)) }
{
    let address = item.datagram(0).address;
    let mut shares = Vec::new(alloc);
    for slave in line {
        shares.push(share_of(slave, item, address))?;
    }
    Ok(shares)
}

/// The bits of a logical byte that an FMMU maps.
fn mapped_bits(fmmu: &Fmmu, byte: u32) -> u8 {
    let mut mask = 0u8;
    for bit in 0..8u8 {
        let logical = 8 * u64::from(byte) + u64::from(bit);
        if fmmu.physical_of(logical).is_some() {
            mask |= 1 << bit;
        }
    }
    mask
}

/// Puts what a slave reads of an item through an FMMU.
fn put_windows<M: Mapped>(
    windows: &mut Vec<Window>,
    slave: &M,
    place: usize,
    fmmu: &Fmmu,
    item: &Item,
) -> Result<(), AllocError> {
    let from = item.address();
    for byte in 0..item.len() {
        let logical = from.saturating_add(byte as u32);
        let mask = mapped_bits(fmmu, logical);
        if mask != 0 && 0 < slave.gain(Kind::Lrd, logical, 1) {
            windows.push(Window {
                slave: place,
                byte,
                mask,
            })?;
        }
    }
    Ok(())
}

/// Does an FMMU read a byte of an item?
fn reads_some(fmmu: &Fmmu, item: &Item) -> bool {
    let from = u64::from(item.address());
    let to = from.saturating_add(item.len() as u64);
    let first = u64::from(fmmu.logical);
    let last = first.saturating_add(u64::from(fmmu.length));
    fmmu.is_switched_on() && fmmu.reads() && first < to && from < last
}

/// Puts what a slave reads of an item.
fn put_slave<M: Mapped>(
    windows: &mut Vec<Window>,
    slave: &M,
    place: usize,
    item: &Item,
) -> Result<(), AllocError> {
    for number in 0..FMMU_COUNT {
        let fmmu = slave.fmmu(number);
        if reads_some(&fmmu, item) {
            put_windows(windows, slave, place, &fmmu, item)?;
        }
    }
    Ok(())
}

/// Which bits of an item slaves read, of a logical item that is read.
fn windows_of<M: Mapped>(
    alloc: Global,
    line: &[M],
    item: &Item,
) -> Result<Vec<Window>, AllocError> {
    let mut windows = Vec::new(alloc);
    if matches!(item.kind(), Kind::Lrd | Kind::Lrw) {
        for (place, slave) in line.iter().enumerate() {
            put_slave(&mut windows, slave, place, item)?;
        }
    }
    Ok(windows)
}

/// The station address of each slave.
fn stations_of<M: Mapped>(alloc: Global, line: &[M]) -> Result<Vec<u16>, AllocError> {
    let mut stations = Vec::new(alloc);
    for slave in line {
        stations.push(slave.station())?;
    }
    Ok(stations)
}

/// By what the datagrams of an item are known.
fn item_key(item: &Item) -> Key {
    Key {
        command: item.kind().command(),
        address: item.address(),
        length: item.len(),
    }
}

/// An item as it is judged.
fn entry_of<M: Mapped>(alloc: Global, line: &[M], item: &Item) -> Result<Entry, AllocError>
    ensures { IfOk result (λ entry.
        entry.expected ≡ expected_of (controllers_by M.controller line.now) item.now) }
{
    let windows = windows_of(alloc, line, item)?;
    Ok(Entry {
        key: item_key(item),
        expected: expected(line, item),
        windows,
    })
}

/// The rows of the items, none of which was short.
pub(crate) fn rows_of<M: Mapped>(
    alloc: Global,
    line: &[M],
    items: &[Item],
) -> Result<Vec<Row>, AllocError> {
    let mut rows = Vec::new(alloc);
    for item in items {
        let shares = shares_of(alloc, line, item)?;
        rows.push(Row {
            shares,
            short: None,
        })?;
    }
    Ok(rows)
}

/// The rows of so many items of a line of which nothing is known.
pub(crate) fn empty_rows(alloc: Global, items: usize) -> Result<Vec<Row>, AllocError> {
    let mut rows = Vec::new(alloc);
    for _ in 0..items {
        rows.push(Row {
            shares: Vec::new(alloc),
            short: None,
        })?;
    }
    Ok(rows)
}

impl Table {
    /// The table of a line and its items. Is the master one with two ports?
    pub(crate) fn new<M: Mapped>(
        alloc: Global,
        line: &[M],
        items: &[Item],
        two: bool,
    ) -> Result<Table, AllocError> {
        let mut entries = Vec::new(alloc);
        let mut logical = false;
        for item in items {
            let entry = entry_of(alloc, line, item)?;
            logical = logical || is_logical(entry.key.command);
            entries.push(entry)?;
        }
        Ok(Table {
            candidates: Candidates::new(alloc, line.len(), two)?,
            stations: stations_of(alloc, line)?,
            entries,
            logical,
            is_known: true,
        })
    }

    /// The table of a line of which nothing is known but the counters that its items have most often.
    pub(crate) fn usual(
        alloc: Global,
        items: &[Item],
        counters: &[u16],
    ) -> Result<Table, AllocError> {
        let mut entries = Vec::new(alloc);
        let mut logical = false;
        for (item, counter) in items.iter().zip(counters.iter()) {
            let key = item_key(item);
            logical = logical || is_logical(key.command);
            entries.push(Entry {
                key,
                expected: *counter,
                windows: Vec::new(alloc),
            })?;
        }
        Ok(Table {
            candidates: Candidates::new(alloc, 0, false)?,
            stations: Vec::new(alloc),
            entries,
            logical,
            is_known: false,
        })
    }

    /// The item that datagrams with this key are of: the first one that is known by it.
    pub(crate) fn item_of(&self, key: Key) -> Option<usize> {
        self.entries.iter().position(|entry| entry.key == key)
    }
}

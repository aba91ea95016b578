//! Is a line mapped as a cycle needs it, by its slaves' records alone?

ghost use Rattle.std.specs.Prelude.{◌≡◌, ◌<◌, ◌≤◌, Option, length};
ghost use Rattle.ec_check.specs.declared.fault.MapFault.{MapFault};
ghost use Rattle.rummymaple.specs.Mapping.{IsChecked, map_answer, long_line};

use ec_check::Records;
use ec_map::{MapFault, check};
use ec_ring::MAX_SLAVES;

/// What the check of a line found, in numbers: `struct rmp_mapping` of the header. Slaves, FMMUs and sync
/// managers are numbered from 0; what a rule does not name is 0, or that of the first party.
#[repr(C)]
#[derive(Clone, Copy)]
pub struct MapAnswer {
    /// The first party's slave.
    pub slave: usize,
    /// Its FMMU or sync manager.
    pub number: usize,
    /// The other party's slave.
    pub other_slave: usize,
    /// Its FMMU or sync manager.
    pub other_number: usize,
    /// The lowest address (rules 3 and 4) or bit, 8 * byte + bit (rules 5 to 7).
    pub place: u64,
    /// The rule that is broken, 1 to 7 in their order, or 0 where none is: a twin station, a bad FMMU, areas
    /// that meet, an FMMU outside its area, a bit written twice, read twice, read and written; or 8, before
    /// all of these: the line has more slaves than [`MAX_SLAVES`], and `place` says how many.
    pub rule: u32,
}

/// What was found, in numbers.
fn map_answer(fault: Option<MapFault>) -> MapAnswer
    ensures { result ≡ map_answer fault }
{
    let Some(fault) = fault else {
        return numbered(0, (0, 0), (0, 0), 0);
    };
    match fault {
        MapFault::TwinStation { slave, later_slave } => {
            numbered(1, (slave, 0), (later_slave, 0), 0)
        }
        MapFault::BadFmmu { slave, fmmu } => numbered(2, (slave, fmmu), (slave, fmmu), 0),
        MapFault::AreasMeet {
            slave,
            sync_manager,
            later_sync_manager,
            address,
        } => numbered(
            3,
            (slave, sync_manager),
            (slave, later_sync_manager),
            u64::from(address),
        ),
        MapFault::OutsideArea {
            slave,
            fmmu,
            address,
        } => numbered(4, (slave, fmmu), (slave, fmmu), u64::from(address)),
        MapFault::TwiceWritten {
            slave,
            fmmu,
            later_fmmu,
            bit,
        } => numbered(5, (slave, fmmu), (slave, later_fmmu), bit),
        MapFault::TwiceRead {
            slave,
            fmmu,
            later_slave,
            later_fmmu,
            bit,
        } => numbered(6, (slave, fmmu), (later_slave, later_fmmu), bit),
        MapFault::ReadAndWritten {
            reader,
            reader_fmmu,
            writer,
            writer_fmmu,
            bit,
        } => numbered(7, (reader, reader_fmmu), (writer, writer_fmmu), bit),
    }
}

/// An answer of a rule, its two parties, each a slave and the number of a record, and a place.
fn numbered(rule: u32, first: (usize, usize), other: (usize, usize), place: u64) -> MapAnswer
    ensures { result ≡ record {
      rule = rule;
      slave = first.0;
      number = first.1;
      other_slave = other.0;
      other_number = other.1;
      place = place;
    } }
{
    MapAnswer {
        slave: first.0,
        number: first.1,
        other_slave: other.0,
        other_number: other.1,
        place,
        rule,
    }
}

/// The first fault of the line, if it has one.
fn first_fault(line: &[Records]) -> Option<MapFault>
    ensures { IsChecked line.now result }
{
    match check(line) {
        Ok(()) => None,
        Err(fault) => Some(fault),
    }
}

/// Says whether a line of slaves, of which these are the records, is mapped as a cycle needs it: that it is
/// no longer than a line can be and none of seven rules is broken, or the first that is, with its parties and
/// its place.
#[unsafe(no_mangle)]
pub extern "C" fn rmp_check(line: &[Records]) -> MapAnswer
    ensures long { MAX_SLAVES < length line.now → result ≡ long_line (length line.now) }
    ensures checked { length line.now ≤ MAX_SLAVES
        → (fault : Option MapFault) × (result ≡ map_answer fault) × IsChecked line.now fault }
{
    if line.len() > MAX_SLAVES {
        return numbered(8, (0, 0), (0, 0), line.len() as u64);
    }
    map_answer(first_fault(line))
}

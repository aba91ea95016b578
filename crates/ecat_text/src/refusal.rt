//! Why a line or an item is refused, as it is printed.

ghost use Rattle.std.specs.Prelude.{Some, ◌≡◌, Ok, OnOk, IfErr, true, false};
ghost use Rattle.ec_check.specs.Fit.{IsFit};
ghost use Rattle.ec_check.specs.Line.{controllers, controllers_by};
ghost use Rattle.ec_master.specs.Acceptance.{IsRefusal};
ghost use Rattle.ec_master.specs.Unordered.{IsAccepted};
ghost use Rattle.ec_master.specs.declared.acceptance.Refusal.{Refusal};
ghost use Rattle.ecat_text.specs.Refused.{ArePlaced, AreTaken, IsRefusedFor};
ghost use Rattle.ecat_text.specs.Refusals.{address_words, item_refusal_words, line_refusal_words};

use crate::lines::Lines;
use ec_app::Slave;
use ec_map::{Item, MapFault, Mapped, PlaceFault, check as check_line, check_item};
use ec_master::{Refusal, Work, accept};
use std::fmt;
use std::io::{self, Write};

/// The address of a refusal, as it is printed.
#[derive(Drop)]
struct Place(u16);

impl fmt::Display for Place {
    ghost output = { λ place. Some (address_words place.0) };

    #[tactic(auto, unfolding(crate::specs::Refusals::address_words))]
    fn fmt<W: fmt::Write>(&self, f: &mut fmt::Formatter<W>) -> fmt::Result {
        let address = self.0;
        write!(f, " address 0x{address:04x}")
    }
}

/// Why a line is refused, as it is printed: the rule, the parties and the place.
#[derive(Drop)]
struct LineRefusal(MapFault);

impl fmt::Display for LineRefusal {
    ghost output = { λ refusal. Some (line_refusal_words refusal.0) };

    fn fmt<W: fmt::Write>(&self, f: &mut fmt::Formatter<W>) -> fmt::Result {
        match self.0 {
            MapFault::TwinStation { slave, later_slave } => {
                write!(f, "refused: TwinStation slave {slave} slave {later_slave}")
            }
            MapFault::BadFmmu { slave, fmmu } => {
                write!(f, "refused: BadFmmu slave {slave} fmmu {fmmu}")
            }
            MapFault::AreasMeet {
                slave,
                sync_manager: first,
                later_sync_manager: later,
                address,
            } => {
                let place = Place(address);
                write!(
                    f,
                    "refused: AreasMeet slave {slave} sm {first} sm {later}{place}"
                )
            }
            MapFault::OutsideArea {
                slave,
                fmmu,
                address,
            } => {
                let place = Place(address);
                write!(f, "refused: OutsideArea slave {slave} fmmu {fmmu}{place}")
            }
            MapFault::TwiceWritten {
                slave,
                fmmu,
                later_fmmu: later,
                bit,
            } => write!(
                f,
                "refused: TwiceWritten slave {slave} fmmu {fmmu} fmmu {later} bit {bit}"
            ),
            MapFault::TwiceRead {
                slave,
                fmmu,
                later_slave,
                later_fmmu: later,
                bit,
            } => write!(
                f,
                "refused: TwiceRead slave {slave} fmmu {fmmu} slave {later_slave} fmmu {later} bit {bit}"
            ),
            MapFault::ReadAndWritten {
                reader,
                reader_fmmu: reads,
                writer,
                writer_fmmu: writes,
                bit,
            } => write!(
                f,
                "refused: ReadAndWritten slave {reader} fmmu {reads} slave {writer} fmmu {writes} bit {bit}"
            ),
        }
    }
}

/// Why an item is refused, as it is printed: the rule, the item by its number, the slave and the place.
#[derive(Drop)]
struct ItemRefusal {
    number: usize,
    fault: PlaceFault,
}

impl fmt::Display for ItemRefusal {
    ghost output = { λ refusal. Some (item_refusal_words refusal) };

    fn fmt<W: fmt::Write>(&self, f: &mut fmt::Formatter<W>) -> fmt::Result {
        let number = self.number;
        match self.fault {
            PlaceFault::OutsideRead { slave, address } => {
                let place = Place(address);
                write!(f, "refused: OutsideRead item {number} slave {slave}{place}")
            }
            PlaceFault::OutsideWrite { slave, address } => {
                let place = Place(address);
                write!(
                    f,
                    "refused: OutsideWrite item {number} slave {slave}{place}"
                )
            }
        }
    }
}

/// Is the line or an item refused? If so, prints why.
pub fn refuse<W: Write>(
    line: &[Slave],
    items: &[Item],
    lines: &mut Lines<'_, W>,
) -> io::Result<bool>
    ensures accepted { result ≡ Ok false → AreTaken (controllers line.now) items.now }
    ensures refused { result ≡ Ok true
        → (refusal : Refusal) × IsRefusedFor (controllers line.now) items.now refusal }
{
    refuse_mapped(line, items, lines)
}

/// Checks a line and items as `refuse` does, whatever it is that tells how each slave is mapped.
pub fn refuse_mapped<S: Mapped, W: Write>(
    line: &[S],
    items: &[Item],
    lines: &mut Lines<'_, W>,
) -> io::Result<bool>
    ensures accepted { result ≡ Ok false → AreTaken (controllers_by S.controller line.now) items.now }
    ensures refused { result ≡ Ok true
        → (refusal : Refusal) × IsRefusedFor (controllers_by S.controller line.now) items.now refusal }
{
    match refusal_of(line, items) {
        Ok(()) => Ok(false),
        Err(refusal) => {
            put_refusal(refusal, lines)?;
            Ok(true)
        }
    }
}

/// Is the line or an item of a work refused? If so, prints why.
pub fn refuse_work<W: Write>(
    line: &[Slave],
    work: &Work,
    lines: &mut Lines<'_, W>,
) -> io::Result<bool>
    ensures accepted { result ≡ Ok false → IsAccepted line.now work.now }
    ensures refused { result ≡ Ok true → (refusal : Refusal) × IsRefusal line.now work.now refusal }
{
    match accept(line, work) {
        Ok(()) => Ok(false),
        Err(refusal) => {
            put_refusal(refusal, lines)?;
            Ok(true)
        }
    }
}

/// Why a line or items on it are refused, if they are.
pub(crate) fn refusal_of<S: Mapped>(line: &[S], items: &[Item]) -> Result<(), Refusal>
    ensures accepted { OnOk result (AreTaken (controllers_by S.controller line.now) items.now) }
    ensures refused { IfErr result (IsRefusedFor (controllers_by S.controller line.now) items.now) }
{
    match check_line(line) {
        Ok(()) => misplaced_in(line, items),
        Err(fault) => Err(Refusal::Line(fault)),
    }
}

/// The first of the items on a fit line that goes where a cycle may not, if there is one.
fn misplaced_in<S: Mapped>(line: &[S], items: &[Item]) -> Result<(), Refusal>
    requires { IsFit (controllers_by S.controller line.now) }
    ensures placed { OnOk result (ArePlaced (controllers_by S.controller line.now) items.now) }
    ensures refused { IfErr result (IsRefusedFor (controllers_by S.controller line.now) items.now) }
{
    for k in 0..items.len() {
        match check_item(line, &items[k]) {
            Ok(()) => {}
            Err(fault) => return Err(Refusal::Item(k, fault)),
        }
    }
    Ok(())
}

/// Prints why a line or an item is refused.
fn put_refusal<W: Write>(refusal: Refusal, lines: &mut Lines<'_, W>) -> io::Result<()> {
    match refusal {
        Refusal::Line(fault) => lines.text(LineRefusal(fault))?,
        Refusal::Item(number, fault) => lines.text(ItemRefusal { number, fault })?,
    }
    lines.end()
}

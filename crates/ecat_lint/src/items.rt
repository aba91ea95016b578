//! Which items of a scene no slave of its line serves (IEC 61158-4-12, working counter and FMMU).

ghost use Rattle.std.specs.Prelude.{◌≡◌, ◌≤◌};
ghost use Rattle.ec_wire.specs.declared.datagram.TheConstants.{MAX_DATA};
ghost use Rattle.ec_areas.specs.Records.{fmmus_of};
ghost use Rattle.ec_check.specs.Records.{controller_with};
ghost use Rattle.ec_map.specs.Item.{is_logical};
ghost use Rattle.ecat_lint.specs.Items.{maps_logical, maps_some, is_mapped, is_outside, unserved};
ghost use Rattle.ecat_lint.specs.Items.{without_room};

use crate::oddity::Oddity;
use ec_check::{Mapped, Records};
use ec_map::{Item, Kind, expected};
use ec_number::NUMBER_LENGTH;
use ec_regs::Fmmu;
use ec_regs::registers::FMMU_COUNT;
use ec_wire::MAX_DATA;

/// How many bits a byte has.
const BYTE: u64 = 8;

/// How many bytes of data a datagram has that goes out alone with a number behind it, at the most.
const MOST_DATA: usize = MAX_DATA - NUMBER_LENGTH;

/// The FMMUs of a slave, by number.
#[tactic(auto, unfolding(ec_areas::specs::Records::fmmus_of))]
pub(crate) fn fmmus_of(slave: &Records) -> [Fmmu; FMMU_COUNT]
    ensures { result ≡ fmmus_of (controller_with slave.now).memory }
{
    [
        slave.fmmu(0),
        slave.fmmu(1),
        slave.fmmu(2),
        slave.fmmu(3),
        slave.fmmu(4),
        slave.fmmu(5),
        slave.fmmu(6),
        slave.fmmu(7),
    ]
}

/// Does the FMMU map one of so many logical bytes from an address on?
fn maps_logical(address: u32, count: usize, fmmu: &Fmmu) -> bool
    requires { count ≤ MAX_DATA }
    ensures { result ≡ maps_logical address count fmmu.now }
{
    let bits = u64::from(fmmu.mapped_bits());
    let first = fmmu.first_logical();
    let from = u64::from(address);
    let end = from + count as u64;
    bits != 0 && first < BYTE * end && BYTE * from < first + bits
}

/// Does one of the slave's FMMUs map a byte of the item?
fn maps_some(item: &Item, slave: &Records) -> bool
    ensures { result ≡ maps_some item.now slave.now }
{
    let address = item.address();
    let count = item.len();
    fmmus_of(slave)
        .iter()
        .any(|fmmu| maps_logical(address, count, fmmu))
}

/// Does one of the FMMUs of the line?
fn is_mapped(line: &[Records], item: &Item) -> bool
    ensures { result ≡ is_mapped line.now item.now }
{
    line.iter().any(|slave| maps_some(item, slave))
}

/// Is the item a logical one of which no FMMU of the line maps a byte?
fn is_outside(line: &[Records], item: &Item) -> bool
    ensures { result ≡ is_outside line.now item.now }
{
    is_logical(item.kind()) && !is_mapped(line, item)
}

/// Is an item of the kind a read, a write or an exchange of the logical image?
fn is_logical(kind: Kind) -> bool
    ensures { result ≡ is_logical kind }
{
    matches!(kind, Kind::Lrd | Kind::Lwr | Kind::Lrw)
}

/// What is odd about an item that no slave of the line serves.
pub(crate) fn unserved(line: &[Records], item: &Item) -> Option<Oddity>
    ensures { result ≡ unserved line.now item.now }
{
    if expected(line, item) != 0 {
        return None;
    }
    if is_outside(line, item) {
        Some(Oddity::OutsideMappings {
            address: item.address(),
            length: item.len(),
        })
    } else {
        Some(Oddity::NotServed)
    }
}

/// What is odd about an item that has no room in a frame beside its number.
pub(crate) fn without_room(item: &Item) -> Option<Oddity>
    ensures { result ≡ without_room item.now }
{
    let length = item.len();
    if length > MOST_DATA {
        Some(Oddity::NoRoom {
            length,
            room: MOST_DATA,
        })
    } else {
        None
    }
}

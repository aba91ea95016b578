//! The logical bits among which all those lie that some FMMUs let the master read, or write (IEC 61158-4-12,
//! FMMU). A slave maps nothing of most datagrams on a line: a look at the hull tells that, and no FMMU need
//! be asked.

ghost use Rattle.std.specs.Prelude.{◌≡◌, ◌||◌, ◌*◌, min, max, nat_le};
ghost use Rattle.ec_areas.specs.Hull.{nowhere, widened, widened_by_reader, widened_by_writer};
ghost use Rattle.ec_areas.specs.Hull.{read_hull_of, write_hull_of, misses};

use ec_regs::PlannedFmmu;
use ec_regs::registers::LOGICAL_BITS;

/// How many bits a byte has.
const BYTE: u64 = 8;

/// The logical bits from `first` up to, but not with, `end`.
#[derive(Clone, Copy, PartialEq, Eq, Debug)]
pub struct LogicalHull {
    /// The first bit.
    pub first: u64,
    /// The bit behind the last one.
    pub end: u64,
}

/// The hull of no bits: it begins behind the last bit and ends before the first.
fn nowhere() -> LogicalHull
    ensures { result ≡ nowhere }
{
    LogicalHull {
        first: LOGICAL_BITS,
        end: 0,
    }
}

/// The least hull that holds a hull and the bits that the FMMU maps.
fn widened(hull: LogicalHull, fmmu: &PlannedFmmu) -> LogicalHull
    ensures { result ≡ widened hull fmmu.now }
{
    let bits = u64::from(fmmu.mapped_bits());
    if bits == 0 {
        return hull;
    }
    let first = fmmu.first_logical();
    hull.with(LogicalHull {
        first,
        end: first + bits,
    })
}

/// The least hull that holds a hull and the bits that the master reads through the FMMU.
fn widened_by_reader(hull: LogicalHull, fmmu: &PlannedFmmu) -> LogicalHull
    ensures { result ≡ widened_by_reader hull fmmu.now }
{
    if fmmu.reads() {
        widened(hull, fmmu)
    } else {
        hull
    }
}

/// The least hull that holds a hull and the bits that the master writes through the FMMU.
fn widened_by_writer(hull: LogicalHull, fmmu: &PlannedFmmu) -> LogicalHull
    ensures { result ≡ widened_by_writer hull fmmu.now }
{
    if fmmu.writes() {
        widened(hull, fmmu)
    } else {
        hull
    }
}

/// The least hull that holds all bits that the master reads through the FMMUs.
#[tactic(auto, unfolding(crate::specs::Hull::read_hull_of))]
pub fn read_hull_of(fmmus: &[PlannedFmmu]) -> LogicalHull
    ensures { result ≡ read_hull_of fmmus.now }
{
    fmmus.iter().fold(nowhere(), widened_by_reader)
}

/// The least hull that holds all bits that the master writes through the FMMUs.
#[tactic(auto, unfolding(crate::specs::Hull::write_hull_of))]
pub fn write_hull_of(fmmus: &[PlannedFmmu]) -> LogicalHull
    ensures { result ≡ write_hull_of fmmus.now }
{
    fmmus.iter().fold(nowhere(), widened_by_writer)
}

impl LogicalHull {
    /// Do the bits of `bytes` bytes from the logical byte `address` on all lie outside of the hull? Then
    /// none of them is served through the FMMUs whose hull it is.
    pub fn misses(&self, address: u32, bytes: usize) -> bool
        ensures { result ≡ misses self.now (8 * address) (8 * bytes) }
    {
        let from = BYTE * u64::from(address);
        self.end <= from || from <= self.first && bytes as u64 <= (self.first - from) / BYTE
    }

    /// Does one of the two hulls end in front of the other? Then they share no bit.
    pub fn is_apart(self, other: LogicalHull) -> bool
        ensures { result ≡ (nat_le self.end other.first || nat_le other.end self.first) }
    {
        self.end <= other.first || other.end <= self.first
    }

    /// The least hull that holds both.
    pub fn with(self, other: LogicalHull) -> LogicalHull
        ensures { result ≡ record {
          first = min self.first other.first;
          end = max self.end other.end;
        } }
    {
        LogicalHull {
            first: self.first.min(other.first),
            end: self.end.max(other.end),
        }
    }
}

//! What FMMUs reach all together (IEC 61158-4-12, FMMU). Few slaves use all of them: those behind the last
//! that maps a bit need not be looked at.

ghost use Rattle.std.specs.Prelude.{◌≡◌};
ghost use Rattle.ec_areas.specs.Extent.{extent_of, mapped_count};

use crate::apart::are_apart;
use crate::hull::{LogicalHull, read_hull_of, write_hull_of};
use ec_regs::PlannedFmmu;

/// What FMMUs reach all together.
#[derive(Clone, Copy, PartialEq, Eq, Debug)]
pub struct Extent {
    /// The hull of the logical bits that the master reads through them.
    pub reads: LogicalHull,
    /// The hull of those that it writes through them.
    pub writes: LogicalHull,
    /// Has none for reading a physical bit in common with one for writing?
    pub is_apart: bool,
    /// How many there are up to the last that maps a bit.
    pub count: usize,
}

/// How many FMMUs there are up to the last that maps a bit.
fn mapped_count(fmmus: &[PlannedFmmu]) -> usize
    ensures { result ≡ mapped_count fmmus.now }
{
    let mut count = 0;
    for k in 0..fmmus.len() {
        if fmmus[k].mapped_bits() != 0 {
            count = k + 1;
        }
    }
    count
}

/// What the FMMUs reach all together.
pub fn extent_of(fmmus: &[PlannedFmmu]) -> Extent
    ensures { result ≡ extent_of fmmus.now }
{
    Extent {
        reads: read_hull_of(fmmus),
        writes: write_hull_of(fmmus),
        is_apart: are_apart(fmmus),
        count: mapped_count(fmmus),
    }
}

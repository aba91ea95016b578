//! Whether the master reads through FMMUs what it writes through FMMUs (IEC 61158-4-12, FMMU).

ghost use Rattle.std.specs.Prelude.{◌≡◌, ◌||◌, not};
ghost use Rattle.std.specs.List.{list_all};
ghost use Rattle.ec_regs.specs.Pairs.{reads, writes};
ghost use Rattle.ec_areas.specs.Apart.{share_none, is_apart_from_writers, are_apart};

use ec_regs::PlannedFmmu;

/// Have the runs of physical bits of two FMMUs none in common?
fn share_none(first: &PlannedFmmu, second: &PlannedFmmu) -> bool
    ensures { result ≡ share_none first.now second.now }
{
    let first_end = first.first_physical() + first.mapped_bits();
    let second_end = second.first_physical() + second.mapped_bits();
    first_end <= second.first_physical() || second_end <= first.first_physical()
}

/// Is the second FMMU not for writing, or has it no physical bit in common with the first?
fn is_apart_from_writer(first: &PlannedFmmu, second: &PlannedFmmu) -> bool
    ensures { result ≡ (not (writes second.now) || share_none first.now second.now) }
{
    !second.writes() || share_none(first, second)
}

/// Has the FMMU no physical bit in common with those for writing?
fn is_apart_from_writers(fmmu: &PlannedFmmu, fmmus: &[PlannedFmmu]) -> bool
    ensures { result ≡ is_apart_from_writers fmmu.now fmmus.now }
{
    fmmus.iter().all(|other| is_apart_from_writer(fmmu, other))
}

/// Is the FMMU not for reading, or has it no physical bit in common with those for writing?
fn reads_apart(fmmu: &PlannedFmmu, fmmus: &[PlannedFmmu]) -> bool
    ensures { result ≡ (not (reads fmmu.now) || is_apart_from_writers fmmu.now fmmus.now) }
{
    !fmmu.reads() || is_apart_from_writers(fmmu, fmmus)
}

/// Has no FMMU for reading a physical bit in common with one for writing? Then a read finds what it would
/// find before a write.
#[tactic(auto, unfolding(crate::specs::Apart::are_apart))]
pub fn are_apart(fmmus: &[PlannedFmmu]) -> bool
    ensures { result ≡ are_apart fmmus.now }
{
    fmmus.iter().all(|fmmu| reads_apart(fmmu, fmmus))
}

//! Which areas lie within the buffers of another one (IEC 61158-4-12, sync manager, buffered mode).

ghost use Rattle.std.specs.Prelude.{◌≡◌, find, position};
ghost use Rattle.ecat_lint.specs.Buffers.{begins_behind, has_between, is_next, is_within_buffers, crowds};
ghost use Rattle.ecat_lint.specs.Buffers.{buffers_meet};

use crate::oddity::Oddity;
use ec_regs::SyncMan;

/// How many buffers a buffered area has.
const BUFFERS: u32 = 3;

/// Is the second one an active area that begins behind the begin of the first?
fn begins_behind(first: &SyncMan, other: &SyncMan) -> bool
    ensures { result ≡ begins_behind first.now other.now }
{
    other.is_active() && first.start < other.start
}

/// Does an active area begin between the begins of two others?
fn has_between(managers: &[SyncMan], first: &SyncMan, other: &SyncMan) -> bool
    ensures { result ≡ has_between managers.now first.now other.now }
{
    managers
        .iter()
        .any(|one| begins_behind(first, one) && one.start < other.start)
}

/// Is it the next one, with no other that begins between?
fn is_next(managers: &[SyncMan], first: &SyncMan, other: &SyncMan) -> bool
    ensures { result ≡ is_next managers.now first.now other.now }
{
    begins_behind(first, other) && !has_between(managers, first, other)
}

/// Does an area begin within the three buffers of an area, which is active and buffered?
fn is_within_buffers(first: &SyncMan, other: &SyncMan) -> bool
    ensures { result ≡ is_within_buffers first.now other.now }
{
    let end = u32::from(first.start) + BUFFERS * u32::from(first.length);
    first.is_active() && first.is_buffered() && u32::from(other.start) < end
}

/// Is it the next one, and begins it within the three buffers?
fn crowds(managers: &[SyncMan], first: &SyncMan, other: &SyncMan) -> bool
    ensures { result ≡ crowds managers.now first.now other.now }
{
    is_next(managers, first, other) && is_within_buffers(first, other)
}

/// The number of the next area, if it begins within the three buffers.
fn crowding_number(managers: &[SyncMan], first: &SyncMan) -> Option<usize>
    ensures { result ≡ position (crowds managers.now first.now) managers.now }
{
    managers
        .iter()
        .position(|other| crowds(managers, first, other))
}

/// The sync manager of that area.
fn crowding(managers: &[SyncMan], first: &SyncMan) -> Option<SyncMan>
    ensures { result ≡ find (crowds managers.now first.now) managers.now }
{
    managers
        .iter()
        .copied()
        .find(|other| crowds(managers, first, other))
}

/// What is odd about an active, buffered area among those of a slave: the one that begins next behind its
/// begin begins within its three buffers.
pub(crate) fn buffers_meet(managers: &[SyncMan], first: &SyncMan) -> Option<Oddity>
    ensures { result ≡ buffers_meet managers.now first.now }
{
    let next = crowding_number(managers, first)?;
    let other = crowding(managers, first)?;
    Some(Oddity::BuffersMeet {
        start: first.start,
        length: first.length,
        next,
        at: other.start,
    })
}

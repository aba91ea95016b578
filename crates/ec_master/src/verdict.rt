//! What the working counters say of a cycle.

ghost use Rattle.std.specs.Prelude.{◌≡◌, ◌<◌, List, length};
ghost use Rattle.ec_wire.specs.Datagram.{DatagramRecord};
ghost use Rattle.ec_master.specs.Ports.{taken_on};
ghost use Rattle.ec_merge.specs.Rule.{distance};
ghost use Rattle.ec_master.specs.Verdict.{verdict};
ghost use Rattle.ec_master.specs.Work.{nth_item, with_answers};

use crate::work::Work;

/// What the working counters say of a cycle (IEC 61158-4-12, working counter).
#[derive(Clone, Copy, PartialEq, Eq, Debug)]
pub enum Verdict {
    /// Each counter has moved as the slaves' shares say.
    Good,
    /// The counter of this item, the first one that is not as expected, has moved by less.
    Short(usize),
    /// The working counter of the first such item has moved by more than is expected.
    Over(usize),
}

/// The verdict on a work and the answers that it would take: the first item whose counter has not moved by
/// what is expected.
pub(crate) fn judge(work: &Work, taken: &Work, expected: &[u16]) -> Verdict
    requires taken { length taken.now ≡ length work.now }
    requires expected { length expected.now ≡ length work.now }
    ensures { (answers : List DatagramRecord) → length answers ≡ length work.now
        → taken.now ≡ with_answers work.now answers → result ≡ verdict work.now answers expected.now }
{
    for k in 0..work.len() {
        let count = counted(work, taken, k);
        if count < expected[k] {
            return Verdict::Short(k);
        }
        if count > expected[k] {
            return Verdict::Over(k);
        }
    }
    Verdict::Good
}

/// The verdict on a work that has taken answers, and on what was sent: where it is not good, the work is
/// again what was sent.
pub(crate) fn conclude(work: &mut Work, sent: &Work, expected: &[u16]) -> Verdict
    requires taken { length work.old ≡ length sent.now }
    requires expected { length expected.now ≡ length sent.now }
    ensures judged { (answers : List DatagramRecord) → length answers ≡ length sent.now
        → work.old ≡ with_answers sent.now answers → result ≡ verdict sent.now answers expected.now }
    ensures taken { (answers : List DatagramRecord) → work.old ≡ with_answers sent.now answers
        → work.new ≡ taken_on result sent.now answers }
{
    let verdict = judge(sent, work, expected);
    if verdict != Verdict::Good {
        work.assign(sent);
    }
    verdict
}

/// By how much the counter of the item at `k` moved, modulo 65,536.
fn counted(work: &Work, taken: &Work, k: usize) -> u16
    requires work { k < length work.now }
    requires taken { k < length taken.now }
    ensures { result ≡ distance (nth_item work.now k).counter (nth_item taken.now k).counter }
{
    taken.item(k).counter().wrapping_sub(work.item(k).counter())
}

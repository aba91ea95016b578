//! The laws of the join of one value, of any type that has them.

ghost use Rattle.std.specs.Prelude.{◌≡◌};

use crate::asserts::assert_same;
use ec_merge::{Byte, Counter, Flag, Irq, Merge};

/// The two copies in either place, which give one value.
fn either_way<M: Merge + Copy>(sent: M, a: M, b: M) -> (M, M)
    ensures { result.0 ≡ result.1 }
{
    (M::join(sent, a, b), M::join(sent, b, a))
}

/// Three copies, joined from the left and from the right, which give one value.
fn in_either_group<M: Merge + Copy>(sent: M, a: M, b: M, c: M) -> (M, M)
    ensures { result.0 ≡ result.1 }
{
    let left = M::join(sent, M::join(sent, a, b), c);
    let right = M::join(sent, a, M::join(sent, b, c));
    (left, right)
}

/// A copy beside one that is as it was sent, which is that copy.
fn beside_the_sent<M: Merge + Copy>(sent: M, a: M) -> M
    ensures { result ≡ a }
{
    sent.known();
    a.known();
    M::join(sent, a, sent)
}

#[test]
fn the_laws_hold_of_counters(rt: HostRuntime) {
    let (x, y) = either_way(Counter(65535), Counter(1), Counter(0));
    assert_same(&rt, x, Counter(2));
    assert_same(&rt, y, Counter(2));
    let (x, y) = in_either_group(Counter(10), Counter(11), Counter(12), Counter(13));
    assert_same(&rt, x, Counter(16));
    assert_same(&rt, y, Counter(16));
    assert_same(&rt, beside_the_sent(Counter(65535), Counter(4)), Counter(4));
}

#[test]
fn the_laws_hold_of_bytes(rt: HostRuntime) {
    let (x, y) = either_way(Byte(0xF0), Byte(0xF1), Byte(0x70));
    assert_same(&rt, x, Byte(0x71));
    assert_same(&rt, y, Byte(0x71));
    let (x, y) = in_either_group(Byte(0xF0), Byte(0xF1), Byte(0x70), Byte(0xB0));
    assert_same(&rt, x, Byte(0x31));
    assert_same(&rt, y, Byte(0x31));
    assert_same(&rt, beside_the_sent(Byte(0xF0), Byte(0x0F)), Byte(0x0F));
}

#[test]
fn the_laws_hold_of_flags(rt: HostRuntime) {
    let (x, y) = either_way(Flag(false), Flag(true), Flag(false));
    assert_same(&rt, x, Flag(true));
    assert_same(&rt, y, Flag(true));
    let (x, y) = in_either_group(Flag(true), Flag(true), Flag(false), Flag(true));
    assert_same(&rt, x, Flag(false));
    assert_same(&rt, y, Flag(false));
    assert_same(&rt, beside_the_sent(Flag(true), Flag(false)), Flag(false));
}

#[test]
fn the_laws_hold_of_event_requests(rt: HostRuntime) {
    let (x, y) = either_way(Irq(0x0100), Irq(0x0101), Irq(0x8000));
    assert_same(&rt, x, Irq(0x8001));
    assert_same(&rt, y, Irq(0x8001));
    let (x, y) = in_either_group(Irq(0), Irq(1), Irq(2), Irq(4));
    assert_same(&rt, x, Irq(7));
    assert_same(&rt, y, Irq(7));
    assert_same(&rt, beside_the_sent(Irq(0x00FF), Irq(0x0F0F)), Irq(0x0F0F));
}

//! Whole frames, joined in place.

ghost use Rattle.std.specs.Prelude.{◌≡◌, ℕ, List, ◌<◌, ◌%◌, length, slice_set, OnOk, OnErr, IfOk, IfErr};
ghost use Rattle.std.specs.Prelude.{MatchOption, true, All};
ghost use Rattle.ec_wire.specs.Datagram.{DatagramRecord, nth, Fits};
ghost use Rattle.ec_merge.specs.declared.frames.JoinFault.{JoinFault};
ghost use Rattle.ec_merge.specs.Bytes.{joined_bytes};
ghost use Rattle.ec_wire.specs.Command.{counts_adp};
ghost use Rattle.ec_merge.specs.Frames.{copy_or, fixed_address, belongs, IsOwn, IsStranger, IsFault};
ghost use Rattle.ec_merge.specs.Frames.{with_joined_address, with_joined_fields, joined_record};
ghost use Rattle.ec_merge.specs.Frames.{joined_frame};

use crate::bytes::join_bytes;
use crate::merge::{Counter, Flag, Irq, Merge};
use ec_wire::{Command, FrameBuf};

/// One more ADO in an address: the ADP has the 16 bits below it.
const ONE_ADO: u32 = 0x0001_0000;

/// Why two copies are not joined: one of them cannot have come of the sent frame. It names the first
/// datagram that differs.
#[derive(Clone, Copy, PartialEq, Eq, Debug)]
pub enum JoinFault {
    /// Copy a differs at this datagram.
    StrangerA(usize),
    /// Copy a may have come of the sent frame, and copy b differs at this datagram.
    StrangerB(usize),
}

/// The part of an address that slaves leave as it is: the ADO alone where they count up the ADP, else all of
/// it.
pub fn fixed_address(command: Command, address: u32) -> u32
    ensures { result ≡ fixed_address command address }
{
    if command.counts_adp() {
        address / ONE_ADO
    } else {
        address
    }
}

/// Whether the datagram at `k` of a copy may have come of the sent one.
fn belongs(sent: &FrameBuf, copy: &FrameBuf, k: usize) -> bool
    requires sent { k < length sent.now }
    requires copy { k < length copy.now }
    ensures { result ≡ belongs (nth sent.now k) (nth copy.now k) }
{
    let command = sent.command(k);
    copy.command(k).code() == command.code()
        && copy.index(k) == sent.index(k)
        && copy.data(k).len() == sent.data(k).len()
        && fixed_address(command, copy.address(k)) == fixed_address(command, sent.address(k))
}

/// The first datagram at which a copy differs from the sent frame, if it is a stranger: one that cannot have
/// come of it. Where one frame ends before the other, that is the first datagram that the longer one has
/// more.
pub fn stranger_in(sent: &FrameBuf, copy: &FrameBuf) -> Option<usize>
    ensures { MatchOption result (IsOwn sent.now copy.now) (IsStranger sent.now copy.now) }
{
    let shared = sent.count().min(copy.count());
    for k in 0..shared {
        if !belongs(sent, copy, k) {
            return Some(k);
        }
    }
    if sent.count() == copy.count() {
        None
    } else {
        Some(shared)
    }
}

/// Joins the data of the datagram at `k` of another copy in; all else stays.
fn join_data(sent: &FrameBuf, into: &mut FrameBuf, other: &FrameBuf, k: usize)
    requires sent { k < length sent.now }
    requires into { k < length into.old }
    requires other { k < length other.now }
    requires into_size { length (nth into.old k).payload ≡ length (nth sent.now k).payload }
    requires other_size { length (nth other.now k).payload ≡ length (nth sent.now k).payload }
    ensures { let sent = nth sent.now k in let came = nth into.old k in let other = nth other.now k
        in into.new ≡ slice_set into.old k
        (record came { payload = joined_bytes sent.payload came.payload other.payload }) }
{
    join_bytes(sent.data(k), into.data_mut(k), other.data(k));
}

/// Joins the ADP of the datagram at `k` of another copy in where slaves count it up; all else stays.
fn join_adp(sent: &FrameBuf, into: &mut FrameBuf, other: &FrameBuf, k: usize)
    requires sent { k < length sent.now }
    requires into { k < length into.old }
    requires other { k < length other.now }
    requires into_belongs { belongs (nth sent.now k) (nth into.old k) ≡ true }
    ensures { into.new ≡ slice_set into.old k
        (with_joined_address (nth sent.now k) (nth into.old k) (nth other.now k)) }
{
    if sent.command(k).counts_adp() {
        let joined = Counter::join(
            Counter(sent.adp(k)),
            Counter(into.adp(k)),
            Counter(other.adp(k)),
        );
        into.set_adp(k, joined.0);
    }
}

/// Joins all of the datagram at `k` of another copy in but the address; all others stay.
fn join_fields(sent: &FrameBuf, into: &mut FrameBuf, other: &FrameBuf, k: usize)
    requires sent { k < length sent.now }
    requires into { k < length into.old }
    requires other { k < length other.now }
    requires into_size { length (nth into.old k).payload ≡ length (nth sent.now k).payload }
    requires other_size { length (nth other.now k).payload ≡ length (nth sent.now k).payload }
    ensures { into.new ≡ slice_set into.old k
        (with_joined_fields (nth sent.now k) (nth into.old k) (nth other.now k)) }
{
    let circulating = Flag::join(
        Flag(sent.circulating(k)),
        Flag(into.circulating(k)),
        Flag(other.circulating(k)),
    );
    let irq = Irq::join(Irq(sent.irq(k)), Irq(into.irq(k)), Irq(other.irq(k)));
    let counter = Counter::join(
        Counter(sent.counter(k)),
        Counter(into.counter(k)),
        Counter(other.counter(k)),
    );
    join_data(sent, into, other, k);
    into.set_circulating(k, circulating.0);
    into.set_irq(k, irq.0);
    into.set_counter(k, counter.0);
}

/// Joins the datagram at `k` of another copy in; all others stay.
fn join_datagram(sent: &FrameBuf, into: &mut FrameBuf, other: &FrameBuf, k: usize)
    requires sent { k < length sent.now }
    requires into { k < length into.old }
    requires other { k < length other.now }
    requires into_belongs { belongs (nth sent.now k) (nth into.old k) ≡ true }
    requires other_belongs { belongs (nth sent.now k) (nth other.now k) ≡ true }
    ensures { into.new ≡ slice_set into.old k
        (joined_record (nth sent.now k) (nth into.old k) (nth other.now k)) }
{
    join_adp(sent, into, other, k);
    join_fields(sent, into, other, k);
}

/// Joins another copy in; both may have come of the sent frame.
fn join_all(sent: &FrameBuf, into: &mut FrameBuf, other: &FrameBuf)
    requires into_own { IsOwn sent.now into.old }
    requires other_own { IsOwn sent.now other.now }
    ensures { into.new ≡ joined_frame sent.now into.old other.now }
{
    for k in 0..sent.count() {
        join_datagram(sent, into, other, k);
    }
}

/// Joins another copy of the sent frame into the first one, in its place: as [`join_frames`] does, with no
/// third frame. A stranger is named, the first copy before the other, and leaves the first one as it is.
pub fn join_into(sent: &FrameBuf, into: &mut FrameBuf, other: &FrameBuf) -> Result<(), JoinFault>
    ensures into_own { OnOk result (IsOwn sent.now into.old) }
    ensures other_own { OnOk result (IsOwn sent.now other.now) }
    ensures joined { OnOk result (into.new ≡ joined_frame sent.now into.old other.now) }
    ensures fault { IfErr result (IsFault sent.now into.old other.now) }
    ensures kept { OnErr result (into.new ≡ into.old) }
{
    if let Some(k) = stranger_in(sent, into) {
        return Err(JoinFault::StrangerA(k));
    }
    if let Some(k) = stranger_in(sent, other) {
        return Err(JoinFault::StrangerB(k));
    }
    join_all(sent, into, other);
    Ok(())
}

/// Joins two copies of a sent frame, of which a missing one stands for the sent frame. Data, circulating bits
/// and event requests are joined bit by bit; working counters, and the ADP where slaves count it up, have
/// moved as far as in both copies together. A stranger is named with its first datagram that differs, copy a
/// before b.
pub fn join_frames(
    sent: &FrameBuf,
    a: Option<&FrameBuf>,
    b: Option<&FrameBuf>,
) -> Result<FrameBuf, JoinFault>
    ensures own_a { OnOk result (IsOwn sent.now (copy_or a.entry sent.now)) }
    ensures own_b { OnOk result (IsOwn sent.now (copy_or b.entry sent.now)) }
    ensures joined { IfOk result (λ frame.
        frame ≡ joined_frame sent.now (copy_or a.entry sent.now) (copy_or b.entry sent.now)) }
    ensures fault { IfErr result (IsFault sent.now (copy_or a.entry sent.now) (copy_or b.entry sent.now)) }
    ensures only_joined { IsOwn sent.now (copy_or a.entry sent.now)
        → IsOwn sent.now (copy_or b.entry sent.now)
        → result ≡ Ok (joined_frame sent.now (copy_or a.entry sent.now) (copy_or b.entry sent.now)) }
    ensures only_fault { (f : JoinFault)
        → IsFault sent.now (copy_or a.entry sent.now) (copy_or b.entry sent.now) f
        → result ≡ Err f }
{
    let a = a.unwrap_or(sent);
    let b = b.unwrap_or(sent);
    let mut joined = a.copy();
    match join_into(sent, &mut joined, b) {
        Ok(()) => Ok(joined),
        Err(fault) => Err(fault),
    }
}

/// The order of two copies does not matter, and a copy that is as it was sent adds nothing.
pub fn frame_laws()
    ensures symmetric { (s a b : List DatagramRecord) → joined_frame s a b ≡ joined_frame s b a }
    ensures unit { (s a : List DatagramRecord) → All Fits s → All Fits a → IsOwn s a
        → joined_frame s a s ≡ a }
{}

/// A stranger has one first difference, and a frame that is no stranger has none.
pub fn one_stranger()
    ensures one { (s c : List DatagramRecord) (j k : ℕ) → IsStranger s c j → IsStranger s c k → j ≡ k }
    ensures not_own { (s c : List DatagramRecord) (k : ℕ) → IsOwn s c → IsStranger s c k → ⊥ }
{}

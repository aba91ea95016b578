//! What a returned copy adds to those of its trip that came before.

ghost use Rattle.std.specs.Prelude.{◌≡◌, ◌<◌, length, slice_set};
ghost use Rattle.ec_wire.specs.Datagram.{nth};
ghost use Rattle.ec_merge.specs.Bytes.{joined_bytes};
ghost use Rattle.ecat_trips.specs.Copies.{grown, joined, joined_address, joined_at, joined_or};
ghost use Rattle.ecat_trips.specs.Copies.{moved, same_size_at, with_data};
ghost use Rattle.ecat_trips.specs.Copies.{with_fields, with_number};

use crate::alike::{moves_adp, own_count};
use ec_merge::{Counter, Flag, Irq, Merge, join_bytes};
use ec_wire::FrameBuf;

/// How far the working counter of the datagram at `k` has moved from the sent one, modulo 65,536: in the
/// copies that came back together.
pub fn moved(sent: &FrameBuf, came: &FrameBuf, k: usize) -> u16
    requires sent { k < length sent.now }
    requires came { k < length came.now }
    ensures { result ≡ moved (nth sent.now k) (nth came.now k) }
{
    came.counter(k).wrapping_sub(sent.counter(k))
}

/// How far the ADP of the datagram at `k` has grown from the sent one, modulo 65,536: where slaves count it
/// up, by how many slaves the copies that came back passed together.
pub fn grown(sent: &FrameBuf, came: &FrameBuf, k: usize) -> u16
    requires sent { k < length sent.now }
    requires came { k < length came.now }
    ensures { result ≡ grown (nth sent.now k) (nth came.now k) }
{
    came.adp(k).wrapping_sub(sent.adp(k))
}

/// Gives the datagram at `k` the data of the sent one, which is as long.
fn put_data(sent: &FrameBuf, own: &mut FrameBuf, k: usize)
    requires sent { k < length sent.now }
    requires own { k < length own.old }
    requires size { length (nth own.old k).payload ≡ length (nth sent.now k).payload }
    ensures { let sent = nth sent.now k in let came = nth own.old k
        in own.new ≡ slice_set own.old k (record came { payload = sent.payload }) }
{
    own.data_mut(k).copy_from_slice(sent.data(k));
}

/// Gives the datagram at `k` the data of the sent one, if these are as long.
fn take_data(sent: &FrameBuf, own: &mut FrameBuf, k: usize)
    requires sent { k < length sent.now }
    requires own { k < length own.old }
    ensures { own.new ≡ slice_set own.old k (with_data (nth sent.now k) (nth own.old k)) }
{
    if same_size_at(sent, own, k) {
        put_data(sent, own, k);
    }
}

/// Gives a frame the number of the sent one, if both have a datagram at its place.
#[tactic(auto, unfolding(crate::specs::Copies::with_number))]
pub(crate) fn take_number(sent: &FrameBuf, own: &mut FrameBuf)
    ensures { own.new ≡ with_number sent.now own.old }
{
    let k = own_count(sent);
    if k < sent.count() && k < own.count() {
        take_data(sent, own, k);
    }
}

/// A frame that came, with the number of the sent one.
pub(crate) fn with_number(sent: &FrameBuf, frame: &FrameBuf) -> FrameBuf
    ensures { result ≡ with_number sent.now frame.now }
{
    let mut own = frame.copy();
    take_number(sent, &mut own);
    own
}

/// Joins the data of the datagram at `k` of another copy in.
fn join_data(sent: &FrameBuf, into: &mut FrameBuf, other: &FrameBuf, k: usize)
    requires sent { k < length sent.now }
    requires into { k < length into.old }
    requires other { k < length other.now }
    requires into_size { length (nth into.old k).payload ≡ length (nth sent.now k).payload }
    requires other_size { length (nth other.now k).payload ≡ length (nth sent.now k).payload }
    ensures { let sent = nth sent.now k in let came = nth into.old k in let other = nth other.now k
        in into.new ≡ slice_set into.old k
        (record came { payload = joined_bytes sent.payload came.payload other.payload }) }
{
    join_bytes(sent.data(k), into.data_mut(k), other.data(k));
}

/// Joins the ADP of the datagram at `k` of another copy in where slaves count it up.
fn join_adp(sent: &FrameBuf, into: &mut FrameBuf, other: &FrameBuf, k: usize)
    requires sent { k < length sent.now }
    requires into { k < length into.old }
    requires other { k < length other.now }
    ensures { let sent = nth sent.now k in let came = nth into.old k in let other = nth other.now k
        in into.new ≡ slice_set into.old k (record came {
          address = joined_address sent.command sent.address came.address other.address;
        }) }
{
    if moves_adp(sent.command(k)) {
        let joined = Counter::join(
            Counter(sent.adp(k)),
            Counter(into.adp(k)),
            Counter(other.adp(k)),
        );
        into.set_adp(k, joined.0);
    }
}

/// Joins the counter, the circulating bit and the event requests of the datagram at `k` of another copy in.
fn join_fields(sent: &FrameBuf, into: &mut FrameBuf, other: &FrameBuf, k: usize)
    requires sent { k < length sent.now }
    requires into { k < length into.old }
    requires other { k < length other.now }
    ensures { into.new ≡ slice_set into.old k
        (with_fields (nth sent.now k) (nth into.old k) (nth other.now k)) }
{
    let circulating = Flag::join(
        Flag(sent.circulating(k)),
        Flag(into.circulating(k)),
        Flag(other.circulating(k)),
    );
    let irq = Irq::join(Irq(sent.irq(k)), Irq(into.irq(k)), Irq(other.irq(k)));
    let counter = Counter::join(
        Counter(sent.counter(k)),
        Counter(into.counter(k)),
        Counter(other.counter(k)),
    );
    into.set_circulating(k, circulating.0);
    into.set_irq(k, irq.0);
    into.set_counter(k, counter.0);
}

/// Joins the datagram at `k` of another copy in.
fn join_datagram(sent: &FrameBuf, into: &mut FrameBuf, other: &FrameBuf, k: usize)
    requires sent { k < length sent.now }
    requires into { k < length into.old }
    requires other { k < length other.now }
    requires into_size { length (nth into.old k).payload ≡ length (nth sent.now k).payload }
    requires other_size { length (nth other.now k).payload ≡ length (nth sent.now k).payload }
    ensures { into.new ≡ slice_set into.old k
        (joined_at (nth sent.now k) (nth into.old k) (nth other.now k)) }
{
    join_adp(sent, into, other, k);
    join_fields(sent, into, other, k);
    join_data(sent, into, other, k);
}

/// Joins the datagram at `k` of another copy in, if its data is as long in all three.
fn join_if_sized(sent: &FrameBuf, into: &mut FrameBuf, other: &FrameBuf, k: usize)
    requires sent { k < length sent.now }
    requires into { k < length into.old }
    requires other { k < length other.now }
    ensures { into.new ≡ slice_set into.old k
        (joined_or (nth sent.now k) (nth into.old k) (nth other.now k)) }
{
    if same_size_at(sent, into, k) && same_size_at(sent, other, k) {
        join_datagram(sent, into, other, k);
    }
}

/// Is the data of the datagram at `k` as long in both frames?
fn same_size_at(sent: &FrameBuf, frame: &FrameBuf, k: usize) -> bool
    requires sent { k < length sent.now }
    requires frame { k < length frame.now }
    ensures { result ≡ same_size_at (nth sent.now k) (nth frame.now k) }
{
    frame.data(k).len() == sent.data(k).len()
}

/// Joins another copy in, datagram by datagram as far as all three go and have data of one length: those that
/// have not stay as they are.
pub(crate) fn join_in(sent: &FrameBuf, into: &mut FrameBuf, other: &FrameBuf)
    ensures { into.new ≡ joined sent.now into.old other.now }
{
    let shared = sent.count().min(into.count()).min(other.count());
    for k in 0..shared {
        join_if_sized(sent, into, other, k);
    }
}

//! A joined frame beside the items that it answers.

ghost use Rattle.std.specs.Prelude.{◌≡◌, ◌<◌, ◌≤◌, ◌+◌, length, drop, MatchOption};
ghost use Rattle.ec_wire.specs.Datagram.{nth};
ghost use Rattle.rummymaple.specs.Items.{AreTaken};
ghost use Rattle.rummymaple.specs.Answers.{answers, AreAnswered, IsFirstOther, verdict_on, came_back};
ghost use Rattle.rummymaple.specs.Answers.{with_counts_at, stored_item, stored};

use crate::item::{BROADCAST_READ, Item};
use ec_master::Verdict;
use ec_wire::FrameBuf;

/// Whether the datagram at `j` is the answer of an item with the number `k`.
fn answers(item: &Item, k: usize, frame: &FrameBuf, j: usize) -> bool
    requires { j < length frame.now }
    ensures { result ≡ answers item.now k (nth frame.now j) }
{
    u16::from(frame.command(j).code()) == item.kind
        && usize::from(frame.index(j)) == k
        && frame.data(j).len() == usize::from(item.length)
}

/// The first datagram that is not the answer of its item: the first is that of the item at `first`.
pub(crate) fn first_other(items: &[Item], first: usize, frame: &FrameBuf) -> Option<usize>
    ensures { MatchOption result (AreAnswered items.now first frame.now)
        (IsFirstOther items.now first frame.now) }
{
    let left = items.len().saturating_sub(first);
    let shared = frame.count().min(left);
    for j in 0..shared {
        if !answers(&items[first + j], first + j, frame, j) {
            return Some(j);
        }
    }
    if shared < frame.count() {
        Some(shared)
    } else {
        None
    }
}

/// The verdict on the items from `first` on: the first of a frame whose counter has not moved by what is
/// expected.
pub(crate) fn verdict(items: &[Item], first: usize, frame: &FrameBuf) -> Verdict
    requires { AreAnswered items.now first frame.now }
    ensures { result ≡ verdict_on items.now first frame.now }
{
    for j in 0..frame.count() {
        let item = &items[first + j];
        let count = frame.counter(j).wrapping_sub(item.sent);
        if count < item.expected {
            return Verdict::Short(first + j);
        }
        if count > item.expected {
            return Verdict::Over(first + j);
        }
    }
    Verdict::Good
}

/// Writes what came back into an item: the counter of the datagram at `j`, and the ADP of a broadcast read.
fn take_count(item: &mut Item, frame: &FrameBuf, j: usize)
    requires { j < length frame.now }
    ensures { item.new ≡ came_back item.old (nth frame.now j) }
{
    item.came = frame.counter(j);
    item.passed = if item.kind == BROADCAST_READ {
        frame.adp(j)
    } else {
        0
    };
}

/// Writes what came back into the items from `first` on.
pub(crate) fn take_counts(items: &mut [Item], first: usize, frame: &FrameBuf)
    requires { AreAnswered items.old first frame.now }
    ensures { items.new ≡ with_counts_at first items.old frame.now }
{
    for j in 0..frame.count() {
        take_count(&mut items[first + j], frame, j);
    }
}

/// Puts the data of the datagram at `j` into the image, where the item reads.
fn store_item(item: &Item, frame: &FrameBuf, j: usize, image: &mut [u8])
    requires there { j < length frame.now }
    requires place { item.now.offset + item.now.length ≤ length image.old }
    requires count { length (nth frame.now j).payload ≡ item.now.length }
    ensures { image.new ≡ stored_item item.now (nth frame.now j) image.old }
{
    if item.reads() {
        let (begin, end) = item.place();
        image[begin..end].copy_from_slice(frame.data(j));
    }
}

/// Puts the data of each item of the frame that reads into the image.
pub(crate) fn store_items(items: &[Item], first: usize, frame: &FrameBuf, image: &mut [u8])
    requires taken { AreTaken (length image.old) items.now }
    requires answered { AreAnswered items.now first frame.now }
    ensures { image.new ≡ stored (drop first items.now) frame.now image.old }
{
    for j in 0..frame.count() {
        store_item(&items[first + j], frame, j, image);
    }
}

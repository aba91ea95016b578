//! Runs of data bytes, joined in place.

ghost use Rattle.std.specs.Prelude.{◌≡◌, ℕ, List, ◌+◌, ◌*◌, ◌<◌, ◌≤◌, length, slice_index};
ghost use Rattle.std.specs.Simd.Lanes.{chunk, put_chunk};
ghost use Rattle.ec_merge.specs.Rule.{joined_bits};
ghost use Rattle.ec_merge.specs.Bytes.{IsJoined, IsJoinedUpTo, joined_bytes};

use std::simd::prelude::*;

/// The bytes that are joined at once.
const LANES: usize = 32;

/// One byte joined.
fn joined_byte(sent: u8, a: u8, b: u8) -> u8
    ensures { result ≡ joined_bits sent a b }
{
    sent ^ ((a ^ sent) | (b ^ sent))
}

/// Joins the 32 bytes from `at` on.
fn join_block(sent: &[u8], into: &mut [u8], other: &[u8], at: usize)
    requires sent { at + LANES ≤ length sent.now }
    requires into { at + LANES ≤ length into.old }
    requires other { at + LANES ≤ length other.now }
    ensures { into.new ≡ put_chunk at into.old
        (joined_bytes (chunk at LANES sent.now) (chunk at LANES into.old) (chunk at LANES other.now)) }
{
    let s = u8x32::from_slice(&sent[at..]);
    let a = u8x32::from_slice(&into[at..]);
    let b = u8x32::from_slice(&other[at..]);
    let joined = s ^ ((a ^ s) | (b ^ s));
    joined.copy_to_slice(&mut into[at..]);
}

/// Joins the first `blocks` times 32 bytes, a block at a time.
fn join_blocks(sent: &[u8], into: &mut [u8], other: &[u8], blocks: usize)
    requires into { length into.old ≡ length sent.now }
    requires other { length other.now ≡ length sent.now }
    requires room { blocks * LANES ≤ length sent.now }
    ensures { IsJoinedUpTo (blocks * LANES) sent.now into.old other.now into.new }
{
    for block in 0..blocks {
        join_block(sent, into, other, block * LANES);
    }
}

/// Joins the bytes from `from` on, one at a time.
fn join_rest(sent: &[u8], into: &mut [u8], other: &[u8], from: usize)
    requires into { length into.old ≡ length sent.now }
    requires other { length other.now ≡ length sent.now }
    requires room { from ≤ length sent.now }
    ensures count { length into.new ≡ length into.old }
    ensures before { (k : ℕ) → k < from → slice_index into.new k ≡ slice_index into.old k }
    ensures joined { (k : ℕ) → from ≤ k → k < length sent.now → slice_index into.new k
        ≡ joined_bits (slice_index sent.now k) (slice_index into.old k) (slice_index other.now k) }
{
    for at in from..sent.len() {
        into[at] = joined_byte(sent[at], into[at], other[at]);
    }
}

/// Joins the copy `other` of the bytes `sent` into the copy `into`: each bit differs from the sent one
/// exactly if it does in one of the copies.
pub fn join_bytes(sent: &[u8], into: &mut [u8], other: &[u8])
    requires into { length into.old ≡ length sent.now }
    requires other { length other.now ≡ length sent.now }
    ensures bits { IsJoined sent.now into.old other.now into.new }
    ensures bytes { into.new ≡ joined_bytes sent.now into.old other.now }
{
    let blocks = sent.len() / LANES;
    join_blocks(sent, into, other, blocks);
    join_rest(sent, into, other, blocks * LANES);
}

/// The bit rule leaves no choice: two runs of bytes that are joined of the same ones are the same.
pub fn one_join()
    ensures { (sent a b x y : List ℕ) → IsJoined sent a b x → IsJoined sent a b y → x ≡ y }
{}

//! Runs of data, joined in place by lanes and byte by byte.

ghost use Rattle.std.specs.Prelude.{◌≡◌, ◌≤◌, length};

use ec_merge::join_bytes;

/// The most data of a datagram.
const MOST: usize = 1486;

/// Bytes that go up by this step, modulo 256.
fn stepping(step: u8) -> [u8; MOST] {
    let mut bytes = [0; MOST];
    let mut next = 0u8;
    for byte in bytes.iter_mut() {
        *byte = next;
        next = next.wrapping_add(step);
    }
    bytes
}

/// Joins byte by byte, each bit by the rule.
fn join_each(sent: &[u8], into: &mut [u8], other: &[u8])
    requires into { length into.old ≡ length sent.now }
    requires other { length other.now ≡ length sent.now }
{
    for k in 0..sent.len() {
        into[k] = sent[k] ^ ((into[k] ^ sent[k]) | (other[k] ^ sent[k]));
    }
}

/// Whether runs of this length are joined by lanes as they are byte by byte.
fn agrees(length: usize) -> bool
    requires { length ≤ MOST }
{
    let sent = stepping(7);
    let mut lanes = stepping(13);
    let mut each = stepping(13);
    let other = stepping(29);
    join_bytes(&sent[..length], &mut lanes[..length], &other[..length]);
    join_each(&sent[..length], &mut each[..length], &other[..length]);
    lanes.as_slice() == each.as_slice()
}

#[test]
fn lanes_and_single_bytes_agree(rt: HostRuntime) {
    for length in 0..98usize {
        assert!(rt; agrees(length));
    }
    assert!(rt; agrees(MOST));
}

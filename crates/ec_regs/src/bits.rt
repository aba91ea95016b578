//! Runs of bits copied from one byte list into another; bit i of a list is bit i mod 8 of byte i div 8
//! (IEC 61158-4-12, bit numbering of the FMMU).

ghost use Rattle.std.specs.Prelude.{◌≡◌, ◌+◌, ◌-◌, ◌*◌, ◌%◌, ◌^◌, ◌<◌, ◌≤◌, ℕ, length, slice_index};
ghost use Rattle.std.specs.Int.{bit_at};
ghost use Rattle.ec_regs.specs.Bits.{AreBytes, bit, eight_bits, with_bits};
ghost use Rattle.ec_regs.specs.Pairs.{partner};

/// How many bits a byte has.
const BYTE: usize = 8;

/// The bits of a byte from `from` up to, but not with, `to`.
fn mask(from: usize, to: usize) -> u8
    requires ordered { from ≤ to }
    requires in_byte { to ≤ 8 }
    ensures { result ≡ 2 ^ to - 2 ^ from }
{
    ((1u16 << to) - (1u16 << from)) as u8
}

/// Eight bits of two neighbouring bytes, from bit `shift` of the lower one on.
fn window(low: u8, high: u8, shift: usize) -> u8
    requires { shift < 8 }
    ensures { result ≡ eight_bits low high shift }
{
    ((u16::from(high) << 8 | u16::from(low)) >> shift & 0xFF) as u8
}

/// The eight bits of the bytes from bit `source` on; past the end they are 0.
fn byte_from(bytes: &[u8], source: usize) -> u8
    requires { source < 8 * length bytes.now }
    ensures { (b : ℕ) → b < 8 → bit_at result b ≡ bit bytes.now (source + b) }
{
    let byte = source / BYTE;
    let high = if byte + 1 < bytes.len() {
        bytes[byte + 1]
    } else {
        0
    };
    window(bytes[byte], high, source % BYTE)
}

/// Copies `count` bits into one byte: those from bit `source` on to those from bit `at` on.
fn copy_in_byte(into: &mut [u8], at: usize, bytes: &[u8], source: usize, count: usize)
    requires bytes { AreBytes into.old }
    requires one_byte { at % 8 + count ≤ 8 }
    requires at_inside { at + count ≤ 8 * length into.old }
    requires source_inside { source + count ≤ 8 * length bytes.now }
    ensures { into.new ≡ with_bits into.old bytes.now (partner at source count) }
{
    if count == 0 {
        return;
    }
    let shift = at % BYTE;
    let mask = mask(shift, shift + count);
    let taken = byte_from(bytes, source) << shift;
    into[at / BYTE] = into[at / BYTE] & !mask | taken & mask;
}

/// Fills the bytes from others, of which there is one more: each takes eight bits, from bit `shift` of the
/// byte at its place on.
fn fill_shifted(into: &mut [u8], bytes: &[u8], shift: usize)
    requires shift { shift < 8 }
    requires length { length bytes.now ≡ length into.old + 1 }
    ensures { (k : ℕ) → k < length into.old
        → slice_index into.new k
        ≡ eight_bits (slice_index bytes.now k) (slice_index bytes.now (k + 1)) shift }
{
    for (k, byte) in into.iter_mut().enumerate() {
        *byte = window(bytes[k], bytes[k + 1], shift);
    }
}

/// Copies `count` whole bytes: byte `at` and those behind it take eight bits each, from bit `source` on.
fn copy_bytes(into: &mut [u8], at: usize, bytes: &[u8], source: usize, count: usize)
    requires at_inside { at + count ≤ length into.old }
    requires source_inside { source + 8 * count ≤ 8 * length bytes.now }
    ensures { into.new ≡ with_bits into.old bytes.now (partner (8 * at) source (8 * count)) }
{
    let from = source / BYTE;
    let shift = source % BYTE;
    let end = at + count;
    if shift == 0 {
        into[at..end].copy_from_slice(&bytes[from..from + count]);
    } else {
        fill_shifted(&mut into[at..end], &bytes[from..from + count + 1], shift);
    }
}

/// Copies `count` bits: those from bit `source` of the bytes on, to those from bit `at` on. All others stay.
pub fn copy_bits(into: &mut [u8], at: usize, bytes: &[u8], source: usize, count: usize)
    requires at_inside { at + count ≤ 8 * length into.old }
    requires source_inside { source + count ≤ 8 * length bytes.now }
    requires at_fits { at + count < 2 ^ 64 }
    requires source_fits { source + count < 2 ^ 64 }
    ensures { into.new ≡ with_bits into.old bytes.now (partner at source count) }
{
    if at % BYTE + count <= BYTE {
        return copy_in_byte(into, at, bytes, source, count);
    }
    let head = ((BYTE - at % BYTE) % BYTE).min(count);
    copy_in_byte(into, at, bytes, source, head);
    let whole = (count - head) / BYTE;
    copy_bytes(into, (at + head) / BYTE, bytes, source + head, whole);
    let done = head + BYTE * whole;
    copy_in_byte(into, at + done, bytes, source + done, count - done);
}

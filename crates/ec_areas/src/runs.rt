//! Runs of bytes between a controller's memory and the data of a physical command.

ghost use Rattle.std.specs.Prelude.{◌≡◌, ◌==◌, ◌+◌, ◌*◌, ◌<◌, ◌≤◌, ℕ, length, slice_index, bit_or};
ghost use Rattle.std.specs.Prelude.{if◌then◌else◌};
ghost use Rattle.ec_regs.specs.Bits.{bit, with_bits};

/// Fills the data with the memory's bytes from an address on.
pub fn copy_run(memory: &[u8], from: usize, into: &mut [u8])
    requires { from + length into.old ≤ length memory.now }
    ensures { into.new ≡ with_bits into.old memory.now (λ i. Some (8 * from + i)) }
{
    let end = from + into.len();
    into.copy_from_slice(&memory[from..end]);
}

/// Ors each byte of some bytes into the one at its place.
fn merge(into: &mut [u8], bytes: &[u8])
    requires { length into.old ≡ length bytes.now }
    ensures { (k : ℕ) → k < length into.old → slice_index into.new k
        ≡ bit_or (slice_index into.old k) (slice_index bytes.now k) }
{
    for (place, byte) in bytes.iter().enumerate() {
        into[place] |= *byte;
    }
}

/// Ors the memory's bytes from an address on into the data.
pub fn merge_run(memory: &[u8], from: usize, into: &mut [u8])
    requires { from + length into.old ≤ length memory.now }
    ensures { into.new ≡ with_bits into.old memory.now (λ i. if bit memory.now
        (8 * from + i) == 1 then Some (8 * from + i) else None) }
{
    let end = from + into.len();
    merge(into, &memory[from..end]);
}

//! Values of which a redundant master gets two copies back, and the laws of their join.

ghost use Rattle.std.specs.Prelude.{◌≡◌, ℕ, ◌+◌, ◌%◌, ◌<◌, Bool};
ghost use Rattle.std.specs.Int.{bit_at};
ghost use Rattle.ec_merge.specs.Rule.{distance, joined_count, joined_bits, joined_flag, IsJoinedBit};

/// A value that a redundant master sends twice, and of which two copies come back. The join takes what each
/// copy has gained over the sent value.
pub trait Merge {
    /// What `join` gives, of the sent value and two copies.
    ghost joined: { Self → Self → Self → Self };

    /// Which values of the logic are values of the type.
    ghost is_value: { Self → Type 0 };

    /// What two copies of a sent value are together.
    fn join(sent: Self, a: Self, b: Self) -> Self
        ensures { result ≡ joined sent a b };

    /// Says that each value of the type is in its range; it does nothing.
    fn known(&self)
        ensures { is_value self.now };

    /// The order of the copies does not matter.
    ghost symmetric: { (s a b : Self) → joined s a b ≡ joined s b a };

    /// Three copies may be joined from either side.
    ghost grouped: { (s a b c : Self) → joined s (joined s a b) c ≡ joined s a (joined s b c) };

    /// A copy that is as it was sent adds nothing.
    ghost unit: { (s a : Self) → is_value s → is_value a → joined s a s ≡ a };
}

/// A working counter, or an auto-increment address: 16 bits that slaves add to, modulo 65,536.
#[derive(Clone, Copy, PartialEq, Eq, Debug)]
pub struct Counter(pub u16);

/// A byte of data, bit by bit.
#[derive(Clone, Copy, PartialEq, Eq, Debug)]
pub struct Byte(pub u8);

/// One bit, as the circulating bit.
#[derive(Clone, Copy, PartialEq, Eq, Debug)]
pub struct Flag(pub bool);

/// The event requests of a datagram, bit by bit.
#[derive(Clone, Copy, PartialEq, Eq, Debug)]
pub struct Irq(pub u16);

impl Merge for Counter {
    ghost use Rattle.ec_merge.specs.Laws.{joined_count_symmetric, joined_count_grouped, joined_count_unit};
    ghost use Rattle.std.proofs.Common.{ap};

    ghost joined = { λ s a b. record { 0 = joined_count s.0 a.0 b.0 } };

    ghost is_value = { λ v. v.0 < 65536 };

    ghost symmetric = { λ s a b. ap (λ n. record { 0 = n }) (joined_count_symmetric s.0 a.0 b.0) };

    ghost grouped = { λ s a b c. ap (λ n. record { 0 = n }) (joined_count_grouped s.0 a.0 b.0 c.0) };

    ghost unit = { λ s a hs ha. ap (λ n. record { 0 = n }) (joined_count_unit s.0 a.0 hs ha) };

    fn join(sent: Counter, a: Counter, b: Counter) -> Counter {
        Counter(a.0.wrapping_add(b.0).wrapping_sub(sent.0))
    }

    fn known(&self) {
        // For the prover: a value that is read is one of its type.
        let _value = self.0;
    }
}

impl Merge for Byte {
    ghost use Rattle.ec_merge.specs.Laws.{joined_bits_symmetric, joined_bits_grouped, joined_bits_unit};
    ghost use Rattle.std.proofs.Common.{ap};

    ghost joined = { λ s a b. record { 0 = joined_bits s.0 a.0 b.0 } };

    ghost is_value = { λ v. v.0 < 256 };

    ghost symmetric = { λ s a b. ap (λ n. record { 0 = n }) (joined_bits_symmetric s.0 a.0 b.0) };

    ghost grouped = { λ s a b c. ap (λ n. record { 0 = n }) (joined_bits_grouped s.0 a.0 b.0 c.0) };

    ghost unit = { λ s a _ _. ap (λ n. record { 0 = n }) (joined_bits_unit s.0 a.0) };

    fn join(sent: Byte, a: Byte, b: Byte) -> Byte {
        Byte(sent.0 ^ ((a.0 ^ sent.0) | (b.0 ^ sent.0)))
    }

    fn known(&self) {
        // For the prover: a value that is read is one of its type.
        let _value = self.0;
    }
}

impl Merge for Irq {
    ghost use Rattle.ec_merge.specs.Laws.{joined_bits_symmetric, joined_bits_grouped, joined_bits_unit};
    ghost use Rattle.std.proofs.Common.{ap};

    ghost joined = { λ s a b. record { 0 = joined_bits s.0 a.0 b.0 } };

    ghost is_value = { λ v. v.0 < 65536 };

    ghost symmetric = { λ s a b. ap (λ n. record { 0 = n }) (joined_bits_symmetric s.0 a.0 b.0) };

    ghost grouped = { λ s a b c. ap (λ n. record { 0 = n }) (joined_bits_grouped s.0 a.0 b.0 c.0) };

    ghost unit = { λ s a _ _. ap (λ n. record { 0 = n }) (joined_bits_unit s.0 a.0) };

    fn join(sent: Irq, a: Irq, b: Irq) -> Irq {
        Irq(sent.0 ^ ((a.0 ^ sent.0) | (b.0 ^ sent.0)))
    }

    fn known(&self) {
        // For the prover: a value that is read is one of its type.
        let _value = self.0;
    }
}

impl Merge for Flag {
    ghost use Rattle.ec_merge.specs.Laws.{joined_flag_symmetric, joined_flag_grouped, joined_flag_unit};
    ghost use Rattle.std.proofs.Common.{ap};

    ghost joined = { λ s a b. record { 0 = joined_flag s.0 a.0 b.0 } };

    ghost is_value = { λ _. Unit {0} };

    ghost symmetric = { λ s a b. ap (λ n. record { 0 = n }) (joined_flag_symmetric s.0 a.0 b.0) };

    ghost grouped = { λ s a b c. ap (λ n. record { 0 = n }) (joined_flag_grouped s.0 a.0 b.0 c.0) };

    ghost unit = { λ s a _ _. ap (λ n. record { 0 = n }) (joined_flag_unit s.0 a.0) };

    fn join(sent: Flag, a: Flag, b: Flag) -> Flag {
        Flag(sent.0 ^ ((a.0 ^ sent.0) | (b.0 ^ sent.0)))
    }

    fn known(&self) {}
}

/// What joined values are in plain words: a bit differs from the sent one exactly if it does in some copy,
/// and a counter has moved from the sent one as far as in both copies together.
pub fn value_rule()
    ensures bits { (s a b i : ℕ)
        → IsJoinedBit (bit_at s i) (bit_at a i) (bit_at b i) (bit_at (joined_bits s a b) i) }
    ensures flag { (s a b : Bool) → IsJoinedBit s a b (joined_flag s a b) }
    ensures counter { (s a b : ℕ) → s < 65536
        → distance s (joined_count s a b) ≡ (distance s a + distance s b) % 65536 }
    ensures one_counter { (s x y : ℕ) → s < 65536 → x < 65536 → y < 65536 → distance s x ≡ distance s y
        → x ≡ y }
{}

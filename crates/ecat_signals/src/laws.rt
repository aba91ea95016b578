//! What is promised of values that are written and read again.

ghost use Rattle.std.specs.Prelude.{◌≡◌, ◌<◌, ◌^◌, ℕ, List, Ok, Some};
ghost use Rattle.ec_regs.specs.Bits.{bit};
ghost use Rattle.ecat_signals.specs.Signals.{IsOutside, number_in, number_put, row_put};
ghost use Rattle.ecat_signals.specs.declared.field.Field.{Field};

/// A number that was put into the bits of a field is read of them as it was; and no bit outside them is
/// another one, whatever was put.
pub fn fields_read_back()
    ensures numbers { (f : Field) (number : ℕ) (bytes after : List ℕ) → number < 2 ^ 32
        → number_put f number bytes ≡ Ok after → number_in f after ≡ Some number }
    ensures others { (f : Field) (number : ℕ) (bytes after : List ℕ) (i : ℕ)
        → number_put f number bytes ≡ Ok after → IsOutside f i → bit after i ≡ bit bytes i }
    ensures rows { (f : Field) (row bytes after : List ℕ) (i : ℕ)
        → row_put f row bytes ≡ Ok after → IsOutside f i → bit after i ≡ bit bytes i }
{}

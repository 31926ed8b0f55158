//! What holds of the builtins beside their table.
ghost use Rattle.std.specs.Prelude.{◌≡◌, ℕ, ℤ, List, Some, IsTrue};
ghost use Rattle.std.specs.Fmt.{signed_decimal};
ghost use Rattle.model_value.specs.Plain.{PlainValue, InBounds};
ghost use Rattle.model_builtin.specs.Builtins.{value, apply, in_64_bits, read_decimal};

use crate::builtin::Pure;

/// A builtin gives values in bounds alone.
pub fn values_are_in_bounds()
    ensures { (f : Pure) (args : List PlainValue) (v : PlainValue) → apply f args ≡ value v → InBounds v }
{}

/// Each number from -2^63 to 2^63 - 1 is read from its decimal spelling, and is read from nothing else.
pub fn numbers_are_read_as_they_are_spelled()
    ensures again { (n : ℤ) → IsTrue (in_64_bits n) → read_decimal (signed_decimal n) ≡ Some n }
    ensures only { (characters : List ℕ) (n : ℤ) → read_decimal characters ≡ Some n → IsTrue (in_64_bits n)
        × (signed_decimal n ≡ characters) }
{}

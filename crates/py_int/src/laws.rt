//! Laws of integers.

ghost use Rattle.std.specs.Prelude.{◌≡◌, ◌↔◌, ℤ, ◌<ℤ◌, IsTrue, Some};
ghost use Rattle.std.specs.Ordering.{int_cmp, partial_lt};
ghost use Rattle.py_text.specs.Laws.{HashAlike};
ghost use Rattle.py_int.specs.Laws.{BytesSpellTheNumber, DigitsAreRuns, DivisionIsOnePair, HaveOneHash, NoInverseIsCommonDivisor, NumbersAreTheirBits, ReprReadsBack, RoundingIsNearest};

use crate::boolean::PyBool;
use crate::number::PyInt;
use std::cmp::Ordering;
use std::hash::Hash;

/// The floor of a quotient and what it leaves are the one pair that divides: `divmod` answers it.
pub fn division_is_one_pair()
    ensures { DivisionIsOnePair }
{}

/// `pow(base, -1, modulus)` has no answer exactly where both have a common divisor past 1.
pub fn no_inverse_is_common_divisor()
    ensures { NoInverseIsCommonDivisor }
{}

/// What `round` cuts to tens, hundreds and so on is the nearest multiple; of two as near it is the
/// one of the even quotient.
pub fn rounding_is_nearest()
    ensures { RoundingIsNearest }
{}

/// The digits of a literal are runs of digits with single underscores between, and are read as the
/// number that they write without these.
pub fn digits_are_runs()
    ensures { DigitsAreRuns }
{}

/// `int(repr(n))` is the integer, and so is `int(repr(n), 0)`.
pub fn repr_reads_back()
    ensures { ReprReadsBack }
{}

/// `from_bytes` of what `to_bytes` gave is the integer, under one byte order and signedness.
pub fn bytes_spell_the_number()
    ensures { BytesSpellTheNumber }
{}

/// Integers that are equal by `==` make the same writes to a hasher.
pub fn equal_numbers_hash_alike()
    ensures { HashAlike ⟦<PyInt as PartialEq>⟧.eq ⟦<PyInt as Hash>⟧.hash_input }
{}

/// Bools that are equal by `==` make the same writes to a hasher.
pub fn equal_bools_hash_alike()
    ensures { HashAlike ⟦<PyBool as PartialEq>⟧.eq ⟦<PyBool as Hash>⟧.hash_input }
{}

/// Python's `hash` is the same of integers that are equal by `==`.
pub fn equal_numbers_have_one_hash()
    ensures { HaveOneHash ⟦<PyInt as PartialEq>⟧.eq }
{}

/// The order of two, which sorts and maps use, is the order of the integers that they hold.
pub fn order_is_the_numbers()
    ensures { (a b : ℤ) → ⟦<PyInt as Ord>⟧.cmp a b ≡ int_cmp a b }
{}

/// And so is the one that `<` and `<=` use.
pub fn comparison_is_the_numbers()
    ensures { (a b : ℤ) → ⟦<PyInt as PartialOrd>⟧.partial_cmp a b ≡ Some (int_cmp a b) }
{}

/// One is less exactly where the integer that it holds is.
pub fn less_is_the_numbers()
    ensures { (a b : ℤ) → IsTrue (partial_lt ⟦<PyInt as PartialOrd>⟧.partial_cmp a b) ↔ (a <ℤ b) }
{}

/// Two are equal exactly where the integers that they hold are.
pub fn equality_is_the_numbers()
    ensures { (a b : ℤ) → IsTrue (⟦<PyInt as PartialEq>⟧.eq a b) ↔ (a ≡ b) }
{}

/// Two integers with the same bits are one: so the bits of what `and`, `or`, `xor` and `invert`
/// answer say which integer it is.
pub fn numbers_are_their_bits()
    ensures { NumbersAreTheirBits }
{}

//! The inverse of an integer under a modulus, by Euclid's division.

ghost use Rattle.std.specs.Prelude.{◌<◌, MatchOption};
ghost use Rattle.py_int.specs.Inverse.{HasNoInverse, IsInverseBelow};

/// The i below the modulus for which `base * i` leaves what 1 leaves, if there is one.
pub(crate) fn inverse_under(base: u128, modulus: u128) -> Option<u128>
    requires { base < modulus }
    ensures { MatchOption result (HasNoInverse modulus base) (IsInverseBelow modulus base) }
{
    let mut before = modulus;
    let mut rest = base;
    let mut old = 0;
    let mut new = 1;
    let mut odd = false;
    while rest > 0 {
        let quotient = before / rest;
        let next_rest = before - quotient * rest;
        let next = old + quotient * new;
        before = rest;
        rest = next_rest;
        old = new;
        new = next;
        odd = !odd;
    }
    if before != 1 {
        return None;
    }
    if odd {
        Some(old % modulus)
    } else {
        Some((modulus - old) % modulus)
    }
}

//! Division that rounds down: `//`, `%` and `divmod` of "Numeric Types" of the Python Library
//! Reference.

ghost use Rattle.std.specs.Prelude.{◌≡◌, ◌≢◌, ◌<◌, ◌≤◌, ◌/◌, ◌%◌, ◌^◌, ℤ, pos, Ok, Err};
ghost use Rattle.std.specs.Prelude.{unsigned_abs};
ghost use Rattle.py_base.specs.declared.error.PyError.TheVariants.{ZeroDivision};
ghost use Rattle.py_base.specs.declared.error.causes.ZeroKind.TheVariants.{Division, Modulo, Both};
ghost use Rattle.py_int.specs.Number.{Carries};
ghost use Rattle.py_int.specs.Divide as spec;
ghost use Rattle.py_int.specs.Divide.{floor_div, floor_mod, divided};

use crate::number::PyInt;
use crate::residue::{magnitude_of, residue_from, rest_by, signed_rest};
use crate::round::give_sign;
use py_base::{PyError, PyResult, ZeroKind};

// The size of a over that of b, rounded down, and what is left: one division.
fn divided_sizes(a: PyInt, b: PyInt) -> (u128, u128)
    requires { b ≢ pos 0 }
    ensures quotient { result.0 ≡ unsigned_abs a / unsigned_abs b }
    ensures rest { result.1 ≡ unsigned_abs a % unsigned_abs b }
    ensures small { result.0 ≤ 2 ^ 127 }
    ensures below { result.1 < unsigned_abs b }
{
    let size = magnitude_of(a);
    let by = magnitude_of(b);
    let quotient = size / by;
    (quotient, size - quotient * by)
}

fn signs_differ(a: PyInt, b: PyInt) -> bool
    ensures { result ≡ spec.signs_differ a b }
{
    (a.as_i128() < 0) != (b.as_i128() < 0)
}

fn rounded_up(quotient: u128, rest: u128) -> u128
    requires { quotient ≤ 2 ^ 127 }
    ensures { result ≡ spec.rounded_up quotient rest }
{
    if rest == 0 { quotient } else { quotient + 1 }
}

// The floor of a / b, from what is left of their sizes. Only -2^127 / -1 is too wide.
fn floor_from(a: PyInt, b: PyInt, quotient: u128, rest: u128) -> PyResult<PyInt>
    requires some { b ≢ pos 0 }
    requires quotient { quotient ≡ unsigned_abs a / unsigned_abs b }
    requires rest { rest ≡ unsigned_abs a % unsigned_abs b }
    requires small { quotient ≤ 2 ^ 127 }
    ensures { Carries (floor_div a b) result }
{
    if signs_differ(a, b) {
        give_sign(rounded_up(quotient, rest), -1)
    } else {
        PyInt::try_from_u128(quotient)
    }
}

// What the floor of a / b leaves, which has the sign of b.
fn remainder(a: PyInt, b: PyInt) -> PyInt
    requires { b ≢ pos 0 }
    ensures { result ≡ floor_mod a b }
{
    signed_rest(rest_by(a, b), b)
}

// The same, from what is left of their sizes.
fn remainder_from(a: PyInt, b: PyInt, rest: u128) -> PyInt
    requires some { b ≢ pos 0 }
    requires rest { rest ≡ unsigned_abs a % unsigned_abs b }
    requires below { rest < unsigned_abs b }
    ensures { result ≡ floor_mod a b }
{
    signed_rest(residue_from(a, rest, b), b)
}

impl PyInt {
    /// `self // other`, or `ZeroDivision`.
    pub fn floordiv(&self, other: PyInt) -> PyResult<PyInt>
        ensures zero { other ≡ pos 0 → result ≡ Err (ZeroDivision Division) }
        ensures value { other ≢ pos 0 → Carries (floor_div self.now other) result }
    {
        if other.as_i128() == 0 {
            return Err(PyError::ZeroDivision(ZeroKind::Division));
        }
        let (quotient, rest) = divided_sizes(*self, other);
        floor_from(*self, other, quotient, rest)
    }

    /// `other // self`.
    pub fn rfloordiv(&self, other: PyInt) -> PyResult<PyInt>
        ensures zero { self.now ≡ pos 0 → result ≡ Err (ZeroDivision Division) }
        ensures value { self.now ≢ pos 0 → Carries (floor_div other self.now) result }
    {
        other.floordiv(*self)
    }

    /// `self % other`, or `ZeroDivision`. It is never too wide.
    pub fn mod_(&self, other: PyInt) -> PyResult<PyInt>
        ensures zero { other ≡ pos 0 → result ≡ Err (ZeroDivision Modulo) }
        ensures value { other ≢ pos 0 → result ≡ Ok (floor_mod self.now other) }
    {
        if other.as_i128() == 0 {
            return Err(PyError::ZeroDivision(ZeroKind::Modulo));
        }
        Ok(remainder(*self, other))
    }

    /// `other % self`.
    pub fn rmod(&self, other: PyInt) -> PyResult<PyInt>
        ensures zero { self.now ≡ pos 0 → result ≡ Err (ZeroDivision Modulo) }
        ensures value { self.now ≢ pos 0 → result ≡ Ok (floor_mod other self.now) }
    {
        other.mod_(*self)
    }

    /// `divmod(self, other)`, or `ZeroDivision`.
    pub fn divmod(&self, other: PyInt) -> PyResult<(PyInt, PyInt)>
        ensures zero { other ≡ pos 0 → result ≡ Err (ZeroDivision Both) }
        ensures value { other ≢ pos 0 → result ≡ divided self.now other }
    {
        if other.as_i128() == 0 {
            return Err(PyError::ZeroDivision(ZeroKind::Both));
        }
        let (quotient, rest) = divided_sizes(*self, other);
        match floor_from(*self, other, quotient, rest) {
            Ok(floor) => Ok((floor, remainder_from(*self, other, rest))),
            Err(error) => Err(error),
        }
    }

    /// `divmod(other, self)`.
    pub fn rdivmod(&self, other: PyInt) -> PyResult<(PyInt, PyInt)>
        ensures zero { self.now ≡ pos 0 → result ≡ Err (ZeroDivision Both) }
        ensures value { self.now ≢ pos 0 → result ≡ divided other self.now }
    {
        other.divmod(*self)
    }
}

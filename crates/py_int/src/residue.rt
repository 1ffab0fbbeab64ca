//! Remainders that are not negative, and remainders with a divisor's sign.

ghost use Rattle.std.specs.Prelude.{◌≡◌, ◌≢◌, ◌<◌, ◌%◌, pos, unsigned_abs};
ghost use Rattle.py_int.specs.Residue.{residue, toward};

use crate::number::PyInt;

pub(crate) fn magnitude_of(z: PyInt) -> u128
    ensures { result ≡ unsigned_abs z }
{
    z.as_i128().unsigned_abs()
}

// What the floor of z / m leaves, from what that of |z| / m leaves.
fn residue_of(z: i128, rest: u128, m: u128) -> u128
    requires some { 0 < m }
    requires rest { rest ≡ unsigned_abs z % m }
    requires below { rest < m }
    ensures value { result ≡ residue z m }
    ensures small { result < m }
{
    if z >= 0 {
        rest
    } else if rest == 0 {
        0
    } else {
        m - rest
    }
}

// The integer that leaves the same residue by b, and is 0 or has the sign of b.
fn sign_toward(rest: u128, b: i128) -> PyInt
    requires { rest < unsigned_abs b }
    ensures { result ≡ toward rest b }
{
    if rest == 0 || b > 0 {
        PyInt::from(rest as i128)
    } else {
        PyInt::from(-1 - (b.unsigned_abs() - rest - 1) as i128)
    }
}

// What the floor of z / |by| leaves, from what that of |z| / |by| leaves.
pub(crate) fn residue_from(z: PyInt, rest: u128, by: PyInt) -> u128
    requires some { by ≢ pos 0 }
    requires rest { rest ≡ unsigned_abs z % unsigned_abs by }
    requires below { rest < unsigned_abs by }
    ensures value { result ≡ residue z (unsigned_abs by) }
    ensures small { result < unsigned_abs by }
{
    residue_of(z.as_i128(), rest, magnitude_of(by))
}

// What the floor of z / |by| leaves.
pub(crate) fn rest_by(z: PyInt, by: PyInt) -> u128
    requires { by ≢ pos 0 }
    ensures value { result ≡ residue z (unsigned_abs by) }
    ensures small { result < unsigned_abs by }
{
    residue_from(z, magnitude_of(z) % magnitude_of(by), by)
}

// The rest by `by`, which is 0 or has its sign.
pub(crate) fn signed_rest(rest: u128, by: PyInt) -> PyInt
    requires { rest < unsigned_abs by }
    ensures { result ≡ toward rest by }
{
    sign_toward(rest, by.as_i128())
}

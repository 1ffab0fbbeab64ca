//! Rounding to tens, hundreds and so on: `round` of "Built-in Functions" of the Python Library
//! Reference.

ghost use Rattle.std.specs.Prelude.{◌≡◌, ◌<◌, ◌≤◌, ◌*◌, ◌^◌, ℤ, pos, neg_ℤ, ◌<ℤ◌, ◌≤ℤ◌, IfSome, IfNone, Ok, Err};
ghost use Rattle.std.specs.Prelude.{unsigned_abs};
ghost use Rattle.py_int.specs.Number.{Carries};
ghost use Rattle.py_int.specs.Round.{IsCut, greatest_power, nearest, with_sign_of};

use crate::number::PyInt;
use py_base::{PyError, PyResult};

// The greatest power of ten below 2^127.
const GREATEST_POWER: u128 = 38;

// The multiple of `unit` nearest to `size`, ties to the even quotient.
fn nearest_multiple(size: u128, unit: u128) -> u128
    requires size { size ≤ 2 ^ 127 }
    requires some { 0 < unit }
    requires unit { unit < 2 ^ 127 }
    ensures { result ≡ unit * nearest size unit }
{
    let quotient = size / unit;
    let twice = 2 * (size % unit);
    if twice > unit || (twice == unit && quotient % 2 == 1) {
        unit * quotient + unit
    } else {
        unit * quotient
    }
}

// 10^digits, which is below 2^127.
fn power_of_ten(digits: u32) -> u128
    requires { digits ≤ greatest_power }
    ensures value { result ≡ 10 ^ digits }
    ensures some { 0 < result }
    ensures small { result < 2 ^ 127 }
{
    10u128.pow(digits)
}

// `size` with the sign of `value`.
pub(crate) fn give_sign(size: u128, value: i128) -> PyResult<PyInt>
    ensures { Carries (with_sign_of value size) result }
{
    if value >= 0 {
        PyInt::try_from_u128(size)
    } else if size == 0 {
        Ok(PyInt::from(0i128))
    } else if size > 1 << 127 {
        Err(PyError::IntTooWide)
    } else {
        Ok(PyInt::from(-1 - (size - 1) as i128))
    }
}

impl PyInt {
    /// `round(self, ndigits)`: where `ndigits` is negative, the nearest multiple of that power of
    /// ten, ties to the even quotient; else the integer itself.
    pub fn round(&self, ndigits: Option<PyInt>) -> PyResult<PyInt>
        ensures none { IfNone ndigits (result ≡ Ok self.now) }
        ensures kept { IfSome ndigits (λ d. pos 0 ≤ℤ d → result ≡ Ok self.now) }
        ensures cut { IfSome ndigits (λ d. IsCut self.now d result) }
    {
        match ndigits {
            None => Ok(*self),
            Some(ndigits) => self.round_to(ndigits),
        }
    }

    fn round_to(&self, ndigits: PyInt) -> PyResult<PyInt>
        ensures kept { pos 0 ≤ℤ ndigits → result ≡ Ok self.now }
        ensures cut { IsCut self.now ndigits result }
    {
        let count = ndigits.as_i128();
        if count >= 0 {
            return Ok(*self);
        }
        let value = self.as_i128();
        let digits = count.unsigned_abs();
        if digits > GREATEST_POWER {
            return Ok(PyInt::from(0i128));
        }
        let unit = power_of_ten(digits as u32);
        give_sign(nearest_multiple(value.unsigned_abs(), unit), value)
    }
}

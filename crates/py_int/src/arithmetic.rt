//! Sums, differences, products and signs: "Numeric Types" of the Python Library Reference.

ghost use Rattle.std.specs.Prelude.{◌≡◌, ℤ, pos, ◌+ℤ◌, ◌-ℤ◌, ◌*ℤ◌, neg_ℤ};
ghost use Rattle.std.specs.Prelude.{unsigned_abs};
ghost use Rattle.py_int.specs.Number.{Carries, Gives};

use crate::number::PyInt;
use py_base::{PyError, PyResult};

// The integer of a checked operation.
pub(crate) fn carry(value: Option<i128>) -> PyResult<PyInt>
    ensures { Gives value result }
{
    match value {
        Some(value) => Ok(PyInt::from(value)),
        None => Err(PyError::IntTooWide),
    }
}

impl PyInt {
    /// `self + other`.
    pub fn add(&self, other: PyInt) -> PyResult<PyInt>
        ensures { Carries (self.now +ℤ other) result }
    {
        carry(self.as_i128().checked_add(other.as_i128()))
    }

    /// `self - other`.
    pub fn sub(&self, other: PyInt) -> PyResult<PyInt>
        ensures { Carries (self.now -ℤ other) result }
    {
        carry(self.as_i128().checked_sub(other.as_i128()))
    }

    /// `other - self`.
    pub fn rsub(&self, other: PyInt) -> PyResult<PyInt>
        ensures { Carries (other -ℤ self.now) result }
    {
        other.sub(*self)
    }

    /// `self * other`.
    pub fn mul(&self, other: PyInt) -> PyResult<PyInt>
        ensures { Carries (self.now *ℤ other) result }
    {
        carry(self.as_i128().checked_mul(other.as_i128()))
    }

    /// `-self`.
    pub fn neg(&self) -> PyResult<PyInt>
        ensures { Carries (neg_ℤ self.now) result }
    {
        carry(self.as_i128().checked_neg())
    }

    /// `abs(self)`.
    pub fn abs(&self) -> PyResult<PyInt>
        ensures { Carries (pos (unsigned_abs self.now)) result }
    {
        carry(self.as_i128().checked_abs())
    }
}

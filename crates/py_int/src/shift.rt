//! Shifts: "Bitwise Operations on Integer Types" of the Python Library Reference.

ghost use Rattle.std.specs.Prelude.{◌≡◌, ◌<◌, ◌≤◌, ◌^◌, ℤ, pos, ◌<ℤ◌, ◌≤ℤ◌, Ok, Err};
ghost use Rattle.std.specs.Prelude.{unsigned_abs};
ghost use Rattle.py_base.specs.declared.error.PyError.TheVariants.{NegativeShift};
ghost use Rattle.py_int.specs.Number.{value_bits};
ghost use Rattle.py_int.specs.Shift.{IsShiftedLeft, IsShiftedRight, shifted_right};

use crate::number::{PyInt, VALUE_BITS};
use py_base::{PyError, PyResult};

fn power_of_two(exponent: u32) -> PyInt
    requires { exponent < value_bits }
    ensures { result ≡ pos (2 ^ exponent) }
{
    PyInt::from(1i128 << exponent)
}

// `value >> count`.
pub(crate) fn down(value: i128, count: u32) -> PyInt
    requires { count ≤ value_bits }
    ensures { result ≡ shifted_right value count }
{
    PyInt::from(value >> count)
}

impl PyInt {
    /// `self << bits`, or `NegativeShift`. 0 may be shifted by any count.
    pub fn lshift(&self, bits: PyInt) -> PyResult<PyInt>
        ensures negative { bits <ℤ pos 0 → result ≡ Err NegativeShift }
        ensures value { IsShiftedLeft self.now bits result }
    {
        let value = self.as_i128();
        let count = bits.as_i128();
        if count < 0 {
            Err(PyError::NegativeShift)
        } else if value == 0 {
            Ok(*self)
        } else if count > VALUE_BITS {
            Err(PyError::IntTooWide)
        } else if count < VALUE_BITS {
            self.mul(power_of_two(count as u32))
        } else if value == -1 {
            Ok(PyInt::from(i128::MIN))
        } else {
            Err(PyError::IntTooWide)
        }
    }

    /// `base << self`.
    pub fn rlshift(&self, base: PyInt) -> PyResult<PyInt>
        ensures negative { self.now <ℤ pos 0 → result ≡ Err NegativeShift }
        ensures value { IsShiftedLeft base self.now result }
    {
        base.lshift(*self)
    }

    /// `self >> bits`, or `NegativeShift`. Any count is good: a large one leaves 0, or -1 of a
    /// negative integer.
    pub fn rshift(&self, bits: PyInt) -> PyResult<PyInt>
        ensures negative { bits <ℤ pos 0 → result ≡ Err NegativeShift }
        ensures value { IsShiftedRight self.now bits result }
    {
        let count = bits.as_i128();
        if count < 0 {
            Err(PyError::NegativeShift)
        } else if count > VALUE_BITS {
            Ok(down(self.as_i128(), VALUE_BITS as u32))
        } else {
            Ok(down(self.as_i128(), count as u32))
        }
    }

    /// `base >> self`.
    pub fn rrshift(&self, base: PyInt) -> PyResult<PyInt>
        ensures negative { self.now <ℤ pos 0 → result ≡ Err NegativeShift }
        ensures value { IsShiftedRight base self.now result }
    {
        base.rshift(*self)
    }
}

//! An integer within 128 bits, and what it prints as.

ghost use Rattle.std.specs.Prelude.{◌≡◌, pos, IfOk, IsOkUnless};
ghost use Rattle.std.specs.Fmt.{signed_decimal};
ghost use Rattle.py_base.specs.declared.error.PyError.TheVariants.{NoMemory};
ghost use Rattle.py_int.specs.Number.{Carries};

use itoa::Buffer;
use py_base::{PyError, PyResult};
use py_text::PyStr;
use std::alloc::Global;
use std::fmt;
use std::marker::Model;

/// How many binary digits an integer has beside its sign.
pub(crate) const VALUE_BITS: i128 = 127;

/// An integer from -2^127 to 2^127 - 1, Python's `int`. It prints in decimal, and its equality,
/// order and hash are those of the integer.
#[derive(Clone, Copy, Debug, PartialEq, Eq, PartialOrd, Ord, Hash)]
pub struct PyInt {
    value: i128,
}

/// An integer is copied, so its reference is the integer.
pub type PyIntRef = PyInt;

impl Model for PyInt {
    ghost use Rattle.std.specs.Prelude.{ℤ};

    ghost Value = { ℤ };

    ghost view = { λ number. number.value };

    ghost inverse = { λ z. record { value = z } };
}

impl fmt::Display for PyInt {
    ghost use Rattle.std.specs.Prelude.{Some};
    ghost use Rattle.std.specs.Fmt.{signed_decimal};

    ghost output = { λ number. Some (signed_decimal number) };

    fn fmt<W: fmt::Write>(&self, f: &mut fmt::Formatter<W>) -> fmt::Result {
        let value = self.value;
        write!(f, "{value}")
    }
}

impl From<i128> for PyInt {
    ghost from_gives = { λ value number. number ≡ value };

    fn from(value: i128) -> PyInt {
        PyInt { value }
    }
}

impl PyInt {
    /// The integer in Rust's widest signed type.
    pub fn as_i128(&self) -> i128
        ensures { result ≡ self.now }
    {
        self.value
    }

    /// The integer of a `u128`, or `IntTooWide` from 2^127 on.
    pub fn try_from_u128(n: u128) -> PyResult<PyInt>
        ensures { Carries (pos n) result }
    {
        match i128::try_from(n) {
            Ok(value) => Ok(PyInt { value }),
            Err(_) => Err(PyError::IntTooWide),
        }
    }

    /// `repr(self)`: decimal digits, after a `-` where the integer is negative.
    pub fn repr(&self, alloc: Global) -> PyResult<PyStr>
        ensures ok { IfOk result (λ text. text ≡ signed_decimal self.now) }
        ensures err { IsOkUnless result NoMemory }
    {
        let value = self.as_i128();
        let mut buffer = Buffer::new();
        PyStr::copy_of(alloc, buffer.format(value))
    }
}

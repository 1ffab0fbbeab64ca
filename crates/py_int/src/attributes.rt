//! The attributes of an integer, the conversions that answer the integer itself, its bool and its
//! hash: "Numeric Types" and "Truth Value Testing" of the Python Library Reference.

ghost use Rattle.std.specs.Prelude.{◌≡◌, ◌≢◌, ◌↔◌, ℤ, pos, IsTrue};
ghost use Rattle.py_base.specs.Hash.{int_hash};

use crate::number::PyInt;
use py_base::py_hash_int;

impl PyInt {
    /// `+self`.
    pub fn pos(&self) -> PyInt
        ensures { result ≡ self.now }
    {
        *self
    }

    /// `int(self)`.
    pub fn int(&self) -> PyInt
        ensures { result ≡ self.now }
    {
        *self
    }

    /// `math.trunc(self)`.
    pub fn trunc(&self) -> PyInt
        ensures { result ≡ self.now }
    {
        *self
    }

    /// `math.floor(self)`.
    pub fn floor(&self) -> PyInt
        ensures { result ≡ self.now }
    {
        *self
    }

    /// `math.ceil(self)`.
    pub fn ceil(&self) -> PyInt
        ensures { result ≡ self.now }
    {
        *self
    }

    /// `operator.index(self)`.
    pub fn index(&self) -> PyInt
        ensures { result ≡ self.now }
    {
        *self
    }

    /// `self.conjugate()`.
    pub fn conjugate(&self) -> PyInt
        ensures { result ≡ self.now }
    {
        *self
    }

    /// `self.real`.
    pub fn real(&self) -> PyInt
        ensures { result ≡ self.now }
    {
        *self
    }

    /// `self.numerator`.
    pub fn numerator(&self) -> PyInt
        ensures { result ≡ self.now }
    {
        *self
    }

    /// The argument from which `int` makes the integer again.
    pub fn getnewargs(&self) -> PyInt
        ensures { result ≡ self.now }
    {
        *self
    }

    /// `self.imag`.
    pub fn imag(&self) -> usize
        ensures { result ≡ 0 }
    {
        0
    }

    /// `self.denominator`.
    pub fn denominator(&self) -> usize
        ensures { result ≡ 1 }
    {
        1
    }

    /// `self.as_integer_ratio()`.
    pub fn as_integer_ratio(&self) -> (PyInt, i32)
        ensures { result ≡ (self.now, pos 1) }
    {
        (*self, 1)
    }

    /// `bool(self)`.
    pub fn bool(&self) -> bool
        ensures { IsTrue result ↔ (self.now ≢ pos 0) }
    {
        self.as_i128() != 0
    }

    /// `hash(self)`.
    pub fn hash(&self) -> i64
        ensures { result ≡ int_hash self.now }
    {
        py_hash_int(self.as_i128())
    }
}

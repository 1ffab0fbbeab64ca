//! Bools: "Boolean Type - bool" of the Python Library Reference.

ghost use Rattle.std.specs.Prelude.{◌≡◌, Bool, ◌&&◌, ◌||◌};
ghost use Rattle.std.proofs.Math.Bool.{xor};
ghost use Rattle.py_int.specs.Boolean.{int_of_bool, repr_of_bool};

use crate::number::PyInt;
use std::marker::Model;

/// Python's `bool`.
#[derive(Clone, Copy, Debug, PartialEq, Eq, PartialOrd, Ord, Hash)]
pub struct PyBool {
    value: bool,
}

impl Model for PyBool {
    ghost use Rattle.std.specs.Prelude.{Bool};

    ghost Value = { Bool };

    ghost view = { λ truth. truth.value };

    ghost inverse = { λ b. record { value = b } };
}

impl PyBool {
    /// The bool of Rust's.
    pub fn new(value: bool) -> PyBool
        ensures { result ≡ value }
    {
        PyBool { value }
    }

    /// The bool as Rust's.
    pub fn value(&self) -> bool
        ensures { result ≡ self.now }
    {
        self.value
    }

    /// 1 or 0.
    pub fn as_int(&self) -> PyInt
        ensures { result ≡ int_of_bool self.now }
    {
        PyInt::from(i128::from(self.value))
    }

    /// `self & other`.
    pub fn and(&self, other: PyBool) -> PyBool
        ensures { result ≡ (self.now && other) }
    {
        PyBool::new(self.value && other.value)
    }

    /// `self | other`.
    pub fn or(&self, other: PyBool) -> PyBool
        ensures { result ≡ (self.now || other) }
    {
        PyBool::new(self.value || other.value)
    }

    /// `self ^ other`.
    pub fn xor(&self, other: PyBool) -> PyBool
        ensures { result ≡ xor self.now other }
    {
        PyBool::new(self.value != other.value)
    }

    /// `True` or `False`.
    pub fn repr(&self) -> &'static str
        ensures { result.now ≡ repr_of_bool self.now }
    {
        if self.value { "True" } else { "False" }
    }
}

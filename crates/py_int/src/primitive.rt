//! Rust's integer types, and integers as values of them.

ghost use Rattle.std.specs.Prelude.{◌≡◌, ℤ, pos, ◌≤ℤ◌, ◌↔◌, ◌-◌, ◌^◌, negsuc, IsOk, IfOk, IfErr};
ghost use Rattle.py_base.specs.declared.error.PyError.TheVariants.{IntTooLargeFor};
ghost use Rattle.py_base.specs.declared.error.type_names.PrimitiveName.{PrimitiveName};
ghost use Rattle.py_base.specs.declared.error.type_names.PrimitiveName.TheVariants.{I8, I16, I32, I64, I128, U8, U16, U32, U64, U128, Isize, Usize};

use crate::number::PyInt;
use py_base::{PrimitiveName, PyError, PyResult};

/// An integer type of Rust.
pub trait Primitive: Sized {
    ghost number: { Self → ℤ };

    ghost least: { ℤ };

    ghost greatest: { ℤ };

    ghost type_name: { PrimitiveName };

    /// The same integer in this type, or `IntTooLargeFor` with its name.
    fn from_int(value: PyInt) -> PyResult<Self>
        ensures same { IfOk result (λ x. number x ≡ value) }
        ensures fits { IsOk result ↔ ((least ≤ℤ value) × (value ≤ℤ greatest)) }
        ensures err { IfErr result (λ e. e ≡ IntTooLargeFor type_name) };
}

impl Primitive for i8 {
    ghost number = { λ x. x };

    ghost least = { negsuc (2 ^ 7 - 1) };

    ghost greatest = { pos (2 ^ 7 - 1) };

    ghost type_name = { I8 };

    fn from_int(value: PyInt) -> PyResult<i8> {
        match i8::try_from(value.as_i128()) {
            Ok(number) => Ok(number),
            Err(_) => Err(PyError::IntTooLargeFor(PrimitiveName::I8)),
        }
    }
}

impl Primitive for i16 {
    ghost number = { λ x. x };

    ghost least = { negsuc (2 ^ 15 - 1) };

    ghost greatest = { pos (2 ^ 15 - 1) };

    ghost type_name = { I16 };

    fn from_int(value: PyInt) -> PyResult<i16> {
        match i16::try_from(value.as_i128()) {
            Ok(number) => Ok(number),
            Err(_) => Err(PyError::IntTooLargeFor(PrimitiveName::I16)),
        }
    }
}

impl Primitive for i32 {
    ghost number = { λ x. x };

    ghost least = { negsuc (2 ^ 31 - 1) };

    ghost greatest = { pos (2 ^ 31 - 1) };

    ghost type_name = { I32 };

    fn from_int(value: PyInt) -> PyResult<i32> {
        match i32::try_from(value.as_i128()) {
            Ok(number) => Ok(number),
            Err(_) => Err(PyError::IntTooLargeFor(PrimitiveName::I32)),
        }
    }
}

impl Primitive for i64 {
    ghost number = { λ x. x };

    ghost least = { negsuc (2 ^ 63 - 1) };

    ghost greatest = { pos (2 ^ 63 - 1) };

    ghost type_name = { I64 };

    fn from_int(value: PyInt) -> PyResult<i64> {
        match i64::try_from(value.as_i128()) {
            Ok(number) => Ok(number),
            Err(_) => Err(PyError::IntTooLargeFor(PrimitiveName::I64)),
        }
    }
}

impl Primitive for isize {
    ghost number = { λ x. x };

    ghost least = { negsuc (2 ^ 63 - 1) };

    ghost greatest = { pos (2 ^ 63 - 1) };

    ghost type_name = { Isize };

    fn from_int(value: PyInt) -> PyResult<isize> {
        match isize::try_from(value.as_i128()) {
            Ok(number) => Ok(number),
            Err(_) => Err(PyError::IntTooLargeFor(PrimitiveName::Isize)),
        }
    }
}

impl Primitive for i128 {
    ghost number = { λ x. x };

    ghost least = { negsuc (2 ^ 127 - 1) };

    ghost greatest = { pos (2 ^ 127 - 1) };

    ghost type_name = { I128 };

    fn from_int(value: PyInt) -> PyResult<i128> {
        Ok(value.as_i128())
    }
}

impl Primitive for u8 {
    ghost number = { λ x. pos x };

    ghost least = { pos 0 };

    ghost greatest = { pos (2 ^ 8 - 1) };

    ghost type_name = { U8 };

    fn from_int(value: PyInt) -> PyResult<u8> {
        match u8::try_from(value.as_i128()) {
            Ok(number) => Ok(number),
            Err(_) => Err(PyError::IntTooLargeFor(PrimitiveName::U8)),
        }
    }
}

impl Primitive for u16 {
    ghost number = { λ x. pos x };

    ghost least = { pos 0 };

    ghost greatest = { pos (2 ^ 16 - 1) };

    ghost type_name = { U16 };

    fn from_int(value: PyInt) -> PyResult<u16> {
        match u16::try_from(value.as_i128()) {
            Ok(number) => Ok(number),
            Err(_) => Err(PyError::IntTooLargeFor(PrimitiveName::U16)),
        }
    }
}

impl Primitive for u32 {
    ghost number = { λ x. pos x };

    ghost least = { pos 0 };

    ghost greatest = { pos (2 ^ 32 - 1) };

    ghost type_name = { U32 };

    fn from_int(value: PyInt) -> PyResult<u32> {
        match u32::try_from(value.as_i128()) {
            Ok(number) => Ok(number),
            Err(_) => Err(PyError::IntTooLargeFor(PrimitiveName::U32)),
        }
    }
}

impl Primitive for u64 {
    ghost number = { λ x. pos x };

    ghost least = { pos 0 };

    ghost greatest = { pos (2 ^ 64 - 1) };

    ghost type_name = { U64 };

    fn from_int(value: PyInt) -> PyResult<u64> {
        match u64::try_from(value.as_i128()) {
            Ok(number) => Ok(number),
            Err(_) => Err(PyError::IntTooLargeFor(PrimitiveName::U64)),
        }
    }
}

impl Primitive for usize {
    ghost number = { λ x. pos x };

    ghost least = { pos 0 };

    ghost greatest = { pos (2 ^ 64 - 1) };

    ghost type_name = { Usize };

    fn from_int(value: PyInt) -> PyResult<usize> {
        match usize::try_from(value.as_i128()) {
            Ok(number) => Ok(number),
            Err(_) => Err(PyError::IntTooLargeFor(PrimitiveName::Usize)),
        }
    }
}

impl Primitive for u128 {
    ghost number = { λ x. pos x };

    ghost least = { pos 0 };

    ghost greatest = { pos (2 ^ 128 - 1) };

    ghost type_name = { U128 };

    fn from_int(value: PyInt) -> PyResult<u128> {
        match u128::try_from(value.as_i128()) {
            Ok(number) => Ok(number),
            Err(_) => Err(PyError::IntTooLargeFor(PrimitiveName::U128)),
        }
    }
}

impl PyInt {
    /// The same integer in an integer type of Rust, or `IntTooLargeFor` with the type's name.
    pub fn try_to_primitive<I: Primitive>(&self) -> PyResult<I>
        ensures same { IfOk result (λ x. I.number x ≡ self.now) }
        ensures fits { IsOk result ↔ ((I.least ≤ℤ self.now) × (self.now ≤ℤ I.greatest)) }
        ensures err { IfErr result (λ e. e ≡ IntTooLargeFor I.type_name) }
    {
        I::from_int(*self)
    }
}

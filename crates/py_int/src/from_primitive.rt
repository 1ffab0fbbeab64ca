//! Integers from Rust's integer types up to 64 bits.

ghost use Rattle.std.specs.Prelude.{◌≡◌, pos};

use crate::number::PyInt;

impl From<i8> for PyInt {
    ghost from_gives = { λ value number. number ≡ value };

    fn from(value: i8) -> PyInt {
        PyInt::from(value as i128)
    }
}

impl From<i16> for PyInt {
    ghost from_gives = { λ value number. number ≡ value };

    fn from(value: i16) -> PyInt {
        PyInt::from(value as i128)
    }
}

impl From<i32> for PyInt {
    ghost from_gives = { λ value number. number ≡ value };

    fn from(value: i32) -> PyInt {
        PyInt::from(value as i128)
    }
}

impl From<i64> for PyInt {
    ghost from_gives = { λ value number. number ≡ value };

    fn from(value: i64) -> PyInt {
        PyInt::from(value as i128)
    }
}

impl From<isize> for PyInt {
    ghost from_gives = { λ value number. number ≡ value };

    fn from(value: isize) -> PyInt {
        PyInt::from(value as i128)
    }
}

impl From<u8> for PyInt {
    ghost from_gives = { λ value number. number ≡ pos value };

    fn from(value: u8) -> PyInt {
        PyInt::from(value as i128)
    }
}

impl From<u16> for PyInt {
    ghost from_gives = { λ value number. number ≡ pos value };

    fn from(value: u16) -> PyInt {
        PyInt::from(value as i128)
    }
}

impl From<u32> for PyInt {
    ghost from_gives = { λ value number. number ≡ pos value };

    fn from(value: u32) -> PyInt {
        PyInt::from(value as i128)
    }
}

impl From<u64> for PyInt {
    ghost from_gives = { λ value number. number ≡ pos value };

    fn from(value: u64) -> PyInt {
        PyInt::from(value as i128)
    }
}

impl From<usize> for PyInt {
    ghost from_gives = { λ value number. number ≡ pos value };

    fn from(value: usize) -> PyInt {
        PyInt::from(value as i128)
    }
}

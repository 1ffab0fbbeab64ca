//! What all tables of integers are written with.

use py_base::{PyError, PyResult};
use py_int::PyInt;

pub(crate) const LEAST: i128 = i128::MIN;

pub(crate) const GREATEST: i128 = i128::MAX;

pub(crate) fn int(value: i128) -> PyInt {
    PyInt::from(value)
}

// The integer, or the error of one that is too wide.
pub(crate) fn wanted(value: Option<i128>) -> PyResult<PyInt> {
    match value {
        Some(value) => Ok(int(value)),
        None => Err(PyError::IntTooWide),
    }
}

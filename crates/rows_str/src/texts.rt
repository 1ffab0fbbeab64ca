//! Texts that the tests are handed.

use py_base::PyResult;
use py_text::PyStr;
use std::alloc::Global;

/// A copy of the text, where one is given.
pub fn copied(alloc: Global, text: Option<&str>) -> PyResult<Option<PyStr>> {
    match text {
        Some(text) => Ok(Some(PyStr::copy_of(alloc, text)?)),
        None => Ok(None),
    }
}

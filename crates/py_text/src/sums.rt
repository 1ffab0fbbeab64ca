//! Texts added and repeated.

ghost use Rattle.std.specs.Prelude.{◌≡◌, ◌+◌, [], ◌++◌, chars, length, IsOk, IfOk, IsOkUnless};
ghost use Rattle.py_text.specs.Sums.{times, copies};

use crate::points::count_points;
use crate::text::PyStr;
use py_base::{PyError, PyResult};
use std::alloc::Global;

impl PyStr {
    /// This text and then the other. (Python Library Reference, Common Sequence Operations.)
    pub fn add(&self, alloc: Global, other: &PyStr) -> PyResult<PyStr>
        ensures ok { IfOk result (λ made. made ≡ self.now ++ other.now) }
        ensures length { IfOk result (λ made. length made ≡ length self.now + length other.now) }
        ensures err { IsOkUnless result PyError.NoMemory }
    {
        self.add_counted(alloc, other.as_str(), other.len())
    }

    /// This text and then another.
    pub(crate) fn add_str(&self, alloc: Global, other: &str) -> PyResult<PyStr>
        ensures ok { IfOk result (λ made. made ≡ self.now ++ chars other.now) }
        ensures err { IsOkUnless result PyError.NoMemory }
    {
        self.add_counted(alloc, other, count_points(other))
    }

    // This text and then another of `count` code points.
    fn add_counted(&self, alloc: Global, other: &str, count: usize) -> PyResult<PyStr>
        requires { count ≡ length (chars other.now) }
        ensures ok { IfOk result (λ made. made ≡ self.now ++ chars other.now) }
        ensures err { IsOkUnless result PyError.NoMemory }
    {
        let Some(bytes) = self.byte_len().checked_add(other.len()) else {
            return Err(PyError::NoMemory);
        };
        let mut text = String::with_capacity(alloc, bytes)?;
        text.push_str(self.as_str())?;
        text.push_str(other)?;
        Ok(PyStr::with_count(text, self.len() + count))
    }

    /// The text, so many times; a number below 1 gives the empty text. (Python Library Reference,
    /// Common Sequence Operations.)
    pub fn mul(&self, alloc: Global, value: isize) -> PyResult<PyStr>
        ensures ok { IfOk result (λ made. made ≡ times value self.now) }
        ensures free { times value self.now ≡ [] → IsOk result }
        ensures err { IsOkUnless result PyError.NoMemory }
    {
        if value <= 0 || self.is_empty() {
            return Ok(PyStr::from(String::new(alloc)));
        }
        self.copied(alloc, value as usize)
    }

    // The text, so many times.
    fn copied(&self, alloc: Global, count: usize) -> PyResult<PyStr>
        ensures ok { IfOk result (λ made. made ≡ copies count self.now) }
        ensures err { IsOkUnless result PyError.NoMemory }
    {
        let Some(bytes) = self.byte_len().checked_mul(count) else {
            return Err(PyError::NoMemory);
        };
        let mut text = String::with_capacity(alloc, bytes)?;
        let mut points = 0;
        for _n in 0..count {
            text.push_str(self.as_str())?;
            points += self.len();
        }
        Ok(PyStr::with_count(text, points))
    }
}

//! Items and slices of a text.

ghost use Rattle.std.specs.Prelude.{◌≡◌, ◌≤◌, ◌<◌, length, reverse, slice_get, slice_range, Some, IfOk, IsOkUnless};
ghost use Rattle.py_text.specs.Strides.{every};

use crate::points::char_at;
use crate::strides::{every_byte, every_byte_back, every_char, every_char_back};
use crate::text::PyStr;
use py_base::{PyError, PyResult};
use std::alloc::Global;
use std::ops::Range;

impl PyStr {
    /// The code point at a place. On an ASCII text no other is looked at.
    pub fn do_get(&self, index: usize) -> char
        requires { index < length self.now }
        ensures { slice_get self.now index ≡ Some result }
    {
        if self.is_ascii() {
            char::from(self.as_str().as_bytes()[index])
        } else {
            char_at(self.as_str(), self.len(), index)
        }
    }

    /// A copy of the code points of the range.
    pub fn do_slice(&self, alloc: Global, range: Range<usize>) -> PyResult<PyStr>
        requires order { range.start ≤ range.end }
        requires inside { range.end ≤ length self.now }
        ensures ok { IfOk result (λ made. made ≡ slice_range self.now range.start range.end) }
        ensures err { IsOkUnless result PyError.NoMemory }
    {
        let count = range.end - range.start;
        PyStr::copy_counted(alloc, self.get_chars(range), count)
    }

    /// The code points of the range, the last one first.
    pub fn do_slice_reverse(&self, alloc: Global, range: Range<usize>) -> PyResult<PyStr>
        requires order { range.start ≤ range.end }
        requires inside { range.end ≤ length self.now }
        ensures ok { IfOk result (λ made.
            made ≡ reverse (slice_range self.now range.start range.end)) }
        ensures err { IsOkUnless result PyError.NoMemory }
    {
        self.do_stepped_slice_reverse(alloc, range, 1)
    }

    /// The first code point of the range, and each that is a multiple of `step` after it.
    pub fn do_stepped_slice(
        &self,
        alloc: Global,
        range: Range<usize>,
        step: usize,
    ) -> PyResult<PyStr>
        requires order { range.start ≤ range.end }
        requires inside { range.end ≤ length self.now }
        requires forward { 1 ≤ step }
        ensures ok { IfOk result (λ made.
            made ≡ every step (slice_range self.now range.start range.end)) }
        ensures err { IsOkUnless result PyError.NoMemory }
    {
        if step == 1 {
            return self.do_slice(alloc, range);
        }
        let part = self.get_chars(range);
        if self.is_ascii() {
            every_byte(alloc, part.as_bytes(), step)
        } else {
            every_char(alloc, part, step)
        }
    }

    /// The last code point of the range, and each that is a multiple of `step` before it.
    pub fn do_stepped_slice_reverse(
        &self,
        alloc: Global,
        range: Range<usize>,
        step: usize,
    ) -> PyResult<PyStr>
        requires order { range.start ≤ range.end }
        requires inside { range.end ≤ length self.now }
        requires forward { 1 ≤ step }
        ensures ok { IfOk result (λ made.
            made ≡ every step (reverse (slice_range self.now range.start range.end))) }
        ensures err { IsOkUnless result PyError.NoMemory }
    {
        let part = self.get_chars(range);
        if self.is_ascii() {
            every_byte_back(alloc, part.as_bytes(), step)
        } else {
            every_char_back(alloc, part, step)
        }
    }
}

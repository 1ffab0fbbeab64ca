//! A text under the brackets of Python: `text[index]` and `text[start:stop:step]`.

ghost use Rattle.std.specs.Prelude.{◌≡◌, ◌≢◌, ◌≤◌, ◌⊎◌, ◌-◌, ◌^◌, min, ◌+ℤ◌, neg_ℤ, pos, negsuc, Some, unwrap_or, Err, IfOk, IfErr, IsOkUnless, ok_or};
ghost use Rattle.py_text.specs.Subscript.{item_of, end_of, slice_of};

use crate::text::PyStr;
use py_base::{PyError, PyResult};
use std::alloc::Global;

impl PyStr {
    /// What `text[index]` is in Python: the index counts code points, a negative one from the end.
    /// (Python Library Reference, Common Sequence Operations.)
    ///
    /// # Errors
    ///
    /// `IndexOutOfRange` where there is none.
    pub fn getitem_by_index(&self, index: i128) -> PyResult<char>
        ensures { result ≡ ok_or (item_of self.now index) PyError.IndexOutOfRange }
    {
        let len = self.len() as i128;
        let place = if index < 0 { index + len } else { index };
        if 0 <= place && place < len {
            Ok(self.do_get(place as usize))
        } else {
            Err(PyError::IndexOutOfRange)
        }
    }

    /// What `text[start:stop:step]` is in Python, by "Common sequence operations" of the Python
    /// Library Reference.
    ///
    /// # Errors
    ///
    /// `StepZero` where the step is 0.
    pub fn getitem_by_slice(
        &self,
        alloc: Global,
        start: Option<i128>,
        stop: Option<i128>,
        step: Option<i128>,
    ) -> PyResult<PyStr>
        ensures zero { step ≡ Some (pos 0) → result ≡ Err PyError.StepZero }
        ensures ok { IfOk result (λ made.
            made ≡ slice_of self.now start stop (unwrap_or step (pos 1))) }
        ensures err { IfErr result (λ e.
            (e ≡ PyError.NoMemory) ⊎ ((e ≡ PyError.StepZero) × (step ≡ Some (pos 0)))) }
    {
        match step {
            Some(0) => Err(PyError::StepZero),
            Some(step) => self.taken(alloc, start, stop, step),
            None => self.taken(alloc, start, stop, 1),
        }
    }

    fn taken(
        &self,
        alloc: Global,
        start: Option<i128>,
        stop: Option<i128>,
        step: i128,
    ) -> PyResult<PyStr>
        requires { step ≢ pos 0 }
        ensures ok { IfOk result (λ made. made ≡ slice_of self.now start stop step) }
        ensures err { IsOkUnless result PyError.NoMemory }
    {
        if step > 0 {
            self.taken_forward(alloc, start, stop, step.unsigned_abs())
        } else {
            self.taken_back(alloc, start, stop, step.unsigned_abs())
        }
    }

    fn taken_forward(
        &self,
        alloc: Global,
        start: Option<i128>,
        stop: Option<i128>,
        step: u128,
    ) -> PyResult<PyStr>
        requires { 1 ≤ step }
        ensures ok { IfOk result (λ made. made ≡ slice_of self.now start stop (pos step)) }
        ensures err { IsOkUnless result PyError.NoMemory }
    {
        let from = forward_end(start, self.len(), 0);
        let to = forward_end(stop, self.len(), self.len());
        self.do_stepped_slice(alloc, from.min(to)..to, stride(step))
    }

    fn taken_back(
        &self,
        alloc: Global,
        start: Option<i128>,
        stop: Option<i128>,
        step: u128,
    ) -> PyResult<PyStr>
        requires { 1 ≤ step }
        ensures ok { IfOk result (λ made. made ≡ slice_of self.now start stop (neg_ℤ (pos step))) }
        ensures err { IsOkUnless result PyError.NoMemory }
    {
        let from = back_end(start, self.len(), self.len());
        let to = back_end(stop, self.len(), 0);
        self.do_stepped_slice_reverse(alloc, to.min(from)..from, stride(step))
    }
}

/// A step: one past every text takes the same as the longest one.
fn stride(step: u128) -> usize
    ensures { result ≡ min step (2 ^ 64 - 1) }
{
    step.min(u64::MAX as u128) as usize
}

/// An end of a slice with a step above 0.
fn forward_end(given: Option<i128>, len: usize, absent: usize) -> usize
    requires { absent ≤ len }
    ensures place { pos result ≡ end_of len (pos 0) (pos len) (pos absent) given }
    ensures inside { result ≤ len }
{
    let Some(place) = given else { return absent };
    let size = place.unsigned_abs().min(len as u128) as usize;
    if place < 0 { len - size } else { size }
}

/// One past an end of a slice with a step below 0.
fn back_end(given: Option<i128>, len: usize, absent: usize) -> usize
    requires { absent ≤ len }
    ensures place { pos result
        ≡ end_of len (negsuc 0) (pos len +ℤ negsuc 0) (pos absent +ℤ negsuc 0) given +ℤ pos 1 }
    ensures inside { result ≤ len }
{
    let Some(place) = given else { return absent };
    let size = place.unsigned_abs();
    if place < 0 {
        len - (size - 1).min(len as u128) as usize
    } else {
        (size + 1).min(len as u128) as usize
    }
}

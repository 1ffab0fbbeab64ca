//! Every so many items of a part of a text.

ghost use Rattle.std.specs.Prelude.{◌≡◌, ◌≤◌, reverse, chars, true, IfOk, IsOkUnless};
ghost use Rattle.py_text.specs.Text.{all_ascii};
ghost use Rattle.py_text.specs.Strides.{every};

use crate::text::PyStr;
use py_base::{PyError, PyResult};
use std::alloc::Global;

/// The first byte, and each that is a multiple of `step` after it.
pub(crate) fn every_byte(alloc: Global, bytes: &[u8], step: usize) -> PyResult<PyStr>
    requires forward { 1 ≤ step }
    requires ascii { all_ascii bytes.now ≡ true }
    ensures ok { IfOk result (λ made. made ≡ every step bytes.now) }
    ensures err { IsOkUnless result PyError.NoMemory }
{
    let count = bytes.len().div_ceil(step);
    let mut kept = Vec::with_capacity(alloc, count)?;
    for i in 0..count {
        kept.push_reserved(bytes[i * step]);
    }
    Ok(PyStr::new_ascii_unchecked(kept))
}

/// The last byte, and each that is a multiple of `step` before it.
pub(crate) fn every_byte_back(alloc: Global, bytes: &[u8], step: usize) -> PyResult<PyStr>
    requires forward { 1 ≤ step }
    requires ascii { all_ascii bytes.now ≡ true }
    ensures ok { IfOk result (λ made. made ≡ every step (reverse bytes.now)) }
    ensures err { IsOkUnless result PyError.NoMemory }
{
    let count = bytes.len().div_ceil(step);
    let mut kept = Vec::with_capacity(alloc, count)?;
    for i in 0..count {
        kept.push_reserved(bytes[bytes.len() - 1 - i * step]);
    }
    Ok(PyStr::new_ascii_unchecked(kept))
}

/// The first character, and each that is a multiple of `step` after it.
pub(crate) fn every_char(alloc: Global, part: &str, step: usize) -> PyResult<PyStr>
    requires { 1 ≤ step }
    ensures ok { IfOk result (λ made. made ≡ every step (chars part.now)) }
    ensures err { IsOkUnless result PyError.NoMemory }
{
    let mut text = String::with_capacity(alloc, part.len().div_ceil(step))?;
    let mut rest = part.chars();
    let mut skip = 0;
    let mut count = 0;
    'chars: while let Some(c) = rest.next() {
        if skip == 0 {
            text.push(c)?;
            count += 1;
            skip = step;
        }
        skip -= 1;
    }
    Ok(PyStr::with_count(text, count))
}

/// The last character, and each that is a multiple of `step` before it.
pub(crate) fn every_char_back(alloc: Global, part: &str, step: usize) -> PyResult<PyStr>
    requires { 1 ≤ step }
    ensures ok { IfOk result (λ made. made ≡ every step (reverse (chars part.now))) }
    ensures err { IsOkUnless result PyError.NoMemory }
{
    let mut text = String::with_capacity(alloc, part.len().div_ceil(step))?;
    let mut rest = part.chars();
    let mut skip = 0;
    let mut count = 0;
    'chars: while let Some(c) = rest.next_back() {
        if skip == 0 {
            text.push(c)?;
            count += 1;
            skip = step;
        }
        skip -= 1;
    }
    Ok(PyStr::with_count(text, count))
}

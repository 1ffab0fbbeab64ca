//! Texts whose code points are bytes.

ghost use Rattle.std.specs.Prelude.{◌≡◌, true, IfOk, IsOkUnless};
ghost use Rattle.py_spec.specs.Percent.ByteParts.{all_bytes};

use py_base::{PyError, PyResult};
use py_text::{PyBytes, PyStr};
use std::alloc::Global;

/// The text whose code points are the bytes.
pub(crate) fn text_of_bytes(alloc: Global, bytes: &[u8]) -> PyResult<PyStr>
    ensures ok { IfOk result (λ made. made ≡ bytes.now) }
    ensures narrow { IfOk result (λ made. all_bytes made ≡ true) }
    ensures err { IsOkUnless result PyError.NoMemory }
{
    let mut text = String::with_capacity(alloc, bytes.len())?;
    for byte in bytes {
        text.push(char::from(*byte))?;
    }
    Ok(PyStr::with_count(text, bytes.len()))
}

/// The bytes that are the code points of the text.
pub(crate) fn bytes_of_text(alloc: Global, text: &PyStr) -> PyResult<PyBytes>
    requires { all_bytes text.now ≡ true }
    ensures ok { IfOk result (λ made. made ≡ text.now) }
    ensures err { IsOkUnless result PyError.NoMemory }
{
    let mut made = Vec::with_capacity(alloc, text.len())?;
    let mut rest = text.as_str().chars();
    'chars: while let Some(c) = rest.next() {
        made.push(c as u8)?;
    }
    Ok(PyBytes::from(made))
}

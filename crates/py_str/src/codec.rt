//! Texts as bytes, and bytes as texts.

ghost use Rattle.std.specs.Prelude.{◌≡◌, map, codes, option_copied, IfOk, IfErr};
ghost use Rattle.std.specs.Char.{to_ascii_lowercase};
ghost use Rattle.py_text.specs.Affixes.{same};
ghost use Rattle.py_str.specs.Codec.{names_utf8, IsEncoded, IsEncodeError, IsDecoded, IsDecodeError};

use py_base::{PyError, PyResult};
use py_text::{PyBytes, PyStr};
use std::alloc::Global;

fn is_utf_8(name: &str) -> bool
    ensures { result ≡ same (map to_ascii_lowercase name.now) (codes "utf-8") }
{
    name.eq_ignore_ascii_case("utf-8")
}

fn is_utf8(name: &str) -> bool
    ensures { result ≡ same (map to_ascii_lowercase name.now) (codes "utf8") }
{
    name.eq_ignore_ascii_case("utf8")
}

// Whether the name is one of UTF-8.
fn names_utf8(name: Option<&PyStr>) -> bool
    ensures { result ≡ names_utf8 (option_copied name.entry) }
{
    match name {
        Some(name) => is_utf_8(name.as_str()) || is_utf8(name.as_str()),
        None => true,
    }
}

/// The text in UTF-8, the one codec.
pub(crate) fn encode(text: &PyStr, alloc: Global, encoding: Option<&PyStr>) -> PyResult<PyBytes>
    ensures ok { IfOk result (IsEncoded encoding.entry text.now) }
    ensures err { IfErr result (IsEncodeError encoding.entry) }
{
    if !names_utf8(encoding) {
        return Err(PyError::UnknownEncoding);
    }
    PyBytes::copy_of(alloc, text.as_str().as_bytes())
}

/// The text of bytes in UTF-8.
pub(crate) fn decode(bytes: &PyBytes, alloc: Global) -> PyResult<PyStr>
    ensures ok { IfOk result (IsDecoded bytes.now) }
    ensures err { IfErr result (IsDecodeError bytes.now) }
{
    match std::str::from_utf8(bytes.as_bytes()) {
        Ok(text) => PyStr::copy_of(alloc, text),
        Err(_) => Err(PyError::InvalidUtf8),
    }
}

//! The methods of Python's `bytes` that decode and quote.

ghost use Rattle.std.specs.Prelude.{◌≡◌, ℕ, List, IfOk, IfErr, IsOkUnless};
ghost use Rattle.py_base.specs.Chars.Quoting.{bytes_repr};
ghost use Rattle.py_str.specs.Codec.{IsDecoded, IsDecodeError};

use crate::{codec, quote};
use py_base::{PyError, PyResult};
use py_text::{PyBytes, PyStr};
use std::alloc::Global;

/// The methods of Python's `bytes` that decode and quote.
pub trait BytesMore {
    /// Its bytes.
    ghost bytes: { Self → List ℕ };

    /// The text that the bytes are in UTF-8. (Python Library Reference, Bytes and Bytearray
    /// Operations, `bytes.decode`.)
    fn decode(&self, alloc: Global) -> PyResult<PyStr>
        ensures ok { IfOk result (IsDecoded (bytes self.now)) }
        ensures err { IfErr result (IsDecodeError (bytes self.now)) };

    /// The bytes in quotes, after `b`. (Python Library Reference, Built-in Functions, `repr`.)
    fn repr(&self, alloc: Global) -> PyResult<PyStr>
        ensures ok { IfOk result (λ made. made ≡ bytes_repr (bytes self.now)) }
        ensures err { IsOkUnless result PyError.NoMemory };
}

impl BytesMore for PyBytes {
    ghost bytes = { λ shown. shown };

    fn decode(&self, alloc: Global) -> PyResult<PyStr> {
        codec::decode(self, alloc)
    }

    fn repr(&self, alloc: Global) -> PyResult<PyStr> {
        quote::bytes_repr(self, alloc)
    }
}

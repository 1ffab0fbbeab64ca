//! Small texts and bytes that an error owns, and the name of a key.

ghost use Rattle.std.specs.Prelude.{◌≡◌, chars, encode_utf8_all, IfOk, IsOkUnless};

use crate::chars::quoting::{write_bytes_repr, write_text_repr};
use crate::error::{PyError, PyResult};
use std::alloc::Global;
use std::fmt;
use std::marker::Model;

/// A text that an error owns. Contracts see its code points.
#[derive(Debug, Drop)]
pub struct BaseText {
    text: String,
}

impl Model for BaseText {
    ghost use Rattle.std.specs.Prelude.{ℕ, List, chars, string_bytes};

    ghost Value = { List ℕ };

    ghost view = { λ owned. chars (string_bytes owned.text) };
}

impl BaseText {
    /// A copy of the text.
    pub fn copy_of(alloc: Global, s: &str) -> PyResult<BaseText>
        ensures ok { IfOk result (λ owned. owned ≡ chars s.now) }
        ensures err { IsOkUnless result PyError.NoMemory }
    {
        let text = String::from_str(alloc, s)?;
        Ok(BaseText { text })
    }

    /// The text.
    pub fn as_str(&self) -> &str
        ensures value { chars result.now ≡ self.now }
        ensures bytes { result.now ≡ encode_utf8_all self.now }
    {
        self.text.as_str()
    }
}

impl PartialEq for BaseText {
    ghost use Rattle.std.specs.Prelude.{◌==◌};
    ghost use Rattle.std.specs.Cmp.Lexicographic.{pointwise};
    ghost use Rattle.std.specs.Cmp.Rules.{comparing};
    ghost use Rattle.std.proofs.Common.{rules};

    ghost eq = { pointwise ◌==◌ };

    ghost laws = { Prim.search (comparing, rules) };

    fn eq(&self, other: &BaseText) -> bool {
        self.text == other.text
    }
}

impl Eq for BaseText {
    ghost use Rattle.std.specs.Cmp.Rules.{comparing};
    ghost use Rattle.std.proofs.Common.{rules};

    ghost laws = { Prim.search (comparing, rules) };
}

/// Bytes that an error owns.
#[derive(Debug, Drop)]
pub struct BaseBytes {
    bytes: Vec<u8>,
}

impl Model for BaseBytes {
    ghost use Rattle.std.specs.Prelude.{ℕ, List};

    ghost Value = { List ℕ };

    ghost view = { λ owned. owned.bytes.items };
}

impl BaseBytes {
    /// A copy of the bytes.
    pub fn copy_of(alloc: Global, bytes: &[u8]) -> PyResult<BaseBytes>
        ensures ok { IfOk result (λ owned. owned ≡ bytes.now) }
        ensures err { IsOkUnless result PyError.NoMemory }
    {
        let bytes = Vec::from_slice(alloc, bytes)?;
        Ok(BaseBytes { bytes })
    }

    /// The bytes.
    pub fn as_bytes(&self) -> &[u8]
        ensures { result.now ≡ self.now }
    {
        &self.bytes
    }
}

impl PartialEq for BaseBytes {
    ghost use Rattle.std.specs.Prelude.{◌==◌};
    ghost use Rattle.std.specs.Cmp.Lexicographic.{pointwise};
    ghost use Rattle.std.specs.Cmp.Rules.{comparing};
    ghost use Rattle.std.proofs.Common.{rules};

    ghost eq = { pointwise ◌==◌ };

    ghost laws = { Prim.search (comparing, rules) };

    fn eq(&self, other: &BaseBytes) -> bool {
        self.bytes == other.bytes
    }
}

impl Eq for BaseBytes {
    ghost use Rattle.std.specs.Cmp.Rules.{comparing};
    ghost use Rattle.std.proofs.Common.{rules};

    ghost laws = { Prim.search (comparing, rules) };
}

/// A key that was not found. A bool is the integer 0 or 1.
#[derive(Debug, Drop, PartialEq, Eq)]
pub enum KeyName {
    Int(i128),
    Text(BaseText),
    Bytes(BaseBytes),
}

impl fmt::Display for KeyName {
    ghost use Rattle.std.specs.Prelude.{Some};
    ghost use Rattle.py_base.specs.Error.Key.{key_text};

    ghost output = { λ key. Some (key_text key) };

    fn fmt<W: fmt::Write>(&self, f: &mut fmt::Formatter<W>) -> fmt::Result {
        match self {
            KeyName::Int(n) => write!(f, "{n}"),
            KeyName::Text(text) => write_text_repr(f, text.as_str()),
            KeyName::Bytes(bytes) => write_bytes_repr(f, bytes.as_bytes()),
        }
    }
}

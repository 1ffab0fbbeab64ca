//! The two kinds of patterns: over texts, and over bytes.

ghost use Rattle.std.specs.Prelude.{◌≡◌, [], ℕ, List, Bool, true, false, IfOk, OnOk, IsOkUnless, option_map};
ghost use denote.Bor.{Bor};
ghost use Rattle.py_base.specs.declared.error.PyError.TheVariants.{NoMemory};
ghost use Rattle.py_value.specs.ValueView.{plain_of};
ghost use Rattle.py_sre.specs.Pieces.{replacement_of};
ghost use Rattle.py_sre.specs.Replacing.{substituted, substitutions};
ghost use Rattle.py_sre.specs.Template.{other_kind, units_in, value_of};

use crate::pieces::Piece;
use crate::subjects::{replaced_bytes, replaced_text};
use py_base::{ClassName, PyError, PyResult, Steps};
use py_text::{PyBytes, PyStr};
use py_value::Value;
use sre_code::Checked;
use std::alloc::Global;
use std::sync::ledger::Ledger;

/// What patterns of one kind are over, and make.
pub(crate) trait Kind: Drop {
    /// Whether these are bytes.
    ghost is_bytes: { Bool };

    /// The code points, or the bytes.
    ghost units: { Self → List ℕ };

    /// What a value of this kind holds.
    fn in_value(value: &Value) -> Option<&Self>
        ensures { option_map (λ found. units found.now) result
            ≡ units_in is_bytes (plain_of value.now) };

    /// The error for a value of another class.
    fn other_kind(class: ClassName) -> PyError
        ensures { result ≡ other_kind is_bytes class };

    /// The value that holds it.
    fn into_value(self) -> Value
        ensures { plain_of result ≡ value_of is_bytes (units self) };

    /// What has no unit.
    fn nothing(alloc: Global) -> Self
        ensures { units result ≡ [] };

    /// The same.
    fn copied(&self, alloc: Global) -> PyResult<Self>
        ensures ok { IfOk result (λ made. units made ≡ units self.now) }
        ensures err { IsOkUnless result NoMemory };

    /// The subject with its first spans replaced, as many as the limit, where 0 is none, and how
    /// many they were.
    fn replaced<L: Ledger>(
        alloc: Global,
        pieces: &[Piece<Self>],
        unset: &Self,
        subject: &Self,
        code: &Checked,
        limit: usize,
        steps: &mut Steps<L>,
    ) -> PyResult<(Self, usize)>
        ensures ok { let asked = replacement_of units pieces.now unset.now in
            let made = substituted code.now.tree (units subject.now) limit asked in
            IfOk result (λ x. units x.0 ≡ made) }
        ensures count { let many = substitutions code.now.tree (units subject.now) limit in
            IfOk result (λ x. x.1 ≡ many) }
        ensures err { IsOkUnless result NoMemory };
}

impl Kind for PyStr {
    ghost is_bytes = { false };

    ghost units = { λ text. text };

    fn in_value(value: &Value) -> Option<&PyStr> {
        match value {
            Value::Str(text) => Some(text),
            _ => None,
        }
    }

    fn other_kind(class: ClassName) -> PyError {
        PyError::ExpectedString(class)
    }

    fn into_value(self) -> Value {
        Value::Str(self)
    }

    fn nothing(alloc: Global) -> PyStr {
        PyStr::new(alloc)
    }

    fn copied(&self, alloc: Global) -> PyResult<PyStr> {
        self.try_clone(alloc)
    }

    fn replaced<L: Ledger>(
        alloc: Global,
        pieces: &[Piece<PyStr>],
        unset: &PyStr,
        subject: &PyStr,
        code: &Checked,
        limit: usize,
        steps: &mut Steps<L>,
    ) -> PyResult<(PyStr, usize)> {
        replaced_text(alloc, pieces, unset, subject, code, limit, steps)
    }
}

impl Kind for PyBytes {
    ghost is_bytes = { true };

    ghost units = { λ bytes. bytes };

    fn in_value(value: &Value) -> Option<&PyBytes> {
        match value {
            Value::Bytes(bytes) => Some(bytes),
            _ => None,
        }
    }

    fn other_kind(class: ClassName) -> PyError {
        PyError::ExpectedBytes(class)
    }

    fn into_value(self) -> Value {
        Value::Bytes(self)
    }

    fn nothing(alloc: Global) -> PyBytes {
        PyBytes::from(Vec::new(alloc))
    }

    fn copied(&self, alloc: Global) -> PyResult<PyBytes> {
        self.try_clone(alloc)
    }

    fn replaced<L: Ledger>(
        alloc: Global,
        pieces: &[Piece<PyBytes>],
        unset: &PyBytes,
        subject: &PyBytes,
        code: &Checked,
        limit: usize,
        steps: &mut Steps<L>,
    ) -> PyResult<(PyBytes, usize)> {
        replaced_bytes(alloc, pieces, unset, subject, code, limit, steps)
    }
}

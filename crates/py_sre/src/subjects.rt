//! Texts and bytes with their spans replaced.

ghost use Rattle.std.specs.Prelude.{◌≡◌, IfOk, IsOkUnless};
ghost use Rattle.py_base.specs.declared.error.PyError.TheVariants.{NoMemory};
ghost use Rattle.py_sre.specs.Pieces.{replacement_of};
ghost use Rattle.py_sre.specs.Replacing.{substituted, substitutions};

use crate::engine::replaced_over;
use crate::pieces::Piece;
use py_base::{PyResult, Steps};
use py_text::{PyBytes, PyStr};
use sre_code::Checked;
use sre_match::{ByteView, TextView};
use std::alloc::Global;
use std::sync::ledger::Ledger;

/// A text with its first spans replaced, as many as the limit, where 0 is none, and how many they
/// were.
pub(crate) fn replaced_text<L: Ledger>(
    alloc: Global,
    pieces: &[Piece<PyStr>],
    unset: &PyStr,
    subject: &PyStr,
    code: &Checked,
    limit: usize,
    steps: &mut Steps<L>,
) -> PyResult<(PyStr, usize)>
    ensures ok { let asked = replacement_of (λ text. text) pieces.now unset.now in
        IfOk result (λ x. x.0 ≡ substituted code.now.tree subject.now limit asked) }
    ensures count { IfOk result (λ x. x.1 ≡ substitutions code.now.tree subject.now limit) }
    ensures err { IsOkUnless result NoMemory }
{
    if subject.is_ascii() {
        let view = ByteView::new(subject.as_str().as_bytes());
        return replaced_over(alloc, pieces, unset, view, code, limit, steps);
    }
    let view = TextView::new(subject);
    replaced_over(alloc, pieces, unset, view, code, limit, steps)
}

/// The same of bytes.
pub(crate) fn replaced_bytes<L: Ledger>(
    alloc: Global,
    pieces: &[Piece<PyBytes>],
    unset: &PyBytes,
    subject: &PyBytes,
    code: &Checked,
    limit: usize,
    steps: &mut Steps<L>,
) -> PyResult<(PyBytes, usize)>
    ensures ok { let asked = replacement_of (λ bytes. bytes) pieces.now unset.now in
        IfOk result (λ x. x.0 ≡ substituted code.now.tree subject.now limit asked) }
    ensures count { IfOk result (λ x. x.1 ≡ substitutions code.now.tree subject.now limit) }
    ensures err { IsOkUnless result NoMemory }
{
    let view = ByteView::new(subject.as_bytes());
    let made = replaced_over(alloc, pieces, unset, view, code, limit, steps)?;
    Ok((bytes_of(made.0), made.1))
}

// The bytes, moved.
fn bytes_of(bytes: Vec<u8>) -> PyBytes
    ensures { result ≡ bytes.items }
{
    PyBytes::from(bytes)
}

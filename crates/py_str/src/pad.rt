//! Texts filled up to a width.

ghost use Rattle.std.specs.Prelude.{◌≡◌, ◌∷◌, ◌++◌, [], chars, option_copied};
ghost use Rattle.std.specs.Prelude.{Some, None, OnOk, IfOk, IfErr, IsOkUnless, MatchOption};
ghost use Rattle.py_str.specs.Pad as spec;
ghost use Rattle.py_str.specs.Pad.{IsPadded, IsPadError};

use crate::pushing::push_run;
use py_base::{PyError, PyResult};
use py_text::PyStr;
use std::alloc::Global;

// The character that fills.
fn fill_char(fill: Option<&PyStr>) -> PyResult<char>
    ensures ok { IfOk result (λ c. spec.fill_of (option_copied fill.entry) ≡ Some c) }
    ensures err { IfErr result (λ e. (e ≡ PyError.FillChar)
        × (spec.fill_of (option_copied fill.entry) ≡ None)) }
{
    match fill {
        Some(fill) => {
            if fill.len() == 1 {
                Ok(fill.do_get(0))
            } else {
                Err(PyError::FillChar)
            }
        }
        None => Ok(' '),
    }
}

/// A width; a negative one is 0.
pub(crate) fn width_of(width: isize) -> usize
    ensures { result ≡ spec.width_of width }
{
    if width <= 0 { 0 } else { width as usize }
}

// How many bytes a text of `bytes` ones takes with so many fills.
fn room(bytes: usize, count: usize, fill: char) -> PyResult<usize>
    ensures { IsOkUnless result PyError.NoMemory }
{
    let Some(filled) = count.checked_mul(fill.len_utf8()) else {
        return Err(PyError::NoMemory);
    };
    filled.checked_add(bytes).ok_or(PyError::NoMemory)
}

// The text between two runs of the fill. The room is taken once.
fn padded(alloc: Global, text: &PyStr, fill: char, left: usize, right: usize) -> PyResult<PyStr>
    ensures ok { IfOk result (λ made. made
        ≡ spec.run left fill ++ (text.now ++ spec.run right fill)) }
    ensures err { IsOkUnless result PyError.NoMemory }
{
    let bytes = room(text.byte_len(), left.saturating_add(right), fill)?;
    let mut out = PyStr::with_capacity(alloc, bytes)?;
    push_run(alloc, &mut out, fill, left)?;
    out.append_text(text)?;
    push_run(alloc, &mut out, fill, right)?;
    Ok(out)
}

// The left part of a fill.
fn left_part(count: usize, width: usize) -> usize
    ensures { result ≡ spec.left_part count width }
{
    if count % 2 == 1 && width % 2 == 1 {
        count / 2 + 1
    } else {
        count / 2
    }
}

/// The text in the middle of `width`.
pub(crate) fn center(
    text: &PyStr,
    alloc: Global,
    width: isize,
    fill: Option<&PyStr>,
) -> PyResult<PyStr>
    ensures ok { IfOk result (IsPadded fill.entry (spec.center (spec.width_of width) text.now)) }
    ensures err { IfErr result (IsPadError fill.entry) }
{
    let fill = fill_char(fill)?;
    let width = width_of(width);
    let short = width.saturating_sub(text.len());
    let left = left_part(short, width);
    padded(alloc, text, fill, left, short - left)
}

/// The text at the left of `width`.
pub(crate) fn ljust(
    text: &PyStr,
    alloc: Global,
    width: isize,
    fill: Option<&PyStr>,
) -> PyResult<PyStr>
    ensures ok { IfOk result (IsPadded fill.entry (spec.ljust (spec.width_of width) text.now)) }
    ensures err { IfErr result (IsPadError fill.entry) }
{
    let fill = fill_char(fill)?;
    let short = width_of(width).saturating_sub(text.len());
    padded(alloc, text, fill, 0, short)
}

/// The text at the right of `width`.
pub(crate) fn rjust(
    text: &PyStr,
    alloc: Global,
    width: isize,
    fill: Option<&PyStr>,
) -> PyResult<PyStr>
    ensures ok { IfOk result (IsPadded fill.entry (spec.rjust (spec.width_of width) text.now)) }
    ensures err { IfErr result (IsPadError fill.entry) }
{
    let fill = fill_char(fill)?;
    let short = width_of(width).saturating_sub(text.len());
    padded(alloc, text, fill, short, 0)
}

fn is_sign(c: char) -> bool
    ensures { result ≡ spec.is_sign c }
{
    c == '+' || c == '-'
}

// The sign that the text begins with, and the text after it.
fn after_sign(text: &str) -> Option<(char, &str)>
    ensures { MatchOption result (spec.sign_parts (chars text.now) ≡ ([], chars text.now))
        (λ p. spec.sign_parts (chars text.now) ≡ (p.0 ∷ [], chars p.1.now)) }
{
    let mut rest = text.chars();
    match rest.next() {
        Some(c) => {
            if is_sign(c) {
                Some((c, rest.as_str()))
            } else {
                None
            }
        }
        None => None,
    }
}

fn push_zero_filled(alloc: Global, out: &mut PyStr, zeros: usize, text: &PyStr) -> PyResult<()>
    ensures ok { OnOk result (out.new ≡ out.old ++ spec.after_sign zeros text.now) }
    ensures err { IsOkUnless result PyError.NoMemory }
{
    match after_sign(text.as_str()) {
        Some((sign, rest)) => {
            out.append_char(sign)?;
            push_run(alloc, out, '0', zeros)?;
            out.append(rest)?;
            Ok(())
        }
        None => {
            push_run(alloc, out, '0', zeros)?;
            out.append_text(text)?;
            Ok(())
        }
    }
}

/// The text with zeros after its sign, up to `width`.
pub(crate) fn zfill(text: &PyStr, alloc: Global, width: isize) -> PyResult<PyStr>
    ensures ok { IfOk result (λ made. made ≡ spec.zfill (spec.width_of width) text.now) }
    ensures err { IsOkUnless result PyError.NoMemory }
{
    let zeros = width_of(width).saturating_sub(text.len());
    let bytes = room(text.byte_len(), zeros, '0')?;
    let mut out = PyStr::with_capacity(alloc, bytes)?;
    push_zero_filled(alloc, &mut out, zeros, text)?;
    Ok(out)
}

//! Tabs as spaces.

ghost use Rattle.std.specs.Prelude.{◌≡◌, ℕ, ◌≤◌, ◌<◌, ◌-◌, ◌∷◌, ◌++◌, List, [], false, chars, take_while};
ghost use Rattle.std.specs.Prelude.{length, IsUtf8, OnOk, IfOk, IfSome, IsOkUnless, MatchOption};
ghost use Rattle.py_base.specs.Chars.Whitespace.{skip_while};
ghost use Rattle.py_str.specs.Pad.{width_of};
ghost use Rattle.py_str.specs.Tabs as spec;

use crate::pad::width_of;
use crate::pushing::push_spaces;
use memchr::memchr3;
use py_base::{PyError, PyResult};
use py_text::PyStr;
use std::alloc::Global;

// The text before the first tab, CR or LF, that character, and the text after it. All three are
// ASCII, so they are looked for among the bytes.
fn first_stop(text: &str) -> Option<(&str, char, &str)>
    ensures text { IfSome result (λ p. IsUtf8 p.2.now) }
    ensures before { MatchOption result
        (take_while spec.is_inside (chars text.now) ≡ chars text.now)
        (λ p. take_while spec.is_inside (chars text.now) ≡ chars p.0.now) }
    ensures rest { MatchOption result (skip_while spec.is_inside (chars text.now) ≡ [])
        (λ p. skip_while spec.is_inside (chars text.now) ≡ p.1 ∷ chars p.2.now) }
    ensures stop { IfSome result (λ p. spec.is_inside p.1 ≡ false) }
    ensures shorter { IfSome result (λ p. length p.2.now < length text.now) }
{
    let bytes = text.as_bytes();
    match memchr3(b'\t', b'\n', b'\r', bytes) {
        Some(at) => Some((&text[..at], char::from(bytes[at]), &text[at + 1..])),
        None => None,
    }
}

// How many spaces a tab at the column gives.
fn gap(size: usize, column: usize) -> usize
    ensures { result ≡ spec.gap size column }
{
    if size == 0 { 0 } else { size - column % size }
}

// Puts a tab, CR or LF at the end of a line that begins at a place, and answers where the line
// begins that follows.
fn push_stop(out: &mut PyStr, size: usize, begins: usize, c: char) -> PyResult<usize>
    requires stop { spec.is_inside c ≡ false }
    requires bound { begins ≤ length out.old }
    ensures bound { IfOk result (λ next. next ≤ length out.new) }
    ensures ok { IfOk result (λ next. (back : List ℕ)
        → out.new ++ spec.expanded_at size (length out.new - next) back
        ≡ out.old ++ spec.expanded_at size (length out.old - begins) (c ∷ back)) }
    ensures err { IsOkUnless result PyError.NoMemory }
{
    if c == '\t' {
        push_spaces(out, gap(size, out.len() - begins))?;
        return Ok(begins);
    }
    out.append_char(c)?;
    Ok(out.len())
}

// The text with its tabs as spaces, in runs.
fn push_expanded(out: &mut PyStr, size: usize, text: &str) -> PyResult<()>
    ensures ok { OnOk result (out.new ≡ out.old ++ spec.expanded size (chars text.now)) }
    ensures err { IsOkUnless result PyError.NoMemory }
{
    let mut rest = text;
    let mut begins = out.len();
    'runs: while let Some((before, c, after)) = first_stop(rest) {
        out.append(before)?;
        begins = push_stop(out, size, begins, c)?;
        rest = after;
    }
    out.append(rest)?;
    Ok(())
}

/// The text with each tab as spaces, up to the next multiple of `tabsize`; the columns are counted
/// from the last CR or LF. A size of 0 or less drops the tabs.
pub(crate) fn expandtabs(text: &PyStr, alloc: Global, tabsize: isize) -> PyResult<PyStr>
    ensures ok { IfOk result (λ made. made ≡ spec.expanded (width_of tabsize) text.now) }
    ensures err { IsOkUnless result PyError.NoMemory }
{
    let mut out = PyStr::with_capacity(alloc, text.byte_len())?;
    push_expanded(&mut out, width_of(tabsize), text.as_str())?;
    Ok(out)
}

//! A text with each character past `~` escaped.

ghost use Rattle.std.specs.Prelude.{◌≡◌, ◌++◌, ◌<◌, OnOk, IsOkUnless, IfSome, MatchOption, IsUtf8, Ok, chars, drop, length};
ghost use Rattle.py_str.specs.Passing.{IsPassed};
ghost use Rattle.py_value.specs.Asking.{Meets};
ghost use Rattle.py_value.specs.Printing as spec;

use py_base::{PyError, PyResult};
use py_str::StrMore;
use py_text::PyStr;
use std::alloc::Global;

// How many bytes at the start are characters up to `~`.
fn kept(text: &str) -> usize
    ensures { IsPassed spec.is_kept text.now (drop result text.now) result }
{
    let bytes = text.as_bytes();
    let mut at = 0;
    'bytes: while at < bytes.len() {
        if bytes[at] > b'~' {
            return at;
        }
        at += 1;
    }
    at
}

// The text before the first character that is escaped, that character, and the text after it.
fn first_escaped(text: &str) -> Option<(&str, char, &str)>
    ensures text { IfSome result (λ p. IsUtf8 p.2.now) }
    ensures parts { MatchOption result (spec.escaped (chars text.now) ≡ chars text.now)
        (λ p. spec.escaped (chars text.now)
        ≡ chars p.0.now ++ spec.ascii_char p.1 ++ spec.escaped (chars p.2.now)) }
    ensures shorter { IfSome result (λ p. length p.2.now < length text.now) }
{
    let at = kept(text);
    let mut rest = text[at..].chars();
    match rest.next() {
        Some(c) => Some((&text[..at], c, rest.as_str())),
        None => None,
    }
}

// Puts a character at the end; one past `~` is escaped.
fn put_ascii(alloc: Global, out: &mut PyStr, c: char) -> PyResult<()>
    ensures ok { OnOk result (out.new ≡ out.old ++ spec.ascii_char c) }
    ensures err { IsOkUnless result PyError.NoMemory }
{
    if c <= '~' {
        return out.append_char(c);
    }
    let text = PyStr::from_char(alloc, c)?;
    let quoted = text.ascii(alloc)?;
    out.append(quoted.get_chars(1..quoted.len() - 1))?;
    Ok(())
}

// Puts a text at the end, each character past `~` escaped. What is before one is put at once.
fn put_escaped(alloc: Global, out: &mut PyStr, text: &str) -> PyResult<()>
    ensures ok { OnOk result (out.new ≡ out.old ++ spec.escaped (chars text.now)) }
    ensures err { IsOkUnless result PyError.NoMemory }
{
    let mut rest = text;
    'runs: while let Some((front, c, back)) = first_escaped(rest) {
        out.append(front)?;
        put_ascii(alloc, out, c)?;
        rest = back;
    }
    out.append(rest)?;
    Ok(())
}

// The text with each character past `~` escaped. A text that has none is moved.
pub(crate) fn escaped(alloc: Global, text: PyStr) -> PyResult<PyStr>
    ensures { Meets (Ok (spec.escaped text)) result }
{
    if kept(text.as_str()) == text.byte_len() {
        return Ok(text);
    }
    let mut out = PyStr::with_capacity(alloc, text.byte_len())?;
    put_escaped(alloc, &mut out, text.as_str())?;
    Ok(out)
}

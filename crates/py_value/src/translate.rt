//! Texts whose characters a table replaces.

ghost use Rattle.std.specs.Prelude.{◌≡◌, ◌≢◌, true, pos, chars, Ok, Err};
ghost use Rattle.py_value.specs.Asking.{Comes, Meets};
ghost use Rattle.py_value.specs.Plain.{bare};
ghost use Rattle.py_value.specs.Printing.{written};
ghost use Rattle.py_value.specs.Translate as spec;
ghost use Rattle.py_value.specs.ValueView.{plain_of};

use crate::host::Host;
use crate::lookup::get_item;
use crate::value::Value;
use py_base::{ClassName, PyError, PyResult, TranslateKind};
use py_int::{PyBool, PyInt};
use py_text::PyStr;
use std::alloc::Global;

// Tests that the value has items.
fn test_items<H: Host>(host: &H, table: &Value) -> PyResult<()>
    ensures has { Comes (H.seen host.now) (H.seen host.now)
        (spec.has_items (plain_of table.now)) result }
    ensures free { result ≢ Err PyError.NoMemory }
{
    match table {
        Value::Str(_) | Value::Bytes(_) | Value::Tuple(_) | Value::List(_) | Value::Dict(_) => Ok(
            (),
        ),
        Value::Handle(handle) => {
            if host.has_getitem(*handle) {
                Ok(())
            } else {
                Err(PyError::NotSubscriptable(ClassName::Object))
            }
        }
        _ => Err(PyError::NotSubscriptable(table.class())),
    }
}

/// The code point of a character as an integer.
pub(crate) fn code_of(c: char) -> PyInt
    ensures { result ≡ pos c }
{
    PyInt::from(i128::from(c as u32))
}

// The character of a number.
fn char_of(number: PyInt) -> Option<char>
    ensures { result ≡ spec.char_of number }
{
    match u32::try_from(number.as_i128()) {
        Ok(code) => char::from_u32(code),
        Err(_) => None,
    }
}

// Puts the character of an integer at the end.
fn put_integer(out: &mut PyStr, number: PyInt) -> PyResult<()>
    ensures { Meets (spec.put_char out.old (spec.char_of number)) (written result out.new) }
{
    match char_of(number) {
        Some(c) => {
            out.append_char(c)?;
            Ok(())
        }
        None => Err(PyError::Translate(TranslateKind::Range)),
    }
}

// Puts what was found for a character at the end.
fn put_found(out: &mut PyStr, found: &Value) -> PyResult<()>
    ensures { Meets (spec.put_found out.old (plain_of found.now)) (written result out.new) }
{
    match found {
        Value::None => Ok(()),
        Value::Str(text) => {
            out.append_text(text)?;
            Ok(())
        }
        Value::Bool(value) => put_integer(out, PyBool::new(*value).as_int()),
        Value::Int(number) => put_integer(out, *number),
        _ => Err(PyError::Translate(TranslateKind::Kind)),
    }
}

// Puts what the table has for a character at the end, or the character where the look-up fails.
#[tactic(auto, using(crate::proofs::SilenceLemmas::item_silent))]
fn put_looked_up<H: Host>(
    alloc: Global,
    host: &mut H,
    out: &mut PyStr,
    table: &Value,
    c: char,
) -> PyResult<()>
    ensures puts { spec.Puts (plain_of table.now) c out.old
        (H.seen host.old) (H.seen host.new) (written result out.new) }
    ensures quiet { bare (plain_of table.now) ≡ true → host.new ≡ host.old }
{
    let key = Value::Int(code_of(c));
    match get_item(alloc, host, table, &key) {
        Ok(found) => put_found(out, &found),
        Err(PyError::NoMemory) => Err(PyError::NoMemory),
        Err(_) => {
            out.append_char(c)?;
            Ok(())
        }
    }
}

// Puts a text at the end, each character replaced by what the table has for it.
fn put_all<H: Host>(
    alloc: Global,
    host: &mut H,
    out: &mut PyStr,
    table: &Value,
    text: &str,
) -> PyResult<()>
    ensures goes_on { spec.GoesOn (plain_of table.now) (chars text.now) out.old
        (H.seen host.old) (H.seen host.new) (written result out.new) }
    ensures quiet { bare (plain_of table.now) ≡ true → host.new ≡ host.old }
{
    let mut rest = text.chars();
    'chars: while let Some(c) = rest.next() {
        put_looked_up(alloc, host, out, table, c)?;
    }
    Ok(())
}

/// The text with each character replaced by what the table has for it.
pub(crate) fn translate<H: Host>(
    text: &PyStr,
    alloc: Global,
    host: &mut H,
    table: &Value,
) -> PyResult<PyStr>
    ensures translates { spec.Translates (plain_of table.now) text.now
        (H.seen host.old) (H.seen host.new) result }
    ensures quiet { bare (plain_of table.now) ≡ true → host.new ≡ host.old }
    ensures free { result ≡ Err PyError.NoMemory → Comes (H.seen host.old) (H.seen host.old)
        (spec.has_items (plain_of table.now)) (Ok tt) }
{
    test_items(host, table)?;
    let mut out = PyStr::with_capacity(alloc, text.byte_len())?;
    put_all(alloc, host, &mut out, table, text.as_str())?;
    Ok(out)
}

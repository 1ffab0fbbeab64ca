//! What a printed value is made of: texts, bytes, numbers, commas and labels.

ghost use Rattle.std.specs.Prelude.{◌≡◌, ◌++◌, OnOk, IsOkUnless, codes};
ghost use Rattle.std.specs.Fmt.{decimal, signed_decimal};
ghost use Rattle.py_base.specs.Chars.Quoting.{text_repr, bytes_repr};
ghost use Rattle.py_value.specs.Asking.{Meets};
ghost use Rattle.py_value.specs.Printing as spec;
ghost use Rattle.py_value.specs.Printing.{written};
ghost use Rattle.py_value.specs.ValueView.{plain_of};

use crate::value::{DictKey, Value, ValueList};
use py_base::{ClassName, PyError, PyResult};
use py_int::PyInt;
use py_str::{BytesMore, StrMore};
use py_text::{PyBytes, PyStr};
use std::alloc::Global;

// Puts the repr of a text at the end.
pub(crate) fn put_text_repr(alloc: Global, out: &mut PyStr, text: &PyStr) -> PyResult<()>
    ensures ok { OnOk result (out.new ≡ out.old ++ text_repr text.now) }
    ensures err { IsOkUnless result PyError.NoMemory }
{
    let quoted = StrMore::repr(text, alloc)?;
    out.append_text(&quoted)
}

// Puts the repr of bytes at the end.
pub(crate) fn put_bytes_repr(alloc: Global, out: &mut PyStr, bytes: &PyBytes) -> PyResult<()>
    ensures ok { OnOk result (out.new ≡ out.old ++ bytes_repr bytes.now) }
    ensures err { IsOkUnless result PyError.NoMemory }
{
    let quoted = BytesMore::repr(bytes, alloc)?;
    out.append_text(&quoted)
}

pub(crate) fn put_number(alloc: Global, out: &mut PyStr, number: PyInt) -> PyResult<()>
    ensures ok { OnOk result (out.new ≡ out.old ++ signed_decimal number) }
    ensures err { IsOkUnless result PyError.NoMemory }
{
    let digits = number.repr(alloc)?;
    out.append_text(&digits)
}

fn put_key(alloc: Global, out: &mut PyStr, key: &DictKey) -> PyResult<()>
    ensures ok { OnOk result (out.new ≡ out.old ++ spec.key_repr key.now) }
    ensures err { IsOkUnless result PyError.NoMemory }
{
    match key {
        DictKey::Int(number) => put_number(alloc, out, *number),
        DictKey::Str(text) => put_text_repr(alloc, out, text),
        DictKey::Bytes(bytes) => put_bytes_repr(alloc, out, bytes),
    }
}

// What is before the item `i`.
pub(crate) fn put_comma(out: &mut PyStr, i: usize) -> PyResult<()>
    ensures ok { OnOk result (out.new ≡ out.old ++ spec.comma i) }
    ensures err { IsOkUnless result PyError.NoMemory }
{
    if i == 0 {
        return Ok(());
    }
    out.append_ascii(", ")
}

// What is before the value of a key.
pub(crate) fn put_label(alloc: Global, out: &mut PyStr, i: usize, key: &DictKey) -> PyResult<()>
    ensures ok { OnOk result
        (out.new ≡ out.old ++ spec.comma i ++ spec.key_repr key.now ++ codes ": ") }
    ensures err { IsOkUnless result PyError.NoMemory }
{
    put_comma(out, i)?;
    put_key(alloc, out, key)?;
    out.append_ascii(": ")?;
    Ok(())
}

// The text that a host answered.
pub(crate) fn put_text(out: &mut PyStr, answer: &Value) -> PyResult<()>
    ensures { Meets (spec.text_after out.old (plain_of answer.now)) (written result out.new) }
{
    match answer {
        Value::Str(text) => {
            out.append_text(text)?;
            Ok(())
        }
        _ => Err(PyError::Downcast(ClassName::Str, answer.class())),
    }
}

// What ends a tuple.
pub(crate) fn put_tuple_end(out: &mut PyStr, list: &ValueList) -> PyResult<()>
    ensures ok { OnOk result (out.new ≡ out.old ++ spec.tuple_end list.now) }
    ensures err { IsOkUnless result PyError.NoMemory }
{
    if list.len() == 1 {
        out.append_ascii(",)")
    } else {
        out.append_ascii(")")
    }
}

pub(crate) fn put_object(alloc: Global, out: &mut PyStr, handle: u64) -> PyResult<()>
    ensures ok { OnOk result
        (out.new ≡ out.old ++ codes "<object " ++ decimal handle ++ codes ">") }
    ensures err { IsOkUnless result PyError.NoMemory }
{
    out.append_ascii("<object ")?;
    put_number(alloc, out, PyInt::from(i128::from(handle)))?;
    out.append_ascii(">")?;
    Ok(())
}

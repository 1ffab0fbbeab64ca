//! How a specifier of a template of bytes writes a value.

ghost use Rattle.std.specs.Prelude.{◌≡◌, ◌++◌, encode_utf8_all, IfOk, OnOk, IsOkUnless};
ghost use Rattle.py_spec.specs.declared.percent.parts.CFormatType.TheVariants.{Character};
ghost use Rattle.py_value.specs.Asking.{Answers, Meets};
ghost use Rattle.py_value.specs.Printing.{written};
ghost use Rattle.py_value.specs.ValueView.{plain_of};
ghost use Rattle.py_format.specs.Percent.Values as spec;
ghost use Rattle.py_format.specs.declared.percent.kind.Kind.TheVariants.{Binary};

use crate::percent::values::{byte_in, bytes_of, number_of};
use py_base::{PyError, PyResult};
use py_spec::{CFormatConversion, CFormatSpec, CFormatType, CNumberType};
use py_text::{PyBytes, PyStr};
use py_value::{Host, Value, ascii_of};
use std::alloc::Global;

// The UTF-8 bytes of a text.
fn bytes_of_text(alloc: Global, text: &PyStr) -> PyResult<PyBytes>
    ensures ok { IfOk result (λ made. made ≡ encode_utf8_all text.now) }
    ensures err { IsOkUnless result PyError.NoMemory }
{
    PyBytes::copy_of(alloc, text.as_str().as_bytes())
}

fn number_bytes<H: Host>(
    alloc: Global,
    host: &mut H,
    kind: CNumberType,
    asked: &CFormatSpec,
    value: &Value,
) -> PyResult<PyBytes>
    ensures { Answers (spec.write_number Binary kind asked.now (plain_of value.now))
        (H.seen host.old) (H.seen host.new) result }
{
    let number = number_of(host, kind, asked, value)?;
    let text = asked.format_number(alloc, number)?;
    bytes_of_text(alloc, &text)
}

fn char_bytes(alloc: Global, asked: &CFormatSpec, value: &Value) -> PyResult<PyBytes>
    requires { asked.now.format_type ≡ Character }
    ensures { Meets (spec.write_char Binary asked.now (plain_of value.now)) result }
{
    let byte = byte_in(value)?;
    asked.format_bytes(alloc, &[byte])
}

fn ascii_bytes<H: Host>(alloc: Global, host: &mut H, value: &Value) -> PyResult<PyBytes>
    ensures { Answers (spec.ascii_bytes (plain_of value.now))
        (H.seen host.old) (H.seen host.new) result }
{
    let text = ascii_of(alloc, host, value)?;
    bytes_of_text(alloc, &text)
}

fn string_of<H: Host>(
    alloc: Global,
    host: &mut H,
    kind: CFormatConversion,
    value: &Value,
) -> PyResult<PyBytes>
    ensures { Answers (spec.string_in_bytes kind (plain_of value.now))
        (H.seen host.old) (H.seen host.new) result }
{
    match kind {
        CFormatConversion::Str | CFormatConversion::Bytes => bytes_of(alloc, host, value),
        CFormatConversion::Repr | CFormatConversion::Ascii => ascii_bytes(alloc, host, value),
    }
}

fn string_bytes<H: Host>(
    alloc: Global,
    host: &mut H,
    kind: CFormatConversion,
    asked: &CFormatSpec,
    place: usize,
    value: &Value,
) -> PyResult<PyBytes>
    ensures { Answers (spec.write_string Binary kind asked.now place (plain_of value.now))
        (H.seen host.old) (H.seen host.new) result }
{
    let shown = string_of(alloc, host, kind, value)?;
    asked.format_bytes(alloc, shown.as_bytes())
}

fn value_bytes<H: Host>(
    alloc: Global,
    host: &mut H,
    asked: &CFormatSpec,
    place: usize,
    value: &Value,
) -> PyResult<PyBytes>
    ensures { Answers (spec.write Binary asked.now place (plain_of value.now))
        (H.seen host.old) (H.seen host.new) result }
{
    match asked.format_type {
        CFormatType::Number(kind) => number_bytes(alloc, host, kind, asked, value),
        CFormatType::Character => char_bytes(alloc, asked, value),
        CFormatType::String(kind) => string_bytes(alloc, host, kind, asked, place, value),
    }
}

/// Puts bytes at the end.
pub(crate) fn put_bytes(out: &mut Vec<u8>, more: &[u8]) -> PyResult<()>
    ensures ok { OnOk result (out.new.items ≡ out.old.items ++ more.now) }
    ensures err { IsOkUnless result PyError.NoMemory }
{
    out.extend_from_slice(more)?;
    Ok(())
}

/// Puts a value at the end of bytes.
pub(crate) fn put_value<H: Host>(
    alloc: Global,
    host: &mut H,
    out: &mut Vec<u8>,
    asked: &CFormatSpec,
    place: usize,
    value: &Value,
) -> PyResult<()>
    ensures { Answers (spec.put_value Binary asked.now place (plain_of value.now) out.old.items)
        (H.seen host.old) (H.seen host.new) (written result out.new.items) }
{
    let bytes = value_bytes(alloc, host, asked, place, value)?;
    put_bytes(out, bytes.as_bytes())
}

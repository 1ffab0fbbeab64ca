//! How a specifier of a template of text writes a value.

ghost use Rattle.std.specs.Prelude.{Err};
ghost use Rattle.py_value.specs.Asking.{Answers, Meets};
ghost use Rattle.py_value.specs.Printing.{written};
ghost use Rattle.py_value.specs.ValueView.{plain_of};
ghost use Rattle.py_format.specs.Percent.Values as spec;
ghost use Rattle.py_format.specs.declared.percent.kind.Kind.TheVariants.{Text};

use crate::percent::values::{char_in, number_of};
use py_base::{PercentFault, PyError, PyResult};
use py_spec::{CFormatConversion, CFormatSpec, CFormatType, CNumberType};
use py_text::PyStr;
use py_value::{Host, Value, ascii_of, repr_of, str_of};
use std::alloc::Global;

fn number_text<H: Host>(
    alloc: Global,
    host: &mut H,
    kind: CNumberType,
    asked: &CFormatSpec,
    value: &Value,
) -> PyResult<PyStr>
    ensures { Answers (spec.write_number Text kind asked.now (plain_of value.now))
        (H.seen host.old) (H.seen host.new) result }
{
    let number = number_of(host, kind, asked, value)?;
    asked.format_number(alloc, number)
}

fn char_text(alloc: Global, asked: &CFormatSpec, value: &Value) -> PyResult<PyStr>
    ensures { Meets (spec.write_char Text asked.now (plain_of value.now)) result }
{
    let c = char_in(value)?;
    asked.format_char(alloc, c)
}

// The type `b` of a specifier at a place has no text.
fn no_binary(place: usize) -> PyResult<PyStr>
    ensures { Meets (Err (spec.no_binary place)) result }
{
    match place.checked_add(1) {
        Some(place) => Err(PyError::PercentParse(PercentFault::UnsupportedChar('b'), place)),
        None => Err(PyError::NoMemory),
    }
}

fn string_of<H: Host>(
    alloc: Global,
    host: &mut H,
    kind: CFormatConversion,
    place: usize,
    value: &Value,
) -> PyResult<PyStr>
    ensures { Answers (spec.string_of Text kind place (plain_of value.now))
        (H.seen host.old) (H.seen host.new) result }
{
    match kind {
        CFormatConversion::Str => str_of(alloc, host, value),
        CFormatConversion::Repr => repr_of(alloc, host, value),
        CFormatConversion::Ascii => ascii_of(alloc, host, value),
        CFormatConversion::Bytes => no_binary(place),
    }
}

fn string_text<H: Host>(
    alloc: Global,
    host: &mut H,
    kind: CFormatConversion,
    asked: &CFormatSpec,
    place: usize,
    value: &Value,
) -> PyResult<PyStr>
    ensures { Answers (spec.write_string Text kind asked.now place (plain_of value.now))
        (H.seen host.old) (H.seen host.new) result }
{
    let shown = string_of(alloc, host, kind, place, value)?;
    asked.format_string(alloc, &shown)
}

fn value_text<H: Host>(
    alloc: Global,
    host: &mut H,
    asked: &CFormatSpec,
    place: usize,
    value: &Value,
) -> PyResult<PyStr>
    ensures { Answers (spec.write Text asked.now place (plain_of value.now))
        (H.seen host.old) (H.seen host.new) result }
{
    match asked.format_type {
        CFormatType::Number(kind) => number_text(alloc, host, kind, asked, value),
        CFormatType::Character => char_text(alloc, asked, value),
        CFormatType::String(kind) => string_text(alloc, host, kind, asked, place, value),
    }
}

/// Puts a value at the end of a text.
pub(crate) fn put_value<H: Host>(
    alloc: Global,
    host: &mut H,
    out: &mut PyStr,
    asked: &CFormatSpec,
    place: usize,
    value: &Value,
) -> PyResult<()>
    ensures { Answers (spec.put_value Text asked.now place (plain_of value.now) out.old)
        (H.seen host.old) (H.seen host.new) (written result out.new) }
{
    let text = value_text(alloc, host, asked, place, value)?;
    out.append_text(&text)
}

//! The parts of a template, written one after another.

ghost use Rattle.std.specs.Prelude.{◌≡◌, Ok};
ghost use Rattle.py_spec.specs.declared.percent.parts.CFormatPart.TheVariants.{Spec as spec_part};
ghost use Rattle.py_value.specs.Asking.{Answers, Comes};
ghost use Rattle.py_value.specs.Printing.{written};
ghost use Rattle.py_value.specs.ValueView.{plain_of};
ghost use Rattle.py_format.specs.Percent.Fold as spec;
ghost use Rattle.py_format.specs.Percent.Taking.{values_in};

use crate::percent::kind::Kind;
use crate::percent::output::Output;
use crate::percent::taking::{Remaining, settled};
use py_base::{PercentCause, PyError, PyResult};
use py_spec::{CFormatPart, CFormatSpec};
use py_value::{Host, Value, ValueList};
use std::alloc::Global;

/// Whether a value serves as a mapping.
pub(crate) fn is_mapping<H: Host>(host: &H, kind: Kind, value: &Value) -> bool
    ensures { Comes (H.seen host.now) (H.seen host.now)
        (spec.is_mapping kind (plain_of value.now)) (Ok result) }
{
    match value {
        Value::List(_) | Value::Dict(_) => true,
        Value::Handle(handle) => host.has_getitem(*handle),
        Value::Bytes(_) => !kind.is_binary(),
        Value::Str(_) => kind.is_binary(),
        _ => false,
    }
}

// Puts what a specifier writes at the end: it takes its `*` width, its `*` precision and its value.
fn put_next<H: Host, O: Output>(
    alloc: Global,
    host: &mut H,
    out: &mut O,
    left: &mut Remaining<'_>,
    asked: &CFormatSpec,
    place: usize,
) -> PyResult<()>
    ensures { Answers (spec.put_next O.kind asked.now place left.old (O.units out.old))
        (H.seen host.old) (H.seen host.new) (spec.both result (O.units out.new) left.new) }
{
    let width = left.take_width(asked.flags, asked.min_field_width)?;
    let precision = left.take_precision(asked.precision)?;
    let value = left.next_value()?;
    let settled = settled(asked, width, precision);
    out.put_value(alloc, host, &settled, place, value)
}

// Puts a part at the end.
fn put_part<H: Host, O: Output>(
    alloc: Global,
    host: &mut H,
    out: &mut O,
    left: &mut Remaining<'_>,
    place: usize,
    part: &CFormatPart,
) -> PyResult<()>
    ensures { Answers (spec.put_part O.kind place part.now left.old (O.units out.old))
        (H.seen host.old) (H.seen host.new) (spec.both result (O.units out.new) left.new) }
{
    match part {
        CFormatPart::Spec(asked) => put_next(alloc, host, out, left, asked, place),
        CFormatPart::Literal(_) => out.put_literal(part),
        CFormatPart::LiteralBytes(_) => out.put_literal(part),
    }
}

// That no value is left, unless the values are a mapping.
fn ended(kind: Kind, mapping: bool, left: &Remaining<'_>) -> PyResult<()>
    ensures { result ≡ spec.none_left kind mapping left.now }
{
    if left.is_empty() {
        return Ok(());
    }
    if mapping {
        return Ok(());
    }
    Err(PyError::PercentArgs(PercentCause::LeftOver(kind.is_binary())))
}

// Puts parts without keys at the end.
fn put_parts<H: Host, O: Output>(
    alloc: Global,
    host: &mut H,
    out: &mut O,
    mapping: bool,
    parts: &[(usize, CFormatPart)],
    left: &mut Remaining<'_>,
) -> PyResult<()>
    ensures { Answers (spec.put_parts O.kind mapping parts.now left.old (O.units out.old))
        (H.seen host.old) (H.seen host.new) (written result (O.units out.new)) }
{
    for entry in parts {
        put_part(alloc, host, out, left, entry.0, &entry.1)?;
    }
    ended(out.template_kind(), mapping, left)
}

/// Puts parts without keys at the end, by the values of a tuple or by one value.
pub(crate) fn put_bare<H: Host, O: Output>(
    alloc: Global,
    host: &mut H,
    out: &mut O,
    mapping: bool,
    parts: &[(usize, CFormatPart)],
    values: &Value,
) -> PyResult<()>
    ensures { Answers (spec.put_parts O.kind mapping parts.now
        (values_in (plain_of values.now)) (O.units out.old))
        (H.seen host.old) (H.seen host.new) (written result (O.units out.new)) }
{
    match values {
        Value::Tuple(list) => {
            let mut left = Remaining::of_list(list);
            put_parts(alloc, host, out, mapping, parts, &mut left)
        }
        _ => {
            let none = ValueList::new(alloc);
            let mut left = Remaining::of_one(values, &none);
            put_parts(alloc, host, out, mapping, parts, &mut left)
        }
    }
}

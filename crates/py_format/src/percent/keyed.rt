//! Parts with keys, and the choice between those with keys and those without.

ghost use Rattle.std.specs.Prelude.{◌≡◌};
ghost use Rattle.py_spec.specs.Percent.Specifiers.{specifiers_of};
ghost use Rattle.py_value.specs.Asking.{Answers, Meets};
ghost use Rattle.py_value.specs.Printing.{written};
ghost use Rattle.py_value.specs.ValueView.{plain_of, plainly};
ghost use Rattle.py_format.specs.Percent.Fold as spec;

use crate::percent::fold::{is_mapping, put_bare};
use crate::percent::output::Output;
use py_base::{PercentCause, PyError, PyResult};
use py_spec::{CFormatKey, CFormatPart, CFormatPrecision, CFormatQuantity, CFormatSpec};
use py_value::{Host, Value, get_item};
use std::alloc::Global;

// Whether a width or a precision is a `*`.
fn has_star(asked: &CFormatSpec) -> bool
    ensures { result ≡ spec.has_star asked.now }
{
    match asked.min_field_width {
        Some(CFormatQuantity::FromValuesTuple) => true,
        _ => match asked.precision {
            Some(CFormatPrecision::Quantity(CFormatQuantity::FromValuesTuple)) => true,
            _ => false,
        },
    }
}

// A key as a value.
fn key_value(alloc: Global, key: &Option<CFormatKey>) -> PyResult<Value>
    ensures { Meets (Ok (spec.key_value key.now)) (plainly result) }
{
    match key {
        None => Ok(Value::None),
        Some(CFormatKey::Text(text)) => Ok(Value::Str(text.try_clone(alloc)?)),
        Some(CFormatKey::Bytes(bytes)) => Ok(Value::Bytes(bytes.try_clone(alloc)?)),
    }
}

// Puts what a specifier writes of the value of its key.
fn put_keyed<H: Host, O: Output>(
    alloc: Global,
    host: &mut H,
    out: &mut O,
    values: &Value,
    asked: &CFormatSpec,
    place: usize,
) -> PyResult<()>
    ensures { Answers (spec.put_keyed O.kind asked.now place (plain_of values.now)
        (O.units out.old))
        (H.seen host.old) (H.seen host.new) (written result (O.units out.new)) }
{
    if has_star(asked) {
        return Err(PyError::PercentArgs(PercentCause::StarNotInt));
    }
    let key = key_value(alloc, &asked.mapping_key)?;
    let value = get_item(alloc, host, values, &key)?;
    out.put_value(alloc, host, asked, place, &value)
}

// Puts a part with a key, or a literal, at the end.
fn put_keyed_part<H: Host, O: Output>(
    alloc: Global,
    host: &mut H,
    out: &mut O,
    values: &Value,
    place: usize,
    part: &CFormatPart,
) -> PyResult<()>
    ensures { Answers (spec.put_keyed_part O.kind place part.now (plain_of values.now)
        (O.units out.old))
        (H.seen host.old) (H.seen host.new) (written result (O.units out.new)) }
{
    match part {
        CFormatPart::Spec(asked) => put_keyed(alloc, host, out, values, asked, place),
        CFormatPart::Literal(_) => out.put_literal(part),
        CFormatPart::LiteralBytes(_) => out.put_literal(part),
    }
}

// Puts parts with keys at the end.
fn put_keyed_parts<H: Host, O: Output>(
    alloc: Global,
    host: &mut H,
    out: &mut O,
    parts: &[(usize, CFormatPart)],
    values: &Value,
) -> PyResult<()>
    ensures { Answers (spec.put_keyed_parts O.kind parts.now (plain_of values.now)
        (O.units out.old))
        (H.seen host.old) (H.seen host.new) (written result (O.units out.new)) }
{
    for entry in parts {
        put_keyed_part(alloc, host, out, values, entry.0, &entry.1)?;
    }
    Ok(())
}

/// Puts the parts of a template at the end, of which all specifiers have keys or none has.
pub(crate) fn put_all<H: Host, O: Output>(
    alloc: Global,
    host: &mut H,
    out: &mut O,
    parts: &[(usize, CFormatPart)],
    specifiers: Option<(usize, bool)>,
    values: &Value,
) -> PyResult<()>
    requires { specifiers ≡ specifiers_of parts.now }
    ensures { Answers (spec.put_all O.kind parts.now (plain_of values.now) (O.units out.old))
        (H.seen host.old) (H.seen host.new) (written result (O.units out.new)) }
{
    let mapping = is_mapping(host, out.template_kind(), values);
    match specifiers {
        Some((_, false)) => put_bare(alloc, host, out, mapping, parts, values),
        Some((_, true)) => {
            if mapping {
                put_keyed_parts(alloc, host, out, parts, values)
            } else {
                Err(PyError::PercentArgs(PercentCause::NeedsMapping))
            }
        }
        None => Err(PyError::PercentArgs(PercentCause::NeedsMapping)),
    }
}

//! Percent formatting.

ghost use Rattle.std.specs.Prelude.{ℕ, List};
ghost use Rattle.py_value.specs.Asking.{Answers};
ghost use Rattle.py_value.specs.ValueView.{plain_of};
ghost use Rattle.py_format.specs.Percent.Fold.{percent};
ghost use Rattle.py_format.specs.declared.percent.kind.Kind.TheVariants.{Text, Binary};

mod binary;
mod fold;
mod keyed;
pub mod kind;
mod output;
mod taking;
mod texts;
mod values;

use keyed::put_all;
use py_base::PyResult;
use py_spec::{CFormatBytes, CFormatString};
use py_text::{PyBytes, PyStr};
use py_value::{Host, Value};
use std::alloc::Global;

/// `format_string % values_obj`. (Python Library Reference, printf-style String Formatting.)
///
/// # Errors
///
/// The first fault of the template from the left, before any value is taken. Then `NeedsMapping`
/// where a part has a key and another none, or the values are no mapping; then the first error of
/// the parts, in their order; and at the end `LeftOver` where a value was not taken.
pub fn cformat_string<H: Host>(
    alloc: Global,
    host: &mut H,
    format_string: &PyStr,
    values_obj: &Value,
) -> PyResult<PyStr>
    ensures { Answers (percent Text format_string.now (plain_of values_obj.now))
        (H.seen host.old) (H.seen host.new) result }
{
    let format = CFormatString::parse(alloc, format_string)?;
    let mut out = PyStr::with_capacity(alloc, format_string.byte_len())?;
    let specifiers = format.check_specifiers();
    put_all(
        alloc,
        host,
        &mut out,
        format.parts(),
        specifiers,
        values_obj,
    )?;
    Ok(out)
}

/// `format_string % values_obj` of bytes. (Python Library Reference, printf-style Bytes
/// Formatting.)
///
/// # Errors
///
/// The first fault of the template from the left, before any value is taken. Then `NeedsMapping`
/// where a part has a key and another none, or the values are no mapping; then the first error of
/// the parts, in their order; and at the end `LeftOver` where a value was not taken.
pub fn cformat_bytes<H: Host>(
    alloc: Global,
    host: &mut H,
    format_string: &[u8],
    values_obj: &Value,
) -> PyResult<PyBytes>
    ensures { Answers (percent Binary format_string.now (plain_of values_obj.now))
        (H.seen host.old) (H.seen host.new) result }
{
    let format = CFormatBytes::parse_from_bytes(alloc, format_string)?;
    let mut out = Vec::with_capacity(alloc, format_string.len())?;
    let specifiers = format.check_specifiers();
    put_all(
        alloc,
        host,
        &mut out,
        format.parts(),
        specifiers,
        values_obj,
    )?;
    Ok(PyBytes::from(out))
}

/// The methods of Python's `str` that fill templates.
pub trait StrFormats {
    /// The code points of the template.
    ghost points: { Self → List ℕ };

    /// `self % values`. (Python Library Reference, printf-style String Formatting.)
    ///
    /// # Errors
    ///
    /// Those of `cformat_string`.
    fn modulo<H: Host>(&self, alloc: Global, host: &mut H, values: &Value) -> PyResult<PyStr>
        ensures { Answers (percent Text (points self.now) (plain_of values.now))
            (H.seen host.old) (H.seen host.new) result };
}

impl StrFormats for PyStr {
    ghost points = { λ shown. shown };

    fn modulo<H: Host>(&self, alloc: Global, host: &mut H, values: &Value) -> PyResult<PyStr> {
        cformat_string(alloc, host, self, values)
    }
}

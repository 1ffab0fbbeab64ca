//! How values are printed: `str`, `repr` and `ascii` of "Built-in Functions" of the Python Library
//! Reference.

ghost use Rattle.std.specs.Prelude.{◌≡◌, [], true, nat_le, Err};
ghost use Rattle.py_value.specs.Asking.{Answers, silent};
ghost use Rattle.py_value.specs.Plain.{handle as handle_of, depth};
ghost use Rattle.py_value.specs.Printing as spec;
ghost use Rattle.py_value.specs.ValueView.{plain_of};

mod escapes;
mod parts;
mod values;

use crate::host::{Host, HostAnswer};
use crate::value::Value;
use escapes::escaped;
use py_base::{ClassName, PyError, PyResult};
use py_text::PyStr;
use std::alloc::Global;
use values::put_handle;

// How deep values may be inside one another where they are printed.
const GREATEST_DEPTH: usize = 200;

/// `repr(obj)`.
///
/// # Errors
///
/// `TooDeep` where values are inside one another more than 200 deep, before the host is asked.
pub fn repr_of<H: Host>(alloc: Global, host: &mut H, obj: &Value) -> PyResult<PyStr>
    ensures answers { Answers (spec.repr_of (plain_of obj.now))
        (H.seen host.old) (H.seen host.new) result }
    ensures quiet { silent (spec.repr_of (plain_of obj.now)) ≡ true → host.new ≡ host.old }
    ensures free { result ≡ Err PyError.NoMemory
        → nat_le (depth (plain_of obj.now)) spec.greatest_depth ≡ true }
{
    if !obj.fits_depth(GREATEST_DEPTH) {
        return Err(PyError::TooDeep);
    }
    let mut out = PyStr::new(alloc);
    obj.put_repr(alloc, host, &mut out)?;
    Ok(out)
}

// The text that a host answered, moved.
fn answered_text(answer: Value) -> PyResult<PyStr>
    ensures { result ≡ spec.text_after [] (plain_of answer) }
{
    match answer {
        Value::Str(text) => Ok(text),
        other => Err(PyError::Downcast(ClassName::Str, other.class())),
    }
}

fn handle_repr<H: Host>(alloc: Global, host: &mut H, handle: u64) -> PyResult<PyStr>
    ensures { Answers (spec.put_repr (handle_of handle) [])
        (H.seen host.old) (H.seen host.new) result }
{
    let mut out = PyStr::new(alloc);
    put_handle(alloc, host, &mut out, handle)?;
    Ok(out)
}

// The text of a handle; one that has none is printed by its repr.
fn handle_text<H: Host>(alloc: Global, host: &mut H, handle: u64) -> PyResult<PyStr>
    ensures { Answers (spec.text_of (handle_of handle)) (H.seen host.old) (H.seen host.new) result }
{
    match host.str_of(handle) {
        Ok(Some(answer)) => answered_text(answer),
        Ok(None) => handle_repr(alloc, host, handle),
        Err(HostAnswer::Failed) => Err(PyError::HostFault),
        Err(HostAnswer::NoMemory) => Err(PyError::NoMemory),
    }
}

/// `str(obj)`.
///
/// # Errors
///
/// `TooDeep` where values are inside one another more than 200 deep, before the host is asked.
pub fn str_of<H: Host>(alloc: Global, host: &mut H, obj: &Value) -> PyResult<PyStr>
    ensures answers { Answers (spec.str_of (plain_of obj.now))
        (H.seen host.old) (H.seen host.new) result }
    ensures quiet { silent (spec.str_of (plain_of obj.now)) ≡ true → host.new ≡ host.old }
    ensures free { result ≡ Err PyError.NoMemory
        → nat_le (depth (plain_of obj.now)) spec.greatest_depth ≡ true }
{
    match obj {
        Value::Str(text) => Ok(text.try_clone(alloc)?),
        Value::Handle(handle) => handle_text(alloc, host, *handle),
        _ => repr_of(alloc, host, obj),
    }
}

/// `ascii(obj)`.
///
/// # Errors
///
/// `TooDeep` where values are inside one another more than 200 deep, before the host is asked.
pub fn ascii_of<H: Host>(alloc: Global, host: &mut H, obj: &Value) -> PyResult<PyStr>
    ensures answers { Answers (spec.ascii_of (plain_of obj.now))
        (H.seen host.old) (H.seen host.new) result }
    ensures quiet { silent (spec.ascii_of (plain_of obj.now)) ≡ true → host.new ≡ host.old }
    ensures free { result ≡ Err PyError.NoMemory
        → nat_le (depth (plain_of obj.now)) spec.greatest_depth ≡ true }
{
    let text = repr_of(alloc, host, obj)?;
    escaped(alloc, text)
}

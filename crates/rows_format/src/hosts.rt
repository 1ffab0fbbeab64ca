//! Templates that are filled with a handle.

ghost use Rattle.std.specs.Prelude.{◌≡◌, true};
ghost use Rattle.py_value.specs.HostTable.{is_row_key};
ghost use Rattle.py_value.specs.ValueView.{plain_of};

use crate::made::error_of;
use py_base::{ClassName, PercentCause, PyError, PyResult};
use py_format::{cformat_bytes, cformat_string};
use py_int::PyInt;
use py_text::{PyBytes, PyStr};
use py_value::{Host, HostMethod, HostRow, HostTable, NoHost, TableHost, Value};
use std::alloc::Global;

fn push(rows: &mut HostTable, method: HostMethod, key: Value, answer: Value) -> PyResult<()>
    requires { is_row_key (plain_of key) ≡ true }
{
    rows.push(HostRow {
        handle: 7,
        method,
        key,
        answer,
    })
}

// The handle 7 is the number 42, the text `é` and the byte 255, and its item `a` is 5.
fn table(alloc: Global) -> PyResult<HostTable> {
    let mut rows = HostTable::new(alloc);
    let text = Value::Str(PyStr::copy_of(alloc, "\u{e9}")?);
    let bytes = Value::Bytes(PyBytes::copy_of(alloc, b"\xff")?);
    push(
        &mut rows,
        HostMethod::ToInt,
        Value::None,
        Value::Int(PyInt::from(42)),
    )?;
    push(&mut rows, HostMethod::StrOf, Value::None, text)?;
    push(&mut rows, HostMethod::ToBytes, Value::None, bytes)?;
    push_item(alloc, &mut rows)?;
    Ok(rows)
}

fn push_item(alloc: Global, rows: &mut HostTable) -> PyResult<()> {
    let key = Value::Str(PyStr::copy_of(alloc, "a")?);
    push(rows, HostMethod::GetItem, key, Value::Int(PyInt::from(5)))
}

// The template, filled with the handle 7.
fn filled<H: Host>(alloc: Global, host: &mut H, template: &str) -> PyResult<PyStr> {
    let template = PyStr::copy_of(alloc, template)?;
    cformat_string(alloc, host, &template, &Value::Handle(7))
}

#[test]
fn a_handle(rt: HostRuntime) -> PyResult<()> {
    let alloc = rt.alloc();
    let mut host = TableHost::new(alloc, table(alloc)?, Vec::new(alloc));
    for (template, is) in [("%d", "42"), ("%3s|", "  \u{e9}|"), ("%(a)03d", "005")] {
        let made = filled(alloc, &mut host, template)?;
        assert_eq!(rt; made.as_str(), is);
    }
    let made = cformat_bytes(alloc, &mut host, b"%2b|", &Value::Handle(7))?;
    assert_eq!(rt; made.as_bytes(), b" \xff|".as_slice());
    Ok(())
}

#[test]
fn a_handle_of_no_host(rt: HostRuntime) -> PyResult<()> {
    let alloc = rt.alloc();
    for (template, cause) in [
        ("%d", PercentCause::NumberRequired('d', ClassName::Object)),
        ("%x", PercentCause::IntegerRequired('x', ClassName::Object)),
        ("%c", PercentCause::CharRequired(false)),
        ("%(a)d", PercentCause::NeedsMapping),
    ] {
        let found = error_of(filled(alloc, &mut NoHost, template));
        assert_eq!(rt; found, Some(PyError::PercentArgs(cause)));
    }
    Ok(())
}

#[test]
fn a_host_that_fails(rt: HostRuntime) -> PyResult<()> {
    let alloc = rt.alloc();
    let mut fails = Vec::new(alloc);
    fails.push(1)?;
    let mut host = TableHost::new(alloc, table(alloc)?, fails);
    let found = error_of(filled(alloc, &mut host, "%d"));
    assert_eq!(rt; found, Some(PyError::HostFault));
    let made = filled(alloc, &mut host, "%d")?;
    assert_eq!(rt; made.as_str(), "42");
    Ok(())
}

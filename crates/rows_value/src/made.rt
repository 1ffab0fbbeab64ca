//! Values that the tests make.

ghost use Rattle.std.specs.Prelude.{◌≡◌, true};
ghost use Rattle.py_value.specs.HostTable.{is_row_key};
ghost use Rattle.py_value.specs.ValueView.{plain_of};

use py_base::PyResult;
use py_int::PyInt;
use py_text::{PyBytes, PyStr};
use py_value::{HostMethod, HostRow, HostTable, TableHost, Value, ValueList};
use std::alloc::Global;

pub(crate) fn int(number: i128) -> Value {
    Value::Int(PyInt::from(number))
}

// The integer that a value is, where there is one.
pub(crate) fn integer_of(value: Option<&Value>) -> Option<i128> {
    match value.and_then(Value::as_integer) {
        Some(number) => Some(number.as_i128()),
        None => None,
    }
}

pub(crate) fn text(alloc: Global, text: &str) -> PyResult<Value> {
    Ok(Value::Str(PyStr::copy_of(alloc, text)?))
}

pub(crate) fn bytes(alloc: Global, bytes: &[u8]) -> PyResult<Value> {
    Ok(Value::Bytes(PyBytes::copy_of(alloc, bytes)?))
}

pub(crate) fn list_of_one(alloc: Global, value: Value) -> PyResult<ValueList> {
    let mut list = ValueList::new(alloc);
    list.push(value)?;
    Ok(list)
}

/// A host of one row.
pub(crate) fn host(
    alloc: Global,
    method: HostMethod,
    key: Value,
    answer: Value,
    fails: Vec<u64>,
) -> PyResult<TableHost>
    requires { is_row_key (plain_of key) ≡ true }
{
    let mut rows = HostTable::new(alloc);
    rows.push(HostRow {
        handle: 7,
        method,
        key,
        answer,
    })?;
    Ok(TableHost::new(alloc, rows, fails))
}

//! Values deep inside one another are dropped on a small stack.

use py_base::{ClassName, PyError, PyResult};
use py_int::PyInt;
use py_value::{DictKey, PyDict, Value, ValueList};
use std::alloc::Global;

// A list of the value between two integers.
fn between(alloc: Global, value: Value) -> PyResult<ValueList> {
    let mut list = ValueList::new(alloc);
    list.push(Value::Int(PyInt::from(1)))?;
    list.push(value)?;
    list.push(Value::Int(PyInt::from(2)))?;
    Ok(list)
}

// A dictionary of the value under one key, and another under a second.
fn under_a_key(alloc: Global, value: Value) -> PyResult<PyDict> {
    let mut dict = PyDict::new(alloc);
    dict.set_item(DictKey::Int(PyInt::from(1)), value)?;
    dict.set_item(DictKey::Int(PyInt::from(2)), Value::None)?;
    Ok(dict)
}

// Lists inside lists.
fn lists(alloc: Global, depth: usize) -> PyResult<Value> {
    let mut value = Value::None;
    for _ in 0..depth {
        value = Value::List(between(alloc, value)?);
    }
    Ok(value)
}

// Dictionaries inside tuples inside dictionaries.
fn dictionaries(alloc: Global, depth: usize) -> PyResult<Value> {
    let mut value = Value::None;
    for _ in 0..depth {
        value = Value::Dict(under_a_key(alloc, value)?);
        value = Value::Tuple(between(alloc, value)?);
    }
    Ok(value)
}

#[test]
fn a_million_lists(rt: HostRuntime) -> Result<(), PyError> {
    let value = lists(rt.alloc(), 1_000_000)?;
    assert!(rt; matches!(value.class(), ClassName::List));
    Ok(())
}

#[test]
fn a_million_dictionaries_and_tuples(rt: HostRuntime) -> Result<(), PyError> {
    let value = dictionaries(rt.alloc(), 500_000)?;
    assert!(rt; matches!(value.class(), ClassName::Tuple));
    Ok(())
}

//! Values and templates that the tests make.

use py_base::{PyError, PyResult};
use py_format::{cformat_bytes, cformat_string};
use py_int::PyInt;
use py_text::{PyBytes, PyStr};
use py_value::{DictKey, NoHost, PyDict, Value, ValueList};
use std::alloc::Global;

/// A value without values in it.
#[derive(Clone, Copy)]
pub(crate) enum Item {
    Nothing,
    Yes,
    Int(i128),
    Str(&'static str),
    Bytes(&'static [u8]),
    Empty,
}

/// What a template is filled with.
#[derive(Clone, Copy)]
pub(crate) enum Values<'a> {
    Tuple(&'a [Item]),
    One(Item),
    List(&'a [Item]),
    Map(&'a [(&'static str, Item)]),
    ByteMap(&'a [(&'static [u8], Item)]),
}

fn single(alloc: Global, shown: Item) -> PyResult<Value> {
    match shown {
        Item::Nothing => Ok(Value::None),
        Item::Yes => Ok(Value::Bool(true)),
        Item::Int(number) => Ok(Value::Int(PyInt::from(number))),
        Item::Str(text) => Ok(Value::Str(PyStr::copy_of(alloc, text)?)),
        Item::Bytes(bytes) => Ok(Value::Bytes(PyBytes::copy_of(alloc, bytes)?)),
        Item::Empty => Ok(Value::List(ValueList::new(alloc))),
    }
}

fn items(alloc: Global, shown: &[Item]) -> PyResult<ValueList> {
    let mut list = ValueList::new(alloc);
    for one in shown {
        list.push(single(alloc, *one)?)?;
    }
    Ok(list)
}

fn map(alloc: Global, shown: &[(&'static str, Item)]) -> PyResult<PyDict> {
    let mut dict = PyDict::new(alloc);
    for (key, one) in shown {
        let value = single(alloc, *one)?;
        dict.set_item(DictKey::Str(PyStr::copy_of(alloc, key)?), value)?;
    }
    Ok(dict)
}

fn byte_map(alloc: Global, shown: &[(&'static [u8], Item)]) -> PyResult<PyDict> {
    let mut dict = PyDict::new(alloc);
    for (key, one) in shown {
        let value = single(alloc, *one)?;
        dict.set_item(DictKey::Bytes(PyBytes::copy_of(alloc, key)?), value)?;
    }
    Ok(dict)
}

/// The value.
pub(crate) fn value_of(alloc: Global, shown: Values<'_>) -> PyResult<Value> {
    match shown {
        Values::Tuple(list) => Ok(Value::Tuple(items(alloc, list)?)),
        Values::One(one) => single(alloc, one),
        Values::List(list) => Ok(Value::List(items(alloc, list)?)),
        Values::Map(pairs) => Ok(Value::Dict(map(alloc, pairs)?)),
        Values::ByteMap(pairs) => Ok(Value::Dict(byte_map(alloc, pairs)?)),
    }
}

/// The template of text, filled without a host.
pub(crate) fn filled(alloc: Global, template: &str, shown: Values<'_>) -> PyResult<PyStr> {
    let template = PyStr::copy_of(alloc, template)?;
    let values = value_of(alloc, shown)?;
    cformat_string(alloc, &mut NoHost, &template, &values)
}

/// The template of bytes, filled without a host.
pub(crate) fn filled_bytes(alloc: Global, template: &[u8], shown: Values<'_>) -> PyResult<PyBytes> {
    let values = value_of(alloc, shown)?;
    cformat_bytes(alloc, &mut NoHost, template, &values)
}

/// The error of a call.
pub(crate) fn error_of<T: Drop>(made: PyResult<T>) -> Option<PyError> {
    match made {
        Ok(_) => None,
        Err(error) => Some(error),
    }
}

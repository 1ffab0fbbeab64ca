//! Values that the tests make, and the steps that make them.

use py_base::PyResult;
use py_int::PyInt;
use py_text::{PyBytes, PyStr};
use py_value::{DictKey, PyDict, Value, ValueList};
use std::alloc::Global;

pub(crate) fn int(number: i128) -> Value {
    Value::Int(PyInt::from(number))
}

pub(crate) fn text(alloc: Global, text: &str) -> PyResult<Value> {
    Ok(Value::Str(PyStr::copy_of(alloc, text)?))
}

fn list_of_one(alloc: Global, value: Value) -> PyResult<ValueList> {
    let mut list = ValueList::new(alloc);
    list.push(value)?;
    Ok(list)
}

/// Lists inside one another.
pub(crate) fn nested(alloc: Global, depth: usize) -> PyResult<Value> {
    let mut list = ValueList::new(alloc);
    for _ in 1..depth {
        list = list_of_one(alloc, Value::List(list))?;
    }
    Ok(Value::List(list))
}

/// One step of making a value from those that were made before.
#[derive(Clone, Copy)]
pub(crate) enum Step {
    None,
    Bool(bool),
    Int(i128),
    Str(&'static str),
    /// Bytes, as the characters with their numbers.
    Bytes(&'static str),
    /// So many of the last values, the last one first.
    Tuple(usize),
    List(usize),
    /// So many pairs of the last values, each with the key after its value.
    Dict(usize),
    Handle(u64),
}

fn bytes_of(alloc: Global, text: &str) -> PyResult<Value> {
    let mut bytes = Vec::new(alloc);
    for c in text.chars() {
        if let Ok(byte) = u8::try_from(c as u32) {
            bytes.push(byte)?;
        }
    }
    Ok(Value::Bytes(PyBytes::from(bytes)))
}

fn key_of(value: Value) -> DictKey {
    match value {
        Value::Int(number) => DictKey::Int(number),
        Value::Str(text) => DictKey::Str(text),
        Value::Bytes(bytes) => DictKey::Bytes(bytes),
        _ => DictKey::Int(PyInt::from(0)),
    }
}

fn last(made: &mut Vec<Value>) -> Value {
    match made.pop() {
        Some(value) => value,
        None => Value::None,
    }
}

fn list_of(alloc: Global, made: &mut Vec<Value>, count: usize) -> PyResult<ValueList> {
    let mut list = ValueList::new(alloc);
    for _ in 0..count {
        list.push(last(made))?;
    }
    Ok(list)
}

fn dict_of(alloc: Global, made: &mut Vec<Value>, count: usize) -> PyResult<PyDict> {
    let mut dict = PyDict::new(alloc);
    for _ in 0..count {
        let key = key_of(last(made));
        dict.set_item(key, last(made))?;
    }
    Ok(dict)
}

fn stepped(alloc: Global, made: &mut Vec<Value>, step: Step) -> PyResult<Value> {
    match step {
        Step::None => Ok(Value::None),
        Step::Bool(value) => Ok(Value::Bool(value)),
        Step::Int(number) => Ok(int(number)),
        Step::Str(shown) => text(alloc, shown),
        Step::Bytes(shown) => bytes_of(alloc, shown),
        Step::Tuple(count) => Ok(Value::Tuple(list_of(alloc, made, count)?)),
        Step::List(count) => Ok(Value::List(list_of(alloc, made, count)?)),
        Step::Handle(handle) => Ok(Value::Handle(handle)),
        Step::Dict(count) => Ok(Value::Dict(dict_of(alloc, made, count)?)),
    }
}

/// The value that the steps make last.
pub(crate) fn built(alloc: Global, steps: &[Step]) -> PyResult<Value> {
    let mut made = Vec::new(alloc);
    for step in steps {
        let value = stepped(alloc, &mut made, *step)?;
        made.push(value)?;
    }
    Ok(last(&mut made))
}

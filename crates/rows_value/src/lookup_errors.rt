//! Each error of a look-up, by the class of the value, then by that of the key, then by the place.

use crate::made::{bytes, int, list_of_one, text};
use py_base::{ClassName, KeyName, PyError, PyResult};
use py_text::PyStr;
use py_value::{DictKey, NoHost, PyDict, Value, get_attr, get_item};
use std::alloc::Global;

/// What a look-up failed by.
#[derive(Clone, Copy, Debug, PartialEq, Eq)]
enum Failure {
    Downcast(ClassName, ClassName),
    NotSubscriptable(ClassName),
    NoAttribute(ClassName),
    IndexOutOfRange,
    TupleIndex,
    Key,
    Other,
    None,
}

fn failure_of(found: PyResult<Value>) -> Failure {
    match found {
        Ok(_) => Failure::None,
        Err(PyError::Downcast(wanted, is)) => Failure::Downcast(wanted, is),
        Err(PyError::NotSubscriptable(class)) => Failure::NotSubscriptable(class),
        Err(PyError::NoAttribute(class)) => Failure::NoAttribute(class),
        Err(PyError::IndexOutOfRange) => Failure::IndexOutOfRange,
        Err(PyError::TupleIndex) => Failure::TupleIndex,
        Err(PyError::Key(_)) => Failure::Key,
        Err(_) => Failure::Other,
    }
}

fn failed(alloc: Global, value: &Value, key: &Value) -> Failure {
    failure_of(get_item(alloc, &mut NoHost, value, key))
}

// The dictionary `{1: None}`.
fn one_key(alloc: Global) -> PyResult<Value> {
    let mut dict = PyDict::new(alloc);
    dict.set_item(DictKey::Int(1.into()), Value::None)?;
    Ok(Value::Dict(dict))
}

// A value of a class, with one item where it can have some.
fn value_of(alloc: Global, class: ClassName) -> PyResult<Value> {
    match class {
        ClassName::NoneType => Ok(Value::None),
        ClassName::Bool => Ok(Value::Bool(true)),
        ClassName::Int => Ok(int(1)),
        ClassName::Str => text(alloc, "é"),
        ClassName::Bytes => bytes(alloc, b"a"),
        ClassName::Tuple => Ok(Value::Tuple(list_of_one(alloc, int(1))?)),
        ClassName::List => Ok(Value::List(list_of_one(alloc, int(1))?)),
        ClassName::Dict => one_key(alloc),
        _ => Ok(Value::Handle(1)),
    }
}

#[test]
fn values_without_items(rt: HostRuntime) -> Result<(), PyError> {
    let alloc = rt.alloc();
    for class in [
        ClassName::NoneType,
        ClassName::Bool,
        ClassName::Int,
        ClassName::Object,
    ] {
        let value = value_of(alloc, class)?;
        assert_eq!(rt;
            failed(alloc, &value, &Value::None),
            Failure::NotSubscriptable(class)
        );
    }
    Ok(())
}

#[test]
fn keys_of_another_class(rt: HostRuntime) -> Result<(), PyError> {
    let alloc = rt.alloc();
    for (class, wanted) in [
        (ClassName::Str, ClassName::Int),
        (ClassName::Bytes, ClassName::Int),
        (ClassName::Tuple, ClassName::Int),
        (ClassName::List, ClassName::Int),
        (ClassName::Dict, ClassName::Str),
    ] {
        let value = value_of(alloc, class)?;
        let failure = Failure::Downcast(wanted, ClassName::NoneType);
        assert_eq!(rt; failed(alloc, &value, &Value::None), failure);
    }
    Ok(())
}

#[test]
fn places_that_are_not_there(rt: HostRuntime) -> Result<(), PyError> {
    let alloc = rt.alloc();
    for (class, failure) in [
        (ClassName::Str, Failure::IndexOutOfRange),
        (ClassName::Bytes, Failure::TupleIndex),
        (ClassName::Tuple, Failure::TupleIndex),
        (ClassName::List, Failure::TupleIndex),
        (ClassName::Dict, Failure::Key),
    ] {
        let value = value_of(alloc, class)?;
        assert_eq!(rt; failed(alloc, &value, &int(-2)), failure);
    }
    Ok(())
}

#[test]
fn the_key_that_is_not_there(rt: HostRuntime) -> Result<(), PyError> {
    let alloc = rt.alloc();
    let found = get_item(alloc, &mut NoHost, &one_key(alloc)?, &Value::Bool(false));
    assert!(rt; matches!(found, Err(PyError::Key(KeyName::Int(0)))));
    Ok(())
}

#[test]
fn values_without_attributes(rt: HostRuntime) -> Result<(), PyError> {
    let alloc = rt.alloc();
    let name = PyStr::copy_of(alloc, "a")?;
    for class in [
        ClassName::NoneType,
        ClassName::Str,
        ClassName::Dict,
        ClassName::Object,
    ] {
        let found = get_attr(alloc, &mut NoHost, &value_of(alloc, class)?, &name);
        assert_eq!(rt; failure_of(found), Failure::NoAttribute(class));
    }
    Ok(())
}

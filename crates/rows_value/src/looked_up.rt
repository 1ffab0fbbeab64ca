//! Items and attributes.

ghost use Rattle.std.specs.Prelude.{◌≡◌, true};
ghost use Rattle.py_value.specs.HostTable.{is_row_key};
ghost use Rattle.py_value.specs.ValueView.{plain_of};

use crate::made::{bytes, host, int, integer_of, text};
use py_base::{ClassName, PyError, PyResult};
use py_text::PyStr;
use py_value::{
    DictKey, Host, HostMethod, NoHost, PyDict, TableHost, Value, ValueList, get_attr, get_item,
};
use std::alloc::Global;

/// What a look-up came to.
#[derive(Clone, Copy, Debug, PartialEq, Eq)]
enum Outcome {
    Integer(i128),
    AnotherClass,
    NoPlace,
    NoKey,
    NoItems,
    NoAttribute,
    HostFault,
    Other,
}

fn outcome_of(found: PyResult<Value>) -> Outcome {
    match found {
        Ok(value) => match integer_of(Some(&value)) {
            Some(number) => Outcome::Integer(number),
            None => Outcome::AnotherClass,
        },
        Err(PyError::TupleIndex) => Outcome::NoPlace,
        Err(PyError::Key(_)) => Outcome::NoKey,
        Err(PyError::NotSubscriptable(ClassName::Object)) => Outcome::NoItems,
        Err(PyError::NoAttribute(ClassName::Object)) => Outcome::NoAttribute,
        Err(PyError::HostFault) => Outcome::HostFault,
        Err(_) => Outcome::Other,
    }
}

fn item<H: Host>(alloc: Global, host: &mut H, value: &Value, key: &Value) -> Outcome {
    outcome_of(get_item(alloc, host, value, key))
}

fn attribute<H: Host>(alloc: Global, host: &mut H, name: &PyStr) -> Outcome {
    outcome_of(get_attr(alloc, host, &Value::Handle(7), name))
}

// The list `[1, 2]`.
fn one_and_two(alloc: Global) -> PyResult<Value> {
    let mut list = ValueList::new(alloc);
    for number in [1, 2] {
        list.push(int(number))?;
    }
    Ok(Value::List(list))
}

#[test]
fn of_a_list(rt: HostRuntime) -> Result<(), PyError> {
    let alloc = rt.alloc();
    let list = one_and_two(alloc)?;
    let found = [0, -1, 2].map(|i| item(alloc, &mut NoHost, &list, &int(i)));
    assert_eq!(rt;
        found,
        [Outcome::Integer(1), Outcome::Integer(2), Outcome::NoPlace]
    );
    Ok(())
}

#[test]
fn of_a_text(rt: HostRuntime) -> Result<(), PyError> {
    let alloc = rt.alloc();
    let last = get_item(alloc, &mut NoHost, &text(alloc, "aé")?, &int(-1))?;
    assert!(rt; matches!(&last, Value::Str(text) if text.as_str() == "é"));
    Ok(())
}

#[test]
fn of_bytes(rt: HostRuntime) -> Result<(), PyError> {
    let alloc = rt.alloc();
    let last = item(alloc, &mut NoHost, &bytes(alloc, b"a\xff")?, &int(-1));
    assert_eq!(rt; last, Outcome::Integer(255));
    Ok(())
}

#[test]
fn of_a_dictionary(rt: HostRuntime) -> Result<(), PyError> {
    let alloc = rt.alloc();
    let mut dict = PyDict::new(alloc);
    dict.set_item(DictKey::Int(1.into()), int(5))?;
    let dict = Value::Dict(dict);
    let found = [
        item(alloc, &mut NoHost, &dict, &Value::Bool(true)),
        item(alloc, &mut NoHost, &dict, &int(2)),
    ];
    assert_eq!(rt; found, [Outcome::Integer(5), Outcome::NoKey]);
    Ok(())
}

#[test]
fn of_a_handle(rt: HostRuntime) -> Result<(), PyError> {
    let alloc = rt.alloc();
    let name = PyStr::copy_of(alloc, "a")?;
    let found = [
        attribute(alloc, &mut NoHost, &name),
        item(alloc, &mut NoHost, &Value::Handle(7), &Value::None),
    ];
    assert_eq!(rt; found, [Outcome::NoAttribute, Outcome::NoItems]);
    Ok(())
}

/// Whatever the handle 7 is asked by this method with this key, it answers 5, but in the call that
/// is to fail.
fn five(alloc: Global, method: HostMethod, key: Value, fails: u64) -> PyResult<TableHost>
    requires { is_row_key (plain_of key) ≡ true }
{
    let mut failing = Vec::new(alloc);
    failing.push(fails)?;
    host(alloc, method, key, int(5), failing)
}

#[test]
fn of_a_host_in_memory(rt: HostRuntime) -> Result<(), PyError> {
    let alloc = rt.alloc();
    let mut items = five(alloc, HostMethod::GetItem, Value::Bool(true), 2)?;
    let found = [
        item(alloc, &mut items, &Value::Handle(7), &Value::Bool(true)),
        item(alloc, &mut items, &Value::Handle(7), &Value::Bool(true)),
        item(alloc, &mut items, &Value::Handle(7), &int(1)),
    ];
    assert_eq!(rt;
        found,
        [Outcome::Integer(5), Outcome::HostFault, Outcome::NoKey]
    );
    Ok(())
}

#[test]
fn of_a_host_that_fails(rt: HostRuntime) -> Result<(), PyError> {
    let alloc = rt.alloc();
    let name = PyStr::copy_of(alloc, "a")?;
    let key = Value::Str(PyStr::copy_of(alloc, "a")?);
    let mut named = five(alloc, HostMethod::GetAttr, key, 2)?;
    let found = [
        attribute(alloc, &mut named, &name),
        attribute(alloc, &mut named, &name),
    ];
    assert_eq!(rt; found, [Outcome::Integer(5), Outcome::HostFault]);
    Ok(())
}

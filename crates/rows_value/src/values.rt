//! Lists, dictionaries, and copies of values.

use py_base::{ClassName, PyError, PyResult};
use py_int::PyInt;
use py_text::PyStr;
use py_value::{DictKey, FuncArgs, PyDict, Value, ValueList, value_ref};
use std::alloc::Global;

fn int(number: i128) -> Value {
    Value::Int(PyInt::from(number))
}

// The integer that a value is, or -1 where there is none.
fn number_of(found: Option<&Value>) -> i128 {
    match found.and_then(Value::as_integer) {
        Some(number) => number.as_i128(),
        None => -1,
    }
}

// The integers that the key and the value at a place are, or -1 where there is none.
fn numbers_at(dict: &PyDict, i: usize) -> (i128, i128) {
    match dict.entry(i) {
        Some((DictKey::Int(key), value)) => (key.as_i128(), number_of(Some(value))),
        _ => (-1, -1),
    }
}

// The list `[10, True]`.
fn ten_and_true(alloc: Global) -> PyResult<ValueList> {
    let mut list = ValueList::new(alloc);
    list.push(int(10))?;
    list.push(Value::Bool(true))?;
    Ok(list)
}

// The dictionary `{1: 10, 2: 20}` with 1 put again for 30.
fn put_again(alloc: Global) -> PyResult<PyDict> {
    let mut dict = PyDict::new(alloc);
    for (key, value) in [(1, 10), (2, 20), (1, 30)] {
        dict.set_item(DictKey::Int(PyInt::from(key)), int(value))?;
    }
    Ok(dict)
}

#[test]
fn a_shared_copy(rt: HostRuntime) -> Result<(), PyError> {
    let alloc = rt.alloc();
    let copy = value_ref(alloc, int(5).try_clone(alloc)?)?;
    assert_eq!(rt; number_of(Some(&*copy)), 5);
    Ok(())
}

#[test]
fn a_list(rt: HostRuntime) -> Result<(), PyError> {
    let list = ten_and_true(rt.alloc())?;
    let numbers = [0, 1, 2].map(|i| number_of(list.get(i)));
    assert_eq!(rt; (list.len(), numbers), (2, [10, 1, -1]));
    let copy = Value::Tuple(list).try_clone(rt.alloc())?;
    assert!(rt; matches!(copy.class(), ClassName::Tuple));
    Ok(())
}

#[test]
fn a_key_put_again(rt: HostRuntime) -> Result<(), PyError> {
    let dict = put_again(rt.alloc())?;
    let entries = [0, 1, 2].map(|i| numbers_at(&dict, i));
    assert_eq!(rt; (dict.len(), entries), (2, [(1, 30), (2, 20), (-1, -1)]));
    Ok(())
}

#[test]
fn a_key_of_a_text(rt: HostRuntime) -> Result<(), PyError> {
    let alloc = rt.alloc();
    let mut dict = put_again(alloc)?;
    let key = DictKey::Str(PyStr::copy_of(alloc, "aé")?);
    let before = number_of(dict.get(&key));
    dict.set_item(key.try_clone(alloc)?, int(40))?;
    assert_eq!(rt; [before, number_of(dict.get(&key))], [-1, 40]);
    Ok(())
}

#[test]
fn arguments_of_a_call(rt: HostRuntime) -> Result<(), PyError> {
    let args = FuncArgs {
        args: ten_and_true(rt.alloc())?,
        kwargs: PyDict::new(rt.alloc()),
    };
    assert_eq!(rt; [args.args.len(), args.kwargs.len()], [2, 0]);
    Ok(())
}

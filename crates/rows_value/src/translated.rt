//! Texts that tables change.

use crate::made::{host, int, text};
use py_base::{ClassName, MaketransKind, OptionalArg, PyError, PyResult, TranslateKind};
use py_int::PyInt;
use py_text::PyStr;
use py_value::{DictKey, Host, HostMethod, NoHost, PyDict, StrValues, TableHost, Value, ValueList};
use std::alloc::Global;

/// A dictionary of one key.
fn dict_of_one(alloc: Global, key: DictKey, value: Value) -> PyResult<PyDict> {
    let mut dict = PyDict::new(alloc);
    dict.set_item(key, value)?;
    Ok(dict)
}

fn translated<H: Host>(alloc: Global, host: &mut H, table: &Value, of: &str) -> PyResult<PyStr> {
    PyStr::copy_of(alloc, of)?.translate(alloc, host, table)
}

fn given(alloc: Global, argument: &str) -> PyResult<OptionalArg<PyStr>> {
    Ok(OptionalArg::Present(PyStr::copy_of(alloc, argument)?))
}

fn table_from(alloc: Global, value: Value) -> PyResult<PyDict> {
    let none = OptionalArg::Missing;
    <PyStr as StrValues>::maketrans(alloc, value, OptionalArg::Missing, none)
}

fn key(alloc: Global, key: &str) -> PyResult<DictKey> {
    Ok(DictKey::Str(PyStr::copy_of(alloc, key)?))
}

// The dictionary of a party hat: an `a` is replaced, and so is a `c`, and a `b` is dropped.
fn party_hat(alloc: Global) -> PyResult<PyDict> {
    let mut dict = PyDict::new(alloc);
    for (from, to) in [("a", "🎅"), ("c", "xda")] {
        dict.set_item(key(alloc, from)?, text(alloc, to)?)?;
    }
    dict.set_item(key(alloc, "b")?, Value::None)?;
    Ok(dict)
}

#[test]
fn a_party_hat(rt: HostRuntime) -> Result<(), PyError> {
    let alloc = rt.alloc();
    let table = Value::Dict(table_from(alloc, Value::Dict(party_hat(alloc)?))?);
    let changed = translated(alloc, &mut NoHost, &table, "abc")?;
    assert_eq!(rt; changed.as_str(), "🎅xda");
    Ok(())
}

// The table from `ac` to `xé` without `b`.
fn of_texts(alloc: Global) -> PyResult<PyDict> {
    let to = given(alloc, "xé")?;
    let dropped = given(alloc, "b")?;
    <PyStr as StrValues>::maketrans(alloc, text(alloc, "ac")?, to, dropped)
}

#[test]
fn by_two_texts(rt: HostRuntime) -> Result<(), PyError> {
    let alloc = rt.alloc();
    let table = of_texts(alloc)?;
    let size = table.len();
    let changed = translated(alloc, &mut NoHost, &Value::Dict(table), "abcd")?;
    assert_eq!(rt; (size, changed.as_str()), (3, "xéd"));
    Ok(())
}

// Why there is no table.
fn no_table(made: PyResult<PyDict>) -> Option<MaketransKind> {
    match made {
        Err(PyError::Maketrans(kind)) => Some(kind),
        _ => None,
    }
}

#[test]
fn tables_that_are_refused(rt: HostRuntime) -> Result<(), PyError> {
    let alloc = rt.alloc();
    let long = dict_of_one(alloc, key(alloc, "ab")?, int(1))?;
    let to = given(alloc, "a")?;
    let (two, one) = (text(alloc, "ab")?, given(alloc, "x")?);
    let kinds = [
        no_table(table_from(alloc, Value::Dict(long))),
        no_table(table_from(alloc, int(1))),
        no_table(<PyStr as StrValues>::maketrans(alloc, int(1), to, OptionalArg::Missing)),
        no_table(<PyStr as StrValues>::maketrans(alloc, two, one, OptionalArg::Missing)),
    ];
    let is = [
        MaketransKind::KeyLength,
        MaketransKind::NeedsDict,
        MaketransKind::NeedsString,
        MaketransKind::EqualLength,
    ];
    assert_eq!(rt; kinds, is.map(Some));
    Ok(())
}

/// A host that has an `x` under one code point, and fails in one call.
fn items(alloc: Global, code: i128, fails: u64) -> PyResult<TableHost> {
    let mut failing = Vec::new(alloc);
    failing.push(fails)?;
    let key = Value::Int(PyInt::from(code));
    let answer = text(alloc, "x")?;
    host(alloc, HostMethod::GetItem, key, answer, failing)
}

// The host is asked for one character after the other; where it fails, the character is kept.
#[test]
fn by_a_host(rt: HostRuntime) -> Result<(), PyError> {
    let alloc = rt.alloc();
    for (code, fails, of) in [(98, 3, "ab"), (97, 1, "aa")] {
        let mut host = items(alloc, code, fails)?;
        let changed = translated(alloc, &mut host, &Value::Handle(7), of)?;
        assert_eq!(rt; changed.as_str(), "ax");
    }
    Ok(())
}

// The list `[True, 0x110000, {}]`.
fn three_values(alloc: Global) -> PyResult<Value> {
    let mut list = ValueList::new(alloc);
    list.push(Value::Bool(true))?;
    list.push(int(0x110000))?;
    list.push(Value::Dict(PyDict::new(alloc)))?;
    Ok(Value::List(list))
}

#[test]
fn by_a_list(rt: HostRuntime) -> Result<(), PyError> {
    let alloc = rt.alloc();
    let changed = translated(alloc, &mut NoHost, &three_values(alloc)?, "\0z")?;
    assert_eq!(rt; changed.as_str(), "\u{1}z");
    Ok(())
}

/// Why there is no text.
#[derive(Clone, Copy, Debug, PartialEq, Eq)]
enum Failure {
    Translate(TranslateKind),
    NotSubscriptable(ClassName),
}

fn no_text(alloc: Global, table: &Value, of: &str) -> Option<Failure> {
    match translated(alloc, &mut NoHost, table, of) {
        Err(PyError::Translate(kind)) => Some(Failure::Translate(kind)),
        Err(PyError::NotSubscriptable(class)) => Some(Failure::NotSubscriptable(class)),
        _ => None,
    }
}

#[test]
fn values_that_are_no_characters(rt: HostRuntime) -> Result<(), PyError> {
    let alloc = rt.alloc();
    let table = three_values(alloc)?;
    let failures = [
        no_text(alloc, &table, "\u{1}"),
        no_text(alloc, &table, "\u{2}"),
        no_text(alloc, &int(3), ""),
        no_text(alloc, &Value::Handle(7), ""),
    ];
    let is = [
        Failure::Translate(TranslateKind::Range),
        Failure::Translate(TranslateKind::Kind),
        Failure::NotSubscriptable(ClassName::Int),
        Failure::NotSubscriptable(ClassName::Object),
    ];
    assert_eq!(rt; failures, is.map(Some));
    Ok(())
}

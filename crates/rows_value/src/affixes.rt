//! One character of a text, and texts that begin or end with a value.

use crate::made::{int, text};
use py_base::{ClassName, PyError, PyResult};
use py_text::PyStr;
use py_value::{StrValues, Value, ValueList};
use std::alloc::Global;

/// The tuple `("b", "a", 1)`.
fn affixes(alloc: Global) -> PyResult<Value> {
    let mut made = ValueList::new(alloc);
    for affix in ["b", "a"] {
        made.push(text(alloc, affix)?)?;
    }
    made.push(int(1))?;
    Ok(Value::Tuple(made))
}

/// The error of a call.
#[derive(Clone, Copy, Debug, PartialEq, Eq)]
enum Failure {
    Downcast(ClassName, ClassName),
    IndexOutOfRange,
    Other,
}

fn failure_of(error: PyError) -> Failure {
    match error {
        PyError::Downcast(wanted, is) => Failure::Downcast(wanted, is),
        PyError::IndexOutOfRange => Failure::IndexOutOfRange,
        _ => Failure::Other,
    }
}

#[test]
fn characters(rt: HostRuntime) -> Result<(), PyError> {
    let alloc = rt.alloc();
    let shown = PyStr::copy_of(alloc, "aé")?;
    let indices = [int(1), int(-2), Value::Bool(true)];
    for (index, is) in indices.iter().zip(["é", "a", "é"]) {
        let found = StrValues::getitem(&shown, alloc, index)?;
        assert_eq!(rt; found.as_str(), is);
    }
    Ok(())
}

// Why there is no character.
fn no_character(alloc: Global, shown: &PyStr, index: &Value) -> Option<Failure> {
    match StrValues::getitem(shown, alloc, index) {
        Ok(_) => None,
        Err(error) => Some(failure_of(error)),
    }
}

#[test]
fn characters_that_are_not_there(rt: HostRuntime) -> Result<(), PyError> {
    let alloc = rt.alloc();
    let shown = PyStr::copy_of(alloc, "aé")?;
    let failures = [
        no_character(alloc, &shown, &int(2)),
        no_character(alloc, &shown, &Value::None),
    ];
    let by_class = Failure::Downcast(ClassName::Int, ClassName::NoneType);
    assert_eq!(rt; failures, [Failure::IndexOutOfRange, by_class].map(Some));
    Ok(())
}

fn starts(shown: &PyStr, affix: &Value, start: Option<i128>) -> Result<bool, Failure> {
    match shown.starts_with_value(affix, start, None) {
        Ok(starts) => Ok(starts),
        Err(error) => Err(failure_of(error)),
    }
}

fn ends(shown: &PyStr, affix: &Value, end: Option<i128>) -> Result<bool, Failure> {
    match shown.ends_with_value(affix, None, end) {
        Ok(ends) => Ok(ends),
        Err(error) => Err(failure_of(error)),
    }
}

#[test]
fn at_the_start(rt: HostRuntime) -> Result<(), PyError> {
    let alloc = rt.alloc();
    let shown = PyStr::copy_of(alloc, "ab")?;
    let affixes = affixes(alloc)?;
    let answers = [
        starts(&shown, &affixes, None),
        starts(&shown, &affixes, Some(2)),
        starts(&shown, &int(1), Some(3)),
    ];
    let by_class = Failure::Downcast(ClassName::Str, ClassName::Int);
    assert_eq!(rt; answers, [Ok(true), Err(by_class), Ok(false)]);
    Ok(())
}

#[test]
fn at_the_end(rt: HostRuntime) -> Result<(), PyError> {
    let alloc = rt.alloc();
    let shown = PyStr::copy_of(alloc, "ab")?;
    let affixes = affixes(alloc)?;
    let answers = [
        ends(&shown, &affixes, None),
        ends(&shown, &affixes, Some(1)),
        ends(&shown, &text(alloc, "a")?, None),
        ends(&shown, &int(1), None),
    ];
    let by_class = Failure::Downcast(ClassName::Str, ClassName::Int);
    assert_eq!(rt; answers, [Ok(true), Ok(true), Ok(false), Err(by_class)]);
    Ok(())
}

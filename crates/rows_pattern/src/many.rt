//! Many subjects, whose spans are replaced.

ghost use Rattle.std.specs.Prelude.{◌≡◌, ◌<◌};

use py_base::{ClassName, OptionalArg, PyError, PyResult, Steps};
use py_sre::{PatternSource, substitute_all};
use py_text::PyStr;
use py_value::{Value, ValueList};
use std::alloc::Global;
use std::marker::Brand;
use std::sync::ledger::{Blank, Ledger};

// `b`.
const B: &[u32] = &[16, 98, 1];

fn push_text(alloc: Global, list: &mut ValueList, text: &str) -> PyResult<()> {
    list.push(Value::Str(PyStr::copy_of(alloc, text)?))
}

fn texts(alloc: Global, shown: &[&str]) -> PyResult<ValueList> {
    let mut list = ValueList::new(alloc);
    for text in shown {
        push_text(alloc, &mut list, text)?;
    }
    Ok(list)
}

// Of each subject the first `b` replaced by `xy`, over a new counter of steps.
fn all_by<L: Ledger>(alloc: Global, subjects: &ValueList, blank: Blank) -> PyResult<ValueList>
    requires name { blank.name ≡ L.name }
    requires parts { blank.parts ≡ L.parts }
    requires some { 0 < L.parts }
{
    let mut steps = Steps::<L>::new(blank);
    let list = texts(alloc, &["xy"])?;
    let none = OptionalArg::Missing;
    substitute_all(
        alloc,
        PatternSource::None,
        B,
        0,
        &list,
        subjects,
        1,
        none,
        &mut steps,
    )
}

fn all(alloc: Global, subjects: &ValueList) -> PyResult<ValueList> {
    all_by::<Brand>(alloc, subjects, Blank::new(1))
}

fn text_in(value: Option<&Value>) -> &str {
    match value {
        Some(Value::Str(text)) => text.as_str(),
        _ => "",
    }
}

fn number_in(value: Option<&Value>) -> i128 {
    match value.and_then(Value::as_integer) {
        Some(number) => number.as_i128(),
        None => -1,
    }
}

// The text and the number of a tuple.
fn pair_in(value: Option<&Value>) -> (&str, i128) {
    match value {
        Some(Value::Tuple(pair)) => (text_in(pair.get(0)), number_in(pair.get(1))),
        _ => ("", -1),
    }
}

#[test]
fn each_by_itself(rt: HostRuntime) -> PyResult<()> {
    let alloc = rt.alloc();
    let made = all(alloc, &texts(alloc, &["abb", "c", "", "\u{e9}b"])?)?;
    let pairs = [0, 1, 2, 3].map(|i| pair_in(made.get(i)));
    assert_eq!(rt; pairs, [("axyb", 1), ("c", 0), ("", 0), ("\u{e9}xy", 1)]);
    assert_eq!(rt;
        (made.len(), all(alloc, &ValueList::new(alloc))?.len()),
        (4, 0)
    );
    Ok(())
}

#[test]
fn the_first_of_another_kind(rt: HostRuntime) -> PyResult<()> {
    let alloc = rt.alloc();
    let mut subjects = texts(alloc, &["b"])?;
    subjects.push(Value::Bool(true))?;
    subjects.push(Value::None)?;
    let found = match all(alloc, &subjects) {
        Ok(_) => None,
        Err(error) => Some(error),
    };
    assert_eq!(rt; found, Some(PyError::ExpectedString(ClassName::Bool)));
    Ok(())
}

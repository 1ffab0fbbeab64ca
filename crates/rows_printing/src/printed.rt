//! Printed values.

use crate::made::{Step, built, int, text};
use crate::nested::ROWS;
use py_base::{ClassName, PyError, PyResult};
use py_text::PyStr;
use py_value::{
    Host, HostMethod, HostRow, HostTable, NoHost, TableHost, Value, ValueList, ascii_of, repr_of,
    str_of,
};
use std::alloc::Global;

#[test]
fn as_cpython_prints_them(rt: HostRuntime) -> Result<(), PyError> {
    let alloc = rt.alloc();
    for (steps, repr, ascii) in &ROWS {
        let value = built(alloc, steps)?;
        let printed = [
            repr_of(alloc, &mut NoHost, &value)?,
            str_of(alloc, &mut NoHost, &value)?,
            ascii_of(alloc, &mut NoHost, &value)?,
        ];
        assert_eq!(rt;
            [
                printed[0].as_str(),
                printed[1].as_str(),
                printed[2].as_str()
            ],
            [*repr, *repr, *ascii]
        );
    }
    Ok(())
}

/// The steps that make a value, and its text.
const TEXTS: [([Step; 3], &str); 4] = [
    ([Step::Str("a"), Step::Int(1), Step::Tuple(2)], "(1, 'a')"),
    ([Step::None, Step::None, Step::Str("é'")], "é'"),
    (
        [Step::None, Step::None, Step::Bytes("a\u{ff}")],
        "b'a\\xff'",
    ),
    ([Step::None, Step::None, Step::None], "None"),
];

#[test]
fn texts_and_tuples(rt: HostRuntime) -> Result<(), PyError> {
    let alloc = rt.alloc();
    for (steps, is) in &TEXTS {
        let value = built(alloc, steps)?;
        let printed = str_of(alloc, &mut NoHost, &value)?;
        assert_eq!(rt; printed.as_str(), *is);
    }
    Ok(())
}

/// A host that answers the handle 7 by its repr alone, and fails in some calls.
fn failing(alloc: Global, answer: Value, fails: Vec<u64>) -> PyResult<TableHost> {
    let mut rows = HostTable::new(alloc);
    rows.push(HostRow {
        handle: 7,
        method: HostMethod::ReprOf,
        key: Value::None,
        answer,
    })?;
    Ok(TableHost::new(alloc, rows, fails))
}

/// The same, without a failure.
fn shows(alloc: Global, answer: Value) -> PyResult<TableHost> {
    failing(alloc, answer, Vec::new(alloc))
}

// The text, the repr and the ascii of the handle 7.
fn printed_handle<H: Host>(alloc: Global, host: &mut H) -> PyResult<[PyStr; 3]> {
    let by_str = str_of(alloc, host, &Value::Handle(7))?;
    let by_repr = repr_of(alloc, host, &Value::Handle(7))?;
    let by_ascii = ascii_of(alloc, host, &Value::Handle(7))?;
    Ok([by_str, by_repr, by_ascii])
}

#[test]
fn handles(rt: HostRuntime) -> Result<(), PyError> {
    let alloc = rt.alloc();
    let mut host = shows(alloc, text(alloc, "\u{7f}é")?)?;
    let printed = printed_handle(alloc, &mut host)?;
    for (printed, is) in printed.iter().zip(["\u{7f}é", "\u{7f}é", "\\x7f\\xe9"]) {
        assert_eq!(rt; printed.as_str(), is);
    }
    Ok(())
}

#[test]
fn handles_that_answer_nothing(rt: HostRuntime) -> Result<(), PyError> {
    for printed in &printed_handle(rt.alloc(), &mut NoHost)? {
        assert_eq!(rt; printed.as_str(), "<object 7>");
    }
    Ok(())
}

#[test]
fn handles_that_answer_another_class(rt: HostRuntime) -> Result<(), PyError> {
    let alloc = rt.alloc();
    let mut host = shows(alloc, int(1))?;
    let refused = str_of(alloc, &mut host, &Value::Handle(7));
    assert!(rt;
        matches!(
            refused,
            Err(PyError::Downcast(ClassName::Str, ClassName::Int))
        )
    );
    Ok(())
}

// The list of the handle 7, twice.
fn twice(alloc: Global) -> PyResult<Value> {
    let mut list = ValueList::new(alloc);
    list.push(Value::Handle(7))?;
    list.push(Value::Handle(7))?;
    Ok(Value::List(list))
}

#[test]
fn hosts_that_fail(rt: HostRuntime) -> Result<(), PyError> {
    let alloc = rt.alloc();
    let values = [Value::Handle(7), twice(alloc)?];
    for (value, call) in values.iter().zip([1, 2]) {
        let mut fails = Vec::new(alloc);
        fails.push(call)?;
        let mut host = failing(alloc, text(alloc, "x")?, fails)?;
        let refused = repr_of(alloc, &mut host, value);
        assert!(rt; matches!(refused, Err(PyError::HostFault)));
    }
    Ok(())
}

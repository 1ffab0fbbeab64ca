//! Each method of a host, asked of one in memory and of none.

use py_base::{PyError, PyResult};
use py_int::PyInt;
use py_text::PyStr;
use py_value::{Host, HostAnswer, HostMethod, HostRow, HostTable, NoHost, TableHost, Value};
use std::alloc::Global;

// The integer that a value is, or -1 for another value.
fn integer_of(value: &Value) -> i128 {
    match value.as_integer() {
        Some(number) => number.as_i128(),
        None => -1,
    }
}

// The integer of an answer, -1 where there is none, or -2 where the host failed.
fn number_of(answer: Result<Option<Value>, HostAnswer>) -> i128 {
    match answer {
        Ok(Some(value)) => integer_of(&value),
        Ok(None) => -1,
        Err(_) => -2,
    }
}

// What the handle 7 answers to the methods that have a key, each with the text as the key.
fn with_a_key<H: Host>(host: &mut H, text: &PyStr, key: &Value) -> [i128; 3] {
    [
        number_of(host.get_attr(7, text)),
        number_of(host.get_item(7, key)),
        number_of(host.format_of(7, text)),
    ]
}

// What the handle 7 answers to the methods that make a number, a bool or bytes of it.
fn as_numbers<H: Host>(host: &mut H) -> [i128; 5] {
    [
        number_of(host.to_int(7)),
        number_of(host.to_bytes(7)),
        number_of(host.to_bool(7)),
        number_of(host.len(7)),
        number_of(host.index(7)),
    ]
}

// What the handle 7 answers to the methods that print it.
fn as_texts<H: Host>(host: &mut H) -> [i128; 2] {
    [number_of(host.str_of(7)), number_of(host.repr_of(7))]
}

fn push_row(rows: &mut HostTable, method: HostMethod, answer: i128) -> PyResult<()> {
    rows.push(HostRow {
        handle: 7,
        method,
        key: Value::None,
        answer: Value::Int(PyInt::from(answer)),
    })
}

fn push_text_row(
    alloc: Global,
    rows: &mut HostTable,
    method: HostMethod,
    answer: i128,
) -> PyResult<()> {
    rows.push(HostRow {
        handle: 7,
        method,
        key: Value::Str(PyStr::copy_of(alloc, "a")?),
        answer: Value::Int(PyInt::from(answer)),
    })
}

// The handle 7 answers each method by its number, from 0.
fn numbered(alloc: Global) -> PyResult<HostTable> {
    let mut rows = HostTable::new(alloc);
    for (answer, method) in [
        (0, HostMethod::GetAttr),
        (1, HostMethod::GetItem),
        (9, HostMethod::FormatOf),
    ] {
        push_text_row(alloc, &mut rows, method, answer)?;
    }
    for (answer, method) in [
        (2, HostMethod::ToInt),
        (3, HostMethod::ToBytes),
        (4, HostMethod::ToBool),
        (5, HostMethod::Len),
        (6, HostMethod::Index),
        (7, HostMethod::StrOf),
        (8, HostMethod::ReprOf),
    ] {
        push_row(&mut rows, method, answer)?;
    }
    Ok(rows)
}

#[test]
fn a_host_in_memory(rt: HostRuntime) -> Result<(), PyError> {
    let alloc = rt.alloc();
    let text = PyStr::copy_of(alloc, "a")?;
    let key = Value::Str(text.try_clone(alloc)?);
    let mut host = TableHost::new(alloc, numbered(alloc)?, Vec::new(alloc));
    assert_eq!(rt; with_a_key(&mut host, &text, &key), [0, 1, 9]);
    assert_eq!(rt;
        (as_numbers(&mut host), as_texts(&mut host)),
        ([2, 3, 4, 5, 6], [7, 8])
    );
    Ok(())
}

#[test]
fn calls_that_fail(rt: HostRuntime) -> Result<(), PyError> {
    let alloc = rt.alloc();
    let mut fails = Vec::new(alloc);
    fails.push(2)?;
    fails.push(5)?;
    let mut host = TableHost::new(alloc, numbered(alloc)?, fails);
    assert_eq!(rt; as_numbers(&mut host), [2, -2, 4, 5, -2]);
    assert_eq!(rt; [host.has_getitem(7), host.has_getitem(8)], [true, false]);
    Ok(())
}

#[test]
fn a_host_of_no_handle(rt: HostRuntime) -> Result<(), PyError> {
    let alloc = rt.alloc();
    let text = PyStr::copy_of(alloc, "a")?;
    let asked = with_a_key(&mut NoHost, &text, &Value::None);
    assert_eq!(rt;
        (asked, as_numbers(&mut NoHost), as_texts(&mut NoHost)),
        ([-1; 3], [-1; 5], [-1; 2])
    );
    assert!(rt; !NoHost.has_getitem(7));
    Ok(())
}

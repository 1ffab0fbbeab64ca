//! The first error of a template and its values.

use crate::made::{Item, Values, error_of, filled, filled_bytes};
use py_base::{CarryKind, ClassName, PercentCause, PercentFault, PrimitiveName, PyError, PyResult};

// Templates, values that do not fit, and why.
const CAUSES: [(&str, Values<'static>, PercentCause); 20] = [
    (
        "%d",
        Values::Tuple(&[Item::Int(1), Item::Int(2)]),
        PercentCause::LeftOver(false),
    ),
    (
        "ab",
        Values::One(Item::Int(1)),
        PercentCause::LeftOver(false),
    ),
    (
        "ab",
        Values::One(Item::Str("x")),
        PercentCause::LeftOver(false),
    ),
    (
        "ab",
        Values::Tuple(&[Item::Empty]),
        PercentCause::LeftOver(false),
    ),
    (
        "%d%d",
        Values::Tuple(&[Item::Int(1)]),
        PercentCause::NotEnough,
    ),
    (
        "%*d",
        Values::Tuple(&[Item::Int(1)]),
        PercentCause::NotEnough,
    ),
    ("%*.*b", Values::Tuple(&[]), PercentCause::NotEnough),
    (
        "%*d",
        Values::Tuple(&[Item::Str("x"), Item::Int(1)]),
        PercentCause::StarNotInt,
    ),
    (
        "%*b",
        Values::Tuple(&[Item::Str("a")]),
        PercentCause::StarNotInt,
    ),
    (
        "%*.*d",
        Values::Tuple(&[Item::Str("x"), Item::Int(4294967296)]),
        PercentCause::StarNotInt,
    ),
    (
        "%d%*d",
        Values::Tuple(&[Item::Str("x"), Item::Str("y")]),
        PercentCause::NumberRequired('d', ClassName::Str),
    ),
    (
        "%(a)*d",
        Values::Map(&[("a", Item::Int(1))]),
        PercentCause::StarNotInt,
    ),
    (
        "%(b).*d",
        Values::Map(&[("a", Item::Int(1))]),
        PercentCause::StarNotInt,
    ),
    (
        "%(a)d%d",
        Values::Map(&[("a", Item::Int(1))]),
        PercentCause::NeedsMapping,
    ),
    (
        "%(a)d",
        Values::Tuple(&[Item::Int(1)]),
        PercentCause::NeedsMapping,
    ),
    (
        "%(a)d",
        Values::One(Item::Str("a")),
        PercentCause::NeedsMapping,
    ),
    (
        "%i",
        Values::One(Item::Nothing),
        PercentCause::NumberRequired('i', ClassName::NoneType),
    ),
    (
        "%X",
        Values::Tuple(&[Item::Bytes(b"x")]),
        PercentCause::IntegerRequired('X', ClassName::Bytes),
    ),
    (
        "%c",
        Values::One(Item::Str("ab")),
        PercentCause::CharRequired(false),
    ),
    (
        "%c",
        Values::One(Item::Bytes(b"a")),
        PercentCause::CharRequired(false),
    ),
];

// The same of bytes.
const BYTE_CAUSES: [(&[u8], Values<'static>, PercentCause); 7] = [
    (
        b"%d",
        Values::Tuple(&[Item::Int(1), Item::Int(2)]),
        PercentCause::LeftOver(true),
    ),
    (
        b"ab",
        Values::One(Item::Bytes(b"x")),
        PercentCause::LeftOver(true),
    ),
    (
        b"%s",
        Values::One(Item::Str("x")),
        PercentCause::BytesRequired(ClassName::Str),
    ),
    (
        b"%b",
        Values::One(Item::Int(5)),
        PercentCause::BytesRequired(ClassName::Int),
    ),
    (
        b"%c",
        Values::One(Item::Bytes(b"ab")),
        PercentCause::CharRequired(true),
    ),
    (
        b"%c",
        Values::One(Item::Str("a")),
        PercentCause::CharRequired(true),
    ),
    (b"%(a)d", Values::Tuple(&[]), PercentCause::NeedsMapping),
];

#[test]
fn values_that_do_not_fit(rt: HostRuntime) -> PyResult<()> {
    for (template, values, cause) in CAUSES {
        let found = error_of(filled(rt.alloc(), template, values));
        assert_eq!(rt; found, Some(PyError::PercentArgs(cause)));
    }
    Ok(())
}

#[test]
fn values_that_do_not_fit_bytes(rt: HostRuntime) -> PyResult<()> {
    for (template, values, cause) in BYTE_CAUSES {
        let found = error_of(filled_bytes(rt.alloc(), template, values));
        assert_eq!(rt; found, Some(PyError::PercentArgs(cause)));
    }
    Ok(())
}

#[test]
fn faults_of_the_template(rt: HostRuntime) -> PyResult<()> {
    let alloc = rt.alloc();
    let none = Values::Tuple(&[]);
    let bytes = Values::Tuple(&[Item::Bytes(b"x")]);
    let found = [
        error_of(filled(alloc, "%5", none)),
        error_of(filled(alloc, "%d%f", none)),
        error_of(filled(alloc, "ab%5.1b", bytes)),
    ];
    let is = [
        PyError::PercentParse(PercentFault::IncompleteFormat, 2),
        PyError::NotCarried(CarryKind::Code('f')),
        PyError::PercentParse(PercentFault::UnsupportedChar('b'), 3),
    ];
    assert_eq!(rt; found, is.map(Some));
    Ok(())
}

#[test]
fn numbers_out_of_range(rt: HostRuntime) -> PyResult<()> {
    let alloc = rt.alloc();
    let wide = Values::Tuple(&[Item::Int(2147483648), Item::Str("x")]);
    let found = [
        error_of(filled(alloc, "%*d", wide)),
        error_of(filled(alloc, "%c", Values::One(Item::Int(0x110000)))),
        error_of(filled(alloc, "%c", Values::One(Item::Int(-1)))),
        error_of(filled_bytes(alloc, b"%c", Values::One(Item::Int(256)))),
    ];
    let is = [
        PyError::IntTooLargeFor(PrimitiveName::I32),
        PyError::CharRange(0x110000),
        PyError::CharRange(0x110000),
        PyError::CharRange(256),
    ];
    assert_eq!(rt; found, is.map(Some));
    Ok(())
}

#[test]
fn look_ups_that_fail(rt: HostRuntime) -> PyResult<()> {
    let alloc = rt.alloc();
    let missing = Values::Map(&[("b", Item::Int(3))]);
    let found = [
        error_of(filled(alloc, "%(a)d", missing)),
        error_of(filled(alloc, "%(a)d", Values::List(&[Item::Int(3)]))),
    ];
    let names = found.map(|error| match error {
        Some(error) => error.name(),
        None => "",
    });
    assert_eq!(rt; names, ["key", "downcast"]);
    Ok(())
}

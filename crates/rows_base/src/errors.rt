//! One example of each error: how its class, its name and its text are printed.

mod templates;
mod values;

use py_base::*;
use std::alloc::{AllocError, Global};

// The class, the name and the text of an error.
fn line_of(alloc: Global, error: &PyError) -> Result<String, AllocError> {
    let (kind, name) = (error.kind(), error.name());
    format!(in alloc; "{kind:?} {name}: {error}")
}

// The line of the first row whose error is printed otherwise.
fn not_printed(alloc: Global, rows: &[(PyError, &'static str)]) -> Option<&'static str> {
    for (error, wanted) in rows {
        match line_of(alloc, error) {
            Ok(line) if line.as_str() == *wanted => {}
            _ => return Some(*wanted),
        }
    }
    None
}

// Memory, codes and replacement templates.
const PATTERNS: [(PyError, &str); 10] = [
    (PyError::NoMemory, "MemoryError no_memory: out of memory"),
    (
        PyError::InvalidCode,
        "RuntimeError invalid_code: invalid SRE code",
    ),
    (
        PyError::InvalidTemplate,
        "TypeError invalid_template: invalid template",
    ),
    (
        PyError::ExpectedUsize,
        "TypeError expected_usize: expected usize",
    ),
    (
        PyError::IntTooLargeFor(PrimitiveName::Usize),
        "OverflowError int_too_large_for: Python int too large to convert to Rust usize",
    ),
    (
        PyError::TemplateGroup(7, 3),
        "IndexError template_group: template group 7 is past 3",
    ),
    (
        PyError::TemplatePiece(2, ClassName::NoneType),
        "TypeError template_piece: template item 2 has class NoneType",
    ),
    (
        PyError::ExpectedString(ClassName::Bytes),
        "TypeError expected_string: expected string got 'bytes'",
    ),
    (
        PyError::ExpectedBytes(ClassName::Str),
        "TypeError expected_bytes: a bytes-like object is required, not 'str'",
    ),
    (
        PyError::NoSuchGroup,
        "IndexError no_such_group: no such group",
    ),
];

fn patterns(alloc: Global) -> Option<&'static str> {
    not_printed(alloc, &PATTERNS)
}

// Integers.
const INTEGERS: [(PyError, &str); 10] = [
    (
        PyError::IntTooWide,
        "OverflowError int_too_wide: integer leaves 128 bits",
    ),
    (
        PyError::ZeroDivision(ZeroKind::Division),
        "ZeroDivisionError zero_division: integer division by zero",
    ),
    (
        PyError::ZeroDivision(ZeroKind::Both),
        "ZeroDivisionError zero_division: integer division or modulo by zero",
    ),
    (
        PyError::NegativeShift,
        "ValueError negative_shift: negative shift count",
    ),
    (
        PyError::ModulusZero,
        "ValueError modulus_zero: pow() 3rd argument cannot be 0",
    ),
    (
        PyError::NotInvertible,
        "ValueError not_invertible: base is not invertible for the given modulus",
    ),
    (
        PyError::NegativeToUnsigned,
        "OverflowError negative_to_unsigned: can't convert negative int to unsigned",
    ),
    (
        PyError::IntTooBig,
        "OverflowError int_too_big: int too big to convert",
    ),
    (
        PyError::BadBase,
        "ValueError bad_base: int() base must be >= 2 and <= 36, or 0",
    ),
    (
        PyError::InvalidLiteral(36),
        "ValueError invalid_literal: invalid literal for int() with base 36",
    ),
];

fn integers(alloc: Global) -> Option<&'static str> {
    not_printed(alloc, &INTEGERS)
}

// Texts and classes.
const TEXTS: [(PyError, &str); 7] = [
    (
        PyError::EmptySeparator,
        "ValueError empty_separator: empty separator",
    ),
    (
        PyError::SubstringNotFound,
        "ValueError substring_not_found: substring not found",
    ),
    (
        PyError::IndexOutOfRange,
        "IndexError index_out_of_range: string index out of range",
    ),
    (
        PyError::StepZero,
        "ValueError step_zero: slice step cannot be zero",
    ),
    (
        PyError::FillChar,
        "TypeError fill_char: The fill character must be exactly one character long",
    ),
    (
        PyError::Downcast(ClassName::Bool, ClassName::Int),
        "TypeError downcast: Expected type bool, not int",
    ),
    (
        PyError::Downcast(ClassName::Dict, ClassName::List),
        "TypeError downcast: Expected type 'dict' but 'list' found.",
    ),
];

fn texts(alloc: Global) -> Option<&'static str> {
    not_printed(alloc, &TEXTS)
}

#[test]
fn errors(rt: HostRuntime) {
    let alloc = rt.alloc();
    let others = [
        patterns(alloc),
        integers(alloc),
        texts(alloc),
        templates::percent(alloc),
        templates::brace(alloc),
        values::calls(alloc),
        values::conversions(alloc),
    ];
    assert_eq!(rt; others, [None; 7]);
}

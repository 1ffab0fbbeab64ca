//! Errors of values, hosts and conversions.

use super::not_printed;
use py_base::*;
use std::alloc::Global;

// Translation, look-ups and hosts.
const CALLS: [(PyError, &str); 8] = [
    (
        PyError::Maketrans(MaketransKind::KeyLength),
        "ValueError maketrans: string keys in translate table must be of length 1",
    ),
    (
        PyError::Maketrans(MaketransKind::NeedsString),
        "TypeError maketrans: first maketrans argument must be a string if there is a second argument",
    ),
    (
        PyError::Translate(TranslateKind::Range),
        "ValueError translate: character mapping must be in range(0x110000)",
    ),
    (
        PyError::Translate(TranslateKind::Kind),
        "TypeError translate: character mapping must return integer, None or str",
    ),
    (
        PyError::NotSubscriptable(ClassName::Int),
        "TypeError not_subscriptable: 'int' object is not subscriptable",
    ),
    (PyError::TooDeep, "RuntimeError too_deep: nesting past 200"),
    (PyError::HostFault, "RuntimeError host_fault: host fault"),
    (
        PyError::NotCarried(CarryKind::Code('e')),
        "ValueError not_carried: format code 'e' is not carried",
    ),
];

pub fn calls(alloc: Global) -> Option<&'static str> {
    not_printed(alloc, &CALLS)
}

// Conversions.
const CONVERSIONS: [(PyError, &str); 9] = [
    (
        PyError::UnknownEncoding,
        "LookupError unknown_encoding: unknown encoding",
    ),
    (
        PyError::InvalidUtf8,
        "ValueError invalid_utf8: invalid utf-8",
    ),
    (
        PyError::NoAttribute(ClassName::Tuple),
        "AttributeError no_attribute: 'tuple' object has no such attribute",
    ),
    (
        PyError::BoolType(ClassName::Int),
        "TypeError bool_type: __bool__ should return bool, returned type int",
    ),
    (
        PyError::NegativeLen,
        "ValueError negative_len: __len__() should return >= 0",
    ),
    (
        PyError::NotAnIndex(ClassName::Str),
        "TypeError not_an_index: 'str' object cannot be interpreted as an integer",
    ),
    (
        PyError::IntArgs(IntArgsKind::NonString),
        "TypeError int_args: int() can't convert non-string with explicit base",
    ),
    (
        PyError::Unsupported(ClassName::List),
        "TypeError unsupported: unsupported format string passed to list.__format__",
    ),
    (
        PyError::DurationRange,
        "ValueError duration_range: value out of range",
    ),
];

pub fn conversions(alloc: Global) -> Option<&'static str> {
    not_printed(alloc, &CONVERSIONS)
}

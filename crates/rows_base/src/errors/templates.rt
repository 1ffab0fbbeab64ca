//! Errors of percent and brace templates.

use super::not_printed;
use py_base::*;
use std::alloc::Global;

// Percent templates.
const PERCENT: [(PyError, &str); 7] = [
    (
        PyError::PercentParse(PercentFault::WidthTooBig, 4),
        "ValueError percent_parse: width too big",
    ),
    (
        PyError::PercentParse(PercentFault::UnsupportedChar('é'), 12),
        "ValueError percent_parse: unsupported format character 'é' (0xe9) at index 12",
    ),
    (
        PyError::PercentArgs(PercentCause::NumberRequired('d', ClassName::Str)),
        "TypeError percent_args: %d format: a number is required, not str",
    ),
    (
        PyError::PercentArgs(PercentCause::LeftOver(true)),
        "TypeError percent_args: not all arguments converted during bytes formatting",
    ),
    (
        PyError::PercentArgs(PercentCause::BytesRequired(ClassName::Str)),
        "TypeError percent_args: %b requires a bytes-like object, or an object that implements __bytes__, not 'str'",
    ),
    (
        PyError::CharRange(256),
        "OverflowError char_range: %c arg not in range(256)",
    ),
    (
        PyError::CharRange(1114112),
        "OverflowError char_range: %c arg not in range(0x110000)",
    ),
];

pub fn percent(alloc: Global) -> Option<&'static str> {
    not_printed(alloc, &PERCENT)
}

// Brace templates.
const BRACE: [(PyError, &str); 8] = [
    (
        PyError::FormatParse(FormatParseError::UnmatchedBracket),
        "ValueError format_parse: expected '}' before end of string",
    ),
    (
        PyError::FormatParse(FormatParseError::EmptyAttribute),
        "ValueError format_parse: Unexpected error parsing format string",
    ),
    (
        PyError::FormatSpec(FormatSpecError::UnspecifiedFormat(',', 'x')),
        "ValueError format_spec: Cannot specify ',' with 'x'.",
    ),
    (
        PyError::FormatSpec(FormatSpecError::NotAllowed(NotAllowedPart::Alternate)),
        "ValueError format_spec: Alternate form (#) not allowed with integer format specifier 'c'",
    ),
    (
        PyError::FormatSpec(FormatSpecError::CodeNotInRange),
        "OverflowError format_spec: %c arg not in range(0x110000)",
    ),
    (
        PyError::NumberingSwitch(SwitchKind::ToAuto),
        "ValueError numbering_switch: cannot switch from manual field specification to automatic field numbering",
    ),
    (
        PyError::TupleIndex,
        "IndexError tuple_index: tuple index out of range",
    ),
    (
        PyError::PositionalInMap,
        "ValueError positional_in_map: Format string contains positional fields",
    ),
];

pub fn brace(alloc: Global) -> Option<&'static str> {
    not_printed(alloc, &BRACE)
}

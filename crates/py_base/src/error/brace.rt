//! What is wrong with a brace template or with a format specification.

use crate::error::type_names::ClassName;
use std::fmt;

/// What is wrong with a brace template.
#[derive(Clone, Copy, Debug, PartialEq, Eq)]
pub enum FormatParseError {
    /// A field is not closed.
    UnmatchedBracket,
    /// A `}` closes nothing.
    MissingStartBracket,
    /// A conversion is not one character.
    UnknownConversion,
    /// An attribute or an index of a name is empty.
    EmptyAttribute,
    /// An index of a name is not closed.
    MissingRightBracket,
    /// An index of a name is followed by another character than `.` or `[`.
    InvalidCharacterAfterRightBracket,
}

impl fmt::Display for FormatParseError {
    ghost use Rattle.std.specs.Prelude.{Some};
    ghost use Rattle.py_base.specs.Error.Brace.{brace_fault_text};

    ghost output = { λ fault. Some (brace_fault_text fault) };

    fn fmt<W: fmt::Write>(&self, f: &mut fmt::Formatter<W>) -> fmt::Result {
        match self {
            FormatParseError::UnmatchedBracket => f.write_str("expected '}' before end of string"),
            _ => f.write_str("Unexpected error parsing format string"),
        }
    }
}

/// What an integer formatted as a character may not have. It prints how errors call it.
#[derive(Clone, Copy, Debug, PartialEq, Eq)]
pub enum NotAllowedPart {
    Sign,
    Alternate,
}

impl fmt::Display for NotAllowedPart {
    ghost use Rattle.std.specs.Prelude.{Some};
    ghost use Rattle.py_base.specs.Error.Brace.{not_allowed_text};

    ghost output = { λ part. Some (not_allowed_text part) };

    fn fmt<W: fmt::Write>(&self, f: &mut fmt::Formatter<W>) -> fmt::Result {
        match self {
            NotAllowedPart::Sign => f.write_str("Sign"),
            NotAllowedPart::Alternate => f.write_str("Alternate form (#)"),
        }
    }
}

/// What is wrong with a format specification, or with the value that it is to format.
#[derive(Clone, Copy, Debug, PartialEq, Eq)]
pub enum FormatSpecError {
    /// The width is past 2147483647.
    DecimalDigitsTooMany,
    /// The precision is past 2147483647.
    PrecisionTooBig,
    /// The text is no specification.
    InvalidFormatSpecifier,
    /// A grouping separator is given with a type that takes none.
    UnspecifiedFormat(char, char),
    /// The type does not serve values of the class.
    UnknownFormatCode(char, ClassName),
    PrecisionNotAllowed,
    NotAllowed(NotAllowedPart),
    /// The integer is no character.
    CodeNotInRange,
}

impl fmt::Display for FormatSpecError {
    ghost use Rattle.std.specs.Prelude.{Some};
    ghost use Rattle.py_base.specs.Error.Brace.{spec_fault_text};

    ghost output = { λ fault. Some (spec_fault_text fault) };

    fn fmt<W: fmt::Write>(&self, f: &mut fmt::Formatter<W>) -> fmt::Result {
        match self {
            FormatSpecError::DecimalDigitsTooMany => {
                f.write_str("Too many decimal digits in format string")
            }
            FormatSpecError::PrecisionTooBig => f.write_str("Precision too big"),
            FormatSpecError::InvalidFormatSpecifier => f.write_str("Invalid format specifier"),
            FormatSpecError::UnspecifiedFormat(mark, code) => {
                write!(f, "Cannot specify '{mark}' with '{code}'.")
            }
            FormatSpecError::UnknownFormatCode(code, class) => {
                write!(
                    f,
                    "Unknown format code '{code}' for object of type '{class}'"
                )
            }
            FormatSpecError::PrecisionNotAllowed => {
                f.write_str("Precision not allowed in integer format specifier")
            }
            FormatSpecError::NotAllowed(part) => {
                write!(f, "{part} not allowed with integer format specifier 'c'")
            }
            FormatSpecError::CodeNotInRange => f.write_str("%c arg not in range(0x110000)"),
        }
    }
}

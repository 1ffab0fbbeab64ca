//! What is wrong with a percent template or with its arguments.

use crate::error::type_names::ClassName;
use std::fmt;

/// What is wrong with a percent template.
#[derive(Clone, Copy, Debug, PartialEq, Eq)]
pub enum PercentFault {
    /// A key in parentheses is not closed.
    IncompleteKey,
    /// The template ends inside a specifier.
    IncompleteFormat,
    /// A width or a precision is past 2147483647.
    WidthTooBig,
    /// The character is no type of a specifier.
    UnsupportedChar(char),
}

/// Why the arguments do not fit a percent template. A `bool` is true for a template of bytes.
#[derive(Clone, Copy, Debug, PartialEq, Eq)]
pub enum PercentCause {
    NeedsMapping,
    NotEnough,
    LeftOver(bool),
    StarNotInt,
    NumberRequired(char, ClassName),
    IntegerRequired(char, ClassName),
    CharRequired(bool),
    BytesRequired(ClassName),
}

impl fmt::Display for PercentCause {
    ghost use Rattle.std.specs.Prelude.{Some};
    ghost use Rattle.py_base.specs.Error.Percent.{percent_cause_text};

    ghost output = { λ cause. Some (percent_cause_text cause) };

    fn fmt<W: fmt::Write>(&self, f: &mut fmt::Formatter<W>) -> fmt::Result {
        match self {
            PercentCause::NeedsMapping => f.write_str("format requires a mapping"),
            PercentCause::NotEnough => f.write_str("not enough arguments for format string"),
            PercentCause::LeftOver(true) => {
                f.write_str("not all arguments converted during bytes formatting")
            }
            PercentCause::LeftOver(false) => {
                f.write_str("not all arguments converted during string formatting")
            }
            PercentCause::StarNotInt => f.write_str("* wants int"),
            PercentCause::NumberRequired(c, class) => {
                write!(f, "%{c} format: a number is required, not {class}")
            }
            PercentCause::IntegerRequired(c, class) => {
                write!(f, "%{c} format: an integer is required, not {class}")
            }
            PercentCause::CharRequired(true) => {
                f.write_str("%c requires an integer in range(256) or a single byte")
            }
            PercentCause::CharRequired(false) => f.write_str("%c requires int or char"),
            PercentCause::BytesRequired(class) => {
                f.write_str("%b requires a bytes-like object, ")?;
                write!(f, "or an object that implements __bytes__, not '{class}'")
            }
        }
    }
}

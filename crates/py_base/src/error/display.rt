//! What each error prints.

ghost use Rattle.std.specs.Fmt.{WritesOnOk};
ghost use Rattle.py_base.specs.Error.Percent.{percent_fault_text};

use crate::error::PyError;
use crate::error::percent::PercentFault;
use crate::error::type_names::ClassName;
use std::fmt;

fn write_percent_fault<W: fmt::Write>(
    f: &mut fmt::Formatter<W>,
    fault: PercentFault,
    place: usize,
) -> fmt::Result
    ensures { WritesOnOk W.write_str_gives f.old result (percent_fault_text fault place) f.new }
{
    match fault {
        PercentFault::IncompleteKey => f.write_str("incomplete format key"),
        PercentFault::IncompleteFormat => f.write_str("incomplete format"),
        PercentFault::WidthTooBig => f.write_str("width too big"),
        PercentFault::UnsupportedChar(c) => {
            let code = c as u32;
            write!(
                f,
                "unsupported format character '{c}' (0x{code:x}) at index {place}"
            )
        }
    }
}

impl fmt::Display for PyError {
    ghost use Rattle.std.specs.Prelude.{Some};
    ghost use Rattle.py_base.specs.Error.Display.{error_text};

    ghost output = { λ error. Some (error_text error) };

    fn fmt<W: fmt::Write>(&self, f: &mut fmt::Formatter<W>) -> fmt::Result {
        match self {
            PyError::NoMemory => f.write_str("out of memory"),
            PyError::InvalidCode => f.write_str("invalid SRE code"),
            PyError::InvalidTemplate => f.write_str("invalid template"),
            PyError::ExpectedUsize => f.write_str("expected usize"),
            PyError::IntTooLargeFor(name) => write!(
                f,
                "Python int too large to convert to Rust {name}"
            ),
            PyError::TemplateGroup(number, count) => write!(
                f,
                "template group {number} is past {count}"
            ),
            PyError::TemplatePiece(place, class) => write!(
                f,
                "template item {place} has class {class}"
            ),
            PyError::ExpectedString(class) => write!(f, "expected string got '{class}'"),
            PyError::ExpectedBytes(class) => write!(
                f,
                "a bytes-like object is required, not '{class}'"
            ),
            PyError::NoSuchGroup => f.write_str("no such group"),
            PyError::IntTooWide => f.write_str("integer leaves 128 bits"),
            PyError::ZeroDivision(kind) => write!(f, "{kind}"),
            PyError::NegativeShift => f.write_str("negative shift count"),
            PyError::ModulusZero => f.write_str("pow() 3rd argument cannot be 0"),
            PyError::NotInvertible => f.write_str("base is not invertible for the given modulus"),
            PyError::NegativeToUnsigned => f.write_str("can't convert negative int to unsigned"),
            PyError::IntTooBig => f.write_str("int too big to convert"),
            PyError::BadBase => f.write_str("int() base must be >= 2 and <= 36, or 0"),
            PyError::InvalidLiteral(base) => write!(
                f,
                "invalid literal for int() with base {base}"
            ),
            PyError::EmptySeparator => f.write_str("empty separator"),
            PyError::SubstringNotFound => f.write_str("substring not found"),
            PyError::IndexOutOfRange => f.write_str("string index out of range"),
            PyError::StepZero => f.write_str("slice step cannot be zero"),
            PyError::FillChar => f.write_str(
                "The fill character must be exactly one character long",
            ),
            PyError::Downcast(ClassName::Bool, found) => {
                write!(f, "Expected type bool, not {found}")
            }
            PyError::Downcast(expected, found) => {
                write!(f, "Expected type '{expected}' but '{found}' found.")
            }
            PyError::PercentParse(fault, place) => write_percent_fault(f, *fault, *place),
            PyError::PercentArgs(cause) => write!(f, "{cause}"),
            PyError::CharRange(256) => f.write_str("%c arg not in range(256)"),
            PyError::CharRange(_) => f.write_str("%c arg not in range(0x110000)"),
            PyError::FormatParse(fault) => write!(f, "{fault}"),
            PyError::FormatSpec(fault) => write!(f, "{fault}"),
            PyError::NumberingSwitch(kind) => write!(f, "{kind}"),
            PyError::TupleIndex => f.write_str("tuple index out of range"),
            PyError::Key(key) => write!(f, "{key}"),
            PyError::PositionalInMap => f.write_str("Format string contains positional fields"),
            PyError::Maketrans(kind) => write!(f, "{kind}"),
            PyError::Translate(kind) => write!(f, "{kind}"),
            PyError::NotSubscriptable(class) => write!(f, "'{class}' object is not subscriptable"),
            PyError::TooDeep => f.write_str("nesting past 200"),
            PyError::HostFault => f.write_str("host fault"),
            PyError::NotCarried(kind) => write!(f, "{kind}"),
            PyError::UnknownEncoding => f.write_str("unknown encoding"),
            PyError::InvalidUtf8 => f.write_str("invalid utf-8"),
            PyError::NoAttribute(class) => write!(f, "'{class}' object has no such attribute"),
            PyError::BoolType(class) => write!(
                f,
                "__bool__ should return bool, returned type {class}"
            ),
            PyError::NegativeLen => f.write_str("__len__() should return >= 0"),
            PyError::NotAnIndex(class) => write!(
                f,
                "'{class}' object cannot be interpreted as an integer"
            ),
            PyError::IntArgs(kind) => write!(f, "{kind}"),
            PyError::Unsupported(class) => write!(
                f,
                "unsupported format string passed to {class}.__format__"
            ),
            PyError::DurationRange => f.write_str("value out of range"),
        }
    }
}

//! The Python class of each error.

ghost use Rattle.std.specs.Prelude.{◌≡◌};
ghost use Rattle.py_base.specs.Error.Kinds.{kind_of};

use crate::error::PyError;
use crate::error::brace::FormatSpecError;
use crate::error::causes::{MaketransKind, TranslateKind};

/// The class of an error in Python, by "Built-in Exceptions" of the Python Library Reference.
#[derive(Clone, Copy, Debug, PartialEq, Eq)]
pub enum ErrorKind {
    AttributeError,
    IndexError,
    KeyError,
    LookupError,
    MemoryError,
    OverflowError,
    RuntimeError,
    TypeError,
    ValueError,
    ZeroDivisionError,
}

impl PyError {
    /// The class of the error in Python.
    pub fn kind(&self) -> ErrorKind
        ensures { result ≡ kind_of self.now }
    {
        match self {
            PyError::NoMemory => ErrorKind::MemoryError,
            PyError::InvalidCode => ErrorKind::RuntimeError,
            PyError::InvalidTemplate => ErrorKind::TypeError,
            PyError::ExpectedUsize => ErrorKind::TypeError,
            PyError::IntTooLargeFor(_) => ErrorKind::OverflowError,
            PyError::TemplateGroup(_, _) => ErrorKind::IndexError,
            PyError::TemplatePiece(_, _) => ErrorKind::TypeError,
            PyError::ExpectedString(_) => ErrorKind::TypeError,
            PyError::ExpectedBytes(_) => ErrorKind::TypeError,
            PyError::NoSuchGroup => ErrorKind::IndexError,
            PyError::IntTooWide => ErrorKind::OverflowError,
            PyError::ZeroDivision(_) => ErrorKind::ZeroDivisionError,
            PyError::NegativeShift => ErrorKind::ValueError,
            PyError::ModulusZero => ErrorKind::ValueError,
            PyError::NotInvertible => ErrorKind::ValueError,
            PyError::NegativeToUnsigned => ErrorKind::OverflowError,
            PyError::IntTooBig => ErrorKind::OverflowError,
            PyError::BadBase => ErrorKind::ValueError,
            PyError::InvalidLiteral(_) => ErrorKind::ValueError,
            PyError::EmptySeparator => ErrorKind::ValueError,
            PyError::SubstringNotFound => ErrorKind::ValueError,
            PyError::IndexOutOfRange => ErrorKind::IndexError,
            PyError::StepZero => ErrorKind::ValueError,
            PyError::FillChar => ErrorKind::TypeError,
            PyError::Downcast(_, _) => ErrorKind::TypeError,
            PyError::PercentParse(_, _) => ErrorKind::ValueError,
            PyError::PercentArgs(_) => ErrorKind::TypeError,
            PyError::CharRange(_) => ErrorKind::OverflowError,
            PyError::FormatParse(_) => ErrorKind::ValueError,
            PyError::FormatSpec(FormatSpecError::CodeNotInRange) => ErrorKind::OverflowError,
            PyError::FormatSpec(_) => ErrorKind::ValueError,
            PyError::NumberingSwitch(_) => ErrorKind::ValueError,
            PyError::TupleIndex => ErrorKind::IndexError,
            PyError::Key(_) => ErrorKind::KeyError,
            PyError::PositionalInMap => ErrorKind::ValueError,
            PyError::Maketrans(MaketransKind::NeedsString) => ErrorKind::TypeError,
            PyError::Maketrans(_) => ErrorKind::ValueError,
            PyError::Translate(TranslateKind::Range) => ErrorKind::ValueError,
            PyError::Translate(TranslateKind::Kind) => ErrorKind::TypeError,
            PyError::NotSubscriptable(_) => ErrorKind::TypeError,
            PyError::TooDeep => ErrorKind::RuntimeError,
            PyError::HostFault => ErrorKind::RuntimeError,
            PyError::NotCarried(_) => ErrorKind::ValueError,
            PyError::UnknownEncoding => ErrorKind::LookupError,
            PyError::InvalidUtf8 => ErrorKind::ValueError,
            PyError::NoAttribute(_) => ErrorKind::AttributeError,
            PyError::BoolType(_) => ErrorKind::TypeError,
            PyError::NegativeLen => ErrorKind::ValueError,
            PyError::NotAnIndex(_) => ErrorKind::TypeError,
            PyError::IntArgs(_) => ErrorKind::TypeError,
            PyError::Unsupported(_) => ErrorKind::TypeError,
            PyError::DurationRange => ErrorKind::ValueError,
        }
    }
}

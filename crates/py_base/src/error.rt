//! The errors of all calls.

pub(crate) mod brace;
pub(crate) mod causes;
mod display;
pub(crate) mod key;
pub(crate) mod kinds;
mod names;
pub(crate) mod percent;
pub(crate) mod type_names;

ghost use Rattle.std.specs.Prelude.{◌≡◌};
ghost use Rattle.py_base.specs.declared.error.PyError.TheVariants.{NoMemory};

use crate::error::brace::{FormatParseError, FormatSpecError};
use crate::error::causes::{
    CarryKind, IntArgsKind, MaketransKind, SwitchKind, TranslateKind, ZeroKind,
};
use crate::error::key::KeyName;
use crate::error::percent::{PercentCause, PercentFault};
use crate::error::type_names::{ClassName, PrimitiveName};
use std::alloc::{AllocError, AllocFailed};

/// What a call answers, or the error that it fails with.
pub type PyResult<T> = Result<T, PyError>;

/// Why a call fails. `kind` is its class in Python, it prints the message, and `name` is its name in
/// a program's answer.
#[derive(Debug, Drop, PartialEq, Eq)]
pub enum PyError {
    /// Memory ran out.
    NoMemory,
    /// The words are no code of a regular expression.
    InvalidCode,
    /// A replacement template has no items, or an even number of them.
    InvalidTemplate,
    /// An item in the place of a group number is neither an integer nor a bool.
    ExpectedUsize,
    /// An integer is outside the type.
    IntTooLargeFor(PrimitiveName),
    /// A group number, and the number of groups that it is past.
    TemplateGroup(usize, usize),
    /// The place of an item, from 0, that is not of the pattern's kind, and its class.
    TemplatePiece(usize, ClassName),
    /// A pattern over texts meets a value of this class.
    ExpectedString(ClassName),
    /// A pattern over bytes meets a value of this class.
    ExpectedBytes(ClassName),
    /// The argument names no group.
    NoSuchGroup,
    /// An integer is outside 128 bits.
    IntTooWide,
    /// The divisor is 0.
    ZeroDivision(ZeroKind),
    /// A count of a shift is negative.
    NegativeShift,
    /// The modulus of a power is 0.
    ModulusZero,
    /// The exponent is negative, and the base has no inverse under the modulus.
    NotInvertible,
    /// A negative integer is to become unsigned bytes.
    NegativeToUnsigned,
    /// An integer is outside what the bytes hold.
    IntTooBig,
    /// The base is neither 0 nor from 2 to 36.
    BadBase,
    /// The text is no literal of an integer in this base.
    InvalidLiteral(u32),
    /// The separator is empty.
    EmptySeparator,
    /// A text that has to be there is not.
    SubstringNotFound,
    /// No code point is at the place.
    IndexOutOfRange,
    /// The step of a slice is 0.
    StepZero,
    /// The fill is not one code point.
    FillChar,
    /// The class that is needed, and the one that was found.
    Downcast(ClassName, ClassName),
    /// A fault of a percent template, and its place in code points, or in bytes.
    PercentParse(PercentFault, usize),
    /// The arguments do not fit a percent template.
    PercentArgs(PercentCause),
    /// The integer for `%c` is not below 256 or 1114112, which the field is.
    CharRange(u32),
    /// A fault of a brace template.
    FormatParse(FormatParseError),
    /// A fault of a format specification or of its value.
    FormatSpec(FormatSpecError),
    /// A brace template mixes numbered and automatic fields.
    NumberingSwitch(SwitchKind),
    /// No such place in the arguments, a tuple, a list or bytes.
    TupleIndex,
    /// The key is not there.
    Key(KeyName),
    /// A template of `format_map` has a field without a name.
    PositionalInMap,
    /// The arguments of `maketrans` do not fit.
    Maketrans(MaketransKind),
    /// A value of the table of `translate` does not fit.
    Translate(TranslateKind),
    /// A value of this class has no items.
    NotSubscriptable(ClassName),
    /// A value or a specification is nested past 200 levels.
    TooDeep,
    /// The host failed.
    HostFault,
    /// A part of Python that is left out.
    NotCarried(CarryKind),
    /// The encoding is not UTF-8.
    UnknownEncoding,
    /// The bytes are not UTF-8.
    InvalidUtf8,
    /// A value of this class has no such attribute.
    NoAttribute(ClassName),
    /// `__bool__` answered a value of this class.
    BoolType(ClassName),
    /// `__len__` answered a negative integer.
    NegativeLen,
    /// A value of this class is no integer.
    NotAnIndex(ClassName),
    /// The arguments of `int` do not fit.
    IntArgs(IntArgsKind),
    /// A value of this class has no `__format__` with a specification.
    Unsupported(ClassName),
    /// A duration is outside its type.
    DurationRange,
}

impl std::error::Error for PyError {}

impl From<AllocError> for PyError {
    ghost from_gives = { λ _ error. error ≡ NoMemory };

    fn from(_error: AllocError) -> PyError {
        PyError::NoMemory
    }
}

impl<T: Drop> From<AllocFailed<T>> for PyError {
    ghost from_gives = { λ _ error. error ≡ NoMemory };

    fn from(_error: AllocFailed<T>) -> PyError {
        PyError::NoMemory
    }
}

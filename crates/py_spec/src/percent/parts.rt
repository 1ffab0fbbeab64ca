//! The parts of a percent template.

ghost use Rattle.std.specs.Prelude.{◌≡◌, ⊤, [], ◌∷◌, codes};
ghost use Rattle.py_spec.specs.Percent.Flags.{flag, with_flags};

use bitflags::{Flag, Flags, bitflag_items};
use py_text::{PyBytes, PyStr};

/// A part of a template.
#[derive(Debug, Drop)]
pub enum CFormatPart {
    Literal(PyStr),
    LiteralBytes(PyBytes),
    Spec(CFormatSpec),
}

/// A specifier: how one value is written.
#[derive(Debug, Drop)]
pub struct CFormatSpec {
    pub mapping_key: Option<CFormatKey>,
    pub flags: CConversionFlags,
    pub min_field_width: Option<CFormatQuantity>,
    pub precision: Option<CFormatPrecision>,
    pub format_type: CFormatType,
    pub format_char: char,
}

/// A key in parentheses.
#[derive(Debug, Drop)]
pub enum CFormatKey {
    Text(PyStr),
    Bytes(PyBytes),
}

/// A number, or `*`, which takes it from the values.
#[derive(Clone, Copy, Debug)]
pub enum CFormatQuantity {
    Amount(usize),
    FromValuesTuple,
}

/// What comes after a `.`; where nothing does, the precision is 0.
#[derive(Clone, Copy, Debug)]
pub enum CFormatPrecision {
    Quantity(CFormatQuantity),
    Dot,
}

/// What a specifier writes.
#[derive(Clone, Copy, Debug)]
pub enum CFormatType {
    Number(CNumberType),
    Character,
    String(CFormatConversion),
}

/// How a number is written.
#[derive(Clone, Copy, Debug)]
pub enum CNumberType {
    Decimal,
    Octal,
    Hex,
    HexUpper,
}

/// How a value becomes a text.
#[derive(Clone, Copy, Debug)]
pub enum CFormatConversion {
    Str,
    Repr,
    Ascii,
    Bytes,
}

/// The flags of a specifier.
#[derive(Clone, Copy, PartialEq, Eq, Debug, Drop)]
pub struct CConversionFlags(u8);

impl CConversionFlags {
    /// No flag.
    pub fn none() -> CConversionFlags
        ensures { result ≡ flag 0 }
    {
        CConversionFlags(0)
    }

    /// These flags and others.
    pub fn with(self, others: CConversionFlags) -> CConversionFlags
        ensures { result ≡ with_flags self others }
    {
        CConversionFlags(self.0 | others.0)
    }
}

bitflag_items! {
    impl CConversionFlags: u8 {
        const ALTERNATE_FORM = 1;
        const ZERO_PAD = 2;
        const LEFT_ADJUST = 4;
        const BLANK_SIGN = 8;
        const SIGN_CHAR = 16;
    }
}

impl Flags for CConversionFlags {
    type Bits = u8;

    ghost exact = { ⊤ };

    ghost table = { (codes "ALTERNATE_FORM", 1) ∷ (codes "ZERO_PAD", 2) ∷ (codes "LEFT_ADJUST", 4)
        ∷ (codes "BLANK_SIGN", 8) ∷ (codes "SIGN_CHAR", 16) ∷ [] };

    ghost set_of = { λ flags. flags.0 };

    fn flags<'a>() -> &'a [Flag<CConversionFlags>] {
        CConversionFlags::FLAGS
    }

    fn bits(&self) -> u8 {
        self.0
    }

    fn from_bits_retain(bits: u8) -> CConversionFlags {
        CConversionFlags(bits)
    }
}

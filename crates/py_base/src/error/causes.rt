//! The causes of errors that have more than one.

use std::fmt;

/// Which division has the divisor 0.
#[derive(Clone, Copy, Debug, PartialEq, Eq)]
pub enum ZeroKind {
    Division,
    Modulo,
    Both,
}

impl fmt::Display for ZeroKind {
    ghost use Rattle.std.specs.Prelude.{Some};
    ghost use Rattle.py_base.specs.Error.Causes.{zero_text};

    ghost output = { λ kind. Some (zero_text kind) };

    fn fmt<W: fmt::Write>(&self, f: &mut fmt::Formatter<W>) -> fmt::Result {
        match self {
            ZeroKind::Division => f.write_str("integer division by zero"),
            ZeroKind::Modulo => f.write_str("integer modulo by zero"),
            ZeroKind::Both => f.write_str("integer division or modulo by zero"),
        }
    }
}

/// From which numbering of fields a brace template switches.
#[derive(Clone, Copy, Debug, PartialEq, Eq)]
pub enum SwitchKind {
    ToAuto,
    ToManual,
}

impl fmt::Display for SwitchKind {
    ghost use Rattle.std.specs.Prelude.{Some};
    ghost use Rattle.py_base.specs.Error.Causes.{switch_text};

    ghost output = { λ kind. Some (switch_text kind) };

    fn fmt<W: fmt::Write>(&self, f: &mut fmt::Formatter<W>) -> fmt::Result {
        match self {
            SwitchKind::ToAuto => {
                f.write_str("cannot switch from manual field specification ")?;
                f.write_str("to automatic field numbering")
            }
            SwitchKind::ToManual => {
                f.write_str("cannot switch from automatic field numbering ")?;
                f.write_str("to manual field specification")
            }
        }
    }
}

/// What is wrong with the arguments of `str.maketrans`.
#[derive(Clone, Copy, Debug, PartialEq, Eq)]
pub enum MaketransKind {
    EqualLength,
    KeyLength,
    NeedsDict,
    NeedsString,
}

impl fmt::Display for MaketransKind {
    ghost use Rattle.std.specs.Prelude.{Some};
    ghost use Rattle.py_base.specs.Error.Causes.{maketrans_text};

    ghost output = { λ kind. Some (maketrans_text kind) };

    fn fmt<W: fmt::Write>(&self, f: &mut fmt::Formatter<W>) -> fmt::Result {
        match self {
            MaketransKind::EqualLength => {
                f.write_str("the first two maketrans arguments must have equal length")
            }
            MaketransKind::KeyLength => {
                f.write_str("string keys in translate table must be of length 1")
            }
            MaketransKind::NeedsDict => {
                f.write_str("if you give only one argument to maketrans it must be a dict")
            }
            MaketransKind::NeedsString => {
                f.write_str("first maketrans argument must be a string ")?;
                f.write_str("if there is a second argument")
            }
        }
    }
}

/// What is wrong with a value of the table of `str.translate`.
#[derive(Clone, Copy, Debug, PartialEq, Eq)]
pub enum TranslateKind {
    /// An integer that is no character.
    Range,
    /// A value of another class.
    Kind,
}

impl fmt::Display for TranslateKind {
    ghost use Rattle.std.specs.Prelude.{Some};
    ghost use Rattle.py_base.specs.Error.Causes.{translate_text};

    ghost output = { λ kind. Some (translate_text kind) };

    fn fmt<W: fmt::Write>(&self, f: &mut fmt::Formatter<W>) -> fmt::Result {
        match self {
            TranslateKind::Range => f.write_str("character mapping must be in range(0x110000)"),
            TranslateKind::Kind => {
                f.write_str("character mapping must return integer, None or str")
            }
        }
    }
}

/// What Python has and this does not.
#[derive(Clone, Copy, Debug, PartialEq, Eq)]
pub enum CarryKind {
    /// A format type of floats.
    Code(char),
    /// A power with a negative exponent and no modulus.
    NegativePower,
}

impl fmt::Display for CarryKind {
    ghost use Rattle.std.specs.Prelude.{Some};
    ghost use Rattle.py_base.specs.Error.Causes.{carry_text};

    ghost output = { λ kind. Some (carry_text kind) };

    fn fmt<W: fmt::Write>(&self, f: &mut fmt::Formatter<W>) -> fmt::Result {
        match self {
            CarryKind::Code(code) => write!(f, "format code '{code}' is not carried"),
            CarryKind::NegativePower => f.write_str("negative power is not carried"),
        }
    }
}

/// What is wrong with the arguments of `int`.
#[derive(Clone, Copy, Debug, PartialEq, Eq)]
pub enum IntArgsKind {
    /// A base without a value.
    MissingString,
    /// A base with a value that is no text or bytes.
    NonString,
}

impl fmt::Display for IntArgsKind {
    ghost use Rattle.std.specs.Prelude.{Some};
    ghost use Rattle.py_base.specs.Error.Causes.{int_args_text};

    ghost output = { λ kind. Some (int_args_text kind) };

    fn fmt<W: fmt::Write>(&self, f: &mut fmt::Formatter<W>) -> fmt::Result {
        match self {
            IntArgsKind::MissingString => f.write_str("int() missing string argument"),
            IntArgsKind::NonString => {
                f.write_str("int() can't convert non-string with explicit base")
            }
        }
    }
}

//! The name of each error in a program's answer.

ghost use Rattle.std.specs.Prelude.{◌≡◌};
ghost use Rattle.py_base.specs.Error.Names.{error_name};

use crate::error::PyError;

impl PyError {
    /// The name of the error in a program's answer: the variant in snake case.
    pub fn name(&self) -> &'static str
        ensures { result.now ≡ error_name self.now }
    {
        match self {
            PyError::NoMemory => "no_memory",
            PyError::InvalidCode => "invalid_code",
            PyError::InvalidTemplate => "invalid_template",
            PyError::ExpectedUsize => "expected_usize",
            PyError::IntTooLargeFor(_) => "int_too_large_for",
            PyError::TemplateGroup(_, _) => "template_group",
            PyError::TemplatePiece(_, _) => "template_piece",
            PyError::ExpectedString(_) => "expected_string",
            PyError::ExpectedBytes(_) => "expected_bytes",
            PyError::NoSuchGroup => "no_such_group",
            PyError::IntTooWide => "int_too_wide",
            PyError::ZeroDivision(_) => "zero_division",
            PyError::NegativeShift => "negative_shift",
            PyError::ModulusZero => "modulus_zero",
            PyError::NotInvertible => "not_invertible",
            PyError::NegativeToUnsigned => "negative_to_unsigned",
            PyError::IntTooBig => "int_too_big",
            PyError::BadBase => "bad_base",
            PyError::InvalidLiteral(_) => "invalid_literal",
            PyError::EmptySeparator => "empty_separator",
            PyError::SubstringNotFound => "substring_not_found",
            PyError::IndexOutOfRange => "index_out_of_range",
            PyError::StepZero => "step_zero",
            PyError::FillChar => "fill_char",
            PyError::Downcast(_, _) => "downcast",
            PyError::PercentParse(_, _) => "percent_parse",
            PyError::PercentArgs(_) => "percent_args",
            PyError::CharRange(_) => "char_range",
            PyError::FormatParse(_) => "format_parse",
            PyError::FormatSpec(_) => "format_spec",
            PyError::NumberingSwitch(_) => "numbering_switch",
            PyError::TupleIndex => "tuple_index",
            PyError::Key(_) => "key",
            PyError::PositionalInMap => "positional_in_map",
            PyError::Maketrans(_) => "maketrans",
            PyError::Translate(_) => "translate",
            PyError::NotSubscriptable(_) => "not_subscriptable",
            PyError::TooDeep => "too_deep",
            PyError::HostFault => "host_fault",
            PyError::NotCarried(_) => "not_carried",
            PyError::UnknownEncoding => "unknown_encoding",
            PyError::InvalidUtf8 => "invalid_utf8",
            PyError::NoAttribute(_) => "no_attribute",
            PyError::BoolType(_) => "bool_type",
            PyError::NegativeLen => "negative_len",
            PyError::NotAnIndex(_) => "not_an_index",
            PyError::IntArgs(_) => "int_args",
            PyError::Unsupported(_) => "unsupported",
            PyError::DurationRange => "duration_range",
        }
    }
}

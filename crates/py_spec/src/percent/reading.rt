//! How a specifier of a percent template is read: there is one function for each of its parts.

ghost use Rattle.std.specs.Prelude.{◌≡◌, ◌<◌, ◌+◌, ◌^◌};
ghost use Rattle.py_base.specs.Reading.{find};
ghost use Rattle.py_spec.specs.Percent.Flags.{flag, flags_by_sign, read_flags};
ghost use Rattle.py_spec.specs.Percent.Reading as spec;
ghost use Rattle.py_spec.specs.Percent.Reading.{Meets, with_rest};

use crate::percent::parts::{
    CConversionFlags, CFormatConversion, CFormatKey, CFormatPrecision, CFormatQuantity,
    CFormatSpec, CFormatType, CNumberType,
};
use crate::percent::reader::Reader;
use py_base::{CarryKind, PercentFault, PyError, PyResult};
use py_text::PyStr;
use std::alloc::Global;

// How many parentheses are open after a character of a key; none where it closes the key.
fn open_after(level: usize, c: char) -> Option<usize>
    requires { level + 1 < 2 ^ 64 }
    ensures { result ≡ spec.open_after level c }
{
    match c {
        ')' => { if level == 0 { None } else { Some(level - 1) } }
        '(' => Some(level + 1),
        _ => Some(level),
    }
}

fn flag_of(c: char) -> Option<CConversionFlags>
    ensures { result ≡ find flags_by_sign c }
{
    match c {
        '#' => Some(CConversionFlags::ALTERNATE_FORM),
        '0' => Some(CConversionFlags::ZERO_PAD),
        '-' => Some(CConversionFlags::LEFT_ADJUST),
        ' ' => Some(CConversionFlags::BLANK_SIGN),
        '+' => Some(CConversionFlags::SIGN_CHAR),
        _ => None,
    }
}

fn is_digit(c: char) -> bool
    ensures { result ≡ spec.is_digit c }
{
    matches!(c, '0'..='9')
}

fn precision_of(quantity: Option<CFormatQuantity>) -> CFormatPrecision
    ensures { result ≡ spec.precision_of quantity }
{
    match quantity {
        Some(quantity) => CFormatPrecision::Quantity(quantity),
        None => CFormatPrecision::Dot,
    }
}

fn type_of(c: char) -> Option<CFormatType>
    ensures { result ≡ find spec.types c }
{
    match c {
        'd' | 'i' | 'u' => Some(CFormatType::Number(CNumberType::Decimal)),
        'o' => Some(CFormatType::Number(CNumberType::Octal)),
        'x' => Some(CFormatType::Number(CNumberType::Hex)),
        'X' => Some(CFormatType::Number(CNumberType::HexUpper)),
        'c' => Some(CFormatType::Character),
        's' => Some(CFormatType::String(CFormatConversion::Str)),
        'r' => Some(CFormatType::String(CFormatConversion::Repr)),
        'a' => Some(CFormatType::String(CFormatConversion::Ascii)),
        'b' => Some(CFormatType::String(CFormatConversion::Bytes)),
        _ => None,
    }
}

fn no_type(c: char, place: usize) -> PyError
    ensures { result ≡ spec.no_type c place }
{
    match c {
        'e' | 'E' | 'f' | 'F' | 'g' | 'G' => PyError::NotCarried(CarryKind::Code(c)),
        _ => PyError::PercentParse(PercentFault::UnsupportedChar(c), place),
    }
}

impl<'t> Reader<'t> {
    // The place of what is left in a template of so many characters.
    pub(crate) fn place(&self, whole: usize) -> usize
        ensures { result ≡ spec.place_of whole self.now }
    {
        whole.saturating_sub(self.left())
    }

    // The key after its parenthesis, up to the one that closes it.
    #[tactic(auto, using(crate::proofs::KeyLemmas::key_steps))]
    fn key_text(&mut self, alloc: Global, place: usize) -> PyResult<PyStr>
        ensures { Meets (spec.key_text place self.old) (with_rest result self.new) }
    {
        // No more parentheses are open than a usize counts, since no more characters are left.
        let _most = self.left();
        let mut key = PyStr::new(alloc);
        let mut level = 0;
        'key: while let Some(c) = self.peek() {
            self.skip();
            match open_after(level, c) {
                Some(now) => level = now,
                None => return Ok(key),
            }
            key.append_char(c)?;
        }
        Err(PyError::PercentParse(PercentFault::IncompleteKey, place))
    }

    fn key(&mut self, alloc: Global, whole: usize) -> PyResult<Option<CFormatKey>>
        ensures { Meets (spec.read_key whole self.old) (with_rest result self.new) }
    {
        let place = self.place(whole);
        if self.takes('(') {
            let key = self.key_text(alloc, place)?;
            Ok(Some(CFormatKey::Text(key)))
        } else {
            Ok(None)
        }
    }

    fn flags(&mut self) -> CConversionFlags
        ensures { (result, self.new) ≡ read_flags (flag 0) self.old }
    {
        let mut flags = CConversionFlags::none();
        'flags: while let Some(c) = self.peek() {
            match flag_of(c) {
                Some(flag) => flags = flags.with(flag),
                None => return flags,
            }
            self.skip();
        }
        flags
    }

    // The number that the next digits spell, or none past 2147483647.
    fn digits(&mut self) -> Option<usize>
        ensures { spec.DigitsGive self.old result self.new }
    {
        let mut amount: usize = 0;
        'digits: while let Some(c) = self.peek() {
            if !is_digit(c) {
                return Some(amount);
            }
            self.skip();
            amount = amount * 10 + (c as usize).saturating_sub(48);
            if amount > 2147483647 {
                return None;
            }
        }
        Some(amount)
    }

    fn amount(&mut self, whole: usize) -> PyResult<Option<CFormatQuantity>>
        ensures { Meets (spec.read_amount whole self.old) (with_rest result self.new) }
    {
        let place = self.place(whole);
        match self.digits() {
            Some(amount) => Ok(Some(CFormatQuantity::Amount(amount))),
            None => Err(PyError::PercentParse(PercentFault::WidthTooBig, place)),
        }
    }

    fn quantity(&mut self, whole: usize) -> PyResult<Option<CFormatQuantity>>
        ensures { Meets (spec.read_quantity whole self.old) (with_rest result self.new) }
    {
        match self.peek() {
            Some('*') => {
                self.skip();
                Ok(Some(CFormatQuantity::FromValuesTuple))
            }
            Some('0'..='9') => self.amount(whole),
            _ => Ok(None),
        }
    }

    fn precision(&mut self, whole: usize) -> PyResult<Option<CFormatPrecision>>
        ensures { Meets (spec.read_precision whole self.old) (with_rest result self.new) }
    {
        if self.takes('.') {
            let quantity = self.quantity(whole)?;
            Ok(Some(precision_of(quantity)))
        } else {
            Ok(None)
        }
    }

    // `h`, `l` or `L` changes nothing.
    fn skip_length(&mut self)
        ensures { self.new ≡ spec.skip_length self.old }
    {
        match self.peek() {
            Some('h' | 'l' | 'L') => self.skip(),
            _ => {}
        }
    }

    fn type_and_char(&mut self, whole: usize) -> PyResult<(CFormatType, char)>
        ensures { Meets (spec.read_type whole self.old) (with_rest result self.new) }
    {
        let Some(c) = self.peek() else {
            return Err(PyError::PercentParse(PercentFault::IncompleteFormat, whole));
        };
        match type_of(c) {
            Some(format_type) => {
                self.skip();
                Ok((format_type, c))
            }
            None => Err(no_type(c, self.place(whole))),
        }
    }

    // A specifier after its `%`.
    pub(crate) fn specifier(&mut self, alloc: Global, whole: usize) -> PyResult<CFormatSpec>
        ensures { Meets (spec.read_specifier whole self.old) (with_rest result self.new) }
    {
        let mapping_key = self.key(alloc, whole)?;
        let flags = self.flags();
        let min_field_width = self.quantity(whole)?;
        let precision = self.precision(whole)?;
        self.skip_length();
        let (format_type, format_char) = self.type_and_char(whole)?;
        Ok(CFormatSpec {
            mapping_key,
            flags,
            min_field_width,
            precision,
            format_type,
            format_char,
        })
    }
}

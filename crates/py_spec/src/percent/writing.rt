//! How a specifier writes one value.

ghost use Rattle.std.specs.Prelude.{◌≡◌, ◌∷◌, ◌++◌, [], chars, length, IfOk, OnOk, IsOkUnless};
ghost use Rattle.std.specs.Str.{IsUtf8};
ghost use Rattle.py_spec.specs.Percent.Writing as spec;

use crate::percent::fills::{begun, between, put_run, sides, zero_fill};
use crate::percent::numerals::{ROOM, digits_of, prefix_of, sign_of};
use crate::percent::parts::{
    CFormatPrecision, CFormatQuantity, CFormatSpec, CFormatType, CNumberType,
};
use itoa::Buffer;
use py_base::{PyError, PyResult};
use py_int::PyInt;
use py_text::{PyBytes, PyStr};
use std::alloc::Global;

// Puts the sign and the prefix at the end.
fn put_head(bytes: &mut Vec<u8>, sign: &str, prefix: &str) -> PyResult<()>
    ensures ok { OnOk result (bytes.new.items ≡ bytes.old.items ++ (sign.now ++ prefix.now)) }
    ensures err { IsOkUnless result PyError.NoMemory }
{
    bytes.extend_from_slice(sign.as_bytes())?;
    bytes.extend_from_slice(prefix.as_bytes())?;
    Ok(())
}

// Puts zeros and digits at the end.
fn put_digits(bytes: &mut Vec<u8>, zeros: usize, digits: &[u8]) -> PyResult<()>
    ensures ok { OnOk result (bytes.new.items
        ≡ bytes.old.items ++ (spec.zeros zeros ++ digits.now)) }
    ensures err { IsOkUnless result PyError.NoMemory }
{
    put_run(bytes, b'0', zeros)?;
    bytes.extend_from_slice(digits)?;
    Ok(())
}

// A text of UTF-8 bytes and so many code points.
fn text_of(bytes: Vec<u8>, count: usize) -> PyStr
    requires utf8 { IsUtf8 bytes.items }
    requires count { count ≡ length (chars bytes.items) }
    ensures { result ≡ chars bytes.items }
{
    let text = unsafe { String::from_utf8_unchecked(bytes) };
    PyStr::with_count(text, count)
}

impl CFormatSpec {
    // The width. It is 0 where there is none.
    fn width(&self) -> usize
        ensures { result ≡ spec.width_in self.now.min_field_width }
    {
        match self.min_field_width {
            Some(CFormatQuantity::Amount(width)) => width,
            _ => 0,
        }
    }

    fn precision_amount(&self) -> Option<usize>
        ensures { result ≡ spec.precision_in self.now.precision }
    {
        match self.precision {
            Some(CFormatPrecision::Quantity(CFormatQuantity::Amount(most))) => Some(most),
            Some(CFormatPrecision::Dot) => Some(0),
            _ => None,
        }
    }

    fn least_digits(&self) -> usize
        ensures { result ≡ spec.least_digits (spec.precision_in self.now.precision) }
    {
        match self.precision_amount() {
            Some(least) => least,
            None => 0,
        }
    }

    fn number_type(&self) -> CNumberType
        ensures { result ≡ spec.kind_of self.now.format_type }
    {
        match self.format_type {
            CFormatType::Number(kind) => kind,
            _ => CNumberType::Decimal,
        }
    }

    // How many units of a string are kept, where not all are.
    fn most_units(&self) -> Option<usize>
        ensures { result ≡ spec.most_units self.now.format_type self.now.precision }
    {
        match self.format_type {
            CFormatType::Character => None,
            _ => self.precision_amount(),
        }
    }

    // The bytes of a number.
    fn number_bytes(
        &self,
        alloc: Global,
        sign: &str,
        prefix: &str,
        digits: &[u8],
    ) -> PyResult<Vec<u8>>
        ensures ok { IfOk result (λ made. made.items
            ≡ spec.number_after self.now (sign.now ++ prefix.now) digits.now) }
        ensures err { IsOkUnless result PyError.NoMemory }
    {
        let width = self.width();
        let least = self.least_digits().saturating_sub(digits.len());
        let head = width
            .saturating_sub(sign.len())
            .saturating_sub(prefix.len());
        let short = head.saturating_sub(least).saturating_sub(digits.len());
        let fill = zero_fill(self.flags, short);
        let (before, after) = sides(self.flags, short - fill);
        let room = width.max(least.saturating_add(digits.len()).saturating_add(3));
        let mut made = begun(alloc, room, before)?;
        put_head(&mut made, sign, prefix)?;
        put_digits(&mut made, fill + least, digits)?;
        put_run(&mut made, b' ', after)?;
        Ok(made)
    }

    /// A number: sign, prefix, digits, at least as many as the precision, and zeros or spaces up
    /// to the width. A type that is not a number's is written in base ten. (Python Library
    /// Reference, printf-style String Formatting.)
    #[tactic(auto, using(crate::proofs::WritingLemmas::bytes_ascii,))]
    pub fn format_number(&self, alloc: Global, num: PyInt) -> PyResult<PyStr>
        ensures ok { IfOk result (λ made. made ≡ spec.number_text self.now num) }
        ensures err { IsOkUnless result PyError.NoMemory }
    {
        let value = num.as_i128();
        let kind = self.number_type();
        let sign = sign_of(self.flags, value.is_negative());
        let prefix = prefix_of(self.flags, kind);
        let mut decimal = Buffer::new();
        let mut room = [0; ROOM];
        let digits = digits_of(&mut decimal, &mut room, kind, value.unsigned_abs());
        let bytes = self.number_bytes(alloc, sign, prefix, digits)?;
        Ok(PyStr::new_ascii_unchecked(bytes))
    }

    // A text of `count` code points, with spaces up to the width.
    fn filled(&self, alloc: Global, text: &str, count: usize) -> PyResult<PyStr>
        requires { count ≡ length (chars text.now) }
        ensures ok { IfOk result (λ made. made ≡ spec.filled self.now (chars text.now)) }
        ensures err { IsOkUnless result PyError.NoMemory }
    {
        let short = self.width().saturating_sub(count);
        let bytes = between(alloc, sides(self.flags, short), text.as_bytes())?;
        Ok(text_of(bytes, count + short))
    }

    // The text, cut to the precision, and how many code points it has.
    #[tactic(auto, using(crate::proofs::WritingLemmas::cut_all,))]
    fn cut_text<'t>(&self, text: &'t PyStr) -> (&'t str, usize)
        ensures text { chars result.0.now
            ≡ spec.cut (spec.most_units self.now.format_type self.now.precision) text.now }
        ensures count { result.1 ≡ length (chars result.0.now) }
    {
        match self.most_units() {
            Some(most) => {
                if most < text.len() {
                    (text.get_chars(0..most), most)
                } else {
                    (text.as_str(), text.len())
                }
            }
            None => (text.as_str(), text.len()),
        }
    }

    #[tactic(auto, using(crate::proofs::WritingLemmas::cut_all,))]
    fn cut_bytes<'b>(&self, bytes: &'b [u8]) -> &'b [u8]
        ensures { result.now
            ≡ spec.cut (spec.most_units self.now.format_type self.now.precision) bytes.now }
    {
        match self.most_units() {
            Some(most) => {
                if most < bytes.len() {
                    &bytes[..most]
                } else {
                    bytes
                }
            }
            None => bytes,
        }
    }

    /// A text, cut to the precision and with spaces up to the width, both in code points. (Python
    /// Library Reference, printf-style String Formatting.)
    pub fn format_string(&self, alloc: Global, text: &PyStr) -> PyResult<PyStr>
        ensures ok { IfOk result (λ made. made ≡ spec.string_units self.now text.now) }
        ensures err { IsOkUnless result PyError.NoMemory }
    {
        let (kept, count) = self.cut_text(text);
        self.filled(alloc, kept, count)
    }

    /// A character, with spaces up to the width. It is not cut.
    pub fn format_char(&self, alloc: Global, c: char) -> PyResult<PyStr>
        ensures ok { IfOk result (λ made. made ≡ spec.filled self.now (c ∷ [])) }
        ensures err { IsOkUnless result PyError.NoMemory }
    {
        let mut utf8 = [0; 4];
        self.filled(alloc, c.encode_utf8(&mut utf8), 1)
    }

    /// Bytes, cut to the precision and with spaces up to the width, both in bytes. (Python Library
    /// Reference, printf-style Bytes Formatting.)
    #[tactic(auto, using(crate::proofs::WritingLemmas::filled_bytes,))]
    pub fn format_bytes(&self, alloc: Global, bytes: &[u8]) -> PyResult<PyBytes>
        ensures ok { IfOk result (λ made. made ≡ spec.string_units self.now bytes.now) }
        ensures err { IsOkUnless result PyError.NoMemory }
    {
        let kept = self.cut_bytes(bytes);
        let short = self.width().saturating_sub(kept.len());
        let made = between(alloc, sides(self.flags, short), kept)?;
        Ok(PyBytes::from(made))
    }
}

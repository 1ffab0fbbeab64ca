//! Literals of integers: `int(text, base)` of "Built-in Functions" of the Python Library Reference,
//! spelled as in "Integer literals" of the Python Language Reference.

ghost use Rattle.std.specs.Prelude.{◌≡◌, ◌+◌, ◌-◌, ◌*◌, ◌<◌, ◌≤◌, ◌^◌, min, drop};
ghost use Rattle.std.specs.Char.{digit_value};
ghost use Rattle.py_base.specs.Reading.{find};
ghost use Rattle.py_int.specs.Number.{carried};
ghost use Rattle.py_int.specs.Literal as spec;
ghost use Rattle.py_int.specs.Literal.{int_of, literal, literal_result, prefix_bases, saturated};
ghost use Rattle.py_int.specs.Literal.{greatest_base};

use crate::number::PyInt;
use crate::round::give_sign;
use py_base::{PyError, PyResult, trim_ascii_whitespace};

// The greatest base, whose digits are 0 to 9 and A to Z.
const GREATEST_BASE: u32 = 36;

// The value of a byte that is no digit: no base has a digit of it.
const NO_DIGIT: u8 = 36;

fn read_sign(text: &[u8]) -> (bool, &[u8])
    ensures { (result.0, result.1.now) ≡ spec.read_sign text.now }
{
    if text.is_empty() {
        return (false, text);
    }
    match text[0] {
        b'-' => (true, &text[1..]),
        b'+' => (false, &text[1..]),
        _ => (false, text),
    }
}

fn base_of_letter(letter: u8) -> Option<u8>
    ensures { result ≡ find prefix_bases letter }
{
    match letter {
        b'b' | b'B' => Some(2),
        b'o' | b'O' => Some(8),
        b'x' | b'X' => Some(16),
        _ => None,
    }
}

fn prefix_at(text: &[u8], base: u8) -> Option<u8>
    ensures { result ≡ spec.prefix_at base text.now }
{
    if text.len() < 2 || text[0] != b'0' {
        return None;
    }
    match base_of_letter(text[1]) {
        Some(named) if base == 0 || base == named => Some(named),
        _ => None,
    }
}

fn digit_of(byte: u8) -> u8
    ensures { result ≡ digit_value byte }
{
    match byte {
        b'0'..=b'9' => byte - b'0',
        b'A'..=b'Z' => byte - b'A' + 10,
        b'a'..=b'z' => byte - b'a' + 10,
        _ => NO_DIGIT,
    }
}

// `size` with one more digit, or 2^128 - 1 where that is less.
fn grown(size: u128, base: u8, digit: u8) -> u128
    requires { base ≤ greatest_base }
    ensures { result ≡ min (size * base + digit) (2 ^ 128 - 1) }
{
    if size < 1 << 120 {
        size * u128::from(base) + u128::from(digit)
    } else {
        size.saturating_mul(u128::from(base))
            .saturating_add(u128::from(digit))
    }
}

// All digits are read, also those of an integer that is too wide, since a text that is no literal
// fails with `InvalidLiteral` first.
fn digits(text: &[u8], base: u8) -> Option<u128>
    requires some { 0 < base }
    requires base { base ≤ greatest_base }
    ensures { result ≡ saturated (spec.digits base text.now) }
{
    let mut size = 0;
    let mut after_digit = false;
    for byte in text {
        let digit = digit_of(*byte);
        if digit < base {
            size = grown(size, base, digit);
            after_digit = true;
        } else if after_digit && *byte == b'_' {
            after_digit = false;
        } else {
            return None;
        }
    }
    if after_digit { Some(size) } else { None }
}

fn skip_underscore(text: &[u8]) -> &[u8]
    ensures { result.now ≡ spec.skip_underscore text.now }
{
    if !text.is_empty() && text[0] == b'_' {
        &text[1..]
    } else {
        text
    }
}

fn begins_with_zero(text: &[u8]) -> bool
    ensures { result ≡ spec.begins_with_zero text.now }
{
    !text.is_empty() && text[0] == b'0'
}

fn plain_digits(text: &[u8], base: u8) -> Option<u128>
    requires { base ≤ greatest_base }
    ensures { result ≡ saturated (spec.plain_digits base text.now) }
{
    if base != 0 {
        return digits(text, base);
    }
    let size = digits(text, 10)?;
    if begins_with_zero(text) && size > 0 {
        return None;
    }
    Some(size)
}

fn unsigned(text: &[u8], base: u8) -> Option<u128>
    requires { base ≤ greatest_base }
    ensures { result ≡ saturated (spec.unsigned base text.now) }
{
    match prefix_at(text, base) {
        Some(named) => digits(skip_underscore(&text[2..]), named),
        None => plain_digits(text, base),
    }
}

fn signed(negative: bool, size: u128) -> PyResult<PyInt>
    ensures { result ≡ carried (spec.signed negative size) }
{
    if negative {
        give_sign(size, -1)
    } else {
        PyInt::try_from_u128(size)
    }
}

fn read_literal(text: &[u8], base: u8) -> PyResult<PyInt>
    requires { base ≤ greatest_base }
    ensures { result ≡ literal_result base (literal base text.now) }
{
    let (negative, rest) = read_sign(text);
    match unsigned(rest, base) {
        Some(size) => signed(negative, size),
        None => Err(PyError::InvalidLiteral(u32::from(base))),
    }
}

impl PyInt {
    /// The integer of a literal: `BadBase` where the base is neither 0 nor from 2 to 36,
    /// `InvalidLiteral` with the base as it was handed in where the text is no literal, and
    /// `IntTooWide` where it is the literal of an integer that is too wide.
    pub fn try_int_radix(text: &[u8], base: u32) -> PyResult<PyInt>
        ensures { result ≡ int_of base text.now }
    {
        if base > GREATEST_BASE || base == 1 {
            return Err(PyError::BadBase);
        }
        read_literal(trim_ascii_whitespace(text), base as u8)
    }
}

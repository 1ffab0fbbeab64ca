//! The tests of a text.

ghost use Rattle.std.specs.Prelude.{◌≡◌, false, chars};
ghost use Rattle.std.specs.List.{list_all, list_any};
ghost use Rattle.py_base.specs.Chars.Classes as class;
ghost use Rattle.py_str.specs.TestsOf as spec;

use crate::ascii_tests::{each_byte_alnum, each_byte_alpha, each_byte_printable};
use py_base::{
    is_alnum, is_alphabetic, is_decimal, is_digit_char, is_id_continue, is_id_start, is_lower,
    is_numeric, is_printable, is_space, is_title, is_upper,
};
use py_text::PyStr;

fn each_char_alnum(text: &str) -> bool
    ensures { result ≡ list_all class.is_alnum (chars text.now) }
{
    text.chars().all(|c| is_alnum(c as u32))
}

fn each_alnum(text: &PyStr) -> bool
    ensures { result ≡ list_all class.is_alnum text.now }
{
    if text.is_ascii() {
        each_byte_alnum(text.as_str().as_bytes())
    } else {
        each_char_alnum(text.as_str())
    }
}

fn each_numeric(text: &str) -> bool
    ensures { result ≡ list_all class.is_numeric (chars text.now) }
{
    text.chars().all(|c| is_numeric(c as u32))
}

fn each_digit(text: &str) -> bool
    ensures { result ≡ list_all class.is_digit_char (chars text.now) }
{
    text.chars().all(|c| is_digit_char(c as u32))
}

fn each_decimal(text: &str) -> bool
    ensures { result ≡ list_all class.is_decimal (chars text.now) }
{
    text.chars().all(|c| is_decimal(c as u32))
}

fn each_char_alpha(text: &str) -> bool
    ensures { result ≡ list_all class.is_alphabetic (chars text.now) }
{
    text.chars().all(|c| is_alphabetic(c as u32))
}

fn each_alpha(text: &PyStr) -> bool
    ensures { result ≡ list_all class.is_alphabetic text.now }
{
    if text.is_ascii() {
        each_byte_alpha(text.as_str().as_bytes())
    } else {
        each_char_alpha(text.as_str())
    }
}

fn each_space(text: &str) -> bool
    ensures { result ≡ list_all class.is_space (chars text.now) }
{
    text.chars().all(|c| is_space(c as u32))
}

fn each_char_printable(text: &str) -> bool
    ensures { result ≡ list_all class.is_printable (chars text.now) }
{
    text.chars().all(|c| is_printable(c as u32))
}

fn each_printable(text: &PyStr) -> bool
    ensures { result ≡ list_all class.is_printable text.now }
{
    if text.is_ascii() {
        each_byte_printable(text.as_str().as_bytes())
    } else {
        each_char_printable(text.as_str())
    }
}

/// Whether there is a character, and each is a letter or a number.
pub(crate) fn isalnum(text: &PyStr) -> bool
    ensures { result ≡ spec.all_are class.is_alnum text.now }
{
    !text.is_empty() && each_alnum(text)
}

/// Whether there is a character, and each is a number.
pub(crate) fn isnumeric(text: &PyStr) -> bool
    ensures { result ≡ spec.all_are class.is_numeric text.now }
{
    !text.is_empty() && each_numeric(text.as_str())
}

/// Whether there is a character, and each is a digit.
pub(crate) fn isdigit(text: &PyStr) -> bool
    ensures { result ≡ spec.all_are class.is_digit_char text.now }
{
    !text.is_empty() && each_digit(text.as_str())
}

/// Whether there is a character, and each is a decimal digit.
pub(crate) fn isdecimal(text: &PyStr) -> bool
    ensures { result ≡ spec.all_are class.is_decimal text.now }
{
    !text.is_empty() && each_decimal(text.as_str())
}

/// Whether there is a character, and each is a letter.
pub(crate) fn isalpha(text: &PyStr) -> bool
    ensures { result ≡ spec.all_are class.is_alphabetic text.now }
{
    !text.is_empty() && each_alpha(text)
}

/// Whether there is a character, and each is whitespace.
pub(crate) fn isspace(text: &PyStr) -> bool
    ensures { result ≡ spec.all_are class.is_space text.now }
{
    !text.is_empty() && each_space(text.as_str())
}

/// Whether each character is printable.
pub(crate) fn isprintable(text: &PyStr) -> bool
    ensures { result ≡ spec.isprintable text.now }
{
    each_printable(text)
}

fn any_lower(text: &str) -> bool
    ensures { result ≡ list_any class.is_lower (chars text.now) }
{
    text.chars().any(|c| is_lower(c as u32))
}

fn any_upper(text: &str) -> bool
    ensures { result ≡ list_any class.is_upper (chars text.now) }
{
    text.chars().any(|c| is_upper(c as u32))
}

/// Whether there is a lower character and no upper one.
pub(crate) fn islower(text: &PyStr) -> bool
    ensures { result ≡ spec.islower text.now }
{
    any_lower(text.as_str()) && !any_upper(text.as_str())
}

/// Whether there is an upper character and no lower one.
pub(crate) fn isupper(text: &PyStr) -> bool
    ensures { result ≡ spec.isupper text.now }
{
    any_upper(text.as_str()) && !any_lower(text.as_str())
}

fn begins_word(c: u32) -> bool
    ensures { result ≡ spec.begins_word c }
{
    is_upper(c) || is_title(c)
}

fn is_cased(c: u32) -> bool
    ensures { result ≡ spec.is_cased c }
{
    begins_word(c) || is_lower(c)
}

// Whether the character may be in a title after one that is cased or not.
fn fits_title(after_cased: bool, c: u32) -> bool
    ensures { result ≡ spec.fits_title after_cased c }
{
    if begins_word(c) {
        !after_cased
    } else if is_lower(c) {
        after_cased
    } else {
        true
    }
}

// Whether each character may be where it is in a title.
fn is_titled(text: &str) -> bool
    ensures { result ≡ spec.titled false (chars text.now) }
{
    let mut after_cased = false;
    let mut rest = text.chars();
    'chars: while let Some(c) = rest.next() {
        if !fits_title(after_cased, c as u32) {
            return false;
        }
        after_cased = is_cased(c as u32);
    }
    true
}

fn any_cased(text: &str) -> bool
    ensures { result ≡ list_any spec.is_cased (chars text.now) }
{
    text.chars().any(|c| is_cased(c as u32))
}

/// Whether the text is in title case.
pub(crate) fn istitle(text: &PyStr) -> bool
    ensures { result ≡ spec.istitle text.now }
{
    any_cased(text.as_str()) && is_titled(text.as_str())
}

fn each_continues(text: &str) -> bool
    ensures { result ≡ list_all class.is_id_continue (chars text.now) }
{
    text.chars().all(|c| is_id_continue(c as u32))
}

fn is_identifier(text: &str) -> bool
    ensures { result ≡ spec.isidentifier (chars text.now) }
{
    let mut rest = text.chars();
    match rest.next() {
        Some(c) => is_id_start(c as u32) && each_continues(rest.as_str()),
        None => false,
    }
}

/// Whether the text is an identifier of Python.
pub(crate) fn isidentifier(text: &PyStr) -> bool
    ensures { result ≡ spec.isidentifier text.now }
{
    is_identifier(text.as_str())
}

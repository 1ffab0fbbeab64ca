//! The categories that a regular expression names by a number.

ghost use Rattle.std.specs.Prelude.{◌≡◌, IsTrue};
ghost use Rattle.py_base.specs.Chars.Categories as spec;

use crate::chars::classes::{is_alnum, is_decimal, is_line_end, is_space};
use crate::chars::whitespace::is_ascii_whitespace;

// The numbers are CPython's (`Lib/re/_constants.py`).

/// An ASCII digit.
pub const CATEGORY_DIGIT: u32 = 0;
/// The complement of `CATEGORY_DIGIT`.
pub const CATEGORY_NOT_DIGIT: u32 = 1;
/// ASCII whitespace.
pub const CATEGORY_SPACE: u32 = 2;
/// The complement of `CATEGORY_SPACE`.
pub const CATEGORY_NOT_SPACE: u32 = 3;
/// An ASCII letter, an ASCII digit or `_`.
pub const CATEGORY_WORD: u32 = 4;
/// The complement of `CATEGORY_WORD`.
pub const CATEGORY_NOT_WORD: u32 = 5;
/// The line feed.
pub const CATEGORY_LINEBREAK: u32 = 6;
/// The complement of `CATEGORY_LINEBREAK`.
pub const CATEGORY_NOT_LINEBREAK: u32 = 7;
/// A decimal digit of any script.
pub const CATEGORY_UNI_DIGIT: u32 = 10;
/// The complement of `CATEGORY_UNI_DIGIT`.
pub const CATEGORY_UNI_NOT_DIGIT: u32 = 11;
/// Whitespace, as `str.isspace` means it.
pub const CATEGORY_UNI_SPACE: u32 = 12;
/// The complement of `CATEGORY_UNI_SPACE`.
pub const CATEGORY_UNI_NOT_SPACE: u32 = 13;
/// A letter or a number of any script, or `_`.
pub const CATEGORY_UNI_WORD: u32 = 14;
/// The complement of `CATEGORY_UNI_WORD`.
pub const CATEGORY_UNI_NOT_WORD: u32 = 15;
/// A line end, as `str.splitlines` means it.
pub const CATEGORY_UNI_LINEBREAK: u32 = 16;
/// The complement of `CATEGORY_UNI_LINEBREAK`.
pub const CATEGORY_UNI_NOT_LINEBREAK: u32 = 17;

/// The code point of the line feed.
pub const LINE_FEED: u32 = 10;

/// Whether the number names a category.
pub fn is_category(k: u32) -> bool
    ensures { result ≡ spec.is_category k }
{
    k <= CATEGORY_NOT_LINEBREAK || (CATEGORY_UNI_DIGIT..=CATEGORY_UNI_NOT_LINEBREAK).contains(&k)
}

fn is_ascii_digit(c: u32) -> bool
    ensures { result ≡ spec.is_ascii_digit c }
{
    matches!(c, 0x30..=0x39)
}

fn is_ascii_word(c: u32) -> bool
    ensures { result ≡ spec.is_ascii_word c }
{
    matches!(c, 0x30..=0x39 | 0x41..=0x5A | 0x5F | 0x61..=0x7A)
}

fn is_word(c: u32) -> bool
    ensures { result ≡ spec.is_word c }
{
    is_alnum(c) || c == 0x5F
}

/// Whether category `k` holds the code point. A complement holds each number that is no character
/// too.
pub fn category(k: u32, c: u32) -> bool
    requires { IsTrue (spec.is_category k) }
    ensures { result ≡ spec.in_category k c }
{
    match k {
        CATEGORY_DIGIT => is_ascii_digit(c),
        CATEGORY_NOT_DIGIT => !is_ascii_digit(c),
        CATEGORY_SPACE => is_ascii_whitespace(c),
        CATEGORY_NOT_SPACE => !is_ascii_whitespace(c),
        CATEGORY_WORD => is_ascii_word(c),
        CATEGORY_NOT_WORD => !is_ascii_word(c),
        CATEGORY_LINEBREAK => c == LINE_FEED,
        CATEGORY_NOT_LINEBREAK => c != LINE_FEED,
        CATEGORY_UNI_DIGIT => is_decimal(c),
        CATEGORY_UNI_NOT_DIGIT => !is_decimal(c),
        CATEGORY_UNI_SPACE => is_space(c),
        CATEGORY_UNI_NOT_SPACE => !is_space(c),
        CATEGORY_UNI_WORD => is_word(c),
        CATEGORY_UNI_NOT_WORD => !is_word(c),
        CATEGORY_UNI_LINEBREAK => is_line_end(c),
        CATEGORY_UNI_NOT_LINEBREAK => !is_line_end(c),
        _ => unreachable!(),
    }
}

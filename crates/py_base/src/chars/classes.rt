//! Which code points are letters, digits, whitespace, line ends or parts of identifiers.
//!
//! Each test takes any `u32`; a number that is no code point of a character is in no class.

ghost use Rattle.std.specs.Prelude.{◌≡◌, IsTrue};
ghost use Rattle.py_base.specs.Chars.Classes as spec;

use unicode::properties::{self, GeneralCategory};

/// Whether the character has the Unicode property Alphabetic.
pub fn is_alphabetic(c: u32) -> bool
    ensures { result ≡ spec.is_alphabetic c }
{
    match char::from_u32(c) {
        Some(c) => properties::is_alphabetic(c),
        None => false,
    }
}

/// Whether the character has the Unicode property Lowercase.
pub fn is_lower(c: u32) -> bool
    ensures { result ≡ spec.is_lower c }
{
    match char::from_u32(c) {
        Some(c) => properties::is_lowercase(c),
        None => false,
    }
}

/// Whether the character has the Unicode property Uppercase.
pub fn is_upper(c: u32) -> bool
    ensures { result ≡ spec.is_upper c }
{
    match char::from_u32(c) {
        Some(c) => properties::is_uppercase(c),
        None => false,
    }
}

/// Whether the character is a titlecase letter.
pub fn is_title(c: u32) -> bool
    ensures { result ≡ spec.is_title c }
{
    match char::from_u32(c) {
        Some(c) => GeneralCategory::for_char(c) == GeneralCategory::TitlecaseLetter,
        None => false,
    }
}

/// Whether the character is a decimal digit of any script.
pub fn is_decimal(c: u32) -> bool
    ensures { result ≡ spec.is_decimal c }
{
    match char::from_u32(c) {
        Some(c) => GeneralCategory::for_char(c) == GeneralCategory::DecimalNumber,
        None => false,
    }
}

/// Whether the character is a decimal digit, a letter that is a number, or another number.
pub fn is_numeric(c: u32) -> bool
    ensures { result ≡ spec.is_numeric c }
{
    match char::from_u32(c) {
        Some(c) => matches!(
            GeneralCategory::for_char(c),
            GeneralCategory::DecimalNumber
                | GeneralCategory::LetterNumber
                | GeneralCategory::OtherNumber
        ),
        None => false,
    }
}

/// Whether the character is alphabetic or numeric.
pub fn is_alnum(c: u32) -> bool
    ensures { result ≡ spec.is_alnum c }
{
    is_alphabetic(c) || is_numeric(c)
}

/// Whether the character is an ASCII digit or a superscript one.
pub fn is_digit_char(c: u32) -> bool
    ensures { result ≡ spec.is_digit_char c }
{
    matches!(c, 0x30..=0x39 | 0xB2 | 0xB3 | 0xB9 | 0x2070 | 0x2074..=0x2079)
}

/// Whether the character has the Unicode property White_Space.
pub fn is_white(c: u32) -> bool
    ensures { result ≡ spec.is_white c }
{
    match char::from_u32(c) {
        Some(c) => c.is_whitespace(),
        None => false,
    }
}

/// Whether the character is whitespace, as `str.isspace` means it.
pub fn is_space(c: u32) -> bool
    ensures { result ≡ spec.is_space c }
{
    matches!(
        c,
        0x09..=0x0D
            | 0x1C..=0x1F
            | 0x20
            | 0x85
            | 0xA0
            | 0x1680
            | 0x2000..=0x200A
            | 0x2028
            | 0x2029
            | 0x202F
            | 0x205F
            | 0x3000
    )
}

/// Whether the character ends a line, as `str.splitlines` means it.
pub fn is_line_end(c: u32) -> bool
    ensures { result ≡ spec.is_line_end c }
{
    matches!(c, 0x0A..=0x0D | 0x1C..=0x1E | 0x85 | 0x2028 | 0x2029)
}

// Whether characters of this category are escaped in a repr, except for the space.
fn is_unseen(category: GeneralCategory) -> bool
    ensures { result ≡ spec.unseen category }
{
    matches!(
        category,
        GeneralCategory::Control
            | GeneralCategory::Format
            | GeneralCategory::Surrogate
            | GeneralCategory::PrivateUse
            | GeneralCategory::Unassigned
            | GeneralCategory::LineSeparator
            | GeneralCategory::ParagraphSeparator
            | GeneralCategory::SpaceSeparator
    )
}

/// Whether the character is not escaped in a repr.
pub fn is_printable(c: u32) -> bool
    ensures { result ≡ spec.is_printable c }
{
    match char::from_u32(c) {
        Some(c) => c == ' ' || !is_unseen(GeneralCategory::for_char(c)),
        None => false,
    }
}

/// Whether an identifier can begin with the character.
pub fn is_id_start(c: u32) -> bool
    ensures { result ≡ spec.is_id_start c }
{
    match char::from_u32(c) {
        Some(c) => c == '_' || unicode_ident::is_xid_start(c),
        None => false,
    }
}

/// Whether an identifier can have the character after its first one.
pub fn is_id_continue(c: u32) -> bool
    ensures { result ≡ spec.is_id_continue c }
{
    match char::from_u32(c) {
        Some(c) => unicode_ident::is_xid_continue(c),
        None => false,
    }
}

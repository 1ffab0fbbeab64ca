//! What a letter after a backslash is.

ghost use Rattle.std.specs.Prelude.{◌≡◌};
ghost use Rattle.std.specs.Option.{option_map};
ghost use Rattle.py_base.specs.Reading.{find};
ghost use Rattle.re_tree.specs.Characters.{if_flag};
ghost use Rattle.re_tree.specs.Tables.{letters};
ghost use Rattle.re_parse.specs.TokenView.{letter_of};

use py_base::{
    CATEGORY_DIGIT, CATEGORY_NOT_DIGIT, CATEGORY_NOT_SPACE, CATEGORY_NOT_WORD, CATEGORY_SPACE,
    CATEGORY_UNI_DIGIT, CATEGORY_UNI_NOT_DIGIT, CATEGORY_UNI_NOT_SPACE, CATEGORY_UNI_NOT_WORD,
    CATEGORY_UNI_SPACE, CATEGORY_UNI_WORD, CATEGORY_WORD,
};
use re_tree::anchors::{
    AT_BEGINNING, AT_BOUNDARY, AT_END_STRING, AT_NON_BOUNDARY, AT_UNI_BOUNDARY, AT_UNI_NON_BOUNDARY,
};

/// What a letter after a backslash is. Of two numbers the second is for `ascii`.
#[derive(Clone, Copy, PartialEq, Eq, Debug)]
pub(crate) enum Letter {
    /// This character.
    Character(char),
    /// A character that so many hexadecimal digits write.
    Digits(usize),
    /// A category.
    Category(u32, u32),
    /// An anchor.
    Anchor(u32, u32),
}

pub(crate) fn letter_at(l: char) -> Option<Letter>
    ensures { option_map letter_of result ≡ find letters l }
{
    match l {
        'a' => Some(Letter::Character('\x07')),
        'f' => Some(Letter::Character('\x0C')),
        'n' => Some(Letter::Character('\n')),
        'r' => Some(Letter::Character('\r')),
        't' => Some(Letter::Character('\t')),
        'v' => Some(Letter::Character('\x0B')),
        'x' => Some(Letter::Digits(2)),
        'u' => Some(Letter::Digits(4)),
        'U' => Some(Letter::Digits(8)),
        'd' => Some(Letter::Category(CATEGORY_UNI_DIGIT, CATEGORY_DIGIT)),
        'D' => Some(Letter::Category(CATEGORY_UNI_NOT_DIGIT, CATEGORY_NOT_DIGIT)),
        's' => Some(Letter::Category(CATEGORY_UNI_SPACE, CATEGORY_SPACE)),
        'S' => Some(Letter::Category(CATEGORY_UNI_NOT_SPACE, CATEGORY_NOT_SPACE)),
        'w' => Some(Letter::Category(CATEGORY_UNI_WORD, CATEGORY_WORD)),
        'W' => Some(Letter::Category(CATEGORY_UNI_NOT_WORD, CATEGORY_NOT_WORD)),
        'A' => Some(Letter::Anchor(AT_BEGINNING, AT_BEGINNING)),
        'Z' => Some(Letter::Anchor(AT_END_STRING, AT_END_STRING)),
        'b' => Some(Letter::Anchor(AT_UNI_BOUNDARY, AT_BOUNDARY)),
        'B' => Some(Letter::Anchor(AT_UNI_NON_BOUNDARY, AT_NON_BOUNDARY)),
        _ => None,
    }
}

// One number, or the one with `ascii`.
pub(crate) fn number(ascii: bool, any: u32, of_ascii: u32) -> u32
    ensures { result ≡ if_flag ascii of_ascii any }
{
    if ascii { of_ascii } else { any }
}

//! Sets in brackets, and their items.

ghost use Rattle.std.specs.Prelude.{◌≡◌, ◌==◌, ◌||◌, not, length, drop, true, false, IfOk};
ghost use Rattle.std.specs.Option.{option_map};
ghost use Rattle.py_base.specs.Reading.{find};
ghost use Rattle.re_tree.specs.Characters.{first_is};
ghost use Rattle.re_tree.specs.Reading as reading;
ghost use Rattle.re_tree.specs.Sets as spec;
ghost use Rattle.re_tree.specs.Tables.{letters};
ghost use Rattle.re_parse.specs.TokenView.{rest_of, set_at, Reads};

use crate::reading::Found;
use crate::reading::characters::{hex, is_ascii_non_alphanumeric};
use crate::reading::letters::{Letter, letter_at, number};
use crate::token::Token;
use re_tree::{TextFlags, UnitItem, UnitItems, UnitTest};
use std::alloc::{AllocError, Global};

fn is_end(text: &[char]) -> bool
    ensures { result ≡ first_is (λ c. c == 93) text.now }
{
    match text {
        [] => false,
        [c, ..] => *c == ']',
    }
}

// A character of a set after the backslash and this character.
fn escaped(l: char, rest: &[char]) -> Option<(char, &[char])>
    ensures { rest_of result ≡ spec.letter_member (find letters l) l rest.now }
{
    match letter_at(l) {
        None => {
            if is_ascii_non_alphanumeric(l) {
                Some((l, rest))
            } else {
                None
            }
        }
        Some(Letter::Character(c)) => Some((c, rest)),
        Some(Letter::Digits(count)) => hex(count, 0, rest),
        Some(Letter::Category(_, _)) => None,
        Some(Letter::Anchor(_, _)) => { if l == 'b' { Some(('\x08', rest)) } else { None } }
    }
}

// A character of a set after a backslash.
fn escape(text: &[char]) -> Option<(char, &[char])>
    ensures { rest_of result ≡ spec.escaped_member text.now }
{
    match text {
        [] => None,
        [l, rest @ ..] => escaped(*l, rest),
    }
}

// A character of a set, which may be the first.
fn member(first: bool, text: &[char]) -> Option<(char, &[char])>
    ensures { rest_of result ≡ spec.member_at first text.now }
{
    match text {
        [] => None,
        ['\\', rest @ ..] => escape(rest),
        [']', rest @ ..] => { if first { Some((']', rest)) } else { None } }
        ['-', rest @ ..] => {
            if first || is_end(rest) {
                Some(('-', rest))
            } else {
                None
            }
        }
        [c, rest @ ..] => Some((*c, rest)),
    }
}

// A category after the backslash and this character.
fn category_of(ascii: bool, l: char, rest: &[char]) -> Option<(UnitItem, &[char])>
    ensures { rest_of result ≡ spec.class_of ascii (find letters l) rest.now }
{
    match letter_at(l) {
        Some(Letter::Category(any, of_ascii)) => {
            Some((UnitItem::Category(number(ascii, any, of_ascii)), rest))
        }
        Some(Letter::Character(_)) => None,
        Some(Letter::Digits(_)) => None,
        Some(Letter::Anchor(_, _)) => None,
        None => None,
    }
}

fn category(ascii: bool, text: &[char]) -> Option<(UnitItem, &[char])>
    ensures { rest_of result ≡ spec.class_at ascii text.now }
{
    match text {
        ['\\', l, rest @ ..] => category_of(ascii, *l, rest),
        _ => None,
    }
}

// The last character of a range, after its `-`.
fn range(low: char, text: &[char]) -> Option<(UnitItem, &[char])>
    ensures { rest_of result ≡ spec.close_span low (spec.member_at false text.now) }
{
    match member(false, text) {
        None => None,
        Some((high, rest)) => {
            if low <= high {
                Some((UnitItem::Span(low, high), rest))
            } else {
                None
            }
        }
    }
}

// A range, or one character.
fn range_or_one(first: bool, text: &[char]) -> Option<(UnitItem, &[char])>
    ensures { rest_of result ≡ spec.span_or (spec.member_at first text.now) }
{
    match member(first, text) {
        None => None,
        Some((low, rest)) => match rest {
            ['-', after @ ..] if !is_end(after) => range(low, after),
            _ => Some((UnitItem::Literal(low), rest)),
        },
    }
}

fn item(ascii: bool, first: bool, text: &[char]) -> Option<(UnitItem, &[char])>
    ensures { rest_of result ≡ spec.item_at ascii first text.now }
{
    match category(ascii, text) {
        Some(found) => Some(found),
        None => range_or_one(first, text),
    }
}

// What is left after the next character, which is not looked at.
fn after_next(text: &[char]) -> &[char]
    ensures { result.now ≡ drop 1 text.now }
{
    match text {
        [] => text,
        [_, rest @ ..] => rest,
    }
}

// Whether there is one more item: at least one, and then up to a `]`.
fn goes_on(first: bool, text: &[char]) -> bool
    ensures { result ≡ (first || not (first_is (λ c. c == 93) text.now)) }
{
    first || !is_end(text)
}

// The items up to the `]` that ends them, of which there is at least one, and what is left after.
fn items(
    alloc: Global,
    ascii: bool,
    text: &[char],
) -> Result<Option<(UnitItems, &[char])>, AllocError>
    ensures { IfOk result (λ r. rest_of r ≡ spec.items_at (length text.now) ascii true text.now) }
{
    let mut items = Vec::new(alloc);
    let mut rest = text;
    let mut first = true;
    'turns: while goes_on(first, rest) {
        match item(ascii, first, rest) {
            None => return Ok(None),
            Some((item, after)) => {
                items.push(item)?;
                rest = after;
                first = false;
            }
        }
    }
    Ok(Some((UnitItems::from_vec(items), after_next(rest))))
}

// The items of a set after the `[` and perhaps a `^`.
fn set(alloc: Global, ascii: bool, negated: bool, text: &[char]) -> Found
    ensures { Reads (set_at ascii negated text.now) result }
{
    match items(alloc, ascii, text)? {
        None => Ok(None),
        Some((items, rest)) => { Ok(Some((Token::Unit(UnitTest::Set(negated, items)), rest))) }
    }
}

// After a `[`.
pub(crate) fn bracket(alloc: Global, flags: TextFlags, text: &[char]) -> Found
    ensures { Reads (reading.bracket_token flags text.now) result }
{
    match text {
        [] => Ok(None),
        ['^', rest @ ..] => set(alloc, flags.ascii, true, rest),
        [_, ..] => set(alloc, flags.ascii, false, text),
    }
}

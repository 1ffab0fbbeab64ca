//! Escapes: what begins with a backslash.

ghost use Rattle.std.specs.Prelude.{◌≡◌, false, [], ◌∷◌, None, IfOk};
ghost use Rattle.py_base.specs.Reading.{find};
ghost use Rattle.re_tree.specs.declared.unit.UnitItem.TheVariants.{Category};
ghost use Rattle.re_tree.specs.Characters as character;
ghost use Rattle.re_tree.specs.Characters.{first_is};
ghost use Rattle.re_tree.specs.Grammar as grammar;
ghost use Rattle.re_tree.specs.Grammar.{value};
ghost use Rattle.re_tree.specs.PlainText.{set, numbered};
ghost use Rattle.re_tree.specs.Reading as spec;
ghost use Rattle.re_tree.specs.Tables.{letters};
ghost use Rattle.re_tree.specs.TextView.{test_of};
ghost use Rattle.re_tree.specs.Tokens.{reference_token};
ghost use Rattle.re_parse.specs.TokenView.{token_of, Reads};

use crate::number::Number;
use crate::reading::Found;
use crate::reading::characters::{hex, is_ascii_non_alphanumeric, is_digit, is_octal};
use crate::reading::letters::{Letter, letter_at, number};
use crate::token::{GroupName, Token};
use re_tree::{TextFlags, UnitItem, UnitItems, UnitTest};
use std::alloc::{AllocError, Global};

fn is_first_digit(c: char) -> bool
    ensures { result ≡ grammar.is_first_digit c }
{
    '1' <= c && c <= '9'
}

// A back reference to the group with this number.
fn reference(alloc: Global, at: usize, digits: &[char]) -> Result<Token, AllocError>
    ensures { IfOk result (λ t. token_of t ≡ reference_token at (numbered (value digits.now))) }
{
    let number = Number::from_digits(alloc, digits)?;
    Ok(Token::Reference(at, GroupName::Number(number)))
}

// A back reference after its first digit.
fn reference_from(alloc: Global, at: usize, first: char, rest: &[char]) -> Found
    ensures { Reads (spec.number_token at first rest.now) result }
{
    match rest {
        [second, after @ ..] if is_digit(*second) => {
            if is_octal(first) && is_octal(*second) && begins_octal(after) {
                return Ok(None);
            }
            Ok(Some((reference(alloc, at, &[first, *second])?, after)))
        }
        _ => Ok(Some((reference(alloc, at, &[first])?, rest))),
    }
}

fn begins_octal(text: &[char]) -> bool
    ensures { result ≡ first_is character.is_octal text.now }
{
    match text {
        [] => false,
        [c, ..] => is_octal(*c),
    }
}

// After the backslash and a character that is no letter of the table.
fn other(alloc: Global, flags: TextFlags, at: usize, l: char, rest: &[char]) -> Found
    ensures { Reads (spec.letter_token None flags at l rest.now) result }
{
    if is_first_digit(l) {
        return reference_from(alloc, at, l, rest);
    }
    if is_ascii_non_alphanumeric(l) {
        return Ok(Some((Token::Unit(UnitTest::Literal(l)), rest)));
    }
    Ok(None)
}

// The set of one category.
fn category(alloc: Global, k: u32) -> Result<UnitTest, AllocError>
    ensures { IfOk result (λ test. test_of test ≡ set false (Category k ∷ [])) }
{
    let mut items = Vec::new(alloc);
    items.push(UnitItem::Category(k))?;
    Ok(UnitTest::Set(false, UnitItems::from_vec(items)))
}

// After the backslash and this character.
fn escaped(alloc: Global, flags: TextFlags, at: usize, l: char, rest: &[char]) -> Found
    ensures { Reads (spec.letter_token (find letters l) flags at l rest.now) result }
{
    match letter_at(l) {
        None => other(alloc, flags, at, l, rest),
        Some(Letter::Character(c)) => Ok(Some((Token::Unit(UnitTest::Literal(c)), rest))),
        Some(Letter::Digits(count)) => match hex(count, 0, rest) {
            None => Ok(None),
            Some((c, rest)) => Ok(Some((Token::Unit(UnitTest::Literal(c)), rest))),
        },
        Some(Letter::Category(any, ascii)) => {
            let test = category(alloc, number(flags.ascii, any, ascii))?;
            Ok(Some((Token::Unit(test), rest)))
        }
        Some(Letter::Anchor(any, ascii)) => {
            Ok(Some((Token::Anchor(number(flags.ascii, any, ascii)), rest)))
        }
    }
}

// After a backslash.
pub(crate) fn escape(alloc: Global, flags: TextFlags, at: usize, text: &[char]) -> Found
    ensures { Reads (spec.escape_token flags at text.now) result }
{
    match text {
        [] => Ok(None),
        [l, rest @ ..] => escaped(alloc, flags, at, *l, rest),
    }
}

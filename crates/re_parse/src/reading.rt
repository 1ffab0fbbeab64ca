//! The first token of what is left of a pattern. There is one function for each construct, named as
//! it is, and none calls itself.

ghost use Rattle.std.specs.Prelude.{◌≡◌, IfOk};
ghost use Rattle.py_base.specs.Reading.{find};
ghost use Rattle.re_tree.specs.Characters.{if_flag};
ghost use Rattle.re_tree.specs.Reading as spec;
ghost use Rattle.re_tree.specs.Tables.{signs};
ghost use Rattle.re_tree.specs.Tokens.{anchor_token};
ghost use Rattle.re_tree.specs.TextView.{test_of};
ghost use Rattle.re_parse.specs.TokenView.{lexed_of, token_of, Reads};

mod characters;
mod counts;
mod escapes;
mod letters;
mod names;
mod openings;
mod sets;

use crate::reading::counts::{brace, sign_count};
use crate::reading::escapes::escape;
use crate::reading::openings::opening;
use crate::reading::sets::bracket;
use crate::token::{Lexed, Token};
use re_tree::anchors::{AT_BEGINNING, AT_BEGINNING_LINE, AT_END, AT_END_LINE};
use re_tree::{TextFlags, UnitTest};
use std::alloc::{AllocError, Global};

/// A token, where the grammar has one that the text begins with, and what is left after it.
pub(crate) type Found<'t> = Result<Option<(Token, &'t [char])>, AllocError>;

// What a dot is.
fn dot(flags: TextFlags) -> UnitTest
    ensures { test_of result ≡ spec.if_dotall flags.dotall }
{
    if flags.dotall {
        UnitTest::AnyAll
    } else {
        UnitTest::Any
    }
}

// An anchor, or the one with `multiline`.
fn line_anchor(flags: TextFlags, whole: u32, each: u32) -> Token
    ensures { token_of result ≡ anchor_token (if_flag flags.multiline each whole) }
{
    Token::Anchor(if flags.multiline { each } else { whole })
}

// The token that begins with this character.
fn sign(alloc: Global, flags: TextFlags, at: usize, c: char, rest: &[char]) -> Found
    ensures { Reads (spec.sign_token (find signs c) flags at c rest.now) result }
{
    match c {
        '\\' => escape(alloc, flags, at, rest),
        '.' => Ok(Some((Token::Unit(dot(flags)), rest))),
        '^' => Ok(Some((line_anchor(flags, AT_BEGINNING, AT_BEGINNING_LINE), rest))),
        '$' => Ok(Some((line_anchor(flags, AT_END, AT_END_LINE), rest))),
        '*' => sign_count(alloc, at, &[], &[], rest),
        '+' => sign_count(alloc, at, &['1'], &[], rest),
        '?' => sign_count(alloc, at, &[], &['1'], rest),
        '{' => brace(alloc, at, rest),
        '[' => bracket(alloc, flags, rest),
        '(' => opening(alloc, at, rest),
        ')' => Ok(Some((Token::Close, rest))),
        '|' => Ok(Some((Token::Bar, rest))),
        _ => Ok(Some((Token::Unit(UnitTest::Literal(c)), rest))),
    }
}

/// The first token of what is left of a pattern, whose first character is at the place `at` of the
/// whole.
pub fn next_token(
    alloc: Global,
    flags: TextFlags,
    at: usize,
    text: &[char],
) -> Result<Lexed, AllocError>
    ensures { IfOk result (λ next. lexed_of next ≡ spec.next_token flags at text.now) }
{
    match text {
        [] => Ok(Lexed::End),
        [c, rest @ ..] => match sign(alloc, flags, at, *c, rest)? {
            None => Ok(Lexed::NoToken),
            Some((token, after)) => Ok(Lexed::Token(token, after)),
        },
    }
}

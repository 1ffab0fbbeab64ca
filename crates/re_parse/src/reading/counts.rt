//! Counts: their bounds, by a sign or in braces, and what follows these.

ghost use Rattle.std.specs.Prelude.{◌≡◌, Some, IfOk};
ghost use Rattle.std.specs.Option.{option_map};
ghost use Rattle.py_base.specs.Reading.{find};
ghost use Rattle.re_tree.specs.Grammar.{value, greatest_of};
ghost use Rattle.re_tree.specs.Reading as spec;
ghost use Rattle.re_tree.specs.Tables.{signs};
ghost use Rattle.re_parse.specs.TokenView.{token_and_rest, counted_by, bounds_after, bounds_of, Reads};

use crate::number::Number;
use crate::reading::Found;
use crate::reading::characters::is_digit;
use crate::token::Token;
use re_tree::{CountMode, UnitTest};
use std::alloc::{AllocError, Global};

// The digits that the text begins with, and what is left.
fn digits(text: &[char]) -> (&[char], &[char])
    ensures digits { result.0.now ≡ spec.digits_of text.now }
    ensures rest { result.1.now ≡ spec.after_digits text.now }
{
    for (i, c) in text.iter().enumerate() {
        if !is_digit(*c) {
            return text.split_at(i);
        }
    }
    text.split_at(text.len())
}

// The greatest number that these digits write, or none where there are no digits.
fn greatest(alloc: Global, digits: &[char]) -> Result<Option<Number>, AllocError>
    ensures { IfOk result (λ most. most ≡ greatest_of digits.now) }
{
    match digits {
        [] => Ok(None),
        [_, ..] => Ok(Some(Number::from_digits(alloc, digits)?)),
    }
}

// A count whose bounds are read.
fn counted(at: usize, least: Number, most: Option<Number>, rest: &[char]) -> (Token, &[char])
    ensures { token_and_rest result ≡ spec.with_mode at least most rest.now }
{
    match rest {
        ['?', more @ ..] => (Token::Count(at, least, most, CountMode::Lazy), more),
        ['+', more @ ..] => (Token::Count(at, least, most, CountMode::Possessive), more),
        _ => (Token::Count(at, least, most, CountMode::Greedy), rest),
    }
}

// A count by a sign, whose bounds these digits write.
pub(crate) fn sign_count<'t>(
    alloc: Global,
    at: usize,
    least: &[char],
    most: &[char],
    rest: &'t [char],
) -> Found<'t>
    ensures { Reads (counted_by at least.now most.now rest.now) result }
{
    let least = Number::from_digits(alloc, least)?;
    let most = greatest(alloc, most)?;
    Ok(Some(counted(at, least, most, rest)))
}

// The bounds of a count, where there are some, and what is left.
type Bounds<'t> = Result<Option<(Number, Option<Number>, &'t [char])>, AllocError>;

// As `{n}`, after the digits and the brace.
fn exact<'t>(alloc: Global, least: &[char], rest: &'t [char]) -> Bounds<'t>
    ensures { IfOk result (λ r. bounds_of r ≡ spec.exact_at least.now rest.now) }
{
    match least {
        [] => Ok(None),
        [_, ..] => {
            let most = Number::from_digits(alloc, least)?;
            let least = Number::from_digits(alloc, least)?;
            Ok(Some((least, Some(most), rest)))
        }
    }
}

// As `{n,m}`, after the comma.
fn between<'t>(alloc: Global, least: &[char], text: &'t [char]) -> Bounds<'t>
    ensures { IfOk result (λ r. bounds_of r ≡ bounds_after least.now text.now) }
{
    let (most, rest) = digits(text);
    match rest {
        ['}', rest @ ..] => {
            let least = Number::from_digits(alloc, least)?;
            let most = greatest(alloc, most)?;
            Ok(Some((least, most, rest)))
        }
        _ => Ok(None),
    }
}

// After a `{`.
fn bounds(alloc: Global, text: &[char]) -> Bounds
    ensures { IfOk result (λ r. bounds_of r ≡ spec.read_bounds text.now) }
{
    let (least, rest) = digits(text);
    match rest {
        ['}', rest @ ..] => exact(alloc, least, rest),
        [',', rest @ ..] => between(alloc, least, rest),
        _ => Ok(None),
    }
}

// After a `{`, which is itself where no count begins.
pub(crate) fn brace(alloc: Global, at: usize, text: &[char]) -> Found
    ensures { Reads (Some (spec.brace_token at text.now (spec.read_bounds text.now))) result }
{
    match bounds(alloc, text)? {
        None => Ok(Some((Token::Unit(UnitTest::Literal('{')), text))),
        Some((least, most, rest)) => Ok(Some(counted(at, least, most, rest))),
    }
}

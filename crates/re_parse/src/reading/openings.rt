//! Opening parentheses, and what follows `(?`.

ghost use Rattle.std.specs.Prelude.{◌≡◌, Some};
ghost use Rattle.py_base.specs.Reading.{find};
ghost use Rattle.re_tree.specs.Reading as spec;
ghost use Rattle.re_tree.specs.Tables.{extensions};
ghost use Rattle.re_tree.specs.Tokens.{look_opening, open_token};
ghost use Rattle.re_parse.specs.TokenView.{opening_of, Reads};

use crate::reading::Found;
use crate::reading::names::{group, name, up_to};
use crate::token::{GroupName, Opening, Token};
use std::alloc::{AllocError, Global};

fn open(at: usize, opening: Opening, rest: &[char]) -> Found
    ensures { Reads (Some (open_token at (opening_of opening), rest.now)) result }
{
    Ok(Some((Token::Open(at, opening), rest)))
}

fn look(at: usize, positive: bool, behind: bool, rest: &[char]) -> Found
    ensures { Reads (Some (open_token at (look_opening positive behind), rest.now)) result }
{
    open(at, Opening::Look { positive, behind }, rest)
}

// A lookbehind, after `(?<`.
fn lookbehind(at: usize, text: &[char]) -> Found
    ensures { Reads (spec.lookbehind_token at text.now) result }
{
    match text {
        ['=', rest @ ..] => look(at, true, true, rest),
        ['!', rest @ ..] => look(at, false, true, rest),
        _ => Ok(None),
    }
}

// A group with a name, after `(?P<`.
fn named_group(alloc: Global, at: usize, text: &[char]) -> Found
    ensures { Reads (spec.named_opening at (spec.up_to 62 text.now)) result }
{
    match up_to('>', text) {
        None => Ok(None),
        Some((characters, rest)) => {
            open(at, Opening::Capturing(Some(name(alloc, characters)?)), rest)
        }
    }
}

// A back reference by name, after `(?P=`.
fn named_reference(alloc: Global, at: usize, text: &[char]) -> Found
    ensures { Reads (spec.named_reference at (spec.up_to 41 text.now)) result }
{
    match up_to(')', text) {
        None => Ok(None),
        Some((characters, rest)) => {
            let id = GroupName::Name(name(alloc, characters)?);
            Ok(Some((Token::Reference(at, id), rest)))
        }
    }
}

// After `(?P`.
fn named(alloc: Global, at: usize, text: &[char]) -> Found
    ensures { Reads (spec.name_token at text.now) result }
{
    match text {
        ['<', rest @ ..] => named_group(alloc, at, rest),
        ['=', rest @ ..] => named_reference(alloc, at, rest),
        _ => Ok(None),
    }
}

// A conditional, after `(?(`.
fn conditional(alloc: Global, at: usize, text: &[char]) -> Found
    ensures { Reads (spec.named_conditional at (spec.up_to 41 text.now)) result }
{
    match up_to(')', text) {
        None => Ok(None),
        Some((characters, rest)) => open(at, Opening::Conditional(group(alloc, characters)?), rest),
    }
}

// After `(?` and this character.
fn extension(alloc: Global, at: usize, c: char, rest: &[char]) -> Found
    ensures { Reads (spec.extension_token (find extensions c) at rest.now) result }
{
    match c {
        ':' => open(at, Opening::NonCapturing, rest),
        '>' => open(at, Opening::Atomic, rest),
        '=' => look(at, true, false, rest),
        '!' => look(at, false, false, rest),
        '<' => lookbehind(at, rest),
        'P' => named(alloc, at, rest),
        '(' => conditional(alloc, at, rest),
        _ => Ok(None),
    }
}

// After `(?`.
fn extended(alloc: Global, at: usize, text: &[char]) -> Found
    ensures { Reads (spec.extended at text.now) result }
{
    match text {
        [] => Ok(None),
        [c, rest @ ..] => extension(alloc, at, *c, rest),
    }
}

// After a `(`.
pub(crate) fn opening(alloc: Global, at: usize, text: &[char]) -> Found
    ensures { Reads (spec.opening_token at text.now) result }
{
    match text {
        ['?', rest @ ..] => extended(alloc, at, rest),
        _ => open(at, Opening::Capturing(None), text),
    }
}

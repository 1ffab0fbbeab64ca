//! Names and group numbers, up to the character that ends them.

ghost use Rattle.std.specs.Prelude.{◌≡◌, [], ◌∷◌, ◌++◌, OnOk, IfOk};
ghost use Rattle.std.specs.Option.{option_map};
ghost use Rattle.std.specs.List.{list_all};
ghost use Rattle.re_tree.specs.Characters as character;
ghost use Rattle.re_tree.specs.Grammar as grammar;
ghost use Rattle.re_tree.specs.Reading as spec;
ghost use Rattle.re_parse.specs.TokenView.{points, group_named};

use crate::number::Number;
use crate::reading::characters::is_digit;
use crate::token::GroupName;
use py_text::PyStr;
use std::alloc::{AllocError, Global};

// What is before the next character of this kind, and what is left after that.
pub(crate) fn up_to(end: char, text: &[char]) -> Option<(&[char], &[char])>
    ensures { option_map (λ x. (x.0.now, x.1.now)) result ≡ spec.up_to end text.now }
{
    for (i, c) in text.iter().enumerate() {
        if *c == end {
            return Some((&text[..i], &text[i + 1..]));
        }
    }
    None
}

fn push(text: &mut String, c: char) -> Result<(), AllocError>
    ensures { OnOk result (points text.new ≡ points text.old ++ c ∷ []) }
{
    text.push(c)?;
    Ok(())
}

pub(crate) fn name(alloc: Global, characters: &[char]) -> Result<PyStr, AllocError>
    ensures { IfOk result (λ made. made ≡ characters.now) }
{
    let mut text = String::new(alloc);
    for c in characters {
        push(&mut text, *c)?;
    }
    Ok(PyStr::from(text))
}

fn are_digits(characters: &[char]) -> bool
    ensures { result ≡ list_all character.is_digit characters.now }
{
    characters.iter().all(|c| is_digit(*c))
}

// The number or the name that these characters are.
pub(crate) fn group(alloc: Global, characters: &[char]) -> Result<GroupName, AllocError>
    ensures { IfOk result (λ id. group_named id ≡ grammar.id_of characters.now) }
{
    if !characters.is_empty() && are_digits(characters) {
        Ok(GroupName::Number(Number::from_digits(alloc, characters)?))
    } else {
        Ok(GroupName::Name(name(alloc, characters)?))
    }
}

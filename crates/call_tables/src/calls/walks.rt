//! Calls that go through a text by an iterator.

ghost use Rattle.std.specs.Prelude.{◌≡◌, ◌∷◌, length, IfOk, Ok};
ghost use Rattle.std.specs.Vec.{vec_items};
ghost use Rattle.py_base.specs.Reading.{MeetsUnless};
ghost use Rattle.call_tables.specs.Results.{Tells, items_of, no_memory};
ghost use Rattle.call_tables.specs.Walks.{start_of, after_steps, after_step, position_tokens, letter_token, given_by, walk, counted};

use crate::fault::Fault;
use crate::results::{Outcome, copy_of, one};
use crate::token::Token;
use py_text::{IterState, PyStr, PyStrIterator};
use std::alloc::{AllocError, Global};

// An iterator at the beginning of a copy of the text.
fn walker_of(alloc: Global, subject: &PyStr) -> Result<PyStrIterator, AllocError>
    ensures { IfOk result (λ walker. walker ≡ start_of subject.now) }
{
    match PyStr::new_ref(alloc, copy_of(alloc, subject)?) {
        Ok(shared) => Ok(PyStrIterator::new(shared)),
        Err(_) => Err(AllocError),
    }
}

/// The text and the place of an iterator after so many steps.
pub fn reduced(alloc: Global, subject: &PyStr, steps: usize) -> Outcome
    ensures { let stored = position_tokens (after_steps steps (start_of subject.now)) in
        Tells (Ok stored) (items_of vec_items result) }
{
    let mut walker = walker_of(alloc, subject)?;
    for i in 0..steps {
        let _ = walker.next();
    }
    stored(alloc, &walker)
}

// The text and the place of an iterator.
fn stored(alloc: Global, walker: &PyStrIterator) -> Outcome
    ensures { Tells (Ok (position_tokens walker.now)) (items_of vec_items result) }
{
    match walker.reduce() {
        IterState::Active(text, place) => {
            let token = Token::Text(copy_of(alloc, text.as_pystr())?);
            Ok(Vec::from_array(alloc, [token, Token::Int(place as i128)])?)
        }
        IterState::Exhausted => one(alloc, Token::Missing),
    }
}

/// How many of the steps of an iterator give something, and then what each of them gives.
pub fn walked(alloc: Global, subject: &PyStr, steps: &[Token]) -> Outcome
    ensures { Tells (counted (walk (start_of subject.now) steps.now)) (items_of vec_items result) }
{
    let mut walker = walker_of(alloc, subject)?;
    let mut tokens = given_by_all(alloc, &mut walker, steps)?;
    tokens.insert(0, Token::Count(tokens.len()))?;
    Ok(tokens)
}

// What steps give, one after the other.
fn given_by_all(alloc: Global, walker: &mut PyStrIterator, steps: &[Token]) -> Outcome
    ensures { Tells (walk walker.old steps.now) (items_of vec_items result) }
{
    let mut given = Vec::new(alloc);
    for step in steps {
        if let Some(token) = step_of(alloc, walker, step)? {
            given.push(token)?;
        }
    }
    Ok(given)
}

// What one step gives, which is nothing where it puts the iterator at a place.
fn step_of(alloc: Global, walker: &mut PyStrIterator, step: &Token) -> Result<Option<Token>, Fault>
    ensures given { MeetsUnless no_memory (given_by walker.old step.now) result }
    ensures after { walker.new ≡ after_step walker.old step.now }
{
    match step {
        Token::Next => Ok(Some(letter_of(alloc, walker.next())?)),
        Token::Hint => Ok(Some(Token::Int(walker.length_hint() as i128))),
        Token::Int(place) => {
            walker.setstate(*place);
            Ok(None)
        }
        _ => Err(Fault::BadArguments),
    }
}

// A character as a text, or none.
fn letter_of(alloc: Global, letter: Option<char>) -> Result<Token, AllocError>
    ensures { IfOk result (λ token. token ≡ letter_token letter) }
{
    match letter {
        Some(letter) => match PyStr::from_char(alloc, letter) {
            Ok(text) => Ok(Token::Text(text)),
            Err(_) => Err(AllocError),
        },
        None => Ok(Token::Missing),
    }
}

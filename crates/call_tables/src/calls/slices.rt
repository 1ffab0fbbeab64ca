//! Calls that take a part of a text, add, repeat, or go through one.

ghost use Rattle.std.specs.Prelude.{◌≤◌, length, IfOk};

use super::walks::{reduced, walked};
use super::{optional, signed, size};
use crate::fault::Fault;
use crate::results::{Outcome, text};
use crate::token::Token;
use py_base::PyResult;
use py_text::PyStr;
use std::alloc::Global;
use std::ops::Range;

/// A call of the table `slices`.
pub fn answer(alloc: Global, name: &str, arguments: &[Token]) -> Outcome {
    match arguments {
        [Token::Text(one), Token::Text(other)] => of_two(alloc, name, one, other),
        [Token::Text(subject), Token::Int(number)] => with_number(alloc, name, subject, *number),
        [Token::Text(subject), Token::Count(count), steps @ ..] if *count == steps.len() => {
            iterate(alloc, name, subject, steps)
        }
        [Token::Text(subject), Token::Int(start), Token::Int(end)] => {
            let range = range_in(subject, *start, *end)?;
            by_range(alloc, name, subject, range)
        }
        [Token::Text(subject), start, end, step] => {
            by_step(alloc, name, subject, (start, end, step))
        }
        _ => Err(Fault::BadArguments),
    }
}

fn of_two(alloc: Global, name: &str, one: &PyStr, other: &PyStr) -> Outcome {
    match name {
        "add" => text(alloc, one.add(alloc, other)),
        "append" => text(alloc, appended(alloc, one, other)),
        "concat_in_place" => text(alloc, extended(alloc, one, other)),
        _ => Err(Fault::NoCall),
    }
}

// A text that more was appended to.
fn appended(alloc: Global, one: &PyStr, other: &PyStr) -> PyResult<PyStr> {
    let mut made = one.try_clone(alloc)?;
    made.append(other.as_str())?;
    Ok(made)
}

// A shared text that more was added to, in place.
fn extended(alloc: Global, one: &PyStr, other: &PyStr) -> PyResult<PyStr> {
    let mut shared = PyStr::new_ref(alloc, one.try_clone(alloc)?)?;
    shared.concat_in_place(alloc, other.as_str())?;
    shared.as_pystr().try_clone(alloc)
}

fn with_number(alloc: Global, name: &str, subject: &PyStr, number: i128) -> Outcome {
    match name {
        "mul" => text(alloc, subject.mul(alloc, signed(number)?)),
        "getitem_by_index" => text(alloc, letter_at(alloc, subject, number)),
        "do_get" => do_get(alloc, subject, size(number)?),
        "reduce" => reduced(alloc, subject, size(number)?),
        _ => Err(Fault::NoCall),
    }
}

// The character at an index that lies in the text.
fn do_get(alloc: Global, subject: &PyStr, index: usize) -> Outcome {
    if index >= subject.char_len() {
        return Err(Fault::BadArguments);
    }
    text(alloc, PyStr::from_char(alloc, subject.do_get(index)))
}

fn letter_at(alloc: Global, subject: &PyStr, index: i128) -> PyResult<PyStr> {
    PyStr::from_char(alloc, subject.getitem_by_index(index)?)
}

// A range that lies in the text.
fn range_in(subject: &PyStr, start: i128, end: i128) -> Result<Range<usize>, Fault>
    ensures { IfOk result (λ range. (range.start ≤ range.end) × (range.end ≤ length subject.now)) }
{
    let start = size(start)?;
    let end = size(end)?;
    if start > end || end > subject.char_len() {
        return Err(Fault::BadArguments);
    }
    Ok(start..end)
}

fn by_range(alloc: Global, name: &str, subject: &PyStr, range: Range<usize>) -> Outcome
    requires order { range.start ≤ range.end }
    requires inside { range.end ≤ length subject.now }
{
    match name {
        "get_chars" => text(alloc, PyStr::copy_of(alloc, subject.get_chars(range))),
        "do_slice" => text(alloc, subject.do_slice(alloc, range)),
        "do_slice_reverse" => text(alloc, subject.do_slice_reverse(alloc, range)),
        _ => Err(Fault::NoCall),
    }
}

fn by_step(
    alloc: Global,
    name: &str,
    subject: &PyStr,
    bounds: (&Token, &Token, &Token),
) -> Outcome {
    let start = optional(bounds.0)?;
    let end = optional(bounds.1)?;
    let step = optional(bounds.2)?;
    match (name, start, end, step) {
        ("getitem_by_slice", _, _, _) => {
            text(alloc, subject.getitem_by_slice(alloc, start, end, step))
        }
        (_, Some(start), Some(end), Some(step)) => {
            let range = range_in(subject, start, end)?;
            stepped(alloc, name, subject, range, step)
        }
        _ => Err(Fault::BadArguments),
    }
}

fn stepped(alloc: Global, name: &str, subject: &PyStr, range: Range<usize>, step: i128) -> Outcome
    requires order { range.start ≤ range.end }
    requires inside { range.end ≤ length subject.now }
{
    let step = size(step)?;
    if step == 0 {
        return Err(Fault::BadArguments);
    }
    match name {
        "do_stepped_slice" => text(alloc, subject.do_stepped_slice(alloc, range, step)),
        "do_stepped_slice_reverse" => {
            text(alloc, subject.do_stepped_slice_reverse(alloc, range, step))
        }
        _ => Err(Fault::NoCall),
    }
}

// What each step of an iterator gives.
fn iterate(alloc: Global, name: &str, subject: &PyStr, steps: &[Token]) -> Outcome {
    match name {
        "iterate" => walked(alloc, subject, steps),
        _ => Err(Fault::NoCall),
    }
}

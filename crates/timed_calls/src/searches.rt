//! Calls that ask something of a text, over and over, and the sum of the answers.

use crate::sample_texts::{Language, text_of, text_with_end};
use py_base::PyResult;
use py_text::{FindArgs, PyStr};
use std::alloc::Global;

/// A call that asks something of a text.
#[derive(Clone, Copy, Debug, PartialEq, Eq)]
pub enum SearchCall {
    Find,
    Count,
    Startswith,
    Order,
    Equality,
}

impl SearchCall {
    /// The call of a name.
    pub fn of_name(name: &str) -> Option<SearchCall> {
        match name {
            "find" => Some(SearchCall::Find),
            "count" => Some(SearchCall::Count),
            "startswith" => Some(SearchCall::Startswith),
            "order" => Some(SearchCall::Order),
            "equality" => Some(SearchCall::Equality),
            _ => None,
        }
    }
}

/// The sum over so many calls on a text of `size` code points: of places, of counts, or of bools as
/// 0 and 1.
pub fn sum(
    alloc: Global,
    call: SearchCall,
    language: Language,
    size: u32,
    times: u32,
) -> PyResult<i128> {
    match call {
        SearchCall::Find => places(alloc, language, size, times),
        SearchCall::Count => counts(alloc, language, size, times),
        SearchCall::Startswith => beginnings(alloc, language, size, times),
        SearchCall::Order => lesser(alloc, language, size, times),
        SearchCall::Equality => equal(alloc, language, size, times),
    }
}

fn searched(sub: PyStr) -> FindArgs {
    FindArgs {
        sub,
        start: None,
        end: None,
    }
}

// Places of the word that occurs only at the end, searched from 0 and from 1 by turns.
fn places(alloc: Global, language: Language, size: u32, times: u32) -> PyResult<i128> {
    let text = text_with_end(alloc, language, size)?;
    let mut args = searched(PyStr::copy_of(alloc, language.last_word())?);
    let mut sum = 0i128;
    for i in 0..times {
        args.start = Some(i128::from(i % 2));
        sum = sum.wrapping_add(text.find(&args) as i128);
    }
    Ok(sum)
}

// Counts of the word of each hundred code points, from 0 and from 1 by turns.
fn counts(alloc: Global, language: Language, size: u32, times: u32) -> PyResult<i128> {
    let text = text_of(alloc, language, size)?;
    let mut args = searched(PyStr::copy_of(alloc, language.word())?);
    let mut sum = 0i128;
    for i in 0..times {
        args.start = Some(i128::from(i % 2));
        sum = sum.wrapping_add(text.count(&args) as i128);
    }
    Ok(sum)
}

// How often the text begins with its own first half, from 0 and from 1 by turns.
fn beginnings(alloc: Global, language: Language, size: u32, times: u32) -> PyResult<i128> {
    let text = text_of(alloc, language, size)?;
    let half = text_of(alloc, language, size / 2)?;
    let mut sum = 0i128;
    for i in 0..times {
        let begins = text.startswith(&half, Some(i128::from(i % 2)), None);
        sum = sum.wrapping_add(i128::from(begins));
    }
    Ok(sum)
}

// How often one of two texts is less than the other, which differ in the last word, by turns.
fn lesser(alloc: Global, language: Language, size: u32, times: u32) -> PyResult<i128> {
    let text = text_of(alloc, language, size)?;
    let ended = text_with_end(alloc, language, size)?;
    let mut sum = 0i128;
    for i in 0..times {
        let less = if i % 2 == 0 {
            text < ended
        } else {
            ended < text
        };
        sum = sum.wrapping_add(i128::from(less));
    }
    Ok(sum)
}

// How often a text equals a copy of itself and a text with another last word, by turns.
fn equal(alloc: Global, language: Language, size: u32, times: u32) -> PyResult<i128> {
    let text = text_of(alloc, language, size)?;
    let copy = text.try_clone(alloc)?;
    let ended = text_with_end(alloc, language, size)?;
    let mut sum = 0i128;
    for i in 0..times {
        let same = if i % 2 == 0 {
            text == copy
        } else {
            text == ended
        };
        sum = sum.wrapping_add(i128::from(same));
    }
    Ok(sum)
}

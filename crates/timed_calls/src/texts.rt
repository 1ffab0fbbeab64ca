//! Calls that make texts of a text, over and over, and the sum of what they give.

use crate::sample_texts::{Language, text_of};
use py_base::PyResult;
use py_text::{PyStr, PyStrIterator, SplitArgs};
use std::alloc::Global;

/// A call that makes texts of a text.
#[derive(Clone, Copy, Debug, PartialEq, Eq)]
pub enum TextCall {
    Replace,
    Split,
    Slice,
    Stepped,
    Join,
    Iterate,
}

impl TextCall {
    /// The call of a name.
    pub fn of_name(name: &str) -> Option<TextCall> {
        match name {
            "replace" => Some(TextCall::Replace),
            "split" => Some(TextCall::Split),
            "slice" => Some(TextCall::Slice),
            "stepped" => Some(TextCall::Stepped),
            "join" => Some(TextCall::Join),
            "iterate" => Some(TextCall::Iterate),
            _ => None,
        }
    }
}

/// The sum over so many calls on a text of `size` code points: of counts of pieces, of lengths in code
/// points, or of last code points.
pub fn sum(
    alloc: Global,
    call: TextCall,
    language: Language,
    size: u32,
    times: u32,
) -> PyResult<i128> {
    match call {
        TextCall::Replace => replaced(alloc, language, size, times),
        TextCall::Split => pieces(alloc, language, size, times),
        TextCall::Slice => sliced(alloc, language, size, times),
        TextCall::Stepped => stepped(alloc, language, size, times),
        TextCall::Join => joined(alloc, language, size, times),
        TextCall::Iterate => iterated(alloc, language, size, times),
    }
}

// Lengths with another word in place of each of the words.
fn replaced(alloc: Global, language: Language, size: u32, times: u32) -> PyResult<i128> {
    let text = text_of(alloc, language, size)?;
    let old = PyStr::copy_of(alloc, language.word())?;
    let new = PyStr::copy_of(alloc, language.other_word())?;
    let mut sum = 0i128;
    for _ in 0..times {
        let made = text.replace(alloc, &old, &new, None)?;
        sum = sum.wrapping_add(made.char_len() as i128);
    }
    Ok(sum)
}

// Counts of the pieces between the words.
fn pieces(alloc: Global, language: Language, size: u32, times: u32) -> PyResult<i128> {
    let text = text_of(alloc, language, size)?;
    let args = SplitArgs {
        sep: Some(PyStr::copy_of(alloc, language.word())?),
        maxsplit: -1,
    };
    let mut sum = 0i128;
    for _ in 0..times {
        let list = text.split(alloc, &args)?;
        sum = sum.wrapping_add(list.len() as i128);
    }
    Ok(sum)
}

// Lengths of the slice that is the middle half.
fn sliced(alloc: Global, language: Language, size: u32, times: u32) -> PyResult<i128> {
    let text = text_of(alloc, language, size)?;
    let start = i128::from(size / 4);
    let stop = i128::from(size - size / 4);
    let mut sum = 0i128;
    for _ in 0..times {
        let made = text.getitem_by_slice(alloc, Some(start), Some(stop), None)?;
        sum = sum.wrapping_add(made.char_len() as i128);
    }
    Ok(sum)
}

// Lengths of the text's words with another word between.
fn joined(alloc: Global, language: Language, size: u32, times: u32) -> PyResult<i128> {
    let text = text_of(alloc, language, size)?;
    let between = PyStr::copy_of(alloc, language.other_word())?;
    let args = SplitArgs {
        sep: None,
        maxsplit: -1,
    };
    let words = text.split(alloc, &args)?;
    let mut sum = 0i128;
    for _ in 0..times {
        let made = between.join(alloc, &words)?;
        sum = sum.wrapping_add(made.char_len() as i128);
    }
    Ok(sum)
}

// Lengths of every third code point, from 0 and from 1 by turns.
fn stepped(alloc: Global, language: Language, size: u32, times: u32) -> PyResult<i128> {
    let text = text_of(alloc, language, size)?;
    let mut sum = 0i128;
    for i in 0..times {
        let made = text.getitem_by_slice(alloc, Some(i128::from(i % 2)), None, Some(3))?;
        sum = sum.wrapping_add(made.char_len() as i128);
    }
    Ok(sum)
}

// Last code points, each of a walk through the whole text.
fn iterated(alloc: Global, language: Language, size: u32, times: u32) -> PyResult<i128> {
    let text = PyStr::new_ref(alloc, text_of(alloc, language, size)?)?;
    let mut sum = 0i128;
    for _ in 0..times {
        let mut walk = PyStrIterator::new(text.clone()?);
        sum = sum.wrapping_add(last_of(&mut walk, size));
    }
    Ok(sum)
}

// The last of so many code points, or 0 where there is none.
fn last_of(walk: &mut PyStrIterator, size: u32) -> i128 {
    let mut last = 0i128;
    for _ in 0..size {
        if let Some(letter) = walk.next() {
            last = i128::from(letter as u32);
        }
    }
    last
}

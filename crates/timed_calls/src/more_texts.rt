//! Calls that strip, pad, quote, encode or test a text, over and over, and the sum of what they give.

use crate::sample_texts::{Language, text_of};
use py_base::PyResult;
use py_str::StrMore;
use py_text::PyStr;
use std::alloc::Global;

/// A call that strips, pads, quotes, encodes or tests a text.
#[derive(Clone, Copy, Debug, PartialEq, Eq)]
pub enum MoreCall {
    Strip,
    Center,
    Zfill,
    Expandtabs,
    Repr,
    Encode,
    Isalpha,
}

impl MoreCall {
    /// The call of a name.
    pub fn of_name(name: &str) -> Option<MoreCall> {
        match name {
            "strip" => Some(MoreCall::Strip),
            "center" => Some(MoreCall::Center),
            "zfill" => Some(MoreCall::Zfill),
            "expandtabs" => Some(MoreCall::Expandtabs),
            "repr" => Some(MoreCall::Repr),
            "encode" => Some(MoreCall::Encode),
            "isalpha" => Some(MoreCall::Isalpha),
            _ => None,
        }
    }
}

/// The sum over so many calls on a text of `size` code points: of lengths, or of bools as 0 and 1.
pub fn sum(
    alloc: Global,
    call: MoreCall,
    language: Language,
    size: u32,
    times: u32,
) -> PyResult<i128> {
    let text = text_of(alloc, language, size)?;
    match call {
        MoreCall::Strip => stripped(alloc, &text, times),
        MoreCall::Center => centered(alloc, &text, size, times),
        MoreCall::Zfill => zero_filled(alloc, &text, size, times),
        MoreCall::Expandtabs => expanded(alloc, &text, times),
        MoreCall::Repr => quoted(alloc, &text, times),
        MoreCall::Encode => encoded(alloc, &text, times),
        MoreCall::Isalpha => tested(alloc, &text, times),
    }
}

// Lengths of the text without the spaces at its ends, with a space before it and one after it.
fn stripped(alloc: Global, text: &PyStr, times: u32) -> PyResult<i128> {
    let space = PyStr::copy_of(alloc, " ")?;
    let text = space.add(alloc, text)?.add(alloc, &space)?;
    let mut sum = 0i128;
    for _ in 0..times {
        let made = PyStr::copy_of(alloc, text.strip(None))?;
        sum = sum.wrapping_add(made.char_len() as i128);
    }
    Ok(sum)
}

// A width past a size: by 100, and by 101 at each second call.
fn width_past(size: u32, call: u32) -> isize {
    size as isize + 100 + (call % 2) as isize
}

// Lengths of the text in the middle of a width.
fn centered(alloc: Global, text: &PyStr, size: u32, times: u32) -> PyResult<i128> {
    let mut sum = 0i128;
    for i in 0..times {
        let made = text.center(alloc, width_past(size, i), None)?;
        sum = sum.wrapping_add(made.char_len() as i128);
    }
    Ok(sum)
}

// Lengths of the text after zeros.
fn zero_filled(alloc: Global, text: &PyStr, size: u32, times: u32) -> PyResult<i128> {
    let mut sum = 0i128;
    for i in 0..times {
        let made = text.zfill(alloc, width_past(size, i))?;
        sum = sum.wrapping_add(made.char_len() as i128);
    }
    Ok(sum)
}

// The text with other text in place of each part.
fn with(alloc: Global, text: &PyStr, old: &str, new: &str) -> PyResult<PyStr> {
    let old = PyStr::copy_of(alloc, old)?;
    let new = PyStr::copy_of(alloc, new)?;
    text.replace(alloc, &old, &new, None)
}

// Lengths of the text with tabs in place of its spaces, which are expanded to 8 or 9 columns by
// turns.
fn expanded(alloc: Global, text: &PyStr, times: u32) -> PyResult<i128> {
    let text = with(alloc, text, " ", "\t")?;
    let mut sum = 0i128;
    for i in 0..times {
        let made = text.expandtabs(alloc, 8 + (i % 2) as isize)?;
        sum = sum.wrapping_add(made.char_len() as i128);
    }
    Ok(sum)
}

// Lengths of the text in quotes.
fn quoted(alloc: Global, text: &PyStr, times: u32) -> PyResult<i128> {
    let mut sum = 0i128;
    for _ in 0..times {
        let made = text.repr(alloc)?;
        sum = sum.wrapping_add(made.char_len() as i128);
    }
    Ok(sum)
}

// How many bytes the text has in UTF-8.
fn encoded(alloc: Global, text: &PyStr, times: u32) -> PyResult<i128> {
    let mut sum = 0i128;
    for _ in 0..times {
        let made = text.encode(alloc, None)?;
        sum = sum.wrapping_add(made.len() as i128);
    }
    Ok(sum)
}

// How often all are letters, of the text with letters alone and of the same with a space after it,
// by turns.
fn tested(alloc: Global, text: &PyStr, times: u32) -> PyResult<i128> {
    let letters = with(alloc, text, " ", "a")?;
    let letters = with(alloc, &letters, ",", "b")?;
    let letters = with(alloc, &letters, "'", "c")?;
    let spaced = letters.add(alloc, &PyStr::copy_of(alloc, " ")?)?;
    let mut sum = 0i128;
    for i in 0..times {
        let holds = if i % 2 == 0 {
            letters.isalpha()
        } else {
            spaced.isalpha()
        };
        sum = sum.wrapping_add(i128::from(holds));
    }
    Ok(sum)
}

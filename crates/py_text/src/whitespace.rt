//! A text split at runs of ASCII whitespace.

ghost use Rattle.std.specs.Prelude.{◌≡◌, ◌<◌, ◌++◌, IfOk, IsOkUnless, IsCharBoundary, chars, not, length, take, drop, map, reverse};
ghost use Rattle.py_base.specs.Chars.Whitespace.{is_ascii_whitespace as white, skip_while};
ghost use Rattle.py_text.specs.Whitespace as spec;

use crate::list::TextList;
use crate::points::offset_of;
use crate::text::PyStr;
use py_base::{PyError, PyResult, is_ascii_whitespace};
use std::alloc::Global;

fn is_whitespace(c: char) -> bool
    ensures { result ≡ white c }
{
    is_ascii_whitespace(c as u32)
}

fn is_no_whitespace(c: char) -> bool
    ensures { result ≡ not (white c) }
{
    !is_whitespace(c)
}

// The text from its first character on that is no whitespace.
fn skip_whitespace(text: &str) -> &str
    ensures { chars result.now ≡ skip_while white (chars text.now) }
{
    match text.find(is_no_whitespace) {
        Some(at) => &text[at..],
        None => &text[text.len()..],
    }
}

// How many bytes are before the first whitespace.
fn word_len(text: &str) -> usize
    ensures boundary { IsCharBoundary text.now result }
    ensures word { chars (take result text.now) ≡ spec.until_whitespace (chars text.now) }
    ensures rest { chars (drop result text.now) ≡ spec.from_whitespace (chars text.now) }
{
    match text.find(is_whitespace) {
        Some(at) => at,
        None => text.len(),
    }
}

/// The first `limit` pieces, and the rest as one last piece.
pub(crate) fn split_whitespace(alloc: Global, text: &PyStr, limit: usize) -> PyResult<TextList>
    ensures ok { IfOk result (λ pieces. pieces ≡ spec.split_whitespace limit text.now) }
    ensures err { IsOkUnless result PyError.NoMemory }
{
    let ascii = text.is_ascii();
    let mut list = TextList::new(alloc);
    let mut rest = skip_whitespace(text.as_str());
    let mut left = limit;
    while !rest.is_empty() {
        if left == 0 {
            list.push_copy(alloc, rest, ascii)?;
            return Ok(list);
        }
        let (word, after) = rest.split_at(word_len(rest));
        list.push_copy(alloc, word, ascii)?;
        rest = skip_whitespace(after);
        left -= 1;
    }
    Ok(list)
}

// Where the character at the byte `at` ends, in bytes.
fn end_of_char(text: &str, at: usize) -> usize
    requires boundary { IsCharBoundary text.now at }
    requires there { at < length text.now }
    ensures boundary { IsCharBoundary text.now result }
    ensures before { chars (take result text.now)
        ≡ chars (take at text.now) ++ take 1 (chars (drop at text.now)) }
    ensures rest { chars (drop result text.now) ≡ drop 1 (chars (drop at text.now)) }
{
    at + offset_of(&text[at..], 1)
}

// The text up to its last character that is no whitespace.
fn drop_trailing_whitespace(text: &str) -> &str
    ensures { reverse (chars result.now) ≡ skip_while white (reverse (chars text.now)) }
{
    match text.rfind(is_no_whitespace) {
        Some(at) => &text[..end_of_char(text, at)],
        None => &text[..0],
    }
}

// How many bytes there are up to the end of the last whitespace.
fn last_word_start(text: &str) -> usize
    ensures boundary { IsCharBoundary text.now result }
    ensures word { reverse (chars (drop result text.now))
        ≡ spec.until_whitespace (reverse (chars text.now)) }
    ensures rest { reverse (chars (take result text.now))
        ≡ spec.from_whitespace (reverse (chars text.now)) }
{
    match text.rfind(is_whitespace) {
        Some(at) => end_of_char(text, at),
        None => 0,
    }
}

// The last `limit` pieces, the last one first, and then the rest as one piece.
fn words_from_right(alloc: Global, text: &PyStr, limit: usize) -> PyResult<TextList>
    ensures ok { IfOk result (λ pieces.
        map reverse pieces ≡ spec.split_whitespace limit (reverse text.now)) }
    ensures err { IsOkUnless result PyError.NoMemory }
{
    let ascii = text.is_ascii();
    let mut list = TextList::new(alloc);
    let mut rest = drop_trailing_whitespace(text.as_str());
    let mut left = limit;
    while !rest.is_empty() {
        if left == 0 {
            list.push_copy(alloc, rest, ascii)?;
            return Ok(list);
        }
        let (before, word) = rest.split_at(last_word_start(rest));
        list.push_copy(alloc, word, ascii)?;
        rest = drop_trailing_whitespace(before);
        left -= 1;
    }
    Ok(list)
}

/// The last `limit` pieces, and before them the rest as one piece, in order of the text.
pub(crate) fn rsplit_whitespace(alloc: Global, text: &PyStr, limit: usize) -> PyResult<TextList>
    ensures ok { IfOk result (λ pieces. pieces ≡ spec.rsplit_whitespace limit text.now) }
    ensures err { IsOkUnless result PyError.NoMemory }
{
    let mut list = words_from_right(alloc, text, limit)?;
    list.reverse();
    Ok(list)
}

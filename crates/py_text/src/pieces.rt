//! A text split at a separator, or at whitespace, into pieces.

ghost use Rattle.std.specs.Prelude.{◌≡◌, true, ◌≢◌, ◌<◌, ◌++◌, ◌∷◌, [], Some, length, map, reverse, chars, IfOk, IsOk, IsOkUnless, Err};
ghost use Rattle.py_text.specs.Pieces.{limit, split, rsplit, split_by, rsplit_by};
ghost use Rattle.py_text.specs.Text.{all_ascii};

use crate::list::TextList;
use crate::occurrences::{around_first, around_last};
use crate::text::PyStr;
use crate::whitespace;
use py_base::{PyError, PyResult};
use std::alloc::Global;

/// Where a text is split: at `sep`, or with none at runs of ASCII whitespace, and at most
/// `maxsplit` times; a negative `maxsplit` sets no limit.
#[derive(Debug, Drop)]
pub struct SplitArgs {
    pub sep: Option<PyStr>,
    pub maxsplit: isize,
}

/// How many places are taken at most in a text; a negative `most` takes all.
pub(crate) fn limit_of(text: &PyStr, most: isize) -> usize
    ensures { result ≡ limit (length text.now) most }
{
    if most < 0 {
        text.place_count()
    } else {
        most as usize
    }
}

// The list with one more piece last. With `ascii` all of it is ASCII.
fn finished(alloc: Global, mut list: TextList, rest: &str, ascii: bool) -> PyResult<TextList>
    requires { ascii ≡ true → all_ascii (chars rest.now) ≡ true }
    ensures ok { IfOk result (λ pieces. pieces ≡ list ++ chars rest.now ∷ []) }
    ensures err { IsOkUnless result PyError.NoMemory }
{
    list.push_copy(alloc, rest, ascii)?;
    Ok(list)
}

// The pieces at the first `limit` places of `sep`, which is not empty.
fn split_at(alloc: Global, text: &PyStr, sep: &str, limit: usize) -> PyResult<TextList>
    requires { 0 < length (chars sep.now) }
    ensures ok { IfOk result (λ pieces. pieces ≡ split limit (chars sep.now) text.now) }
    ensures err { IsOkUnless result PyError.NoMemory }
{
    let ascii = text.is_ascii();
    let mut list = TextList::new(alloc);
    let mut rest = text.as_str();
    let mut left = limit;
    while left > 0 {
        match around_first(rest, sep) {
            Some((front, _, back)) => {
                list.push_copy(alloc, front, ascii)?;
                rest = back;
                left -= 1;
            }
            None => return finished(alloc, list, rest, ascii),
        }
    }
    finished(alloc, list, rest, ascii)
}

// The pieces at the last `limit` places of `sep`, which is not empty, in order of the text.
fn rsplit_at(alloc: Global, text: &PyStr, sep: &str, limit: usize) -> PyResult<TextList>
    requires { 0 < length (chars sep.now) }
    ensures ok { IfOk result (λ pieces. pieces ≡ rsplit limit (chars sep.now) text.now) }
    ensures err { IsOkUnless result PyError.NoMemory }
{
    let mut list = pieces_from_right(alloc, text, sep, limit)?;
    list.reverse();
    Ok(list)
}

// Those pieces, the last one first.
fn pieces_from_right(alloc: Global, text: &PyStr, sep: &str, limit: usize) -> PyResult<TextList>
    requires { 0 < length (chars sep.now) }
    ensures ok { IfOk result (λ pieces.
        map reverse pieces ≡ split limit (reverse (chars sep.now)) (reverse text.now)) }
    ensures err { IsOkUnless result PyError.NoMemory }
{
    let ascii = text.is_ascii();
    let mut list = TextList::new(alloc);
    let mut rest = text.as_str();
    let mut left = limit;
    while left > 0 {
        match around_last(rest, sep) {
            Some((front, _, back)) => {
                list.push_copy(alloc, back, ascii)?;
                rest = front;
                left -= 1;
            }
            None => return finished(alloc, list, rest, ascii),
        }
    }
    finished(alloc, list, rest, ascii)
}

impl PyStr {
    /// The pieces between the separators, found from the left. With no separator they are between
    /// runs of ASCII whitespace, and after `maxsplit` of them the rest from its next code point
    /// that is no whitespace is the last piece. (Python Library Reference, String Methods,
    /// `str.split`.)
    ///
    /// # Errors
    ///
    /// `EmptySeparator` where the separator is empty.
    pub fn split(&self, alloc: Global, args: &SplitArgs) -> PyResult<TextList>
        ensures empty { args.now.sep ≡ Some [] → result ≡ Err PyError.EmptySeparator }
        ensures err { args.now.sep ≢ Some [] → IsOkUnless result PyError.NoMemory }
        ensures ok { IfOk result (λ pieces.
            pieces ≡ split_by args.now.sep args.now.maxsplit self.now) }
    {
        let limit = limit_of(self, args.maxsplit);
        match &args.sep {
            None => whitespace::split_whitespace(alloc, self, limit),
            Some(sep) => {
                if sep.is_empty() {
                    return Err(PyError::EmptySeparator);
                }
                split_at(alloc, self, sep.as_str(), limit)
            }
        }
    }

    /// The pieces between the separators, found from the right, in order of the text; the mirror
    /// image of `split`. (Python Library Reference, String Methods, `str.rsplit`.)
    ///
    /// # Errors
    ///
    /// `EmptySeparator` where the separator is empty.
    pub fn rsplit(&self, alloc: Global, args: &SplitArgs) -> PyResult<TextList>
        ensures empty { args.now.sep ≡ Some [] → result ≡ Err PyError.EmptySeparator }
        ensures err { args.now.sep ≢ Some [] → IsOkUnless result PyError.NoMemory }
        ensures ok { IfOk result (λ pieces.
            pieces ≡ rsplit_by args.now.sep args.now.maxsplit self.now) }
    {
        let limit = limit_of(self, args.maxsplit);
        match &args.sep {
            None => whitespace::rsplit_whitespace(alloc, self, limit),
            Some(sep) => {
                if sep.is_empty() {
                    return Err(PyError::EmptySeparator);
                }
                rsplit_at(alloc, self, sep.as_str(), limit)
            }
        }
    }
}

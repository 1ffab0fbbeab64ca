//! Searches for a text in a window of a text.

ghost use Rattle.std.specs.Prelude.{◌≡◌, ◌≤◌, ◌<◌, ◌^◌, IfSome, length, chars, slice_range, is_some, ok_or};
ghost use Rattle.py_text.specs.Occurrences.{first_in, IsOccurrenceCount};
ghost use Rattle.py_text.specs.Search.{find, rfind, place_or_minus_one, begins_with, ends_with, count};

use crate::occurrences::{around_first, first_place, last_place};
use crate::text::PyStr;
use crate::window::window_of;
use py_base::{PyError, PyResult};

/// What is searched for, and the window that is searched: from `start` to `end`, in code points.
/// A negative place counts from the end; with none the window begins or ends with the text.
#[derive(Debug, Drop)]
pub struct FindArgs {
    pub sub: PyStr,
    pub start: Option<i128>,
    pub end: Option<i128>,
}

// The code points from `from` to `to`, borrowed.
fn between(text: &PyStr, from: usize, to: usize) -> &str
    requires order { from ≤ to }
    requires inside { to ≤ length text.now }
    ensures part { chars result.now ≡ slice_range text.now from to }
    ensures bound { length text.now < 2 ^ 63 }
{
    let whole = text.as_str();
    if to - from == text.len() {
        return whole;
    }
    text.get_chars(from..to)
}

// The first place in the window.
fn first_in_window(text: &PyStr, args: &FindArgs) -> Option<usize>
    ensures place { result ≡ find args.now.sub text.now args.now.start args.now.end }
    ensures bound { IfSome result (λ a. a < 2 ^ 63) }
{
    let (from, to) = window_of(text.len(), args.start, args.end)?;
    let part = between(text, from, to);
    let place = first_place(part, args.sub.as_str(), to - from)?;
    Some(from + place)
}

// The last place in the window.
fn last_in_window(text: &PyStr, args: &FindArgs) -> Option<usize>
    ensures place { result ≡ rfind args.now.sub text.now args.now.start args.now.end }
    ensures bound { IfSome result (λ a. a < 2 ^ 63) }
{
    let (from, to) = window_of(text.len(), args.start, args.end)?;
    let part = between(text, from, to);
    let place = last_place(part, args.sub.as_str(), to - from)?;
    Some(from + place)
}

// A place as Python gives it, -1 for none.
fn signed(place: Option<usize>) -> isize
    requires { IfSome place (λ a. a < 2 ^ 63) }
    ensures { result ≡ place_or_minus_one place }
{
    match place {
        Some(place) => place as isize,
        None => -1,
    }
}

// How many times the needle, which is not empty, occurs in the text, from the left and without
// overlap.
fn parts_in(text: &str, needle: &str) -> usize
    requires some { 0 < length (chars needle.now) }
    requires bound { length (chars text.now) < 2 ^ 63 }
    ensures { IsOccurrenceCount (chars needle.now) (chars text.now) result }
{
    let mut rest = text;
    let mut parts = 0;
    while let Some((_, _, back)) = around_first(rest, needle) {
        rest = back;
        parts += 1;
    }
    parts
}

impl PyStr {
    /// Whether the needle is a part of the text. It takes no memory.
    pub fn contains(&self, needle: &PyStr) -> bool
        ensures { result ≡ is_some (first_in needle.now self.now 0 (length self.now)) }
    {
        self.as_str().find(needle.as_str()).is_some()
    }

    /// The first place of `args.sub` in the window, in code points from the text's beginning, or
    /// -1. It takes no memory. (Python Library Reference, String Methods, `str.find`.)
    pub fn find(&self, args: &FindArgs) -> isize
        ensures { result
            ≡ place_or_minus_one (find args.now.sub self.now args.now.start args.now.end) }
    {
        signed(first_in_window(self, args))
    }

    /// The last place of `args.sub` in the window, in code points from the text's beginning, or
    /// -1. It takes no memory. (Python Library Reference, String Methods, `str.rfind`.)
    pub fn rfind(&self, args: &FindArgs) -> isize
        ensures { result
            ≡ place_or_minus_one (rfind args.now.sub self.now args.now.start args.now.end) }
    {
        signed(last_in_window(self, args))
    }

    /// The first place, as `find` gives it. It takes no memory. (Python Library Reference, String
    /// Methods, `str.index`.)
    ///
    /// # Errors
    ///
    /// `SubstringNotFound` where it does not occur.
    pub fn index(&self, args: &FindArgs) -> PyResult<usize>
        ensures { result
            ≡ ok_or (find args.now.sub self.now args.now.start args.now.end)
            PyError.SubstringNotFound }
    {
        first_in_window(self, args).ok_or(PyError::SubstringNotFound)
    }

    /// The last place, as `rfind` gives it. It takes no memory. (Python Library Reference, String
    /// Methods, `str.rindex`.)
    ///
    /// # Errors
    ///
    /// `SubstringNotFound` where it does not occur.
    pub fn rindex(&self, args: &FindArgs) -> PyResult<usize>
        ensures { result
            ≡ ok_or (rfind args.now.sub self.now args.now.start args.now.end)
            PyError.SubstringNotFound }
    {
        last_in_window(self, args).ok_or(PyError::SubstringNotFound)
    }

    /// How often `args.sub` occurs in the window, found from the left without overlap. An empty
    /// text occurs at each place of the window once. It takes no memory. (Python Library
    /// Reference, String Methods, `str.count`.)
    pub fn count(&self, args: &FindArgs) -> usize
        ensures { result ≡ count args.now.sub self.now args.now.start args.now.end }
    {
        match window_of(self.len(), args.start, args.end) {
            Some((from, to)) => {
                let part = between(self, from, to);
                if args.sub.is_empty() {
                    return to - from + 1;
                }
                parts_in(part, args.sub.as_str())
            }
            None => 0,
        }
    }

    /// Whether the window begins with `affix`. It takes no memory. (Python Library Reference,
    /// String Methods, `str.startswith`.)
    pub fn startswith(&self, affix: &PyStr, start: Option<i128>, end: Option<i128>) -> bool
        ensures { result ≡ begins_with affix.now self.now start end }
    {
        match window_of(self.len(), start, end) {
            Some((from, to)) => between(self, from, to).starts_with(affix.as_str()),
            None => false,
        }
    }

    /// Whether the window ends with `affix`. It takes no memory. (Python Library Reference, String
    /// Methods, `str.endswith`.)
    pub fn endswith(&self, affix: &PyStr, start: Option<i128>, end: Option<i128>) -> bool
        ensures { result ≡ ends_with affix.now self.now start end }
    {
        match window_of(self.len(), start, end) {
            Some((from, to)) => between(self, from, to).ends_with(affix.as_str()),
            None => false,
        }
    }
}

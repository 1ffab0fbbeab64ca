//! A percent template, read from its beginning, a character at a time, or up to the next `%`.

ghost use Rattle.std.specs.Prelude.{◌≡◌, ◌∷◌, ◌++◌, ◌&&◌, [], chars, take, drop, length, IsCharBoundary, MatchOption, OnOk, IsOkUnless, if◌then◌else◌};
ghost use Rattle.py_base.specs.Reading.{is_next};
ghost use Rattle.py_spec.specs.Percent.Literals as spec;

use py_base::{PyError, PyResult};
use py_text::PyStr;
use std::marker::Model;

/// What is left of a template. Contracts see its characters.
#[derive(Drop)]
pub(crate) struct Reader<'t> {
    rest: &'t str,
    left: usize,
}

impl<'t> Model for Reader<'t> {
    ghost use Rattle.std.specs.Prelude.{◌≡◌, List, ℕ, chars, length};

    ghost Value = { List ℕ };

    ghost view = { λ r. chars r.rest.now };

    ghost invariant = { λ r. r.left ≡ length (chars r.rest.now) };
}

// How many bytes are before the first `%`.
fn plain_len(text: &str) -> usize
    ensures boundary { IsCharBoundary text.now result }
    ensures plain { chars (take result text.now) ≡ spec.plain (chars text.now) }
    ensures rest { chars (drop result text.now) ≡ spec.after_plain (chars text.now) }
{
    match text.find('%') {
        Some(at) => at,
        None => text.len(),
    }
}

impl<'t> Reader<'t> {
    pub(crate) fn new(text: &'t PyStr) -> Reader<'t>
        ensures { result ≡ text.entry.now }
    {
        Reader {
            rest: text.as_str(),
            left: text.len(),
        }
    }

    /// How many characters are left.
    pub(crate) fn left(&self) -> usize
        ensures { result ≡ length self.now }
    {
        self.left
    }

    /// The next character, which stays.
    pub(crate) fn peek(&self) -> Option<char>
        ensures { MatchOption result (self.now ≡ []) (λ c. self.now ≡ c ∷ drop 1 self.now) }
    {
        let mut rest = self.rest.chars();
        rest.next()
    }

    /// Passes over the next character.
    pub(crate) fn skip(&mut self)
        ensures { self.new ≡ drop 1 self.old }
    {
        let mut rest = self.rest.chars();
        match rest.next() {
            Some(_) => {
                self.rest = rest.as_str();
                self.left -= 1;
            }
            None => {}
        }
    }

    /// Whether this character comes next; then it is passed over.
    pub(crate) fn takes(&mut self, c: char) -> bool
        ensures next { result ≡ is_next c self.old }
        ensures rest { self.new ≡ (if is_next c self.old then drop 1 self.old else self.old) }
    {
        match self.peek() {
            Some(next) => {
                if next == c {
                    self.skip();
                    true
                } else {
                    false
                }
            }
            None => false,
        }
    }

    /// Whether this character comes next twice; then both are passed over.
    pub(crate) fn takes_two(&mut self, c: char) -> bool
        ensures next { result ≡ (is_next c self.old && is_next c (drop 1 self.old)) }
        ensures rest { self.new ≡ (if result then drop 2 self.old else self.old) }
    {
        let mut ahead = Reader {
            rest: self.rest,
            left: self.left,
        };
        if ahead.takes(c) {
            if ahead.takes(c) {
                *self = ahead;
                return true;
            }
        }
        false
    }

    /// Puts what is before the next `%`, or all that is left, at the end of the text.
    pub(crate) fn plain(&mut self, text: &mut PyStr) -> PyResult<()>
        ensures text { OnOk result (text.new ≡ text.old ++ spec.plain self.old) }
        ensures rest { OnOk result (self.new ≡ spec.after_plain self.old) }
        ensures err { IsOkUnless result PyError.NoMemory }
    {
        let (front, rest) = self.rest.split_at(plain_len(self.rest));
        let before = text.len();
        text.append(front)?;
        self.left -= text.len() - before;
        self.rest = rest;
        Ok(())
    }
}

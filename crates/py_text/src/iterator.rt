//! An iterator over the code points of a text.

ghost use Rattle.std.specs.Prelude.{◌≡◌, ◌+◌, ◌≤◌, pos, unsigned_abs, Some, length, drop, slice_get, IfSome};
ghost use Rattle.py_text.specs.IteratorState.{position_of};
ghost use Rattle.py_text.specs.Iterator.{rest_of, next_of, after_next, moved_to};
ghost use Rattle.py_text.specs.Subscript.{clamp};

use crate::shared::PyStrRef;
use std::marker::Model;

// A place in a text, in code points, and how many bytes are before it.
#[derive(Debug, Drop)]
struct Cursor {
    text: PyStrRef,
    place: usize,
    offset: usize,
}

impl Model for Cursor {
    ghost use Rattle.py_text.specs.Iterator.{Position, IsCursor};

    ghost Value = { Position };

    ghost view = { λ cursor. record { text = cursor.text; place = cursor.place } };

    ghost invariant = { λ cursor. IsCursor cursor.text cursor.place cursor.offset };
}

impl Cursor {
    fn at(text: PyStrRef, place: usize) -> Cursor
        requires { place ≤ length text }
        ensures { result ≡ record { text = text; place = place } }
    {
        let offset = text.as_pystr().byte_place(place);
        Cursor {
            text,
            place,
            offset,
        }
    }

    // The code point at the place, and the place moves on.
    fn next(&mut self) -> Option<char>
        ensures item { result ≡ slice_get self.old.text self.old.place }
        ensures some { IfSome result (λ _.
            self.new ≡ record { text = self.old.text; place = self.old.place + 1 }) }
    {
        let rest = &self.text.as_pystr().as_str()[self.offset..];
        let c = rest.chars().next()?;
        self.offset += c.len_utf8();
        self.place += 1;
        Some(c)
    }

    fn left(&self) -> usize
        ensures { result ≡ length (drop self.now.place self.now.text) }
    {
        self.text.as_pystr().len() - self.place
    }

    // The same text at another place, clamped to the text.
    fn moved(self, state: i128) -> Cursor
        ensures { result
            ≡ record {
              text = self.text;
              place = unsigned_abs (clamp (pos 0) (pos (length self.text)) state);
            } }
    {
        let place = clamped(state, self.text.as_pystr().len());
        Cursor::at(self.text, place)
    }
}

// A place, clamped to a text of `len` code points.
fn clamped(state: i128, len: usize) -> usize
    ensures place { result ≡ unsigned_abs (clamp (pos 0) (pos len) state) }
    ensures inside { result ≤ len }
{
    if state < 0 {
        0
    } else {
        state.unsigned_abs().min(len as u128) as usize
    }
}

/// An iterator over the code points of a text. Contracts see the text and the place, or nothing
/// where it is exhausted: an exhausted iterator keeps no text. No call takes memory.
#[derive(Debug, Drop)]
pub struct PyStrIterator {
    cursor: Option<Cursor>,
}

impl Model for PyStrIterator {
    ghost use Rattle.std.specs.Prelude.{Option};
    ghost use Rattle.py_text.specs.Iterator.{Position};

    ghost Value = { Option Position };

    ghost view = { λ it. it.cursor };
}

/// What an iterator is, to be stored: its text and its place, in code points, or that it is
/// exhausted.
#[derive(Clone, Copy, Debug)]
pub enum IterState<'a> {
    Active(&'a PyStrRef, usize),
    Exhausted,
}

impl PyStrIterator {
    /// An iterator at the beginning of the text.
    pub fn new(text: PyStrRef) -> PyStrIterator
        ensures { result ≡ Some (record { text = text; place = 0 }) }
    {
        PyStrIterator {
            cursor: Some(Cursor::at(text, 0)),
        }
    }

    /// The code point at the place, and the iterator moves on. At the end it answers none and is
    /// exhausted for good.
    pub fn next(&mut self) -> Option<char>
        ensures item { result ≡ next_of self.old }
        ensures after { self.new ≡ after_next self.old }
    {
        let Some(cursor) = &mut self.cursor else {
            return None;
        };
        let c = cursor.next();
        if c.is_none() {
            self.cursor = None;
        }
        c
    }

    /// How many code points are still to come.
    pub fn length_hint(&self) -> usize
        ensures { result ≡ length (rest_of self.now) }
    {
        match &self.cursor {
            Some(cursor) => cursor.left(),
            None => 0,
        }
    }

    /// Moves the iterator to a place, in code points, clamped to the text. An exhausted one stays
    /// exhausted.
    pub fn setstate(&mut self, state: i128)
        ensures { self.new ≡ moved_to state self.old }
    {
        if let Some(cursor) = self.cursor.take() {
            self.cursor = Some(cursor.moved(state));
        }
    }

    /// The text, borrowed, and the place, or that the iterator is exhausted.
    pub fn reduce(&self) -> IterState<'_>
        ensures { position_of result ≡ self.now }
    {
        match &self.cursor {
            Some(cursor) => IterState::Active(&cursor.text, cursor.place),
            None => IterState::Exhausted,
        }
    }
}

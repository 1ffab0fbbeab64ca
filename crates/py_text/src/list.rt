//! A list of texts.

ghost use Rattle.std.specs.Prelude.{◌≡◌, true, [], ◌∷◌, ◌++◌, length, reverse, slice_get, option_copied, chars, OnOk, OnErr, IsOkUnless};
ghost use Rattle.py_text.specs.Text.{all_ascii};

use crate::points::count_of_part;
use crate::text::PyStr;
use py_base::{PyError, PyResult};
use std::alloc::Global;
use std::marker::Model;

/// A list of texts. Contracts see the list of their lists of code points.
#[derive(Debug, Drop)]
pub struct TextList {
    items: Vec<PyStr>,
}

impl Model for TextList {
    ghost use Rattle.std.specs.Prelude.{List, ℕ};

    ghost Value = { List (List ℕ) };

    ghost view = { λ list. list.items.items };
}

impl TextList {
    /// No text. It takes no memory, and keeps the allocator for `push`.
    pub fn new(alloc: Global) -> TextList
        ensures { result ≡ [] }
    {
        TextList {
            items: Vec::new(alloc),
        }
    }

    /// Appends a text. On an error the text is dropped.
    pub fn push(&mut self, text: PyStr) -> PyResult<()>
        ensures ok { OnOk result (self.new ≡ self.old ++ text ∷ []) }
        ensures same { OnErr result (self.new ≡ self.old) }
        ensures err { IsOkUnless result PyError.NoMemory }
    {
        match self.items.push(text) {
            Ok(()) => Ok(()),
            Err(_) => Err(PyError::NoMemory),
        }
    }

    /// Appends a copy of a part of a text. With `ascii` all of it is ASCII, and nothing is counted.
    pub(crate) fn push_copy(&mut self, alloc: Global, part: &str, ascii: bool) -> PyResult<()>
        requires { ascii ≡ true → all_ascii (chars part.now) ≡ true }
        ensures ok { OnOk result (self.new ≡ self.old ++ chars part.now ∷ []) }
        ensures err { IsOkUnless result PyError.NoMemory }
    {
        let count = count_of_part(part, ascii);
        self.push(PyStr::copy_counted(alloc, part, count)?)
    }

    // Reverses the list.
    pub(crate) fn reverse(&mut self)
        ensures { self.new ≡ reverse self.old }
    {
        self.items.reverse();
    }

    /// The texts, borrowed.
    pub(crate) fn as_slice(&self) -> &[PyStr]
        ensures { result.now ≡ self.now }
    {
        &self.items
    }

    /// How many texts there are.
    pub fn len(&self) -> usize
        ensures { result ≡ length self.now }
    {
        self.items.len()
    }

    /// The text at a place, counted from 0.
    pub fn get(&self, i: usize) -> Option<&PyStr>
        ensures { option_copied result ≡ slice_get self.now i }
    {
        self.items.get(i)
    }
}

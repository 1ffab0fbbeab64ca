//! A text: its code points, their count, and whether all are ASCII.

ghost use Rattle.std.specs.Prelude.{◌≡◌, ◌≤◌, ◌+◌, ◌==◌, [], ◌∷◌, ◌++◌, length, drop, chars, encode_utf8_all, slice_range, string_bytes, IfOk, OnOk, OnErr, IsOkUnless, true};
ghost use Rattle.std.specs.Str.{IsCharBoundary};
ghost use Rattle.py_text.specs.Text.{all_ascii};

use crate::points::{count_points, offset_in, part_of};
use py_base::{PyError, PyResult};
use std::alloc::Global;
use std::fmt;
use std::marker::Model;
use std::ops::Range;

/// A text. Contracts see the list of its code points.
#[derive(Debug, Drop)]
pub struct PyStr {
    text: String,
    ascii: bool,
    count: usize,
}

impl Model for PyStr {
    ghost use Rattle.std.specs.Prelude.{List, ℕ, chars, string_bytes};
    ghost use Rattle.py_text.specs.Text.{IsMarked};

    ghost Value = { List ℕ };

    ghost view = { λ a. chars (string_bytes a.text) };

    ghost invariant = { λ a. IsMarked (chars (string_bytes a.text)) a.ascii a.count };
}

impl From<String> for PyStr {
    ghost use Rattle.std.specs.Prelude.{◌≡◌, chars, string_bytes};

    ghost from_gives = { λ text made. made ≡ chars (string_bytes text) };

    /// The text, moved. It takes no memory.
    fn from(text: String) -> PyStr {
        let count = count_points(text.as_str());
        PyStr::with_count(text, count)
    }
}

impl PyStr {
    /// A copy of the text.
    pub fn copy_of(alloc: Global, s: &str) -> PyResult<PyStr>
        ensures ok { IfOk result (λ made. made ≡ chars s.now) }
        ensures err { IsOkUnless result PyError.NoMemory }
    {
        PyStr::copy_counted(alloc, s, count_points(s))
    }

    /// A copy of a text of `count` code points. Nothing is counted.
    pub fn copy_counted(alloc: Global, s: &str, count: usize) -> PyResult<PyStr>
        requires { count ≡ length (chars s.now) }
        ensures ok { IfOk result (λ made. made ≡ chars s.now) }
        ensures err { IsOkUnless result PyError.NoMemory }
    {
        let text = String::from_str(alloc, s)?;
        Ok(PyStr::with_count(text, count))
    }

    /// The text of `count` code points, moved. It takes no memory, and nothing is counted.
    pub fn with_count(text: String, count: usize) -> PyStr
        requires { count ≡ length (chars (string_bytes text)) }
        ensures { result ≡ chars (string_bytes text) }
    {
        let ascii = count == text.as_str().len();
        PyStr { text, ascii, count }
    }

    /// The text of one character.
    pub fn from_char(alloc: Global, c: char) -> PyResult<PyStr>
        ensures ok { IfOk result (λ made. made ≡ c ∷ []) }
        ensures err { IsOkUnless result PyError.NoMemory }
    {
        let mut text = String::new(alloc);
        text.push(c)?;
        Ok(PyStr::with_count(text, 1))
    }

    /// The text of ASCII bytes, moved. It takes no memory.
    pub fn new_ascii_unchecked(bytes: Vec<u8>) -> PyStr
        requires { all_ascii bytes.items ≡ true }
        ensures { result ≡ bytes.items }
    {
        let count = bytes.len();
        let text = unsafe { String::from_utf8_unchecked(bytes) };
        PyStr {
            text,
            ascii: true,
            count,
        }
    }

    /// The text, borrowed.
    pub fn as_str(&self) -> &str
        ensures value { chars result.now ≡ self.now }
        ensures bytes { result.now ≡ encode_utf8_all self.now }
    {
        self.text.as_str()
    }

    /// How many bytes the text takes in UTF-8.
    pub fn byte_len(&self) -> usize
        ensures { result ≡ length (encode_utf8_all self.now) }
    {
        self.text.as_str().len()
    }

    /// How many code points there are.
    pub fn char_len(&self) -> usize
        ensures { result ≡ length self.now }
    {
        self.count
    }

    /// How many code points there are. (Python Library Reference, Built-in Functions, `len`.)
    pub fn len(&self) -> usize
        ensures { result ≡ length self.now }
    {
        self.count
    }

    /// How many places there are, each before a code point or at the end.
    pub(crate) fn place_count(&self) -> usize
        ensures { result ≡ length self.now + 1 }
    {
        self.count + 1
    }

    /// Whether there is no code point.
    pub fn is_empty(&self) -> bool
        ensures { result ≡ (length self.now == 0) }
    {
        self.count == 0
    }

    /// Whether each code point is below 128.
    pub fn is_ascii(&self) -> bool
        ensures { result ≡ all_ascii self.now }
    {
        self.ascii
    }

    /// The code points of the range, borrowed. On an ASCII text nothing is walked over.
    pub fn get_chars(&self, range: Range<usize>) -> &str
        requires order { range.start ≤ range.end }
        requires inside { range.end ≤ length self.now }
        ensures { chars result.now ≡ slice_range self.now range.start range.end }
    {
        let text = self.as_str();
        if self.is_ascii() {
            &text[range.start..range.end]
        } else {
            part_of(text, self.len(), range.start, range.end)
        }
    }

    /// How many bytes the first `n` code points take. On an ASCII text nothing is walked over.
    pub(crate) fn byte_place(&self, n: usize) -> usize
        requires { n ≤ length self.now }
        ensures place { IsCharBoundary (encode_utf8_all self.now) result }
        ensures after { chars (drop result (encode_utf8_all self.now)) ≡ drop n self.now }
    {
        if self.is_ascii() {
            n
        } else {
            offset_in(self.as_str(), self.len(), n)
        }
    }

    /// A copy of the text.
    pub fn try_clone(&self, alloc: Global) -> PyResult<PyStr>
        ensures ok { IfOk result (λ made. made ≡ self.now) }
        ensures err { IsOkUnless result PyError.NoMemory }
    {
        let text = String::from_str(alloc, self.text.as_str())?;
        Ok(PyStr {
            text,
            ascii: self.ascii,
            count: self.count,
        })
    }

    /// Appends a text.
    pub fn append(&mut self, more: &str) -> PyResult<()>
        ensures ok { OnOk result (self.new ≡ self.old ++ chars more.now) }
        ensures same { OnErr result (self.new ≡ self.old) }
        ensures err { IsOkUnless result PyError.NoMemory }
    {
        self.append_counted(more, count_points(more))
    }

    /// Appends a text of `count` code points. Nothing is counted.
    pub fn append_counted(&mut self, more: &str, count: usize) -> PyResult<()>
        requires { count ≡ length (chars more.now) }
        ensures ok { OnOk result (self.new ≡ self.old ++ chars more.now) }
        ensures same { OnErr result (self.new ≡ self.old) }
        ensures err { IsOkUnless result PyError.NoMemory }
    {
        let Ok(()) = self.text.push_str(more) else {
            return Err(PyError::NoMemory);
        };
        self.count += count;
        self.ascii = self.count == self.text.as_str().len();
        Ok(())
    }

    /// Appends one character.
    pub fn append_char(&mut self, c: char) -> PyResult<()>
        ensures ok { OnOk result (self.new ≡ self.old ++ c ∷ []) }
        ensures same { OnErr result (self.new ≡ self.old) }
        ensures err { IsOkUnless result PyError.NoMemory }
    {
        let Ok(()) = self.text.push(c) else {
            return Err(PyError::NoMemory);
        };
        let bytes = self.text.as_str().len();
        self.count += 1;
        self.ascii = self.count == bytes;
        Ok(())
    }
}

impl fmt::Display for PyStr {
    ghost use Rattle.std.specs.Prelude.{Some, encode_utf8_all};

    ghost output = { λ text. Some (encode_utf8_all text) };

    fn fmt<W: fmt::Write>(&self, f: &mut fmt::Formatter<W>) -> fmt::Result {
        f.write_str(self.as_str())
    }
}

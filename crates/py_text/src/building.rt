//! Texts that are built: of nothing, of characters, and of parts whose code points are known.

ghost use Rattle.std.specs.Prelude.{◌≡◌, ◌++◌, [], true, IfOk, OnOk, OnErr, IsOkUnless};
ghost use Rattle.py_text.specs.Text.{all_ascii};

use crate::text::PyStr;
use py_base::{PyError, PyResult};
use std::alloc::Global;

impl PyStr {
    /// The empty text. It takes no memory, and keeps the allocator for what is appended.
    pub fn new(alloc: Global) -> PyStr
        ensures { result ≡ [] }
    {
        PyStr::with_count(String::new(alloc), 0)
    }

    /// The empty text, with room for so many bytes of UTF-8.
    pub fn with_capacity(alloc: Global, bytes: usize) -> PyResult<PyStr>
        ensures ok { IfOk result (λ made. made ≡ []) }
        ensures err { IsOkUnless result PyError.NoMemory }
    {
        let text = String::with_capacity(alloc, bytes)?;
        Ok(PyStr::with_count(text, 0))
    }

    /// The text of the characters.
    pub fn from_chars(alloc: Global, points: &[char]) -> PyResult<PyStr>
        ensures ok { IfOk result (λ made. made ≡ points.now) }
        ensures err { IsOkUnless result PyError.NoMemory }
    {
        let mut text = String::with_capacity(alloc, points.len())?;
        for point in points {
            text.push(*point)?;
        }
        Ok(PyStr::with_count(text, points.len()))
    }

    /// The characters of the text.
    pub fn to_chars(&self, alloc: Global) -> PyResult<Vec<char>>
        ensures ok { IfOk result (λ made. made.items ≡ self.now) }
        ensures err { IsOkUnless result PyError.NoMemory }
    {
        let mut made = Vec::with_capacity(alloc, self.len())?;
        let mut rest = self.as_str().chars();
        'chars: while let Some(point) = rest.next() {
            made.push(point)?;
        }
        Ok(made)
    }

    /// Appends a text. Nothing is counted.
    pub fn append_text(&mut self, more: &PyStr) -> PyResult<()>
        ensures ok { OnOk result (self.new ≡ self.old ++ more.now) }
        ensures same { OnErr result (self.new ≡ self.old) }
        ensures err { IsOkUnless result PyError.NoMemory }
    {
        self.append_counted(more.as_str(), more.len())
    }

    /// Appends an ASCII text: its bytes are its code points, and nothing is counted.
    pub fn append_ascii(&mut self, run: &str) -> PyResult<()>
        requires { all_ascii run.now ≡ true }
        ensures ok { OnOk result (self.new ≡ self.old ++ run.now) }
        ensures same { OnErr result (self.new ≡ self.old) }
        ensures err { IsOkUnless result PyError.NoMemory }
    {
        self.append_counted(run, run.len())
    }
}

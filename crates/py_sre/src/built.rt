//! What is built of literals and of parts of a subject.

ghost use Rattle.std.specs.Prelude.{◌≡◌, ◌++◌, ◌≤◌, [], true, List, ℕ, slice_range, OnOk, IsOkUnless, ⊤};
ghost use Rattle.py_base.specs.declared.error.PyError.TheVariants.{NoMemory};
ghost use Rattle.py_text.specs.Text.{all_ascii};

use py_base::{PyError, PyResult};
use py_text::{PyBytes, PyStr};
use sre_match::{ByteView, StrDrive, StringCursor, TextView};
use std::alloc::Global;

/// A text, or bytes, to which literals of the type `T` and parts of what views of the type `S` see
/// are appended.
pub(crate) trait Built<S: StrDrive, T>: Drop {
    /// The units that were appended.
    ghost units: { Self → List ℕ };

    /// The units of a literal.
    ghost literal_units: { T → List ℕ };

    /// Whether the units of a view are such as can be appended.
    ghost takes: { List ℕ → Type 0 };

    /// What has no unit.
    fn empty(alloc: Global) -> Self
        ensures { units result ≡ [] };

    /// Appends a literal.
    fn append_literal(&mut self, literal: &T) -> PyResult<()>
        ensures ok { OnOk result (units self.new ≡ units self.old ++ literal_units literal.now) }
        ensures err { IsOkUnless result NoMemory };

    /// Appends the part between two cursors.
    fn append_part(&mut self, view: &S, from: &StringCursor, to: &StringCursor) -> PyResult<()>
        requires taken { takes (S.units view.now) }
        requires from_fits { S.fits (S.units view.now) from.now ≡ true }
        requires to_fits { S.fits (S.units view.now) to.now ≡ true }
        requires order { from.now.place ≤ to.now.place }
        ensures ok { let part = slice_range (S.units view.now) from.now.place to.now.place in
            OnOk result (units self.new ≡ units self.old ++ part) }
        ensures err { IsOkUnless result NoMemory };
}

// Appends ASCII bytes to a text.
#[tactic(auto, using(crate::proofs::AsciiLemmas::ascii_is_utf8, crate::proofs::AsciiLemmas::ascii_chars))]
fn append_ascii(text: &mut PyStr, bytes: &[u8]) -> PyResult<()>
    requires { all_ascii bytes.now ≡ true }
    ensures ok { OnOk result (text.new ≡ text.old ++ bytes.now) }
    ensures err { IsOkUnless result NoMemory }
{
    let more = unsafe { str::from_utf8_unchecked(bytes) };
    text.append_counted(more, bytes.len())
}

impl<'s> Built<TextView<'s>, PyStr> for PyStr {
    ghost units = { λ text. text };

    ghost literal_units = { λ text. text };

    ghost takes = { λ _. ⊤ };

    fn empty(alloc: Global) -> PyStr
        ensures { result ≡ [] }
    {
        PyStr::from(String::new(alloc))
    }

    fn append_literal(&mut self, literal: &PyStr) -> PyResult<()>
        ensures ok { OnOk result (self.new ≡ self.old ++ literal.now) }
        ensures err { IsOkUnless result NoMemory }
    {
        self.append_counted(literal.as_str(), literal.len())
    }

    fn append_part(
        &mut self,
        view: &TextView<'s>,
        from: &StringCursor,
        to: &StringCursor,
    ) -> PyResult<()> {
        let count = to.position() - from.position();
        self.append_counted(view.slice(from, to), count)
    }
}

/// An ASCII text is read as bytes.
impl<'s> Built<ByteView<'s>, PyStr> for PyStr {
    ghost units = { λ text. text };

    ghost literal_units = { λ text. text };

    ghost takes = { λ units. all_ascii units ≡ true };

    fn empty(alloc: Global) -> PyStr
        ensures { result ≡ [] }
    {
        PyStr::from(String::new(alloc))
    }

    fn append_literal(&mut self, literal: &PyStr) -> PyResult<()>
        ensures ok { OnOk result (self.new ≡ self.old ++ literal.now) }
        ensures err { IsOkUnless result NoMemory }
    {
        self.append_counted(literal.as_str(), literal.len())
    }

    fn append_part(
        &mut self,
        view: &ByteView<'s>,
        from: &StringCursor,
        to: &StringCursor,
    ) -> PyResult<()> {
        append_ascii(self, view.slice(from, to))
    }
}

impl<'s> Built<ByteView<'s>, PyBytes> for Vec<u8> {
    ghost units = { λ bytes. bytes.items };

    ghost literal_units = { λ bytes. bytes };

    ghost takes = { λ _. ⊤ };

    fn empty(alloc: Global) -> Vec<u8>
        ensures { result.items ≡ [] }
    {
        Vec::new(alloc)
    }

    fn append_literal(&mut self, literal: &PyBytes) -> PyResult<()>
        ensures ok { OnOk result (self.new.items ≡ self.old.items ++ literal.now) }
        ensures err { IsOkUnless result NoMemory }
    {
        self.extend_from_slice(literal.as_bytes())?;
        Ok(())
    }

    fn append_part(
        &mut self,
        view: &ByteView<'s>,
        from: &StringCursor,
        to: &StringCursor,
    ) -> PyResult<()> {
        self.extend_from_slice(view.slice(from, to))?;
        Ok(())
    }
}

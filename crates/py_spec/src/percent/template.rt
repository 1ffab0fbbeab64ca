//! The parts of a percent template.

ghost use Rattle.std.specs.Prelude.{◌≡◌, ◌<◌, ◌++◌, ◌∷◌, [], None, Some, length, slice_get, OnOk, IfOk, IsOkUnless, MatchOption};
ghost use Rattle.py_spec.specs.Percent.Literals.{literal};
ghost use Rattle.py_spec.specs.Percent.Reading.{Meets, with_rest};
ghost use Rattle.py_spec.specs.Percent.Specifiers.{specifiers_of};
ghost use Rattle.py_spec.specs.Percent.Template as spec;

use crate::percent::parts::{CFormatPart, CFormatSpec};
use crate::percent::reader::Reader;
use crate::percent::specifiers;
use py_base::{PyError, PyResult};
use py_text::PyStr;
use std::alloc::Global;
use std::marker::Model;

/// The parts of a percent template. Contracts see their list, each with its place.
#[derive(Debug, Drop)]
pub struct CFormatString {
    parts: Vec<(usize, CFormatPart)>,
}

impl Model for CFormatString {
    ghost use Rattle.std.specs.Prelude.{List, ℕ};
    ghost use Rattle.py_spec.specs.declared.percent.parts.CFormatPart.{CFormatPart};

    ghost Value = { List (ℕ × CFormatPart) };

    ghost view = { λ a. a.parts.items };
}

// A literal, and the specifier after it with its place.
type Turn = (PyStr, Option<(usize, CFormatSpec)>);

impl<'t> Reader<'t> {
    // The longest literal at the beginning.
    fn literal(&mut self, alloc: Global) -> PyResult<PyStr>
        ensures ok { IfOk result (λ text. literal self.old ≡ (text, self.new)) }
        ensures err { IsOkUnless result PyError.NoMemory }
    {
        let mut text = PyStr::new(alloc);
        self.plain(&mut text)?;
        'percents: while self.takes_two('%') {
            text.append_char('%')?;
            self.plain(&mut text)?;
        }
        Ok(text)
    }

    // A literal, and the specifier after it.
    fn turn(&mut self, alloc: Global, whole: usize) -> PyResult<Turn>
        ensures { Meets (spec.read_turn whole self.old) (with_rest result self.new) }
    {
        let text = self.literal(alloc)?;
        let place = self.place(whole);
        if self.left() == 0 {
            return Ok((text, None));
        }
        self.skip();
        let read = self.specifier(alloc, whole)?;
        Ok((text, Some((place, read))))
    }
}

impl CFormatString {
    fn put(&mut self, place: usize, part: CFormatPart) -> PyResult<()>
        ensures ok { OnOk result (self.new ≡ self.old ++ (place, part) ∷ []) }
        ensures err { IsOkUnless result PyError.NoMemory }
    {
        let Ok(()) = self.parts.push((place, part)) else {
            return Err(PyError::NoMemory);
        };
        Ok(())
    }

    fn put_literal(&mut self, place: usize, text: PyStr) -> PyResult<()>
        ensures ok { OnOk result (self.new ≡ self.old ++ spec.literal_part place text) }
        ensures err { IsOkUnless result PyError.NoMemory }
    {
        if text.is_empty() {
            return Ok(());
        }
        self.put(place, CFormatPart::Literal(text))
    }

    fn put_spec(&mut self, read: Option<(usize, CFormatSpec)>) -> PyResult<()>
        ensures ok { OnOk result (self.new ≡ self.old ++ spec.spec_part read) }
        ensures err { IsOkUnless result PyError.NoMemory }
    {
        match read {
            Some((place, read)) => self.put(place, CFormatPart::Spec(read)),
            None => Ok(()),
        }
    }

    fn put_turn(&mut self, place: usize, turn: Turn) -> PyResult<()>
        ensures ok { OnOk result (self.new ≡ self.old ++ spec.turn_parts place turn) }
        ensures err { IsOkUnless result PyError.NoMemory }
    {
        let (text, read) = turn;
        self.put_literal(place, text)?;
        self.put_spec(read)
    }

    /// The parts of a template: literals in longest runs and specifiers, each with the place where
    /// it begins, in code points. (Python Library Reference, printf-style String Formatting.)
    ///
    /// # Errors
    ///
    /// `PercentParse` or `NotCarried` for the first fault from the left, and `NoMemory`.
    pub fn parse(alloc: Global, text: &PyStr) -> PyResult<CFormatString>
        ensures { Meets (spec.percent_parts text.now) result }
    {
        let whole = text.len();
        let mut made = CFormatString {
            parts: Vec::new(alloc),
        };
        let mut reader = Reader::new(text);
        while reader.left() > 0 {
            let place = reader.place(whole);
            let turn = reader.turn(alloc, whole)?;
            made.put_turn(place, turn)?;
        }
        Ok(made)
    }

    /// The parts with their places, borrowed.
    pub fn parts(&self) -> &[(usize, CFormatPart)]
        ensures { result.now ≡ self.now }
    {
        &self.parts
    }

    /// How many parts there are.
    pub fn len(&self) -> usize
        ensures { result ≡ length self.now }
    {
        self.parts.len()
    }

    /// The part at a place in the list, from 0, and the place in the template where it begins.
    pub fn part(&self, i: usize) -> Option<(usize, &CFormatPart)>
        ensures { MatchOption result (slice_get self.now i ≡ None)
            (λ p. slice_get self.now i ≡ Some (p.0, p.1.now)) }
    {
        match self.parts.get(i) {
            Some((place, part)) => Some((*place, part)),
            None => None,
        }
    }

    /// How many specifiers there are, and whether they have keys; none where some have and some
    /// have not.
    pub fn check_specifiers(&self) -> Option<(usize, bool)>
        ensures { result ≡ specifiers_of self.now }
    {
        specifiers::specifiers_of(&self.parts)
    }
}

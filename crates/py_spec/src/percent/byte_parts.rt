//! The parts of a percent template of bytes.

ghost use Rattle.std.specs.Prelude.{◌≡◌, ◌++◌, ◌∷◌, [], None, Some, true, length, option_map, slice_get, IfOk, OnOk, IsOkUnless, MatchOption};
ghost use Rattle.py_spec.specs.Percent.ByteParts as spec;
ghost use Rattle.py_spec.specs.Percent.Reading.{Meets};
ghost use Rattle.py_spec.specs.Percent.Specifiers.{specifiers_of};

use crate::percent::latin::{bytes_of_text, text_of_bytes};
use crate::percent::parts::{CFormatKey, CFormatPart, CFormatSpec};
use crate::percent::specifiers;
use crate::percent::template::CFormatString;
use py_base::{PyError, PyResult};
use std::alloc::Global;
use std::marker::Model;

/// The parts of a percent template of bytes. Contracts see their list, each with its place.
#[derive(Debug, Drop)]
pub struct CFormatBytes {
    parts: Vec<(usize, CFormatPart)>,
}

impl Model for CFormatBytes {
    ghost use Rattle.std.specs.Prelude.{List, ℕ};
    ghost use Rattle.py_spec.specs.declared.percent.parts.CFormatPart.{CFormatPart};

    ghost Value = { List (ℕ × CFormatPart) };

    ghost view = { λ a. a.parts.items };
}

fn key_bytes(alloc: Global, key: &CFormatKey) -> PyResult<CFormatKey>
    requires { spec.is_byte_key (Some key.now) ≡ true }
    ensures ok { IfOk result (λ made. made ≡ spec.key_bytes key.now) }
    ensures err { IsOkUnless result PyError.NoMemory }
{
    match key {
        CFormatKey::Text(text) => Ok(CFormatKey::Bytes(bytes_of_text(alloc, text)?)),
        CFormatKey::Bytes(bytes) => Ok(CFormatKey::Bytes(bytes.try_clone(alloc)?)),
    }
}

fn mapping_key_bytes(alloc: Global, read: &CFormatSpec) -> PyResult<Option<CFormatKey>>
    requires { spec.is_byte_key read.now.mapping_key ≡ true }
    ensures ok { IfOk result (λ made. made
        ≡ option_map spec.key_bytes read.now.mapping_key) }
    ensures err { IsOkUnless result PyError.NoMemory }
{
    match &read.mapping_key {
        Some(key) => Ok(Some(key_bytes(alloc, key)?)),
        None => Ok(None),
    }
}

fn spec_bytes(alloc: Global, read: &CFormatSpec) -> PyResult<CFormatSpec>
    requires { spec.is_byte_key read.now.mapping_key ≡ true }
    ensures ok { IfOk result (λ made. made ≡ spec.spec_bytes read.now) }
    ensures err { IsOkUnless result PyError.NoMemory }
{
    let mapping_key = mapping_key_bytes(alloc, read)?;
    Ok(CFormatSpec {
        mapping_key,
        flags: read.flags,
        min_field_width: read.min_field_width,
        precision: read.precision,
        format_type: read.format_type,
        format_char: read.format_char,
    })
}

fn part_bytes(alloc: Global, part: &CFormatPart) -> PyResult<CFormatPart>
    requires { spec.is_byte_part part.now ≡ true }
    ensures ok { IfOk result (λ made. made ≡ spec.part_bytes part.now) }
    ensures err { IsOkUnless result PyError.NoMemory }
{
    match part {
        CFormatPart::Literal(text) => Ok(CFormatPart::LiteralBytes(bytes_of_text(alloc, text)?)),
        CFormatPart::LiteralBytes(bytes) => Ok(CFormatPart::LiteralBytes(bytes.try_clone(alloc)?)),
        CFormatPart::Spec(read) => Ok(CFormatPart::Spec(spec_bytes(alloc, read)?)),
    }
}

impl CFormatBytes {
    fn put(&mut self, place: usize, part: CFormatPart) -> PyResult<()>
        ensures ok { OnOk result (self.new ≡ self.old ++ (place, part) ∷ []) }
        ensures err { IsOkUnless result PyError.NoMemory }
    {
        let Ok(()) = self.parts.push((place, part)) else {
            return Err(PyError::NoMemory);
        };
        Ok(())
    }

    // The parts as bytes.
    #[tactic(auto, using(crate::proofs::BytePartLemmas::part_put,))]
    fn of_parts(alloc: Global, parts: &[(usize, CFormatPart)]) -> PyResult<CFormatBytes>
        requires { spec.are_byte_parts parts.now ≡ true }
        ensures ok { IfOk result (λ made. made ≡ spec.parts_bytes parts.now) }
        ensures err { IsOkUnless result PyError.NoMemory }
    {
        let mut made = CFormatBytes {
            parts: Vec::new(alloc),
        };
        for entry in parts {
            let part = part_bytes(alloc, &entry.1)?;
            made.put(entry.0, part)?;
        }
        Ok(made)
    }

    /// The parts of a template: literals in longest runs and specifiers, each with the place where
    /// it begins, in bytes. (Python Library Reference, printf-style Bytes Formatting.)
    ///
    /// # Errors
    ///
    /// `PercentParse` or `NotCarried` for the first fault from the left, and `NoMemory`.
    #[tactic(auto, using(crate::proofs::BytePartLemmas::bytes_parse))]
    pub fn parse_from_bytes(alloc: Global, bytes: &[u8]) -> PyResult<CFormatBytes>
        ensures { Meets (spec.byte_parts bytes.now) result }
    {
        let text = text_of_bytes(alloc, bytes)?;
        let read = CFormatString::parse(alloc, &text)?;
        let made = CFormatBytes::of_parts(alloc, read.parts())?;
        Ok(made)
    }

    /// The parts with their places, borrowed.
    pub fn parts(&self) -> &[(usize, CFormatPart)]
        ensures { result.now ≡ self.now }
    {
        &self.parts
    }

    /// How many parts there are.
    pub fn len(&self) -> usize
        ensures { result ≡ length self.now }
    {
        self.parts.len()
    }

    /// The part at a place in the list, from 0, and the place in the template where it begins.
    pub fn part(&self, i: usize) -> Option<(usize, &CFormatPart)>
        ensures { MatchOption result (slice_get self.now i ≡ None)
            (λ p. slice_get self.now i ≡ Some (p.0, p.1.now)) }
    {
        match self.parts.get(i) {
            Some((place, part)) => Some((*place, part)),
            None => None,
        }
    }

    /// How many specifiers there are, and whether they have keys; none where some have and some
    /// have not.
    pub fn check_specifiers(&self) -> Option<(usize, bool)>
        ensures { result ≡ specifiers_of self.now }
    {
        specifiers::specifiers_of(&self.parts)
    }
}

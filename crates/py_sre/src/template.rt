//! Replacement templates, made from lists of values.

ghost use Rattle.std.specs.Prelude.{◌≡◌, false, map, IfOk};
ghost use Rattle.py_value.specs.Asking.{Meets};
ghost use Rattle.py_value.specs.Classes.{integer_of};
ghost use Rattle.py_value.specs.ValueView.{plain_of};
ghost use Rattle.py_sre.specs.Pieces.{piece_of};
ghost use Rattle.py_sre.specs.Substituting.{are_of_bytes, pieces_in};
ghost use Rattle.py_sre.specs.Template as spec;

use crate::kind::Kind;
use crate::pattern::Pattern;
use crate::pieces::Piece;
use py_base::{PrimitiveName, PyError, PyResult};
use py_text::{PyBytes, PyStr};
use py_value::{Value, ValueList};
use std::alloc::Global;

/// The pieces of a template, of texts or of bytes.
#[derive(Drop)]
pub(crate) enum Pieces {
    Text(Vec<Piece<PyStr>>),
    Bytes(Vec<Piece<PyBytes>>),
}

/// A replacement template for patterns of one kind with so many groups.
#[derive(Drop)]
pub struct Template {
    pub(crate) pieces: Pieces,
    groups: usize,
}

// The piece of a literal at a place.
fn literal_at<K: Kind>(alloc: Global, place: usize, value: &Value) -> PyResult<Piece<K>>
    ensures { Meets (spec.literal_at K.is_bytes place (plain_of value.now))
        (spec.map_ok (piece_of K.units) result) }
{
    match K::in_value(value) {
        Some(literal) => Ok(Piece::Literal(literal.copied(alloc)?)),
        None => Err(PyError::TemplatePiece(place, value.class())),
    }
}

// The piece of a group.
fn group_numbered<K: Kind>(groups: usize, value: &Value) -> PyResult<Piece<K>>
    ensures { spec.map_ok (piece_of K.units) result
        ≡ spec.group_numbered groups (integer_of (plain_of value.now)) }
{
    let Some(number) = value.as_integer() else {
        return Err(PyError::ExpectedUsize);
    };
    match usize::try_from(number.as_i128()) {
        Ok(group) => {
            if group <= groups {
                Ok(Piece::Group(group))
            } else {
                Err(PyError::TemplateGroup(group, groups))
            }
        }
        Err(_) => Err(PyError::IntTooLargeFor(PrimitiveName::Usize)),
    }
}

// The piece of an item.
fn piece_at<K: Kind>(
    alloc: Global,
    groups: usize,
    is_group: bool,
    place: usize,
    value: &Value,
) -> PyResult<Piece<K>>
    ensures { Meets (spec.piece_at K.is_bytes groups is_group place (plain_of value.now))
        (spec.map_ok (piece_of K.units) result) }
{
    if is_group {
        group_numbered(groups, value)
    } else {
        literal_at(alloc, place, value)
    }
}

// The pieces of the items of a list.
fn pieces_from<K: Kind>(alloc: Global, groups: usize, list: &ValueList) -> PyResult<Vec<Piece<K>>>
    ensures { Meets (spec.pieces_from K.is_bytes groups false 0 list.now)
        (spec.map_ok (λ ps. map (piece_of K.units) ps.items) result) }
{
    let mut pieces = Vec::new(alloc);
    let mut is_group = false;
    let mut place = 0usize;
    'items: while place < list.len() {
        let Some(value) = list.get(place) else {
            return Ok(pieces);
        };
        pieces.push(piece_at(alloc, groups, is_group, place, value)?)?;
        is_group = !is_group;
        place += 1;
    }
    Ok(pieces)
}

impl Template {
    /// The template of a list: literals of the pattern's kind, and between two of them the number
    /// of a group of the pattern, or 0 for the whole match. True counts as 1.
    ///
    /// # Errors
    ///
    /// `InvalidTemplate` where the list is empty or its length is even. Then by the first item that
    /// does not fit: `TemplatePiece` for a literal; `ExpectedUsize`, `IntTooLargeFor` and
    /// `TemplateGroup` for a number.
    pub fn template(alloc: Global, pattern: &Pattern, list: &ValueList) -> PyResult<Template>
        ensures template { Meets
            (spec.template pattern.now.is_bytes pattern.now.code.groups list.now)
            (spec.map_ok (λ t. pieces_in t.pieces) result) }
        ensures groups { IfOk result (λ t. t.groups ≡ pattern.now.code.groups) }
        ensures kind { IfOk result (λ t. are_of_bytes t.pieces ≡ pattern.now.is_bytes) }
    {
        let groups = pattern.groups();
        if list.len() % 2 == 0 {
            return Err(PyError::InvalidTemplate);
        }
        let pieces = if pattern.isbytes() {
            Pieces::Bytes(pieces_from(alloc, groups, list)?)
        } else {
            Pieces::Text(pieces_from(alloc, groups, list)?)
        };
        Ok(Template { pieces, groups })
    }

    /// How many groups the pattern has that it was made for.
    pub fn groups(&self) -> usize
        ensures { result ≡ self.now.groups }
    {
        self.groups
    }

    /// Whether it is for patterns over bytes.
    pub fn isbytes(&self) -> bool
        ensures { result ≡ are_of_bytes self.now.pieces }
    {
        match self.pieces {
            Pieces::Text(_) => false,
            Pieces::Bytes(_) => true,
        }
    }
}

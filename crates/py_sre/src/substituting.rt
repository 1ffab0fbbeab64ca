//! The calls of a pattern that replace its spans.

ghost use Rattle.std.specs.Prelude.{◌≡◌, map, MatchResult};
ghost use Rattle.py_value.specs.Asking.{Meets};
ghost use Rattle.py_value.specs.ValueView.{plain_of, plainly};
ghost use Rattle.py_sre.specs.Pieces.{piece_of};
ghost use Rattle.py_sre.specs.Substituting as spec;
ghost use Rattle.py_sre.specs.Substituting.{counted, given};
ghost use Rattle.py_sre.specs.Template.{units_of};

use crate::kind::Kind;
use crate::pattern::Pattern;
use crate::pieces::Piece;
use crate::template::{Pieces, Template};
use py_base::{OptionalArg, PyResult, Steps};
use py_text::{PyBytes, PyStr};
use py_value::Value;
use std::alloc::Global;
use std::sync::ledger::Ledger;

/// What replaces a span: a literal as it is, or a template that is filled.
#[derive(Drop)]
pub enum Repl {
    Literal(Value),
    Template(Template),
}

/// What a value of the kind holds.
pub(crate) fn of_kind<K: Kind>(value: &Value) -> PyResult<&K>
    ensures { MatchResult result
        (λ found. units_of K.is_bytes (plain_of value.now) ≡ Ok (K.units found.now))
        (λ e. units_of K.is_bytes (plain_of value.now) ≡ Err e) }
{
    match K::in_value(value) {
        Some(found) => Ok(found),
        None => Err(K::other_kind(value.class())),
    }
}

impl Pattern {
    /// The subject with its first spans replaced by pieces; an unset group adds the units of
    /// `unset`.
    pub(crate) fn replaced_with<K: Kind, L: Ledger>(
        &self,
        alloc: Global,
        pieces: &[Piece<K>],
        unset: &K,
        string: &Value,
        count: usize,
        steps: &mut Steps<L>,
    ) -> PyResult<(Value, usize)>
        requires { K.is_bytes ≡ self.now.is_bytes }
        ensures { Meets (spec.replaced_with self.now.is_bytes self.now.code.tree
            (map (piece_of K.units) pieces.now) (K.units unset.now) (plain_of string.now) count)
            (counted result) }
    {
        let subject = of_kind::<K>(string)?;
        let (made, count) = K::replaced(
            alloc,
            pieces,
            unset,
            subject,
            self.checked(),
            count,
            steps,
        )?;
        Ok((made.into_value(), count))
    }

    // The same with a default that may be given.
    fn replaced_by<K: Kind, L: Ledger>(
        &self,
        alloc: Global,
        pieces: &[Piece<K>],
        string: &Value,
        count: usize,
        default: OptionalArg<&Value>,
        steps: &mut Steps<L>,
    ) -> PyResult<(Value, usize)>
        requires { K.is_bytes ≡ self.now.is_bytes }
        ensures { Meets (spec.replaced_by self.now.is_bytes self.now.code.tree
            (map (piece_of K.units) pieces.now) (plain_of string.now) count (given default.entry))
            (counted result) }
    {
        match default {
            OptionalArg::Present(value) => {
                let unset = of_kind::<K>(value)?;
                self.replaced_with(alloc, pieces, unset, string, count, steps)
            }
            OptionalArg::Missing => {
                let nothing = K::nothing(alloc);
                self.replaced_with(alloc, pieces, &nothing, string, count, steps)
            }
        }
    }

    // The same by a literal.
    fn replaced_by_literal<K: Kind, L: Ledger>(
        &self,
        alloc: Global,
        literal: &Value,
        string: &Value,
        count: usize,
        default: OptionalArg<&Value>,
        steps: &mut Steps<L>,
    ) -> PyResult<(Value, usize)>
        requires { K.is_bytes ≡ self.now.is_bytes }
        ensures { Meets (spec.subn self.now (Repl.Literal literal.now)
            (plain_of string.now) count (given default.entry)) (counted result) }
    {
        let literal = of_kind::<K>(literal)?;
        let mut pieces = Vec::new(alloc);
        pieces.push(Piece::Literal(literal.copied(alloc)?))?;
        self.replaced_by(alloc, &pieces, string, count, default, steps)
    }

    /// The text or the bytes with the first matches replaced, as many as the count, where 0 is all;
    /// and how many they were. An unset group adds the default, or nothing where none is given.
    /// (Python Library Reference, `re`, `Pattern.subn`.)
    ///
    /// # Errors
    ///
    /// `ExpectedString` or `ExpectedBytes` by the pattern's kind: for a literal, then for the
    /// default, then for the string.
    pub fn subn<L: Ledger>(
        &self,
        alloc: Global,
        repl: &Repl,
        string: &Value,
        count: usize,
        default: OptionalArg<&Value>,
        steps: &mut Steps<L>,
    ) -> PyResult<(Value, usize)>
        requires { spec.OfKind self.now.is_bytes repl.now }
        ensures { Meets
            (spec.subn self.now repl.now (plain_of string.now) count (given default.entry))
            (counted result) }
    {
        match repl {
            Repl::Template(template) => match &template.pieces {
                Pieces::Text(pieces) => {
                    self.replaced_by(alloc, pieces, string, count, default, steps)
                }
                Pieces::Bytes(pieces) => {
                    self.replaced_by(alloc, pieces, string, count, default, steps)
                }
            },
            Repl::Literal(value) => {
                if self.isbytes() {
                    self.replaced_by_literal::<PyBytes, L>(
                        alloc, value, string, count, default, steps,
                    )
                } else {
                    self.replaced_by_literal::<PyStr, L>(
                        alloc, value, string, count, default, steps,
                    )
                }
            }
        }
    }

    /// The same without the number. (Python Library Reference, `re`, `Pattern.sub`.)
    ///
    /// # Errors
    ///
    /// Those of `subn`.
    pub fn sub<L: Ledger>(
        &self,
        alloc: Global,
        repl: &Repl,
        string: &Value,
        count: usize,
        default: OptionalArg<&Value>,
        steps: &mut Steps<L>,
    ) -> PyResult<Value>
        requires { spec.OfKind self.now.is_bytes repl.now }
        ensures { Meets
            (spec.sub self.now repl.now (plain_of string.now) count (given default.entry))
            (plainly result) }
    {
        let (made, _) = self.subn(alloc, repl, string, count, default, steps)?;
        Ok(made)
    }
}

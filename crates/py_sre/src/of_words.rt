//! Substitution by the words of a code and the list of a template, at once.

ghost use Rattle.std.specs.Prelude.{◌≡◌, Ok, map};
ghost use Rattle.py_value.specs.Asking.{Meets};
ghost use Rattle.py_value.specs.ValueView.{plain_of, plainly};
ghost use Rattle.py_sre.specs.Pattern.{is_over_bytes};
ghost use Rattle.py_sre.specs.Pieces.{piece_of};
ghost use Rattle.py_sre.specs.Substituting as spec;
ghost use Rattle.py_sre.specs.Substituting.{OfCode, counted, given};

use crate::kind::Kind;
use crate::names::{GroupIndex, GroupNames};
use crate::pattern::{Pattern, PatternSource, compile};
use crate::pieces::Piece;
use crate::substituting::{Repl, of_kind};
use crate::template::{Pieces, Template};
use py_base::{OptionalArg, PyResult, Steps};
use py_int::PyInt;
use py_value::{Value, ValueList};
use std::alloc::Global;
use std::sync::ledger::Ledger;

/// The text or the bytes with the first matches of a code replaced, as many as the limit, where 0
/// is all, by the template of a list; and how many they were. An unset group adds the default, or
/// nothing where none is given.
///
/// # Errors
///
/// `InvalidCode` where the words are no code for so many groups; those of `Template::template`;
/// then `ExpectedString` or `ExpectedBytes` by the pattern's kind, for the default and then for the
/// subject.
pub fn substitute<L: Ledger>(
    alloc: Global,
    pattern: PatternSource,
    code: &[u32],
    groups: usize,
    list: &ValueList,
    subject: &Value,
    limit: usize,
    default: OptionalArg<&Value>,
    steps: &mut Steps<L>,
) -> PyResult<(Value, usize)>
    ensures { OfCode code.now groups (spec.substitute (is_over_bytes pattern) groups list.now
        (plain_of subject.now) limit (given default.entry)) (counted result) }
{
    let (index, names) = (GroupIndex::new(alloc), GroupNames::new(alloc));
    let made = compile(alloc, pattern, 0, code, groups, index, names)?;
    let template = Template::template(alloc, &made, list)?;
    made.subn(
        alloc,
        &Repl::Template(template),
        subject,
        limit,
        default,
        steps,
    )
}

// A value and a number as a tuple.
fn pair(alloc: Global, value: Value, number: usize) -> PyResult<Value>
    ensures { Meets (Ok (spec.pair (plain_of value, number))) (plainly result) }
{
    let mut list = ValueList::new(alloc);
    list.push(value)?;
    list.push(Value::Int(PyInt::from(number)))?;
    Ok(Value::Tuple(list))
}

impl Pattern {
    // One subject with its first spans replaced by pieces, and how many they were, as a tuple.
    fn pair_of<K: Kind, L: Ledger>(
        &self,
        alloc: Global,
        pieces: &[Piece<K>],
        unset: &K,
        string: &Value,
        count: usize,
        steps: &mut Steps<L>,
    ) -> PyResult<Value>
        requires { K.is_bytes ≡ self.now.is_bytes }
        ensures { Meets (spec.paired (spec.replaced_with self.now.is_bytes self.now.code.tree
            (map (piece_of K.units) pieces.now) (K.units unset.now) (plain_of string.now) count))
            (plainly result) }
    {
        let (value, number) = self.replaced_with(alloc, pieces, unset, string, count, steps)?;
        pair(alloc, value, number)
    }

    // Each of some subjects with its first spans replaced by pieces.
    fn each_replaced<K: Kind, L: Ledger>(
        &self,
        alloc: Global,
        pieces: &[Piece<K>],
        unset: &K,
        subjects: &ValueList,
        count: usize,
        steps: &mut Steps<L>,
    ) -> PyResult<ValueList>
        requires { K.is_bytes ≡ self.now.is_bytes }
        ensures { Meets (spec.each_replaced self.now.is_bytes self.now.code.tree
            (map (piece_of K.units) pieces.now) (K.units unset.now) count subjects.now) result }
    {
        let mut made = ValueList::new(alloc);
        let mut place = 0usize;
        'subjects: while place < subjects.len() {
            let Some(string) = subjects.get(place) else {
                return Ok(made);
            };
            made.push(self.pair_of(alloc, pieces, unset, string, count, steps)?)?;
            place += 1;
        }
        Ok(made)
    }

    // The same with a default that may be given.
    fn all_replaced_by<K: Kind, L: Ledger>(
        &self,
        alloc: Global,
        pieces: &[Piece<K>],
        subjects: &ValueList,
        count: usize,
        default: OptionalArg<&Value>,
        steps: &mut Steps<L>,
    ) -> PyResult<ValueList>
        requires { K.is_bytes ≡ self.now.is_bytes }
        ensures { Meets (spec.all_replaced_by self.now.is_bytes self.now.code.tree
            (map (piece_of K.units) pieces.now) subjects.now count (given default.entry)) result }
    {
        match default {
            OptionalArg::Present(value) => {
                let unset = of_kind::<K>(value)?;
                self.each_replaced(alloc, pieces, unset, subjects, count, steps)
            }
            OptionalArg::Missing => {
                let nothing = K::nothing(alloc);
                self.each_replaced(alloc, pieces, &nothing, subjects, count, steps)
            }
        }
    }
}

/// The same for each of some subjects: for each a tuple of the text or the bytes, and how many
/// matches were replaced. The limit counts for each subject by itself.
///
/// # Errors
///
/// Those of `substitute`; of the subjects, for the first that is not of the pattern's kind.
pub fn substitute_all<L: Ledger>(
    alloc: Global,
    pattern: PatternSource,
    code: &[u32],
    groups: usize,
    list: &ValueList,
    subjects: &ValueList,
    limit: usize,
    default: OptionalArg<&Value>,
    steps: &mut Steps<L>,
) -> PyResult<ValueList>
    ensures { OfCode code.now groups (spec.substitute_all (is_over_bytes pattern) groups list.now
        subjects.now limit (given default.entry)) result }
{
    let (index, names) = (GroupIndex::new(alloc), GroupNames::new(alloc));
    let made = compile(alloc, pattern, 0, code, groups, index, names)?;
    let template = Template::template(alloc, &made, list)?;
    match &template.pieces {
        Pieces::Text(pieces) => {
            made.all_replaced_by(alloc, pieces, subjects, limit, default, steps)
        }
        Pieces::Bytes(pieces) => {
            made.all_replaced_by(alloc, pieces, subjects, limit, default, steps)
        }
    }
}

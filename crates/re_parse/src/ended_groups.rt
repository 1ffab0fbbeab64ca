//! Which groups of a pattern have ended.

ghost use Rattle.std.specs.Prelude.{◌≡◌, ◌≤◌, ◌++◌, ◌∷◌, [], false, length, get_or, IfOk};
ghost use Rattle.re_tree.specs.Faults.{has_number};
ghost use Rattle.re_parse.specs.EndedGroups.{SayTheSame, SayAlso};

use crate::number::Number;
use std::alloc::{AllocError, Global};
use std::marker::Model;

// The numbers of the groups that have ended. Contracts see them in the order in which they ended,
// and a look-up takes the same time for each number.
#[derive(Debug, Drop)]
pub(crate) struct EndedGroups {
    order: Vec<usize>,
    ended: Vec<bool>,
}

impl Model for EndedGroups {
    ghost use Rattle.std.specs.Prelude.{List, ℕ};
    ghost use Rattle.re_parse.specs.EndedGroups.{AreNumbers};

    ghost Value = { List ℕ };

    ghost view = { λ a. a.order.items };

    ghost invariant = { λ a. AreNumbers a.ended.items a.order.items };
}

// With so many places at least; those that are new are false.
#[tactic(auto, using(crate::proofs::EndedGroupLemmas::same_at_first, crate::proofs::EndedGroupLemmas::same_pushed))]
fn extended(ended: Vec<bool>, count: usize) -> Result<Vec<bool>, AllocError>
    ensures same { IfOk result (λ longer. SayTheSame ended.items longer.items) }
    ensures long { IfOk result (λ longer. count ≤ length longer.items) }
{
    let mut longer = ended;
    'places: while longer.len() < count {
        longer.push(false)?;
    }
    Ok(longer)
}

#[tactic(auto, using(crate::proofs::EndedGroupLemmas::also_set))]
fn with_number(ended: Vec<bool>, number: usize) -> Result<Vec<bool>, AllocError>
    ensures { IfOk result (λ longer. SayAlso number ended.items longer.items) }
{
    let Some(count) = number.checked_add(1) else {
        return Err(AllocError);
    };
    let mut longer = extended(ended, count)?;
    longer[number] = true;
    Ok(longer)
}

// Whether it is true at a number. Past the end it is not.
fn is_true_at(ended: &[bool], number: &Number) -> bool
    ensures { result ≡ get_or ended.now number.now false }
{
    let count = ended.len();
    match number.to_usize() {
        None => false,
        Some(number) => number < count && ended[number],
    }
}

impl EndedGroups {
    pub(crate) fn new(alloc: Global) -> EndedGroups
        ensures { result ≡ [] }
    {
        EndedGroups {
            order: Vec::new(alloc),
            ended: Vec::new(alloc),
        }
    }

    pub(crate) fn push(self, number: usize) -> Result<EndedGroups, AllocError>
        ensures { IfOk result (λ groups. groups ≡ self ++ number ∷ []) }
    {
        let mut order = self.order;
        order.push(number)?;
        let ended = with_number(self.ended, number)?;
        Ok(EndedGroups { order, ended })
    }

    // Whether the group of this number has ended.
    pub(crate) fn has(&self, number: usize) -> bool
        ensures { result ≡ has_number number self.now }
    {
        if number < self.ended.len() {
            self.ended[number]
        } else {
            false
        }
    }

    // Whether the group of a number that a pattern writes has ended.
    pub(crate) fn has_written(&self, number: &Number) -> bool
        ensures { result ≡ has_number number.now self.now }
    {
        is_true_at(&self.ended, number)
    }
}

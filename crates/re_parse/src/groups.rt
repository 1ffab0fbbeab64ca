//! The groups that a pattern has begun.

ghost use Rattle.std.specs.Prelude.{◌≡◌, ◌+◌, ◌++◌, ◌∷◌, [], IfOk};
ghost use Rattle.re_tree.specs.Faults as faults;
ghost use Rattle.re_tree.specs.Faults.{names_at, conditional_faults};
ghost use Rattle.re_tree.specs.Machine.{groups_begun};
ghost use Rattle.re_tree.specs.PlainText.{name_of};
ghost use Rattle.re_parse.specs.FirstPass.{note, conditionals_at};
ghost use Rattle.re_parse.specs.Groups.{conditionals_in};
ghost use Rattle.re_parse.specs.TokenView.{opening_of};

use crate::first_fault::note;
use crate::group_names::GroupNames;
use crate::number::Number;
use crate::token::{GroupName, Opening};
use py_text::PyStr;
use re_tree::{Fault, FaultKind};
use std::alloc::{AllocError, Global};

// A conditional that names its group by number. That is tested at the end of the pattern.
#[derive(Debug, Drop)]
pub(crate) struct Conditional {
    at: usize,
    number: Number,
}

// How many groups there are, their names, and the conditionals that name a group by its number.
#[derive(Drop)]
pub(crate) struct Groups {
    pub(crate) count: usize,
    pub(crate) names: GroupNames,
    conditionals: Vec<Conditional>,
}

// Whether a number is 0, or past the groups.
#[tactic(auto, using(crate::proofs::PassCodeLemmas::past_all))]
fn is_past(count: usize, number: &Number) -> bool
    ensures { result ≡ faults.is_past count number.now }
{
    match number.to_usize() {
        None => true,
        Some(number) => number == 0 || count < number,
    }
}

// The first fault, with those of the conditionals whose number is 0 or past the groups.
fn note_each(count: usize, conditionals: &[Conditional], first: Option<Fault>) -> Option<Fault>
    ensures { result ≡ note first (conditional_faults count (conditionals_in conditionals.now)) }
{
    let mut found = first;
    for conditional in conditionals {
        let wrong = is_past(count, &conditional.number);
        found = note(found, wrong, conditional.at, FaultKind::BadReference);
    }
    found
}

impl Groups {
    pub(crate) fn new(alloc: Global) -> Groups
        ensures count { result.count ≡ 0 }
        ensures names { result.names ≡ [] }
        ensures conditionals { conditionals_in result.conditionals.items ≡ [] }
    {
        Groups {
            count: 0,
            names: GroupNames::new(alloc),
            conditionals: Vec::new(alloc),
        }
    }

    // With a group of this number, and its name if it has one.
    #[tactic(auto, using(crate::proofs::PassCodeLemmas::no_name))]
    fn capture(
        self,
        alloc: Global,
        number: usize,
        name: Option<PyStr>,
    ) -> Result<Groups, AllocError>
        ensures count { IfOk result (λ groups. groups.count ≡ number) }
        ensures names { IfOk result (λ groups. groups.names ≡ self.names ++ name_of name number) }
        ensures conditionals { IfOk result (λ groups.
            conditionals_in groups.conditionals.items ≡ conditionals_in self.conditionals.items) }
    {
        match name {
            None => Ok(Groups {
                count: number,
                ..self
            }),
            Some(name) => Ok(Groups {
                count: number,
                names: self.names.push(alloc, name, number)?,
                ..self
            }),
        }
    }

    #[tactic(auto, using(crate::proofs::PassCodeLemmas::conditionals_push))]
    fn conditional(self, at: usize, number: Number) -> Result<Groups, AllocError>
        ensures count { IfOk result (λ groups. groups.count ≡ self.count) }
        ensures names { IfOk result (λ groups. groups.names ≡ self.names) }
        ensures conditionals { IfOk result (λ groups. conditionals_in groups.conditionals.items ≡
            conditionals_in self.conditionals.items ++ (at, number) ∷ []) }
    {
        let mut conditionals = self.conditionals;
        conditionals.push(Conditional { at, number })?;
        Ok(Groups {
            conditionals,
            ..self
        })
    }

    // With what an opening begins. A group that it begins has the number after all before.
    #[tactic(auto, using(crate::proofs::PassCodeLemmas::no_name, crate::proofs::PassCodeLemmas::no_conditional))]
    pub(crate) fn open(
        self,
        alloc: Global,
        at: usize,
        number: usize,
        opening: Opening,
    ) -> Result<Groups, AllocError>
        requires { number ≡ self.count + 1 }
        ensures count { IfOk result (λ groups.
            groups.count ≡ self.count + groups_begun (opening_of opening)) }
        ensures names { IfOk result (λ groups.
            groups.names ≡ self.names ++ names_at number (opening_of opening)) }
        ensures conditionals { IfOk result (λ groups. conditionals_in groups.conditionals.items ≡
            conditionals_in self.conditionals.items ++ conditionals_at (opening_of opening) at) }
    {
        match opening {
            Opening::Capturing(name) => self.capture(alloc, number, name),
            Opening::Conditional(GroupName::Number(number)) => self.conditional(at, number),
            Opening::Conditional(GroupName::Name(_)) => Ok(self),
            Opening::NonCapturing => Ok(self),
            Opening::Atomic => Ok(self),
            Opening::Look { .. } => Ok(self),
        }
    }

    // The first fault, with those of the conditionals by number.
    pub(crate) fn note_conditionals(&self, first: Option<Fault>) -> Option<Fault>
        ensures { result ≡ note first
            (conditional_faults self.now.count (conditionals_in self.now.conditionals.items)) }
    {
        note_each(self.count, &self.conditionals, first)
    }
}

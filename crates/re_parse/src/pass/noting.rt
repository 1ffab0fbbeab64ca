//! What is wrong at a back reference or an opening.

ghost use Rattle.std.specs.Prelude.{◌≡◌, ◌++◌, ◌||◌, not, nat_le, length, []};
ghost use Rattle.re_tree.specs.declared.fault.FaultKind.TheVariants.{BadName, BadReference};
ghost use Rattle.re_tree.specs.declared.limits.TheConstants.{MAX_PARENTHESES};
ghost use Rattle.re_tree.specs.Faults as faults;
ghost use Rattle.re_tree.specs.Faults.{has_name, only_if, at_reference, at_opening};
ghost use Rattle.re_parse.specs.FirstPass.{note, where_of};
ghost use Rattle.re_parse.specs.PassView.{onto, pass_in};
ghost use Rattle.re_parse.specs.TokenView.{group_named, opening_of};

use crate::first_fault::note;
use crate::pass::Pass;
use crate::token::{GroupName, Opening};
use py_str::StrMore;
use py_text::PyStr;
use re_tree::limits::{MAX_GROUPS, MAX_PARENTHESES};
use re_tree::{Fault, FaultKind};

#[tactic(auto, using(crate::proofs::PassCodeLemmas::same_identifiers))]
fn is_identifier(name: &PyStr) -> bool
    ensures { result ≡ faults.is_identifier name.now }
{
    name.isidentifier()
}

impl Pass {
    // Whether a parenthesis here is inside too many others.
    #[tactic(auto, using(crate::proofs::PassCodeLemmas::onto_long))]
    fn is_deep(&self) -> bool
        ensures { result ≡ nat_le MAX_PARENTHESES (length (onto self.now.outer.items [])) }
    {
        MAX_PARENTHESES <= self.outer.len()
    }

    fn is_closed(&self, id: &GroupName) -> bool
        ensures { result ≡ faults.is_closed (where_of (pass_in self.now)) (group_named id.now) }
    {
        match id {
            GroupName::Number(number) => self.ended.has_written(number),
            GroupName::Name(name) => self.ended.has(self.groups.names.find(name)),
        }
    }

    // The first fault, with those of a back reference.
    #[tactic(auto, using(crate::proofs::FirstFaultLemmas::note_more))]
    pub(crate) fn note_reference(&self, at: usize, id: &GroupName) -> Option<Fault>
        ensures { result ≡ note self.now.first
            (at_reference (where_of (pass_in self.now)) at (group_named id.now)) }
    {
        let wrong = !self.is_closed(id);
        match id {
            GroupName::Number(_) => note(self.first, wrong, at, FaultKind::BadReference),
            GroupName::Name(name) => {
                let first = note(self.first, self.is_deep(), at, FaultKind::TooDeep);
                let first = note(first, !is_identifier(name), at, FaultKind::BadName);
                note(first, wrong, at, FaultKind::BadReference)
            }
        }
    }

    // The first fault, with that of the name of a group.
    fn note_name(&self, first: Option<Fault>, at: usize, name: &PyStr) -> Option<Fault>
        ensures { result ≡ note first (only_if
            (not (faults.is_identifier name.now) || has_name self.now.groups.names name.now)
            at BadName) }
    {
        note(
            first,
            !is_identifier(name) || self.groups.names.has(name),
            at,
            FaultKind::BadName,
        )
    }

    // The first fault, with those of the name of a conditional.
    #[tactic(auto, using(crate::proofs::FirstFaultLemmas::note_more))]
    fn note_conditional(&self, first: Option<Fault>, at: usize, name: &PyStr) -> Option<Fault>
        ensures { result ≡ note first
            (only_if (not (faults.is_identifier name.now)) at BadName ++
            only_if (not (has_name self.now.groups.names name.now)) at BadReference) }
    {
        let first = note(first, !is_identifier(name), at, FaultKind::BadName);
        note(
            first,
            !self.groups.names.has(name),
            at,
            FaultKind::BadReference,
        )
    }

    // The first fault, with those of an opening.
    #[tactic(auto, using(crate::proofs::FirstFaultLemmas::note_more, crate::proofs::PassCodeLemmas::nothing_more))]
    pub(crate) fn note_opening(&self, at: usize, number: usize, opening: &Opening) -> Option<Fault>
        ensures { result ≡ note self.now.first
            (at_opening (where_of (pass_in self.now)) at number (opening_of opening.now)) }
    {
        let first = note(self.first, self.is_deep(), at, FaultKind::TooDeep);
        match opening {
            Opening::Capturing(None) => note(
                first,
                MAX_GROUPS < number,
                at,
                FaultKind::TooManyGroups,
            ),
            Opening::Capturing(Some(name)) => {
                let first = note(first, MAX_GROUPS < number, at, FaultKind::TooManyGroups);
                self.note_name(first, at, name)
            }
            Opening::Conditional(GroupName::Name(name)) => {
                self.note_conditional(first, at, name)
            }
            Opening::Conditional(GroupName::Number(_)) => first,
            Opening::NonCapturing => first,
            Opening::Atomic => first,
            Opening::Look { .. } => first,
        }
    }
}

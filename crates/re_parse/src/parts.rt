//! What an opening is, with the branches inside it.

ghost use Rattle.std.specs.Prelude.{◌≡◌, Some, IfOk};
ghost use Rattle.std.specs.Option.{option_map};
ghost use Rattle.re_tree.specs.Machine.{part_of, regex_of};
ghost use Rattle.re_tree.specs.PlainText as tree;
ghost use Rattle.re_tree.specs.PlainText.{atomic_text, look_text};
ghost use Rattle.re_tree.specs.TextView.{text_of, group_of};
ghost use Rattle.re_tree.specs.Tokens.{capturing, conditional_opening};
ghost use Rattle.re_parse.specs.ParserView.{ended_of, last_of};
ghost use Rattle.re_parse.specs.TokenView.{group_named, opening_of};

use crate::branches::Branches;
use crate::token::{GroupName, Opening};
use py_text::PyStr;
use re_tree::{GroupId, TextBody, TextTree};
use std::alloc::{AllocError, Global};

// A group as a tree names it. A pattern without a fault has no greater number.
pub(crate) fn group_id(name: GroupName) -> Result<GroupId, AllocError>
    ensures { IfOk result (λ id. group_of id ≡ group_named name) }
{
    match name {
        GroupName::Name(name) => Ok(GroupId::Name(name)),
        GroupName::Number(number) => match number.to_usize() {
            None => Err(AllocError),
            Some(number) => Ok(GroupId::Number(number)),
        },
    }
}

// A group with this number, and its name if it has one.
fn capture(
    alloc: Global,
    at: usize,
    number: usize,
    name: Option<PyStr>,
    inside: Branches,
) -> Result<Option<TextTree>, AllocError>
    ensures { IfOk result (λ made. option_map text_of made ≡
        part_of (capturing name) at number (ended_of inside) (last_of inside)) }
{
    Ok(Some(TextTree::Capture {
        at,
        number,
        name,
        body: into_body(alloc, inside)?,
    }))
}

fn look(
    alloc: Global,
    at: usize,
    positive: bool,
    behind: bool,
    inside: Branches,
) -> Result<Option<TextTree>, AllocError>
    ensures { IfOk result (λ made. option_map text_of made ≡
        Some (look_text at positive behind (regex_of (ended_of inside) (last_of inside)))) }
{
    Ok(Some(TextTree::Look {
        at,
        positive,
        back: behind,
        body: into_body(alloc, inside)?,
    }))
}

// A group without a number.
fn plain(alloc: Global, at: usize, inside: Branches) -> Result<Option<TextTree>, AllocError>
    ensures { IfOk result (λ made. option_map text_of made ≡
        Some (tree.plain at (regex_of (ended_of inside) (last_of inside)))) }
{
    Ok(Some(TextTree::Plain {
        at,
        body: into_body(alloc, inside)?,
    }))
}

fn atomic(alloc: Global, at: usize, inside: Branches) -> Result<Option<TextTree>, AllocError>
    ensures { IfOk result (λ made. option_map text_of made ≡
        Some (atomic_text at (regex_of (ended_of inside) (last_of inside)))) }
{
    Ok(Some(TextTree::Atomic {
        at,
        body: into_body(alloc, inside)?,
    }))
}

// The tree of branches as the body of a part.
fn into_body(alloc: Global, inside: Branches) -> Result<TextBody, AllocError>
    ensures { IfOk result (λ body. body ≡ regex_of (ended_of inside) (last_of inside)) }
{
    TextBody::new(alloc, inside.into_tree()?)
}

#[tactic(auto, using(crate::proofs::BranchLemmas::any_number))]
fn conditional(
    alloc: Global,
    at: usize,
    number: usize,
    id: GroupName,
    inside: Branches,
) -> Result<Option<TextTree>, AllocError>
    ensures { IfOk result (λ made. option_map text_of made ≡
        part_of (conditional_opening (group_named id)) at number
        (ended_of inside) (last_of inside)) }
{
    inside.into_conditional(alloc, at, group_id(id)?)
}

// What an opening is that has these branches inside.
pub(crate) fn part(
    alloc: Global,
    opening: Opening,
    at: usize,
    number: usize,
    inside: Branches,
) -> Result<Option<TextTree>, AllocError>
    ensures { IfOk result (λ made. option_map text_of made ≡
        part_of (opening_of opening) at number (ended_of inside) (last_of inside)) }
{
    match opening {
        Opening::Capturing(name) => capture(alloc, at, number, name, inside),
        Opening::NonCapturing => plain(alloc, at, inside),
        Opening::Atomic => atomic(alloc, at, inside),
        Opening::Look { positive, behind } => look(alloc, at, positive, behind, inside),
        Opening::Conditional(id) => conditional(alloc, at, number, id, inside),
    }
}

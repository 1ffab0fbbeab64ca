//! What the end of an opening is, and what is wrong there.

ghost use Rattle.std.specs.Prelude.{◌≡◌, ◌++◌, [], IfOk};
ghost use Rattle.re_parse.specs.declared.construct.Construct.TheVariants.{Lookbehind};
ghost use Rattle.re_parse.specs.FirstPass.{note, closed_shape, close_faults, body_width, numbers_at};

use crate::construct::{Construct, look_shape};
use crate::ended_groups::EndedGroups;
use crate::first_fault::note;
use crate::shape::{Body, Shape, is_wide};
use re_tree::{Fault, FaultKind};
use std::alloc::{AllocError, Global};

// What an opening is once it is closed, and the first fault with that of its end.
#[derive(Drop)]
pub(crate) struct Closed {
    pub(crate) shape: Option<Shape>,
    pub(crate) first: Option<Fault>,
}

// The end of an opening that has no fault there.
#[tactic(auto, using(crate::proofs::FirstFaultLemmas::nothing_noted))]
fn end_quietly(
    alloc: Global,
    construct: Construct,
    body: Body,
    first: Option<Fault>,
) -> Result<Closed, AllocError>
    ensures shape { IfOk result (λ closed. closed.shape ≡ closed_shape construct body) }
    ensures first { IfOk result (λ closed. closed.first ≡ note first []) }
{
    Ok(Closed {
        shape: construct.close(alloc, body)?,
        first,
    })
}

// A lookbehind alone has a fault of its end.
fn end_lookbehind(
    alloc: Global,
    at: usize,
    body: Body,
    first: Option<Fault>,
) -> Result<Closed, AllocError>
    ensures shape { IfOk result (λ closed. closed.shape ≡ closed_shape Lookbehind body) }
    ensures first { IfOk result (λ closed. closed.first ≡
        note first (close_faults at Lookbehind (body_width body))) }
{
    let width = body.width(alloc)?;
    Ok(Closed {
        shape: Some(look_shape()),
        first: note(first, is_wide(&width), at, FaultKind::NotFixedWidth),
    })
}

// The end of an opening with this body.
pub(crate) fn end(
    alloc: Global,
    construct: Construct,
    at: usize,
    body: Body,
    first: Option<Fault>,
) -> Result<Closed, AllocError>
    ensures shape { IfOk result (λ closed. closed.shape ≡ closed_shape construct body) }
    ensures first { IfOk result (λ closed. closed.first ≡
        note first (close_faults at construct (body_width body))) }
{
    match construct {
        Construct::Lookbehind => end_lookbehind(alloc, at, body, first),
        Construct::Capture => end_quietly(alloc, construct, body, first),
        Construct::Group => end_quietly(alloc, construct, body, first),
        Construct::Lookahead => end_quietly(alloc, construct, body, first),
        Construct::Conditional => end_quietly(alloc, construct, body, first),
    }
}

// The groups that have ended, with the one that ends with this.
#[tactic(auto, using(crate::proofs::PassCodeLemmas::no_number))]
pub(crate) fn end_group(
    ended: EndedGroups,
    construct: Construct,
    number: usize,
) -> Result<EndedGroups, AllocError>
    ensures { IfOk result (λ groups. groups ≡ ended ++ numbers_at construct number) }
{
    match construct {
        Construct::Capture => ended.push(number),
        Construct::Group => Ok(ended),
        Construct::Lookahead => Ok(ended),
        Construct::Lookbehind => Ok(ended),
        Construct::Conditional => Ok(ended),
    }
}

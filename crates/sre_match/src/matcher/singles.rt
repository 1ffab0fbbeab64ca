//! Nodes that are one unit.

ghost use Rattle.std.specs.Prelude.{◌≡◌, ◌≢◌, ◌+◌, ◌<◌, ◌≤◌, ◌^◌, ℕ, true, length, IfSome};
ghost use Rattle.sre_match.specs.Machine.{onward, part_next, Gives, tried_at};
ghost use Rattle.sre_match.specs.Attempts.{after};
ghost use Rattle.sre_match.specs.Fits.{Stays, Ready};
ghost use Rattle.sre_match.specs.Paths.{unit};
ghost use Rattle.sre_match.specs.Anchors.{met_at};
ghost use Rattle.sre_match.specs.Singles.{is_single, meets, run_of, run_cost};
ghost use Rattle.sre_code.specs.PlainTree.{nothing, ◌then◌};
ghost use Rattle.sre_code.specs.TreeView.{node_of};

use crate::matcher::anchors::is_newline;
use crate::matcher::sets::is_member;
use crate::matcher::subject::{Subject, unit_at};
use crate::matcher::trail::{Current, Part, Trail, Turn};
use crate::view::{StrDrive, StringCursor};
use py_base::Steps;
use sre_code::{Node, Tree};
use std::sync::ledger::Ledger;

/// Whether a node is one unit.
pub fn is_single(node: &Node) -> bool
    ensures { result ≡ is_single (node_of node.now) }
{
    match node {
        Node::Any => true,
        Node::AnyAll => true,
        Node::Lit(_) => true,
        Node::NotLit(_) => true,
        Node::OneOf(_, _) => true,
        Node::Fail => false,
        Node::At(_) => false,
        Node::Group(_, _) => false,
        Node::Ref(_) => false,
        Node::Exists(_, _, Some(_)) => false,
        Node::Exists(_, _, None) => false,
        Node::Branch(_) => false,
        Node::Repeat(_, _, _, _, _) => false,
        Node::Atomic(_) => false,
        Node::Look(_, _, _) => false,
    }
}

/// Whether a unit meets a node that is one unit.
pub fn meets(node: &Node, unit: u32) -> bool
    ensures { result ≡ meets (node_of node.now) unit }
{
    match node {
        Node::Any => !is_newline(unit),
        Node::AnyAll => true,
        Node::Lit(x) => unit == *x,
        Node::NotLit(x) => unit != *x,
        Node::OneOf(false, items) => is_member(items, unit),
        Node::OneOf(true, items) => !is_member(items, unit),
        Node::Fail => false,
        Node::At(_) => false,
        Node::Group(_, _) => false,
        Node::Ref(_) => false,
        Node::Exists(_, _, Some(_)) => false,
        Node::Exists(_, _, None) => false,
        Node::Branch(_) => false,
        Node::Repeat(_, _, _, _, _) => false,
        Node::Atomic(_) => false,
        Node::Look(_, _, _) => false,
    }
}

/// Whether there is a unit at a place and it meets a node that is one unit.
#[tactic(auto, using(crate::proofs::UnitLemmas::met_by, crate::proofs::UnitLemmas::not_met))]
pub fn met_at<S: StrDrive, L: Ledger>(
    node: &Node,
    s: &Subject<'_, S>,
    cursor: &StringCursor,
    steps: &mut Steps<L>,
) -> bool
    requires fits { S.fits s.now cursor.now ≡ true }
    requires counter { S.counts L.name }
    ensures met { result ≡ met_at (meets (node_of node.now)) s.now cursor.now.place }
    ensures within { result ≡ true → cursor.now.place < length s.now }
    ensures cost { steps.new ≤ steps.old + 1 }
{
    match unit_at(s, cursor, steps) {
        Some(unit) => meets(node, unit),
        None => false,
    }
}

/// A node that is one unit is next, and then a part.
pub fn single_turn<'t, S: StrDrive, L: Ledger>(
    node: &Node,
    part: Part<'t>,
    s: &Subject<'_, S>,
    current: &mut Current<'t>,
    trail: &Trail<'t>,
    steps: &mut Steps<L>,
) -> Turn
    requires ready { Ready (S.fits s.now) current.old trail.now }
    requires counter { S.counts L.name }
    ensures gives { Gives result current.new s.now trail.now steps.old steps.new
        (let next = part_next part.entry s.now in
        let k = onward trail.now.frames.items next current.old.rest s.now in
        tried_at (λ p m. after (unit (meets (node_of node.now)) s.now p m) k)
        current.old s.now trail.now) }
    ensures ready { Stays result (S.fits s.now) current.new trail.now }
{
    if met_at(node, s, &current.cursor, steps) {
        current.part = part;
        s.skip(&mut current.cursor, 1);
        Turn::Go
    } else {
        Turn::Fail
    }
}

/// The node of a tree that is one unit.
pub fn only_single(body: &Tree) -> Option<&Node>
    ensures single { IfSome result (λ n. is_single (node_of n.now) ≡ true) }
    ensures only { IfSome result (λ n. body.now ≡ node_of n.now then nothing) }
{
    match body.nodes() {
        [node] => { if is_single(node) { Some(node) } else { None } }
        _ => None,
    }
}

/// Moves a cursor on over units that meet a node that is one unit, at most so many, and answers how
/// many.
pub fn run_length<S: StrDrive, L: Ledger>(
    node: &Node,
    most: usize,
    s: &Subject<'_, S>,
    cursor: &mut StringCursor,
    steps: &mut Steps<L>,
) -> usize
    requires fits { S.fits s.now cursor.old ≡ true }
    requires counter { S.counts L.name }
    ensures run { result ≡ run_of (meets (node_of node.now)) s.now cursor.old.place most }
    ensures place { cursor.new.place ≡ cursor.old.place + result }
    ensures fits { S.fits s.now cursor.new ≡ true }
    ensures most { result ≤ most }
    ensures cost { let test = meets (node_of node.now) in
        steps.new ≤ steps.old + run_cost test s.now cursor.old.place most }
{
    let mut n = 0;
    while n < most {
        if !met_at(node, s, cursor, steps) {
            return n;
        }
        s.skip(cursor, 1);
        n += 1;
    }
    n
}

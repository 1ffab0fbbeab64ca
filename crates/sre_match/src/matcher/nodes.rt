//! Turns of the matcher at a node.

ghost use Rattle.sre_match.specs.Fits.{Stays, Ready};
ghost use Rattle.std.specs.Prelude.{◌≡◌, ◌≤◌, ◌∷◌, length};
ghost use Rattle.sre_match.specs.Machine.{Gives, trying};
ghost use Rattle.sre_match.specs.Paths.{paths, node_paths};
ghost use Rattle.sre_code.specs.PlainTree.{at as at_node};
ghost use Rattle.sre_code.specs.TreeView.{node_of, tree_of};

use crate::matcher::anchors::is_at_anchor;
use crate::matcher::branches::trees_turn;
use crate::matcher::frames::put;
use crate::matcher::references::{back_reference_turn, conditional_turn};
use crate::matcher::repeats::repeat_turn;
use crate::matcher::singles::{is_single, single_turn};
use crate::matcher::subject::Subject;
use crate::matcher::trail::{Current, Part, Task, Trail, Turn};
use crate::matcher::turns::{atomic_turn, group_turn, lookaround_turn};
use crate::view::StrDrive;
use py_base::Steps;
use sre_code::Node;
use std::sync::ledger::Ledger;

// An anchor is next.
fn anchor_turn<'t, S: StrDrive, L: Ledger>(
    anchor: u32,
    s: &Subject<'_, S>,
    current: &mut Current<'t>,
    trail: &Trail<'t>,
    steps: &mut Steps<L>,
) -> Turn
    requires ready { Ready (S.fits s.now) current.old trail.now }
    requires counter { S.counts L.name }
    ensures gives { Gives result current.new s.now trail.now steps.old steps.new
        (trying (node_paths (at_node anchor) s.now) current.old s.now trail.now) }
    ensures ready { Stays result (S.fits s.now) current.new trail.now }
{
    if is_at_anchor(anchor, s, &current.cursor, steps) {
        current.part = Part::Skip;
        Turn::Go
    } else {
        Turn::Fail
    }
}

// A node is next.
fn node_turn<'t, S: StrDrive, L: Ledger>(
    node: &'t Node,
    s: &Subject<'_, S>,
    current: &mut Current<'t>,
    trail: &mut Trail<'t>,
    steps: &mut Steps<L>,
) -> Turn
    requires ready { Ready (S.fits s.now) current.old trail.old }
    requires counter { S.counts L.name }
    ensures gives { Gives result current.new s.now trail.new steps.old steps.new
        (trying (node_paths (node_of node.now) s.now) current.old s.now trail.old) }
    ensures ready { Stays result (S.fits s.now) current.new trail.new }
{
    match node {
        Node::Fail => Turn::Fail,
        Node::Any => single_turn(node, Part::Skip, s, current, trail, steps),
        Node::AnyAll => single_turn(node, Part::Skip, s, current, trail, steps),
        Node::Lit(_) => single_turn(node, Part::Skip, s, current, trail, steps),
        Node::NotLit(_) => single_turn(node, Part::Skip, s, current, trail, steps),
        Node::OneOf(_, _) => single_turn(node, Part::Skip, s, current, trail, steps),
        Node::At(anchor) => anchor_turn(*anchor, s, current, trail, steps),
        Node::Group(group, body) => group_turn(*group, body, current, trail),
        Node::Ref(group) => back_reference_turn(*group, s, current, trail, steps),
        Node::Exists(group, yes, no) => conditional_turn(*group, yes, no, current, trail),
        Node::Branch(trees) => trees_turn(trees.trees(), s, current, trail, steps),
        Node::Repeat(kind, _, least, greatest, body) => repeat_turn(
            *kind, *least, *greatest, body, s, current, trail, steps,
        ),
        Node::Atomic(body) => atomic_turn(body, current, trail),
        Node::Look(positive, back, body) => lookaround_turn(
            *positive, *back, body, s, current, trail,
        ),
    }
}

// A node is next, and then more of them.
fn first_turn<'t, S: StrDrive, L: Ledger>(
    node: &'t Node,
    more: &'t [Node],
    s: &Subject<'_, S>,
    current: &mut Current<'t>,
    trail: &mut Trail<'t>,
    steps: &mut Steps<L>,
) -> Turn
    requires ready { Ready (S.fits s.now) current.old trail.old }
    requires counter { S.counts L.name }
    ensures gives { Gives result current.new s.now trail.new steps.old steps.new
        (trying (paths (tree_of (node.now ∷ more.now)) s.now) current.old s.now trail.old) }
    ensures ready { Stays result (S.fits s.now) current.new trail.new }
{
    if is_single(node) {
        return single_turn(node, Part::Nodes(more), s, current, trail, steps);
    }
    match put(trail, Task::Then(more), current.rest) {
        Err(_) => Turn::Full,
        Ok(following) => {
            current.rest = following;
            node_turn(node, s, current, trail, steps)
        }
    }
}

/// Nodes are next.
#[inline(always)]
pub fn nodes_turn<'t, S: StrDrive, L: Ledger>(
    nodes: &'t [Node],
    s: &Subject<'_, S>,
    current: &mut Current<'t>,
    trail: &mut Trail<'t>,
    steps: &mut Steps<L>,
) -> Turn
    requires ready { Ready (S.fits s.now) current.old trail.old }
    requires counter { S.counts L.name }
    ensures gives { Gives result current.new s.now trail.new steps.old steps.new
        (trying (paths (tree_of nodes.now) s.now) current.old s.now trail.old) }
    ensures ready { Stays result (S.fits s.now) current.new trail.new }
{
    match nodes {
        [] => {
            current.part = Part::Skip;
            Turn::Go
        }
        [node] => node_turn(node, s, current, trail, steps),
        [node, more @ ..] => first_turn(node, more, s, current, trail, steps),
    }
}

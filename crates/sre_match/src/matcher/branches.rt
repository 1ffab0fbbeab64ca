//! Turns of the matcher at the alternatives of a branch.

ghost use Rattle.sre_match.specs.Captures.{captures};
ghost use Rattle.sre_match.specs.Cursor.{Cursor};
ghost use Rattle.sre_match.specs.Fits.{Fit, Stays, Ready};
ghost use Rattle.std.specs.Prelude.{◌≡◌, ◌≢◌, ◌+◌, ◌≤◌, ◌<◌, ℕ, Bool, List, [], ◌∷◌, ◌++◌, OnOk, Some, true, false, slice_get, length};
ghost use Rattle.sre_match.specs.Machine.{ahead_of, part_next, to_try, Sound, Gives, Leaves, Linked, rest_of, trying};
ghost use Rattle.sre_match.specs.Attempts.{Attempt, after, Marks};
ghost use Rattle.sre_match.specs.Paths.{all_paths};
ghost use Rattle.sre_match.specs.Anchors as anchors;
ghost use Rattle.sre_match.specs.Singles as singles;
ghost use Rattle.sre_match.specs.Branches as spec;
ghost use Rattle.sre_match.specs.FirstUnit.{all_single, any_left};
ghost use Rattle.sre_code.specs.TreeView.{node_of, trees_of};

use crate::matcher::choices::keep;
use crate::matcher::singles::{is_single, meets};
use crate::matcher::subject::{Subject, unit_at};
use crate::matcher::trail::{ChoiceKind, Current, Part, Trail, Turn};
use crate::view::StrDrive;
use py_base::Steps;
use sre_code::{Node, Tree};
use std::alloc::AllocError;
use std::sync::ledger::Ledger;

// Whether there is a unit and it meets a node that is one unit.
fn is_met(node: &Node, unit: Option<u32>) -> bool
    ensures { result ≡ anchors.is_met (singles.meets (node_of node.now)) unit }
{
    match unit {
        Some(c) => meets(node, c),
        None => false,
    }
}

/// Whether an alternative begins with one unit.
pub fn begins_single(t: &Tree) -> bool
    ensures { result ≡ spec.begins_single t.now }
{
    match t.nodes() {
        [] => false,
        [node, ..] => is_single(node),
    }
}

// Whether an alternative begins with one unit, and no unit is there that meets it.
fn is_out(t: &Tree, unit: Option<u32>) -> bool
    ensures { result ≡ spec.is_out t.now unit }
{
    match t.nodes() {
        [] => false,
        [node, ..] => is_single(node) && !is_met(node, unit),
    }
}

/// The alternatives from the first one on that is not out.
pub fn left_of<'t>(trees: &'t [Tree], unit: Option<u32>) -> &'t [Tree]
    ensures { result.now ≡ spec.left_of trees.entry.now unit }
{
    let mut left = trees;
    while let [t, more @ ..] = left {
        if !is_out(t, unit) {
            return left;
        }
        left = more;
    }
    left
}

// Alternatives for later, of which a last one is its nodes.
#[tactic(auto, using(crate::proofs::TurnLemmas::alone))]
fn kept_part<'t>(more: &'t [Tree]) -> Part<'t>
    requires { more.now ≢ [] }
    ensures { (s : List ℕ) (p : ℕ) (m : Marks)
        → part_next result s p m ≡ all_paths (trees_of more.entry.now) s p m }
{
    match more {
        [t] => Part::Nodes(t.nodes()),
        _ => Part::Trees(more),
    }
}

// Keeps alternatives for later, where there are some.
fn keep_later<'t>(
    more: &'t [Tree],
    current: &Current<'t>,
    trail: &mut Trail<'t>,
) -> Result<(), AllocError>
    requires sound { Sound trail.old }
    requires deep { current.now.rest ≤ length trail.old.frames.items }
    ensures marks { OnOk result (captures trail.new.marks.items ≡ captures trail.old.marks.items) }
    ensures frames { OnOk result (trail.new.frames.items ≡ trail.old.frames.items) }
    ensures tried { OnOk result ((s : List ℕ) (xs : List Attempt) →
        let ys = spec.each_paths more.entry.now s current.now.cursor.place
        (captures trail.old.marks.items) in
        let rest = rest_of current.now s trail.old in
        to_try s trail.new xs ≡ to_try s trail.old (xs ++ after ys rest)) }
    ensures sound { OnOk result (Sound trail.new) }
    ensures fit { OnOk result ((ok : Cursor → Bool)
        → ok current.now.cursor ≡ true → Fit ok trail.old → Fit ok trail.new) }
{
    if more.is_empty() {
        return Ok(());
    }
    keep(
        trail,
        ChoiceKind::Try,
        kept_part(more),
        current.rest,
        current.cursor,
    )
}

// An alternative is next, with more of them for later.
fn chosen_turn<'t>(
    t: &'t Tree,
    more: &'t [Tree],
    current: &mut Current<'t>,
    trail: &mut Trail<'t>,
) -> Turn
    requires linked { Linked current.old trail.old }
    ensures gives { (s : List ℕ) (n : ℕ) → Gives result current.new s trail.new n n
        (trying (spec.each_paths (t.now ∷ more.entry.now) s) current.old s trail.old) }
    ensures ready { (ok : Cursor → Bool) → Ready ok current.old trail.old
        → Stays result ok current.new trail.new }
{
    let Ok(()) = keep_later(more, current, trail) else {
        return Turn::Full;
    };
    current.part = Part::Nodes(t.nodes());
    Turn::Go
}

// An alternative that begins with a unit that is met is next, after that unit.
fn met_turn<'t, S: StrDrive>(
    t: &'t Tree,
    more: &'t [Tree],
    s: &Subject<'_, S>,
    current: &mut Current<'t>,
    trail: &mut Trail<'t>,
) -> Result<(), AllocError>
    requires within { current.old.cursor.place < length s.now }
    requires begins { spec.begins_single t.now ≡ true }
    requires met { spec.is_out t.now (slice_get s.now current.old.cursor.place) ≡ false }
    requires ready { Ready (S.fits s.now) current.old trail.old }
    ensures gives { OnOk result ((n : ℕ) → Leaves n (n + 1)
        (trying (spec.each_paths (t.now ∷ more.entry.now) s.now) current.old s.now trail.old)
        (ahead_of current.new s.now trail.new)) }
    ensures ready { OnOk result (Ready (S.fits s.now) current.new trail.new) }
{
    keep_later(more, current, trail)?;
    let [_, following @ ..] = t.nodes() else {
        unreachable!()
    };
    current.part = Part::Nodes(following);
    s.skip(&mut current.cursor, 1);
    Ok(())
}

// The alternatives after one that is out.
fn others_turn<'t>(
    trees: &'t [Tree],
    unit: Option<u32>,
    current: &mut Current<'t>,
    trail: &mut Trail<'t>,
) -> Turn
    requires linked { Linked current.old trail.old }
    ensures gives { (s : List ℕ) (n : ℕ) → unit ≡ slice_get s current.old.cursor.place
        → Gives result current.new s trail.new n n
        (trying (spec.each_paths trees.entry.now s) current.old s trail.old) }
    ensures ready { (ok : Cursor → Bool) → Ready ok current.old trail.old
        → Stays result ok current.new trail.new }
{
    match left_of(trees, unit) {
        [] => Turn::Fail,
        [t, more @ ..] => chosen_turn(t, left_of(more, unit), current, trail),
    }
}

// Alternatives are next, of which the first one begins with a unit.
fn read_turn<'t, S: StrDrive, L: Ledger>(
    t: &'t Tree,
    more: &'t [Tree],
    s: &Subject<'_, S>,
    current: &mut Current<'t>,
    trail: &mut Trail<'t>,
    steps: &mut Steps<L>,
) -> Turn
    requires begins { spec.begins_single t.now ≡ true }
    requires ready { Ready (S.fits s.now) current.old trail.old }
    requires counter { S.counts L.name }
    ensures gives { Gives result current.new s.now trail.new steps.old steps.new
        (trying (spec.each_paths (t.now ∷ more.entry.now) s.now) current.old s.now trail.old) }
    ensures ready { Stays result (S.fits s.now) current.new trail.new }
{
    let unit = unit_at(s, &current.cursor, steps);
    if is_out(t, unit) {
        others_turn(more, unit, current, trail)
    } else {
        match met_turn(t, left_of(more, unit), s, current, trail) {
            Err(_) => Turn::Full,
            Ok(()) => Turn::Go,
        }
    }
}

/// Alternatives are next. Where the first one begins with a unit, that is read once, and those that
/// it rules out are passed over.
pub fn trees_turn<'t, S: StrDrive, L: Ledger>(
    trees: &'t [Tree],
    s: &Subject<'_, S>,
    current: &mut Current<'t>,
    trail: &mut Trail<'t>,
    steps: &mut Steps<L>,
) -> Turn
    requires ready { Ready (S.fits s.now) current.old trail.old }
    requires counter { S.counts L.name }
    ensures gives { Gives result current.new s.now trail.new steps.old steps.new
        (trying (all_paths (trees_of trees.now) s.now) current.old s.now trail.old) }
    ensures ready { Stays result (S.fits s.now) current.new trail.new }
{
    match trees {
        [] => {
            current.part = Part::Skip;
            Turn::Go
        }
        [t, more @ ..] => {
            if begins_single(t) {
                read_turn(t, more, s, current, trail, steps)
            } else {
                chosen_turn(t, more, current, trail)
            }
        }
    }
}

/// Alternatives are next that each begin with one unit, of which the one here is known. One is left
/// that it does not rule out.
pub fn known_turn<'t, S: StrDrive>(
    trees: &'t [Tree],
    unit: u32,
    s: &Subject<'_, S>,
    current: &mut Current<'t>,
    trail: &mut Trail<'t>,
) -> Result<(), AllocError>
    requires within { current.old.cursor.place < length s.now }
    requires unit { Some unit ≡ slice_get s.now current.old.cursor.place }
    requires begins { all_single trees.now ≡ true }
    requires left { any_left (spec.left_of trees.now (Some unit)) ≡ true }
    requires ready { Ready (S.fits s.now) current.old trail.old }
    ensures gives { OnOk result ((n : ℕ) → Leaves n (n + 1)
        (trying (all_paths (trees_of trees.entry.now) s.now) current.old s.now trail.old)
        (ahead_of current.new s.now trail.new)) }
    ensures ready { OnOk result (Ready (S.fits s.now) current.new trail.new) }
{
    match left_of(trees, Some(unit)) {
        [] => unreachable!(),
        [t, others @ ..] => met_turn(t, left_of(others, Some(unit)), s, current, trail),
    }
}

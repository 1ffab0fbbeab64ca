//! Turns of the matcher at what asks for a group's span: back references and conditionals.

ghost use Rattle.sre_match.specs.Captures.{captures, span_by, capture_fits};
ghost use Rattle.sre_match.specs.Cursor.{Cursor};
ghost use Rattle.sre_match.specs.Fits.{Stays, Ready};
ghost use Rattle.std.specs.List.{All, starts_with};
ghost use Rattle.std.specs.Prelude.{◌≡◌, ◌+◌, ◌*◌, ◌-◌, ◌≤◌, ℕ, Bool, true, IfSome, option_map, List, Some, drop, length, slice_range, nat_eq};
ghost use Rattle.sre_match.specs.Machine.{Gives, Linked, trying};
ghost use Rattle.sre_match.specs.Attempts.{span_of};
ghost use Rattle.sre_match.specs.Paths.{node_paths, back_reference};
ghost use Rattle.sre_code.specs.PlainTree.{ref};
ghost use Rattle.sre_code.specs.TreeView.{node_of};

use crate::marks::{Capture, capture_in};
use crate::matcher::subject::Subject;
use crate::matcher::trail::{Current, Part, Trail, Turn};
use crate::matcher::turns::tree_turn;
use crate::view::{StrDrive, StringCursor};
use py_base::Steps;
use sre_code::{Node, Tree};
use std::sync::ledger::Ledger;

// The last capture of a group.
fn capture_of(marks: &Vec<Capture>, group: u32) -> Option<Capture>
    ensures span { option_map span_by result ≡ span_of (captures marks.now.items) group }
    ensures fits { (ok : Cursor → Bool)
        → All (capture_fits ok) marks.now.items → IfSome result (capture_fits ok) }
{
    capture_in(marks, group as usize)
}

// Whether the units from a cursor to a place occur again at another cursor, which then moves past
// them.
fn same_text<S: StrDrive, L: Ledger>(
    s: &Subject<'_, S>,
    from: &StringCursor,
    stop: usize,
    cursor: &mut StringCursor,
    steps: &mut Steps<L>,
) -> bool
    requires stop { stop ≤ length s.now }
    requires from_fits { S.fits s.now from.now ≡ true }
    requires fits { S.fits s.now cursor.old ≡ true }
    requires counter { S.counts L.name }
    ensures same { let text = slice_range s.now from.now.place stop in
        result ≡ starts_with nat_eq (drop cursor.old.place s.now) text }
    ensures fits { S.fits s.now cursor.new ≡ true }
    ensures place { result ≡ true → cursor.new.place ≡ cursor.old.place + (stop - from.now.place) }
    ensures cost { steps.new ≤ steps.old + 2 * length (slice_range s.now from.now.place stop) }
{
    let start = from.place;
    if stop <= start {
        return true;
    }
    let count = s.count();
    let mut there = *from;
    for _i in start..stop {
        if cursor.place >= count {
            return false;
        }
        let a = s.peek(&there, steps);
        let b = s.peek(cursor, steps);
        if a != b {
            return false;
        }
        s.skip(&mut there, 1);
        s.skip(cursor, 1);
    }
    true
}

// The units of a span are next, once more.
fn span_again_turn<'t, S: StrDrive, L: Ledger>(
    from: &StringCursor,
    stop: usize,
    s: &Subject<'_, S>,
    current: &mut Current<'t>,
    trail: &Trail<'t>,
    steps: &mut Steps<L>,
) -> Turn
    requires stop { stop ≤ length s.now }
    requires from_fits { S.fits s.now from.now ≡ true }
    requires ready { Ready (S.fits s.now) current.old trail.now }
    requires counter { S.counts L.name }
    ensures gives { Gives result current.new s.now trail.now steps.old steps.new
        (trying (back_reference (Some (from.now.place, stop)) s.now) current.old s.now trail.now) }
    ensures ready { Stays result (S.fits s.now) current.new trail.now }
{
    if same_text(s, from, stop, &mut current.cursor, steps) {
        current.part = Part::Skip;
        Turn::Go
    } else {
        Turn::Fail
    }
}

/// A back reference is next.
pub fn back_reference_turn<'t, S: StrDrive, L: Ledger>(
    group: u32,
    s: &Subject<'_, S>,
    current: &mut Current<'t>,
    trail: &Trail<'t>,
    steps: &mut Steps<L>,
) -> Turn
    requires ready { Ready (S.fits s.now) current.old trail.now }
    requires counter { S.counts L.name }
    ensures gives { Gives result current.new s.now trail.now steps.old steps.new
        (trying (node_paths (ref group) s.now) current.old s.now trail.now) }
    ensures ready { Stays result (S.fits s.now) current.new trail.now }
{
    match capture_of(&trail.marks, group) {
        None => Turn::Fail,
        Some(capture) => span_again_turn(
            &capture.start,
            capture.stop.place,
            s,
            current,
            trail,
            steps,
        ),
    }
}

/// A conditional is next.
pub fn conditional_turn<'t>(
    group: u32,
    yes: &'t Tree,
    no: &'t Option<Tree>,
    current: &mut Current<'t>,
    trail: &Trail<'t>,
) -> Turn
    requires linked { Linked current.old trail.now }
    ensures gives { (s : List ℕ) (k : ℕ) → let next = Node.Exists group yes.now no.now in
        Gives result current.new s trail.now k k
        (trying (node_paths (node_of next) s) current.old s trail.now) }
    ensures ready { (ok : Cursor → Bool) → Ready ok current.old trail.now
        → Stays result ok current.new trail.now }
{
    if capture_of(&trail.marks, group).is_some() {
        return tree_turn(yes, current, trail);
    }
    match no {
        Some(no) => tree_turn(no, current, trail),
        None => {
            current.part = Part::Skip;
            Turn::Go
        }
    }
}

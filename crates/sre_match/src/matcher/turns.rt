//! Turns of the matcher, where no unit is read.

ghost use Rattle.sre_match.specs.Cursor.{Cursor};
ghost use Rattle.sre_match.specs.Fits.{Stays, Ready};
ghost use Rattle.std.specs.Prelude.{◌≡◌, ℕ, Bool, true, List, ◌<◌, ◌≤◌, ◌-◌, length};
ghost use Rattle.sre_match.specs.Machine.{part_next, task_next, wrap, Sound, Gives, Linked, rest_of, tried_at, trying};
ghost use Rattle.sre_match.specs.Attempts.{stay, captured_from, cut};
ghost use Rattle.sre_match.specs.Paths.{paths, node_paths};
ghost use Rattle.sre_code.specs.PlainTree.{look};

use crate::marks::Capture;
use crate::matcher::choices::{add_capture, keep, pop};
use crate::matcher::frames::put;
use crate::matcher::subject::Subject;
use crate::matcher::trail::{ChoiceKind, Current, Part, Task, Trail, Turn};
use crate::view::{StrDrive, StringCursor};
use sre_code::Tree;

/// Leaves the part that was entered last, which matches up to here.
pub fn leave<'t>(current: &mut Current<'t>, trail: &mut Trail<'t>) -> Turn
    requires sound { Sound trail.old }
    requires inside { 0 < trail.old.levels }
    ensures gives { (s : List ℕ) (n : ℕ) → Gives result current.new s trail.new n n
        (tried_at stay current.old s trail.old) }
    ensures ready { (ok : Cursor → Bool) → Ready ok current.old trail.old
        → Stays result ok current.new trail.new }
{
    while let Some(choice) = pop(trail) {
        match choice.kind {
            ChoiceKind::Try => {}
            ChoiceKind::Atomic => {
                current.part = choice.part;
                current.rest = choice.rest as usize;
                return Turn::Go;
            }
            ChoiceKind::Ahead => {
                current.part = choice.part;
                current.rest = choice.rest as usize;
                current.cursor = choice.cursor.wide();
                return Turn::Go;
            }
            ChoiceKind::Not => return Turn::Fail,
        }
    }
    Turn::Done
}

/// A part is entered at a place, of which the first match alone counts.
pub fn enter<'t>(
    kind: ChoiceKind,
    part: Part<'t>,
    start: StringCursor,
    current: &mut Current<'t>,
    trail: &mut Trail<'t>,
) -> Turn
    requires linked { Linked current.old trail.old }
    ensures gives { (s : List ℕ) (n : ℕ) → Gives result current.new s trail.new n n
        (let k = rest_of current.old s trail.old in tried_at
        (λ p m. wrap kind k p m (part_next part.entry s start.place m)) current.old s trail.old) }
    ensures ready { (ok : Cursor → Bool) → ok start ≡ true → Ready ok current.old trail.old
        → Stays result ok current.new trail.new }
{
    let Ok(()) = keep(trail, kind, Part::Skip, current.rest, current.cursor) else {
        return Turn::Full;
    };
    *current = Current {
        part,
        rest: 0,
        cursor: start,
    };
    Turn::Go
}

/// A tree is next.
pub fn tree_turn<'t>(body: &'t Tree, current: &mut Current<'t>, trail: &Trail<'t>) -> Turn
    requires linked { Linked current.old trail.now }
    ensures gives { (s : List ℕ) (n : ℕ) → Gives result current.new s trail.now n n
        (trying (paths body.now s) current.old s trail.now) }
    ensures ready { (ok : Cursor → Bool) → Ready ok current.old trail.now
        → Stays result ok current.new trail.now }
{
    current.part = Part::Nodes(body.nodes());
    Turn::Go
}

/// A group is next.
pub fn group_turn<'t>(
    group: u32,
    body: &'t Tree,
    current: &mut Current<'t>,
    trail: &mut Trail<'t>,
) -> Turn
    requires linked { Linked current.old trail.old }
    ensures gives { (s : List ℕ) (n : ℕ) → Gives result current.new s trail.new n n
        (trying (λ p m. captured_from group p (paths body.now s p m)) current.old s trail.old) }
    ensures ready { (ok : Cursor → Bool) → Ready ok current.old trail.old
        → Stays result ok current.new trail.new }
{
    match put(trail, Task::EndGroup(group, current.cursor), current.rest) {
        Err(_) => Turn::Full,
        Ok(ending) => {
            current.part = Part::Nodes(body.nodes());
            current.rest = ending;
            Turn::Go
        }
    }
}

/// An atomic group is next.
pub fn atomic_turn<'t>(body: &'t Tree, current: &mut Current<'t>, trail: &mut Trail<'t>) -> Turn
    requires linked { Linked current.old trail.old }
    ensures gives { (s : List ℕ) (n : ℕ) → Gives result current.new s trail.new n n
        (trying (λ p m. cut (paths body.now s p m)) current.old s trail.old) }
    ensures ready { (ok : Cursor → Bool) → Ready ok current.old trail.old
        → Stays result ok current.new trail.new }
{
    let cursor = current.cursor;
    enter(
        ChoiceKind::Atomic,
        Part::Nodes(body.nodes()),
        cursor,
        current,
        trail,
    )
}

// A cursor so many units before another one.
fn moved_back<S: StrDrive>(s: &Subject<'_, S>, cursor: &StringCursor, back: usize) -> StringCursor
    requires fits { S.fits s.now cursor.now ≡ true }
    requires there { back ≤ cursor.now.place }
    ensures fits { S.fits s.now result ≡ true }
    ensures place { result.place ≡ cursor.now.place - back }
{
    let mut moved = *cursor;
    s.back_skip(&mut moved, back);
    moved
}

/// A lookahead or lookbehind is next.
pub fn lookaround_turn<'t, S: StrDrive>(
    positive: bool,
    back: u32,
    body: &'t Tree,
    s: &Subject<'_, S>,
    current: &mut Current<'t>,
    trail: &mut Trail<'t>,
) -> Turn
    requires ready { Ready (S.fits s.now) current.old trail.old }
    ensures gives { (n : ℕ) → Gives result current.new s.now trail.new n n
        (trying (node_paths (look positive back body.now) s.now) current.old s.now trail.old) }
    ensures ready { Stays result (S.fits s.now) current.new trail.new }
{
    let back = back as usize;
    let body = Part::Nodes(body.nodes());
    let place = current.cursor.place;
    if positive {
        if place < back {
            return Turn::Fail;
        }
        let start = moved_back(s, &current.cursor, back);
        enter(ChoiceKind::Ahead, body, start, current, trail)
    } else {
        if place < back {
            current.part = Part::Skip;
            return Turn::Go;
        }
        let start = moved_back(s, &current.cursor, back);
        enter(ChoiceKind::Not, body, start, current, trail)
    }
}

/// A group that began at a cursor ends here.
pub fn end_group_turn<'t>(
    group: u32,
    start: StringCursor,
    current: &mut Current<'t>,
    trail: &mut Trail<'t>,
) -> Turn
    requires linked { Linked current.old trail.old }
    ensures gives { (s : List ℕ) (n : ℕ) → Gives result current.new s trail.new n n
        (trying (task_next (Task.EndGroup group start) s) current.old s trail.old) }
    ensures ready { (ok : Cursor → Bool) → ok start ≡ true → Ready ok current.old trail.old
        → Stays result ok current.new trail.new }
{
    let captured = Capture {
        group: group as usize,
        start,
        stop: current.cursor,
    };
    let Ok(()) = add_capture(trail, captured) else {
        return Turn::Full;
    };
    current.part = Part::Skip;
    Turn::Go
}

// The cursor one unit before, or at the beginning the same.
fn one_before<S: StrDrive>(s: &Subject<'_, S>, cursor: &StringCursor) -> StringCursor
    requires { S.fits s.now cursor.now ≡ true }
    ensures fits { S.fits s.now result ≡ true }
    ensures place { result.place ≡ cursor.now.place - 1 }
{
    if cursor.place == 0 {
        return *cursor;
    }
    moved_back(s, cursor, 1)
}

/// Nothing is next but the frame after: it passes here, and then at so many places before.
pub fn back_turn<'t, S: StrDrive>(
    count: usize,
    s: &Subject<'_, S>,
    current: &mut Current<'t>,
    trail: &mut Trail<'t>,
) -> Turn
    requires ready { Ready (S.fits s.now) current.old trail.old }
    ensures gives { (n : ℕ) → Gives result current.new s.now trail.new n n
        (trying (part_next (Part.Back count) s.now) current.old s.now trail.old) }
    ensures ready { Stays result (S.fits s.now) current.new trail.new }
{
    if count > 0 {
        let before = one_before(s, &current.cursor);
        let Ok(()) = keep(
            trail,
            ChoiceKind::Try,
            Part::Back(count - 1),
            current.rest,
            before,
        ) else {
            return Turn::Full;
        };
    }
    current.part = Part::Skip;
    Turn::Go
}

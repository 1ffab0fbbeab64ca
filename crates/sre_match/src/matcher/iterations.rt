//! Turns of the matcher at an iteration of a repeat.

ghost use Rattle.sre_match.specs.Cursor.{Cursor};
ghost use Rattle.sre_match.specs.Fits.{Stays, Ready};
ghost use Rattle.std.specs.Prelude.{◌≡◌, ◌+◌, ◌<◌, ◌≤◌, ℕ, Bool, List, ◌++◌, true, false, Some, length};
ghost use Rattle.sre_match.specs.Machine.{part_next, Gives, iteration, Linked, rest_of, tried_at, trying};
ghost use Rattle.sre_match.specs.Attempts.{after};
ghost use Rattle.sre_match.specs.Paths.{paths};
ghost use Rattle.sre_match.specs.Repeats.{repeat_paths, optional, is_past};

use crate::matcher::choices::keep;
use crate::matcher::frames::put;
use crate::matcher::singles::{met_at, only_single};
use crate::matcher::subject::Subject;
use crate::matcher::trail::{ChoiceKind, Current, Part, Task, Trail, Turn};
use crate::view::StrDrive;
use py_base::Steps;
use sre_code::Tree;
use std::sync::ledger::Ledger;

// Whether a place is past the start of the optional iteration before, where there was one.
fn is_past(previous: Option<usize>, place: usize) -> bool
    ensures { result ≡ is_past previous place }
{
    match previous {
        None => true,
        Some(previous) => previous < place,
    }
}

// An optional iteration is next, and the end of the repeat is for later.
fn once_first<'t>(
    body: &'t Tree,
    room: usize,
    current: &mut Current<'t>,
    trail: &mut Trail<'t>,
) -> Turn
    requires linked { Linked current.old trail.old }
    ensures gives { (s : List ℕ) (n : ℕ) → Gives result current.new s trail.new n n
        (let k = rest_of current.old s trail.old in tried_at
        (λ p m. after (iteration body.now s true room p m) k ++ k p m) current.old s trail.old) }
    ensures ready { (ok : Cursor → Bool) → Ready ok current.old trail.old
        → Stays result ok current.new trail.new }
{
    let Ok(()) = keep(
        trail,
        ChoiceKind::Try,
        Part::Skip,
        current.rest,
        current.cursor,
    ) else {
        return Turn::Full;
    };
    let again = Task::Again {
        greedy: true,
        body,
        room,
        began: current.cursor.place,
    };
    match put(trail, again, current.rest) {
        Err(_) => Turn::Full,
        Ok(again) => {
            current.part = Part::Nodes(body.nodes());
            current.rest = again;
            Turn::Go
        }
    }
}

// The end of the repeat is next, and an optional iteration is for later.
fn once_later<'t>(
    body: &'t Tree,
    room: usize,
    current: &mut Current<'t>,
    trail: &mut Trail<'t>,
) -> Turn
    requires linked { Linked current.old trail.old }
    ensures gives { (s : List ℕ) (n : ℕ) → Gives result current.new s trail.new n n
        (let k = rest_of current.old s trail.old in tried_at
        (λ p m. k p m ++ after (iteration body.now s false room p m) k) current.old s trail.old) }
    ensures ready { (ok : Cursor → Bool) → Ready ok current.old trail.old
        → Stays result ok current.new trail.new }
{
    let Ok(()) = keep(
        trail,
        ChoiceKind::Try,
        Part::Once(body, room),
        current.rest,
        current.cursor,
    ) else {
        return Turn::Full;
    };
    current.part = Part::Skip;
    Turn::Go
}

/// An optional iteration is next, or the end of the repeat.
pub fn optional_turn<'t>(
    body: &'t Tree,
    greedy: bool,
    room: usize,
    previous: Option<usize>,
    current: &mut Current<'t>,
    trail: &mut Trail<'t>,
) -> Turn
    requires linked { Linked current.old trail.old }
    ensures gives { (s : List ℕ) (n : ℕ) → Gives result current.new s trail.new n n
        (trying (optional (paths body.now s) greedy room previous) current.old s trail.old) }
    ensures ready { (ok : Cursor → Bool) → Ready ok current.old trail.old
        → Stays result ok current.new trail.new }
{
    if room == 0 || !is_past(previous, current.cursor.place) {
        current.part = Part::Skip;
        return Turn::Go;
    }
    if greedy {
        once_first(body, room - 1, current, trail)
    } else {
        once_later(body, room - 1, current, trail)
    }
}

/// A mandatory iteration is next, or the optional ones.
pub fn rep_turn<'t>(
    body: &'t Tree,
    greedy: bool,
    left: u32,
    room: usize,
    current: &mut Current<'t>,
    trail: &mut Trail<'t>,
) -> Turn
    requires linked { Linked current.old trail.old }
    ensures gives { (s : List ℕ) (n : ℕ) → Gives result current.new s trail.new n n
        (trying (repeat_paths (paths body.now s) greedy left room) current.old s trail.old) }
    ensures ready { (ok : Cursor → Bool) → Ready ok current.old trail.old
        → Stays result ok current.new trail.new }
{
    if left == 0 {
        return optional_turn(body, greedy, room, None, current, trail);
    }
    let again = Task::Mandatory {
        greedy,
        left: left - 1,
        body,
        room,
    };
    match put(trail, again, current.rest) {
        Err(_) => Turn::Full,
        Ok(again) => {
            current.part = Part::Nodes(body.nodes());
            current.rest = again;
            Turn::Go
        }
    }
}

// One more iteration of a lazy repeat is next, of any body.
fn iteration_turn<'t>(
    body: &'t Tree,
    room: usize,
    current: &mut Current<'t>,
    trail: &mut Trail<'t>,
) -> Turn
    requires linked { Linked current.old trail.old }
    ensures gives { (s : List ℕ) (n : ℕ) → Gives result current.new s trail.new n n
        (trying (part_next (Part.Once body.entry room) s) current.old s trail.old) }
    ensures ready { (ok : Cursor → Bool) → Ready ok current.old trail.old
        → Stays result ok current.new trail.new }
{
    let again = Task::Again {
        greedy: false,
        body,
        room,
        began: current.cursor.place,
    };
    match put(trail, again, current.rest) {
        Err(_) => Turn::Full,
        Ok(again) => {
            current.part = Part::Nodes(body.nodes());
            current.rest = again;
            Turn::Go
        }
    }
}

/// One more iteration of a lazy repeat is next.
pub fn once_turn<'t, S: StrDrive, L: Ledger>(
    body: &'t Tree,
    room: usize,
    s: &Subject<'_, S>,
    current: &mut Current<'t>,
    trail: &mut Trail<'t>,
    steps: &mut Steps<L>,
) -> Turn
    requires ready { Ready (S.fits s.now) current.old trail.old }
    requires counter { S.counts L.name }
    ensures gives { Gives result current.new s.now trail.new steps.old steps.new
        (trying (part_next (Part.Once body.entry room) s.now) current.old s.now trail.old) }
    ensures ready { Stays result (S.fits s.now) current.new trail.new }
{
    match only_single(body) {
        None => iteration_turn(body, room, current, trail),
        Some(node) => {
            if !met_at(node, s, &current.cursor, steps) {
                return Turn::Fail;
            }
            s.skip(&mut current.cursor, 1);
            if room == 0 {
                current.part = Part::Skip;
                return Turn::Go;
            }
            once_later(body, room - 1, current, trail)
        }
    }
}

//! Choices: what is still to be tried, and the way back to it.

ghost use Rattle.sre_match.specs.Captures.{captures, captured_by, capture_fits};
ghost use Rattle.sre_match.specs.Cursor.{Cursor, widened};
ghost use Rattle.sre_match.specs.Fits.{Fit};
ghost use Rattle.std.specs.Prelude.{◌≡◌, ℕ, Bool, IfSome, List, [], ◌∷◌, ◌++◌, ◌<◌, ◌≤◌, ◌^◌, take, true, IfOk, OnOk, length};
ghost use Rattle.sre_match.specs.Machine.{run, onward, part_next, wrap, level_of, to_try, Sound, Rising, Stacked, Pops, Returns};
ghost use Rattle.sre_match.specs.Attempts.{Attempt};

use crate::marks::Capture;
use crate::matcher::frames::frame_count;
use crate::matcher::trail::{Choice, ChoiceKind, Current, Part, Trail};
use crate::view::StringCursor;
use crate::view::short::{ShortCursor, short};
use std::alloc::AllocError;

// Adds a choice at the end.
fn push_choice<'t>(choices: &mut Vec<Choice<'t>>, choice: Choice<'t>) -> Result<(), AllocError>
    ensures { OnOk result (choices.new.items ≡ choices.old.items ++ choice.entry ∷ []) }
{
    if choices.push(choice).is_err() {
        return Err(AllocError);
    }
    Ok(())
}

// How many levels a choice of this kind is.
fn level(kind: ChoiceKind) -> usize
    ensures { result ≡ level_of kind }
{
    match kind {
        ChoiceKind::Try => 0,
        _ => 1,
    }
}

// How many captures there are.
#[tactic(auto, using(crate::proofs::CaptureLemmas::captures_length))]
fn mark_count(marks: &[Capture]) -> usize
    ensures { result ≡ length (captures marks.now) }
{
    marks.len()
}

// How many choices there are.
fn choice_count<'t>(choices: &[Choice<'t>]) -> usize
    ensures count { result ≡ length choices.now }
    ensures bound { result < 2 ^ 63 }
{
    choices.len()
}

/// Keeps a choice for later.
pub fn keep<'t>(
    trail: &mut Trail<'t>,
    kind: ChoiceKind,
    part: Part<'t>,
    rest: usize,
    cursor: StringCursor,
) -> Result<(), AllocError>
    requires sound { Sound trail.old }
    requires deep { rest ≤ length trail.old.frames.items }
    ensures marks { OnOk result (captures trail.new.marks.items ≡ captures trail.old.marks.items) }
    ensures frames { OnOk result (trail.new.frames.items ≡ trail.old.frames.items) }
    ensures tried { OnOk result ((s : List ℕ) (xs : List Attempt) →
        let next = onward trail.old.frames.items (part_next part.entry s) rest s in
        to_try s trail.new xs
        ≡ to_try s trail.old (wrap kind next cursor.place (captures trail.old.marks.items) xs)) }
    ensures sound { OnOk result (Sound trail.new) }
    ensures fit { OnOk result ((ok : Cursor → Bool)
        → ok cursor ≡ true → Fit ok trail.old → Fit ok trail.new) }
{
    let marks = short(mark_count(&trail.marks))?;
    let frames = short(frame_count(&trail.frames))?;
    let rest = short(rest)?;
    let kept = ShortCursor::new(cursor)?;
    let _count = choice_count(&trail.choices);
    let levels = trail.levels + level(kind);
    let choice = Choice {
        part,
        cursor: kept,
        rest,
        frames,
        marks,
        kind,
    };
    push_choice(&mut trail.choices, choice)?;
    trail.levels = levels;
    Ok(())
}

/// Adds a capture at the end.
pub fn add_capture<'t>(trail: &mut Trail<'t>, captured: Capture) -> Result<(), AllocError>
    requires { Sound trail.old }
    ensures marks { OnOk result (captures trail.new.marks.items
        ≡ captures trail.old.marks.items ++ captured_by captured ∷ []) }
    ensures frames { OnOk result (trail.new.frames.items ≡ trail.old.frames.items) }
    ensures tried { OnOk result ((s : List ℕ) (xs : List Attempt)
        → to_try s trail.new xs ≡ to_try s trail.old xs) }
    ensures sound { OnOk result (Sound trail.new) }
    ensures fit { OnOk result ((ok : Cursor → Bool)
        → capture_fits ok captured → Fit ok trail.old → Fit ok trail.new) }
{
    match trail.marks.push(captured) {
        Ok(()) => Ok(()),
        Err(_) => Err(AllocError),
    }
}

/// Takes the newest choice away. The captures and the frames stay.
pub fn pop<'t>(trail: &mut Trail<'t>) -> Option<Choice<'t>>
    requires { Sound trail.old }
    ensures popped { Pops result trail.old trail.new }
    ensures sound { Sound trail.new }
    ensures fit { (ok : Cursor → Bool) → Fit ok trail.old → Fit ok trail.new }
    ensures here { (ok : Cursor → Bool)
        → Fit ok trail.old → IfSome result (λ c. ok (widened c.cursor) ≡ true) }
{
    let choice = trail.choices.pop()?;
    trail.levels -= level(choice.kind);
    Some(choice)
}

// Goes back to the captures and the frames of a choice that was taken away.
fn rewind<'t>(trail: &mut Trail<'t>, marks: usize, frames: usize, rest: usize)
    requires sound { Sound trail.old }
    requires rising { Rising 0 trail.old.choices.items marks }
    requires within { marks ≤ length (captures trail.old.marks.items) }
    requires stacked { Stacked 0 trail.old.choices.items frames }
    requires deep { frames ≤ length trail.old.frames.items }
    requires reach { rest ≤ frames }
    ensures marks { captures trail.new.marks.items ≡ take marks (captures trail.old.marks.items) }
    ensures tried { (s : List ℕ) (xs : List Attempt)
        → to_try s trail.new xs ≡ to_try s trail.old xs }
    ensures stays { (s : List ℕ)
        → run trail.new.frames.items rest s ≡ run trail.old.frames.items rest s }
    ensures count { length trail.new.frames.items ≡ frames }
    ensures sound { Sound trail.new }
    ensures fit { (ok : Cursor → Bool) → Fit ok trail.old → Fit ok trail.new }
{
    trail.marks.truncate(marks);
    trail.frames.truncate(frames);
}

// Where the matcher is when it goes on at a choice.
fn current_of<'t>(choice: Choice<'t>) -> Current<'t>
    ensures { result ≡ record {
      part = choice.entry.part;
      rest = choice.entry.rest;
      cursor = widened choice.entry.cursor;
    } }
{
    Current {
        part: choice.part,
        rest: choice.rest as usize,
        cursor: choice.cursor.wide(),
    }
}

/// Goes back to the newest choice that has more to try, and to its captures. False says that none
/// is left.
pub fn go_back<'t>(current: &mut Current<'t>, trail: &mut Trail<'t>) -> bool
    requires { Sound trail.old }
    ensures back { (s : List ℕ) → Returns result current.new s trail.new (to_try s trail.old []) }
    ensures below { result ≡ true → current.new.rest ≤ length trail.new.frames.items }
    ensures sound { Sound trail.new }
    ensures fit { (ok : Cursor → Bool) → Fit ok trail.old → Fit ok trail.new }
    ensures here { (ok : Cursor → Bool)
        → Fit ok trail.old → result ≡ true → ok current.new.cursor ≡ true }
{
    while let Some(choice) = pop(trail) {
        // Two arms alike: the definitions tell these kinds apart, and each is proved by its case.
        match choice.kind {
            ChoiceKind::Atomic | ChoiceKind::Ahead => {}
            ChoiceKind::Try => {
                let rest = choice.rest as usize;
                rewind(trail, choice.marks as usize, choice.frames as usize, rest);
                *current = current_of(choice);
                return true;
            }
            ChoiceKind::Not => {
                let rest = choice.rest as usize;
                rewind(trail, choice.marks as usize, choice.frames as usize, rest);
                *current = current_of(choice);
                return true;
            }
        }
    }
    false
}

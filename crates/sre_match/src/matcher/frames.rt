//! Frames: what is left to do, each with the frame after it.

ghost use Rattle.sre_match.specs.Captures.{captures};
ghost use Rattle.sre_match.specs.Cursor.{Cursor};
ghost use Rattle.sre_match.specs.Fits.{Fit, task_fits, frame_fits};
ghost use Rattle.std.specs.List.{All};
ghost use Rattle.std.specs.Prelude.{◌≡◌, ℕ, Bool, List, [], ◌∷◌, ◌++◌, ◌<◌, ◌≤◌, ◌^◌, true, IfOk, OnOk, length};
ghost use Rattle.sre_match.specs.Machine.{run, onward, task_next, Down, to_try, Sound, Stacked};
ghost use Rattle.sre_match.specs.Attempts.{Attempt};

use crate::matcher::trail::{Choice, Frame, Task, Trail};
use std::alloc::AllocError;

// Adds a frame at the end.
fn push_frame<'t>(frames: &mut Vec<Frame<'t>>, frame: Frame<'t>) -> Result<(), AllocError>
    ensures { OnOk result (frames.new.items ≡ frames.old.items ++ frame.entry ∷ []) }
{
    if frames.push(frame).is_err() {
        return Err(AllocError);
    }
    Ok(())
}

/// How many frames there are.
pub fn frame_count<'t>(frames: &[Frame<'t>]) -> usize
    ensures count { result ≡ length frames.now }
    ensures bound { result < 2 ^ 63 }
{
    frames.len()
}

/// The frame of a number.
pub fn frame_in<'t>(frames: &[Frame<'t>], rest: usize) -> Frame<'t>
    requires some { 0 < rest }
    requires deep { rest ≤ length frames.now }
    requires down { Down 0 frames.now }
    ensures run { (s : List ℕ)
        → run frames.now rest s ≡ onward frames.now (task_next result.task s) result.rest s }
    ensures below { result.rest < rest }
    ensures fit { (ok : Cursor → Bool)
        → All (frame_fits ok) frames.now → task_fits ok result.task ≡ true }
{
    frames[rest - 1]
}

/// A thing to do before the rest.
pub fn put<'t>(trail: &mut Trail<'t>, task: Task<'t>, rest: usize) -> Result<usize, AllocError>
    requires sound { Sound trail.old }
    requires deep { rest ≤ length trail.old.frames.items }
    ensures marks { OnOk result (captures trail.new.marks.items ≡ captures trail.old.marks.items) }
    ensures tried { OnOk result ((s : List ℕ) (xs : List Attempt)
        → to_try s trail.new xs ≡ to_try s trail.old xs) }
    ensures put { IfOk result (λ i. (s : List ℕ) → run trail.new.frames.items i s
        ≡ onward trail.old.frames.items (task_next task.entry s) rest s) }
    ensures stays { OnOk result ((s : List ℕ)
        → run trail.new.frames.items rest s ≡ run trail.old.frames.items rest s) }
    ensures below { IfOk result (λ i. i ≤ length trail.new.frames.items) }
    ensures deep { OnOk result (rest ≤ length trail.new.frames.items) }
    ensures sound { OnOk result (Sound trail.new) }
    ensures fit { OnOk result ((ok : Cursor → Bool)
        → task_fits ok task.entry ≡ true → Fit ok trail.old → Fit ok trail.new) }
{
    let count = frame_count(&trail.frames);
    push_frame(&mut trail.frames, Frame { task, rest })?;
    Ok(count + 1)
}

// How many frames the newest choice goes back to.
fn frames_kept<'t>(choices: &[Choice<'t>]) -> usize
    ensures { (high n : ℕ) → Stacked 0 choices.now high → result ≤ n → Stacked 0 choices.now n }
{
    match choices {
        [] => 0,
        [.., choice] => choice.frames as usize,
    }
}

/// Takes the newest frame away where it has this number, and no choice goes back to it.
pub fn drop_frame<'t>(trail: &mut Trail<'t>, rest: usize)
    requires sound { Sound trail.old }
    requires some { 0 < rest }
    requires deep { rest ≤ length trail.old.frames.items }
    ensures marks { captures trail.new.marks.items ≡ captures trail.old.marks.items }
    ensures tried { (s : List ℕ) (xs : List Attempt)
        → to_try s trail.new xs ≡ to_try s trail.old xs }
    ensures stays { (i : ℕ) (s : List ℕ) → i < rest
        → run trail.new.frames.items i s ≡ run trail.old.frames.items i s }
    ensures deep { (i : ℕ) → i < rest → i ≤ length trail.new.frames.items }
    ensures sound { Sound trail.new }
    ensures fit { (ok : Cursor → Bool) → Fit ok trail.old → Fit ok trail.new }
{
    if rest == frame_count(&trail.frames) && frames_kept(&trail.choices) < rest {
        trail.frames.truncate(rest - 1);
    }
}

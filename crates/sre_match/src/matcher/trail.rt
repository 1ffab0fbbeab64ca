//! What is left to do, what is still to be tried, and where the matcher is.

ghost use Rattle.sre_match.specs.Captures.{captures};
ghost use Rattle.sre_match.specs.Cursor.{Cursor};
ghost use Rattle.sre_match.specs.Fits.{Fit};
ghost use Rattle.std.specs.Prelude.{◌≡◌, Bool, [], ◌<◌};

use crate::marks::Capture;
use crate::view::StringCursor;
use crate::view::short::ShortCursor;
use sre_code::{Node, Tree};
use std::alloc::Global;

/// What is next, or kept for later.
#[derive(Clone, Copy)]
pub enum Part<'t> {
    /// Nothing before the frame after it.
    Skip,
    /// Nodes, one after another.
    Nodes(&'t [Node]),
    /// Alternatives.
    Trees(&'t [Tree]),
    /// Nothing, here and then at so many places before, the nearest ones first.
    Back(usize),
    /// One more iteration of a lazy repeat's body, and how many may follow it.
    Once(&'t Tree, usize),
}

/// What a frame does.
#[derive(Clone, Copy)]
pub enum Task<'t> {
    /// The rest of some nodes.
    Then(&'t [Node]),
    /// The mandatory iterations of a repeat: how many are left, and how many optional ones may
    /// follow.
    Mandatory {
        greedy: bool,
        left: u32,
        body: &'t Tree,
        room: usize,
    },
    /// Its optional iterations: how many may follow, and the place where the last of them began.
    Again {
        greedy: bool,
        body: &'t Tree,
        room: usize,
        began: usize,
    },
    /// The end of a group, and the cursor where it began.
    EndGroup(u32, StringCursor),
}

/// A task, and the number of the frame after it. The frames are numbered from 1, and 0 is the end.
#[derive(Clone, Copy)]
pub struct Frame<'t> {
    pub task: Task<'t>,
    pub rest: usize,
}

/// Where the matcher is: what is next, the number of the frame after it, and the place.
#[derive(Clone, Copy)]
pub struct Current<'t> {
    pub part: Part<'t>,
    pub rest: usize,
    pub cursor: StringCursor,
}

/// What came of a turn.
#[derive(Clone, Copy, Drop)]
pub enum Turn {
    /// There is more to do.
    Go,
    /// A failure.
    Fail,
    /// The whole tree matches up to here.
    Done,
    /// Out of memory.
    Full,
}

/// What a choice is: more to try, or a part that was entered, of which the first match alone
/// counts.
#[derive(Clone, Copy, Drop)]
pub enum ChoiceKind {
    /// One more way to go on.
    Try,
    /// The body of an atomic group, after which it goes on at the body's end.
    Atomic,
    /// The body of a lookahead or lookbehind, after which it goes on at the place where that began.
    Ahead,
    /// The body of a negative one, after which it goes on only where the body does not match.
    Not,
}

/// What is still to be tried: from where, and with how many marks and frames. A subject's every
/// place may have one, so their numbers are short.
#[derive(Clone, Copy)]
pub struct Choice<'t> {
    pub part: Part<'t>,
    pub cursor: ShortCursor,
    pub rest: u32,
    pub frames: u32,
    pub marks: u32,
    pub kind: ChoiceKind,
}

/// The captures on the way here, what is left to do, and what is still to be tried.
#[derive(Drop)]
pub struct Trail<'t> {
    pub marks: Vec<Capture>,
    pub frames: Vec<Frame<'t>>,
    pub choices: Vec<Choice<'t>>,
    pub levels: usize,
}

/// A trail without marks, frames and choices.
pub fn new_trail<'t>(alloc: Global) -> Trail<'t>
    ensures { captures result.marks.items ≡ [] }
{
    Trail {
        marks: Vec::new(alloc),
        frames: Vec::new(alloc),
        choices: Vec::new(alloc),
        levels: 0,
    }
}

/// Forgets all, and keeps the room.
pub fn clear<'t>(trail: &mut Trail<'t>)
    ensures marks { captures trail.new.marks.items ≡ [] }
    ensures frames { trail.new.frames.items ≡ [] }
    ensures choices { trail.new.choices.items ≡ [] }
    ensures levels { trail.new.levels ≡ 0 }
    ensures fit { (ok : Cursor → Bool) → Fit ok trail.new }
{
    trail.marks.clear();
    trail.frames.clear();
    trail.choices.clear();
    trail.levels = 0;
}

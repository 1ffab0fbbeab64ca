//! The last match, and the searches that find it.

ghost use Rattle.std.specs.Prelude.{◌≡◌, ◌≢◌, ◌≤◌, ◌+◌, [], true, Ok, IfOk};
ghost use Rattle.sre_match.specs.Captures.{captures};
ghost use Rattle.sre_match.specs.Matches.{if_found};
ghost use Rattle.sre_match.specs.Search.{match_here, reads_here, match_next, reads_next};

use crate::error::MatchError;
use crate::marks::{Capture, Marks};
use crate::matcher::search::{first_end, next_ends};
use crate::matcher::trail::new_trail;
use crate::request::Request;
use crate::view::{MeteredView, StrDrive, StringCursor};
use py_base::Steps;
use std::alloc::Global;
use std::marker::Model;
use std::sync::ledger::Ledger;

/// The last match. An answer that is not true leaves it as it was.
#[derive(Debug, Drop)]
pub struct State {
    alloc: Global,
    start: StringCursor,
    stop: StringCursor,
    marks: Marks,
}

impl Model for State {
    ghost use Rattle.sre_match.specs.Matches.{Span};

    ghost Value = { Span };

    ghost view = { λ s. record { start = s.start.place; stop = s.stop.place; marks = s.marks } };
}

impl State {
    /// An empty span with no marks.
    pub fn new(alloc: Global) -> State
        ensures { result ≡ record { start = 0; stop = 0; marks = [] } }
    {
        State {
            alloc,
            start: StringCursor::beginning(),
            stop: StringCursor::beginning(),
            marks: Marks::new(alloc),
        }
    }

    // Takes a match with these captures, and leaves the room of those that it had.
    pub(crate) fn hold(&mut self, start: StringCursor, stop: StringCursor, marks: &mut Vec<Capture>)
        ensures { let marks = captures marks.old.items in
            self.new ≡ record { start = start.place; stop = stop.place; marks = marks } }
    {
        self.start = start;
        self.stop = stop;
        self.marks.swap(marks);
    }

    /// Whether there is an allowed outcome at the request's start. The state then has the first.
    pub fn pymatch<S: StrDrive, L: Ledger>(
        &mut self,
        request: &Request<'_, S>,
        steps: &mut Steps<L>,
    ) -> Result<bool, MatchError>
        requires { S.counts L.name }
        ensures found { IfOk result (λ found. if_found found self.new ≡ match_here request.now) }
        ensures kept { result ≢ Ok true → self.new ≡ self.old }
        ensures cost { steps.new ≤ steps.old + reads_here request.now }
    {
        let mut trail = new_trail(self.alloc);
        let start = match request.first_cursor() {
            None => return Ok(false),
            Some(start) => start,
        };
        match first_end(request, &mut trail, &start, request.must_advance, steps)? {
            None => Ok(false),
            Some(stop) => {
                self.hold(start, stop, &mut trail.marks);
                Ok(true)
            }
        }
    }

    /// The same at the least place from the request's start on that has an allowed outcome.
    pub fn search<S: StrDrive, L: Ledger>(
        &mut self,
        request: &Request<'_, S>,
        steps: &mut Steps<L>,
    ) -> Result<bool, MatchError>
        requires { S.counts L.name }
        ensures found { IfOk result (λ found. if_found found self.new ≡ match_next request.now) }
        ensures kept { result ≢ Ok true → self.new ≡ self.old }
        ensures cost { steps.new ≤ steps.old + reads_next request.now }
    {
        let mut trail = new_trail(self.alloc);
        let from = match request.first_cursor() {
            None => return Ok(false),
            Some(from) => from,
        };
        match next_ends(request, &mut trail, &from, request.must_advance, steps)? {
            None => Ok(false),
            Some((start, stop)) => {
                self.hold(start, stop, &mut trail.marks);
                Ok(true)
            }
        }
    }

    /// The place where the match begins.
    pub fn start(&self) -> usize
        ensures { result ≡ self.now.start }
    {
        self.start.place
    }

    /// The place where the match ends.
    pub fn position(&self) -> usize
        ensures { result ≡ self.now.stop }
    {
        self.stop.place
    }

    /// The groups of the match.
    pub fn marks(&self) -> &Marks
        ensures { result.now ≡ self.now.marks }
    {
        &self.marks
    }
}

/// The search of `State::search` over bytes that no counter but this one can count: `cost` is then
/// a bound on the bytes that are read.
pub fn metered_search<'s, L: Ledger>(
    state: &mut State,
    request: &Request<'_, MeteredView<'s, L>>,
    steps: &mut Steps<L>,
) -> Result<bool, MatchError>
    ensures found { IfOk result (λ found. if_found found state.new ≡ match_next request.now) }
    ensures kept { result ≢ Ok true → state.new ≡ state.old }
    ensures cost { steps.new ≤ steps.old + reads_next request.now }
{
    state.search(request, steps)
}

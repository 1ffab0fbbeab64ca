//! The spans of a subject, one after another.

ghost use Rattle.std.specs.Prelude.{◌≡◌, ◌≢◌, ◌≤◌, ◌+◌, false, true, Ok, IfOk, OnErr, [], OnOk};
ghost use Rattle.sre_match.specs.Matches.{if_found};
ghost use Rattle.sre_match.specs.Search.{NextStart, start_after, walk_next, walk_reads};

use crate::error::MatchError;
use crate::matcher::search::next_ends;
use crate::matcher::trail::{Trail, new_trail};
use crate::request::Request;
use crate::state::State;
use crate::view::{StrDrive, StringCursor};
use py_base::Steps;
use std::alloc::Global;
use std::marker::Model;
use std::sync::ledger::Ledger;

/// The spans of a request's subject, from left to right. Each search begins at the end of the span
/// before; after an empty span, and only there, an empty span is passed over.
#[derive(Drop)]
pub struct SearchIter<'c, S: StrDrive> {
    request: Request<'c, S>,
    state: State,
    trail: Trail<'c>,
    cursor: Option<StringCursor>,
    advance: bool,
}

impl<'c, S: StrDrive> Model for SearchIter<'c, S> {
    ghost use Rattle.std.specs.Prelude.{◌≡◌, false, true, length};
    ghost use Rattle.sre_match.specs.Search.{Walk, place_of, fits_or_past};
    ghost use Rattle.sre_match.specs.SearchCode.{walk_code};

    ghost Value = { Walk };

    ghost coded = { walk_code };

    ghost view = { λ w. record {
      search = w.request;
      next_start = record { place = place_of w.cursor w.request.start; advance = w.advance };
      span = w.state;
    } };

    ghost invariant = { λ w. (w.request.whole ≡ false)
        × (fits_or_past (S.fits w.request.subject) (length w.request.subject)
        w.request.start w.cursor ≡ true) };
}

impl<'c, S: StrDrive> SearchIter<'c, S> {
    /// A walk from the request's start.
    pub fn new(alloc: Global, request: Request<'c, S>) -> SearchIter<'c, S>
        requires whole { request.whole ≡ false }
        requires advance { request.advance ≡ false }
        ensures search { result.search ≡ request.entry }
        ensures next_start { let start = request.entry.start in
            result.next_start ≡ record { place = start; advance = false } }
        ensures span { result.span ≡ record { start = 0; stop = 0; marks = [] } }
    {
        SearchIter {
            cursor: request.first_cursor(),
            request,
            state: State::new(alloc),
            trail: new_trail(alloc),
            advance: false,
        }
    }

    /// Whether there is one more span, which the state then has.
    ///
    /// # Errors
    ///
    /// `NoMemory`. The walk is where it was, and has the span that it had.
    pub fn next<L: Ledger>(&mut self, steps: &mut Steps<L>) -> Result<bool, MatchError>
        requires { S.counts L.name }
        ensures found { IfOk result (λ found. if_found found self.new.span ≡ walk_next self.old) }
        ensures moved { OnOk result
            (self.new.next_start ≡ start_after (walk_next self.old) self.old.next_start) }
        ensures failed { OnErr result (self.new.next_start ≡ self.old.next_start) }
        ensures kept { result ≢ Ok true → self.new.span ≡ self.old.span }
        ensures search { self.new.search ≡ self.old.search }
        ensures cost { steps.new ≤ steps.old + walk_reads self.old }
    {
        let cursor = match self.cursor {
            None => return Ok(false),
            Some(cursor) => cursor,
        };
        match next_ends(&self.request, &mut self.trail, &cursor, self.advance, steps)? {
            None => Ok(false),
            Some((start, stop)) => {
                self.cursor = Some(stop);
                self.advance = start.place == stop.place;
                self.state.hold(start, stop, &mut self.trail.marks);
                Ok(true)
            }
        }
    }

    /// The last span.
    pub fn state(&self) -> &State
        ensures { result.now ≡ self.now.span }
    {
        &self.state
    }

    /// The request's view.
    pub fn view(&self) -> &S
        ensures { S.units result.now ≡ self.now.search.units }
    {
        &self.request.string
    }
}

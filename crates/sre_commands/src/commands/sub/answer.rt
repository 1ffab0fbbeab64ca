//! The answer to a request.

ghost use Rattle.std.specs.Prelude.{◌≡◌, ◌++◌, ◌+◌, ◌≤◌, List, ℕ, false, true, length, slice_range, IfOk, OnOk, string_bytes, encode_utf8_all};
ghost use Rattle.sre_match.specs.Matches.{if_found, spans};
ghost use Rattle.sre_match.specs.Search.{start_after, walk_next};
ghost use Rattle.sre_commands.specs.Commands.Sub.Filling.{fill, result_of};
ghost use Rattle.sre_commands.specs.Commands.Sub.Request.{IsRequest, request_of};
ghost use Rattle.sre_commands.specs.Commands.Sub.Template.{replacement_of};
ghost use Rattle.sre_commands.specs.Commands.Sub.Answer.{answer_of, spans_of_request, is_reached, up_to};

use super::filling::fill;
use super::line::answer_line;
use super::parts::{TextParts, moved_to};
use super::request::Substitution;
use super::template::Template;
use py_base::Steps;
use sre_code::Checked;
use sre_match::{
    ByteView, MatchError, Request, SearchIter, State, StrDrive, StringCursor, TextView,
};
use std::alloc::{AllocError, Global};
use std::sync::ledger::Ledger;

// Whether a limit other than 0 is reached.
fn is_reached(limit: usize, count: usize) -> bool
    ensures { result ≡ is_reached limit count }
{
    limit != 0 && limit <= count
}

// Whether one more span is to be replaced, which the walk then holds.
fn has_next<'c, S: StrDrive, L: Ledger>(
    walk: &mut SearchIter<'c, S>,
    limit: usize,
    count: usize,
    steps: &mut Steps<L>,
) -> Result<bool, MatchError>
    requires { S.counts L.name }
    ensures found { let next = up_to limit count (walk_next walk.old) in
        IfOk result (λ found. if_found found walk.new.span ≡ next) }
    ensures moved { let next = up_to limit count (walk_next walk.old) in
        OnOk result (walk.new.next_start ≡ start_after next walk.old.next_start) }
    ensures search { walk.new.search ≡ walk.old.search }
{
    if is_reached(limit, count) {
        return Ok(false);
    }
    walk.next(steps)
}

// Appends the gap before a span and what replaces it, and answers the cursor at its end.
fn append_span<S: TextParts>(
    bytes: &mut Vec<u8>,
    template: &Template,
    view: &S,
    from: &StringCursor,
    span: &State,
) -> Result<StringCursor, AllocError>
    requires is_text { S.is_text (S.units view.now) }
    requires fits { S.fits (S.units view.now) from.now ≡ true }
    requires follows { from.now.place ≤ span.now.start }
    requires order { span.now.start ≤ span.now.stop }
    requires within { span.now.stop ≤ length (S.units view.now) }
    ensures fits { IfOk result (λ to. S.fits (S.units view.now) to ≡ true) }
    ensures place { IfOk result (λ to. to.place ≡ span.now.stop) }
    ensures bytes { let gap = slice_range (S.units view.now) from.now.place span.now.start in
        let filled = fill (replacement_of template.now) (S.units view.now) span.now in
        let before = bytes.old.items ++ encode_utf8_all gap in
        OnOk result (bytes.new.items ≡ before ++ encode_utf8_all filled) }
{
    let start = moved_to(view, from, span.start());
    view.append(bytes, from, &start)?;
    fill(bytes, template, view, &start, span)?;
    Ok(moved_to(view, &start, span.position()))
}

// The UTF-8 of the subject with its spans replaced, and how many there were.
fn replaced_over<S: TextParts, L: Ledger>(
    alloc: Global,
    asked: &Substitution,
    view: S,
    code: &Checked,
    steps: &mut Steps<L>,
) -> Result<(Vec<u8>, usize), MatchError>
    requires counter { S.counts L.name }
    requires units { S.units view ≡ asked.now.subject }
    requires is_text { S.is_text (S.units view) }
    ensures text { let spans = spans_of_request (request_of asked.now) code.now.tree in
        let text = result_of asked.now.subject spans (replacement_of asked.now.template) in
        IfOk result (λ x. x.0.items ≡ encode_utf8_all text) }
    ensures count { let spans = spans_of_request (request_of asked.now) code.now.tree in
        IfOk result (λ x. x.1 ≡ length spans) }
{
    let end = view.count();
    let request = Request::new(view, 0, end, code, false);
    let mut walk = SearchIter::new(alloc, request);
    let mut bytes = Vec::new(alloc);
    let mut from = walk.view().create_cursor(0);
    let mut count = 0usize;
    'spans: while has_next(&mut walk, asked.limit, count, steps)? {
        from = append_span(
            &mut bytes,
            &asked.template,
            walk.view(),
            &from,
            walk.state(),
        )?;
        count += 1;
    }
    let last = walk.view().create_cursor(end);
    walk.view().append(&mut bytes, &from, &last)?;
    Ok((bytes, count))
}

// The same over a view that fits the subject: `ByteView` if it is ASCII, else `TextView`.
fn replaced<L: Ledger>(
    alloc: Global,
    asked: &Substitution,
    code: &Checked,
    steps: &mut Steps<L>,
) -> Result<(Vec<u8>, usize), MatchError>
    ensures text { let spans = spans_of_request (request_of asked.now) code.now.tree in
        let text = result_of asked.now.subject spans (replacement_of asked.now.template) in
        IfOk result (λ x. x.0.items ≡ encode_utf8_all text) }
    ensures count { let spans = spans_of_request (request_of asked.now) code.now.tree in
        IfOk result (λ x. x.1 ≡ length spans) }
{
    let subject = &asked.subject;
    if subject.is_ascii() {
        let view = ByteView::new(subject.as_str().as_bytes());
        return replaced_over(alloc, asked, view, code, steps);
    }
    replaced_over(alloc, asked, TextView::new(subject), code, steps)
}

/// The answer's line.
pub fn answer<L: Ledger>(
    alloc: Global,
    asked: &Substitution,
    code: &Checked,
    steps: &mut Steps<L>,
) -> Result<Vec<u8>, MatchError>
    requires { IsRequest (request_of asked.now) }
    ensures { IfOk result (λ line.
        line.items ≡ answer_of (request_of asked.now) code.now.tree) }
{
    let (text, count) = replaced(alloc, asked, code, steps)?;
    Ok(answer_line(alloc, &text, count)?)
}

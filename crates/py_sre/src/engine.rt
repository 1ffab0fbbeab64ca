//! A subject with its spans replaced.

ghost use Rattle.std.specs.Prelude.{◌≡◌, ◌++◌, ◌≤◌, true, length, slice_range, IfOk, OnOk, IsOkUnless};
ghost use Rattle.py_base.specs.declared.error.PyError.TheVariants.{NoMemory};
ghost use Rattle.sre_match.specs.Matches.{if_found};
ghost use Rattle.sre_match.specs.Search.{start_after, walk_next};
ghost use Rattle.py_sre.specs.Pieces.{replacement_of};
ghost use Rattle.py_sre.specs.Replacing.{fill, is_reached, up_to, substituted, substitutions};

use crate::built::Built;
use crate::filling::{fill, moved_to};
use crate::pieces::Piece;
use py_base::{PyError, PyResult, Steps};
use sre_code::Checked;
use sre_match::{Request, SearchIter, State, StrDrive, StringCursor};
use std::alloc::Global;
use std::sync::ledger::Ledger;

// Whether a limit other than 0 is reached.
fn is_reached(limit: usize, count: usize) -> bool
    ensures { result ≡ is_reached limit count }
{
    limit != 0 && limit <= count
}

// Whether one more span is to be replaced, which the walk then holds.
fn has_next<'c, S: StrDrive, L: Ledger>(
    walk: &mut SearchIter<'c, S>,
    limit: usize,
    count: usize,
    steps: &mut Steps<L>,
) -> PyResult<bool>
    requires { S.counts L.name }
    ensures found { let next = up_to limit count (walk_next walk.old) in
        IfOk result (λ found. if_found found walk.new.span ≡ next) }
    ensures moved { let next = up_to limit count (walk_next walk.old) in
        OnOk result (walk.new.next_start ≡ start_after next walk.old.next_start) }
    ensures search { walk.new.search ≡ walk.old.search }
    ensures err { IsOkUnless result NoMemory }
{
    if is_reached(limit, count) {
        return Ok(false);
    }
    match walk.next(steps) {
        Ok(found) => Ok(found),
        Err(_) => Err(PyError::NoMemory),
    }
}

// Appends the gap before a span and what replaces it, and answers the cursor at its end.
fn append_span<S: StrDrive, T: Drop, B: Built<S, T>>(
    out: &mut B,
    pieces: &[Piece<T>],
    unset: &T,
    view: &S,
    from: &StringCursor,
    span: &State,
) -> PyResult<StringCursor>
    requires taken { B.takes (S.units view.now) }
    requires fits { S.fits (S.units view.now) from.now ≡ true }
    requires follows { from.now.place ≤ span.now.start }
    requires order { span.now.start ≤ span.now.stop }
    requires within { span.now.stop ≤ length (S.units view.now) }
    ensures fits { IfOk result (λ to. S.fits (S.units view.now) to ≡ true) }
    ensures place { IfOk result (λ to. to.place ≡ span.now.stop) }
    ensures ok { let gap = slice_range (S.units view.now) from.now.place span.now.start in
        let asked = replacement_of B.literal_units pieces.now unset.now in
        let filled = fill asked (S.units view.now) span.now in
        OnOk result (B.units out.new ≡ (B.units out.old ++ gap) ++ filled) }
    ensures err { IsOkUnless result NoMemory }
{
    let start = moved_to(view, from, span.start());
    out.append_part(view, from, &start)?;
    fill(out, pieces, unset, view, &start, span)?;
    Ok(moved_to(view, &start, span.position()))
}

/// What a view sees with its first spans replaced, as many as the limit, where 0 is none, and how
/// many they were.
pub(crate) fn replaced_over<S: StrDrive, T: Drop, B: Built<S, T>, L: Ledger>(
    alloc: Global,
    pieces: &[Piece<T>],
    unset: &T,
    view: S,
    code: &Checked,
    limit: usize,
    steps: &mut Steps<L>,
) -> PyResult<(B, usize)>
    requires counter { S.counts L.name }
    requires taken { B.takes (S.units view) }
    ensures ok { let asked = replacement_of B.literal_units pieces.now unset.now in
        IfOk result (λ x. B.units x.0 ≡ substituted code.now.tree (S.units view) limit asked) }
    ensures count { IfOk result (λ x. x.1 ≡ substitutions code.now.tree (S.units view) limit) }
    ensures err { IsOkUnless result NoMemory }
{
    let end = view.count();
    let request = Request::new(view, 0, end, code, false);
    let mut walk = SearchIter::new(alloc, request);
    let mut out = B::empty(alloc);
    let mut from = walk.view().create_cursor(0);
    let mut count = 0usize;
    'spans: while has_next(&mut walk, limit, count, steps)? {
        from = append_span(&mut out, pieces, unset, walk.view(), &from, walk.state())?;
        count += 1;
    }
    let last = walk.view().create_cursor(end);
    out.append_part(walk.view(), &from, &last)?;
    Ok((out, count))
}

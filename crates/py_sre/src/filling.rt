//! A replacement template, filled for a span.

ghost use Rattle.std.specs.Prelude.{◌≡◌, ◌++◌, ◌≤◌, true, length, OnOk, IfErr, IsOkUnless};
ghost use Rattle.py_base.specs.declared.error.PyError.TheVariants.{NoMemory};
ghost use Rattle.py_sre.specs.Pieces.{piece_of, replacement_of};
ghost use Rattle.py_sre.specs.Replacing.{added, fill, group_span, units_or};

use crate::built::Built;
use crate::pieces::Piece;
use py_base::PyResult;
use sre_match::{State, StrDrive, StringCursor};

/// The cursor at a place, by way of one that is near.
pub(crate) fn moved_to<S: StrDrive>(view: &S, near: &StringCursor, place: usize) -> StringCursor
    requires fits { S.fits (S.units view.now) near.now ≡ true }
    requires there { place ≤ length (S.units view.now) }
    ensures fits { S.fits (S.units view.now) result ≡ true }
    ensures place { result.place ≡ place }
{
    let mut cursor = *near;
    let here = near.position();
    if here <= place {
        view.skip(&mut cursor, place - here);
    } else {
        view.back_skip(&mut cursor, here - place);
    }
    cursor
}

// Appends the part between two places, or the literal of an unset group; a cursor is near.
#[tactic(auto, using(crate::proofs::ReplacingLemmas::nothing_between, crate::proofs::ReplacingLemmas::cut_between, crate::proofs::ReplacingLemmas::no_more))]
fn append_between<S: StrDrive, T: Drop, B: Built<S, T>>(
    out: &mut B,
    unset: &T,
    view: &S,
    near: &StringCursor,
    span: Option<(usize, usize)>,
) -> PyResult<()>
    requires taken { B.takes (S.units view.now) }
    requires fits { S.fits (S.units view.now) near.now ≡ true }
    ensures ok { let units = units_or (S.units view.now) (B.literal_units unset.now) span in
        OnOk result (B.units out.new ≡ B.units out.old ++ units) }
    ensures err { IsOkUnless result NoMemory }
{
    let Some((start, stop)) = span else {
        return out.append_literal(unset);
    };
    // A `State` does not promise that its spans are in order or within this view.
    let stop = stop.min(view.count());
    if stop <= start {
        return Ok(());
    }
    let from = moved_to(view, near, start);
    let to = moved_to(view, &from, stop);
    out.append_part(view, &from, &to)
}

// Where a group is, of which group 0 is the whole span.
fn group_span(state: &State, group: usize) -> Option<(usize, usize)>
    ensures { result ≡ group_span state.now group }
{
    if group == 0 {
        return Some((state.start(), state.position()));
    }
    state.marks().get(group)
}

// Appends what a piece adds for a span; a cursor is near.
fn append_piece<S: StrDrive, T: Drop, B: Built<S, T>>(
    out: &mut B,
    piece: &Piece<T>,
    unset: &T,
    view: &S,
    near: &StringCursor,
    span: &State,
) -> PyResult<()>
    requires taken { B.takes (S.units view.now) }
    requires fits { S.fits (S.units view.now) near.now ≡ true }
    ensures ok { let piece = piece_of B.literal_units piece.now in
        let units = added (S.units view.now) (B.literal_units unset.now) span.now piece in
        OnOk result (B.units out.new ≡ B.units out.old ++ units) }
    ensures err { IsOkUnless result NoMemory }
{
    match piece {
        Piece::Literal(literal) => out.append_literal(literal),
        Piece::Group(group) => append_between(out, unset, view, near, group_span(span, *group)),
    }
}

/// Appends the template, filled for a span. Each group is reached by a walk from the cursor `near`.
pub(crate) fn fill<S: StrDrive, T: Drop, B: Built<S, T>>(
    out: &mut B,
    pieces: &[Piece<T>],
    unset: &T,
    view: &S,
    near: &StringCursor,
    span: &State,
) -> PyResult<()>
    requires taken { B.takes (S.units view.now) }
    requires fits { S.fits (S.units view.now) near.now ≡ true }
    ensures ok { let asked = replacement_of B.literal_units pieces.now unset.now in
        let filled = fill asked (S.units view.now) span.now in
        OnOk result (B.units out.new ≡ B.units out.old ++ filled) }
    ensures err { IsOkUnless result NoMemory }
{
    for piece in pieces {
        append_piece(out, piece, unset, view, near, span)?;
    }
    Ok(())
}

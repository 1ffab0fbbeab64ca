//! Anchors: which places of a subject they pass at.

ghost use Rattle.std.specs.Prelude.{◌≡◌, ◌+◌, ◌≤◌, IsTrue, true};
ghost use Rattle.py_base.specs.Chars.Categories.{is_category, in_category};
ghost use Rattle.sre_match.specs.Anchors.{met_at, met_before, is_newline, is_boundary, is_last_end, is_at_anchor};

use crate::matcher::subject::{Subject, unit_at, unit_before};
use crate::view::{StrDrive, StringCursor};
use py_base::{CATEGORY_LINEBREAK, CATEGORY_UNI_WORD, CATEGORY_WORD, LINE_FEED, Steps, category};
use sre_code::opcodes::{
    AT_BEGINNING, AT_BEGINNING_LINE, AT_BEGINNING_STRING, AT_BOUNDARY, AT_END, AT_END_LINE,
    AT_END_STRING, AT_NON_BOUNDARY, AT_UNI_BOUNDARY, AT_UNI_NON_BOUNDARY,
};
use std::sync::ledger::Ledger;

/// Whether a unit is a line feed.
pub fn is_newline(unit: u32) -> bool
    ensures { result ≡ is_newline unit }
{
    unit == LINE_FEED
}

// Whether there is a unit of a category here.
fn category_at<S: StrDrive, L: Ledger>(
    number: u32,
    s: &Subject<'_, S>,
    cursor: &StringCursor,
    steps: &mut Steps<L>,
) -> bool
    requires category { IsTrue (is_category number) }
    requires fits { S.fits s.now cursor.now ≡ true }
    requires counter { S.counts L.name }
    ensures met { result ≡ met_at (in_category number) s.now cursor.now.place }
    ensures cost { steps.new ≤ steps.old + 1 }
{
    match unit_at(s, cursor, steps) {
        Some(unit) => category(number, unit),
        None => false,
    }
}

// Whether there is one before this place.
#[tactic(auto, using(crate::proofs::UnitLemmas::before_one))]
fn category_before<S: StrDrive, L: Ledger>(
    number: u32,
    s: &Subject<'_, S>,
    cursor: &StringCursor,
    steps: &mut Steps<L>,
) -> bool
    requires category { IsTrue (is_category number) }
    requires fits { S.fits s.now cursor.now ≡ true }
    requires counter { S.counts L.name }
    ensures met { result ≡ met_before (in_category number) s.now cursor.now.place }
    ensures cost { steps.new ≤ steps.old + 1 }
{
    if cursor.place == 0 {
        return false;
    }
    match unit_before(s, cursor, steps) {
        Some(unit) => category(number, unit),
        None => false,
    }
}

// Whether exactly one side is a unit of a category.
fn is_boundary<S: StrDrive, L: Ledger>(
    number: u32,
    s: &Subject<'_, S>,
    cursor: &StringCursor,
    steps: &mut Steps<L>,
) -> bool
    requires category { IsTrue (is_category number) }
    requires fits { S.fits s.now cursor.now ≡ true }
    requires counter { S.counts L.name }
    ensures met { result ≡ is_boundary (in_category number) s.now cursor.now.place }
    ensures cost { steps.new ≤ steps.old + 2 }
{
    let left = category_before(number, s, cursor, steps);
    let right = category_at(number, s, cursor, steps);
    if left { !right } else { right }
}

// Whether the subject ends here, or after one line feed.
fn is_last_end<S: StrDrive, L: Ledger>(
    s: &Subject<'_, S>,
    cursor: &StringCursor,
    steps: &mut Steps<L>,
) -> bool
    requires fits { S.fits s.now cursor.now ≡ true }
    requires counter { S.counts L.name }
    ensures met { result ≡ is_last_end s.now cursor.now.place }
    ensures cost { steps.new ≤ steps.old + 1 }
{
    let count = s.count();
    let place = cursor.place;
    if place == count {
        return true;
    }
    place < count && place + 1 == count && category_at(CATEGORY_LINEBREAK, s, cursor, steps)
}

/// Whether an anchor passes at a place.
pub fn is_at_anchor<S: StrDrive, L: Ledger>(
    anchor: u32,
    s: &Subject<'_, S>,
    cursor: &StringCursor,
    steps: &mut Steps<L>,
) -> bool
    requires fits { S.fits s.now cursor.now ≡ true }
    requires counter { S.counts L.name }
    ensures met { result ≡ is_at_anchor anchor s.now cursor.now.place }
    ensures cost { steps.new ≤ steps.old + 2 }
{
    match anchor {
        AT_BEGINNING | AT_BEGINNING_STRING => cursor.place == 0,
        AT_BEGINNING_LINE => cursor.place == 0
            || category_before(CATEGORY_LINEBREAK, s, cursor, steps),
        AT_BOUNDARY => is_boundary(CATEGORY_WORD, s, cursor, steps),
        AT_NON_BOUNDARY => !is_boundary(CATEGORY_WORD, s, cursor, steps),
        AT_END => is_last_end(s, cursor, steps),
        AT_END_LINE => cursor.place == s.count()
            || category_at(CATEGORY_LINEBREAK, s, cursor, steps),
        AT_END_STRING => cursor.place == s.count(),
        AT_UNI_BOUNDARY => is_boundary(CATEGORY_UNI_WORD, s, cursor, steps),
        AT_UNI_NON_BOUNDARY => !is_boundary(CATEGORY_UNI_WORD, s, cursor, steps),
        _ => false,
    }
}

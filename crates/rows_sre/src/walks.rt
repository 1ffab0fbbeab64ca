//! The spans of a subject, one after another.

ghost use Rattle.std.specs.Prelude.{◌≡◌, ◌<◌, false};

use py_base::Steps;
use py_text::PyStr;
use sre_code::{Checked, decode};
use sre_match::{ByteView, MatchError, Request, SearchIter, StrDrive, TextView};
use std::alloc::Global;
use std::marker::Brand;
use std::sync::ledger::{Blank, Ledger};
use std::test::Fail;

type Spans = Vec<(usize, usize)>;

// The spans of a request, at most eight.
fn spans_of<S: StrDrive, L: Ledger>(
    alloc: Global,
    request: Request<'_, S>,
    steps: &mut Steps<L>,
) -> Result<Spans, MatchError>
    requires counter { S.counts L.name }
    requires whole { request.whole ≡ false }
    requires advance { request.advance ≡ false }
{
    let mut walk = SearchIter::new(alloc, request);
    let mut spans = Vec::new(alloc);
    for _ in 0..8 {
        if !walk.next(steps)? {
            break;
        }
        spans.push((walk.state().start(), walk.state().position()))?;
    }
    Ok(spans)
}

// Those of bytes, over a new counter of steps.
fn spans_by<L: Ledger>(
    alloc: Global,
    code: &Checked,
    subject: &[u8],
    blank: Blank,
) -> Result<Spans, MatchError>
    requires name { blank.name ≡ L.name }
    requires parts { blank.parts ≡ L.parts }
    requires some { 0 < L.parts }
{
    let mut steps = Steps::<L>::new(blank);
    let request = Request::new(ByteView::new(subject), 0, subject.len(), code, false);
    spans_of(alloc, request, &mut steps)
}

fn spans(alloc: Global, code: &Checked, subject: &[u8]) -> Result<Spans, MatchError> {
    spans_by::<Brand>(alloc, code, subject, Blank::new(1))
}

// Those of a text, over a new counter of steps.
fn text_spans_by<L: Ledger>(
    alloc: Global,
    code: &Checked,
    subject: &PyStr,
    blank: Blank,
) -> Result<Spans, MatchError>
    requires name { blank.name ≡ L.name }
    requires parts { blank.parts ≡ L.parts }
    requires some { 0 < L.parts }
{
    let mut steps = Steps::<L>::new(blank);
    let request = Request::new(TextView::new(subject), 0, subject.len(), code, false);
    spans_of(alloc, request, &mut steps)
}

fn text_spans(alloc: Global, code: &Checked, subject: &PyStr) -> Result<Spans, MatchError> {
    text_spans_by::<Brand>(alloc, code, subject, Blank::new(1))
}

// A code, a subject, and the spans that repeated calls of `scanner.search` give in CPython.
const ROWS: [(&[u32], &[u8], &[(usize, usize)]); 10] = [
    // `a` in `ba`
    (&[16, 97, 1], b"ba", &[(1, 2)]),
    // `|a` in `ba` and in `aa`
    (
        &[7, 3, 15, 7, 5, 16, 97, 15, 2, 0, 1],
        b"ba",
        &[(0, 0), (1, 1), (1, 2), (2, 2)],
    ),
    (
        &[7, 3, 15, 7, 5, 16, 97, 15, 2, 0, 1],
        b"aa",
        &[(0, 0), (0, 1), (1, 1), (1, 2), (2, 2)],
    ),
    // nothing in `ab`
    (&[1], b"ab", &[(0, 0), (1, 1), (2, 2)]),
    // `(?:a|bc)d` in `acbcdad`
    (
        &[7, 5, 16, 97, 15, 9, 7, 16, 98, 16, 99, 15, 2, 0, 16, 100, 1],
        b"acbcdad",
        &[(2, 5), (5, 7)],
    ),
    // `(?:\d+|5x)-` in `15x- 25x-9-`
    (
        &[
            7, 13, 24, 9, 1, 4294967295, 13, 4, 8, 10, 0, 1, 15, 9, 7, 16, 53, 16, 120, 15, 2, 0,
            16, 45, 1,
        ],
        b"15x- 25x-9-",
        &[(1, 4), (6, 9), (9, 11)],
    ),
    // `\d{2,3}` in `1 12 12345`, `\d+?5` in `125 5 15x`, and `\d{2,}+x` in `1x 12x`
    (
        &[24, 9, 2, 3, 13, 4, 8, 10, 0, 1, 1],
        b"1 12 12345",
        &[(2, 4), (5, 8), (8, 10)],
    ),
    (
        &[26, 9, 1, 4294967295, 13, 4, 8, 10, 0, 1, 16, 53, 1],
        b"125 5 15x",
        &[(0, 3), (6, 8)],
    ),
    (
        &[29, 9, 2, 4294967295, 13, 4, 8, 10, 0, 1, 16, 120, 1],
        b"1x 12x",
        &[(3, 6)],
    ),
    // `\Aa*` in `aab`
    (
        &[6, 2, 24, 6, 0, 4294967295, 16, 97, 1, 1],
        b"aab",
        &[(0, 2)],
    ),
];

#[test]
fn walks(rt: HostRuntime) -> Result<(), Fail> {
    for (words, subject, wanted) in &ROWS {
        let code = decode(rt.alloc(), words, 0)?;
        let found = spans(rt.alloc(), &code, subject)?;
        assert_eq!(rt; found.as_slice(), *wanted, "{words:?} in {subject:?}");
    }
    Ok(())
}

// `[\W]{1,3}`, which a letter past 255 does not meet.
#[test]
fn letters_past_a_byte(rt: HostRuntime) -> Result<(), Fail> {
    let code = decode(rt.alloc(), &[24, 9, 1, 3, 13, 4, 8, 15, 0, 1, 1], 0)?;
    let subject = PyStr::copy_of(rt.alloc(), "Āa… —“Āb")?;
    let found = text_spans(rt.alloc(), &code, &subject)?;
    assert_eq!(rt; found.as_slice(), [(2, 5), (5, 6)].as_slice());
    Ok(())
}

//! The first allowed outcome at a request's start, and the leftmost from there on.

ghost use Rattle.std.specs.Prelude.{◌≡◌, ◌<◌};

use py_base::Steps;
use sre_code::{Checked, decode};
use sre_match::{ByteView, MatchError, Request, State};
use std::alloc::Global;
use std::marker::Brand;
use std::sync::ledger::{Blank, Ledger};
use std::test::Fail;

type Span = Option<(usize, usize)>;

fn span_of(found: bool, state: &State) -> Span {
    if found {
        Some((state.start(), state.position()))
    } else {
        None
    }
}

fn at_start<L: Ledger>(
    alloc: Global,
    request: &Request<'_, ByteView<'_>>,
    steps: &mut Steps<L>,
) -> Result<Span, MatchError> {
    let mut state = State::new(alloc);
    let found = state.pymatch(request, steps)?;
    Ok(span_of(found, &state))
}

fn anywhere<L: Ledger>(
    alloc: Global,
    request: &Request<'_, ByteView<'_>>,
    steps: &mut Steps<L>,
) -> Result<Span, MatchError> {
    let mut state = State::new(alloc);
    let found = state.search(request, steps)?;
    Ok(span_of(found, &state))
}

// What `pymatch` and `search` find, over a new counter of steps.
fn found_by<L: Ledger>(
    alloc: Global,
    request: &Request<'_, ByteView<'_>>,
    blank: Blank,
) -> Result<[Span; 2], MatchError>
    requires name { blank.name ≡ L.name }
    requires parts { blank.parts ≡ L.parts }
    requires some { 0 < L.parts }
{
    let mut steps = Steps::<L>::new(blank);
    let at_start = at_start(alloc, request, &mut steps)?;
    let anywhere = anywhere(alloc, request, &mut steps)?;
    Ok([at_start, anywhere])
}

fn found(alloc: Global, request: &Request<'_, ByteView<'_>>) -> Result<[Span; 2], MatchError> {
    found_by::<Brand>(alloc, request, Blank::new(1))
}

// Which outcomes are allowed.
#[derive(Clone, Copy, PartialEq, Eq)]
enum Allowed {
    Every,
    ToTheEnd,
    NotEmptyAtTheStart,
}

// A search in the part of the subject from one place to another.
fn request<'c>(
    subject: &'c [u8],
    part: (usize, usize),
    allowed: Allowed,
    code: &'c Checked,
) -> Request<'c, ByteView<'c>> {
    let view = ByteView::new(subject);
    let whole = allowed == Allowed::ToTheEnd;
    let mut request = Request::new(view, part.0, part.1, code, whole);
    if allowed == Allowed::NotEmptyAtTheStart {
        request.set_must_advance(true);
    }
    request
}

// A code, a subject, the part of it that is searched, and what `match` and `search` find in CPython.
const PARTS: [(&[u32], &[u8], (usize, usize), [Span; 2]); 12] = [
    // `a` in `ba`
    (&[16, 97, 1], b"ba", (0, 2), [None, Some((1, 2))]),
    // `a*` in `aaa`, `a$` in `aab` and `a(?=b)` in `ab`, with an end below the count
    (
        &[24, 6, 0, 4294967295, 16, 97, 1, 1],
        b"aaa",
        (0, 2),
        [Some((0, 2)), Some((0, 2))],
    ),
    (&[16, 97, 6, 5, 1], b"aab", (0, 2), [None, Some((1, 2))]),
    (&[16, 97, 6, 5, 1], b"aab", (0, 3), [None, None]),
    (
        &[16, 97, 4, 5, 0, 16, 98, 1, 1],
        b"ab",
        (0, 1),
        [None, None],
    ),
    (
        &[16, 97, 4, 5, 0, 16, 98, 1, 1],
        b"ab",
        (0, 2),
        [Some((0, 1)), Some((0, 1))],
    ),
    // `(?<=a)b` and `^b` in `ab`, from 1
    (
        &[4, 5, 1, 16, 97, 1, 16, 98, 1],
        b"ab",
        (1, 2),
        [Some((1, 2)), Some((1, 2))],
    ),
    (&[6, 0, 16, 98, 1], b"ab", (1, 2), [None, None]),
    // nothing in `ab`: at its end, and with a start and an end that are cut to the count
    (&[1], b"ab", (2, 2), [Some((2, 2)), Some((2, 2))]),
    (&[1], b"ab", (2, 9), [Some((2, 2)), Some((2, 2))]),
    (&[1], b"ab", (5, 9), [Some((2, 2)), Some((2, 2))]),
    (&[1], b"ab", (0, 0), [Some((0, 0)), Some((0, 0))]),
];

#[test]
fn parts(rt: HostRuntime) -> Result<(), Fail> {
    for (words, subject, part, wanted) in &PARTS {
        let code = decode(rt.alloc(), words, 0)?;
        let request = request(subject, *part, Allowed::Every, &code);
        let found = found(rt.alloc(), &request)?;
        assert_eq!(rt; found, *wanted, "{words:?} in {subject:?}");
    }
    Ok(())
}

// Parts of `ab` whose start is past their end. No place is past a subject's end, so nothing is found.
const BACKWARDS: [(usize, usize); 5] = [(2, 1), (1, 0), (5, 1), (3, 2), (9, 5)];

#[test]
fn starts_past_the_end(rt: HostRuntime) -> Result<(), Fail> {
    let code = decode(rt.alloc(), &[1], 0)?;
    for part in &BACKWARDS {
        let request = request(b"ab", *part, Allowed::Every, &code);
        let found = found(rt.alloc(), &request)?;
        assert_eq!(rt; found, [None, None], "in {part:?}");
    }
    Ok(())
}

// A code, a subject, an end, and what is found where only an outcome at the end is allowed: what
// `fullmatch` finds in CPython at the start, and at the first place from there on.
const WHOLE: [(&[u32], &[u8], usize, [Span; 2]); 4] = [
    // `a|ab` in `ab`, `aab` and `abx`
    (
        &[7, 5, 16, 97, 15, 9, 7, 16, 97, 16, 98, 15, 2, 0, 1],
        b"ab",
        2,
        [Some((0, 2)), Some((0, 2))],
    ),
    (
        &[7, 5, 16, 97, 15, 9, 7, 16, 97, 16, 98, 15, 2, 0, 1],
        b"aab",
        3,
        [None, Some((1, 3))],
    ),
    (
        &[7, 5, 16, 97, 15, 9, 7, 16, 97, 16, 98, 15, 2, 0, 1],
        b"abx",
        3,
        [None, None],
    ),
    (
        &[7, 5, 16, 97, 15, 9, 7, 16, 97, 16, 98, 15, 2, 0, 1],
        b"abx",
        2,
        [Some((0, 2)), Some((0, 2))],
    ),
];

#[test]
fn whole(rt: HostRuntime) -> Result<(), Fail> {
    for (words, subject, end, wanted) in &WHOLE {
        let code = decode(rt.alloc(), words, 0)?;
        let request = request(subject, (0, *end), Allowed::ToTheEnd, &code);
        let found = found(rt.alloc(), &request)?;
        assert_eq!(rt; found, *wanted, "{words:?} in {subject:?}");
    }
    Ok(())
}

// A code, a subject, and what is found where an empty outcome is forbidden at the start: what the
// second call of `scanner.match` and of `scanner.search` finds in CPython, after an empty match.
const ADVANCING: [(&[u32], &[u8], [Span; 2]); 4] = [
    // `|a` in `ab` and in `ba`
    (
        &[7, 3, 15, 7, 5, 16, 97, 15, 2, 0, 1],
        b"ab",
        [Some((0, 1)), Some((0, 1))],
    ),
    (
        &[7, 3, 15, 7, 5, 16, 97, 15, 2, 0, 1],
        b"ba",
        [None, Some((1, 1))],
    ),
    // nothing in an empty subject and in `a`
    (&[1], &[], [None, None]),
    (&[1], b"a", [None, Some((1, 1))]),
];

#[test]
fn advancing(rt: HostRuntime) -> Result<(), Fail> {
    for (words, subject, wanted) in &ADVANCING {
        let code = decode(rt.alloc(), words, 0)?;
        let request = request(
            subject,
            (0, subject.len()),
            Allowed::NotEmptyAtTheStart,
            &code,
        );
        let found = found(rt.alloc(), &request)?;
        assert_eq!(rt; found, *wanted, "{words:?} in {subject:?}");
    }
    Ok(())
}

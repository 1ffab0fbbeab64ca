//! Searches that end at once where the attempts are tried one after another and kept in a vector.

ghost use Rattle.std.specs.Prelude.{◌≡◌, ◌<◌};

use py_base::Steps;
use py_text::PyStr;
use sre_code::{Checked, decode};
use sre_match::{ByteView, MatchError, Request, SearchIter, TextView};
use std::alloc::{AllocError, Global};
use std::marker::Brand;
use std::sync::ledger::{Blank, Ledger};
use std::test::Fail;

// The first span of the subject, over a new counter of steps.
fn first_by<L: Ledger>(
    alloc: Global,
    code: &Checked,
    subject: &[u8],
    blank: Blank,
) -> Result<(usize, usize), MatchError>
    requires name { blank.name ≡ L.name }
    requires parts { blank.parts ≡ L.parts }
    requires some { 0 < L.parts }
{
    let mut steps = Steps::<L>::new(blank);
    let request = Request::new(ByteView::new(subject), 0, subject.len(), code, false);
    let mut walk = SearchIter::new(alloc, request);
    let _found = walk.next(&mut steps)?;
    Ok((walk.state().start(), walk.state().position()))
}

fn first(alloc: Global, code: &Checked, subject: &[u8]) -> Result<(usize, usize), MatchError> {
    first_by::<Brand>(alloc, code, subject, Blank::new(1))
}

// `(?:a|b)*`
const A_OR_B: [u32; 18] = [
    23, 15, 0, 4294967295, 7, 5, 16, 97, 15, 7, 5, 16, 98, 15, 2, 0, 18, 1,
];

// So many times `ab`.
fn pairs(alloc: Global, count: usize) -> Result<Vec<u8>, AllocError> {
    let mut bytes = Vec::new(alloc);
    for _ in 0..count {
        bytes.extend_from_slice(b"ab")?;
    }
    Ok(bytes)
}

// A million bytes, by turns `a` and `b`, are one span.
#[test]
fn million(rt: HostRuntime) -> Result<(), Fail> {
    let code = decode(rt.alloc(), &A_OR_B, 0)?;
    let subject = pairs(rt.alloc(), 500_000)?;
    let span = first(rt.alloc(), &code, &subject)?;
    assert_eq!(rt; span, (0, 1_000_000));
    Ok(())
}

// `(?:a|a)*`
const A_OR_A: [u32; 18] = [
    23, 15, 0, 4294967295, 7, 5, 16, 97, 15, 7, 5, 16, 97, 15, 2, 0, 18, 1,
];

// The second alternatives of 64 bytes would be 2^64 attempts; the first one is the outcome.
#[test]
fn first_of_many(rt: HostRuntime) -> Result<(), Fail> {
    let code = decode(rt.alloc(), &A_OR_A, 0)?;
    let span = first(rt.alloc(), &code, &[b'a'; 64])?;
    assert_eq!(rt; span, (0, 64));
    Ok(())
}

// How many spans of the subject there are, and where the last one begins, over a new counter of
// steps.
fn count_by<L: Ledger>(
    alloc: Global,
    code: &Checked,
    subject: &PyStr,
    blank: Blank,
) -> Result<(usize, usize), MatchError>
    requires name { blank.name ≡ L.name }
    requires parts { blank.parts ≡ L.parts }
    requires some { 0 < L.parts }
{
    let mut steps = Steps::<L>::new(blank);
    let view = TextView::new(subject);
    let mut walk = SearchIter::new(alloc, Request::new(view, 0, subject.len(), code, false));
    let mut count = 0;
    for earlier in 0..subject.len() {
        if !walk.next(&mut steps)? {
            break;
        }
        count = earlier + 1;
    }
    Ok((count, walk.state().start()))
}

fn count(alloc: Global, code: &Checked, subject: &PyStr) -> Result<(usize, usize), MatchError> {
    count_by::<Brand>(alloc, code, subject, Blank::new(1))
}

// The code point 233 at each of a million places of a text whose code points have two bytes: a walk
// from the beginning at each place would be 500 thousand million steps.
#[test]
fn two_bytes_at_a_million_places(rt: HostRuntime) -> Result<(), Fail> {
    let code = decode(rt.alloc(), &[16, 233, 1], 0)?;
    let mut text = String::new(rt.alloc());
    for _ in 0..1_000_000 {
        text.push('é')?;
    }
    let found = count(rt.alloc(), &code, &PyStr::from(text))?;
    assert_eq!(rt; found, (1_000_000, 999_999));
    Ok(())
}

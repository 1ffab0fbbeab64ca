//! The groups that a match closes.

ghost use Rattle.std.specs.Prelude.{◌≡◌, ◌<◌};

use py_base::Steps;
use sre_code::{Checked, decode};
use sre_match::{ByteView, Marks, MatchError, Request, State};
use std::alloc::Global;
use std::marker::Brand;
use std::sync::ledger::{Blank, Ledger};
use std::test::Fail;

// The state after a search of the whole subject, over a new counter of steps.
fn searched_by<L: Ledger>(
    alloc: Global,
    code: &Checked,
    subject: &[u8],
    blank: Blank,
) -> Result<State, MatchError>
    requires name { blank.name ≡ L.name }
    requires parts { blank.parts ≡ L.parts }
    requires some { 0 < L.parts }
{
    let mut steps = Steps::<L>::new(blank);
    let request = Request::new(ByteView::new(subject), 0, subject.len(), code, false);
    let mut state = State::new(alloc);
    let _found = state.search(&request, &mut steps)?;
    Ok(state)
}

fn searched(alloc: Global, code: &Checked, subject: &[u8]) -> Result<State, MatchError> {
    searched_by::<Brand>(alloc, code, subject, Blank::new(1))
}

// The span of group 1, and the group that was captured last.
type Captures = (Option<(usize, usize)>, Option<usize>);

fn captures(marks: &Marks) -> Captures {
    (marks.get(1), marks.last_index())
}

// A code, its groups, a subject, and the first group's span and `lastindex` in CPython.
const ROWS: [(&[u32], usize, &[u8], Captures); 4] = [
    // `a` in `ba`
    (&[16, 97, 1], 0, b"ba", (None, None)),
    // `(a)|b` in `a` and in `b`
    (
        &[7, 9, 17, 0, 16, 97, 17, 1, 15, 7, 5, 16, 98, 15, 2, 0, 1],
        1,
        b"a",
        (Some((0, 1)), Some(1)),
    ),
    (
        &[7, 9, 17, 0, 16, 97, 17, 1, 15, 7, 5, 16, 98, 15, 2, 0, 1],
        1,
        b"b",
        (None, None),
    ),
    // `(?:(a)|b)*` in `ab`
    (
        &[
            23, 19, 0, 4294967295, 7, 9, 17, 0, 16, 97, 17, 1, 15, 7, 5, 16, 98, 15, 2, 0, 18, 1,
        ],
        1,
        b"ab",
        (Some((0, 1)), Some(1)),
    ),
];

#[test]
fn groups(rt: HostRuntime) -> Result<(), Fail> {
    for (words, groups, subject, wanted) in &ROWS {
        let code = decode(rt.alloc(), words, *groups)?;
        let state = searched(rt.alloc(), &code, subject)?;
        assert_eq!(rt;
            captures(state.marks()),
            *wanted,
            "{words:?} in {subject:?}"
        );
    }
    Ok(())
}

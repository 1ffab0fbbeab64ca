//! Patterns that are compiled, decoded and searched for.

ghost use Rattle.std.specs.Prelude.{◌≡◌, ◌<◌};

use py_base::Steps;
use py_text::PyStr;
use re_text::compile_text;
use re_tree::TextFlags;
use sre_code::{Checked, decode};
use sre_match::{ByteView, MatchError, Request, State};
use std::alloc::Global;
use std::marker::Brand;
use std::sync::ledger::{Blank, Ledger};
use std::test::Fail;

type Span = Option<(usize, usize)>;

// The spans of a search of the whole subject: of the match, of group 1 and of group 2.
fn spans_by<L: Ledger>(
    alloc: Global,
    code: &Checked,
    subject: &[u8],
    blank: Blank,
) -> Result<[Span; 3], MatchError>
    requires name { blank.name ≡ L.name }
    requires parts { blank.parts ≡ L.parts }
    requires some { 0 < L.parts }
{
    let mut steps = Steps::<L>::new(blank);
    let request = Request::new(ByteView::new(subject), 0, subject.len(), code, false);
    let mut state = State::new(alloc);
    if !state.search(&request, &mut steps)? {
        return Ok([None; 3]);
    }
    let whole = Some((state.start(), state.position()));
    Ok([whole, state.marks().get(1), state.marks().get(2)])
}

fn spans(alloc: Global, code: &Checked, subject: &[u8]) -> Result<[Span; 3], MatchError> {
    spans_by::<Brand>(alloc, code, subject, Blank::new(1))
}

const FLAGS: TextFlags = TextFlags {
    ascii: false,
    multiline: false,
    dotall: false,
};

// How many groups a pattern has, and what its first match captures.
fn found(alloc: Global, pattern: &str, subject: &str) -> Result<(usize, [Span; 3]), Fail> {
    let text = PyStr::copy_of(alloc, pattern)?;
    let code = compile_text(alloc, &text, FLAGS)?;
    let checked = decode(alloc, code.words(), code.groups())?;
    let spans = spans(alloc, &checked, subject.as_bytes())?;
    Ok((code.groups(), spans))
}

// A pattern, a subject, and how many groups it has and what the first match captures in CPython.
const ROWS: [(&str, &str, usize, [Span; 3]); 16] = [
    (
        "(\\d+)-(?P<u>[a-z]+)",
        "7-kg 12-m",
        2,
        [Some((0, 4)), Some((0, 1)), Some((2, 4))],
    ),
    ("a|bc|d*", "xbcd", 0, [Some((0, 0)), None, None]),
    ("(?:ab)*?c", "ababc", 0, [Some((0, 5)), None, None]),
    (
        "(a(?=b)|ab)+c",
        "aabc",
        1,
        [Some((1, 4)), Some((1, 3)), None],
    ),
    ("(?<=a|b)x", "cxbx", 0, [Some((3, 4)), None, None]),
    (
        "(?<![ab])x{2,}",
        "axxbxxxcxx",
        0,
        [Some((5, 7)), None, None],
    ),
    (
        "(?P<q>[\"\\']).*?(?P=q)",
        "say \"it's\" no",
        1,
        [Some((4, 10)), Some((4, 5)), None],
    ),
    ("(a)?b(?(1)c|d)", "abdbdabc", 1, [Some((1, 3)), None, None]),
    ("(?>a+)b", "aaab", 0, [Some((0, 4)), None, None]),
    ("a{2,3}+a", "aaa", 0, [None, None, None]),
    ("[^\\w\\s]+", "ab ,;x", 0, [Some((3, 5)), None, None]),
    ("^b$", "ab", 0, [None, None, None]),
    ("\\bfoo\\b", "a foo.", 0, [Some((2, 5)), None, None]),
    ("(?:a|b|)c", "xc", 0, [Some((1, 2)), None, None]),
    ("[a-c\\d-]+", "zzb-2d", 0, [Some((2, 5)), None, None]),
    ("(?!a)(.)\\1", "aabb", 1, [Some((2, 4)), Some((2, 3)), None]),
];

#[test]
fn searches(rt: HostRuntime) -> Result<(), Fail> {
    for (pattern, subject, groups, wanted) in &ROWS {
        let found = found(rt.alloc(), pattern, subject)?;
        assert_eq!(rt; found, (*groups, *wanted), "{pattern} in {subject}");
    }
    Ok(())
}

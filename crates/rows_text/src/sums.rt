//! Sums, copies, prefixes and suffixes.

use py_base::{PyError, PyResult};
use py_text::PyStr;
use std::alloc::Global;

// What the tests of a text and its lengths say.
fn measured(t: &PyStr) -> ((usize, usize, usize), bool, bool) {
    (
        (t.len(), t.char_len(), t.byte_len()),
        t.is_ascii(),
        t.is_empty(),
    )
}

#[test]
fn sums(rt: HostRuntime) -> Result<(), PyError> {
    let ab = PyStr::copy_of(rt.alloc(), "ab")?;
    let e = PyStr::from_char(rt.alloc(), 'é')?;
    let sum = ab.add(rt.alloc(), &e)?;
    assert_eq!(rt;
        [
            sum.as_str(),
            sum.removeprefix(&ab),
            sum.removeprefix(&e),
            sum.removesuffix(&e),
            sum.removesuffix(&ab),
        ],
        ["abé", "é", "abé", "ab", "abé"]
    );
    assert_eq!(rt;
        [measured(&sum), measured(&ab)],
        [((3, 3, 4), false, false), ((2, 2, 2), true, false)]
    );
    Ok(())
}

// A text, a number, and the text so many times; none where memory runs out.
const COPIES: [(&str, isize, Option<&str>); 4] = [
    ("ab", 3, Some("ababab")),
    ("ab", -1, Some("")),
    ("ab", isize::MAX, None),
    ("", isize::MAX, Some("")),
];

// Whether the text so many times is as wanted.
fn is_copied(alloc: Global, s: &str, times: isize, wanted: Option<&str>) -> PyResult<bool> {
    let t = PyStr::copy_of(alloc, s)?;
    Ok(match (t.mul(alloc, times), wanted) {
        (Ok(copies), Some(text)) => copies.as_str() == text && copies.is_empty() == text.is_empty(),
        (Err(error), None) => error == PyError::NoMemory,
        _ => false,
    })
}

#[test]
fn copies(rt: HostRuntime) -> Result<(), PyError> {
    for (s, times, wanted) in &COPIES {
        assert!(rt; is_copied(rt.alloc(), s, *times, *wanted)?, "{s} {times}");
    }
    Ok(())
}

//! Splits, lines, partitions, joins and replacements.

use py_base::{PyError, PyResult};
use py_text::{FindArgs, Partition, PyStr, SplitArgs, TextList};
use std::alloc::Global;

// Whether there are so many pieces, and they are these with `|` between.
fn is_shown(alloc: Global, pieces: &TextList, count: usize, bars: &str) -> PyResult<bool> {
    let shown = PyStr::copy_of(alloc, "|")?.join(alloc, pieces)?;
    Ok(pieces.len() == count && shown.as_str() == bars)
}

// The arguments of `split`.
fn split_args(alloc: Global, sep: Option<&str>, maxsplit: isize) -> PyResult<SplitArgs> {
    let sep = match sep {
        Some(sep) => Some(PyStr::copy_of(alloc, sep)?),
        None => None,
    };
    Ok(SplitArgs { sep, maxsplit })
}

// A text, a separator, a maxsplit; how many pieces there are, and the pieces from the left and
// from the right.
const SPLITS: [(&str, Option<&str>, isize, usize, &str, &str); 11] = [
    (" a  b ", None, -1, 2, "a|b", "a|b"),
    (" a  b ", None, 1, 2, "a|b ", " a|b"),
    (" a  b ", None, 0, 1, "a  b ", " a  b"),
    ("a,b,c", Some(","), 1, 2, "a|b,c", "a,b|c"),
    ("a,b,c", Some(","), -1, 3, "a|b|c", "a|b|c"),
    ("a,b,c", Some(","), 0, 1, "a,b,c", "a,b,c"),
    ("aaa", Some("aa"), -1, 2, "|a", "a|"),
    ("é--é--", Some("--"), -1, 3, "é|é|", "é|é|"),
    ("", None, -1, 0, "", ""),
    ("", Some(","), -1, 1, "", ""),
    ("  ", None, 0, 0, "", ""),
];

#[test]
fn splits(rt: HostRuntime) -> Result<(), PyError> {
    for (s, sep, maxsplit, count, left, right) in &SPLITS {
        let t = PyStr::copy_of(rt.alloc(), s)?;
        let args = split_args(rt.alloc(), *sep, *maxsplit)?;
        let (pieces, mirrored) = (t.split(rt.alloc(), &args)?, t.rsplit(rt.alloc(), &args)?);
        assert!(rt; is_shown(rt.alloc(), &pieces, *count, left)?, "split {s}");
        assert!(rt;
            is_shown(rt.alloc(), &mirrored, *count, right)?,
            "rsplit {s}"
        );
    }
    Ok(())
}

// Whether the calls with an empty separator fail as wanted.
fn fail_with_empty(alloc: Global, t: &PyStr) -> PyResult<[bool; 4]> {
    let args = split_args(alloc, Some(""), -1)?;
    let empty = PyStr::copy_of(alloc, "")?;
    Ok([
        matches!(t.partition(&empty), Err(PyError::EmptySeparator)),
        matches!(t.rpartition(&empty), Err(PyError::EmptySeparator)),
        matches!(t.split(alloc, &args), Err(PyError::EmptySeparator)),
        matches!(t.rsplit(alloc, &args), Err(PyError::EmptySeparator)),
    ])
}

#[test]
fn errors(rt: HostRuntime) -> Result<(), PyError> {
    let t = PyStr::copy_of(rt.alloc(), "a,b")?;
    assert_eq!(rt; fail_with_empty(rt.alloc(), &t)?, [true; 4]);
    let args = FindArgs {
        sub: PyStr::copy_of(rt.alloc(), "c")?,
        start: None,
        end: None,
    };
    assert!(rt; matches!(t.index(&args), Err(PyError::SubstringNotFound)));
    Ok(())
}

// A text, how many lines it has, its lines, and its lines with their ends.
const LINES: [(&str, usize, &str, &str); 5] = [
    ("a\r\nb\u{b}c", 3, "a|b|c", "a\r\n|b\u{b}|c"),
    ("\n\r\n\r", 3, "||", "\n|\r\n|\r"),
    ("é\u{2028}é", 2, "é|é", "é\u{2028}|é"),
    ("", 0, "", ""),
    ("a\n", 1, "a", "a\n"),
];

#[test]
fn lines(rt: HostRuntime) -> Result<(), PyError> {
    for (s, count, without, with) in &LINES {
        let t = PyStr::copy_of(rt.alloc(), s)?;
        let (cut, whole) = (
            t.splitlines(rt.alloc(), false)?,
            t.splitlines(rt.alloc(), true)?,
        );
        assert!(rt; is_shown(rt.alloc(), &cut, *count, without)?, "{s}");
        assert!(rt; is_shown(rt.alloc(), &whole, *count, with)?, "{s}");
    }
    Ok(())
}

// A text, a separator, and the three parts at its first and at its last place.
const PARTS: [(&str, &str, [&str; 3], [&str; 3]); 3] = [
    ("a=b=c", "=", ["a", "=", "b=c"], ["a=b", "=", "c"]),
    ("abc", "=", ["abc", "", ""], ["", "", "abc"]),
    ("é→é→", "→", ["é", "→", "é→"], ["é→é", "→", ""]),
];

// Whether a text was parted into these.
fn is_parted(parts: PyResult<Partition<'_>>, wanted: &[&str; 3]) -> bool {
    match parts {
        Ok(Partition { front, mid, back }) => {
            front == wanted[0] && mid == wanted[1] && back == wanted[2]
        }
        Err(_) => false,
    }
}

#[test]
fn parts(rt: HostRuntime) -> Result<(), PyError> {
    for (s, sep, first, last) in &PARTS {
        let t = PyStr::copy_of(rt.alloc(), s)?;
        let sep = PyStr::copy_of(rt.alloc(), sep)?;
        assert!(rt; is_parted(t.partition(&sep), first), "{s}");
        assert!(rt; is_parted(t.rpartition(&sep), last), "{s}");
    }
    Ok(())
}

// A text, a part, what is put in its place, how many times at most, and the answer.
const REPLACEMENTS: [(&str, &str, &str, Option<isize>, &str); 8] = [
    ("ab", "", "-", None, "-a-b-"),
    ("ab", "", "-", Some(0), "ab"),
    ("ab", "", "-", Some(2), "-a-b"),
    ("aaa", "a", "bb", Some(2), "bbbba"),
    ("aaa", "aa", "b", Some(-1), "ba"),
    ("héé", "é", "", None, "h"),
    ("", "", "x", None, "x"),
    ("abc", "d", "x", None, "abc"),
];

#[test]
fn replacements(rt: HostRuntime) -> Result<(), PyError> {
    for (s, old, new, count, answer) in &REPLACEMENTS {
        let t = PyStr::copy_of(rt.alloc(), s)?;
        let (old, new) = (
            PyStr::copy_of(rt.alloc(), old)?,
            PyStr::copy_of(rt.alloc(), new)?,
        );
        let replaced = t.replace(rt.alloc(), &old, &new, *count)?;
        assert_eq!(rt; replaced.as_str(), *answer);
    }
    Ok(())
}

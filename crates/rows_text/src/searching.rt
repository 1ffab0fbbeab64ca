//! Searches over windows.

use py_base::{PyError, PyResult};
use py_text::{FindArgs, PyStr};
use std::alloc::Global;

// The first place, the last one, how many there are, whether the window begins and ends with it, and
// whether `index` and `rindex` succeed.
type Found = (isize, isize, usize, bool, bool, bool, bool);

// A text, what is searched for, a start, an end, and what is found.
const SEARCHES: [(&str, &str, Option<i128>, Option<i128>, Found); 12] = [
    (
        "aéé",
        "é",
        Some(-1),
        None,
        (2, 2, 1, true, true, true, true),
    ),
    ("aéé", "", None, None, (0, 3, 4, true, true, true, true)),
    (
        "aéé",
        "",
        Some(4),
        None,
        (-1, -1, 0, false, false, false, false),
    ),
    (
        "hello",
        "l",
        None,
        None,
        (2, 3, 2, false, false, true, true),
    ),
    (
        "hello",
        "l",
        Some(-2),
        None,
        (3, 3, 1, true, false, true, true),
    ),
    (
        "hello",
        "lo",
        Some(0),
        Some(4),
        (-1, -1, 0, false, false, false, false),
    ),
    ("aaaa", "aa", None, None, (0, 2, 2, true, true, true, true)),
    (
        "héllo",
        "l",
        Some(i128::MIN),
        Some(i128::MAX),
        (2, 3, 2, false, false, true, true),
    ),
    ("abc", "", Some(3), None, (3, 3, 1, true, true, true, true)),
    (
        "abc",
        "d",
        None,
        None,
        (-1, -1, 0, false, false, false, false),
    ),
    ("", "", None, None, (0, 0, 1, true, true, true, true)),
    (
        "abcabc",
        "c",
        None,
        Some(-1),
        (2, 2, 1, false, false, true, true),
    ),
];

// What the searches of a window find.
fn found(t: &PyStr, args: &FindArgs) -> Found {
    (
        t.find(args),
        t.rfind(args),
        t.count(args),
        t.startswith(&args.sub, args.start, args.end),
        t.endswith(&args.sub, args.start, args.end),
        t.index(args).is_ok(),
        t.rindex(args).is_ok(),
    )
}

#[test]
fn windows(rt: HostRuntime) -> Result<(), PyError> {
    for (s, sub, start, end, wanted) in &SEARCHES {
        let t = PyStr::copy_of(rt.alloc(), s)?;
        let args = FindArgs {
            sub: PyStr::copy_of(rt.alloc(), sub)?,
            start: *start,
            end: *end,
        };
        assert_eq!(rt; found(&t, &args), *wanted, "{s} {sub}");
    }
    Ok(())
}

// Whether `aéé` contains a text.
fn is_in(alloc: Global, needle: &str) -> PyResult<bool> {
    Ok(PyStr::copy_of(alloc, "aéé")?.contains(&PyStr::copy_of(alloc, needle)?))
}

#[test]
fn parts_of_a_text(rt: HostRuntime) -> Result<(), PyError> {
    let inside = is_in(rt.alloc(), "éé")?;
    assert_eq!(rt; (inside, is_in(rt.alloc(), "éa")?), (true, false));
    Ok(())
}

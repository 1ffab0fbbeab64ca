//! The tests of a text.

use py_base::{PyError, PyResult};
use py_str::StrMore;
use py_text::PyStr;
use std::alloc::Global;

const Y: bool = true;

const N: bool = false;

// A text, and what `isalnum`, `isnumeric`, `isdigit`, `isdecimal`, `isalpha`, `isspace`, `isascii`,
// `isprintable`, `islower`, `isupper`, `istitle` and `isidentifier` answer.
const TESTS: [(&str, [bool; 12]); 16] = [
    ("", [N, N, N, N, N, N, Y, Y, N, N, N, N]),
    ("a1", [Y, N, N, N, N, N, Y, Y, Y, N, N, Y]),
    ("A", [Y, N, N, N, Y, N, Y, Y, N, Y, Y, Y]),
    ("Aé", [Y, N, N, N, Y, N, N, Y, N, N, Y, Y]),
    ("12", [Y, Y, Y, Y, N, N, Y, Y, N, N, N, N]),
    ("²", [Y, Y, Y, N, N, N, N, Y, N, N, N, N]),
    ("½", [Y, Y, N, N, N, N, N, Y, N, N, N, N]),
    (" \t", [N, N, N, N, N, Y, Y, N, N, N, N, N]),
    ("\u{1c}", [N, N, N, N, N, Y, Y, N, N, N, N, N]),
    ("a b", [N, N, N, N, N, N, Y, Y, Y, N, N, N]),
    ("_a1", [N, N, N, N, N, N, Y, Y, Y, N, N, Y]),
    ("1a", [Y, N, N, N, N, N, Y, Y, Y, N, N, N]),
    ("Ab", [Y, N, N, N, Y, N, Y, Y, N, N, Y, Y]),
    ("é", [Y, N, N, N, Y, N, N, Y, Y, N, N, Y]),
    ("ǅ", [Y, N, N, N, Y, N, N, Y, N, N, Y, Y]),
    ("\u{200b}", [N, N, N, N, N, N, N, N, N, N, N, N]),
];

// A text for which CPython answers otherwise, and `isalpha`, `isdigit`, `isnumeric`, `islower` and
// `isupper` by their rules here.
const OTHERWISE: [(&str, [bool; 5]); 5] = [
    ("٣", [N, N, Y, N, N]),
    ("Ⅷ", [Y, N, Y, N, Y]),
    ("一", [Y, N, N, N, N]),
    ("aǅ", [Y, N, N, Y, N]),
    ("Aǅ", [Y, N, N, N, Y]),
];

// A text, and whether it is a title.
const TITLES: [(&str, bool); 16] = [
    ("A Titlecased Line", true),
    ("A\nTitlecased Line", true),
    ("A Titlecased, Line", true),
    ("Not a capitalized String", false),
    ("Not\ta Titlecase String", false),
    ("Not--a Titlecase String", false),
    ("NOT", false),
    ("", false),
    ("1", false),
    ("Ab1cd", false),
    ("Ab1Cd", true),
    ("ǅa", true),
    ("aǅ", false),
    ("ǅǅ", false),
    ("É Ab", true),
    ("ª", false),
];

fn tested(t: &PyStr) -> [bool; 12] {
    [
        t.isalnum(),
        t.isnumeric(),
        t.isdigit(),
        t.isdecimal(),
        t.isalpha(),
        t.isspace(),
        t.isascii(),
        t.isprintable(),
        t.islower(),
        t.isupper(),
        t.istitle(),
        t.isidentifier(),
    ]
}

fn is_tested(alloc: Global, text: &str, wanted: [bool; 12]) -> PyResult<bool> {
    let text = PyStr::copy_of(alloc, text)?;
    Ok(tested(&text) == wanted)
}

fn is_otherwise(alloc: Global, text: &str, wanted: [bool; 5]) -> PyResult<bool> {
    let t = PyStr::copy_of(alloc, text)?;
    Ok(
        [
            t.isalpha(),
            t.isdigit(),
            t.isnumeric(),
            t.islower(),
            t.isupper(),
        ] == wanted,
    )
}

fn is_title(alloc: Global, text: &str, wanted: bool) -> PyResult<bool> {
    let text = PyStr::copy_of(alloc, text)?;
    Ok(text.istitle() == wanted)
}

#[test]
fn tests(rt: HostRuntime) -> Result<(), PyError> {
    for (text, wanted) in &TESTS {
        assert!(rt; is_tested(rt.alloc(), text, *wanted)?, "{text}");
    }
    Ok(())
}

#[test]
fn otherwise(rt: HostRuntime) -> Result<(), PyError> {
    for (text, wanted) in &OTHERWISE {
        assert!(rt; is_otherwise(rt.alloc(), text, *wanted)?, "{text}");
    }
    Ok(())
}

#[test]
fn titles(rt: HostRuntime) -> Result<(), PyError> {
    for (text, wanted) in &TITLES {
        assert!(rt; is_title(rt.alloc(), text, *wanted)?, "{text}");
    }
    Ok(())
}

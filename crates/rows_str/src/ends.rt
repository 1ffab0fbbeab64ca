//! Stripped texts.

use crate::texts::copied;
use py_base::{PyError, PyResult};
use py_str::StrMore;
use py_text::PyStr;
use std::alloc::Global;

// A text, the characters that are named, and what `strip`, `lstrip` and `rstrip` give.
const STRIPS: [(&str, Option<&str>, [&str; 3]); 9] = [
    (" a b ", None, ["a b", "a b ", " a b"]),
    (
        "\t\u{a0}\u{3000}é\u{2003}\n",
        None,
        ["é", "é\u{2003}\n", "\t\u{a0}\u{3000}é"],
    ),
    ("   ", None, ["", "", ""]),
    ("", None, ["", "", ""]),
    ("xyaxbyx", Some("xy"), ["axb", "axbyx", "xyaxb"]),
    ("éaéé", Some("é"), ["a", "aéé", "éa"]),
    ("xax", Some(""), ["xax", "xax", "xax"]),
    ("aaa", Some("a"), ["", "", ""]),
    (
        "\u{200b}a\u{200b}",
        None,
        [
            "\u{200b}a\u{200b}",
            "\u{200b}a\u{200b}",
            "\u{200b}a\u{200b}",
        ],
    ),
];

// Whether the text is stripped as wanted.
fn is_stripped(
    alloc: Global,
    text: &str,
    named: Option<&str>,
    wanted: [&str; 3],
) -> PyResult<bool> {
    let text = PyStr::copy_of(alloc, text)?;
    let named = copied(alloc, named)?;
    let named = named.as_ref();
    Ok([text.strip(named), text.lstrip(named), text.rstrip(named)] == wanted)
}

#[test]
fn strips(rt: HostRuntime) -> Result<(), PyError> {
    for (text, named, wanted) in &STRIPS {
        assert!(rt; is_stripped(rt.alloc(), text, *named, *wanted)?, "{text}");
    }
    Ok(())
}

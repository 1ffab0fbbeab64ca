//! Padded texts, and tabs.

use crate::texts::copied;
use py_base::{PyError, PyResult};
use py_str::StrMore;
use py_text::PyStr;
use std::alloc::Global;

// A text, a width, a fill, and what `center`, `ljust` and `rjust` give.
const PADDINGS: [(&str, isize, Option<&str>, [&str; 3]); 8] = [
    ("ab", 5, None, ["  ab ", "ab   ", "   ab"]),
    ("abc", 4, None, ["abc ", "abc ", " abc"]),
    ("ab", 4, None, [" ab ", "ab  ", "  ab"]),
    ("a", 4, Some("é"), ["éaéé", "aééé", "éééa"]),
    ("é", 2, Some("*"), ["é*", "é*", "*é"]),
    ("abc", 2, None, ["abc", "abc", "abc"]),
    ("ab", -3, None, ["ab", "ab", "ab"]),
    ("", 3, Some("-"), ["---", "---", "---"]),
];

// Whether `center`, `ljust` and `rjust` of the text give what is wanted.
fn are_padded(
    alloc: Global,
    text: &PyStr,
    width: isize,
    fill: Option<&PyStr>,
    wanted: [&str; 3],
) -> PyResult<bool> {
    let center = text.center(alloc, width, fill)?;
    let left = text.ljust(alloc, width, fill)?;
    let right = text.rjust(alloc, width, fill)?;
    Ok([center.as_str(), left.as_str(), right.as_str()] == wanted)
}

// Whether the text is padded as wanted.
fn is_padded(
    alloc: Global,
    text: &str,
    width: isize,
    fill: Option<&str>,
    wanted: [&str; 3],
) -> PyResult<bool> {
    let text = PyStr::copy_of(alloc, text)?;
    let fill = copied(alloc, fill)?;
    are_padded(alloc, &text, width, fill.as_ref(), wanted)
}

#[test]
fn paddings(rt: HostRuntime) -> Result<(), PyError> {
    for (text, width, fill, wanted) in &PADDINGS {
        assert!(rt;
            is_padded(rt.alloc(), text, *width, *fill, *wanted)?,
            "{text} {width}"
        );
    }
    Ok(())
}

// A fill, and how many bytes a letter takes at the left of 200 places.
const LONG: [(Option<&str>, usize); 3] = [(None, 200), (Some("0"), 200), (Some("é"), 399)];

fn long_bytes(alloc: Global, fill: Option<&str>) -> PyResult<usize> {
    let text = PyStr::copy_of(alloc, "a")?;
    let fill = copied(alloc, fill)?;
    Ok(text.ljust(alloc, 200, fill.as_ref())?.byte_len())
}

#[test]
fn long_paddings(rt: HostRuntime) -> Result<(), PyError> {
    for (fill, bytes) in &LONG {
        assert_eq!(rt; long_bytes(rt.alloc(), *fill)?, *bytes);
    }
    Ok(())
}

// A width, and a fill that is not one code point.
const NO_FILLS: [(isize, &str); 4] = [(5, ""), (5, "--"), (1, "--"), (-1, "")];

// Whether each padding of a text of two with the fill fails.
fn is_no_fill(alloc: Global, width: isize, fill: &str) -> PyResult<bool> {
    let text = PyStr::copy_of(alloc, "ab")?;
    let fill = copied(alloc, Some(fill))?;
    let fill = fill.as_ref();
    Ok(
        matches!(text.center(alloc, width, fill), Err(PyError::FillChar))
            && matches!(text.ljust(alloc, width, fill), Err(PyError::FillChar))
            && matches!(text.rjust(alloc, width, fill), Err(PyError::FillChar)),
    )
}

#[test]
fn no_fills(rt: HostRuntime) -> Result<(), PyError> {
    for (width, fill) in &NO_FILLS {
        assert!(rt; is_no_fill(rt.alloc(), *width, fill)?, "{fill} {width}");
    }
    Ok(())
}

// A text, a width, and what `zfill` gives.
const ZEROS: [(&str, isize, &str); 9] = [
    ("-7", 4, "-007"),
    ("+", 3, "+00"),
    ("", 3, "000"),
    ("--1", 5, "-00-1"),
    ("7", 1, "7"),
    ("é", 3, "00é"),
    ("+é1", 6, "+000é1"),
    ("-7", -1, "-7"),
    ("－1", 4, "00－1"),
];

// A text, a size, and what `expandtabs` gives.
const TABS: [(&str, isize, &str); 11] = [
    ("a\tb", 4, "a   b"),
    ("a\tb", 0, "ab"),
    ("a\tb", -1, "ab"),
    ("abc\n\tb\r\tc", 2, "abc\n  b\r  c"),
    ("ab\t", 2, "ab  "),
    ("é\té", 8, "é       é"),
    ("\u{b}\ta", 4, "\u{b}   a"),
    ("a\t\tb", 3, "a     b"),
    ("a\u{2028}\tb", 4, "a\u{2028}  b"),
    ("ab\ncd\tef", 4, "ab\ncd  ef"),
    ("", 4, ""),
];

fn is_zero_filled(alloc: Global, text: &str, width: isize, wanted: &str) -> PyResult<bool> {
    let text = PyStr::copy_of(alloc, text)?;
    Ok(text.zfill(alloc, width)?.as_str() == wanted)
}

fn is_expanded(alloc: Global, text: &str, size: isize, wanted: &str) -> PyResult<bool> {
    let text = PyStr::copy_of(alloc, text)?;
    Ok(text.expandtabs(alloc, size)?.as_str() == wanted)
}

#[test]
fn zeros(rt: HostRuntime) -> Result<(), PyError> {
    for (text, width, wanted) in &ZEROS {
        assert!(rt;
            is_zero_filled(rt.alloc(), text, *width, wanted)?,
            "{text} {width}"
        );
    }
    Ok(())
}

#[test]
fn tabs(rt: HostRuntime) -> Result<(), PyError> {
    for (text, size, wanted) in &TABS {
        assert!(rt;
            is_expanded(rt.alloc(), text, *size, wanted)?,
            "{text} {size}"
        );
    }
    Ok(())
}

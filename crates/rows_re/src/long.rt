//! Patterns of a million characters, which take linear time, and the limits of a pattern.

use py_base::PyResult;
use py_text::PyStr;
use re_parse::{TextError, parse_text};
use re_tree::TextFlags;
use std::alloc::Global;

const FLAGS: TextFlags = TextFlags {
    ascii: false,
    multiline: false,
    dotall: false,
};

// A part so many times, and after that another one so many times.
fn times(alloc: Global, count: usize, part: &str, more: &str) -> PyResult<PyStr> {
    let mut text = PyStr::new(alloc);
    for _ in 0..count {
        text.append(part)?;
    }
    for _ in 0..count {
        text.append(more)?;
    }
    Ok(text)
}

// The error of a pattern, or none where it has a tree.
fn error(alloc: Global, text: &PyStr) -> Option<TextError> {
    match parse_text(alloc, text, FLAGS) {
        Ok(_tree) => None,
        Err(error) => Some(error),
    }
}

#[test]
fn nested(rt: HostRuntime) -> PyResult<()> {
    let alloc = rt.alloc();
    assert_eq!(rt;
        [
            error(alloc, &times(alloc, 60, "(", ")")?),
            error(alloc, &times(alloc, 61, "(", ")")?),
            error(alloc, &times(alloc, 500_000, "(", ")")?),
            error(alloc, &times(alloc, 500_000, "(", "")?),
        ],
        [
            None,
            Some(TextError::TooDeep(60)),
            Some(TextError::TooDeep(60)),
            Some(TextError::NotInGrammar)
        ]
    );
    Ok(())
}

#[test]
fn many(rt: HostRuntime) -> PyResult<()> {
    let alloc = rt.alloc();
    assert_eq!(rt;
        [
            error(alloc, &times(alloc, 500_000, "a|", "")?),
            error(alloc, &times(alloc, 65_535, "()", "")?),
            error(alloc, &times(alloc, 500_000, "()", "")?),
            error(alloc, &times(alloc, 60_000, "(?P<n>a)", "(?P=n)")?),
        ],
        [
            None,
            None,
            Some(TextError::TooManyGroups(131_070)),
            Some(TextError::BadName(8))
        ]
    );
    Ok(())
}

// A named group for each number of five digits below the count, and back references to them.
fn many_names(alloc: Global, count: u32) -> PyResult<PyStr> {
    let mut text = PyStr::new(alloc);
    for n in 0..count {
        text.append("(?P<n")?;
        for place in [10_000_u32, 1_000, 100, 10, 1] {
            let digit = n.checked_div(place).unwrap_or(0) % 10;
            text.append_char(char::from(b'0' + digit as u8))?;
        }
        text.append(">a)(?P=n00000)")?;
    }
    Ok(text)
}

#[test]
fn names(rt: HostRuntime) -> PyResult<()> {
    let alloc = rt.alloc();
    assert_eq!(rt;
        [
            error(alloc, &many_names(alloc, 40_000)?),
            error(alloc, &many_names(alloc, 70_000)?),
        ],
        [None, Some(TextError::TooManyGroups(1_572_840))]
    );
    Ok(())
}

// So many parentheses as a pattern has characters at most, and some more. It is wrong from the
// first one on, so that no tree is made of it.
fn longest_and(alloc: Global, more: &str) -> PyResult<PyStr> {
    let part = times(alloc, 512, ")", ")")?;
    let mut text = times(alloc, 8_192, part.as_str(), part.as_str())?;
    text.append(more)?;
    Ok(text)
}

#[test]
fn longest(rt: HostRuntime) -> PyResult<()> {
    let alloc = rt.alloc();
    assert_eq!(rt;
        [
            error(alloc, &longest_and(alloc, "")?),
            error(alloc, &longest_and(alloc, ")")?),
        ],
        [Some(TextError::NotInGrammar), Some(TextError::TooLong)]
    );
    Ok(())
}

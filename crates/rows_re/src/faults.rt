//! What is wrong with a pattern, and where.

use py_base::PyResult;
use py_text::PyStr;
use re_parse::{TextError, parse_text};
use re_tree::TextFlags;
use std::alloc::Global;

const FLAGS: TextFlags = TextFlags {
    ascii: false,
    multiline: false,
    dotall: false,
};

// The error of a pattern, or none where it has a tree.
fn error(alloc: Global, text: &str) -> PyResult<Option<TextError>> {
    let text = PyStr::copy_of(alloc, text)?;
    match parse_text(alloc, &text, FLAGS) {
        Ok(_tree) => Ok(None),
        Err(error) => Ok(Some(error)),
    }
}

// The errors of patterns, one a line.
fn errors(alloc: Global, texts: &str) -> PyResult<Vec<Option<TextError>>> {
    let mut all = Vec::new(alloc);
    for text in texts.lines() {
        all.push(error(alloc, text)?)?;
    }
    Ok(all)
}

const NOT_IN_GRAMMAR: &str = r"a**
\1a{3,2}**
(a
a)
[a-b-c]
(?(1)a|b|c)
^*";

#[test]
fn not_in_the_grammar(rt: HostRuntime) -> PyResult<()> {
    let wanted = Some(TextError::NotInGrammar);
    assert_eq!(rt;
        errors(rt.alloc(), NOT_IN_GRAMMAR)?.as_slice(),
        [wanted, wanted, wanted, wanted, wanted, wanted, wanted].as_slice()
    );
    Ok(())
}

const REFERENCES: &str = r"\1(a)
(a\1)
(a)\2
(?P<n>a(?P=n))
(?(0)a)
(?(2)a)(b)
(?(18446744073709551617)a)(b)
(?(n)a)(?P<n>b)";

#[test]
fn references(rt: HostRuntime) -> PyResult<()> {
    let first = Some(TextError::BadReference(0));
    assert_eq!(rt;
        errors(rt.alloc(), REFERENCES)?.as_slice(),
        [
            first,
            Some(TextError::BadReference(2)),
            Some(TextError::BadReference(3)),
            Some(TextError::BadReference(7)),
            first,
            first,
            first,
            first
        ]
        .as_slice()
    );
    Ok(())
}

const NAMES: &str = r"(?P<1a>b)
(?P<n>a)(?P<n>b)
(?P=1a)
(?(1a)b)
(?()a)
(?( 1)a)(b)";

#[test]
fn names(rt: HostRuntime) -> PyResult<()> {
    let first = Some(TextError::BadName(0));
    assert_eq!(rt;
        errors(rt.alloc(), NAMES)?.as_slice(),
        [
            first,
            Some(TextError::BadName(8)),
            first,
            first,
            first,
            first
        ]
        .as_slice()
    );
    Ok(())
}

// Widths are exact, also past 64 bits.
const WIDTHS: &str = r"(?<=a|bc)x
(?<=a*)b
(a)(?<=\1)b
(?<=(?:a*){0})b
(?<=a|b|)c
(?<=a{3,2})b
(?<=a{4294967296})b
(?<=(?:a{99999999999999999999}|b{99999999999999999998}){0})c";

#[test]
fn widths(rt: HostRuntime) -> PyResult<()> {
    let first = Some(TextError::NotFixedWidth(0));
    assert_eq!(rt;
        errors(rt.alloc(), WIDTHS)?.as_slice(),
        [
            first,
            first,
            Some(TextError::NotFixedWidth(3)),
            first,
            first,
            first,
            first,
            first
        ]
        .as_slice()
    );
    Ok(())
}

const COUNTS: &str = r"a{4294967295}
a{3,2}
(?<=a{4294967295})b
(?<=(?:a{99999999999999999999}|b{99999999999999999999}){0})c
(?<=a{3,2})b(?<=c*)";

#[test]
fn counts(rt: HostRuntime) -> PyResult<()> {
    assert_eq!(rt;
        errors(rt.alloc(), COUNTS)?.as_slice(),
        [
            Some(TextError::BadCount(1)),
            Some(TextError::BadCount(1)),
            Some(TextError::BadCount(5)),
            Some(TextError::BadCount(8)),
            Some(TextError::NotFixedWidth(0))
        ]
        .as_slice()
    );
    Ok(())
}

const GOOD: &str = r"(\d+)-(?P<u>[a-z]+)
(?(01)a)(b)
(?P<n>(?(n)a|b))
(?<=|)
(?<=(a)(?(1)b|c))d
a{4294967294}
(a)(?P<n>b)\1(?P=n)(?(2)c|d)";

#[test]
fn good(rt: HostRuntime) -> PyResult<()> {
    assert_eq!(rt;
        errors(rt.alloc(), GOOD)?.as_slice(),
        [None, None, None, None, None, None, None].as_slice()
    );
    Ok(())
}

//! Texts without some characters at their ends; nothing is copied.

ghost use Rattle.std.specs.Prelude.{◌≡◌, ◌==◌, chars};
ghost use Rattle.std.specs.List.{list_any};
ghost use Rattle.py_base.specs.Chars.Whitespace.{trim_start, trim_end, trim};
ghost use Rattle.py_str.specs.Strip.{strips};

use py_base::is_white;
use py_text::PyStr;

fn holds(text: &str, mark: char) -> bool
    ensures { result ≡ list_any (λ d. d == mark) (chars text.now) }
{
    text.chars().any(|c| c == mark)
}

// Whether the character is one of those named, or whitespace where none are.
fn is_stripped(named: Option<&PyStr>, c: char) -> bool
    ensures { result ≡ strips named.entry c }
{
    match named {
        Some(named) => holds(named.as_str(), c),
        None => is_white(c as u32),
    }
}

fn without_left<'a>(text: &'a str, named: Option<&PyStr>) -> &'a str
    ensures { chars result.now ≡ trim_start (strips named.entry) (chars text.now) }
{
    let mut rest = text.chars();
    let mut at = 0;
    'chars: while let Some(c) = rest.next() {
        if !is_stripped(named, c) {
            return &text[at..];
        }
        at += c.len_utf8();
    }
    &text[at..]
}

fn without_right<'a>(text: &'a str, named: Option<&PyStr>) -> &'a str
    ensures { chars result.now ≡ trim_end (strips named.entry) (chars text.now) }
{
    let mut rest = text.chars();
    let mut end = text.len();
    'chars: while let Some(c) = rest.next_back() {
        if !is_stripped(named, c) {
            return &text[..end];
        }
        end = rest.as_str().len();
    }
    &text[..end]
}

/// The text without the named characters at its start.
pub(crate) fn lstrip<'a>(text: &'a PyStr, named: Option<&PyStr>) -> &'a str
    ensures { chars result.now ≡ trim_start (strips named.entry) text.now }
{
    without_left(text.as_str(), named)
}

/// The text without the named characters at its end.
pub(crate) fn rstrip<'a>(text: &'a PyStr, named: Option<&PyStr>) -> &'a str
    ensures { chars result.now ≡ trim_end (strips named.entry) text.now }
{
    without_right(text.as_str(), named)
}

/// The text without the named characters at both ends.
pub(crate) fn strip<'a>(text: &'a PyStr, named: Option<&PyStr>) -> &'a str
    ensures { chars result.now ≡ trim (strips named.entry) text.now }
{
    without_right(without_left(text.as_str(), named), named)
}

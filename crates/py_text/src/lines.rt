//! The lines of a text.

ghost use Rattle.std.specs.Prelude.{◌≡◌, ◌∷◌, ◌<◌, IfOk, IsOkUnless, IsUtf8, IsCharBoundary, MatchOption, IfSome, [], not, chars, length, take, drop};
ghost use Rattle.py_base.specs.Chars.Classes.{is_line_end as ends};
ghost use Rattle.py_base.specs.Chars.Whitespace.{skip_while};
ghost use Rattle.py_text.specs.Lines.{end_width, whole_lines, without_end, split_lines};

use crate::list::TextList;
use crate::points::offset_of;
use crate::text::PyStr;
use py_base::{PyError, PyResult, is_line_end};
use std::alloc::Global;

// Whether the character ends a line.
fn ends_line(c: char) -> bool
    ensures { result ≡ ends c }
{
    is_line_end(c as u32)
}

// How many bytes are before the first line end.
fn line_len(text: &str) -> usize
    ensures boundary { IsCharBoundary text.now result }
    ensures line { chars (take result text.now) ≡ without_end (chars text.now) }
    ensures rest { chars (drop result text.now) ≡ skip_while (λ c. not (ends c)) (chars text.now) }
{
    match text.find(ends_line) {
        Some(at) => at,
        None => text.len(),
    }
}

// How many code points the line end takes that the text begins with; 0 in an empty text.
fn end_width_of(tail: &str) -> usize
    ensures { result ≡ end_width (chars tail.now) }
{
    if tail.is_empty() {
        0
    } else if tail.starts_with("\r\n") {
        2
    } else {
        1
    }
}

// The first line with its end, the line without it, and what is after; None in an empty text.
fn first_line(text: &str) -> Option<(&str, &str, &str)>
    ensures text { IfSome result (λ p. IsUtf8 p.2.now) }
    ensures lines { MatchOption result (chars text.now ≡ []) (λ p.
        whole_lines (chars text.now) ≡ chars p.0.now ∷ whole_lines (chars p.2.now)) }
    ensures body { IfSome result (λ p. chars p.1.now ≡ without_end (chars p.0.now)) }
    ensures shorter { IfSome result (λ p. length (chars p.2.now) < length (chars text.now)) }
{
    if text.is_empty() {
        return None;
    }
    let at = line_len(text);
    let (line, tail) = text.split_at(at);
    let end = offset_of(tail, end_width_of(tail));
    let (whole, after) = text.split_at(at + end);
    Some((whole, line, after))
}

impl PyStr {
    /// The lines, with their ends or without. CR LF is one end, and after the last end there is
    /// no empty line. (Python Library Reference, String Methods, `str.splitlines`.)
    pub fn splitlines(&self, alloc: Global, keepends: bool) -> PyResult<TextList>
        ensures ok { IfOk result (λ lines. lines ≡ split_lines keepends self.now) }
        ensures err { IsOkUnless result PyError.NoMemory }
    {
        let ascii = self.is_ascii();
        let mut list = TextList::new(alloc);
        let mut rest = self.as_str();
        while let Some((whole, line, after)) = first_line(rest) {
            let kept = if keepends { whole } else { line };
            list.push_copy(alloc, kept, ascii)?;
            rest = after;
        }
        Ok(list)
    }
}

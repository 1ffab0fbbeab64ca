//! Where a text first or last occurs in a text, and what is around it.

ghost use Rattle.std.specs.Prelude.{◌≡◌, None, MatchOption, IfSome, IsUtf8, IsCharBoundary, length, take, chars};
ghost use Rattle.py_text.specs.Occurrences.{first_in, last_in, IsAround};

use crate::points::count_points;

// How many code points are before the byte `at` of a text of `count` ones: as many as bytes where
// all are ASCII, and else counted from the nearer end.
fn places_before(text: &str, at: usize, count: usize) -> usize
    requires boundary { IsCharBoundary text.now at }
    requires counted { count ≡ length (chars text.now) }
    ensures { result ≡ length (chars (take at text.now)) }
{
    if count == text.len() {
        at
    } else if at <= text.len() / 2 {
        count_points(&text[..at])
    } else {
        count - count_points(&text[at..])
    }
}

/// The first place of `needle`, in code points, in a text of `count` ones.
pub(crate) fn first_place(text: &str, needle: &str, count: usize) -> Option<usize>
    requires { count ≡ length (chars text.now) }
    ensures { result ≡ first_in (chars needle.now) (chars text.now) 0 (length (chars text.now)) }
{
    match text.find(needle) {
        Some(at) => Some(places_before(text, at, count)),
        None => None,
    }
}

/// The last place of `needle`, in code points, in a text of `count` ones.
pub(crate) fn last_place(text: &str, needle: &str, count: usize) -> Option<usize>
    requires { count ≡ length (chars text.now) }
    ensures { result ≡ last_in (chars needle.now) (chars text.now) 0 (length (chars text.now)) }
{
    match text.rfind(needle) {
        Some(at) => Some(places_before(text, at, count)),
        None => None,
    }
}

/// What is before the first `needle`, the needle, and what is after it.
pub(crate) fn around_first<'a>(text: &'a str, needle: &str) -> Option<(&'a str, &'a str, &'a str)>
    ensures text { IfSome result (λ p. IsUtf8 p.0.now × IsUtf8 p.1.now × IsUtf8 p.2.now) }
    ensures middle { IfSome result (λ p. p.1.now ≡ needle.now) }
    ensures around { let place =
        first_in (chars needle.now) (chars text.now) 0 (length (chars text.now)) in
        MatchOption result (place ≡ None) (λ p.
        IsAround (chars needle.now) (chars text.now) place (chars p.0.now) (chars p.2.now)) }
{
    match text.find(needle) {
        Some(at) => {
            let (before, rest) = text.split_at(at);
            let (middle, after) = rest.split_at(needle.len());
            Some((before, middle, after))
        }
        None => None,
    }
}

/// What is before the last `needle`, the needle, and what is after it.
pub(crate) fn around_last<'a>(text: &'a str, needle: &str) -> Option<(&'a str, &'a str, &'a str)>
    ensures text { IfSome result (λ p. IsUtf8 p.0.now × IsUtf8 p.1.now × IsUtf8 p.2.now) }
    ensures middle { IfSome result (λ p. p.1.now ≡ needle.now) }
    ensures around { let place =
        last_in (chars needle.now) (chars text.now) 0 (length (chars text.now)) in
        MatchOption result (place ≡ None) (λ p.
        IsAround (chars needle.now) (chars text.now) place (chars p.0.now) (chars p.2.now)) }
{
    match text.rfind(needle) {
        Some(at) => {
            let (before, rest) = text.split_at(at);
            let (middle, after) = rest.split_at(needle.len());
            Some((before, middle, after))
        }
        None => None,
    }
}

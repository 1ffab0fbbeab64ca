//! How many specifiers a percent template has, and whether they have keys.

ghost use Rattle.std.specs.Prelude.{◌≡◌, ◌≤◌, count_by, length};
ghost use Rattle.py_spec.specs.Percent.Specifiers as spec;

use crate::percent::parts::CFormatPart;

// Whether a part is a specifier with a key.
fn is_keyed(part: &CFormatPart) -> bool
    ensures { result ≡ spec.is_keyed part.now }
{
    match part {
        CFormatPart::Spec(s) => s.mapping_key.is_some(),
        _ => false,
    }
}

// Whether a part is a specifier without a key.
fn is_bare(part: &CFormatPart) -> bool
    ensures { result ≡ spec.is_bare part.now }
{
    match part {
        CFormatPart::Spec(s) => s.mapping_key.is_none(),
        _ => false,
    }
}

fn keyed_count(parts: &[(usize, CFormatPart)]) -> usize
    ensures count { result ≡ count_by (λ p. spec.is_keyed p.1) parts.now }
    ensures few { result ≤ length parts.now }
{
    let mut count = 0;
    for entry in parts {
        if is_keyed(&entry.1) {
            count += 1;
        }
    }
    count
}

fn bare_count(parts: &[(usize, CFormatPart)]) -> usize
    ensures count { result ≡ count_by (λ p. spec.is_bare p.1) parts.now }
    ensures few { result ≤ length parts.now }
{
    let mut count = 0;
    for entry in parts {
        if is_bare(&entry.1) {
            count += 1;
        }
    }
    count
}

/// How many specifiers the parts have, and whether these have keys; none where some have and some
/// have not.
pub(crate) fn specifiers_of(parts: &[(usize, CFormatPart)]) -> Option<(usize, bool)>
    ensures { result ≡ spec.specifiers_of parts.now }
{
    let keyed = keyed_count(parts);
    let bare = bare_count(parts);
    if keyed > 0 && bare > 0 {
        None
    } else {
        Some((keyed + bare, keyed > 0))
    }
}

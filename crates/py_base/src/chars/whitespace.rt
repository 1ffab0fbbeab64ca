//! ASCII whitespace.

ghost use Rattle.std.specs.Prelude.{◌≡◌};
ghost use Rattle.py_base.specs.Chars.Whitespace as spec;

/// Whether the code point is ASCII whitespace: tab, line feed, vertical tab, form feed, carriage
/// return or space. Rust's own test leaves the vertical tab out.
pub fn is_ascii_whitespace(c: u32) -> bool
    ensures { result ≡ spec.is_ascii_whitespace c }
{
    matches!(c, 0x09..=0x0D | 0x20)
}

fn trim_start(bytes: &[u8]) -> &[u8]
    ensures { result.now ≡ spec.trim_start spec.is_ascii_whitespace bytes.now }
{
    let mut start = 0;
    while start < bytes.len() && is_ascii_whitespace(u32::from(bytes[start])) {
        start += 1;
    }
    &bytes[start..]
}

fn trim_end(bytes: &[u8]) -> &[u8]
    ensures { result.now ≡ spec.trim_end spec.is_ascii_whitespace bytes.now }
{
    let mut end = bytes.len();
    while end > 0 && is_ascii_whitespace(u32::from(bytes[end - 1])) {
        end -= 1;
    }
    &bytes[..end]
}

/// The bytes without the ASCII whitespace at both ends.
pub fn trim_ascii_whitespace(bytes: &[u8]) -> &[u8]
    ensures { result.now ≡ spec.trim spec.is_ascii_whitespace bytes.now }
{
    trim_end(trim_start(bytes))
}

//! Tests of the bytes of an ASCII text, where these classes are ranges: no table is looked at.

ghost use Rattle.std.specs.Prelude.{◌≡◌};
ghost use Rattle.std.specs.Char.{is_ascii_alphabetic, is_ascii_alphanumeric};
ghost use Rattle.std.specs.List.{list_all};
ghost use Rattle.py_base.specs.Chars.Classes.{between};

/// Whether each byte is an ASCII letter.
pub(crate) fn each_byte_alpha(bytes: &[u8]) -> bool
    ensures { result ≡ list_all is_ascii_alphabetic bytes.now }
{
    bytes.iter().all(|byte| byte.is_ascii_alphabetic())
}

/// Whether each byte is an ASCII letter or digit.
pub(crate) fn each_byte_alnum(bytes: &[u8]) -> bool
    ensures { result ≡ list_all is_ascii_alphanumeric bytes.now }
{
    bytes.iter().all(|byte| byte.is_ascii_alphanumeric())
}

fn is_shown(byte: u8) -> bool
    ensures { result ≡ between 32 126 byte }
{
    32 <= byte && byte <= 126
}

/// Whether each byte is from the space to `~`.
pub(crate) fn each_byte_printable(bytes: &[u8]) -> bool
    ensures { result ≡ list_all (between 32 126) bytes.now }
{
    bytes.iter().all(|byte| is_shown(*byte))
}

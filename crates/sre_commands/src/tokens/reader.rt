//! How the next bytes of a request are read: what has to come, and a token.

ghost use Rattle.std.specs.Prelude.{◌≡◌, Ok, drop};
ghost use Rattle.std.specs.List.{position_or_len};
ghost use Rattle.py_base.specs.Reading as base;
ghost use Rattle.py_base.specs.Reading.{read_of};
ghost use Rattle.sre_commands.specs.Error.{Meets};
ghost use Rattle.sre_commands.specs.Tokens.Reader as spec;

use crate::error::ParseError;
use memchr::memchr2;

/// What is read of the bytes, and the bytes that are left.
pub(crate) type Read<'b, T> = Result<(T, &'b [u8]), ParseError>;

pub(crate) fn read_past<'b>(bytes: &'b [u8], name: &[u8]) -> Read<'b, ()>
    ensures { Meets (spec.read_past name.now bytes.now) (read_of result) }
{
    match bytes.strip_prefix(name) {
        Some(rest) => Ok(((), rest)),
        None => Err(ParseError::NoRequest),
    }
}

// Whether this byte comes next.
pub(crate) fn is_next(byte: u8, bytes: &[u8]) -> bool
    ensures { result ≡ base.is_next byte bytes.now }
{
    match bytes {
        [] => false,
        [next, ..] => *next == byte,
    }
}

// The bytes after the next, which is not looked at.
pub(crate) fn after_next(bytes: &[u8]) -> &[u8]
    ensures { result.now ≡ drop 1 bytes.now }
{
    match bytes {
        [] => bytes,
        [_, rest @ ..] => rest,
    }
}

// How long the next token is.
fn token_length(bytes: &[u8]) -> usize
    ensures { result ≡ position_or_len spec.is_end bytes.now }
{
    memchr2(b' ', b'\n', bytes).unwrap_or(bytes.len())
}

pub(crate) fn read_token(bytes: &[u8]) -> (&[u8], &[u8])
    ensures { spec.read_token bytes.now ≡ Ok (result.0.now, result.1.now) }
{
    bytes.split_at(token_length(bytes))
}

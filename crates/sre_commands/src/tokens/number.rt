//! Numbers in a request, and how they are read.

ghost use Rattle.std.specs.Prelude.{◌≡◌, ◌≢◌, ◌↔◌, ◌<◌, ◌^◌, ℕ, length, suc, IfSome, IfNone, IsTrue};
ghost use Rattle.std.specs.Fmt.{decimal};
ghost use Rattle.py_base.specs.Reading.{read_of, read_as};
ghost use Rattle.sre_commands.specs.Error.{Meets};
ghost use Rattle.sre_commands.specs.Tokens.Number as spec;

use crate::error::ParseError;
use crate::tokens::reader::{Read, after_next, is_next, read_past, read_token};
use std::alloc::Global;

// The number below 2 ^ 64 whose decimal these bytes are.
fn number_of(bytes: &[u8]) -> Option<u64>
    ensures found { IfSome result (λ n. bytes.now ≡ decimal n) }
    ensures none { IfNone result ((n : ℕ) → n < 2 ^ 64 → bytes.now ≢ decimal n) }
{
    if !begins_as_decimal(bytes) {
        return None;
    }
    let Ok(digits) = str::from_utf8(bytes) else {
        return None;
    };
    digits.parse().ok()
}

// Whether these bytes are `0`, or begin with another digit.
fn begins_as_decimal(bytes: &[u8]) -> bool
    ensures { IsTrue result ↔ spec.BeginsAsDecimal bytes.now }
{
    matches!(bytes, [b'0'] | [b'1'..=b'9', ..])
}

// The number below 2 ^ 32 whose decimal these bytes are.
fn word_of(bytes: &[u8]) -> Option<u32>
    ensures found { IfSome result (λ n. bytes.now ≡ decimal n) }
    ensures none { IfNone result ((n : ℕ) → n < 2 ^ 32 → bytes.now ≢ decimal n) }
{
    u32::try_from(number_of(bytes)?).ok()
}

pub(crate) fn read_number(bytes: &[u8]) -> Read<u64>
    ensures { Meets (spec.read_number bytes.now) (read_of result) }
{
    let (token, rest) = read_token(bytes);
    match number_of(token) {
        Some(number) => Ok((number, rest)),
        None => Err(ParseError::NoRequest),
    }
}

fn read_word(bytes: &[u8]) -> Read<u32>
    ensures { Meets (spec.read_word bytes.now) (read_of result) }
{
    let (token, rest) = read_token(bytes);
    match word_of(token) {
        Some(word) => Ok((word, rest)),
        None => Err(ParseError::NoRequest),
    }
}

pub(crate) fn read_words(alloc: Global, bytes: &[u8]) -> Read<Vec<u32>>
    ensures { Meets (spec.read_words (suc (length bytes.now)) bytes.now)
        (read_as (λ words. words.items) result) }
{
    let mut words = Vec::new(alloc);
    let mut rest = bytes;
    while is_next(b' ', rest) {
        let (word, after) = read_word(after_next(rest))?;
        words.push(word)?;
        rest = after;
    }
    Ok((words, rest))
}

// The number of a group of so many, or 0.
pub(crate) fn read_group(groups: usize, bytes: &[u8]) -> Read<usize>
    ensures { Meets (spec.read_group groups bytes.now) (read_of result) }
{
    let (_, rest) = read_past(bytes, b"i")?;
    let (number, rest) = read_number(rest)?;
    let number = number as usize;
    if number > groups {
        return Err(ParseError::NoRequest);
    }
    Ok((number, rest))
}

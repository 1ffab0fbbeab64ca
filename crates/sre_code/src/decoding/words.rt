//! The next words of a code.

ghost use Rattle.std.specs.Prelude.{◌≡◌, drop};
ghost use Rattle.py_base.specs.Reading as base;
ghost use Rattle.py_base.specs.Reading.{read_of, read_as};
ghost use Rattle.sre_code.specs.Decoding.Words as spec;
ghost use Rattle.sre_code.specs.Decoding.Decoder.{Meets};

use crate::decoding::decoder::Read;
use crate::error::CodeError;
use crate::opcodes::{JUMP, MARK, MAX_UNTIL, MIN_UNTIL, SUCCESS};

pub(crate) fn read_word(words: &[u32]) -> Read<u32>
    ensures { Meets (spec.read_word words.now) (read_of result) }
{
    match words {
        [word, rest @ ..] => Ok((*word, rest)),
        [] => Err(CodeError::InvalidCode),
    }
}

pub(crate) fn read_words(count: usize, words: &[u32]) -> Read<&[u32]>
    ensures { Meets (spec.read_words count words.now) (read_as (λ part. part.now) result) }
{
    if words.len() < count {
        return Err(CodeError::InvalidCode);
    }
    Ok(words.split_at(count))
}

pub(crate) fn is_next(word: u32, words: &[u32]) -> bool
    ensures { result ≡ base.is_next word words.now }
{
    match words {
        [] => false,
        [next, ..] => *next == word,
    }
}

// The words after the next, which is not looked at.
pub(crate) fn after_next(words: &[u32]) -> &[u32]
    ensures { result.now ≡ drop 1 words.now }
{
    match words {
        [] => words,
        [_, rest @ ..] => rest,
    }
}

// Whether a body ends here.
pub(crate) fn is_end(words: &[u32]) -> bool
    ensures { result ≡ spec.is_end words.now }
{
    match words {
        [] => true,
        [MARK, mark, ..] => *mark % 2 == 1,
        [w, ..] => *w == SUCCESS || *w == JUMP || *w == MAX_UNTIL || *w == MIN_UNTIL,
    }
}

//! Repeats.

ghost use Rattle.std.specs.Prelude.{◌≡◌};
ghost use Rattle.py_base.specs.Reading.{read_of, read_as};
ghost use Rattle.sre_code.specs.Decoding.Repeats as spec;
ghost use Rattle.sre_code.specs.Decoding.Decoder.{Meets};
ghost use Rattle.sre_code.specs.Decoding.Words.{read_from};
ghost use Rattle.sre_code.specs.Decoding.Nodes.{read_body};
ghost use Rattle.sre_code.specs.TreeView.{node_of};

use crate::decoding::decoder::{Decoder, Read};
use crate::decoding::words::read_word;
use crate::error::CodeError;
use crate::opcodes::{
    MAX_UNTIL, MIN_REPEAT_ONE, MIN_UNTIL, POSSESSIVE_REPEAT, POSSESSIVE_REPEAT_ONE, REPEAT,
    REPEAT_ONE, SUCCESS,
};
use crate::tree::{Node, RepeatKind};

/// What a repeat has before its body.
#[derive(Clone, Copy)]
struct Counts {
    skip: u32,
    least: u32,
    greatest: u32,
}

fn read_counts(words: &[u32]) -> Read<Counts>
    ensures { Meets (spec.read_counts words.now) (read_of result) }
{
    let (skip, rest) = read_word(words)?;
    let (least, rest) = read_word(rest)?;
    let (greatest, rest) = read_word(rest)?;
    if least > greatest {
        return Err(CodeError::InvalidCode);
    }
    Ok((
        Counts {
            skip,
            least,
            greatest,
        },
        rest,
    ))
}

impl Decoder {
    // Greedy or lazy by the word after the body.
    #[cycle(decode)]
    pub(crate) fn read_repeat<'w>(&self, words: &'w [u32]) -> Read<'w, Node>
        ensures { let body = read_body self.now.groups self.now.levels in
            Meets (spec.read_repeat body words.now) (read_as node_of result) }
    {
        let (counts, rest) = read_counts(words)?;
        let ((body, until), rest) = self.read_skipped(counts.skip, 2, rest)?;
        let kind = match until {
            MAX_UNTIL => RepeatKind::Greedy,
            MIN_UNTIL => RepeatKind::Lazy,
            _ => return Err(CodeError::InvalidCode),
        };
        Ok((
            Node::Repeat(kind, false, counts.least, counts.greatest, body),
            rest,
        ))
    }

    #[cycle(decode)]
    pub(crate) fn read_possessive<'w>(&self, words: &'w [u32]) -> Read<'w, Node>
        ensures { let body = read_body self.now.groups self.now.levels in
            Meets (spec.read_possessive body words.now) (read_as node_of result) }
    {
        let (counts, rest) = read_counts(words)?;
        let (body, rest) = self.read_part(SUCCESS, counts.skip, 2, rest)?;
        let kind = RepeatKind::Possessive;
        Ok((
            Node::Repeat(kind, false, counts.least, counts.greatest, body),
            rest,
        ))
    }

    // A repeat of one unit.
    #[cycle(decode)]
    pub(crate) fn read_repeat_one<'w>(&self, kind: RepeatKind, words: &'w [u32]) -> Read<'w, Node>
        ensures { let body = read_body self.now.groups self.now.levels in
            Meets (spec.read_repeat_one kind body words.now) (read_as node_of result) }
    {
        let (counts, rest) = read_counts(words)?;
        let (body, rest) = self.read_part(SUCCESS, counts.skip, 3, rest)?;
        if !body.is_unit() {
            return Err(CodeError::InvalidCode);
        }
        Ok((
            Node::Repeat(kind, true, counts.least, counts.greatest, body),
            rest,
        ))
    }

    // The repeat of this first word.
    #[cycle(decode)]
    pub(crate) fn read_any_repeat<'w>(&self, word: u32, words: &'w [u32]) -> Read<'w, Node>
        ensures { let body = read_body self.now.groups self.now.levels in
            Meets (read_from (spec.repeat_readers body) word words.now) (read_as node_of result) }
    {
        match word {
            REPEAT => self.read_repeat(words),
            REPEAT_ONE => self.read_repeat_one(RepeatKind::Greedy, words),
            MIN_REPEAT_ONE => self.read_repeat_one(RepeatKind::Lazy, words),
            POSSESSIVE_REPEAT => self.read_possessive(words),
            POSSESSIVE_REPEAT_ONE => self.read_repeat_one(RepeatKind::Possessive, words),
            _ => Err(CodeError::InvalidCode),
        }
    }
}

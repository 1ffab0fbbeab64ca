//! Conditionals.

ghost use Rattle.std.specs.Prelude.{◌≡◌};
ghost use Rattle.py_base.specs.Reading.{read_of, read_as};
ghost use Rattle.sre_code.specs.Decoding.Conditionals as spec;
ghost use Rattle.sre_code.specs.Decoding.Decoder.{Meets};
ghost use Rattle.sre_code.specs.Decoding.Nodes.{read_body};
ghost use Rattle.sre_code.specs.TreeView.{node_of};

use crate::decoding::decoder::{Decoder, Read};
use crate::decoding::words::{read_word, read_words};
use crate::error::CodeError;
use crate::opcodes::JUMP;
use crate::tree::{Node, Tree};

impl Decoder {
    // The second body, where `left`, the words after the first, jump over it.
    #[cycle(decode)]
    fn read_second<'w>(&self, left: &[u32], words: &'w [u32]) -> Read<'w, Option<Tree>>
        ensures { let body = read_body self.now.groups self.now.levels in
            Meets (spec.read_second body left.now words.now) (read_of result) }
    {
        if left.is_empty() {
            return Ok((None, words));
        }
        let (op, more) = read_word(left)?;
        let (jump, end) = read_word(more)?;
        if op != JUMP || jump == 0 || !end.is_empty() {
            return Err(CodeError::InvalidCode);
        }
        let (part, rest) = read_words(jump as usize - 1, words)?;
        let (no, end) = self.read_body(part)?;
        if !end.is_empty() {
            return Err(CodeError::InvalidCode);
        }
        Ok((Some(no), rest))
    }

    // The two bodies, of which the first, with a jump over the second, has so many words.
    #[cycle(decode)]
    fn read_choice<'w>(&self, group: u32, count: usize, words: &'w [u32]) -> Read<'w, Node>
        ensures { let body = read_body self.now.groups self.now.levels in
            Meets (spec.read_choice group body count words.now) (read_as node_of result) }
    {
        let (part, rest) = read_words(count, words)?;
        let (yes, left) = self.read_body(part)?;
        let (no, rest) = self.read_second(left, rest)?;
        Ok((Node::Exists(group, yes, no), rest))
    }

    #[cycle(decode)]
    pub(crate) fn read_exists<'w>(&self, words: &'w [u32]) -> Read<'w, Node>
        ensures { let body = read_body self.now.groups self.now.levels in
            Meets (spec.read_exists self.now.groups body words.now) (read_as node_of result) }
    {
        let (group, rest) = read_word(words)?;
        let (skip, rest) = read_word(rest)?;
        if group as usize >= self.groups || skip < 2 {
            return Err(CodeError::InvalidCode);
        }
        self.read_choice(group + 1, skip as usize - 2, rest)
    }
}

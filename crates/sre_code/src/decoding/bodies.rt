//! Nodes with one body: groups, atomic groups, lookaheads and lookbehinds.

ghost use Rattle.std.specs.Prelude.{◌≡◌, ◌≤◌};
ghost use Rattle.py_base.specs.Reading.{read_of, read_as};
ghost use Rattle.sre_code.specs.Decoding.Bodies as spec;
ghost use Rattle.sre_code.specs.Decoding.Decoder.{Meets};
ghost use Rattle.sre_code.specs.Decoding.Nodes.{read_body};
ghost use Rattle.sre_code.specs.TreeView.{node_of};

use crate::decoding::decoder::{Decoder, Read};
use crate::decoding::words::read_word;
use crate::error::CodeError;
use crate::opcodes::{MARK, SUCCESS};
use crate::tree::{Node, Tree};

impl Decoder {
    // A body and the word after it, where `skip` passes both and so many words more.
    #[cycle(decode)]
    pub(crate) fn read_skipped<'w>(
        &self,
        skip: u32,
        more: usize,
        words: &'w [u32],
    ) -> Read<'w, (Tree, u32)>
        requires { more ≤ 3 }
        ensures { let body = read_body self.now.groups self.now.levels in
            Meets (spec.read_skipped body skip more words.now) (read_of result) }
    {
        let (body, rest) = self.read_body(words)?;
        let (until, rest) = read_word(rest)?;
        if skip as usize + rest.len() != words.len() + more {
            return Err(CodeError::InvalidCode);
        }
        Ok(((body, until), rest))
    }

    // A body that ends with the word `until`.
    #[cycle(decode)]
    pub(crate) fn read_part<'w>(
        &self,
        until: u32,
        skip: u32,
        more: usize,
        words: &'w [u32],
    ) -> Read<'w, Tree>
        requires { more ≤ 3 }
        ensures { let body = read_body self.now.groups self.now.levels in
            Meets (spec.read_part body until skip more words.now) (read_of result) }
    {
        let ((body, end), rest) = self.read_skipped(skip, more, words)?;
        if end != until {
            return Err(CodeError::InvalidCode);
        }
        Ok((body, rest))
    }

    #[cycle(decode)]
    pub(crate) fn read_atomic<'w>(&self, words: &'w [u32]) -> Read<'w, Node>
        ensures { let body = read_body self.now.groups self.now.levels in
            Meets (spec.read_atomic body words.now) (read_as node_of result) }
    {
        let (skip, rest) = read_word(words)?;
        let (body, rest) = self.read_part(SUCCESS, skip, 1, rest)?;
        Ok((Node::Atomic(body), rest))
    }

    #[cycle(decode)]
    pub(crate) fn read_assert<'w>(&self, positive: bool, words: &'w [u32]) -> Read<'w, Node>
        ensures { let body = read_body self.now.groups self.now.levels in
            Meets (spec.read_assert positive body words.now) (read_as node_of result) }
    {
        let (skip, rest) = read_word(words)?;
        let (back, rest) = read_word(rest)?;
        let (body, rest) = self.read_part(SUCCESS, skip, 2, rest)?;
        Ok((Node::Look(positive, back, body), rest))
    }

    #[cycle(decode)]
    pub(crate) fn read_mark<'w>(&self, words: &'w [u32]) -> Read<'w, Node>
        ensures { let body = read_body self.now.groups self.now.levels in
            Meets (spec.read_mark self.now.groups body words.now) (read_as node_of result) }
    {
        let (mark, rest) = read_word(words)?;
        if mark % 2 == 1 || (mark / 2) as usize >= self.groups {
            return Err(CodeError::InvalidCode);
        }
        let (body, rest) = self.read_body(rest)?;
        let (until, rest) = read_word(rest)?;
        let (last, rest) = read_word(rest)?;
        if until != MARK || last != mark + 1 {
            return Err(CodeError::InvalidCode);
        }
        Ok((Node::Group(mark / 2 + 1, body), rest))
    }
}

//! A node by its first word, and the nodes of a body one after another.

ghost use Rattle.std.specs.Prelude.{◌≡◌, ◌++◌};
ghost use Rattle.py_base.specs.Reading.{read_of, read_as};
ghost use Rattle.sre_code.specs.Decoding.Nodes as spec;
ghost use Rattle.sre_code.specs.Decoding.Decoder.{Meets};
ghost use Rattle.sre_code.specs.Decoding.Repeats.{repeat_readers};
ghost use Rattle.sre_code.specs.Decoding.Words.{read_from};
ghost use Rattle.sre_code.specs.TreeView.{node_of};

use crate::decoding::decoder::{Decoder, Read};
use crate::decoding::leaves::{read_at, read_literal, read_not_literal};
use crate::decoding::sets::read_in;
use crate::decoding::words::{is_end, read_word};
use crate::error::CodeError;
use crate::opcodes::{
    ANY, ANY_ALL, ASSERT, ASSERT_NOT, AT, ATOMIC_GROUP, BRANCH, FAILURE, GROUPREF, GROUPREF_EXISTS,
    IN, LITERAL, MARK, NOT_LITERAL,
};
use crate::tree::{Node, Tree};

impl Decoder {
    // The node with a body of this first word.
    #[cycle(decode)]
    fn read_with_body<'w>(&self, word: u32, words: &'w [u32]) -> Read<'w, Node>
        ensures { let body = spec.read_body self.now.groups self.now.levels in
            let table = spec.body_readers self.now.groups body ++ repeat_readers body in
            Meets (read_from table word words.now) (read_as node_of result) }
    {
        match word {
            ASSERT => self.read_assert(true, words),
            ASSERT_NOT => self.read_assert(false, words),
            ATOMIC_GROUP => self.read_atomic(words),
            BRANCH => self.read_branch(words),
            GROUPREF_EXISTS => self.read_exists(words),
            MARK => self.read_mark(words),
            _ => self.read_any_repeat(word, words),
        }
    }

    #[cycle(decode)]
    fn read_node<'w>(&self, words: &'w [u32]) -> Read<'w, Node>
        ensures { let body = spec.read_body self.now.groups self.now.levels in
            Meets (spec.read_node self.now.groups body words.now) (read_as node_of result) }
    {
        let (word, rest) = read_word(words)?;
        match word {
            FAILURE => Ok((Node::Fail, rest)),
            ANY => Ok((Node::Any, rest)),
            ANY_ALL => Ok((Node::AnyAll, rest)),
            AT => read_at(rest),
            GROUPREF => self.read_groupref(rest),
            IN => read_in(self.alloc, rest),
            LITERAL => read_literal(rest),
            NOT_LITERAL => read_not_literal(rest),
            _ => self.read_with_body(word, rest),
        }
    }

    #[cycle(decode)]
    pub(crate) fn read_tree<'w>(&self, words: &'w [u32]) -> Read<'w, Tree>
        ensures { let read = spec.read_tree self.now.groups self.now.levels in
            Meets (read words.now) (read_of result) }
    {
        let mut nodes = Vec::new(self.alloc);
        let mut rest = words;
        while !is_end(rest) {
            let (node, after) = self.read_node(rest)?;
            nodes.push(node)?;
            rest = after;
        }
        Ok((Tree::from_nodes(nodes), rest))
    }

    #[cycle(decode)]
    pub(crate) fn read_body<'w>(&self, words: &'w [u32]) -> Read<'w, Tree>
        ensures { let body = spec.read_body self.now.groups self.now.levels in
            Meets (body words.now) (read_of result) }
    {
        if self.levels == 0 {
            return Err(CodeError::InvalidCode);
        }
        let inside = Decoder {
            alloc: self.alloc,
            groups: self.groups,
            levels: self.levels - 1,
        };
        inside.read_tree(words)
    }
}

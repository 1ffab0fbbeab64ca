//! Branches.

ghost use Rattle.std.specs.Prelude.{◌≡◌, length, Ok, suc, ◌∷◌};
ghost use Rattle.py_base.specs.Reading.{read_of, read_as, ◌and_then◌};
ghost use Rattle.sre_code.specs.Decoding.Branches as spec;
ghost use Rattle.sre_code.specs.Decoding.Decoder.{Meets};
ghost use Rattle.sre_code.specs.Decoding.Nodes.{read_body};
ghost use Rattle.sre_code.specs.TreeView.{node_of, trees_of};

use crate::decoding::decoder::{Decoder, Read};
use crate::decoding::words::{after_next, is_next, read_word};
use crate::error::CodeError;
use crate::opcodes::{FAILURE, JUMP};
use crate::tree::{Node, Tree, Trees};

impl Decoder {
    // An alternative, and how many words are left where its jump leads.
    #[cycle(decode)]
    fn read_alternative<'w>(&self, words: &'w [u32]) -> Read<'w, (Tree, usize)>
        ensures { let body = read_body self.now.groups self.now.levels in
            Meets (spec.read_alternative body words.now) (read_of result) }
    {
        let (skip, rest) = read_word(words)?;
        let (tree, rest) = self.read_part(JUMP, skip, 2, rest)?;
        let (jump, rest) = read_word(rest)?;
        if jump as usize > rest.len() + 1 {
            return Err(CodeError::InvalidCode);
        }
        Ok(((tree, rest.len() + 1 - jump as usize), rest))
    }

    // The first alternative and those after it, which all jump to where so many words are left.
    #[cycle(decode)]
    fn read_alternatives<'w>(&self, first: Tree, left: usize, words: &'w [u32]) -> Read<'w, Trees>
        ensures { let body = read_body self.now.groups self.now.levels in
            let more = spec.read_alternatives (suc (length words.now)) body left words.now in
            Meets (more and_then λ ts rest. Ok (trees_of (first ∷ ts), rest)) (read_of result) }
    {
        let mut trees = Vec::new(self.alloc);
        trees.push(first)?;
        let mut rest = words;
        while !is_next(FAILURE, rest) {
            let ((tree, end), after) = self.read_alternative(rest)?;
            if end != left {
                return Err(CodeError::InvalidCode);
            }
            trees.push(tree)?;
            rest = after;
        }
        let rest = after_next(rest);
        if rest.len() != left {
            return Err(CodeError::InvalidCode);
        }
        Ok((Trees::from_trees(trees), rest))
    }

    #[cycle(decode)]
    pub(crate) fn read_branch<'w>(&self, words: &'w [u32]) -> Read<'w, Node>
        ensures { let body = read_body self.now.groups self.now.levels in
            Meets (spec.read_branch body words.now) (read_as node_of result) }
    {
        let ((first, left), rest) = self.read_alternative(words)?;
        let (trees, rest) = self.read_alternatives(first, left, rest)?;
        Ok((Node::Branch(trees), rest))
    }
}

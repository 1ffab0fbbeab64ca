//! Nodes without a body: literals, anchors and back references.

ghost use Rattle.std.specs.Prelude.{◌≡◌};
ghost use Rattle.py_base.specs.Reading.{read_as};
ghost use Rattle.sre_code.specs.Anchors as anchors;
ghost use Rattle.sre_code.specs.Decoding.Leaves as spec;
ghost use Rattle.sre_code.specs.Decoding.Decoder.{Meets};
ghost use Rattle.sre_code.specs.TreeView.{node_of};

use crate::decoding::decoder::{Decoder, Read};
use crate::decoding::words::read_word;
use crate::error::CodeError;
use crate::opcodes::{AT_END_STRING, AT_UNI_BOUNDARY, AT_UNI_NON_BOUNDARY};
use crate::tree::Node;

pub(crate) fn read_literal(words: &[u32]) -> Read<Node>
    ensures { Meets (spec.read_literal words.now) (read_as node_of result) }
{
    let (unit, rest) = read_word(words)?;
    Ok((Node::Lit(unit), rest))
}

pub(crate) fn read_not_literal(words: &[u32]) -> Read<Node>
    ensures { Meets (spec.read_not_literal words.now) (read_as node_of result) }
{
    let (unit, rest) = read_word(words)?;
    Ok((Node::NotLit(unit), rest))
}

fn is_anchor(kind: u32) -> bool
    ensures { result ≡ anchors.is_anchor kind }
{
    kind <= AT_END_STRING || (AT_UNI_BOUNDARY..=AT_UNI_NON_BOUNDARY).contains(&kind)
}

pub(crate) fn read_at(words: &[u32]) -> Read<Node>
    ensures { Meets (spec.read_at words.now) (read_as node_of result) }
{
    let (kind, rest) = read_word(words)?;
    if !is_anchor(kind) {
        return Err(CodeError::InvalidCode);
    }
    Ok((Node::At(kind), rest))
}

impl Decoder {
    pub(crate) fn read_groupref<'w>(&self, words: &'w [u32]) -> Read<'w, Node>
        ensures { Meets (spec.read_groupref self.now.groups words.now) (read_as node_of result) }
    {
        let (group, rest) = read_word(words)?;
        if group as usize >= self.groups {
            return Err(CodeError::InvalidCode);
        }
        Ok((Node::Ref(group + 1), rest))
    }
}

//! Sets and their items.

ghost use Rattle.std.specs.Prelude.{◌≡◌, length, suc, Ok, IfOk};
ghost use Rattle.py_base.specs.Reading.{read_of, read_as};
ghost use Rattle.sre_code.specs.declared.set.SetItem.TheVariants.{Blocks};
ghost use Rattle.sre_code.specs.Decoding.Sets as spec;
ghost use Rattle.sre_code.specs.Decoding.Decoder.{Meets};
ghost use Rattle.sre_code.specs.TreeView.{node_of};

use crate::decoding::decoder::Read;
use crate::decoding::words::{after_next, is_next, read_word, read_words};
use crate::error::CodeError;
use crate::opcodes::{
    BIGCHARSET, CATEGORY, CHARSET, CHARSET_WORDS, FAILURE, LITERAL, MAP_WORDS, NEGATE, RANGE,
};
use crate::set::{Items, SetItem, Words};
use crate::tree::Node;
use py_base::is_category;
use std::alloc::{AllocError, Global};

fn read_unit(words: &[u32]) -> Read<SetItem>
    ensures { Meets (spec.read_unit words.now) (read_of result) }
{
    let (unit, rest) = read_word(words)?;
    Ok((SetItem::Literal(unit), rest))
}

fn read_range(words: &[u32]) -> Read<SetItem>
    ensures { Meets (spec.read_range words.now) (read_of result) }
{
    let (first, rest) = read_word(words)?;
    let (last, rest) = read_word(rest)?;
    Ok((SetItem::Span(first, last), rest))
}

fn read_category(words: &[u32]) -> Read<SetItem>
    ensures { Meets (spec.read_category words.now) (read_of result) }
{
    let (category, rest) = read_word(words)?;
    if !is_category(category) {
        return Err(CodeError::InvalidCode);
    }
    Ok((SetItem::Category(category), rest))
}

fn read_charset(alloc: Global, words: &[u32]) -> Read<SetItem>
    ensures { Meets (spec.read_charset words.now) (read_of result) }
{
    let (bits, rest) = read_words(CHARSET_WORDS, words)?;
    let bits = Words::from_slice(alloc, bits)?;
    Ok((SetItem::Bits(bits), rest))
}

fn blocks(alloc: Global, map: &[u32], blocks: &[u32]) -> Result<SetItem, AllocError>
    ensures { IfOk result (λ item. item ≡ Blocks map.now blocks.now) }
{
    let map = Words::from_slice(alloc, map)?;
    let blocks = Words::from_slice(alloc, blocks)?;
    Ok(SetItem::Blocks(map, blocks))
}

fn read_bigcharset(alloc: Global, words: &[u32]) -> Read<SetItem>
    ensures { Meets (spec.read_bigcharset words.now) (read_of result) }
{
    let (count, rest) = read_word(words)?;
    let (map, rest) = read_words(MAP_WORDS, rest)?;
    let (bits, rest) = read_words(CHARSET_WORDS * count as usize, rest)?;
    Ok((blocks(alloc, map, bits)?, rest))
}

fn read_item(alloc: Global, words: &[u32]) -> Read<SetItem>
    ensures { Meets (spec.read_item words.now) (read_of result) }
{
    let (word, rest) = read_word(words)?;
    match word {
        CATEGORY => read_category(rest),
        CHARSET => read_charset(alloc, rest),
        BIGCHARSET => read_bigcharset(alloc, rest),
        LITERAL => read_unit(rest),
        RANGE => read_range(rest),
        _ => Err(CodeError::InvalidCode),
    }
}

fn read_items(alloc: Global, words: &[u32]) -> Read<Items>
    ensures { Meets (spec.read_items (suc (length words.now)) words.now) (read_of result) }
{
    let mut items = Items::new(alloc);
    let mut rest = words;
    while !is_next(FAILURE, rest) {
        let (item, after) = read_item(alloc, rest)?;
        items.push(item)?;
        rest = after;
    }
    Ok((items, after_next(rest)))
}

fn read_negate(words: &[u32]) -> (bool, &[u32])
    ensures { spec.read_negate words.now ≡ Ok (result.0, result.1.now) }
{
    match words {
        [NEGATE, rest @ ..] => (true, rest),
        _ => (false, words),
    }
}

pub(crate) fn read_in(alloc: Global, words: &[u32]) -> Read<Node>
    ensures { Meets (spec.read_in words.now) (read_as node_of result) }
{
    let (skip, set) = read_word(words)?;
    let (negated, rest) = read_negate(set);
    let (items, rest) = read_items(alloc, rest)?;
    if skip as usize + rest.len() != set.len() + 1 {
        return Err(CodeError::InvalidCode);
    }
    Ok((Node::OneOf(negated, items), rest))
}

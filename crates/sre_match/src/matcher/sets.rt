//! Which units are members of a set.

ghost use Rattle.std.specs.Prelude.{◌≡◌, ◌<◌, ◌&&◌, ◌/◌, ◌==◌, ◌%◌, nat_lt, length, slice_index};
ghost use Rattle.py_base.specs.Chars.Categories.{in_category};
ghost use Rattle.sre_match.specs.Members as spec;

use py_base::{category, is_category};
use sre_code::{Items, SetItem};

// Whether a unit is in the category of this number. Where it names none, all units are in it where
// it is odd, and else none.
#[tactic(auto, using(crate::proofs::SetLemmas::no_category))]
fn in_category(number: u32, unit: u32) -> bool
    ensures { result ≡ in_category number unit }
{
    if is_category(number) {
        category(number, unit)
    } else {
        number % 2 == 1
    }
}

// A word of a list, and 0 past its end.
fn word_in(words: &[u32], i: usize) -> u32
    ensures { result ≡ slice_index words.now i }
{
    match words.get(i) {
        Some(word) => *word,
        None => 0,
    }
}

// Bit n of a word.
fn has_bit(word: u32, n: u32) -> bool
    requires { n < 32 }
    ensures { result ≡ spec.has_bit word n }
{
    (word >> n) % 2 == 1
}

// The bit of a unit below 256 in a set's words.
fn bit_of(words: &[u32], unit: u32) -> bool
    ensures { result ≡ spec.bit_of words.now unit }
{
    has_bit(word_in(words, (unit / 32) as usize), unit % 32)
}

// A byte of a set's map, which numbers a block for each 256 units.
#[tactic(auto, using(crate::proofs::SetLemmas::byte_power))]
fn byte_of(words: &[u32], place: u32) -> u32
    ensures byte { result ≡ spec.byte_of words.now place }
    ensures bound { result < 256 }
{
    let word = word_in(words, (place / 4) as usize);
    (word >> (8 * (place % 4))) % 256
}

// The bit of a unit in a set's block.
fn block_bit(blocks: &[u32], block: u32, unit: u32) -> bool
    requires { block < 256 }
    ensures { result ≡ spec.block_bit blocks.now block unit }
{
    has_bit(
        word_in(blocks, (8 * block + unit % 256 / 32) as usize),
        unit % 32,
    )
}

// Whether a unit is in the block that the map names for it.
fn in_blocks(map: &[u32], blocks: &[u32], unit: u32) -> bool
    ensures { result ≡ (nat_lt unit 65536 && spec.in_blocks map.now blocks.now unit) }
{
    if unit >= 65536 {
        return false;
    }
    let block = byte_of(map, unit / 256);
    (block as usize) < blocks.len() / 8 && block_bit(blocks, block, unit)
}

// Whether a unit is in an item.
fn is_in_item(item: &SetItem, unit: u32) -> bool
    ensures { result ≡ spec.is_in_item item.now unit }
{
    match item {
        SetItem::Literal(x) => unit == *x,
        SetItem::Span(lo, hi) => *lo <= unit && unit <= *hi,
        SetItem::Category(number) => in_category(*number, unit),
        SetItem::Bits(words) => unit < 256 && bit_of(words.as_slice(), unit),
        SetItem::Blocks(map, blocks) => in_blocks(map.as_slice(), blocks.as_slice(), unit),
    }
}

/// Whether a unit is in some item.
pub fn is_member(items: &Items, unit: u32) -> bool
    ensures { result ≡ spec.is_member items.now unit }
{
    items.as_slice().iter().any(|item| is_in_item(item, unit))
}

//! The words of what one unit is tested for.

ghost use Rattle.std.specs.Prelude.{◌≡◌, ◌∷◌, ◌++◌, [], length, OnOk};
ghost use Rattle.sre_code.specs.Spelling.{item_words, items_words, set_words, node_words};
ghost use Rattle.re_tree.specs.PlainText.{set};
ghost use Rattle.re_tree.specs.TextView.{test_of};
ghost use Rattle.re_text.specs.Trees.{set_item, set_items, test_node};

use crate::code_end::CodeEnd;
use re_tree::{UnitItem, UnitItems, UnitTest};
use sre_code::opcodes::{ANY, ANY_ALL, CATEGORY, FAILURE, IN, LITERAL, NEGATE, RANGE};
use std::alloc::AllocError;

// The words of an item.
fn put_item(code: &mut CodeEnd, item: UnitItem) -> Result<(), AllocError>
    ensures { OnOk result (code.new ≡ item_words (set_item item) ++ code.old) }
{
    match item {
        UnitItem::Literal(unit) => {
            code.put(unit as u32)?;
            code.put(LITERAL)
        }
        UnitItem::Span(lo, hi) => {
            code.put(hi as u32)?;
            code.put(lo as u32)?;
            code.put(RANGE)
        }
        UnitItem::Category(category) => {
            code.put(category)?;
            code.put(CATEGORY)
        }
    }
}

// The words of items, and before them that of a complement.
#[tactic(auto, using(crate::proofs::WordLemmas::items_more))]
fn put_items(code: &mut CodeEnd, negated: bool, items: &UnitItems) -> Result<(), AllocError>
    ensures { OnOk result (code.new ≡ set_words negated (set_items items.now) ++ code.old) }
{
    let items = items.as_slice();
    for i in (0..items.len()).rev() {
        put_item(code, items[i])?;
    }
    if negated { code.put(NEGATE) } else { Ok(()) }
}

// The words of a set.
#[tactic(auto, using(crate::proofs::WordLemmas::set_is))]
fn put_set(code: &mut CodeEnd, negated: bool, items: &UnitItems) -> Result<(), AllocError>
    ensures { OnOk result
        (code.new ≡ node_words (test_node (set negated items.now)) ++ code.old) }
{
    code.put(FAILURE)?;
    let before = code.len();
    put_items(code, negated, items)?;
    code.put_skip(before, 2)?;
    code.put(IN)
}

/// Puts the words of a test before the others.
pub(crate) fn put_test(code: &mut CodeEnd, test: &UnitTest) -> Result<(), AllocError>
    ensures { OnOk result (code.new ≡ node_words (test_node (test_of test.now)) ++ code.old) }
{
    match test {
        UnitTest::Any => code.put(ANY),
        UnitTest::AnyAll => code.put(ANY_ALL),
        UnitTest::Literal(unit) => {
            code.put(*unit as u32)?;
            code.put(LITERAL)
        }
        UnitTest::Set(negated, items) => put_set(code, *negated, items),
    }
}

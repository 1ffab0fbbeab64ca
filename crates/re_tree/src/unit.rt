//! What one unit is tested for.

ghost use Rattle.std.specs.Prelude.{◌≡◌, length, slice_get};
ghost use Rattle.std.specs.Option.{option_copied};

use sqlite_items::Items as Listed;
use std::marker::Model;

/// An item of a set.
#[derive(Clone, Copy, PartialEq, Eq, Debug)]
pub enum UnitItem {
    /// This character.
    Literal(char),
    /// From the first character to the second.
    Span(char, char),
    /// The units of a category, by its number.
    Category(u32),
}

/// The items of a set.
#[derive(Debug, Drop)]
pub struct UnitItems {
    items: Listed<UnitItem>,
}

impl Model for UnitItems {
    ghost use Rattle.std.specs.Prelude.{List};
    ghost use Rattle.re_tree.specs.declared.unit.UnitItem.{UnitItem};

    ghost Value = { List UnitItem };

    ghost view = { λ a. a.items };
}

impl UnitItems {
    /// These items in their order. It takes no memory.
    pub fn from_vec(items: Vec<UnitItem>) -> UnitItems
        ensures { result ≡ items.items }
    {
        UnitItems {
            items: Listed::from_vec(items),
        }
    }

    /// How many items there are.
    pub fn len(&self) -> usize
        ensures { result ≡ length self.now }
    {
        self.items.len()
    }

    /// The item at a place, where there is one.
    pub fn get(&self, i: usize) -> Option<&UnitItem>
        ensures { option_copied result ≡ slice_get self.now i }
    {
        self.items.get(i)
    }

    /// The items in their order.
    pub fn as_slice(&self) -> &[UnitItem]
        ensures { result.now ≡ self.now }
    {
        self.items.as_slice()
    }
}

/// What a unit is tested for.
#[derive(Debug, Drop)]
pub enum UnitTest {
    /// Any unit but a line feed.
    Any,
    /// Any unit.
    AnyAll,
    /// This character.
    Literal(char),
    /// A unit of the set, or, where true, one that is not.
    Set(bool, UnitItems),
}

//! The tree of a pattern, the grammar that a pattern and its tree belong to, and what can be wrong
//! with a pattern that has a tree.
#![tactic(auto)]

pub mod anchors;
mod fault;
mod flags;
pub mod laws;
pub mod limits;
mod tree;
mod unit;

pub use fault::{Fault, FaultKind};
pub use flags::TextFlags;
pub use tree::{CountMode, GroupId, TextBody, TextParts, TextTree};
pub use unit::{UnitItem, UnitItems, UnitTest};

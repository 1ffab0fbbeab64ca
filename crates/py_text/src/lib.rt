//! Texts as lists of code points, bytes, and lists of texts.
#![tactic(auto)]

mod affixes;
mod building;
mod bytes;
mod hash;
mod iterator;
pub mod laws;
mod lines;
mod list;
mod occurrences;
mod order;
mod partitions;
mod pieces;
mod points;
mod replacing;
mod search;
mod shared;
mod slices;
mod strides;
mod subscript;
mod sums;
mod text;
mod whitespace;
mod window;

pub use bytes::PyBytes;
pub use iterator::{IterState, PyStrIterator};
pub use list::TextList;
pub use partitions::Partition;
pub use pieces::SplitArgs;
pub use search::FindArgs;
pub use shared::PyStrRef;
pub use text::PyStr;

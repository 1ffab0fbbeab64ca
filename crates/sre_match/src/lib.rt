//! Views of a subject, and the search in it for the spans of a tree.
#![tactic(auto)]

mod error;
mod iterator;
pub mod laws;
mod marks;
mod matcher;
mod request;
mod state;
mod view;

pub use error::MatchError;
pub use iterator::SearchIter;
pub use marks::Marks;
pub use request::Request;
pub use state::{State, metered_search};
pub use view::{ByteView, MeteredView, StrDrive, StringCursor, TextView};

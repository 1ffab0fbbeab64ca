//! From a pattern to its tree: the tokens, the first pass that finds what is wrong, and the second
//! one that makes the tree.
#![tactic(auto)]

mod branches;
mod construct;
mod digits;
mod ended_groups;
mod error;
mod first_fault;
mod first_pass;
mod frame;
mod group_names;
mod groups;
pub mod laws;
mod number;
mod parser;
mod parsing;
mod parts;
mod pass;
mod reading;
mod shape;
mod token;
mod tree_width;
mod walk;
mod width;

pub use error::{MAX_CHARACTERS, TextError};
pub use group_names::GroupNames;
pub use number::Number;
pub use parsing::parse_text;
pub use reading::next_token;
pub use token::{GroupName, Lexed, Opening, Token};
pub use tree_width::short_width;

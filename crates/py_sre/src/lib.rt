//! Patterns, with their flags and the names of their groups.
#![tactic(auto)]

mod built;
mod engine;
mod filling;
mod flags;
mod kind;
mod names;
mod of_words;
mod pattern;
mod pieces;
mod subjects;
mod substituting;
mod template;

pub use flags::{CODESIZE, MAGIC, MAXGROUPS, MAXREPEAT, SreFlag, ascii_iscased, getcodesize};
pub use names::{GroupIndex, GroupNames};
pub use of_words::{substitute, substitute_all};
pub use pattern::{Pattern, PatternRef, PatternSource, compile, pattern_ref};
pub use substituting::Repl;
pub use template::Template;

//! What the program does: requests, their answers, and the run from a source to a sink.
#![tactic(auto)]

pub mod commands;
mod ending;
mod error;
pub mod laws;
mod program;
mod streams;
mod tokens;

pub use ending::{Ending, status_of};
pub use error::ParseError;
pub use program::run;
pub use streams::MOST_BYTES;

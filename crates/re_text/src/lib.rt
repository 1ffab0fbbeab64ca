//! What a pattern means, and the code that means the same.
#![tactic(auto)]

mod code_end;
mod compile;
pub mod laws;
mod names;
mod parts;
mod units;

pub use compile::{TextCode, compile_text};

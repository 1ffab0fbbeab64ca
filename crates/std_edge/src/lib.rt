//! Standard input and output as a source and a sink, and the arguments of the command line.
#![tactic(auto)]

mod command_line;
mod streams;

pub use command_line::arguments;
pub use streams::{StdSink, StdSource};

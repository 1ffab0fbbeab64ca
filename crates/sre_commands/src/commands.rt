//! The commands, each with its requests and answers.

pub mod sub;

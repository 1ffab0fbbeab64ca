//! Substitution: a code, a subject, and a replacement template that is filled for each span found.

pub mod answer;
mod filling;
mod line;
mod parts;
mod reader;
pub mod request;
pub mod template;

//! Templates of percent formatting.

pub mod byte_parts;
mod fills;
mod latin;
mod numerals;
pub mod parts;
mod reader;
mod reading;
mod specifiers;
pub mod template;
mod writing;

//! Classes of characters, the categories of a regular expression, whitespace, and quoting.

pub(crate) mod categories;
pub(crate) mod classes;
pub(crate) mod quoting;
pub(crate) mod whitespace;

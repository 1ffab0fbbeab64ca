//! The pieces of a replacement template.

/// A literal, or the number of a group, where 0 is the whole span.
#[derive(Drop)]
pub(crate) enum Piece<T> {
    Literal(T),
    Group(usize),
}

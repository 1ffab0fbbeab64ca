//! What is open around the parentheses that are being read.

// What was open around an opening, what the opening is, and the number of a group that it begins.
#[derive(Drop)]
pub(crate) struct Frame<K, B> {
    pub(crate) at: usize,
    pub(crate) opening: K,
    pub(crate) number: usize,
    pub(crate) around: B,
}

//! The numbers of the anchors that the grammar has, by CPython's names.

/// The start of the subject.
pub const AT_BEGINNING: u32 = 0;
/// The start of the subject, or after a line feed.
pub const AT_BEGINNING_LINE: u32 = 1;
/// Between an ASCII word unit and another or none.
pub const AT_BOUNDARY: u32 = 3;
/// The complement of `AT_BOUNDARY`.
pub const AT_NON_BOUNDARY: u32 = 4;
/// The end of the subject, or before a line feed that ends it.
pub const AT_END: u32 = 5;
/// The end of the subject, or before a line feed.
pub const AT_END_LINE: u32 = 6;
/// The end of the subject.
pub const AT_END_STRING: u32 = 7;
/// Between a word unit of any script and another or none.
pub const AT_UNI_BOUNDARY: u32 = 10;
/// The complement of `AT_UNI_BOUNDARY`.
pub const AT_UNI_NON_BOUNDARY: u32 = 11;

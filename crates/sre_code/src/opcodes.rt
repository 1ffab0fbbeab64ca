//! The words of a code by CPython's names (`Lib/re/_constants.py`), and its limits.

/// Nothing passes; also the last word of a set and of a branch.
pub const FAILURE: u32 = 0;
/// The last word of a code, and of most bodies.
pub const SUCCESS: u32 = 1;
/// Any unit but a line feed.
pub const ANY: u32 = 2;
/// Any unit.
pub const ANY_ALL: u32 = 3;
/// A lookahead or lookbehind.
pub const ASSERT: u32 = 4;
/// A negative lookahead or lookbehind.
pub const ASSERT_NOT: u32 = 5;
/// An anchor.
pub const AT: u32 = 6;
/// A branch: alternatives.
pub const BRANCH: u32 = 7;
/// In a set, a category.
pub const CATEGORY: u32 = 8;
/// In a set, bits for the units below 256.
pub const CHARSET: u32 = 9;
/// In a set, blocks of bits for the units below 65,536.
pub const BIGCHARSET: u32 = 10;
/// A back reference.
pub const GROUPREF: u32 = 11;
/// A conditional.
pub const GROUPREF_EXISTS: u32 = 12;
/// A set.
pub const IN: u32 = 13;
/// A block of information before the tree.
pub const INFO: u32 = 14;
/// The end of an alternative, and of the first part of a conditional.
pub const JUMP: u32 = 15;
/// A unit.
pub const LITERAL: u32 = 16;
/// The start or the end of a group.
pub const MARK: u32 = 17;
/// The end of a greedy repeat's body.
pub const MAX_UNTIL: u32 = 18;
/// The end of a lazy repeat's body.
pub const MIN_UNTIL: u32 = 19;
/// Any other unit.
pub const NOT_LITERAL: u32 = 20;
/// At the start of a set, its complement.
pub const NEGATE: u32 = 21;
/// In a set, a range.
pub const RANGE: u32 = 22;
/// A repeat, greedy or lazy.
pub const REPEAT: u32 = 23;
/// A greedy repeat of one unit.
pub const REPEAT_ONE: u32 = 24;
/// A lazy repeat of one unit.
pub const MIN_REPEAT_ONE: u32 = 26;
/// An atomic group.
pub const ATOMIC_GROUP: u32 = 27;
/// A possessive repeat.
pub const POSSESSIVE_REPEAT: u32 = 28;
/// A possessive repeat of one unit.
pub const POSSESSIVE_REPEAT_ONE: u32 = 29;

/// The start of the subject.
pub const AT_BEGINNING: u32 = 0;
/// The start of the subject, or after a line feed.
pub const AT_BEGINNING_LINE: u32 = 1;
/// The start of the subject, as `AT_BEGINNING`.
pub const AT_BEGINNING_STRING: u32 = 2;
/// Between an ASCII word unit and another or none.
pub const AT_BOUNDARY: u32 = 3;
/// The complement of `AT_BOUNDARY`.
pub const AT_NON_BOUNDARY: u32 = 4;
/// The end of the subject, or before a line feed that ends it.
pub const AT_END: u32 = 5;
/// The end of the subject, or before a line feed.
pub const AT_END_LINE: u32 = 6;
/// The end of the subject.
pub const AT_END_STRING: u32 = 7;
/// Between a word unit of any script and another or none.
pub const AT_UNI_BOUNDARY: u32 = 10;
/// The complement of `AT_UNI_BOUNDARY`.
pub const AT_UNI_NON_BOUNDARY: u32 = 11;

/// How many words hold the bits of 256 units: those of a charset, and of a block of a big one.
pub const CHARSET_WORDS: usize = 8;
/// How many words the map of a big charset has, with the numbers of four blocks each.
pub const MAP_WORDS: usize = 64;

/// As the greatest count of a repeat: there is none.
pub const MAXREPEAT: u32 = 4_294_967_295;
/// The greatest number of groups.
pub const MAXGROUPS: usize = 65_535;
/// How many bodies may be inside one another.
pub const MAXDEPTH: usize = 200;

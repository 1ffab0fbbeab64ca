//! Laws of trees and their spellings.

ghost use Rattle.sre_code.specs.Laws.{OneTreeForOneCode, ReadingIsSpelling};

/// No words spell two trees for one group count.
pub fn one_tree_for_one_code()
    ensures { OneTreeForOneCode }
{}

/// The definition that reads words, as the decoder does, gives a tree exactly for the words that
/// spell it.
pub fn reading_is_spelling()
    ensures { ReadingIsSpelling }
{}

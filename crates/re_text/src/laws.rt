//! Laws of patterns and their outcomes.

ghost use Rattle.re_text.specs.Laws.{WidthsAreKept, TheTreeMeansTheText, EveryTextHasACode};

/// Where a part has a width, each of its outcomes ends that many units on.
pub fn widths_are_kept()
    ensures { WidthsAreKept }
{}

/// The attempts of a pattern's tree that pass have, in order, the ends and captures of the pattern's
/// own outcomes: at every place of every subject, and with whatever captures before.
pub fn the_tree_means_the_text()
    ensures { TheTreeMeansTheText }
{}

/// Each pattern that reads as a tree without a fault has a code, and this is it.
pub fn every_text_has_a_code()
    ensures { EveryTextHasACode }
{}

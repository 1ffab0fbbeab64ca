//! The law of the first pass over a pattern.

ghost use Rattle.re_parse.specs.Laws.{FirstPassAgreesWithTheTree};

/// The first pass says of a pattern what its tree says: nothing where it has none, and else its
/// first fault, if it has one.
pub fn first_pass_agrees_with_the_tree()
    ensures { FirstPassAgreesWithTheTree }
{}

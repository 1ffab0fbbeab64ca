//! Laws of patterns and their trees.

ghost use Rattle.re_tree.specs.Laws.{NoTokensOfTwoTrees, OneTreeForOneText, ReadingIsTheGrammar};

/// No tokens are those of two trees.
pub fn one_tree_for_tokens()
    ensures { NoTokensOfTwoTrees }
{}

/// One pattern and flags read as at most one tree.
pub fn one_tree_for_one_text()
    ensures { OneTreeForOneText }
{}

/// The function that reads a pattern gives a tree exactly where the grammar does, and that one.
pub fn reading_is_the_grammar()
    ensures { ReadingIsTheGrammar }
{}

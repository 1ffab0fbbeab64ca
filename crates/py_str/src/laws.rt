//! Laws of stripped, padded, expanded and encoded texts: facts that follow from the definitions.

ghost use Rattle.py_str.specs.Laws.{NoneAtTheEnds, StripsOnlyWhatPasses, PaddingsFillTheWidth, ZerosFillTheWidth, NoTabIsLeft, NoTabNoChange, OnlyTabsChange, TabsReachMultiples, EncodedIsDecoded};

/// A stripped text neither begins nor ends with a character that is stripped.
pub fn none_at_the_ends()
    ensures { NoneAtTheEnds }
{}

/// What is stripped from a text are characters that pass the test, before and after the rest.
pub fn only_what_passes_is_stripped()
    ensures { StripsOnlyWhatPasses }
{}

/// A padded text is as long as the width where the text is not longer, and else it is the text.
pub fn paddings_fill_the_width()
    ensures { PaddingsFillTheWidth }
{}

/// So is a text that is filled with zeros.
pub fn zeros_fill_the_width()
    ensures { ZerosFillTheWidth }
{}

/// A text whose tabs are expanded has no tab.
pub fn no_tab_is_left()
    ensures { NoTabIsLeft }
{}

/// A tab becomes at least one space, and as many as reach the next column that is a multiple of the
/// size. What is before it is expanded as if alone, and what is after it goes on at that column.
pub fn tabs_reach_multiples()
    ensures { TabsReachMultiples }
{}

/// But for spaces and tabs, a text whose tabs are expanded is the text.
pub fn only_tabs_change()
    ensures { OnlyTabsChange }
{}

/// A text without tabs stays as it is.
pub fn no_tab_no_change()
    ensures { NoTabNoChange }
{}

/// What is decoded of an encoded text is the text.
pub fn encoded_is_decoded()
    ensures { EncodedIsDecoded }
{}

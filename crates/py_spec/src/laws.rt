//! Laws of percent templates: facts that follow from the definitions.

ghost use Rattle.py_spec.specs.Laws.{CharactersFillTheWidth, FullLiterals, LiteralsApart, MoreRoomChangesNothing, NumbersFillTheWidth, PartsSpellTheTemplate, PlacesAscend, StringsFillTheWidth};

/// Where a template is read with room for more parts than it has units, more room changes nothing.
pub fn more_room_changes_nothing()
    ensures { MoreRoomChangesNothing }
{}

/// No literal of a template, of text or of bytes, is empty.
pub fn no_literal_is_empty()
    ensures { FullLiterals }
{}

/// No two literals are neighbours: each is the longest run. So it is in a template of bytes.
pub fn literals_are_longest_runs()
    ensures { LiteralsApart }
{}

/// The places of the parts ascend, in a template of text and in one of bytes.
pub fn places_ascend()
    ensures { PlacesAscend }
{}

/// The parts are the template. Each has the units from its place up to the place of the next part,
/// or up to the end: a literal with each percent sign twice, or a specifier as it is read.
pub fn parts_spell_the_template()
    ensures { PartsSpellTheTemplate }
{}

/// A string that is written is what the precision keeps of it, with spaces up to the width and no
/// others: on the left, or with `-` on the right.
pub fn strings_fill_the_width()
    ensures { StringsFillTheWidth }
{}

/// So is a character, which is not cut.
pub fn characters_fill_the_width()
    ensures { CharactersFillTheWidth }
{}

/// A number that is written is its sign, prefix, zeros and digits, with such spaces around them.
pub fn numbers_fill_the_width()
    ensures { NumbersFillTheWidth }
{}

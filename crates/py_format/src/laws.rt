//! Laws of percent formatting: facts that follow from the definitions.

ghost use Rattle.py_format.specs.Laws.{BareAsksNothing, ErrorsAreNamed, LiteralsAlone, WrittenStays};

/// A template that is filled with a value without handles asks no host.
pub fn bare_values_ask_nothing()
    ensures { BareAsksNothing }
{}

/// Where a template has been read, its errors are those of its arguments, of look-ups and of
/// printing.
pub fn errors_are_named()
    ensures { ErrorsAreNamed }
{}

/// A template without specifiers makes its literals of a mapping and of an empty tuple. Of another
/// value something is left over.
pub fn literals_are_kept()
    ensures { LiteralsAlone }
{}

/// What the parts of a template write comes after what was written before, and does not depend on
/// it.
pub fn written_text_stays()
    ensures { WrittenStays }
{}

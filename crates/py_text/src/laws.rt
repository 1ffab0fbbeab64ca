//! Laws of texts and bytes: facts that follow from the definitions, and from each type's own
//! equality and order.

ghost use Rattle.py_text.specs.Laws.{AreEqualAsLists, AreOrderedByFirstDifference, HavePrefixesFirst, AreEqualInOrder, AreComparedAsOrdered, HashAlike, HaveOneHash, GivesTheRest, NothingPastTheEnd, StaysExhausted, NoMorePlaces, FirstIsLeast, LastIsGreatest, NoMoreOccurrences, NoMoreReplaced, NoMoreWhitespacePieces, PiecesBetweenWhitespace, PiecesBetweenFromRight, WhitespacePiecesAreTheText, WhitespacePiecesFromRightAreTheText, LimitBoundsThePieces, LinesAreTheText, LinesEndOnce, PiecesLackTheSeparator, PiecesFromRightLackTheSeparator, PiecesAreTheText, PiecesFromRightAreTheText, PartsAreTheText};

use crate::bytes::PyBytes;
use crate::text::PyStr;
use std::hash::Hash;

/// Two texts are equal exactly where their code points are.
pub fn texts_equal_as_lists()
    ensures { AreEqualAsLists ⟦<PyStr as PartialEq>⟧.eq }
{}

/// Two bytes objects are equal exactly where their bytes are.
pub fn bytes_equal_as_lists()
    ensures { AreEqualAsLists ⟦<PyBytes as PartialEq>⟧.eq }
{}

/// The first code point that differs orders two texts.
pub fn texts_ordered_by_first_difference()
    ensures { AreOrderedByFirstDifference ⟦<PyStr as Ord>⟧.cmp }
{}

/// The first byte that differs orders two bytes objects.
pub fn bytes_ordered_by_first_difference()
    ensures { AreOrderedByFirstDifference ⟦<PyBytes as Ord>⟧.cmp }
{}

/// A text comes after each of its prefixes.
pub fn text_prefixes_come_first()
    ensures { HavePrefixesFirst ⟦<PyStr as Ord>⟧.cmp }
{}

/// A bytes object comes after each of its prefixes.
pub fn byte_prefixes_come_first()
    ensures { HavePrefixesFirst ⟦<PyBytes as Ord>⟧.cmp }
{}

/// Two texts are equal in the order exactly where their code points are.
pub fn texts_equal_in_order()
    ensures { AreEqualInOrder ⟦<PyStr as Ord>⟧.cmp }
{}

/// Two bytes objects are equal in the order exactly where their bytes are.
pub fn bytes_equal_in_order()
    ensures { AreEqualInOrder ⟦<PyBytes as Ord>⟧.cmp }
{}

/// `<` and `<=` of texts use the order that sorts and maps use.
pub fn texts_compared_as_ordered()
    ensures { AreComparedAsOrdered ⟦<PyStr as PartialOrd>⟧.partial_cmp ⟦<PyStr as Ord>⟧.cmp }
{}

/// `<` and `<=` of bytes objects use the order that sorts and maps use.
pub fn bytes_compared_as_ordered()
    ensures { AreComparedAsOrdered ⟦<PyBytes as PartialOrd>⟧.partial_cmp ⟦<PyBytes as Ord>⟧.cmp }
{}

/// Texts that are equal by `==` make the same writes to a hasher.
pub fn equal_texts_hash_alike()
    ensures { HashAlike ⟦<PyStr as PartialEq>⟧.eq ⟦<PyStr as Hash>⟧.hash_input }
{}

/// Bytes objects that are equal by `==` make the same writes to a hasher.
pub fn equal_bytes_hash_alike()
    ensures { HashAlike ⟦<PyBytes as PartialEq>⟧.eq ⟦<PyBytes as Hash>⟧.hash_input }
{}

/// `py_hash` answers the same of texts that are equal by `==`, under each seed.
pub fn equal_texts_have_one_hash()
    ensures { HaveOneHash ⟦<PyStr as PartialEq>⟧.eq }
{}

/// An iterator gives the code points from its place on.
pub fn iterator_gives_the_rest()
    ensures { GivesTheRest }
{}

/// `setstate` past the end leaves nothing.
pub fn nothing_past_the_end()
    ensures { NothingPastTheEnd }
{}

/// An exhausted iterator stays exhausted.
pub fn exhausted_for_good()
    ensures { StaysExhausted }
{}

/// A slice takes at most as many places as the text has.
pub fn slices_take_no_more_places()
    ensures { NoMorePlaces }
{}

/// The place that `find` answers is the least one, and it answers none exactly where there is none.
pub fn first_place_is_the_least()
    ensures { FirstIsLeast }
{}

/// The place that `rfind` answers is the greatest one, and it answers none exactly where there is
/// none.
pub fn last_place_is_the_greatest()
    ensures { LastIsGreatest }
{}

/// No window has more places of a text than code points and one: a greater limit changes nothing.
pub fn no_more_occurrences()
    ensures { NoMoreOccurrences }
{}

/// So a greater limit changes nothing in `split` and `replace` either.
pub fn no_more_replaced()
    ensures { NoMoreReplaced }
{}

/// No text has more pieces between whitespace than code points: a greater limit changes nothing.
pub fn no_more_whitespace_pieces()
    ensures { NoMoreWhitespacePieces }
{}

/// Of the pieces of `split` without a separator none is empty, none begins with whitespace, and
/// none but the last has whitespace; without a limit none has.
pub fn pieces_between_whitespace()
    ensures { PiecesBetweenWhitespace }
{}

/// Of the pieces of `rsplit` without a separator none is empty, none ends with whitespace, and none
/// but the first has whitespace; without a limit none has.
pub fn pieces_between_from_right()
    ensures { PiecesBetweenFromRight }
{}

/// A text is the pieces of `split` without a separator in their order, with whitespace before them,
/// between two of them and after them, and nothing else.
pub fn whitespace_pieces_are_the_text()
    ensures { WhitespacePiecesAreTheText }
{}

/// The same of the pieces of `rsplit` without a separator, read from right to left.
pub fn whitespace_pieces_from_right_are_the_text()
    ensures { WhitespacePiecesFromRightAreTheText }
{}

/// A limit of k leaves at most k + 1 pieces, of `split` and of `rsplit`, with and without a
/// separator.
pub fn limit_bounds_the_pieces()
    ensures { LimitBoundsThePieces }
{}

/// The lines with their ends, joined, are the text.
pub fn lines_are_the_text()
    ensures { LinesAreTheText }
{}

/// Each line with its end has one line end, which is at its end; CR LF is one. The last line may be
/// without.
pub fn lines_end_once()
    ensures { LinesEndOnce }
{}

/// The separator occurs in no piece of `split` but the last, and without a limit in none.
pub fn pieces_lack_the_separator()
    ensures { PiecesLackTheSeparator }
{}

/// The separator occurs in no piece of `rsplit` but the first, and without a limit in none.
pub fn pieces_from_right_lack_the_separator()
    ensures { PiecesFromRightLackTheSeparator }
{}

/// The pieces of `split`, joined by the separator, are the text.
pub fn pieces_are_the_text()
    ensures { PiecesAreTheText }
{}

/// The pieces of `rsplit`, joined by the separator, are the text.
pub fn pieces_from_right_are_the_text()
    ensures { PiecesFromRightAreTheText }
{}

/// The three parts of a partition, joined, are the text.
pub fn parts_are_the_text()
    ensures { PartsAreTheText }
{}

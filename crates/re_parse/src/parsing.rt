//! From a pattern to its tree.

ghost use Rattle.std.specs.Prelude.{◌≡◌, IfOk};
ghost use Rattle.std.specs.Option.{option_map};
ghost use Rattle.re_tree.specs.Grammar.{ReadsAs};
ghost use Rattle.re_tree.specs.Machine.{read_tree};
ghost use Rattle.re_tree.specs.TextView.{text_of};
ghost use Rattle.re_parse.specs.Answers.{Meets, answer_of, emptied};

use crate::error::{MAX_CHARACTERS, TextError};
use crate::first_pass::check_text;
use crate::parser::Parser;
use crate::walk::after_tokens;
use py_text::PyStr;
use re_tree::{TextFlags, TextTree};
use std::alloc::{AllocError, Global};

// The tree of a pattern, where it has one.
fn read(alloc: Global, flags: TextFlags, text: &[char]) -> Result<Option<TextTree>, AllocError>
    ensures { IfOk result (λ tree. option_map text_of tree ≡ read_tree flags text.now) }
{
    match after_tokens(alloc, flags, text, Parser::new(alloc))? {
        None => Ok(None),
        Some(parser) => parser.finish(),
    }
}

// The tree of a pattern by its characters. The first pass finds what is wrong, so that the second
// makes no tree that is deeper than the limit of parentheses lets it be.
fn parse(alloc: Global, text: &[char], flags: TextFlags) -> Result<TextTree, TextError>
    ensures tree { IfOk result (λ tree. ReadsAs text.now flags (text_of tree)) }
    ensures answer { Meets (answer_of flags text.now) (emptied result) }
{
    match check_text(alloc, text, flags) {
        Err(error) => Err(error),
        Ok(()) => match read(alloc, flags, text)? {
            Some(tree) => Ok(tree),
            None => unreachable!(),
        },
    }
}

/// The tree of a pattern that is in the grammar and without a fault. (Python Library Reference,
/// `re`, Regular Expression Syntax.)
///
/// # Errors
///
/// `NoMemory` is free. Of the others the first that applies is answered: `TooLong`, `NotInGrammar`,
/// and then the fault with the least place, and at one place the first in the order of `TextError`.
pub fn parse_text(alloc: Global, text: &PyStr, flags: TextFlags) -> Result<TextTree, TextError>
    ensures tree { IfOk result (λ tree. ReadsAs text.now flags (text_of tree)) }
    ensures answer { Meets (answer_of flags text.now) (emptied result) }
{
    if MAX_CHARACTERS < text.len() {
        return Err(TextError::TooLong);
    }
    match text.to_chars(alloc) {
        Err(_) => Err(TextError::NoMemory),
        Ok(characters) => parse(alloc, &characters, flags),
    }
}

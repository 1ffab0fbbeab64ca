//! From a pattern to code words.

ghost use Rattle.std.specs.Prelude.{◌≡◌, ◌∷◌, ◌++◌, [], IfOk, MatchOption, slice_get, None, Some};
ghost use Rattle.re_parse.specs.Answers.{Meets, answer_of, emptied};
ghost use Rattle.re_tree.specs.PlainText.{names_of, captures};
ghost use Rattle.re_tree.specs.TextView.{text_of};
ghost use Rattle.re_text.specs.Compiled.{IsCompiled};
ghost use Rattle.re_text.specs.Words.{words_of};

use crate::code_end::CodeEnd;
use crate::names::{captures, with_names};
use crate::parts::put_part;
use py_text::PyStr;
use re_parse::{GroupNames, TextError, parse_text};
use re_tree::{TextFlags, TextTree};
use sre_code::opcodes::SUCCESS;
use std::alloc::{AllocError, Global};
use std::marker::Model;

/// The code words of a pattern, how many groups it has, and their names. The words go to
/// `sre_code::decode` as they are.
#[derive(Drop)]
pub struct TextCode {
    words: Vec<u32>,
    groups: usize,
    names: GroupNames,
}

impl Model for TextCode {
    ghost use Rattle.re_text.specs.Compiled.{PlainCode, plain_code_code};

    ghost Value = { PlainCode };

    ghost coded = { plain_code_code };

    ghost view = { λ c. record { words = c.words.items; groups = c.groups; names = c.names } };
}

impl TextCode {
    /// The code words.
    pub fn words(&self) -> &[u32]
        ensures { result.now ≡ self.now.words }
    {
        &self.words
    }

    /// How many groups there are.
    pub fn groups(&self) -> usize
        ensures { result ≡ self.now.groups }
    {
        self.groups
    }

    /// The name and number of a named group, from 0 on in the order of the pattern.
    pub fn name(&self, i: usize) -> Option<(&PyStr, usize)>
        ensures { MatchOption result (slice_get self.now.names i ≡ None)
            (λ named. slice_get self.now.names i ≡ Some (named.0.now, named.1)) }
    {
        self.names.get(i)
    }
}

// The code of a tree.
fn code_of(alloc: Global, tree: &TextTree) -> Result<TextCode, AllocError>
    ensures words { let r = text_of tree.now in
        IfOk result (λ code. code.words ≡ words_of (names_of r) r ++ 1 ∷ []) }
    ensures groups { IfOk result (λ code. code.groups ≡ captures (text_of tree.now)) }
    ensures names { IfOk result (λ code. code.names ≡ names_of (text_of tree.now)) }
{
    let names = with_names(alloc, GroupNames::new(alloc), tree)?;
    let groups = captures(tree)?;
    let mut code = CodeEnd::new(alloc);
    code.put(SUCCESS)?;
    put_part(alloc, &mut code, &names, tree)?;
    Ok(TextCode {
        words: code.into_words(),
        groups,
        names,
    })
}

/// The code of a pattern: it has, at every place of every subject, the outcomes of the pattern's own
/// meaning, in order. (Python Library Reference, `re`, Regular Expression Syntax.)
///
/// # Errors
///
/// `NoMemory` is free. The others are those of `parse_text`.
pub fn compile_text(alloc: Global, text: &PyStr, flags: TextFlags) -> Result<TextCode, TextError>
    ensures code { IfOk result (λ code. IsCompiled text.now flags code) }
    ensures answer { Meets (answer_of flags text.now) (emptied result) }
{
    let tree = parse_text(alloc, text, flags)?;
    match code_of(alloc, &tree) {
        Err(_) => Err(TextError::NoMemory),
        Ok(code) => Ok(code),
    }
}

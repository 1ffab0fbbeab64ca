//! A whole code: a block of information or none, the words of a tree, and a last word `SUCCESS`.

ghost use Rattle.std.specs.Prelude.{◌≡◌, IfOk, List, Option};
ghost use Rattle.py_base.specs.Reading.{read_of, read_as};
ghost use Rattle.sre_code.specs.Decoding as spec;
ghost use Rattle.sre_code.specs.Decoding.Decoder.{Meets};
ghost use Rattle.sre_code.specs.Spelling.{Spells, SpellsNothing};

mod bodies;
mod branches;
mod conditionals;
mod decoder;
mod leaves;
mod nodes;
mod repeats;
mod sets;
mod words;

use crate::checked::Checked;
use crate::decoding::decoder::{Decoder, Read};
use crate::decoding::words::{read_word, read_words};
use crate::error::CodeError;
use crate::opcodes::{INFO, MAXDEPTH, MAXGROUPS, SUCCESS};
use crate::tree::Tree;
use std::alloc::Global;

fn read_info(words: &[u32]) -> Read<()>
    ensures { Meets (spec.read_info words.now) (read_of result) }
{
    match words {
        [INFO, rest @ ..] => {
            let (skip, rest) = read_word(rest)?;
            if skip == 0 {
                return Err(CodeError::InvalidCode);
            }
            let (_block, rest) = read_words(skip as usize - 1, rest)?;
            Ok(((), rest))
        }
        _ => Ok(((), words)),
    }
}

fn is_last(words: &[u32]) -> bool
    ensures { result ≡ spec.is_last words.now }
{
    matches!(words, [SUCCESS])
}

fn read_code(alloc: Global, words: &[u32], groups: usize) -> Result<Tree, CodeError>
    ensures { Meets (spec.read_code groups words.now) result }
{
    if groups > MAXGROUPS {
        return Err(CodeError::InvalidCode);
    }
    let (_info, rest) = read_info(words)?;
    let decoder = Decoder {
        alloc,
        groups,
        levels: MAXDEPTH,
    };
    let (tree, last) = decoder.read_tree(rest)?;
    if !is_last(last) {
        return Err(CodeError::InvalidCode);
    }
    Ok(tree)
}

/// The tree that the words spell, for a pattern with so many groups. `opcodes` has the words.
///
/// # Errors
///
/// `InvalidCode` exactly where the words spell no tree.
pub fn decode(alloc: Global, words: &[u32], groups: usize) -> Result<Checked, CodeError>
    ensures found { IfOk result (λ code. Spells words.now groups code.tree) }
    ensures words { IfOk result (λ code. code.words ≡ words.now) }
    ensures groups { IfOk result (λ code. code.groups ≡ groups) }
    ensures invalid { result ≡ Err CodeError.InvalidCode → SpellsNothing words.now groups }
{
    let tree = read_code(alloc, words, groups)?;
    let words = Vec::from_slice(alloc, words)?;
    Ok(Checked::new(tree, words, groups))
}

//! Whether a pattern is in the grammar and without a fault.

ghost use Rattle.std.specs.Prelude.{◌≡◌, IfOk};
ghost use Rattle.re_parse.specs.Answers.{Meets, answer_of};
ghost use Rattle.re_parse.specs.FirstPass.{first_pass};

use crate::error::{MAX_CHARACTERS, TextError, error_of};
use crate::pass::Pass;
use crate::walk::after_tokens;
use re_tree::{Fault, TextFlags};
use std::alloc::{AllocError, Global};

// What is found in a pattern: nothing where it is not in the grammar, and else its first fault, if
// it has one.
fn pass_over(
    alloc: Global,
    flags: TextFlags,
    text: &[char],
) -> Result<Option<Option<Fault>>, AllocError>
    ensures { IfOk result (λ found. found ≡ first_pass flags text.now) }
{
    match after_tokens(alloc, flags, text, Pass::new(alloc))? {
        None => Ok(None),
        Some(pass) => Ok(pass.finish()),
    }
}

// Whether a pattern is answered, and else the error that is.
pub(crate) fn check_text(alloc: Global, text: &[char], flags: TextFlags) -> Result<(), TextError>
    ensures { Meets (answer_of flags text.now) result }
{
    if MAX_CHARACTERS < text.len() {
        return Err(TextError::TooLong);
    }
    match pass_over(alloc, flags, text)? {
        None => Err(TextError::NotInGrammar),
        Some(None) => Ok(()),
        Some(Some(fault)) => Err(error_of(fault)),
    }
}

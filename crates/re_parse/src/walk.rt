//! Going over the tokens of a pattern, one after another.

ghost use Rattle.std.specs.Prelude.{◌≡◌, Option, length, IfOk};
ghost use Rattle.std.specs.Option.{option_map};
ghost use Rattle.re_tree.specs.Reading.{all_tokens};
ghost use Rattle.re_tree.specs.Tokens as plain;
ghost use Rattle.re_parse.specs.TokenView.{token_of};
ghost use Rattle.re_parse.specs.Walk as spec;

use crate::reading::next_token;
use crate::token::{Lexed, Token};
use re_tree::TextFlags;
use std::alloc::{AllocError, Global};

// What is kept of the tokens so far.
pub(crate) trait Walk: Sized + Drop {
    // What contracts see of it.
    ghost Seen: { Type 0 };

    ghost seen: { Self → Seen };

    // What is kept after one more token, where that may come.
    ghost next: { Seen → plain.Token → Option Seen };

    fn step(self, alloc: Global, token: Token) -> Result<Option<Self>, AllocError>
        ensures { IfOk result (λ made. option_map seen made ≡ next (seen self) (token_of token)) };
}

// What is kept of all tokens of a pattern, where it is made of tokens and each of them may come.
pub(crate) fn after_tokens<W: Walk>(
    alloc: Global,
    flags: TextFlags,
    text: &[char],
    start: W,
) -> Result<Option<W>, AllocError>
    ensures { IfOk result (λ last. option_map W.seen last ≡ spec.after_tokens W.next (W.seen start)
        (all_tokens flags (length text.now) (length text.now) text.now)) }
{
    let mut state = start;
    let mut rest = text;
    'tokens: while !rest.is_empty() {
        let Lexed::Token(token, after) = next_token(alloc, flags, text.len() - rest.len(), rest)?
        else {
            return Ok(None);
        };
        let Some(next) = state.step(alloc, token)? else {
            return Ok(None);
        };
        state = next;
        rest = after;
    }
    Ok(Some(state))
}

//! From tokens to a tree, a token at a time. No function calls itself.

ghost use Rattle.std.specs.Prelude.{◌≡◌, ◌≤◌, [], Some, IfOk};
ghost use Rattle.std.specs.Option.{option_map};
ghost use Rattle.re_tree.specs.Machine as machine;
ghost use Rattle.re_tree.specs.Machine.{state, snoc, step};
ghost use Rattle.re_tree.specs.PlainText.{done};
ghost use Rattle.re_tree.specs.TextView.{text_of};
ghost use Rattle.re_tree.specs.Tokens.{open_token, count_token, reference_token, bar, close};
ghost use Rattle.re_parse.specs.ParserView.{ended_of, last_of, frames_onto, state_of};
ghost use Rattle.re_parse.specs.TokenView.{group_named, opening_of, token_of};

use crate::branches::{Branches, Count};
use crate::frame::Frame;
use crate::parts::{group_id, part};
use crate::token::{GroupName, Opening, Token};
use crate::walk::Walk;
use re_tree::TextTree;
use std::alloc::{AllocError, Global};

// The groups so far, what is open, the innermost last, and what is read inside that.
#[derive(Drop)]
pub(crate) struct Parser {
    groups: usize,
    outer: Vec<Frame<Opening, Branches>>,
    inside: Branches,
}

// How many groups an opening begins.
fn groups_begun(opening: &Opening) -> usize
    ensures value { result ≡ machine.groups_begun (opening_of opening.now) }
    ensures most { result ≤ 1 }
{
    match opening {
        Opening::Capturing(_) => 1,
        Opening::NonCapturing => 0,
        Opening::Atomic => 0,
        Opening::Look { .. } => 0,
        Opening::Conditional(_) => 0,
    }
}

impl Parser {
    // Nothing is read.
    pub(crate) fn new(alloc: Global) -> Parser
        ensures { state_of result ≡ state 0 [] done done }
    {
        Parser {
            groups: 0,
            outer: Vec::new(alloc),
            inside: Branches::new(alloc),
        }
    }

    // With a part of one token.
    fn add(self, part: TextTree) -> Result<Option<Parser>, AllocError>
        ensures { IfOk result (λ next. option_map state_of next ≡ Some (state self.groups
            (frames_onto self.outer.items []) (ended_of self.inside)
            (snoc (last_of self.inside) (text_of part)))) }
    {
        Ok(Some(Parser {
            inside: self.inside.add(part)?,
            ..self
        }))
    }

    fn count(self, alloc: Global, count: Count) -> Result<Option<Parser>, AllocError>
        ensures { IfOk result (λ next. option_map state_of next ≡ step (state_of self)
            (count_token count.at count.least count.most count.mode)) }
    {
        match self.inside.count(alloc, count)? {
            None => Ok(None),
            Some(inside) => Ok(Some(Parser { inside, ..self })),
        }
    }

    fn split(self, alloc: Global) -> Result<Option<Parser>, AllocError>
        ensures { IfOk result (λ next. option_map state_of next ≡ step (state_of self) bar) }
    {
        Ok(Some(Parser {
            inside: self.inside.end_branch(alloc)?,
            ..self
        }))
    }

    fn open(self, alloc: Global, at: usize, opening: Opening) -> Result<Option<Parser>, AllocError>
        ensures { IfOk result (λ next. option_map state_of next ≡
            step (state_of self) (open_token at (opening_of opening))) }
    {
        let Some(number) = self.groups.checked_add(1) else {
            return Err(AllocError);
        };
        let groups = self.groups + groups_begun(&opening);
        let mut outer = self.outer;
        outer.push(Frame {
            at,
            opening,
            number,
            around: self.inside,
        })?;
        Ok(Some(Parser {
            groups,
            outer,
            inside: Branches::new(alloc),
        }))
    }

    fn close(self, alloc: Global) -> Result<Option<Parser>, AllocError>
        ensures { IfOk result (λ next. option_map state_of next ≡ step (state_of self) close) }
    {
        let mut outer = self.outer;
        let Some(frame) = outer.pop() else {
            return Ok(None);
        };
        let made = part(alloc, frame.opening, frame.at, frame.number, self.inside)?;
        let Some(closed) = made else {
            return Ok(None);
        };
        let inside = frame.around.add(closed)?;
        Ok(Some(Parser {
            groups: self.groups,
            outer,
            inside,
        }))
    }

    fn refer(self, at: usize, id: GroupName) -> Result<Option<Parser>, AllocError>
        ensures { IfOk result (λ next. option_map state_of next ≡
            step (state_of self) (reference_token at (group_named id))) }
    {
        self.add(TextTree::Reference {
            at,
            id: group_id(id)?,
        })
    }

    // The tree, where nothing is open.
    pub(crate) fn finish(self) -> Result<Option<TextTree>, AllocError>
        ensures { IfOk result (λ tree. option_map text_of tree ≡
            machine.finish (Some (state_of self))) }
    {
        if !self.outer.is_empty() {
            return Ok(None);
        }
        Ok(Some(self.inside.into_tree()?))
    }
}

impl Walk for Parser {
    ghost use Rattle.re_tree.specs.Machine.{State, step};
    ghost use Rattle.re_parse.specs.ParserView.{state_of};

    ghost Seen = { State };

    ghost seen = { state_of };

    ghost next = { step };

    fn step(self, alloc: Global, token: Token) -> Result<Option<Parser>, AllocError> {
        match token {
            Token::Unit(test) => self.add(TextTree::Unit(test)),
            Token::Anchor(anchor) => self.add(TextTree::Place(anchor)),
            Token::Reference(at, id) => self.refer(at, id),
            Token::Count(at, least, most, mode) => {
                self.count(
                    alloc,
                    Count {
                        at,
                        least,
                        most,
                        mode,
                    },
                )
            }
            Token::Open(at, opening) => self.open(alloc, at, opening),
            Token::Bar => self.split(alloc),
            Token::Close => self.close(alloc),
        }
    }
}

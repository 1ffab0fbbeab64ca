//! The first pass over a pattern, a token at a time. It makes no tree.

ghost use Rattle.std.specs.Prelude.{◌≡◌, true, [], Some, IfOk};
ghost use Rattle.std.specs.Option.{option_map};
ghost use Rattle.re_tree.specs.Faults.{at_count};
ghost use Rattle.re_tree.specs.Tokens.{reference_token, bar};
ghost use Rattle.re_parse.specs.FirstPass.{pass_start, add_piece, open_pass, pass_step, pass_end};
ghost use Rattle.re_parse.specs.FirstPass.{count_last_piece, counted_shape, close_pass};
ghost use Rattle.re_parse.specs.PassView.{onto, pass_in};
ghost use Rattle.re_parse.specs.TokenView.{group_named, opening_of, token_of};

mod ending;
mod noting;

use crate::construct::{Construct, construct_of, look_shape};
use crate::ended_groups::EndedGroups;
use crate::first_fault::note;
use crate::frame::Frame;
use crate::groups::Groups;
use crate::number::Number;
use crate::pass::ending::{Closed, end, end_group};
use crate::shape::{Body, Shape, counted, is_bad_count};
use crate::token::{GroupName, Opening, Token};
use crate::walk::Walk;
use crate::width::Width;
use re_tree::{Fault, FaultKind};
use std::alloc::{AllocError, Global};

// What is kept of the tokens so far.
#[derive(Drop)]
pub(crate) struct Pass {
    groups: Groups,
    ended: EndedGroups,
    // What is open, the innermost last.
    outer: Vec<Frame<Construct, Body>>,
    body: Body,
    first: Option<Fault>,
}

impl Pass {
    // Nothing is read.
    pub(crate) fn new(alloc: Global) -> Pass
        ensures { pass_in result ≡ pass_start }
    {
        Pass {
            groups: Groups::new(alloc),
            ended: EndedGroups::new(alloc),
            outer: Vec::new(alloc),
            body: Body::new(),
            first: None,
        }
    }

    fn add(self, alloc: Global, shape: Shape) -> Result<Option<Pass>, AllocError>
        ensures { IfOk result (λ next. option_map pass_in next ≡
            Some (add_piece (pass_in self) shape)) }
    {
        Ok(Some(Pass {
            body: self.body.add(alloc, shape)?,
            ..self
        }))
    }

    fn refer(self, alloc: Global, at: usize, id: GroupName) -> Result<Option<Pass>, AllocError>
        ensures { IfOk result (λ next. option_map pass_in next ≡
            pass_step (pass_in self) (reference_token at (group_named id))) }
    {
        let first = self.note_reference(at, &id);
        let shape = Shape {
            countable: true,
            width: None,
        };
        Ok(Some(Pass {
            body: self.body.add(alloc, shape)?,
            first,
            ..self
        }))
    }

    fn count(
        self,
        alloc: Global,
        at: usize,
        least: Number,
        most: Option<Number>,
    ) -> Result<Option<Pass>, AllocError>
        ensures { IfOk result (λ next. option_map pass_in next ≡ count_last_piece (pass_in self)
            (at_count at least most) (counted_shape least most self.body.last)) }
    {
        let wrong = is_bad_count(&least, &most);
        let Pass {
            groups,
            ended,
            outer,
            body,
            first,
        } = self;
        let Body {
            ended: branches,
            joined,
            before,
            last,
        } = body;
        let Some(shape) = counted(alloc, &least, &most, last)? else {
            return Ok(None);
        };
        let body = Body {
            ended: branches,
            joined,
            before,
            last: Some(shape),
        };
        Ok(Some(Pass {
            groups,
            ended,
            outer,
            body,
            first: note(first, wrong, at, FaultKind::BadCount),
        }))
    }

    fn split(self, alloc: Global) -> Result<Option<Pass>, AllocError>
        ensures { IfOk result (λ next. option_map pass_in next ≡ pass_step (pass_in self) bar) }
    {
        Ok(Some(Pass {
            body: self.body.end_branch(alloc)?,
            ..self
        }))
    }

    fn open(self, alloc: Global, at: usize, opening: Opening) -> Result<Option<Pass>, AllocError>
        ensures { IfOk result (λ next. option_map pass_in next ≡
            Some (open_pass (pass_in self) at (opening_of opening))) }
    {
        let Some(number) = self.groups.count.checked_add(1) else {
            return Err(AllocError);
        };
        let first = self.note_opening(at, number, &opening);
        let mut outer = self.outer;
        outer.push(Frame {
            at,
            opening: construct_of(&opening),
            number,
            around: self.body,
        })?;
        let groups = self.groups.open(alloc, at, number, opening)?;
        Ok(Some(Pass {
            groups,
            ended: self.ended,
            outer,
            body: Body::new(),
            first,
        }))
    }

    fn close(self, alloc: Global) -> Result<Option<Pass>, AllocError>
        ensures { IfOk result (λ next. option_map pass_in next ≡
            close_pass (pass_in self) (onto self.outer.items [])) }
    {
        let mut outer = self.outer;
        let Some(frame) = outer.pop() else {
            return Ok(None);
        };
        let closed = end(alloc, frame.opening, frame.at, self.body, self.first)?;
        let Closed { shape, first } = closed;
        let Some(shape) = shape else {
            return Ok(None);
        };
        let ended = end_group(self.ended, frame.opening, frame.number)?;
        let body = frame.around.add(alloc, shape)?;
        Ok(Some(Pass {
            groups: self.groups,
            ended,
            outer,
            body,
            first,
        }))
    }

    // What is found at the end: nothing where something is open, and else the first fault.
    #[tactic(auto, using(crate::proofs::PassCodeLemmas::onto_long))]
    pub(crate) fn finish(&self) -> Option<Option<Fault>>
        ensures { result ≡ pass_end (Some (pass_in self.now)) }
    {
        if !self.outer.is_empty() {
            return None;
        }
        Some(self.groups.note_conditionals(self.first))
    }
}

impl Walk for Pass {
    ghost use Rattle.re_parse.specs.FirstPass.{Pass, pass_step};
    ghost use Rattle.re_parse.specs.PassView.{pass_in};

    ghost Seen = { Pass };

    ghost seen = { pass_in };

    ghost next = { pass_step };

    fn step(self, alloc: Global, token: Token) -> Result<Option<Pass>, AllocError> {
        match token {
            Token::Unit(_) => self.add(alloc, unit_shape()),
            Token::Anchor(_) => self.add(alloc, look_shape()),
            Token::Reference(at, id) => self.refer(alloc, at, id),
            Token::Count(at, least, most, _) => self.count(alloc, at, least, most),
            Token::Open(at, opening) => self.open(alloc, at, opening),
            Token::Bar => self.split(alloc),
            Token::Close => self.close(alloc),
        }
    }
}

fn unit_shape() -> Shape
    ensures { result ≡ record { countable = true; width = Some 1 } }
{
    Shape {
        countable: true,
        width: Some(Width::new(1)),
    }
}

//! What parentheses begin, and what it is once it is closed.

ghost use Rattle.std.specs.Prelude.{◌≡◌, false, Some, IfOk};
ghost use Rattle.re_parse.specs.FirstPass as spec;
ghost use Rattle.re_parse.specs.TokenView.{opening_of};

use crate::shape::{Body, Shape};
use crate::token::Opening;
use crate::width::Width;
use std::alloc::{AllocError, Global};

// What an opening begins.
#[derive(Clone, Copy, PartialEq, Eq, Debug)]
pub(crate) enum Construct {
    Capture,
    Group,
    Lookahead,
    Lookbehind,
    Conditional,
}

impl Construct {
    // What an opening with this body is.
    pub(crate) fn close(self, alloc: Global, body: Body) -> Result<Option<Shape>, AllocError>
        ensures { IfOk result (λ shape. shape ≡ spec.closed_shape self body) }
    {
        match self {
            Construct::Capture => Ok(Some(Shape {
                countable: true,
                width: body.width(alloc)?,
            })),
            Construct::Group => Ok(Some(Shape {
                countable: true,
                width: body.width(alloc)?,
            })),
            Construct::Lookahead => Ok(Some(look_shape())),
            Construct::Lookbehind => Ok(Some(look_shape())),
            Construct::Conditional => body.conditional(alloc),
        }
    }
}

// A lookaround passes over nothing, and has no count.
pub(crate) fn look_shape() -> Shape
    ensures { result ≡ record { countable = false; width = Some 0 } }
{
    Shape {
        countable: false,
        width: Some(Width::new(0)),
    }
}

pub(crate) fn construct_of(opening: &Opening) -> Construct
    ensures { result ≡ spec.construct_of (opening_of opening.now) }
{
    match opening {
        Opening::Capturing(_) => Construct::Capture,
        Opening::NonCapturing => Construct::Group,
        Opening::Atomic => Construct::Group,
        Opening::Look { behind: true, .. } => Construct::Lookbehind,
        Opening::Look { behind: false, .. } => Construct::Lookahead,
        Opening::Conditional(_) => Construct::Conditional,
    }
}

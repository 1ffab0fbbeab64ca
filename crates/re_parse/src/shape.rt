//! What is needed of the parts of a pattern to find its faults: their widths, and what may have a
//! count after it.

ghost use Rattle.std.specs.Prelude.{◌≡◌, ◌||◌, nat_lt, IfOk};
ghost use Rattle.re_tree.specs.declared.limits.TheConstants.{MAX_COUNT};
ghost use Rattle.re_tree.specs.Faults as faults;
ghost use Rattle.re_tree.specs.Widths as widths;
ghost use Rattle.re_parse.specs.FirstPass as spec;
ghost use Rattle.re_parse.specs.FirstPass.{no_body};

use crate::number::Number;
use crate::width::Width;
use re_tree::limits::{MAX_COUNT, MAX_WIDTH};
use std::alloc::{AllocError, Global};

// How many branches have ended.
#[derive(Clone, Copy, PartialEq, Eq, Debug)]
pub(crate) enum Ended {
    Zero,
    One,
    More,
}

// What is needed of a part: whether it may have a count, and its width, where it has one.
#[derive(Debug, Drop)]
pub(crate) struct Shape {
    pub(crate) countable: bool,
    pub(crate) width: Option<Width>,
}

// What is needed of branches and pieces: how many branches have ended, their common width, the
// width of the pieces before the last one, and the last one.
#[derive(Debug, Drop)]
pub(crate) struct Body {
    pub(crate) ended: Ended,
    pub(crate) joined: Option<Width>,
    pub(crate) before: Option<Width>,
    pub(crate) last: Option<Shape>,
}

// The width of two parts, one after the other.
pub(crate) fn plus(
    alloc: Global,
    first: Option<Width>,
    second: Option<Width>,
) -> Result<Option<Width>, AllocError>
    ensures { IfOk result (λ width. width ≡ widths.plus first second) }
{
    let Some(first) = first else {
        return Ok(None);
    };
    let Some(second) = second else {
        return Ok(None);
    };
    Ok(Some(first.plus(alloc, second)?))
}

// The one width of both.
pub(crate) fn common(
    alloc: Global,
    one: Option<Width>,
    other: Option<Width>,
) -> Result<Option<Width>, AllocError>
    ensures { IfOk result (λ width. width ≡ widths.common one other) }
{
    let Some(one) = one else {
        return Ok(None);
    };
    let Some(other) = other else {
        return Ok(None);
    };
    if one.is_same(alloc, &other)? {
        Ok(Some(one))
    } else {
        Ok(None)
    }
}

// The width of a part with a count.
fn times(
    alloc: Global,
    least: &Number,
    most: &Option<Number>,
    width: Option<Width>,
) -> Result<Option<Width>, AllocError>
    ensures { IfOk result (λ w. w ≡ widths.times least.now most.now width) }
{
    let Some(most) = most else {
        return Ok(None);
    };
    let Some(width) = width else {
        return Ok(None);
    };
    let least = least.to_width(alloc)?;
    let most = most.to_width(alloc)?;
    if most.is_same(alloc, &least)? {
        Ok(Some(least.times(alloc, width)?))
    } else {
        Ok(None)
    }
}

// Whether a lookbehind may not have this width.
pub(crate) fn is_wide(width: &Option<Width>) -> bool
    ensures { result ≡ faults.is_wide width.now }
{
    match width {
        None => true,
        Some(units) => units.is_past(MAX_WIDTH),
    }
}

// Whether a count is past the greatest one, or its least number above its greatest.
pub(crate) fn is_bad_count(least: &Number, most: &Option<Number>) -> bool
    ensures { result ≡ faults.is_bad_count least.now most.now }
{
    match most {
        None => least.is_past(MAX_COUNT),
        Some(most) => are_bad_bounds(least, most),
    }
}

// Whether one of two bounds is past the greatest count, or the first is above the second.
fn are_bad_bounds(least: &Number, most: &Number) -> bool
    ensures { result ≡ (nat_lt MAX_COUNT least.now || nat_lt MAX_COUNT most.now ||
        nat_lt most.now least.now) }
{
    match least.to_u32() {
        None => true,
        Some(low) => match most.to_u32() {
            None => true,
            Some(high) => low > MAX_COUNT || high > MAX_COUNT || high < low,
        },
    }
}

impl Ended {
    fn next(self) -> Ended
        ensures { result ≡ spec.next self }
    {
        match self {
            Ended::Zero => Ended::One,
            Ended::One => Ended::More,
            Ended::More => Ended::More,
        }
    }
}

fn pieces_width(
    alloc: Global,
    before: Option<Width>,
    last: Option<Shape>,
) -> Result<Option<Width>, AllocError>
    ensures { IfOk result (λ width. width ≡ spec.with_last before last) }
{
    match last {
        None => Ok(before),
        Some(shape) => plus(alloc, before, shape.width),
    }
}

// The last piece under a count, where it may have one.
pub(crate) fn counted(
    alloc: Global,
    least: &Number,
    most: &Option<Number>,
    last: Option<Shape>,
) -> Result<Option<Shape>, AllocError>
    ensures { IfOk result (λ shape. shape ≡ spec.counted_shape least.now most.now last) }
{
    let Some(shape) = last else {
        return Ok(None);
    };
    if !shape.countable {
        return Ok(None);
    }
    Ok(Some(Shape {
        countable: false,
        width: times(alloc, least, most, shape.width)?,
    }))
}

impl Body {
    // Nothing is read.
    pub(crate) fn new() -> Body
        ensures { result ≡ no_body }
    {
        Body {
            ended: Ended::Zero,
            joined: None,
            before: Some(Width::new(0)),
            last: None,
        }
    }

    // The common width of all branches.
    pub(crate) fn width(self, alloc: Global) -> Result<Option<Width>, AllocError>
        ensures { IfOk result (λ width. width ≡ spec.body_width self) }
    {
        let pieces = pieces_width(alloc, self.before, self.last)?;
        match self.ended {
            Ended::Zero => Ok(pieces),
            Ended::One => common(alloc, self.joined, pieces),
            Ended::More => common(alloc, self.joined, pieces),
        }
    }

    pub(crate) fn add(self, alloc: Global, shape: Shape) -> Result<Body, AllocError>
        ensures { IfOk result (λ body. body ≡ spec.add_shape self shape) }
    {
        Ok(Body {
            ended: self.ended,
            joined: self.joined,
            before: pieces_width(alloc, self.before, self.last)?,
            last: Some(shape),
        })
    }

    // The pieces are a branch.
    pub(crate) fn end_branch(self, alloc: Global) -> Result<Body, AllocError>
        ensures { IfOk result (λ body. body ≡ spec.end_branch self) }
    {
        let ended = self.ended.next();
        Ok(Body {
            ended,
            joined: self.width(alloc)?,
            before: Some(Width::new(0)),
            last: None,
        })
    }

    // What a conditional with this body is; it has at most two branches.
    pub(crate) fn conditional(self, alloc: Global) -> Result<Option<Shape>, AllocError>
        ensures { IfOk result (λ shape. shape ≡ spec.conditional_shape self.ended self) }
    {
        let pieces = pieces_width(alloc, self.before, self.last)?;
        let width = match self.ended {
            Ended::Zero => common(alloc, pieces, Some(Width::new(0)))?,
            Ended::One => common(alloc, self.joined, pieces)?,
            Ended::More => return Ok(None),
        };
        Ok(Some(Shape {
            countable: true,
            width,
        }))
    }
}

//! How many units the parts of a tree pass over.

ghost use Rattle.std.specs.Prelude.{◌≡◌, IfOk};
ghost use Rattle.re_tree.specs.Widths as widths;
ghost use Rattle.re_tree.specs.TextView.{text_of, texts_of};
ghost use Rattle.re_parse.specs.Amounts.{width_or_zero};

use crate::shape::{common, plus};
use crate::width::Width;
use re_tree::{TextBody, TextTree};
use std::alloc::{AllocError, Global};

// The sum of the widths of parts.
#[cycle(tree_width)]
#[tactic(auto, using(crate::proofs::TreeWidthLemmas::part_height, crate::proofs::TreeWidthLemmas::sum_more))]
fn sum_of_widths(alloc: Global, parts: &[TextTree]) -> Result<Option<Width>, AllocError>
    ensures { IfOk result (λ width. width ≡ widths.sum_of_widths (texts_of parts.now)) }
{
    let mut sum = Some(Width::new(0));
    for i in (0..parts.len()).rev() {
        sum = plus(alloc, width_of(alloc, &parts[i])?, sum)?;
    }
    Ok(sum)
}

// The one width of all branches.
#[cycle(tree_width)]
#[tactic(auto, using(crate::proofs::TreeWidthLemmas::part_height, crate::proofs::TreeWidthLemmas::common_more, crate::proofs::TreeWidthLemmas::common_last))]
fn common_width(alloc: Global, branches: &[TextTree]) -> Result<Option<Width>, AllocError>
    ensures { IfOk result (λ width. width ≡ widths.common_width (texts_of branches.now)) }
{
    let Some(last) = branches.last() else {
        return Ok(None);
    };
    let mut joined = width_of(alloc, last)?;
    for i in (0..branches.len() - 1).rev() {
        joined = common(alloc, width_of(alloc, &branches[i])?, joined)?;
    }
    Ok(joined)
}

// The width of a part with a count.
fn exact_times(
    alloc: Global,
    least: u32,
    most: Option<u32>,
    width: Option<Width>,
) -> Result<Option<Width>, AllocError>
    ensures { IfOk result (λ w. w ≡ widths.times least most width) }
{
    let Some(most) = most else {
        return Ok(None);
    };
    let Some(width) = width else {
        return Ok(None);
    };
    if most != least {
        return Ok(None);
    }
    Ok(Some(Width::new(u64::from(least)).times(alloc, width)?))
}

// The width of a body, or 0 where there is none.
#[cycle(tree_width)]
fn width_or_zero(alloc: Global, body: &Option<TextBody>) -> Result<Option<Width>, AllocError>
    ensures { IfOk result (λ width. width ≡ width_or_zero body.now) }
{
    match body {
        None => Ok(Some(Width::new(0))),
        Some(body) => width_of(alloc, body.get()),
    }
}

// The width of a part.
#[cycle(tree_width)]
fn width_of(alloc: Global, tree: &TextTree) -> Result<Option<Width>, AllocError>
    ensures { IfOk result (λ width. width ≡ widths.width (text_of tree.now)) }
{
    match tree {
        TextTree::Unit(_) => Ok(Some(Width::new(1))),
        TextTree::Place(_) | TextTree::Look { .. } => Ok(Some(Width::new(0))),
        TextTree::Reference { .. } => Ok(None),
        TextTree::Conditional { yes, no, .. } => {
            let met = width_of(alloc, yes.get())?;
            common(alloc, met, width_or_zero(alloc, no)?)
        }
        TextTree::Sequence(parts) => sum_of_widths(alloc, parts.as_slice()),
        TextTree::Alternation(branches) => common_width(alloc, branches.as_slice()),
        TextTree::Counted {
            least,
            most,
            body,
            ..
        } => { exact_times(alloc, *least, *most, width_of(alloc, body.get())?) }
        TextTree::Capture { body, .. } => width_of(alloc, body.get()),
        TextTree::Plain { body, .. } => width_of(alloc, body.get()),
        TextTree::Atomic { body, .. } => width_of(alloc, body.get()),
    }
}

/// The width of a part in units, where it has one. A width that 32 bits do not hold is out of
/// memory: no word of a code has it.
pub fn short_width(alloc: Global, tree: &TextTree) -> Result<Option<u32>, AllocError>
    ensures { IfOk result (λ width. width ≡ widths.width (text_of tree.now)) }
{
    let Some(width) = width_of(alloc, tree)? else {
        return Ok(None);
    };
    match width.to_u32() {
        None => Err(AllocError),
        Some(units) => Ok(Some(units)),
    }
}

//! The branches of a body that is being read.

ghost use Rattle.std.specs.Prelude.{◌≡◌, IfOk, IfSome};
ghost use Rattle.std.specs.Option.{option_map};
ghost use Rattle.re_tree.specs.Grammar as grammar;
ghost use Rattle.re_tree.specs.Machine.{snoc, count_last, regex_of, part_of};
ghost use Rattle.re_tree.specs.PlainText.{counted, sequence, done};
ghost use Rattle.re_tree.specs.TextView.{text_of, texts_of, group_of};
ghost use Rattle.re_tree.specs.Tokens.{conditional_opening};
ghost use Rattle.re_parse.specs.ParserView.{ended_of, last_of};

use crate::number::Number;
use re_tree::{CountMode, GroupId, TextBody, TextParts, TextTree};
use std::alloc::{AllocError, Global};

#[derive(Debug, Drop)]
pub(crate) struct Count {
    pub(crate) at: usize,
    pub(crate) least: Number,
    pub(crate) most: Option<Number>,
    pub(crate) mode: CountMode,
}

// The branches that have ended, and the pieces of the last one.
#[derive(Debug, Drop)]
pub(crate) struct Branches {
    ended: Vec<TextTree>,
    last: Vec<TextTree>,
}

#[tactic(auto, using(crate::proofs::BranchLemmas::texts_push))]
fn push(parts: Vec<TextTree>, part: TextTree) -> Result<Vec<TextTree>, AllocError>
    ensures { IfOk result (λ more.
        texts_of more.items ≡ snoc (texts_of parts.items) (text_of part)) }
{
    let mut more = parts;
    more.push(part)?;
    Ok(more)
}

// A branch of these pieces.
fn branch(pieces: Vec<TextTree>) -> TextTree
    ensures { text_of result ≡ sequence (texts_of pieces.items) }
{
    TextTree::Sequence(TextParts::from_vec(pieces))
}

// Whether a part may have a count after it.
fn is_countable(part: &TextTree) -> bool
    ensures { result ≡ grammar.is_countable (text_of part.now) }
{
    match part {
        TextTree::Unit(_) => true,
        TextTree::Reference { .. } => true,
        TextTree::Conditional { no: None, .. } => true,
        TextTree::Conditional { no: Some(_), .. } => true,
        TextTree::Capture { .. } => true,
        TextTree::Plain { .. } => true,
        TextTree::Atomic { .. } => true,
        TextTree::Place(_) => false,
        TextTree::Sequence(_) => false,
        TextTree::Alternation(_) => false,
        TextTree::Counted { .. } => false,
        TextTree::Look { .. } => false,
    }
}

// A number as a tree keeps it. A pattern without a fault has no other.
fn small(number: &Number) -> Result<u32, AllocError>
    ensures { IfOk result (λ n. n ≡ number.now) }
{
    match number.to_u32() {
        None => Err(AllocError),
        Some(n) => Ok(n),
    }
}

fn small_most(most: &Option<Number>) -> Result<Option<u32>, AllocError>
    ensures { IfOk result (λ n. n ≡ most.now) }
{
    match most {
        None => Ok(None),
        Some(most) => Ok(Some(small(most)?)),
    }
}

fn counted_part(alloc: Global, count: &Count, part: TextTree) -> Result<TextTree, AllocError>
    ensures { IfOk result (λ made. text_of made ≡
        counted count.now.at count.now.least count.now.most count.now.mode (text_of part)) }
{
    Ok(TextTree::Counted {
        at: count.at,
        least: small(&count.least)?,
        most: small_most(&count.most)?,
        mode: count.mode,
        body: TextBody::new(alloc, part)?,
    })
}

// Parts of which the last is under a count, where it may have one.
fn count_last_part(
    alloc: Global,
    count: &Count,
    parts: Vec<TextTree>,
) -> Result<Option<Vec<TextTree>>, AllocError>
    ensures { IfOk result (λ made. option_map (λ more. texts_of more.items) made ≡ count_last
        (counted count.now.at count.now.least count.now.most count.now.mode)
        (texts_of parts.items)) }
{
    let mut before = parts;
    let Some(last) = before.pop() else {
        return Ok(None);
    };
    if !is_countable(&last) {
        return Ok(None);
    }
    Ok(Some(push(before, counted_part(alloc, count, last)?)?))
}

impl Branches {
    // Nothing is read.
    pub(crate) fn new(alloc: Global) -> Branches
        ensures ended { ended_of result ≡ done }
        ensures last { last_of result ≡ done }
    {
        Branches {
            ended: Vec::new(alloc),
            last: Vec::new(alloc),
        }
    }

    pub(crate) fn add(self, piece: TextTree) -> Result<Branches, AllocError>
        ensures ended { IfOk result (λ more. ended_of more ≡ ended_of self) }
        ensures last { IfOk result (λ more. last_of more ≡ snoc (last_of self) (text_of piece)) }
    {
        Ok(Branches {
            ended: self.ended,
            last: push(self.last, piece)?,
        })
    }

    // With a count after the last piece, where it may have one.
    pub(crate) fn count(self, alloc: Global, count: Count) -> Result<Option<Branches>, AllocError>
        ensures ended { IfOk result (λ made. IfSome made (λ more. ended_of more ≡ ended_of self)) }
        ensures last { IfOk result (λ made. option_map last_of made ≡ count_last
            (counted count.at count.least count.most count.mode) (last_of self)) }
    {
        match count_last_part(alloc, &count, self.last)? {
            None => Ok(None),
            Some(last) => Ok(Some(Branches {
                ended: self.ended,
                last,
            })),
        }
    }

    // The pieces are a branch.
    pub(crate) fn end_branch(self, alloc: Global) -> Result<Branches, AllocError>
        ensures ended { IfOk result (λ more.
            ended_of more ≡ snoc (ended_of self) (sequence (last_of self))) }
        ensures last { IfOk result (λ more. last_of more ≡ done) }
    {
        Ok(Branches {
            ended: push(self.ended, branch(self.last))?,
            last: Vec::new(alloc),
        })
    }

    // What they are together: the one branch, or an alternation.
    pub(crate) fn into_tree(self) -> Result<TextTree, AllocError>
        ensures { IfOk result (λ tree. text_of tree ≡ regex_of (ended_of self) (last_of self)) }
    {
        let last = branch(self.last);
        if self.ended.is_empty() {
            return Ok(last);
        }
        Ok(TextTree::Alternation(TextParts::from_vec(push(self.ended, last)?)))
    }

    // A conditional with these branches, of which it has at most two.
    pub(crate) fn into_conditional(
        self,
        alloc: Global,
        at: usize,
        id: GroupId,
    ) -> Result<Option<TextTree>, AllocError>
        ensures { IfOk result (λ tree. option_map text_of tree ≡ part_of
            (conditional_opening (group_of id)) at 0 (ended_of self) (last_of self)) }
    {
        let last = TextBody::new(alloc, branch(self.last))?;
        let mut before = self.ended;
        let Some(first) = before.pop() else {
            return Ok(Some(TextTree::Conditional {
                at,
                id,
                yes: last,
                no: None,
            }));
        };
        if !before.is_empty() {
            return Ok(None);
        }
        Ok(Some(TextTree::Conditional {
            at,
            id,
            yes: TextBody::new(alloc, first)?,
            no: Some(last),
        }))
    }
}

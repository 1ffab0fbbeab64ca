//! The groups of a pattern: their names, and how many there are.

ghost use Rattle.std.specs.Prelude.{◌≡◌, ◌+◌, ◌++◌, IfOk};
ghost use Rattle.re_tree.specs.PlainText.{names_of, all_names, name_of, captures, all_captures};
ghost use Rattle.re_tree.specs.TextView.{text_of, texts_of};
ghost use Rattle.re_text.specs.Compiled.{names_in_either, captures_or_zero};

use py_text::PyStr;
use re_parse::GroupNames;
use re_tree::{TextBody, TextTree};
use std::alloc::{AllocError, Global};

// With a name more, where there is one.
fn with_name(
    alloc: Global,
    names: GroupNames,
    name: &Option<PyStr>,
    number: usize,
) -> Result<GroupNames, AllocError>
    ensures { IfOk result (λ longer. longer ≡ names ++ name_of name.now number) }
{
    let Some(name) = name else {
        return Ok(names);
    };
    match name.try_clone(alloc) {
        Err(_) => Err(AllocError),
        Ok(name) => names.push(alloc, name, number),
    }
}

// With the names in parts.
#[cycle(with_names)]
#[tactic(auto, using(crate::proofs::WordLemmas::part_height, crate::proofs::WordLemmas::names_more))]
fn with_names_in(
    alloc: Global,
    names: GroupNames,
    parts: &[TextTree],
) -> Result<GroupNames, AllocError>
    ensures { IfOk result (λ longer. longer ≡ names ++ all_names (texts_of parts.now)) }
{
    let mut longer = names;
    for i in 0..parts.len() {
        longer = with_names(alloc, longer, &parts[i])?;
    }
    Ok(longer)
}

// With the names in a body, where there is one.
#[cycle(with_names)]
#[tactic(auto, using(crate::proofs::WordLemmas::names_then))]
fn with_names_in_either(
    alloc: Global,
    names: GroupNames,
    yes: &TextBody,
    no: &Option<TextBody>,
) -> Result<GroupNames, AllocError>
    ensures { IfOk result (λ longer. longer ≡ names ++ names_in_either yes.now no.now) }
{
    let longer = with_names(alloc, names, yes.get())?;
    match no {
        None => Ok(longer),
        Some(no) => with_names(alloc, longer, no.get()),
    }
}

/// These names and the named groups of a part, in the order of the pattern.
#[cycle(with_names)]
#[tactic(auto, using(crate::proofs::WordLemmas::names_then))]
pub(crate) fn with_names(
    alloc: Global,
    names: GroupNames,
    tree: &TextTree,
) -> Result<GroupNames, AllocError>
    ensures { IfOk result (λ longer. longer ≡ names ++ names_of (text_of tree.now)) }
{
    match tree {
        TextTree::Unit(_) | TextTree::Place(_) | TextTree::Reference { .. } => Ok(names),
        TextTree::Conditional { yes, no, .. } => with_names_in_either(alloc, names, yes, no),
        TextTree::Sequence(parts) | TextTree::Alternation(parts) => {
            with_names_in(alloc, names, parts.as_slice())
        }
        TextTree::Capture {
            number,
            name,
            body,
            ..
        } => {
            let longer = with_name(alloc, names, name, *number)?;
            with_names(alloc, longer, body.get())
        }
        TextTree::Counted { body, .. } => with_names(alloc, names, body.get()),
        TextTree::Plain { body, .. } => with_names(alloc, names, body.get()),
        TextTree::Atomic { body, .. } => with_names(alloc, names, body.get()),
        TextTree::Look { body, .. } => with_names(alloc, names, body.get()),
    }
}

// A number more; past the greatest one it is out of memory, which so many groups are.
fn sum(a: usize, b: usize) -> Result<usize, AllocError>
    ensures { IfOk result (λ n. n ≡ a + b) }
{
    match a.checked_add(b) {
        None => Err(AllocError),
        Some(n) => Ok(n),
    }
}

// How many groups parts capture.
#[cycle(captures)]
#[tactic(auto, using(crate::proofs::WordLemmas::part_height))]
fn captures_in(parts: &[TextTree]) -> Result<usize, AllocError>
    ensures { IfOk result (λ n. n ≡ all_captures (texts_of parts.now)) }
{
    let mut n = 0usize;
    for i in (0..parts.len()).rev() {
        n = sum(captures(&parts[i])?, n)?;
    }
    Ok(n)
}

// How many groups a body captures, where there is one.
#[cycle(captures)]
fn captures_or_zero(body: &Option<TextBody>) -> Result<usize, AllocError>
    ensures { IfOk result (λ n. n ≡ captures_or_zero body.now) }
{
    match body {
        None => Ok(0),
        Some(body) => captures(body.get()),
    }
}

/// How many groups a part captures.
#[cycle(captures)]
pub(crate) fn captures(tree: &TextTree) -> Result<usize, AllocError>
    ensures { IfOk result (λ n. n ≡ captures (text_of tree.now)) }
{
    match tree {
        TextTree::Unit(_) | TextTree::Place(_) | TextTree::Reference { .. } => Ok(0),
        TextTree::Conditional { yes, no, .. } => {
            sum(captures(yes.get())?, captures_or_zero(no)?)
        }
        TextTree::Sequence(parts) | TextTree::Alternation(parts) => captures_in(parts.as_slice()),
        TextTree::Capture { body, .. } => sum(captures(body.get())?, 1),
        TextTree::Counted { body, .. } => captures(body.get()),
        TextTree::Plain { body, .. } => captures(body.get()),
        TextTree::Atomic { body, .. } => captures(body.get()),
        TextTree::Look { body, .. } => captures(body.get()),
    }
}

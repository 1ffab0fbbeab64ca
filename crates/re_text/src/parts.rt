//! The words of the parts of a pattern, put before those of what comes after.

ghost use Rattle.std.specs.Prelude.{◌≡◌, ◌+◌, ◌-◌, ◌≤◌, ◌∷◌, ◌++◌, length, OnOk, IfOk};
ghost use Rattle.sre_code.specs.PlainTree as plain;
ghost use Rattle.sre_code.specs.Spelling.{node_words, repeat_word, until_word, look_word};
ghost use Rattle.sre_code.specs.declared.opcodes.TheConstants.{JUMP as jump};
ghost use Rattle.re_tree.specs.PlainText.{number_of};
ghost use Rattle.re_tree.specs.TextView.{text_of, texts_of, group_of};
ghost use Rattle.re_tree.specs.Widths.{width};
ghost use Rattle.re_text.specs.Trees.{is_one_unit, kind_of_mode, back_of, greatest, tree_of_text, trees_of_branches};
ghost use Rattle.re_text.specs.Words.{words_of, words_of_parts, either, no_alternative, alternative, alternatives};

use crate::code_end::CodeEnd;
use crate::units::put_test;
use re_parse::{GroupNames, short_width};
use re_tree::{CountMode, GroupId, TextBody, TextTree};
use sre_code::opcodes::{
    ASSERT, ASSERT_NOT, AT, ATOMIC_GROUP, BRANCH, FAILURE, GROUPREF, GROUPREF_EXISTS, JUMP, MARK,
    MAX_UNTIL, MAXREPEAT, MIN_REPEAT_ONE, MIN_UNTIL, POSSESSIVE_REPEAT, POSSESSIVE_REPEAT_ONE,
    REPEAT, REPEAT_ONE, SUCCESS,
};
use std::alloc::{AllocError, Global};

// The number of a group by its number or its name, or 0 where no group has the name.
fn number_of(names: &GroupNames, id: &GroupId) -> usize
    ensures { result ≡ number_of names.now (group_of id.now) }
{
    match id {
        GroupId::Number(number) => *number,
        GroupId::Name(name) => names.find(name),
    }
}

// Whether the body of a count is one unit, whatever the unit is.
fn is_one_unit(tree: &TextTree) -> bool
    ensures { result ≡ is_one_unit (text_of tree.now) }
{
    match tree {
        TextTree::Unit(_) => true,
        TextTree::Plain { body, .. } => is_one_unit(body.get()),
        _ => false,
    }
}

// The first word of a repeat.
fn repeat_word(mode: CountMode, is_one_unit: bool) -> u32
    ensures { result ≡ repeat_word (kind_of_mode mode) is_one_unit }
{
    match (mode, is_one_unit) {
        (CountMode::Greedy, true) => REPEAT_ONE,
        (CountMode::Lazy, true) => MIN_REPEAT_ONE,
        (CountMode::Possessive, true) => POSSESSIVE_REPEAT_ONE,
        (CountMode::Possessive, false) => POSSESSIVE_REPEAT,
        (_, false) => REPEAT,
    }
}

// The word after the body of a repeat.
fn until_word(mode: CountMode, is_one_unit: bool) -> u32
    ensures { result ≡ until_word (kind_of_mode mode) is_one_unit }
{
    match (mode, is_one_unit) {
        (CountMode::Greedy, false) => MAX_UNTIL,
        (CountMode::Lazy, false) => MIN_UNTIL,
        _ => SUCCESS,
    }
}

// How often a part is repeated, and how it goes on.
#[derive(Clone, Copy)]
struct Count {
    least: u32,
    most: Option<u32>,
    mode: CountMode,
}

// An anchor.
fn put_anchor(code: &mut CodeEnd, anchor: u32) -> Result<(), AllocError>
    ensures { OnOk result (code.new ≡ node_words (plain.at anchor) ++ code.old) }
{
    code.put(anchor)?;
    code.put(AT)
}

// A back reference.
fn put_reference(code: &mut CodeEnd, number: usize) -> Result<(), AllocError>
    ensures { OnOk result (code.new ≡ node_words (plain.ref number) ++ code.old) }
{
    code.put_number(number.saturating_sub(1))?;
    code.put(GROUPREF)
}

// A group whose span is captured.
#[cycle(put_part)]
#[tactic(auto, using(crate::proofs::WordLemmas::capture_words))]
fn put_capture(
    alloc: Global,
    code: &mut CodeEnd,
    names: &GroupNames,
    number: usize,
    body: &TextBody,
) -> Result<(), AllocError>
    ensures { let node = plain.group number (tree_of_text names.now body.now) in
        OnOk result (code.new ≡ node_words node ++ code.old) }
{
    let Some(mark) = number.saturating_sub(1).checked_mul(2) else {
        return Err(AllocError);
    };
    let Some(end) = mark.checked_add(1) else {
        return Err(AllocError);
    };
    code.put_number(end)?;
    code.put(MARK)?;
    put_part(alloc, code, names, body.get())?;
    code.put_number(mark)?;
    code.put(MARK)
}

// A conditional with its first branch alone.
#[cycle(put_part)]
#[tactic(auto, using(crate::proofs::WordLemmas::conditional_words))]
fn put_conditional(
    alloc: Global,
    code: &mut CodeEnd,
    names: &GroupNames,
    number: usize,
    yes: &TextBody,
) -> Result<(), AllocError>
    ensures { let node = plain.exists number (tree_of_text names.now yes.now) in
        OnOk result (code.new ≡ node_words node ++ code.old) }
{
    let before = code.len();
    put_part(alloc, code, names, yes.get())?;
    code.put_skip(before, 2)?;
    code.put_number(number.saturating_sub(1))?;
    code.put(GROUPREF_EXISTS)
}

// The second branch of a conditional, with the jump past it.
#[cycle(put_part)]
#[tactic(auto, using(crate::proofs::WordLemmas::other_words))]
fn put_other(
    alloc: Global,
    code: &mut CodeEnd,
    names: &GroupNames,
    no: &TextBody,
) -> Result<(), AllocError>
    ensures { let words = words_of names.now no.now in
        OnOk result (code.new ≡ jump ∷ (length words + 1) ∷ (words ++ code.old)) }
{
    let before = code.len();
    put_part(alloc, code, names, no.get())?;
    code.put_skip(before, 1)?;
    code.put(JUMP)
}

// A conditional with both branches.
#[cycle(put_part)]
#[tactic(auto, using(crate::proofs::WordLemmas::conditional_else_words))]
fn put_conditional_else(
    alloc: Global,
    code: &mut CodeEnd,
    names: &GroupNames,
    number: usize,
    yes: &TextBody,
    no: &TextBody,
) -> Result<(), AllocError>
    ensures { let first = tree_of_text names.now yes.now in
        let node = plain.exists_else number first (tree_of_text names.now no.now) in
        OnOk result (code.new ≡ node_words node ++ code.old) }
{
    put_other(alloc, code, names, no)?;
    let before = code.len();
    put_part(alloc, code, names, yes.get())?;
    code.put_skip(before, 4)?;
    code.put_number(number.saturating_sub(1))?;
    code.put(GROUPREF_EXISTS)
}

// A conditional.
#[cycle(put_part)]
fn put_either(
    alloc: Global,
    code: &mut CodeEnd,
    names: &GroupNames,
    number: usize,
    yes: &TextBody,
    no: &Option<TextBody>,
) -> Result<(), AllocError>
    ensures { let node = either number names.now yes.now no.now in
        OnOk result (code.new ≡ node_words node ++ code.old) }
{
    match no {
        None => put_conditional(alloc, code, names, number, yes),
        Some(no) => put_conditional_else(alloc, code, names, number, yes, no),
    }
}

// A count: its mode, its least and greatest number, and its body.
#[cycle(put_part)]
#[tactic(auto, using(crate::proofs::WordLemmas::counted_words))]
fn put_counted(
    alloc: Global,
    code: &mut CodeEnd,
    names: &GroupNames,
    count: Count,
    body: &TextBody,
) -> Result<(), AllocError>
    ensures { let kind = kind_of_mode count.mode in
        let one_wide = is_one_unit body.now in
        let tree = tree_of_text names.now body.now in
        let node = plain.repeat kind one_wide count.least (greatest count.most) tree in
        OnOk result (code.new ≡ node_words node ++ code.old) }
{
    let one_wide = is_one_unit(body.get());
    code.put(until_word(count.mode, one_wide))?;
    let before = code.len();
    put_part(alloc, code, names, body.get())?;
    code.put(count.most.unwrap_or(MAXREPEAT))?;
    code.put(count.least)?;
    code.put_skip(before, if one_wide { 2 } else { 1 })?;
    code.put(repeat_word(count.mode, one_wide))
}

// An atomic group.
#[cycle(put_part)]
#[tactic(auto, using(crate::proofs::WordLemmas::atomic_words))]
fn put_atomic(
    alloc: Global,
    code: &mut CodeEnd,
    names: &GroupNames,
    body: &TextBody,
) -> Result<(), AllocError>
    ensures { let node = plain.atomic (tree_of_text names.now body.now) in
        OnOk result (code.new ≡ node_words node ++ code.old) }
{
    code.put(SUCCESS)?;
    let before = code.len();
    put_part(alloc, code, names, body.get())?;
    code.put_skip(before, 2)?;
    code.put(ATOMIC_GROUP)
}

// How many units a lookaround steps back.
fn units_back(alloc: Global, back: bool, body: &TextBody) -> Result<u32, AllocError>
    ensures { IfOk result (λ units. units ≡ back_of back (width body.now)) }
{
    if !back {
        return Ok(0);
    }
    match short_width(alloc, body.get())? {
        None => Ok(0),
        Some(units) => Ok(units),
    }
}

// A lookahead or lookbehind.
#[cycle(put_part)]
#[tactic(auto, using(crate::proofs::WordLemmas::look_words))]
fn put_look(
    alloc: Global,
    code: &mut CodeEnd,
    names: &GroupNames,
    positive: bool,
    units: u32,
    body: &TextBody,
) -> Result<(), AllocError>
    ensures { let node = plain.look positive units (tree_of_text names.now body.now) in
        OnOk result (code.new ≡ node_words node ++ code.old) }
{
    code.put(SUCCESS)?;
    let before = code.len();
    put_part(alloc, code, names, body.get())?;
    code.put(units)?;
    code.put_skip(before, 2)?;
    code.put(if positive { ASSERT } else { ASSERT_NOT })
}

// One alternative, with a skip to the next one, and a jump past those after it; `end` is how many
// words come after the branch.
#[cycle(put_part)]
#[tactic(auto, using(crate::proofs::WordLemmas::alternative_words))]
fn put_alternative(
    alloc: Global,
    code: &mut CodeEnd,
    names: &GroupNames,
    end: usize,
    branch: &TextTree,
) -> Result<(), AllocError>
    requires { end ≤ length code.old }
    ensures { let body = words_of names.now (text_of branch.now) in
        OnOk result (code.new ≡ alternative body (length code.old - end) ++ code.old) }
{
    code.put_skip(end, 1)?;
    code.put(JUMP)?;
    let before = code.len();
    put_part(alloc, code, names, branch)?;
    code.put_skip(before, 3)
}

// Alternatives, of which the last jumps past one FAILURE.
#[cycle(put_part)]
#[tactic(auto, using(crate::proofs::WordLemmas::part_height, crate::proofs::WordLemmas::end_within, crate::proofs::WordLemmas::alternatives_more))]
fn put_alternatives(
    alloc: Global,
    code: &mut CodeEnd,
    names: &GroupNames,
    branches: &[TextTree],
) -> Result<(), AllocError>
    ensures { let words = alternatives names.now (texts_of branches.now) in
        OnOk result (code.new ≡ words ++ code.old) }
{
    let end = code.len();
    code.put(FAILURE)?;
    for i in (0..branches.len()).rev() {
        put_alternative(alloc, code, names, end, &branches[i])?;
    }
    Ok(())
}

// A branch.
#[cycle(put_part)]
#[tactic(auto, using(crate::proofs::WordLemmas::branch_words, crate::proofs::WordLemmas::branch_none))]
fn put_branch(
    alloc: Global,
    code: &mut CodeEnd,
    names: &GroupNames,
    branches: &[TextTree],
) -> Result<(), AllocError>
    ensures { let node = plain.branch (trees_of_branches names.now (texts_of branches.now)) in
        OnOk result (code.new ≡ node_words node ++ code.old) }
{
    if branches.is_empty() {
        return put_no_alternative(code);
    }
    put_alternatives(alloc, code, names, branches)?;
    code.put(BRANCH)
}

// A branch without an alternative, which no pattern has: nothing passes.
fn put_no_alternative(code: &mut CodeEnd) -> Result<(), AllocError>
    ensures { OnOk result (code.new ≡ node_words (plain.branch no_alternative) ++ code.old) }
{
    code.put(FAILURE)?;
    code.put(2)?;
    code.put(JUMP)?;
    code.put(FAILURE)?;
    code.put(4)?;
    code.put(BRANCH)
}

// Parts one after another.
#[cycle(put_part)]
#[tactic(auto, using(crate::proofs::WordLemmas::part_height, crate::proofs::WordLemmas::parts_more))]
fn put_parts(
    alloc: Global,
    code: &mut CodeEnd,
    names: &GroupNames,
    parts: &[TextTree],
) -> Result<(), AllocError>
    ensures { let words = words_of_parts names.now (texts_of parts.now) in
        OnOk result (code.new ≡ words ++ code.old) }
{
    for i in (0..parts.len()).rev() {
        put_part(alloc, code, names, &parts[i])?;
    }
    Ok(())
}

/// Puts the words of a part before the others.
#[cycle(put_part)]
#[tactic(auto, using(crate::proofs::WordLemmas::one_node))]
pub(crate) fn put_part(
    alloc: Global,
    code: &mut CodeEnd,
    names: &GroupNames,
    tree: &TextTree,
) -> Result<(), AllocError>
    ensures { let words = words_of names.now (text_of tree.now) in
        OnOk result (code.new ≡ words ++ code.old) }
{
    match tree {
        TextTree::Unit(test) => put_test(code, test),
        TextTree::Place(anchor) => put_anchor(code, *anchor),
        TextTree::Reference { id, .. } => put_reference(code, number_of(names, id)),
        TextTree::Conditional { id, yes, no, .. } => {
            put_either(alloc, code, names, number_of(names, id), yes, no)
        }
        TextTree::Sequence(parts) => put_parts(alloc, code, names, parts.as_slice()),
        TextTree::Alternation(branches) => put_branch(alloc, code, names, branches.as_slice()),
        TextTree::Counted {
            least,
            most,
            mode,
            body,
            ..
        } => {
            let count = Count {
                least: *least,
                most: *most,
                mode: *mode,
            };
            put_counted(alloc, code, names, count, body)
        }
        TextTree::Capture { number, body, .. } => put_capture(alloc, code, names, *number, body),
        TextTree::Plain { body, .. } => put_part(alloc, code, names, body.get()),
        TextTree::Atomic { body, .. } => put_atomic(alloc, code, names, body),
        TextTree::Look {
            positive,
            back,
            body,
            ..
        } => {
            let units = units_back(alloc, *back, body)?;
            put_look(alloc, code, names, *positive, units, body)
        }
    }
}

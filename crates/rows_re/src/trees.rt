//! Trees of patterns.

use py_base::PyResult;
use py_text::PyStr;
use re_parse::parse_text;
use re_tree::{CountMode, GroupId, TextBody, TextFlags, TextTree, UnitTest};
use std::alloc::Global;

const FLAGS: TextFlags = TextFlags {
    ascii: false,
    multiline: false,
    dotall: false,
};

// What a part is, its place, and its number: the code point of a literal, the least count, or the
// number of a group.
#[derive(Clone, Copy, PartialEq, Eq, Debug)]
enum Part {
    Literal(char),
    Set(usize),
    Anchor(u32),
    ByNumber(usize, usize),
    ByName(usize),
    Conditional(usize, bool),
    Sequence(usize),
    Alternation(usize),
    Counted(usize, u32, Option<u32>, CountMode),
    Capture(usize, usize, bool),
    Plain(usize),
    Atomic(usize),
    Look(usize, bool, bool),
    Other,
}

fn unit(test: &UnitTest) -> Part {
    match test {
        UnitTest::Literal(c) => Part::Literal(*c),
        UnitTest::Set(_, items) => Part::Set(items.len()),
        _ => Part::Other,
    }
}

fn reference(at: usize, id: &GroupId) -> Part {
    match id {
        GroupId::Number(number) => Part::ByNumber(at, *number),
        GroupId::Name(_) => Part::ByName(at),
    }
}

fn part_of(tree: &TextTree) -> Part {
    match tree {
        TextTree::Unit(test) => unit(test),
        TextTree::Place(anchor) => Part::Anchor(*anchor),
        TextTree::Reference { at, id } => reference(*at, id),
        TextTree::Conditional { at, no, .. } => Part::Conditional(*at, no.is_some()),
        TextTree::Sequence(parts) => Part::Sequence(parts.len()),
        TextTree::Alternation(parts) => Part::Alternation(parts.len()),
        TextTree::Counted {
            at,
            least,
            most,
            mode,
            ..
        } => Part::Counted(*at, *least, *most, *mode),
        TextTree::Capture {
            at,
            number,
            name,
            ..
        } => Part::Capture(*at, *number, name.is_some()),
        TextTree::Plain { at, .. } => Part::Plain(*at),
        TextTree::Atomic { at, .. } => Part::Atomic(*at),
        TextTree::Look {
            at,
            positive,
            back,
            ..
        } => Part::Look(*at, *positive, *back),
    }
}

// The body of a part, where it has one.
fn body(tree: &TextTree) -> Option<&TextBody> {
    match tree {
        TextTree::Conditional { yes, .. } => Some(yes),
        TextTree::Counted { body, .. } => Some(body),
        TextTree::Capture { body, .. } => Some(body),
        TextTree::Plain { body, .. } => Some(body),
        TextTree::Atomic { body, .. } => Some(body),
        TextTree::Look { body, .. } => Some(body),
        _ => None,
    }
}

// The parts of a branch, or the branches.
fn parts(tree: &TextTree) -> &[TextTree] {
    match tree {
        TextTree::Sequence(parts) => parts.as_slice(),
        TextTree::Alternation(parts) => parts.as_slice(),
        _ => &[],
    }
}

// A tree layer by layer: the tree, then its parts and the bodies of parts, and so on.
fn layers(alloc: Global, text: &str) -> PyResult<Vec<Part>> {
    let text = PyStr::copy_of(alloc, text)?;
    let mut all = Vec::new(alloc);
    let Ok(tree) = parse_text(alloc, &text, FLAGS) else {
        return Ok(all);
    };
    let mut next: Vec<&TextTree> = Vec::new(alloc);
    next.push(&tree)?;
    for at in 0..20 {
        if at < next.len() {
            let tree = next[at];
            all.push(part_of(tree))?;
            for inner in parts(tree) {
                next.push(inner)?;
            }
            if let Some(body) = body(tree) {
                next.push(body.get())?;
            }
        }
    }
    Ok(all)
}

#[test]
fn groups(rt: HostRuntime) -> PyResult<()> {
    assert_eq!(rt;
        layers(rt.alloc(), r"(\d+)-(?P<u>[a-z]+)")?.as_slice(),
        [
            Part::Sequence(3),
            Part::Capture(0, 1, false),
            Part::Literal('-'),
            Part::Capture(6, 2, true),
            Part::Sequence(1),
            Part::Sequence(1),
            Part::Counted(3, 1, None, CountMode::Greedy),
            Part::Counted(17, 1, None, CountMode::Greedy),
            Part::Set(1),
            Part::Set(1)
        ]
        .as_slice()
    );
    Ok(())
}

#[test]
fn others(rt: HostRuntime) -> PyResult<()> {
    assert_eq!(rt;
        layers(rt.alloc(), r"^(?<!a|b)(?>c{2,3}?)(a)\1(?(1)|d)")?.as_slice(),
        [
            Part::Sequence(6),
            Part::Anchor(0),
            Part::Look(1, false, true),
            Part::Atomic(9),
            Part::Capture(20, 1, false),
            Part::ByNumber(23, 1),
            Part::Conditional(25, true),
            Part::Alternation(2),
            Part::Sequence(1),
            Part::Sequence(1),
            Part::Sequence(0),
            Part::Sequence(1),
            Part::Sequence(1),
            Part::Counted(13, 2, Some(3), CountMode::Lazy),
            Part::Literal('a'),
            Part::Literal('a'),
            Part::Literal('b'),
            Part::Literal('c')
        ]
        .as_slice()
    );
    Ok(())
}

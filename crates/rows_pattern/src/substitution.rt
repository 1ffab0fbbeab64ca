//! Spans that are replaced. Expected values come from CPython's `re`; an unset group's default is
//! our own.

ghost use Rattle.std.specs.Prelude.{◌≡◌, ◌<◌};
ghost use Rattle.py_sre.specs.Substituting.{OfKind};

use py_base::{ClassName, OptionalArg, PrimitiveName, PyError, PyResult, Steps};
use py_int::PyInt;
use py_sre::{GroupIndex, GroupNames, Pattern, PatternSource, Repl, Template, compile, substitute};
use py_text::{PyBytes, PyStr};
use py_value::{Value, ValueList};
use std::alloc::Global;
use std::marker::Brand;
use std::sync::ledger::{Blank, Ledger};

// `(a)|b`, `x*`, `é` and `b`.
const A_OR_B: &[u32] = &[7, 9, 17, 0, 16, 97, 17, 1, 15, 7, 5, 16, 98, 15, 2, 0, 1];

const SOME_X: &[u32] = &[24, 6, 0, u32::MAX, 16, 120, 1, 1];

const E_ACUTE: &[u32] = &[16, 233, 1];

const B: &[u32] = &[16, 98, 1];

/// A value without values in it.
#[derive(Clone, Copy)]
enum Item {
    Nothing,
    Yes,
    Int(i128),
    Str(&'static str),
    Bytes(&'static [u8]),
}

fn value_of(alloc: Global, item: Item) -> PyResult<Value> {
    match item {
        Item::Nothing => Ok(Value::None),
        Item::Yes => Ok(Value::Bool(true)),
        Item::Int(number) => Ok(Value::Int(PyInt::from(number))),
        Item::Str(text) => Ok(Value::Str(PyStr::copy_of(alloc, text)?)),
        Item::Bytes(bytes) => Ok(Value::Bytes(PyBytes::copy_of(alloc, bytes)?)),
    }
}

fn list_of(alloc: Global, items: &[Item]) -> PyResult<ValueList> {
    let mut list = ValueList::new(alloc);
    for item in items {
        list.push(value_of(alloc, *item)?)?;
    }
    Ok(list)
}

/// A substitution: of a pattern over bytes or over texts.
#[derive(Clone, Copy)]
struct Substitution {
    is_bytes: bool,
    code: &'static [u32],
    groups: usize,
    items: &'static [Item],
    subject: Item,
    limit: usize,
    default: Option<Item>,
}

/// One over texts, without a limit and without a default.
const fn asked(code: &'static [u32], items: &'static [Item], subject: Item) -> Substitution {
    Substitution {
        is_bytes: false,
        code,
        groups: 1,
        items,
        subject,
        limit: 0,
        default: None,
    }
}

fn source_of(alloc: Global, is_bytes: bool) -> PyResult<PatternSource> {
    if is_bytes {
        Ok(PatternSource::Bytes(PyBytes::copy_of(alloc, b"")?))
    } else {
        Ok(PatternSource::None)
    }
}

// The answer over a new counter of steps.
fn substituted_by<L: Ledger>(
    alloc: Global,
    asked: Substitution,
    blank: Blank,
) -> PyResult<(Value, usize)>
    requires name { blank.name ≡ L.name }
    requires parts { blank.parts ≡ L.parts }
    requires some { 0 < L.parts }
{
    let mut steps = Steps::<L>::new(blank);
    let list = list_of(alloc, asked.items)?;
    let subject = value_of(alloc, asked.subject)?;
    let default = value_of(alloc, asked.default.unwrap_or(Item::Nothing))?;
    let given = match asked.default {
        Some(_) => OptionalArg::Present(&default),
        None => OptionalArg::Missing,
    };
    let source = source_of(alloc, asked.is_bytes)?;
    substitute(
        alloc,
        source,
        asked.code,
        asked.groups,
        &list,
        &subject,
        asked.limit,
        given,
        &mut steps,
    )
}

fn substituted(alloc: Global, asked: Substitution) -> PyResult<(Value, usize)> {
    substituted_by::<Brand>(alloc, asked, Blank::new(1))
}

fn text_in(value: &Value) -> &str {
    match value {
        Value::Str(text) => text.as_str(),
        _ => "",
    }
}

fn bytes_in(value: &Value) -> &[u8] {
    match value {
        Value::Bytes(bytes) => bytes.as_bytes(),
        _ => b"",
    }
}

const GROUP: &[Item] = &[Item::Str("<"), Item::Int(1), Item::Str(">")];

#[test]
fn texts(rt: HostRuntime) -> PyResult<()> {
    let (one, dash) = (
        asked(A_OR_B, GROUP, Item::Str("ab")),
        asked(SOME_X, &[Item::Str("-")], Item::Str("abxd")),
    );
    let default = Some(Item::Str("?"));
    let whole = &[
        Item::Str("["),
        Item::Yes,
        Item::Str(""),
        Item::Int(0),
        Item::Str("]"),
    ];
    for (asked, text, count) in [
        (one, "<a><>", 2),
        (Substitution { default, ..one }, "<a><?>", 2),
        (Substitution { limit: 1, ..one }, "<a>b", 1),
        (asked(A_OR_B, whole, Item::Str("cab")), "c[aa][b]", 2),
        (dash, "-a-b--d-", 5),
        (
            asked(
                E_ACUTE,
                &[Item::Str("e")],
                Item::Str("\u{e9}t\u{e9} \u{20ac}"),
            ),
            "ete \u{20ac}",
            2,
        ),
        (asked(B, &[Item::Str("\u{e9}")], Item::Str("")), "", 0),
    ] {
        let made = substituted(rt.alloc(), asked)?;
        assert_eq!(rt; (text_in(&made.0), made.1), (text, count));
    }
    Ok(())
}

#[test]
fn refusals(rt: HostRuntime) -> PyResult<()> {
    let (int, text) = (Item::Int(5), Item::Str("a"));
    let none = asked(B, &[], text);
    let bytes = Substitution {
        is_bytes: true,
        items: &[Item::Bytes(b"")],
        ..none
    };
    for (asked, error) in [
        (
            Substitution {
                code: &[16, 97],
                ..none
            },
            PyError::InvalidCode,
        ),
        (none, PyError::InvalidTemplate),
        (
            asked(B, &[Item::Nothing, Item::Int(9)], int),
            PyError::InvalidTemplate,
        ),
        (
            asked(B, &[Item::Nothing], int),
            PyError::TemplatePiece(0, ClassName::NoneType),
        ),
        (
            asked(B, &[Item::Str(""), Item::Str(""), Item::Nothing], int),
            PyError::ExpectedUsize,
        ),
        (
            asked(B, &[Item::Str(""), Item::Int(-1), Item::Nothing], int),
            PyError::IntTooLargeFor(PrimitiveName::Usize),
        ),
        (
            asked(B, &[Item::Str(""), Item::Int(2), Item::Nothing], int),
            PyError::TemplateGroup(2, 1),
        ),
        (
            asked(B, &[Item::Str(""), Item::Int(1), Item::Bytes(b"")], int),
            PyError::TemplatePiece(2, ClassName::Bytes),
        ),
        (
            Substitution {
                default: Some(Item::Yes),
                ..asked(B, &[Item::Str("")], int)
            },
            PyError::ExpectedString(ClassName::Bool),
        ),
        (
            asked(B, &[Item::Str("")], int),
            PyError::ExpectedString(ClassName::Int),
        ),
        (bytes, PyError::ExpectedBytes(ClassName::Str)),
    ] {
        let found = match substituted(rt.alloc(), asked) {
            Ok(_) => None,
            Err(error) => Some(error),
        };
        assert_eq!(rt; found, Some(error));
    }
    Ok(())
}

// What `b` is replaced by over bytes, by a literal and by a template.
fn replaced_by<L: Ledger>(
    alloc: Global,
    repl: &Repl,
    pattern: &Pattern,
    blank: Blank,
) -> PyResult<(Value, usize)>
    requires kind { OfKind pattern.now.is_bytes repl.now }
    requires name { blank.name ≡ L.name }
    requires parts { blank.parts ≡ L.parts }
    requires some { 0 < L.parts }
{
    let mut steps = Steps::<L>::new(blank);
    let subject = value_of(alloc, Item::Bytes(b"abcb\xff"))?;
    pattern.subn(alloc, repl, &subject, 0, OptionalArg::Missing, &mut steps)
}

fn replaced(alloc: Global, repl: &Repl, pattern: &Pattern) -> PyResult<(Value, usize)>
    requires { OfKind pattern.now.is_bytes repl.now }
{
    replaced_by::<Brand>(alloc, repl, pattern, Blank::new(1))
}

#[test]
fn bytes(rt: HostRuntime) -> PyResult<()> {
    let alloc = rt.alloc();
    let (index, names) = (GroupIndex::new(alloc), GroupNames::new(alloc));
    let pattern = compile(alloc, source_of(alloc, true)?, 0, B, 0, index, names)?;
    let list = list_of(alloc, &[Item::Bytes(b"<"), Item::Int(0), Item::Bytes(b">")])?;
    let template = Template::template(alloc, &pattern, &list)?;
    assert_eq!(rt; (template.groups(), template.isbytes()), (0, true));
    let filled = replaced(alloc, &Repl::Template(template), &pattern)?;
    let literal = replaced(
        alloc,
        &Repl::Literal(value_of(alloc, Item::Bytes(b"--"))?),
        &pattern,
    )?;
    assert!(rt;
        bytes_in(&filled.0) == b"a<b>c<b>\xff".as_slice()
            && bytes_in(&literal.0) == b"a--c--\xff".as_slice()
            && literal.1 == 2
    );
    Ok(())
}

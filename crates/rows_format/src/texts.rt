//! Templates of text.

use crate::made::{Item, Values, filled};
use py_base::PyResult;

// Templates, values, and the texts that CPython makes of them.
const ROWS: [(&str, Values<'static>, &str); 24] = [
    (
        "%05d|%-4s|%#x",
        Values::Tuple(&[Item::Int(42), Item::Str("ab"), Item::Int(255)]),
        "00042|ab  |0xff",
    ),
    ("%.*d", Values::Tuple(&[Item::Int(-3), Item::Int(7)]), "7"),
    ("%.*d", Values::Tuple(&[Item::Int(3), Item::Int(7)]), "007"),
    (
        "%*d|",
        Values::Tuple(&[Item::Int(-4), Item::Int(7)]),
        "7   |",
    ),
    (
        "%*d|",
        Values::Tuple(&[Item::Int(4), Item::Int(7)]),
        "   7|",
    ),
    (
        "%0*d|",
        Values::Tuple(&[Item::Int(-4), Item::Int(7)]),
        "7   |",
    ),
    (
        "%*.*s|",
        Values::Tuple(&[Item::Yes, Item::Int(2), Item::Str("abc")]),
        "ab|",
    ),
    ("%(a(b))d", Values::Map(&[("a(b)", Item::Int(3))]), "3"),
    (
        "%(b)s%(a)5d%(b)r%%",
        Values::Map(&[("a", Item::Int(1)), ("b", Item::Str("é"))]),
        "é    1'é'%",
    ),
    ("%#08x", Values::One(Item::Int(255)), "0x0000ff"),
    (
        "%+d% d%o%X",
        Values::Tuple(&[Item::Int(1), Item::Int(2), Item::Int(8), Item::Int(171)]),
        "+1 210AB",
    ),
    (
        "%d%i%u",
        Values::Tuple(&[Item::Yes, Item::Int(-5), Item::Int(6)]),
        "1-56",
    ),
    (
        "%c%c%-3c|",
        Values::Tuple(&[Item::Int(233), Item::Str("b"), Item::Yes]),
        "éb\u{1}  |",
    ),
    (
        "%s %r %a",
        Values::Tuple(&[Item::Str("é"), Item::Str("é"), Item::Str("é")]),
        "é 'é' '\\xe9'",
    ),
    (
        "%.2s|%5.1r",
        Values::Tuple(&[Item::Str("héllo"), Item::Bytes(b"a")]),
        "hé|    b",
    ),
    ("%s", Values::One(Item::Nothing), "None"),
    (
        "%s",
        Values::List(&[Item::Int(1), Item::Str("a")]),
        "[1, 'a']",
    ),
    ("%s", Values::Tuple(&[Item::Empty]), "[]"),
    ("ab%%", Values::Tuple(&[]), "ab%"),
    ("ab", Values::Map(&[]), "ab"),
    ("ab", Values::List(&[Item::Int(1)]), "ab"),
    ("ab", Values::One(Item::Bytes(b"x")), "ab"),
    ("", Values::Tuple(&[]), ""),
    ("%s", Values::Map(&[("a", Item::Int(1))]), "{'a': 1}"),
];

#[test]
fn as_cpython_makes_them(rt: HostRuntime) -> PyResult<()> {
    for (template, values, is) in &ROWS {
        let made = filled(rt.alloc(), template, *values)?;
        assert_eq!(rt; made.as_str(), *is);
    }
    Ok(())
}

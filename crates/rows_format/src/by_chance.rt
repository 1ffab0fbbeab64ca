//! Templates and values made by chance, and what CPython's `%` makes of them. The file is written
//! by tools/percent_rows.py.

use crate::made::{Item, Values, filled, filled_bytes};
use py_base::{ErrorKind, PyResult};

const TEXTS: [(&str, Values<'static>, Result<&str, ErrorKind>); 24] = [
    (
        "%.1r\u{e9}%*ha%%",
        Values::Tuple(&[Item::Bytes(b"\xff\x00"), Item::Int(6), Item::Bytes(b"a")]),
        Ok("b\u{e9}  b'a'%"),
    ),
    ("|", Values::Map(&[]), Ok("|")),
    (
        "ab%-12.2Lu",
        Values::One(Item::Int(65)),
        Ok("ab65          "),
    ),
    ("ab", Values::Map(&[]), Ok("ab")),
    ("\u{e9}", Values::Tuple(&[]), Ok("\u{e9}")),
    (
        "ab% hX%- *ld ",
        Values::Tuple(&[Item::Int(0), Item::Int(6), Item::Int(233)]),
        Ok("ab 0 233   "),
    ),
    ("%%%i", Values::Tuple(&[Item::Int(-42)]), Ok("%-42")),
    (
        "\u{e9}%#5.d %-iab",
        Values::Tuple(&[
            Item::Int(170141183460469231731687303715884105727),
            Item::Int(170141183460469231731687303715884105727),
        ]),
        Ok(
            "\u{e9}170141183460469231731687303715884105727 170141183460469231731687303715884105727ab",
        ),
    ),
    ("", Values::Tuple(&[]), Ok("")),
    (" %-.1La\u{e9}", Values::Tuple(&[Item::Yes]), Ok(" T\u{e9}")),
    ("|", Values::Tuple(&[]), Ok("|")),
    (
        "%%%(b)+12hx%(\u{e9})ls %()-#.rab",
        Values::Map(&[
            ("b", Item::Int(255)),
            ("\u{e9}", Item::Yes),
            ("", Item::Int(170141183460469231731687303715884105727)),
        ]),
        Ok("%         +ffTrue ab"),
    ),
    ("%%", Values::Tuple(&[]), Ok("%")),
    (
        "%%%+Ls %+12.5hX ",
        Values::Tuple(&[Item::Empty, Item::Int(1)]),
        Ok("%[]       +00001 "),
    ),
    (
        "%()-#2.2Lx%(b)1o%%%(\u{e9})+#2.X ",
        Values::Map(&[("b", Item::Int(127877)), ("\u{e9}", Item::Int(-42))]),
        Err(ErrorKind::KeyError),
    ),
    ("\u{e9}", Values::Tuple(&[]), Ok("\u{e9}")),
    (
        "\u{e9}%(a(b))0la\u{e9}%(b)Ls ",
        Values::Map(&[("a(b)", Item::Yes), ("b", Item::Bytes(b"xyz"))]),
        Ok("\u{e9}True\u{e9}b'xyz' "),
    ),
    (
        "\u{e9}%Lc%%%-a%%%d",
        Values::Tuple(&[Item::Int(233), Item::Yes, Item::Yes]),
        Ok("\u{e9}\u{e9}%True%1"),
    ),
    (
        "%%%9s\u{e9}",
        Values::Tuple(&[Item::Bytes(b"\xff\x00")]),
        Ok("%b'\\xff\\x00'\u{e9}"),
    ),
    ("", Values::Tuple(&[]), Ok("")),
    (
        "%+*.1aab%+.hc%%",
        Values::Tuple(&[Item::Int(3), Item::Yes, Item::Int(233)]),
        Ok("  Tab\u{e9}%"),
    ),
    (" ", Values::Map(&[]), Ok(" ")),
    (
        "\u{e9}%9.x%*.*r%%%*.i|",
        Values::Tuple(&[
            Item::Int(65),
            Item::Int(3),
            Item::Int(0),
            Item::Nothing,
            Item::Int(1),
        ]),
        Err(ErrorKind::TypeError),
    ),
    (
        "%##*hi %r%%",
        Values::Tuple(&[Item::Int(6), Item::Int(255), Item::Nothing]),
        Ok("   255 None%"),
    ),
];

const BINARY: [(&[u8], Values<'static>, Result<&[u8], ErrorKind>); 24] = [
    (
        b" %(b)-.X|%(\xe9)+.2hb%%%(a(b))ls|",
        Values::ByteMap(&[
            (b"b", Item::Int(255)),
            (b"\xe9", Item::Yes),
            (b"a(b)", Item::Bytes(b"'")),
        ]),
        Err(ErrorKind::TypeError),
    ),
    (
        b"%(\xe9)c%(a(b))-.hdab",
        Values::ByteMap(&[(b"\xe9", Item::Int(233)), (b"a(b)", Item::Int(-1))]),
        Ok(b"\xe9-1ab"),
    ),
    (
        b"%%% 02.*Li % 1ld",
        Values::Tuple(&[Item::Int(6), Item::Int(0), Item::Int(1)]),
        Ok(b"% 000000  1"),
    ),
    (b"%%", Values::Tuple(&[]), Ok(b"%")),
    (
        b"|%(a) d\xe9%(\xe9)1.b\xe9%().ho ",
        Values::ByteMap(&[
            (b"a", Item::Int(7)),
            (b"\xe9", Item::Bytes(b"a")),
            (b"", Item::Int(65)),
        ]),
        Ok(b"| 7\xe9 \xe9101 "),
    ),
    (
        b"|%#0o%# 1.5u%%%-*lo|",
        Values::Tuple(&[Item::Int(255), Item::Int(7), Item::Yes, Item::Nothing]),
        Err(ErrorKind::TypeError),
    ),
    (b" ", Values::Tuple(&[]), Ok(b" ")),
    (
        b"\xe9%(b)#r|%(a)r|%(a(b))u",
        Values::ByteMap(&[
            (b"b", Item::Nothing),
            (b"a", Item::Nothing),
            (b"a(b)", Item::Yes),
        ]),
        Ok(b"\xe9None|None|1"),
    ),
    (
        b"% *.ls ",
        Values::Tuple(&[Item::Int(6), Item::Bytes(b"\xff\x00")]),
        Ok(b"       "),
    ),
    (
        b"%%%*aab% 2X|%-1.o%%",
        Values::Tuple(&[Item::Yes, Item::Yes, Item::Int(127877), Item::Yes]),
        Ok(b"%Trueab 1F385|1%"),
    ),
    (
        b"%(a(b))hi%%%(a)9Lcab%(\xe9)+#9lc",
        Values::ByteMap(&[
            (b"a(b)", Item::Int(1114112)),
            (b"a", Item::Bytes(b"\xff\x00")),
            (b"\xe9", Item::Int(i128::MIN)),
        ]),
        Err(ErrorKind::TypeError),
    ),
    (b"|", Values::Map(&[]), Ok(b"|")),
    (b"|", Values::Tuple(&[]), Ok(b"|")),
    (b"\xe9", Values::Map(&[]), Ok(b"\xe9")),
    (
        b"%%%lc\xe9%x%%%+0lr|",
        Values::Tuple(&[Item::Yes, Item::Int(-42), Item::Nothing]),
        Ok(b"%\x01\xe9-2a%None|"),
    ),
    (
        b"ab% 12.o%+*.12luab",
        Values::Tuple(&[Item::Nothing, Item::Int(6), Item::Yes]),
        Err(ErrorKind::TypeError),
    ),
    (
        b" %(a)-hXab%(\xe9).lXab%()#9.Li\xe9",
        Values::ByteMap(&[(b"a", Item::Int(i128::MIN)), (b"\xe9", Item::Int(65))]),
        Err(ErrorKind::KeyError),
    ),
    (
        b"%o %  *hx %##9.ls\xe9",
        Values::Tuple(&[Item::Nothing, Item::Int(1), Item::Bytes(b"'")]),
        Err(ErrorKind::TypeError),
    ),
    (
        b"ab%#5c % 5o|%Li|",
        Values::Tuple(&[Item::Int(65), Item::Int(2147483648), Item::Int(65)]),
        Ok(b"ab    A  20000000000|65|"),
    ),
    (
        b"%*Lx|",
        Values::Tuple(&[Item::Int(1), Item::Int(0)]),
        Ok(b"0|"),
    ),
    (b"%%%1.x", Values::Tuple(&[Item::Int(233)]), Ok(b"%e9")),
    (
        b"ab%  .*La% 9hr",
        Values::Tuple(&[Item::Int(0), Item::Bytes(b""), Item::Str("'")]),
        Ok(b"ab      \"'\""),
    ),
    (
        b" %(a(b))-.X|",
        Values::ByteMap(&[(b"a(b)", Item::Int(0))]),
        Ok(b" 0|"),
    ),
    (b"", Values::Map(&[]), Ok(b"")),
];

#[test]
fn texts(rt: HostRuntime) -> PyResult<()> {
    for (template, values, is) in &TEXTS {
        let made = filled(rt.alloc(), template, *values);
        match (made, is) {
            (Ok(made), Ok(is)) => assert_eq!(rt; made.as_str(), *is),
            (Err(error), Err(kind)) => assert_eq!(rt; error.kind(), *kind),
            (made, is) => assert_eq!(rt; made.is_ok(), is.is_ok(), "{template}"),
        }
    }
    Ok(())
}

#[test]
fn bytes(rt: HostRuntime) -> PyResult<()> {
    for (template, values, is) in &BINARY {
        let made = filled_bytes(rt.alloc(), template, *values);
        match (made, is) {
            (Ok(made), Ok(is)) => assert_eq!(rt; made.as_bytes(), *is),
            (Err(error), Err(kind)) => assert_eq!(rt; error.kind(), *kind),
            (made, is) => assert_eq!(rt; made.is_ok(), is.is_ok(), "{template:?}"),
        }
    }
    Ok(())
}

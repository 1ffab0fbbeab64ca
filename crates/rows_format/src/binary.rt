//! Templates of bytes.

use crate::made::{Item, Values, filled_bytes};
use py_base::PyResult;

// Templates, values, and the bytes that CPython makes of them, but for the last: there a text is a
// mapping.
const ROWS: [(&[u8], Values<'static>, &[u8]); 12] = [
    (b"%c", Values::One(Item::Int(200)), b"\xc8"),
    (
        b"%c|%.0c|%3c",
        Values::Tuple(&[Item::Bytes(b"a"), Item::Int(66), Item::Yes]),
        b"a|B|  \x01",
    ),
    (
        b"%s %b",
        Values::Tuple(&[Item::Bytes(b"x\xff"), Item::Bytes(b"yz")]),
        b"x\xff yz",
    ),
    (
        b"%.1s|%4b|",
        Values::Tuple(&[Item::Bytes(b"xy"), Item::Bytes(b"z")]),
        b"x|   z|",
    ),
    (
        b"%a %r",
        Values::Tuple(&[Item::Str("\u{e9}"), Item::Bytes(b"\xff")]),
        b"'\\xe9' b'\\xff'",
    ),
    (
        b"%05d%x%#o",
        Values::Tuple(&[Item::Int(-42), Item::Int(255), Item::Int(8)]),
        b"-0042ff0o10",
    ),
    (
        b"%*.*d|",
        Values::Tuple(&[Item::Int(-5), Item::Int(3), Item::Int(7)]),
        b"007  |",
    ),
    (
        b"%(k\xff)b",
        Values::ByteMap(&[(b"k\xff", Item::Bytes(b"v"))]),
        b"v",
    ),
    (b"\xff%%", Values::Tuple(&[]), b"\xff%"),
    (b"ab", Values::Map(&[]), b"ab"),
    (b"ab", Values::List(&[Item::Int(1)]), b"ab"),
    (b"ab", Values::One(Item::Str("x")), b"ab"),
];

#[test]
fn as_cpython_makes_them(rt: HostRuntime) -> PyResult<()> {
    for (template, values, is) in &ROWS {
        let made = filled_bytes(rt.alloc(), template, *values)?;
        assert_eq!(rt; made.as_bytes(), *is);
    }
    Ok(())
}

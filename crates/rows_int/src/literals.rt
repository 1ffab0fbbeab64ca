//! Literals.

use crate::values::{GREATEST, LEAST, int};
use py_base::PyError;
use py_int::PyInt;

// a text, a base, and its number.
const LITERALS: [(&[u8], u32, i128); 14] = [
    (b" -0b1_0 ", 0, -2),
    (b"00", 0, 0),
    (b"0_0", 0, 0),
    (b"\t\n\x0b\x0c\r 7\r", 10, 7),
    (b"zZ", 36, 1295),
    (b"0x_ff", 0, 255),
    (b"0XfF", 16, 255),
    (b"0o17", 8, 15),
    (b"+1_000", 10, 1000),
    (b"0b1", 16, 177),
    (b"-170141183460469231731687303715884105728", 10, LEAST),
    (b"170141183460469231731687303715884105727", 10, GREATEST),
    (b"-0x80000000000000000000000000000000", 0, LEAST),
    (
        b"000000000000000000000000000000000000000000000000000000000000012",
        10,
        12,
    ),
];

// Texts that are no literals in a base.
const NO_LITERALS: [(&[u8], u32); 16] = [
    (b"", 10),
    (b"  ", 10),
    (b"-", 10),
    (b"- 1", 10),
    (b"01", 0),
    (b"0b", 0),
    (b"0x__1", 0),
    (b"1_", 10),
    (b"_1", 10),
    (b"1__0", 10),
    (b"12", 2),
    (b"0x1", 10),
    (b"1 2", 10),
    (b"\xc2\xa01", 10),
    (b"99999999999999999999999999999999999999999999x", 10),
    (b"0b1_", 0),
];

#[test]
fn literals(rt: HostRuntime) {
    for (text, base, number) in &LITERALS {
        assert_eq!(rt; PyInt::try_int_radix(text, *base), Ok(int(*number)));
    }
}

#[test]
fn no_literals(rt: HostRuntime) {
    for (text, base) in &NO_LITERALS {
        assert_eq!(rt;
            PyInt::try_int_radix(text, *base),
            Err(PyError::InvalidLiteral(*base))
        );
    }
    let wide = b"170141183460469231731687303715884105728";
    assert_eq!(rt;
        [
            PyInt::try_int_radix(wide, 10),
            PyInt::try_int_radix(b"1", 37)
        ],
        [Err(PyError::IntTooWide), Err(PyError::BadBase)]
    );
}

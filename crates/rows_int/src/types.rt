//! Rust's types, hashes, order, and the calls that answer the integer itself.

use crate::values::{GREATEST, LEAST, int};
use py_base::{PrimitiveName, PyError, PyResult};
use py_int::PyInt;
use std::cmp::Ordering;

#[test]
fn signed_types(rt: HostRuntime) {
    assert_eq!(rt;
        (
            int(-128).try_to_primitive::<i8>(),
            int(-9).try_to_primitive::<i16>(),
            int(-9).try_to_primitive::<i32>()
        ),
        (Ok(-128), Ok(-9), Ok(-9))
    );
    assert_eq!(rt;
        (
            int(-9).try_to_primitive::<i64>(),
            int(-9).try_to_primitive::<isize>(),
            int(LEAST).try_to_primitive::<i128>()
        ),
        (Ok(-9), Ok(-9), Ok(LEAST))
    );
}

#[test]
fn unsigned_types(rt: HostRuntime) {
    assert_eq!(rt;
        (
            int(255).try_to_primitive::<u8>(),
            int(9).try_to_primitive::<u16>(),
            int(9).try_to_primitive::<u32>()
        ),
        (Ok(255), Ok(9), Ok(9))
    );
    assert_eq!(rt;
        (
            int(9).try_to_primitive::<u64>(),
            int(9).try_to_primitive::<usize>(),
            int(GREATEST).try_to_primitive::<u128>()
        ),
        (Ok(9), Ok(9), Ok(GREATEST as u128))
    );
}

#[test]
fn outside_of_types(rt: HostRuntime) {
    assert_eq!(rt;
        (
            int(256).try_to_primitive::<u8>(),
            PyInt::try_from_u128(1 << 127),
            PyInt::try_from_u128((1 << 127) - 1)
        ),
        (
            Err(PyError::IntTooLargeFor(PrimitiveName::U8)),
            Err(PyError::IntTooWide),
            Ok(int(GREATEST))
        )
    );
}

fn from_signed() -> [PyInt; 5] {
    [
        PyInt::from(-7i8),
        PyInt::from(-7i16),
        PyInt::from(-7i32),
        PyInt::from(-7i64),
        PyInt::from(-7isize),
    ]
}

fn from_unsigned() -> [PyInt; 5] {
    [
        PyInt::from(7u8),
        PyInt::from(7u16),
        PyInt::from(7u32),
        PyInt::from(7u64),
        PyInt::from(7usize),
    ]
}

#[test]
fn made_from_types(rt: HostRuntime) {
    assert_eq!(rt;
        (from_signed(), from_unsigned()),
        ([int(-7); 5], [int(7); 5])
    );
}

// an integer and its hash.
const HASHES: [(i128, i64); 4] = [(-1, -2), ((1 << 61) - 1, 0), (LEAST, -32), (GREATEST, 31)];

#[test]
fn hashes(rt: HostRuntime) {
    for (number, hash) in &HASHES {
        assert_eq!(rt; int(*number).hash(), *hash);
    }
}

fn same_integer(n: PyInt) -> [PyInt; 10] {
    [
        n.pos(),
        n.int(),
        n.trunc(),
        n.floor(),
        n.ceil(),
        n.index(),
        n.conjugate(),
        n.real(),
        n.numerator(),
        n.getnewargs(),
    ]
}

#[test]
fn the_integer_itself(rt: HostRuntime) {
    let n = int(-7);
    assert_eq!(rt;
        (
            same_integer(n),
            n.as_i128(),
            n.as_integer_ratio(),
            n.imag(),
            n.denominator()
        ),
        ([n; 10], -7, (n, 1), 0, 1)
    );
    assert_eq!(rt; [n.bool(), int(0).bool()], [true, false]);
}

#[test]
fn order(rt: HostRuntime) {
    assert_eq!(rt;
        (int(1) < int(2), int(-1).cmp(&int(-2)), int(3) == int(3)),
        (true, Ordering::Greater, true)
    );
}

#[test]
fn printed(rt: HostRuntime) -> PyResult<()> {
    let text = format!(in rt.alloc(); "{} {}", int(-7), int(LEAST))?;
    let repr = int(-7).repr(rt.alloc())?;
    assert_eq!(rt;
        [text.as_str(), repr.as_str()],
        ["-7 -170141183460469231731687303715884105728", "-7"]
    );
    Ok(())
}

//! Sums, divisions, shifts, bits and roundings.

use crate::values::{GREATEST, LEAST, int, wanted};
use py_base::{PyError, PyResult, ZeroKind};
use py_int::PyInt;

// a, b, and `a + b`, `a - b`, `a * b`.
const SUMS: [(i128, i128, Option<i128>, Option<i128>, Option<i128>); 4] = [
    (5, -7, Some(-2), Some(12), Some(-35)),
    (GREATEST, 1, None, Some(GREATEST - 1), Some(GREATEST)),
    (LEAST, -1, None, Some(LEAST + 1), None),
    (1 << 64, -1 << 63, Some(1 << 63), Some(3 << 63), Some(LEAST)),
];

fn sums_of(a: PyInt, b: PyInt) -> [PyResult<PyInt>; 4] {
    [a.add(b), a.sub(b), b.rsub(a), a.mul(b)]
}

#[test]
fn sums(rt: HostRuntime) {
    for (a, b, sum, difference, product) in &SUMS {
        assert_eq!(rt;
            sums_of(int(*a), int(*b)),
            [
                wanted(*sum),
                wanted(*difference),
                wanted(*difference),
                wanted(*product)
            ]
        );
    }
}

// a, and `-a`, `abs(a)`.
const SIGNS: [(i128, Option<i128>, Option<i128>); 3] = [
    (3, Some(-3), Some(3)),
    (-3, Some(3), Some(3)),
    (LEAST, None, None),
];

#[test]
fn signs(rt: HostRuntime) {
    for (a, negative, absolute) in &SIGNS {
        assert_eq!(rt;
            [int(*a).neg(), int(*a).abs()],
            [wanted(*negative), wanted(*absolute)]
        );
    }
}

// a, b, and what `divmod` answers.
const DIVISIONS: [(i128, i128, i128, i128); 7] = [
    (-7, 2, -4, 1),
    (7, -2, -4, -1),
    (-7, -2, 3, -1),
    (7, 2, 3, 1),
    (LEAST, 10, -17014118346046923173168730371588410573, 2),
    (LEAST, LEAST, 1, 0),
    (0, -5, 0, 0),
];

fn quotients_of(a: PyInt, b: PyInt) -> [PyResult<PyInt>; 4] {
    [a.floordiv(b), b.rfloordiv(a), a.mod_(b), b.rmod(a)]
}

#[test]
fn divisions(rt: HostRuntime) {
    for (a, b, quotient, rest) in &DIVISIONS {
        let (quotient, rest) = (int(*quotient), int(*rest));
        assert_eq!(rt;
            quotients_of(int(*a), int(*b)),
            [Ok(quotient), Ok(quotient), Ok(rest), Ok(rest)]
        );
    }
}

fn pair(quotient: i128, rest: i128) -> PyResult<(PyInt, PyInt)> {
    Ok((int(quotient), int(rest)))
}

#[test]
fn pairs(rt: HostRuntime) {
    for (a, b, quotient, rest) in &DIVISIONS {
        assert_eq!(rt;
            [int(*a).divmod(int(*b)), int(*b).rdivmod(int(*a))],
            [pair(*quotient, *rest), pair(*quotient, *rest)]
        );
    }
}

#[test]
fn divisions_refused(rt: HostRuntime) {
    assert_eq!(rt;
        [int(LEAST).floordiv(int(-1)), int(LEAST).mod_(int(-1))],
        [Err(PyError::IntTooWide), Ok(int(0))]
    );
    assert_eq!(rt;
        [int(LEAST).divmod(int(-1)), int(1).divmod(int(0))],
        [
            Err(PyError::IntTooWide),
            Err(PyError::ZeroDivision(ZeroKind::Both))
        ]
    );
}

// a number, a count, and `number << count`.
const SHIFTS_UP: [(i128, i128, Option<i128>); 6] = [
    (1, 127, None),
    (-1, 127, Some(LEAST)),
    (-1, 128, None),
    (3, 125, Some(3 << 125)),
    (0, GREATEST, Some(0)),
    (5, 4, Some(80)),
];

// a number, a count, and `number >> count`.
const SHIFTS_DOWN: [(i128, i128, i128); 5] = [
    (-5, 1, -3),
    (-5, GREATEST, -1),
    (5, 128, 0),
    (20, 2, 5),
    (LEAST, 127, -1),
];

#[test]
fn shifts_up(rt: HostRuntime) {
    for (number, count, up) in &SHIFTS_UP {
        let (number, count) = (int(*number), int(*count));
        assert_eq!(rt;
            [number.lshift(count), count.rlshift(number)],
            [wanted(*up), wanted(*up)]
        );
    }
}

#[test]
fn shifts_down(rt: HostRuntime) {
    for (number, count, down) in &SHIFTS_DOWN {
        let (number, count) = (int(*number), int(*count));
        assert_eq!(rt;
            [number.rshift(count), count.rrshift(number)],
            [Ok(int(*down)), Ok(int(*down))]
        );
    }
    assert_eq!(rt; int(1).rshift(int(-1)), Err(PyError::NegativeShift));
}

#[test]
fn bits_of_integers(rt: HostRuntime) {
    let n = int(-6);
    assert_eq!(rt;
        [n.and(int(11)), n.or(int(3)), n.xor(int(3)), int(5).invert()],
        [int(10), int(-5), int(-7), int(-6)]
    );
    assert_eq!(rt;
        (
            int(-1).as_u32_mask(),
            int(LEAST).bit_length(),
            int(-255).bit_count()
        ),
        (4294967295, 128, 8)
    );
}

// a number, a count of digits, and what `round` answers.
const ROUNDINGS: [(i128, i128, Option<i128>); 11] = [
    (12250, -2, Some(12200)),
    (-12350, -2, Some(-12400)),
    (5, -40, Some(0)),
    (5, -1, Some(0)),
    (15, -1, Some(20)),
    (-26, -1, Some(-30)),
    (GREATEST, 5, Some(GREATEST)),
    (GREATEST, -1, None),
    (GREATEST, -38, None),
    (GREATEST, -39, Some(0)),
    (LEAST, GREATEST, Some(LEAST)),
];

#[test]
fn roundings(rt: HostRuntime) {
    for (number, digits, rounded) in &ROUNDINGS {
        assert_eq!(rt; int(*number).round(Some(int(*digits))), wanted(*rounded));
    }
    assert_eq!(rt; int(7).round(None), Ok(int(7)));
}

//! Powers, with a modulus and without.

use crate::values::{GREATEST, LEAST, int, wanted};
use py_base::PyError;

// base, exponent, modulus, and what `pow` answers.
const MODULAR_POWERS: [(i128, i128, i128, i128); 10] = [
    (1 << 126, 2, GREATEST, 1 << 125),
    (3, -1, -7, -2),
    (3, 2, 1, 0),
    (0, -1, 1, 0),
    (7, 3, 10, 3),
    (
        7,
        170141183460469231731687303715884105727,
        170141183460469231731687303715884105725,
        132943941346285404580479031290198608493,
    ),
    (
        -12345678901234567890,
        170141183460469231731687303715884105722,
        -170141183460469231731687303715884105727,
        -98231129606427938882369421699089565708,
    ),
    (
        123456789,
        -3,
        100000000000000000000000000000000000001,
        57135328486947683859914536135580358421,
    ),
    (
        -170141183460469231731687303715884105727,
        65537,
        18446744073709551557,
        2310379818947643190,
    ),
    (
        5,
        -7,
        -170141183460469231731687303715884105723,
        -169405084644345857647523331765087704728,
    ),
];

#[test]
fn modular_powers(rt: HostRuntime) {
    for (base, exp, modulus, power) in &MODULAR_POWERS {
        let (base, exp, modulus) = (int(*base), int(*exp), int(*modulus));
        assert_eq!(rt;
            [base.modpow(exp, modulus), base.pow(exp, Some(modulus))],
            [Ok(int(*power)), Ok(int(*power))]
        );
    }
}

// base, exponent, and what `**` answers.
const POWERS: [(i128, i128, Option<i128>); 8] = [
    (-1, 1 << 100, Some(1)),
    (-1, (1 << 100) + 1, Some(-1)),
    (0, 0, Some(1)),
    (0, 5, Some(0)),
    (2, 127, None),
    (-2, 127, Some(LEAST)),
    (2, GREATEST, None),
    (-3, 5, Some(-243)),
];

#[test]
fn powers(rt: HostRuntime) {
    for (base, exp, power) in &POWERS {
        let (base, exp) = (int(*base), int(*exp));
        assert_eq!(rt;
            [base.pow(exp, None), exp.rpow(base)],
            [wanted(*power), wanted(*power)]
        );
    }
}

#[test]
fn powers_refused(rt: HostRuntime) {
    assert_eq!(rt;
        [
            int(2).modpow(int(-1), int(4)),
            int(2).modpow(int(-1), int(0))
        ],
        [Err(PyError::NotInvertible), Err(PyError::ModulusZero)]
    );
    assert_eq!(rt; int(2).pow(int(-1), None).is_ok(), false);
}

//! Bytes.

use crate::values::{int, wanted};
use py_base::{PyError, PyResult};
use py_int::{ArgByteOrder, PyInt};
use py_text::PyBytes;

// bytes, which of them comes first, whether they are signed, and their integer.
const BYTES: [(&[u8], ArgByteOrder, bool, Option<i128>); 8] = [
    (&[1, 2], ArgByteOrder::Big, false, Some(258)),
    (&[255, 0], ArgByteOrder::Big, true, Some(-256)),
    (&[255, 0], ArgByteOrder::Big, false, Some(65280)),
    (&[], ArgByteOrder::Big, true, Some(0)),
    (&[255; 40], ArgByteOrder::Big, true, Some(-1)),
    (&[0; 40], ArgByteOrder::Big, false, Some(0)),
    (&[255; 16], ArgByteOrder::Big, false, None),
    (&[255, 255, 1], ArgByteOrder::Little, true, Some(131071)),
];

#[test]
fn integers_of_bytes(rt: HostRuntime) {
    for (bytes, order, signed, number) in &BYTES {
        assert_eq!(rt; PyInt::from_bytes(bytes, *order, *signed), wanted(*number));
    }
}

// an integer, how many bytes, which comes first, whether they are signed, and the bytes.
const INTEGERS: [(i128, usize, ArgByteOrder, bool, &[u8]); 6] = [
    (258, 2, ArgByteOrder::Big, false, &[1, 2]),
    (-2, 3, ArgByteOrder::Big, true, &[255, 255, 254]),
    (
        5,
        18,
        ArgByteOrder::Big,
        false,
        &[0, 0, 0, 0, 0, 0, 0, 0, 0, 0, 0, 0, 0, 0, 0, 0, 0, 5],
    ),
    (-128, 1, ArgByteOrder::Big, true, &[128]),
    (0, 0, ArgByteOrder::Big, true, &[]),
    (256, 2, ArgByteOrder::Little, false, &[0, 1]),
];

#[test]
fn bytes_of_integers(rt: HostRuntime) -> PyResult<()> {
    for (number, length, order, signed, wanted) in &INTEGERS {
        let bytes = int(*number).to_bytes(rt.alloc(), *length, *order, *signed)?;
        assert_eq!(rt; bytes.as_bytes(), *wanted);
    }
    Ok(())
}

// an integer, how many bytes, whether they are signed, and the error.
const NO_BYTES: [(i128, usize, bool, PyError); 5] = [
    (256, 1, false, PyError::IntTooBig),
    (128, 1, true, PyError::IntTooBig),
    (-129, 1, true, PyError::IntTooBig),
    (-1, 0, true, PyError::IntTooBig),
    (-1, 9, false, PyError::NegativeToUnsigned),
];

fn fails_with(answer: PyResult<PyBytes>, wanted: &PyError) -> bool {
    match answer {
        Ok(_) => false,
        Err(error) => error == *wanted,
    }
}

#[test]
fn bytes_refused(rt: HostRuntime) {
    for (number, length, signed, wanted) in &NO_BYTES {
        let answer = int(*number).to_bytes(rt.alloc(), *length, ArgByteOrder::Big, *signed);
        assert!(rt; fails_with(answer, wanted), "{number} in {length} bytes");
    }
}

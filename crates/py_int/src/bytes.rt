//! Integers from bytes and to bytes: "Additional Methods on Integer Types" of the Python Library
//! Reference.

ghost use Rattle.std.specs.Prelude.{◌≡◌, ◌<◌, ◌≤◌, ◌^◌, true, false, length, slice_index, IfOk, IfErr, Err};
ghost use Rattle.std.specs.Int.{complement_if};
ghost use Rattle.std.specs.Int.Digits.{number_from_digits};
ghost use Rattle.py_base.specs.declared.error.PyError.TheVariants.{NoMemory, NegativeToUnsigned, IntTooBig};
ghost use Rattle.py_int.specs.Number.{Carries, IsNarrow};
ghost use Rattle.py_int.specs.Divide.{floor_of};
ghost use Rattle.py_int.specs.Bytes.{in_order, number_of, bytes_in, holds, lacks_sign, is_within, low_byte, low_bytes, is_high, digits_if, size, IsTooBig};

use crate::number::PyInt;
use crate::shift::down;
use py_base::{PyError, PyResult};
use py_text::PyBytes;
use std::alloc::Global;

/// Which byte comes first.
#[derive(Clone, Copy, Debug, PartialEq, Eq)]
pub enum ArgByteOrder {
    /// The highest.
    Big,
    /// The lowest.
    Little,
}

// Byte `place` where the highest comes first.
fn byte_at(bytes: &[u8], byteorder: ArgByteOrder, place: usize) -> u8
    requires { place < length bytes.now }
    ensures { result ≡ slice_index (in_order byteorder bytes.now) place }
{
    match byteorder {
        ArgByteOrder::Big => bytes[place],
        ArgByteOrder::Little => bytes[bytes.len() - 1 - place],
    }
}

// The digit `place` of the integer that the bytes spell, or its complement to 255.
fn digit_at(bytes: &[u8], byteorder: ArgByteOrder, place: usize, turned: bool) -> u8
    requires { place < length bytes.now }
    ensures { result ≡ slice_index (digits_if turned (in_order byteorder bytes.now)) place }
{
    let byte = byte_at(bytes, byteorder, place);
    if turned { 255 - byte } else { byte }
}

// The bytes spell an integer below 0.
fn spells_negative(bytes: &[u8], byteorder: ArgByteOrder, signed: bool) -> bool
    ensures { result ≡ is_high signed (in_order byteorder bytes.now) }
{
    signed && !bytes.is_empty() && byte_at(bytes, byteorder, 0) >= 128
}

// The integer of the digits, or of their complements, without a sign; none from 2^127 on.
fn size_of(bytes: &[u8], byteorder: ArgByteOrder, turned: bool) -> Option<u128>
    ensures { IsNarrow (size turned (in_order byteorder bytes.now)) result }
{
    let mut size: u128 = 0;
    for place in 0..bytes.len() {
        let digit = digit_at(bytes, byteorder, place, turned);
        if size >= 1 << 119 {
            return None;
        }
        size = size * 256 + u128::from(digit);
    }
    Some(size)
}

// The integer is below `limit`, or within its half where signed.
fn within(value: i128, limit: u128, signed: bool) -> bool
    ensures { result ≡ is_within signed limit value }
{
    if signed {
        if value >= 0 {
            2 * (value as u128) < limit
        } else {
            value.unsigned_abs() <= limit / 2
        }
    } else {
        value >= 0 && (value as u128) < limit
    }
}

// `length` bytes hold the integer; 16 hold every one.
fn is_held(value: i128, length: usize, signed: bool) -> bool
    ensures { result ≡ holds signed length value }
{
    if length >= 16 {
        signed || value >= 0
    } else {
        within(value, 256u128.pow(length as u32), signed)
    }
}

fn low_byte_of(value: PyInt) -> u8
    ensures { result ≡ low_byte value }
{
    value.as_i128().rem_euclid(256) as u8
}

fn without_low_byte(value: PyInt) -> PyInt
    ensures { result ≡ floor_of value 256 }
{
    down(value.as_i128(), 8)
}

// `length` bytes of the integer, the lowest first.
fn low_bytes_of(alloc: Global, value: PyInt, length: usize) -> PyResult<Vec<u8>>
    ensures ok { IfOk result (λ v. v.items ≡ low_bytes length value) }
    ensures err { IfErr result (λ e. e ≡ NoMemory) }
{
    let mut bytes = Vec::with_capacity(alloc, length)?;
    let mut rest = value;
    for place in 0..length {
        bytes.push(low_byte_of(rest))?;
        rest = without_low_byte(rest);
    }
    Ok(bytes)
}

// The integer, or its complement to -1.
fn complement(size: u128, negative: bool) -> PyInt
    requires { size < 2 ^ 127 }
    ensures { result ≡ complement_if negative size }
{
    let value = size as i128;
    if negative {
        PyInt::from(-1 - value)
    } else {
        PyInt::from(value)
    }
}

impl PyInt {
    /// `int.from_bytes(bytes, byteorder, signed=signed)`. No bytes give 0, and any number of bytes
    /// that say nothing may be before the integer.
    pub fn from_bytes(bytes: &[u8], byteorder: ArgByteOrder, signed: bool) -> PyResult<PyInt>
        ensures { Carries (number_of signed (in_order byteorder bytes.now)) result }
    {
        let negative = spells_negative(bytes, byteorder, signed);
        match size_of(bytes, byteorder, negative) {
            None => Err(PyError::IntTooWide),
            Some(size) => Ok(complement(size, negative)),
        }
    }

    /// `self.to_bytes(length, byteorder, signed=signed)`: exactly `length` bytes, or
    /// `NegativeToUnsigned`, or `IntTooBig`.
    pub fn to_bytes(
        &self,
        alloc: Global,
        length: usize,
        byteorder: ArgByteOrder,
        signed: bool,
    ) -> PyResult<PyBytes>
        ensures negative { lacks_sign signed self.now ≡ true → result ≡ Err NegativeToUnsigned }
        ensures big { IsTooBig signed length self.now → result ≡ Err IntTooBig }
        ensures ok { IfOk result (λ bytes. bytes ≡ bytes_in byteorder length self.now) }
        ensures memory { holds signed length self.now ≡ true → IfErr result (λ e. e ≡ NoMemory) }
    {
        if self.as_i128() < 0 && !signed {
            return Err(PyError::NegativeToUnsigned);
        }
        if !is_held(self.as_i128(), length, signed) {
            return Err(PyError::IntTooBig);
        }
        let mut bytes = low_bytes_of(alloc, *self, length)?;
        match byteorder {
            ArgByteOrder::Little => Ok(PyBytes::from(bytes)),
            ArgByteOrder::Big => {
                bytes.reverse();
                Ok(PyBytes::from(bytes))
            }
        }
    }
}

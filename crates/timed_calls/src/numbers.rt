//! Calls on integers, over and over, and the sum of what they give.

use py_base::PyResult;
use py_int::PyInt;
use std::alloc::Global;

/// A call on integers.
#[derive(Clone, Copy, Debug, PartialEq, Eq)]
pub enum NumberCall {
    Modpow,
    Divmod,
    Literal,
    Repr,
}

impl NumberCall {
    /// The call of a name.
    pub fn of_name(name: &str) -> Option<NumberCall> {
        match name {
            "modpow" => Some(NumberCall::Modpow),
            "divmod" => Some(NumberCall::Divmod),
            "literal" => Some(NumberCall::Literal),
            "repr" => Some(NumberCall::Repr),
            _ => None,
        }
    }
}

// A base and an integer to be written, each one more at each call, and the first dividend.
const FIRST: i128 = 12345678901234567890123456789012345678;

const EXPONENT: i128 = 98765432109876543210987654321;

const DIVISOR: i128 = 1234567890123456789;

// 16 binary digits.
const LAST_DIGITS: i128 = 0xffff;

// 38 digits, of which the last one is another at each call.
const DIGITS: [u8; 38] = *b"12345678901234567890123456789012345678";

/// The sum over so many calls: of the last 16 binary digits of the integers, or of lengths.
pub fn sum(alloc: Global, call: NumberCall, times: u32) -> PyResult<i128> {
    match call {
        NumberCall::Modpow => powers(times),
        NumberCall::Divmod => quotients(times),
        NumberCall::Literal => literals(times),
        NumberCall::Repr => lengths(alloc, times),
    }
}

// The last 16 binary digits.
fn last_digits(number: PyInt) -> i128 {
    number.as_i128() & LAST_DIGITS
}

// Powers under the modulus 2^127 - 1.
fn powers(times: u32) -> PyResult<i128> {
    let exponent = PyInt::from(EXPONENT);
    let modulus = PyInt::from(i128::MAX);
    let mut sum = 0i128;
    for i in 0..times {
        let base = PyInt::from(FIRST + i128::from(i));
        let power = base.modpow(exponent, modulus)?;
        sum = sum.wrapping_add(last_digits(power));
    }
    Ok(sum)
}

// Quotients and remainders. The dividend and the divisor of a call come from the call before it, so
// that none can be made ahead of its turn.
fn quotients(times: u32) -> PyResult<i128> {
    let mut sum = 0i128;
    let mut last = 0i128;
    for _ in 0..times {
        let dividend = PyInt::from(FIRST.wrapping_add(last));
        let divisor = PyInt::from(DIVISOR.wrapping_add(last));
        let (quotient, remainder) = dividend.divmod(divisor)?;
        last = last_digits(quotient).wrapping_add(last_digits(remainder));
        sum = sum.wrapping_add(last);
    }
    Ok(sum)
}

// Integers of literals.
fn literals(times: u32) -> PyResult<i128> {
    let mut digits = DIGITS;
    let mut sum = 0i128;
    for i in 0..times {
        digits[37] = b'0' + (i % 10) as u8;
        let number = PyInt::try_int_radix(&digits, 10)?;
        sum = sum.wrapping_add(last_digits(number));
    }
    Ok(sum)
}

// Lengths of integers written in decimal.
fn lengths(alloc: Global, times: u32) -> PyResult<i128> {
    let mut sum = 0i128;
    for i in 0..times {
        let number = PyInt::from(FIRST + i128::from(i));
        let text = number.repr(alloc)?;
        sum = sum.wrapping_add(text.char_len() as i128);
    }
    Ok(sum)
}

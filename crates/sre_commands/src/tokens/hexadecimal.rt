//! Lower-case hexadecimal, a block at a time: a loop over a block without a branch is vector code.

ghost use Rattle.std.specs.Prelude.{◌≡◌, ◌≢◌, ◌<◌, ◌≤◌, ◌*◌, ◌/◌, ◌%◌, ◌++◌, ℕ, List, length, take, slice_index, true, false, IsTrue, IfOk, IfSome, IfNone, OnOk};
ghost use Rattle.std.specs.List.{list_any};
ghost use Rattle.hex.specs.Hex.{encode_lower, lower_digits, IsBytes};
ghost use Rattle.sre_commands.specs.Tokens.Hexadecimal.{is_digit, is_no_digit};

use std::alloc::{AllocError, Global};

// How many bytes a block has.
const BLOCK_BYTES: usize = 128;

// How many digits a block of bytes has.
const BLOCK_DIGITS: usize = 256;

// The digit of a number below 16.
fn digit_of(number: u8) -> u8
    requires { number < 16 }
    ensures { result ≡ slice_index lower_digits number }
{
    number + if number < 10 { b'0' } else { b'a' - 10 }
}

// Writes the digits of the bytes to the first places of a block.
fn encode_block(bytes: &[u8], block: &mut [u8; BLOCK_DIGITS])
    requires { length bytes.now ≤ BLOCK_BYTES }
    ensures { take (2 * length bytes.now) block.new ≡ encode_lower bytes.now }
{
    'bytes: for i in 0..bytes.len() {
        block[2 * i] = digit_of(bytes[i] >> 4);
        block[2 * i + 1] = digit_of(bytes[i] & 15);
    }
}

/// Appends the digits of the bytes.
pub(crate) fn append_digits(line: &mut Vec<u8>, bytes: &[u8]) -> Result<(), AllocError>
    ensures { OnOk result (line.new.items ≡ line.old.items ++ encode_lower bytes.now) }
{
    let mut block = [0u8; BLOCK_DIGITS];
    let mut place = 0;
    'parts: while place < bytes.len() {
        let count = (bytes.len() - place).min(BLOCK_BYTES);
        encode_block(&bytes[place..place + count], &mut block);
        line.extend_from_slice(&block[..2 * count])?;
        place += count;
    }
    Ok(())
}

// Whether a byte is a digit.
fn is_digit(byte: u8) -> bool
    ensures { result ≡ is_digit byte }
{
    (b'0' <= byte && byte <= b'9') | (b'a' <= byte && byte <= b'f')
}

// The number that a digit writes. Of another byte it is any number.
fn value_of(byte: u8) -> u8
    ensures small { is_digit byte ≡ true → result < 16 }
    ensures digit { is_digit byte ≡ true → slice_index lower_digits result ≡ byte }
{
    (byte & 15).wrapping_add(9 * (byte >> 6))
}

// Whether these are digits, and then writes their bytes to the first places of a block.
fn decode_block(digits: &[u8], block: &mut [u8; BLOCK_BYTES]) -> bool
    requires most { length digits.now ≤ BLOCK_DIGITS }
    requires even { length digits.now % 2 ≡ 0 }
    ensures read { IsTrue result
        → digits.now ≡ encode_lower (take (length digits.now / 2) block.new) }
    ensures bytes { IsBytes block.new }
    ensures none { result ≡ false → list_any is_no_digit digits.now ≡ true }
{
    let mut wrong = false;
    'pairs: for i in 0..digits.len() / 2 {
        let high = digits[2 * i];
        let low = digits[2 * i + 1];
        wrong = wrong | !is_digit(high) | !is_digit(low);
        block[i] = value_of(high).wrapping_mul(16).wrapping_add(value_of(low));
    }
    !wrong
}

/// The bytes whose digits these are, or `None` where they are the digits of none.
pub(crate) fn decode(alloc: Global, digits: &[u8]) -> Result<Option<Vec<u8>>, AllocError>
    ensures found { IfOk result (λ o. IfSome o (λ bytes. digits.now ≡ encode_lower bytes.items)) }
    ensures bytes { IfOk result (λ o. IfSome o (λ bytes. IsBytes bytes.items)) }
    ensures none { IfOk result (λ o. IfNone o ((bytes : List ℕ) → IsBytes bytes
        → digits.now ≢ encode_lower bytes)) }
{
    if digits.len() % 2 != 0 {
        return Ok(None);
    }
    let mut bytes = Vec::with_capacity(alloc, digits.len() / 2)?;
    let mut block = [0u8; BLOCK_BYTES];
    let mut place = 0;
    'parts: while place < digits.len() {
        let count = (digits.len() - place).min(BLOCK_DIGITS) / 2;
        if !decode_block(&digits[place..place + 2 * count], &mut block) {
            return Ok(None);
        }
        bytes.extend_from_slice(&block[..count])?;
        place += 2 * count;
    }
    Ok(Some(bytes))
}

//! The digits, the sign and the prefix of a number.

ghost use Rattle.std.specs.Prelude.{◌≡◌, ◌<◌, ◌≤◌, drop};
ghost use Rattle.std.specs.Fmt.{digits, digit_glyph};
ghost use Rattle.py_spec.specs.Percent.Writing as spec;

use crate::percent::parts::{CConversionFlags, CNumberType};
use bitflags::Flags;
use itoa::Buffer;

/// How many digits there is room for. The most are those of 2^128 - 1 in base 8, which are 43.
pub(crate) const ROOM: usize = 64;

fn glyph(digit: u8, upper: bool) -> u8
    requires { digit < 16 }
    ensures { result ≡ digit_glyph upper digit }
{
    if digit < 10 {
        48 + digit
    } else if upper {
        55 + digit
    } else {
        87 + digit
    }
}

// Writes the digits of a number so that they end with the room, and returns where they begin.
#[tactic(auto, using(crate::proofs::NumeralLemmas::digits_put))]
fn put_digits(room: &mut [u8; ROOM], n: u128, base: u128, upper: bool) -> usize
    requires { (8 ≤ base) × (base ≤ 16) }
    ensures within { result ≤ 64 }
    ensures digits { drop result room.new ≡ digits base upper n }
{
    let mut left = n;
    let mut at = ROOM;
    'digits: while left >= base {
        at -= 1;
        room[at] = glyph((left % base) as u8, upper);
        left /= base;
    }
    room[at - 1] = glyph(left as u8, upper);
    at - 1
}

fn digits_in(room: &mut [u8; ROOM], n: u128, base: u128, upper: bool) -> &[u8]
    requires { (8 ≤ base) × (base ≤ 16) }
    ensures { result.now ≡ digits base upper n }
{
    let at = put_digits(room, n, base, upper);
    &room[at..]
}

/// The digits of a number of this type. They are in one of the two rooms.
pub(crate) fn digits_of<'b>(
    decimal: &'b mut Buffer,
    room: &'b mut [u8; ROOM],
    kind: CNumberType,
    n: u128,
) -> &'b [u8]
    ensures { result.now ≡ spec.digits_of kind n }
{
    match kind {
        CNumberType::Decimal => decimal.format(n).as_bytes(),
        CNumberType::Octal => digits_in(room, n, 8, false),
        CNumberType::Hex => digits_in(room, n, 16, false),
        CNumberType::HexUpper => digits_in(room, n, 16, true),
    }
}

/// The sign of a number.
pub(crate) fn sign_of(flags: CConversionFlags, negative: bool) -> &'static str
    ensures { result.now ≡ spec.sign_text flags negative }
{
    if negative {
        "-"
    } else if flags.contains(CConversionFlags::SIGN_CHAR) {
        "+"
    } else if flags.contains(CConversionFlags::BLANK_SIGN) {
        " "
    } else {
        ""
    }
}

/// The prefix of a number of this type, with `#`.
pub(crate) fn prefix_of(flags: CConversionFlags, kind: CNumberType) -> &'static str
    ensures { result.now ≡ spec.prefix_text flags kind }
{
    if !flags.contains(CConversionFlags::ALTERNATE_FORM) {
        return "";
    }
    match kind {
        CNumberType::Decimal => "",
        CNumberType::Octal => "0o",
        CNumberType::Hex => "0x",
        CNumberType::HexUpper => "0X",
    }
}

//! The calls of the tables, by their subject.

pub mod forms;
pub mod numbers;
pub mod pieces;
pub mod searches;
pub mod slices;
pub mod values;
mod walks;

ghost use Rattle.std.specs.Prelude.{◌≡◌, ◌↔◌, ◌^◌, ◌-◌, ◌≤ℤ◌, negsuc, pos, IfOk, IsOk, IsOkUnless};
ghost use Rattle.call_tables.specs.Calls.Arguments.{optional_of, order_number, flag_of, size_of};
ghost use Rattle.call_tables.specs.declared.fault.Fault.TheVariants.{BadArguments};

use crate::fault::Fault;
use crate::token::Token;
use py_int::PyInt;
use std::cmp::Ordering;

// A number, or none.
fn optional(token: &Token) -> Result<Option<i128>, Fault>
    ensures { result ≡ optional_of token.now }
{
    match token {
        Token::Int(number) => Ok(Some(*number)),
        Token::Missing => Ok(None),
        _ => Err(Fault::BadArguments),
    }
}

// An integer, or none.
fn optional_int(token: &Token) -> Result<Option<PyInt>, Fault>
    ensures { result ≡ optional_of token.now }
{
    match token {
        Token::Int(number) => Ok(Some(PyInt::from(*number))),
        Token::Missing => Ok(None),
        _ => Err(Fault::BadArguments),
    }
}

// A number that is a place or a length.
fn size(number: i128) -> Result<usize, Fault>
    ensures { result ≡ size_of number }
{
    usize::try_from(number).map_err(|_| Fault::BadArguments)
}

/// A number of 64 bits, with a sign.
pub fn signed(number: i128) -> Result<isize, Fault>
    ensures ok { IfOk result (λ place. place ≡ number) }
    ensures fits { IsOk result ↔ ((negsuc (2 ^ 63 - 1) ≤ℤ number) × (number ≤ℤ pos (2 ^ 63 - 1))) }
    ensures err { IsOkUnless result BadArguments }
{
    isize::try_from(number).map_err(|_| Fault::BadArguments)
}

// -1, 0 or 1.
fn order_number(order: Ordering) -> i128
    ensures { result ≡ order_number order }
{
    match order {
        Ordering::Less => -1,
        Ordering::Equal => 0,
        Ordering::Greater => 1,
    }
}

// A bool.
fn flag(number: i128) -> Result<bool, Fault>
    ensures { result ≡ flag_of number }
{
    match number {
        0 => Ok(false),
        1 => Ok(true),
        _ => Err(Fault::BadArguments),
    }
}

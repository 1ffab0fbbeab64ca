//! Calls that search in a text or compare two.

ghost use Rattle.std.specs.Vec.{vec_items};
ghost use Rattle.call_tables.specs.Calls.Searches.{of_text, of_two, of_bytes, of_two_bytes, in_window, searched};
ghost use Rattle.call_tables.specs.Results.{Answers, items_of};

use super::{optional, order_number};
use crate::fault::Fault;
use crate::results::{Outcome, copy_of, flag, lengths, number, place};
use crate::token::Token;
use py_text::{FindArgs, PyBytes, PyStr};
use std::alloc::Global;

/// A call of the table `texts`.
pub fn answer(alloc: Global, name: &str, arguments: &[Token]) -> Outcome
    ensures { Answers (searched name.now arguments.now) (items_of vec_items result) }
{
    match arguments {
        [Token::Text(text)] => of_text(alloc, name, text),
        [Token::Text(text), Token::Text(other)] => of_two(alloc, name, text, other),
        [Token::Bytes(bytes)] => of_bytes(alloc, name, bytes),
        [Token::Bytes(one), Token::Bytes(other)] => of_two_bytes(alloc, name, one, other),
        [Token::Text(text), Token::Text(part), start, end] => {
            let args = FindArgs {
                sub: copy_of(alloc, part)?,
                start: optional(start)?,
                end: optional(end)?,
            };
            in_window(alloc, name, text, &args)
        }
        _ => Err(Fault::BadArguments),
    }
}

fn of_text(alloc: Global, name: &str, text: &PyStr) -> Outcome
    ensures { Answers (of_text name.now text.now) (items_of vec_items result) }
{
    match name {
        "lengths" => lengths(alloc, text),
        _ => Err(Fault::NoCall),
    }
}

fn of_two(alloc: Global, name: &str, text: &PyStr, other: &PyStr) -> Outcome
    ensures { Answers (of_two name.now text.now other.now) (items_of vec_items result) }
{
    match name {
        "contains" => flag(alloc, text.contains(other)),
        "compare" => number(alloc, order_number(text.cmp(other))),
        _ => Err(Fault::NoCall),
    }
}

fn of_bytes(alloc: Global, name: &str, bytes: &PyBytes) -> Outcome
    ensures { Answers (of_bytes name.now bytes.now) (items_of vec_items result) }
{
    match name {
        "bytes_len" => number(alloc, bytes.len() as i128),
        _ => Err(Fault::NoCall),
    }
}

fn of_two_bytes(alloc: Global, name: &str, one: &PyBytes, other: &PyBytes) -> Outcome
    ensures { Answers (of_two_bytes name.now one.now other.now) (items_of vec_items result) }
{
    match name {
        "compare_bytes" => number(alloc, order_number(one.cmp(other))),
        _ => Err(Fault::NoCall),
    }
}

fn in_window(alloc: Global, name: &str, text: &PyStr, args: &FindArgs) -> Outcome
    ensures { Answers (in_window name.now text.now args.now) (items_of vec_items result) }
{
    match name {
        "find" => number(alloc, text.find(args) as i128),
        "rfind" => number(alloc, text.rfind(args) as i128),
        "count" => number(alloc, text.count(args) as i128),
        "index" => place(alloc, text.index(args)),
        "rindex" => place(alloc, text.rindex(args)),
        "startswith" => flag(alloc, text.startswith(&args.sub, args.start, args.end)),
        "endswith" => flag(alloc, text.endswith(&args.sub, args.start, args.end)),
        _ => Err(Fault::NoCall),
    }
}

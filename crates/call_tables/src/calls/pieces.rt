//! Calls that cut a text, join texts, or replace parts.

use super::{flag, optional, signed};
use crate::fault::Fault;
use crate::results::{Outcome, copy_of, parts, text, texts};
use crate::token::Token;
use py_text::{PyStr, SplitArgs, TextList};
use std::alloc::Global;

/// A call of the table `pieces`.
pub fn answer(alloc: Global, name: &str, arguments: &[Token]) -> Outcome {
    match arguments {
        [Token::Text(subject), Token::Text(part)] => with_part(alloc, name, subject, part),
        [Token::Text(subject), Token::Int(keepends)] => lines(alloc, name, subject, *keepends),
        [Token::Text(subject), sep, Token::Int(maxsplit)] => {
            let sep = separator(alloc, sep)?;
            let maxsplit = signed(*maxsplit)?;
            split(alloc, name, subject, &SplitArgs { sep, maxsplit })
        }
        [Token::Text(subject), Token::Count(count), items @ ..] if *count == items.len() => {
            join(alloc, name, subject, items)
        }
        [
            Token::Text(subject),
            Token::Text(old),
            Token::Text(new),
            count,
        ] => { replace(alloc, name, subject, (old, new), count) }
        _ => Err(Fault::BadArguments),
    }
}

fn with_part(alloc: Global, name: &str, subject: &PyStr, part: &PyStr) -> Outcome {
    match name {
        "removeprefix" => text(alloc, PyStr::copy_of(alloc, subject.removeprefix(part))),
        "removesuffix" => text(alloc, PyStr::copy_of(alloc, subject.removesuffix(part))),
        "partition" => parts(alloc, subject.partition(part)),
        "rpartition" => parts(alloc, subject.rpartition(part)),
        _ => Err(Fault::NoCall),
    }
}

fn lines(alloc: Global, name: &str, subject: &PyStr, keepends: i128) -> Outcome {
    let keepends = flag(keepends)?;
    match name {
        "splitlines" => texts(alloc, subject.splitlines(alloc, keepends)),
        _ => Err(Fault::NoCall),
    }
}

// A separator, or none.
fn separator(alloc: Global, token: &Token) -> Result<Option<PyStr>, Fault> {
    match token {
        Token::Text(sep) => Ok(Some(copy_of(alloc, sep)?)),
        Token::Missing => Ok(None),
        _ => Err(Fault::BadArguments),
    }
}

fn split(alloc: Global, name: &str, subject: &PyStr, args: &SplitArgs) -> Outcome {
    match name {
        "split" => texts(alloc, subject.split(alloc, args)),
        "rsplit" => texts(alloc, subject.rsplit(alloc, args)),
        _ => Err(Fault::NoCall),
    }
}

fn join(alloc: Global, name: &str, between: &PyStr, items: &[Token]) -> Outcome {
    let list = list_of(alloc, items)?;
    match name {
        "join" => text(alloc, between.join(alloc, &list)),
        _ => Err(Fault::NoCall),
    }
}

fn list_of(alloc: Global, items: &[Token]) -> Result<TextList, Fault> {
    let mut list = TextList::new(alloc);
    for item in items {
        match item {
            Token::Text(item) => list.push(copy_of(alloc, item)?)?,
            _ => return Err(Fault::BadArguments),
        }
    }
    Ok(list)
}

// The old part and the new one come as a pair.
fn replace(
    alloc: Global,
    name: &str,
    subject: &PyStr,
    (old, new): (&PyStr, &PyStr),
    count: &Token,
) -> Outcome {
    let count = match optional(count)? {
        Some(count) => Some(signed(count)?),
        None => None,
    };
    match name {
        "replace" => text(alloc, subject.replace(alloc, old, new, count)),
        _ => Err(Fault::NoCall),
    }
}

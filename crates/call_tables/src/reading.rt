//! Reading the call of a line: its name, and its arguments one space apart.

ghost use Rattle.std.specs.Prelude.{◌≡◌, ◌++◌, IfOk, OnOk, string_bytes};
ghost use Rattle.call_tables.specs.Lines.{IsName};
ghost use Rattle.call_tables.specs.Token.{spaced};

use crate::fault::Fault;
use crate::token::{Token, write_spaced};
use py_int::ArgByteOrder;
use py_text::{PyBytes, PyStr};
use std::alloc::Global;

/// A call of a table.
#[derive(Debug, Drop)]
pub struct Call<'a> {
    pub name: &'a str,
    pub arguments: Vec<Token>,
}

/// The call of a text, which is read only where it is written as a table writes the call.
pub fn call_of(alloc: Global, text: &str) -> Result<Call<'_>, Fault>
    ensures written { IfOk result (λ call.
        text.now ≡ call.name.now ++ spaced call.arguments.items) }
    ensures name { IfOk result (λ call. IsName call.name.now) }
{
    let Some((name, words)) = text.split_once(' ') else {
        return Err(Fault::BadArguments);
    };
    if name.is_empty() {
        return Err(Fault::BadArguments);
    }
    let arguments = tokens_of(alloc, words)?;
    let mut again = String::from_str(alloc, name)?;
    write_spaced(&mut again, alloc, &arguments)?;
    if again.as_str() != text {
        return Err(Fault::BadArguments);
    }
    Ok(Call { name, arguments })
}

fn tokens_of(alloc: Global, words: &str) -> Result<Vec<Token>, Fault> {
    let mut tokens = Vec::new(alloc);
    for word in words.split(' ') {
        let token = token_of(alloc, word)?;
        tokens.push(token)?;
    }
    Ok(tokens)
}

fn token_of(alloc: Global, word: &str) -> Result<Token, Fault> {
    match word {
        "-" => Ok(Token::Missing),
        "big" => Ok(Token::Order(ArgByteOrder::Big)),
        "little" => Ok(Token::Order(ArgByteOrder::Little)),
        "n" => Ok(Token::Next),
        "h" => Ok(Token::Hint),
        _ => value_of(alloc, word),
    }
}

// A letter and a value.
fn value_of(alloc: Global, word: &str) -> Result<Token, Fault> {
    if let Some(digits) = word.strip_prefix('t') {
        text_of(alloc, digits)
    } else if let Some(digits) = word.strip_prefix('b') {
        bytes_of(alloc, digits)
    } else if let Some(digits) = word.strip_prefix('i') {
        number_of(digits)
    } else {
        count_of(word)
    }
}

fn text_of(alloc: Global, digits: &str) -> Result<Token, Fault> {
    match String::from_utf8(decoded(alloc, digits)?) {
        Ok(text) => Ok(Token::Text(PyStr::from(text))),
        Err(_) => Err(Fault::BadArguments),
    }
}

fn bytes_of(alloc: Global, digits: &str) -> Result<Token, Fault> {
    Ok(Token::Bytes(PyBytes::from(decoded(alloc, digits)?)))
}

fn number_of(digits: &str) -> Result<Token, Fault> {
    match digits.parse::<i128>() {
        Ok(number) => Ok(Token::Int(number)),
        Err(_) => Err(Fault::BadArguments),
    }
}

fn count_of(word: &str) -> Result<Token, Fault> {
    let Some(digits) = word.strip_prefix('l') else {
        return Err(Fault::BadArguments);
    };
    match digits.parse::<usize>() {
        Ok(count) => Ok(Token::Count(count)),
        Err(_) => Err(Fault::BadArguments),
    }
}

// The bytes of hexadecimal digits, in either case.
fn decoded(alloc: Global, digits: &str) -> Result<Vec<u8>, Fault> {
    match hex::decode(alloc, digits) {
        Ok(bytes) => Ok(bytes),
        Err(hex::FromHexError::OutOfMemory) => Err(Fault::NoMemory),
        Err(_) => Err(Fault::BadArguments),
    }
}

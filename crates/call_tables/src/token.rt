//! The words of a table: arguments and answers are written in the same way.

ghost use Rattle.std.specs.Prelude.{◌≡◌, ◌++◌, IfOk, OnOk, string_bytes};
ghost use Rattle.call_tables.specs.Token.{token_text, spaced};

use py_int::ArgByteOrder;
use py_text::{PyBytes, PyStr};
use std::alloc::{AllocError, Global};

/// What one word of a table says.
#[derive(Debug, Drop)]
pub enum Token {
    /// `t` and the hexadecimal digits of its UTF-8 bytes.
    Text(PyStr),
    /// `b` and hexadecimal digits.
    Bytes(PyBytes),
    /// `i` and decimal digits; a bool is 0 or 1.
    Int(i128),
    /// `l` and how many items follow.
    Count(usize),
    /// `-`: `None`.
    Missing,
    /// `big` or `little`.
    Order(ArgByteOrder),
    /// `n`: the iterator's next character.
    Next,
    /// `h`: how many characters the iterator has left.
    Hint,
}

impl Token {
    /// The word.
    pub fn written(&self, alloc: Global) -> Result<String, AllocError>
        ensures { IfOk result (λ word. string_bytes word ≡ token_text self.now) }
    {
        match self {
            Token::Text(text) => text_word(alloc, text),
            Token::Bytes(bytes) => bytes_word(alloc, bytes),
            Token::Int(number) => format!(in alloc; "i{number}"),
            Token::Count(count) => format!(in alloc; "l{count}"),
            Token::Missing => String::from_str(alloc, "-"),
            Token::Order(order) => String::from_str(alloc, order_word(*order)),
            Token::Next => String::from_str(alloc, "n"),
            Token::Hint => String::from_str(alloc, "h"),
        }
    }
}

fn text_word(alloc: Global, text: &PyStr) -> Result<String, AllocError>
    ensures { IfOk result (λ word. string_bytes word ≡ token_text (Token.Text text.now)) }
{
    let digits = hex::encode(alloc, text.as_str().as_bytes())?;
    format!(in alloc; "t{digits}")
}

fn bytes_word(alloc: Global, bytes: &PyBytes) -> Result<String, AllocError>
    ensures { IfOk result (λ word. string_bytes word ≡ token_text (Token.Bytes bytes.now)) }
{
    let digits = hex::encode(alloc, bytes.as_bytes())?;
    format!(in alloc; "b{digits}")
}

fn order_word(order: ArgByteOrder) -> &'static str
    ensures { result.now ≡ token_text (Token.Order order) }
{
    match order {
        ArgByteOrder::Big => "big",
        ArgByteOrder::Little => "little",
    }
}

/// Writes a space and then a word for each token.
pub fn write_spaced(line: &mut String, alloc: Global, tokens: &[Token]) -> Result<(), AllocError>
    ensures { OnOk result (string_bytes line.new ≡ string_bytes line.old ++ spaced tokens.now) }
{
    for token in tokens {
        let word = token.written(alloc)?;
        line.push_str(" ")?;
        line.push_str(word.as_str())?;
    }
    Ok(())
}

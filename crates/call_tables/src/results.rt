//! What a call gives, in tokens: its value, or its own error.

ghost use Rattle.std.specs.Prelude.{◌≡◌, pos, [], ◌∷◌, IfOk, Ok, chars, string_bytes};
ghost use Rattle.std.specs.Vec.{vec_items};
ghost use Rattle.call_tables.specs.Results.{Tells, items_of, told, one, flag_token, is_of_call, length_tokens, part_tokens, text_tokens, outcome_text};

use crate::fault::Fault;
use crate::token::{Token, write_spaced};
use py_base::PyResult;
use py_int::PyInt;
use py_text::{Partition, PyBytes, PyStr, TextList};
use std::alloc::{AllocError, Global};

/// The tokens of an answer, or why there are none.
pub type Outcome = Result<Vec<Token>, Fault>;

/// One token.
pub fn one(alloc: Global, token: Token) -> Outcome
    ensures { Tells (Ok (one token)) (items_of vec_items result) }
{
    Ok(vec![in alloc; token]?)
}

pub fn number(alloc: Global, number: i128) -> Outcome
    ensures { Tells (Ok (one (Token.Int number))) (items_of vec_items result) }
{
    one(alloc, Token::Int(number))
}

pub fn flag(alloc: Global, flag: bool) -> Outcome
    ensures { Tells (Ok (one (flag_token flag))) (items_of vec_items result) }
{
    one(alloc, flag_of(flag))
}

// A bool as a number.
fn flag_of(flag: bool) -> Token
    ensures { result ≡ flag_token flag }
{
    Token::Int(if flag { 1 } else { 0 })
}

pub fn text(alloc: Global, outcome: PyResult<PyStr>) -> Outcome
    ensures { Tells (told (λ t. one (Token.Text t)) outcome) (items_of vec_items result) }
{
    one(alloc, Token::Text(outcome?))
}

pub fn bytes(alloc: Global, outcome: PyResult<PyBytes>) -> Outcome
    ensures { Tells (told (λ bs. one (Token.Bytes bs)) outcome) (items_of vec_items result) }
{
    one(alloc, Token::Bytes(outcome?))
}

pub fn int(alloc: Global, outcome: PyResult<PyInt>) -> Outcome
    ensures { Tells (told (λ z. one (Token.Int z)) outcome) (items_of vec_items result) }
{
    one(alloc, Token::Int(outcome?.as_i128()))
}

pub fn place(alloc: Global, outcome: PyResult<usize>) -> Outcome
    ensures { Tells (told (λ n. one (Token.Int (pos n))) outcome) (items_of vec_items result) }
{
    one(alloc, Token::Int(outcome? as i128))
}

pub fn ints(alloc: Global, outcome: PyResult<(PyInt, PyInt)>) -> Outcome
    ensures { Tells (told (λ p. Token.Int p.0 ∷ Token.Int p.1 ∷ []) outcome)
        (items_of vec_items result) }
{
    let (first, second) = outcome?;
    let tokens = [Token::Int(first.as_i128()), Token::Int(second.as_i128())];
    Ok(Vec::from_array(alloc, tokens)?)
}

/// How many texts there are, and then each.
pub fn texts(alloc: Global, outcome: PyResult<TextList>) -> Outcome
    ensures { Tells (told text_tokens outcome) (items_of vec_items result) }
{
    let list = outcome?;
    Ok(tokens_of(alloc, &list)?)
}

fn tokens_of(alloc: Global, list: &TextList) -> Result<Vec<Token>, AllocError>
    ensures { IfOk result (λ tokens. tokens.items ≡ text_tokens list.now) }
{
    let mut tokens = vec![in alloc; Token::Count(list.len())]?;
    for i in 0..list.len() {
        if let Some(item) = list.get(i) {
            let text = copy_of(alloc, item)?;
            tokens.push(Token::Text(text))?;
        }
    }
    Ok(tokens)
}

/// A copy of a text that an answer or an argument keeps.
pub fn copy_of(alloc: Global, text: &PyStr) -> Result<PyStr, AllocError>
    ensures { IfOk result (λ copy. copy ≡ text.now) }
{
    match text.try_clone(alloc) {
        Ok(copy) => Ok(copy),
        Err(_) => Err(AllocError),
    }
}

/// The tokens of the three parts of a text.
pub fn parts(alloc: Global, outcome: PyResult<Partition<'_>>) -> Outcome
    ensures { Tells
        (told (λ p. part_tokens (chars p.front.now, chars p.mid.now, chars p.back.now))
        outcome.entry)
        (items_of vec_items result) }
{
    let Partition { front, mid, back } = outcome?;
    let tokens = [
        Token::Text(text_of(alloc, front)?),
        Token::Text(text_of(alloc, mid)?),
        Token::Text(text_of(alloc, back)?),
    ];
    Ok(Vec::from_array(alloc, tokens)?)
}

// A part of a text as a text of its own.
fn text_of(alloc: Global, part: &str) -> Result<PyStr, AllocError>
    ensures { IfOk result (λ copy. copy ≡ chars part.now) }
{
    match PyStr::copy_of(alloc, part) {
        Ok(copy) => Ok(copy),
        Err(_) => Err(AllocError),
    }
}

/// How many code points a text has, how many bytes, and whether all of it is ASCII.
pub fn lengths(alloc: Global, text: &PyStr) -> Outcome
    ensures { Tells (Ok (length_tokens text.now)) (items_of vec_items result) }
{
    let tokens = [
        Token::Int(text.char_len() as i128),
        Token::Int(text.byte_len() as i128),
        flag_of(text.is_ascii()),
    ];
    Ok(Vec::from_array(alloc, tokens)?)
}

/// An integer, and the denominator that comes with it.
pub fn ratio(alloc: Global, ratio: (PyInt, i32)) -> Outcome
    ensures { Tells (Ok (Token.Int ratio.0 ∷ Token.Int ratio.1 ∷ [])) (items_of vec_items result) }
{
    let (numerator, denominator) = ratio;
    let tokens = [
        Token::Int(numerator.as_i128()),
        Token::Int(i128::from(denominator)),
    ];
    Ok(Vec::from_array(alloc, tokens)?)
}

/// Whether an outcome is the call's own: tokens, or an error of the call. It is not where the line
/// is no call of the table.
pub fn is_of_call(outcome: &Outcome) -> bool
    ensures { result ≡ is_of_call (items_of vec_items outcome.now) }
{
    matches!(outcome, Ok(_) | Err(Fault::Error(_)))
}

/// An outcome as a table writes it, each word after a space.
pub fn written(alloc: Global, outcome: &Outcome) -> Result<String, AllocError>
    ensures { let want = outcome_text (items_of vec_items outcome.now) in
        IfOk result (λ text. string_bytes text ≡ want) }
{
    match outcome {
        Ok(tokens) => {
            let mut text = String::new(alloc);
            write_spaced(&mut text, alloc, tokens)?;
            Ok(text)
        }
        Err(Fault::Error(error)) => {
            let name = error.name();
            format!(in alloc; " error {name}")
        }
        Err(Fault::NoMemory) => Err(AllocError),
        Err(Fault::BadArguments) => String::from_str(alloc, " nothing: bad arguments"),
        Err(Fault::NoCall) => String::from_str(alloc, " nothing: no such call"),
    }
}

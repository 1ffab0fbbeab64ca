//! How the lines of a request are read.

ghost use Rattle.std.specs.Prelude.{◌≡◌, codes, suc, length};
ghost use Rattle.py_base.specs.Reading.{read_of, read_as};
ghost use Rattle.sre_commands.specs.Error.{Meets};
ghost use Rattle.sre_commands.specs.Tokens.Number as numbers;
ghost use Rattle.sre_commands.specs.Tokens.Text as texts;
ghost use Rattle.sre_commands.specs.Commands.Sub.Template as templates;
ghost use Rattle.sre_commands.specs.Commands.Sub.Template.{replacement_of};
ghost use Rattle.sre_commands.specs.Commands.Sub.Reader as spec;
ghost use Rattle.sre_commands.specs.Commands.Sub.Request.{code_of, request_of};

use super::request::Substitution;
use super::template::{Template, read_template};
use crate::error::ParseError;
use crate::tokens::number::{read_number, read_words};
use crate::tokens::reader::{Read, read_past};
use crate::tokens::text::read_text;
use py_text::PyStr;
use std::alloc::Global;

fn read_text_line<'b>(alloc: Global, bytes: &'b [u8], name: &[u8]) -> Read<'b, PyStr>
    ensures { Meets (spec.read_line name.now texts.read_text bytes.now)
        (read_of result) }
{
    let (_, rest) = read_past(bytes, name)?;
    let (text, rest) = read_text(alloc, rest)?;
    let (_, rest) = read_past(rest, b"\n")?;
    Ok((text, rest))
}

fn read_number_line<'b>(bytes: &'b [u8], name: &[u8]) -> Read<'b, usize>
    ensures { Meets (spec.read_line name.now numbers.read_number bytes.now) (read_of result) }
{
    let (_, rest) = read_past(bytes, name)?;
    let (number, rest) = read_number(rest)?;
    let (_, rest) = read_past(rest, b"\n")?;
    Ok((number as usize, rest))
}

fn read_words_line(alloc: Global, bytes: &[u8]) -> Read<Vec<u32>>
    ensures { Meets (spec.read_line (codes "code") spec.read_all_words bytes.now)
        (read_as (λ words. words.items) result) }
{
    let (_, rest) = read_past(bytes, b"code")?;
    let (words, rest) = read_words(alloc, rest)?;
    let (_, rest) = read_past(rest, b"\n")?;
    Ok((words, rest))
}

fn read_template_line(alloc: Global, groups: usize, bytes: &[u8]) -> Read<Template>
    ensures { Meets (spec.read_line (codes "list") (templates.read_template groups) bytes.now)
        (read_as replacement_of result) }
{
    let (_, rest) = read_past(bytes, b"list")?;
    let (template, rest) = read_template(alloc, groups, rest)?;
    let (_, rest) = read_past(rest, b"\n")?;
    Ok((template, rest))
}

/// A pattern, the code words that it was compiled to, and how many groups it has.
#[derive(Drop)]
pub struct Code {
    pub pattern: PyStr,
    pub words: Vec<u32>,
    pub groups: usize,
}

fn read_code(alloc: Global, bytes: &[u8]) -> Read<Code>
    ensures { Meets (spec.read_code bytes.now) (read_as code_of result) }
{
    let (pattern, rest) = read_text_line(alloc, bytes, b"pattern ")?;
    let (words, rest) = read_words_line(alloc, rest)?;
    let (groups, rest) = read_number_line(rest, b"groups ")?;
    Ok((
        Code {
            pattern,
            words,
            groups,
        },
        rest,
    ))
}

fn read_lines(alloc: Global, bytes: &[u8]) -> Read<Substitution>
    ensures { Meets (spec.read_lines bytes.now) (read_as request_of result) }
{
    let (code, rest) = read_code(alloc, bytes)?;
    let (limit, rest) = read_number_line(rest, b"limit ")?;
    let (template, rest) = read_template_line(alloc, code.groups, rest)?;
    let (subject, rest) = read_text_line(alloc, rest, b"subject ")?;
    Ok((
        Substitution {
            pattern: code.pattern,
            words: code.words,
            groups: code.groups,
            limit,
            template,
            subject,
        },
        rest,
    ))
}

/// The request whose text the bytes are, all of the bytes.
pub(crate) fn read_request(alloc: Global, bytes: &[u8]) -> Result<Substitution, ParseError>
    ensures { Meets (spec.read_request bytes.now) (spec.result_as request_of result) }
{
    let (asked, rest) = read_lines(alloc, bytes)?;
    if !rest.is_empty() {
        return Err(ParseError::NoRequest);
    }
    Ok(asked)
}

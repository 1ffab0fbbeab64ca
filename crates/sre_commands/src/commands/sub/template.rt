//! Replacement templates, and how they are read.

ghost use Rattle.std.specs.Prelude.{◌≡◌, suc, length, map};
ghost use Rattle.py_base.specs.Reading.{read_as};
ghost use Rattle.sre_commands.specs.Error.{Meets};
ghost use Rattle.sre_commands.specs.Commands.Sub.Template as spec;
ghost use Rattle.sre_commands.specs.Commands.Sub.Template.{pair_of, replacement_of};

use crate::error::ParseError;
use crate::tokens::number::read_group;
use crate::tokens::reader::{Read, after_next, is_next, read_past};
use crate::tokens::text::read_text;
use py_text::PyStr;
use std::alloc::Global;

/// The number of a group, or 0 for the whole span, and the literal after it.
#[derive(Debug, Drop)]
pub struct Pair {
    pub group: usize,
    pub literal: PyStr,
}

/// A replacement template: a literal, and then pairs of a group and a literal.
#[derive(Debug, Drop)]
pub struct Template {
    pub head: PyStr,
    pub pairs: Vec<Pair>,
}

fn read_pair(alloc: Global, groups: usize, bytes: &[u8]) -> Read<Pair>
    ensures { Meets (spec.read_pair groups bytes.now) (read_as pair_of result) }
{
    let (group, rest) = read_group(groups, bytes)?;
    let (_, rest) = read_past(rest, b" ")?;
    let (literal, rest) = read_text(alloc, rest)?;
    Ok((Pair { group, literal }, rest))
}

fn read_pairs(alloc: Global, groups: usize, bytes: &[u8]) -> Read<Vec<Pair>>
    ensures { Meets (spec.read_pairs groups (suc (length bytes.now)) bytes.now)
        (read_as (λ pairs. map pair_of pairs.items) result) }
{
    let mut pairs = Vec::new(alloc);
    let mut rest = bytes;
    while is_next(b' ', rest) {
        let (pair, after) = read_pair(alloc, groups, after_next(rest))?;
        pairs.push(pair)?;
        rest = after;
    }
    Ok((pairs, rest))
}

/// The template of a pattern with so many groups.
pub(crate) fn read_template(alloc: Global, groups: usize, bytes: &[u8]) -> Read<Template>
    ensures { Meets (spec.read_template groups bytes.now) (read_as replacement_of result) }
{
    let (_, rest) = read_past(bytes, b" ")?;
    let (head, rest) = read_text(alloc, rest)?;
    let (pairs, rest) = read_pairs(alloc, groups, rest)?;
    Ok((Template { head, pairs }, rest))
}

//! Patterns.

ghost use Rattle.std.specs.Prelude.{◌≡◌, ◌⊎◌, Err, IfOk, IfErr, IsOkUnless};
ghost use Rattle.py_base.specs.declared.error.PyError.TheVariants.{NoMemory, InvalidCode};
ghost use Rattle.py_sre.specs.Flags.{known_flags};
ghost use Rattle.py_sre.specs.Pattern.{source_of, is_over_bytes};
ghost use Rattle.sre_code.specs.Spelling.{Spells, SpellsNothing};

use crate::flags::cut_to_known;
use crate::names::{GroupIndex, GroupNames};
use py_base::{PyError, PyResult};
use py_text::{PyBytes, PyStr};
use sre_code::{Checked, CodeError, decode};
use std::alloc::Global;
use std::marker::Model;
use std::rc::Rc;

/// What a pattern is made from. A pattern made from bytes is over bytes, and any other over texts.
#[derive(Drop)]
pub enum PatternSource {
    None,
    Str(PyStr),
    Bytes(PyBytes),
}

impl PatternSource {
    /// Whether a pattern made from it is over bytes.
    pub fn isbytes(&self) -> bool
        ensures { result ≡ is_over_bytes self.now }
    {
        match self {
            PatternSource::Bytes(_) => true,
            PatternSource::Str(_) => false,
            PatternSource::None => false,
        }
    }
}

/// A checked code, with what it was made from, its flags, and the names of its groups.
#[derive(Drop)]
pub struct Pattern {
    source: PatternSource,
    flags: u16,
    code: Checked,
    groupindex: GroupIndex,
    indexgroup: GroupNames,
}

/// A pattern that is shared: a clone is the same pattern, and copies nothing.
pub type PatternRef = Rc<Pattern>;

impl Model for Pattern {
    ghost use Rattle.py_sre.specs.Pattern.{PlainPattern, source_of, is_over_bytes};
    ghost use Rattle.py_sre.specs.Codes.{pattern_code};

    ghost Value = { PlainPattern };

    ghost coded = { pattern_code };

    ghost view = { λ p. record {
      source = source_of p.source;
      is_bytes = is_over_bytes p.source;
      flags = p.flags;
      code = p.code;
      groupindex = p.groupindex;
      indexgroup = p.indexgroup;
    } };
}

/// The code of these words, for a pattern with so many groups.
pub(crate) fn checked_code(alloc: Global, code: &[u32], groups: usize) -> PyResult<Checked>
    ensures found { IfOk result (λ made. Spells code.now groups made.tree) }
    ensures words { IfOk result (λ made. made.words ≡ code.now) }
    ensures groups { IfOk result (λ made. made.groups ≡ groups) }
    ensures invalid { result ≡ Err InvalidCode → SpellsNothing code.now groups }
    ensures err { IfErr result (λ e. (e ≡ NoMemory) ⊎ (e ≡ InvalidCode)) }
{
    match decode(alloc, code, groups) {
        Ok(made) => Ok(made),
        Err(CodeError::NoMemory) => Err(PyError::NoMemory),
        Err(CodeError::InvalidCode) => Err(PyError::InvalidCode),
    }
}

/// The pattern of a code. Of the flags the bits of those that there are count. Item i of
/// `indexgroup` names group i.
pub fn compile(
    alloc: Global,
    pattern: PatternSource,
    flags: u16,
    code: &[u32],
    groups: usize,
    groupindex: GroupIndex,
    indexgroup: GroupNames,
) -> PyResult<Pattern>
    ensures source { IfOk result (λ p. p.source ≡ source_of pattern) }
    ensures kind { IfOk result (λ p. p.is_bytes ≡ is_over_bytes pattern) }
    ensures flags { IfOk result (λ p. p.flags ≡ known_flags flags) }
    ensures words { IfOk result (λ p. p.code.words ≡ code.now) }
    ensures groups { IfOk result (λ p. p.code.groups ≡ groups) }
    ensures spelled { IfOk result (λ p. Spells code.now groups p.code.tree) }
    ensures groupindex { IfOk result (λ p. p.groupindex ≡ groupindex) }
    ensures indexgroup { IfOk result (λ p. p.indexgroup ≡ indexgroup) }
    ensures invalid { result ≡ Err InvalidCode → SpellsNothing code.now groups }
    ensures err { IfErr result (λ e. (e ≡ NoMemory) ⊎ (e ≡ InvalidCode)) }
{
    let code = checked_code(alloc, code, groups)?;
    Ok(Pattern {
        source: pattern,
        flags: cut_to_known(flags),
        code,
        groupindex,
        indexgroup,
    })
}

/// The pattern, to be shared.
pub fn pattern_ref(alloc: Global, pattern: Pattern) -> PyResult<PatternRef>
    ensures ok { IfOk result (λ made. made.value ≡ pattern) }
    ensures err { IsOkUnless result NoMemory }
{
    Ok(Rc::new(alloc, pattern)?)
}

impl Pattern {
    /// The flags, of which the bits of those that there are count.
    pub fn flags(&self) -> u16
        ensures { result ≡ self.now.flags }
    {
        self.flags
    }

    /// How many groups there are.
    pub fn groups(&self) -> usize
        ensures { result ≡ self.now.code.groups }
    {
        self.code.groups()
    }

    /// The numbers of groups by their names.
    pub fn groupindex(&self) -> &GroupIndex
        ensures { result.now ≡ self.now.groupindex }
    {
        &self.groupindex
    }

    /// The names of groups by their numbers.
    pub fn indexgroup(&self) -> &GroupNames
        ensures { result.now ≡ self.now.indexgroup }
    {
        &self.indexgroup
    }

    /// What it was made from.
    pub fn pattern(&self) -> &PatternSource
        ensures { source_of result.now ≡ self.now.source }
    {
        &self.source
    }

    /// Whether it is over bytes.
    pub fn isbytes(&self) -> bool
        ensures { result ≡ self.now.is_bytes }
    {
        self.source.isbytes()
    }

    /// The checked code.
    pub(crate) fn checked(&self) -> &Checked
        ensures { result.now ≡ self.now.code }
    {
        &self.code
    }

    /// The code words.
    pub fn code(&self) -> &[u32]
        ensures { result.now ≡ self.now.code.words }
    {
        self.code.words()
    }
}

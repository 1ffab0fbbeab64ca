//! What the readers of a code know.

use crate::error::CodeError;
use crate::opcodes::MAXGROUPS;
use std::alloc::Global;
use std::marker::Model;

/// What is read of the words, and the words that are left.
pub(crate) type Read<'w, T> = Result<(T, &'w [u32]), CodeError>;

/// How many groups a code has, and how many bodies may be inside one another from here on.
#[derive(Drop)]
pub(crate) struct Decoder {
    pub(crate) alloc: Global,
    pub(crate) groups: usize,
    pub(crate) levels: usize,
}

impl Model for Decoder {
    ghost use Rattle.std.specs.Prelude.{◌≤◌};
    ghost use Rattle.sre_code.specs.declared.opcodes.TheConstants.{MAXGROUPS};
    ghost use Rattle.sre_code.specs.Decoding.Decoder.{Limits, limits_code};

    ghost Value = { Limits };

    ghost coded = { limits_code };

    ghost view = { λ d. record { groups = d.groups; levels = d.levels } };

    ghost invariant = { λ d. d.groups ≤ MAXGROUPS };
}

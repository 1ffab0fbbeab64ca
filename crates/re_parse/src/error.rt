//! Why a pattern has no tree, or none that is answered.

ghost use Rattle.std.specs.Prelude.{◌≡◌};
ghost use Rattle.re_parse.specs.Answers as spec;
ghost use Rattle.re_parse.specs.declared.error.TextError.TheVariants.{NoMemory};

use re_tree::{Fault, FaultKind};
use std::alloc::{AllocError, AllocFailed};
use thiserror::Error;

/// How many characters a pattern has at most.
pub const MAX_CHARACTERS: usize = 16_777_216;

/// Why a pattern has no tree that is answered. A place is that of the parenthesis, backslash or
/// count that begins what is wrong, in code points. Of what is wrong that with the least place is
/// answered, and of two at one place the one that is first here.
#[derive(Clone, Copy, PartialEq, Eq, Debug, Error)]
pub enum TextError {
    /// Out of memory.
    #[error("out of memory")]
    NoMemory,
    /// The pattern has more than 16,777,216 characters.
    #[error("the pattern is too long")]
    TooLong,
    /// The grammar has no tree for the pattern.
    #[error("the pattern is not in the grammar")]
    NotInGrammar,
    /// A parenthesis inside 60 others.
    #[error("too many nested parentheses at {0}")]
    TooDeep(usize),
    /// A group past the 65,535th.
    #[error("too many groups at {0}")]
    TooManyGroups(usize),
    /// A name that is no identifier, or that of a group before.
    #[error("bad group name at {0}")]
    BadName(usize),
    /// A count past 4,294,967,294, or a least count above the greatest.
    #[error("bad count at {0}")]
    BadCount(usize),
    /// A group that is not there, or not yet.
    #[error("bad group reference at {0}")]
    BadReference(usize),
    /// A lookbehind whose body has no width, or one past 4,294,967,295.
    #[error("lookbehind without a fixed width at {0}")]
    NotFixedWidth(usize),
}

impl From<AllocError> for TextError {
    ghost from_gives = { λ _ e. e ≡ NoMemory };

    fn from(_error: AllocError) -> TextError {
        TextError::NoMemory
    }
}

impl<T: Drop> From<AllocFailed<T>> for TextError {
    ghost from_gives = { λ _ e. e ≡ NoMemory };

    fn from(_error: AllocFailed<T>) -> TextError {
        TextError::NoMemory
    }
}

pub(crate) fn error_of(fault: Fault) -> TextError
    ensures { result ≡ spec.error_of fault }
{
    let at = fault.at;
    match fault.kind {
        FaultKind::TooDeep => TextError::TooDeep(at),
        FaultKind::TooManyGroups => TextError::TooManyGroups(at),
        FaultKind::BadName => TextError::BadName(at),
        FaultKind::BadCount => TextError::BadCount(at),
        FaultKind::BadReference => TextError::BadReference(at),
        FaultKind::NotFixedWidth => TextError::NotFixedWidth(at),
    }
}

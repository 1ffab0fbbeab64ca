//! Where bytes come from.

ghost use Rattle.std.specs.Prelude.{ℕ, List, Option};
ghost use Rattle.std.specs.Io.{ReadsAtMost};
ghost use Rattle.std.specs.Io.KnownBytes.{ReadConsumes};
ghost use Rattle.py_base.specs.Stream.Faults.{HasCause};

use thiserror::Error;

/// The source or the sink did not do what it was asked.
#[derive(Clone, Copy, Debug, PartialEq, Eq, Error)]
#[error("the stream failed")]
pub struct Failed;

/// A stream of bytes that is read from its start.
pub trait Source {
    /// The bytes that are left, where the source tells them.
    ghost left: { Self → Option (List ℕ) };

    /// How often it has failed. The count never falls, and stays at the end of its type.
    ghost faults: { Self → ℕ };

    /// Reads some bytes into the start of `into`, and answers how many. 0 for an `into` that is not
    /// empty means that no bytes are left.
    ///
    /// # Errors
    ///
    /// `Failed` only where the count of faults rose. Nothing was read then.
    fn read(&mut self, into: &mut [u8]) -> Result<usize, Failed>
        ensures bound { ReadsAtMost result into.new }
        ensures bytes { ReadConsumes (left self.old) (left self.new) result into.new }
        ensures cause { HasCause (faults self.old) (faults self.new) result };
}

//! Where bytes go.

ghost use Rattle.std.specs.Prelude.{ℕ, List, Option};
ghost use Rattle.std.specs.Io.{WritesAtMost};
ghost use Rattle.std.specs.Io.KnownBytes.{WriteAppends};
ghost use Rattle.py_base.specs.Stream.Faults.{HasCause, RoseIfStuck};

use crate::stream::source::Failed;

/// A stream of bytes that grows at its end.
pub trait Sink {
    /// The bytes that were written, where the sink tells them.
    ghost contents: { Self → Option (List ℕ) };

    /// How often it has failed. The count never falls, and stays at the end of its type.
    ghost faults: { Self → ℕ };

    /// Writes a prefix of the piece, and answers how many bytes that is. Taking nothing of a piece
    /// that is not empty counts as a fault too.
    ///
    /// # Errors
    ///
    /// `Failed` only where the count of faults rose. Nothing was written then.
    fn write(&mut self, piece: &[u8]) -> Result<usize, Failed>
        ensures bound { WritesAtMost result piece.now }
        ensures bytes { WriteAppends (contents self.old) (contents self.new) result piece.now }
        ensures cause { HasCause (faults self.old) (faults self.new) result }
        ensures stuck { RoseIfStuck (faults self.old) (faults self.new) result piece.now };
}

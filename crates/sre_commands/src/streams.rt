//! All bytes of a source, and all bytes to a sink.

ghost use Rattle.std.specs.Prelude.{◌≡◌, ◌≢◌, ℕ, List, IfOk, OnOk, OnErr, Err};
ghost use Rattle.sre_commands.specs.Streams.{reading_of, writing_of, ReadFailed, WriteFailed, ReadWhole, TookAtMost, TookMoreThan, Wrote, WroteLess};
ghost use Rattle.sre_commands.specs.declared.streams.InputError.TheVariants.{NoMemory, Failed};

use py_base::{Sink, Source};
use std::alloc::{AllocError, Global};

/// How many bytes a request has at most.
pub const MOST_BYTES: usize = 16_777_216;

// How many bytes are read at most in one call.
const BUFFER_BYTES: usize = 16_384;

/// Why the bytes were not read.
#[derive(Clone, Copy, Debug, PartialEq, Eq)]
pub enum InputError {
    /// Memory ran out.
    NoMemory,
    /// The source failed.
    Failed,
    /// More than `MOST_BYTES` came.
    TooLong,
}

impl From<AllocError> for InputError {
    ghost from_gives = { λ _ e. e ≡ NoMemory };

    fn from(_error: AllocError) -> InputError {
        InputError::NoMemory
    }
}

impl From<py_base::Failed> for InputError {
    ghost from_gives = { λ _ e. e ≡ Failed };

    fn from(_error: py_base::Failed) -> InputError {
        InputError::Failed
    }
}

/// All bytes of the source, which are at most `MOST_BYTES`.
pub fn read_all<S: Source>(alloc: Global, source: &mut S) -> Result<Vec<u8>, InputError>
    ensures all { IfOk result (λ bytes. ReadWhole
        (reading_of S.left S.faults source.old source.new) bytes.items) }
    ensures within { result ≢ Err InputError.TooLong → TookAtMost MOST_BYTES
        (reading_of S.left S.faults source.old source.new) }
    ensures failed { result ≡ Err InputError.Failed → ReadFailed
        (reading_of S.left S.faults source.old source.new) }
    ensures too_long { result ≡ Err InputError.TooLong → TookMoreThan MOST_BYTES
        (reading_of S.left S.faults source.old source.new) }
{
    let mut bytes = Vec::new(alloc);
    let mut buffer = [0u8; BUFFER_BYTES];
    loop {
        let count = source.read(&mut buffer)?;
        if count == 0 {
            return Ok(bytes);
        }
        if count > MOST_BYTES - bytes.len() {
            return Err(InputError::TooLong);
        }
        bytes.extend_from_slice(&buffer[..count])?;
    }
}

/// Writes all of the bytes.
pub fn write_all<K: Sink>(sink: &mut K, bytes: &[u8]) -> Result<(), py_base::Failed>
    ensures all { OnOk result (Wrote (writing_of K.contents K.faults sink.old sink.new) bytes.now) }
    ensures less { OnErr result (WroteLess
        (writing_of K.contents K.faults sink.old sink.new) bytes.now) }
    ensures failed { OnErr result (WriteFailed (writing_of K.contents K.faults sink.old sink.new)) }
{
    let mut written = 0;
    while written < bytes.len() {
        let count = sink.write(&bytes[written..])?;
        if count == 0 {
            return Err(py_base::Failed);
        }
        written += count;
    }
    Ok(())
}

//! Runs of spaces and zeros, and what is written between spaces.

ghost use Rattle.std.specs.Prelude.{◌≡◌, ◌≤◌, ◌++◌, replicate, IfOk, OnOk, IsOkUnless};
ghost use Rattle.py_spec.specs.Percent.Writing as spec;

use crate::percent::parts::CConversionFlags;
use bitflags::Flags;
use py_base::{PyError, PyResult};
use std::alloc::Global;

/// Puts a byte at the end, so many times.
#[tactic(auto, using(crate::proofs::FillLemmas::run_put,))]
pub(crate) fn put_run(bytes: &mut Vec<u8>, byte: u8, count: usize) -> PyResult<()>
    ensures ok { OnOk result (bytes.new.items ≡ bytes.old.items ++ replicate count byte) }
    ensures err { IsOkUnless result PyError.NoMemory }
{
    let Some(len) = bytes.len().checked_add(count) else {
        return Err(PyError::NoMemory);
    };
    bytes.resize(len, byte)?;
    Ok(())
}

/// So many spaces, with room for so many bytes.
pub(crate) fn begun(alloc: Global, room: usize, before: usize) -> PyResult<Vec<u8>>
    ensures ok { IfOk result (λ made. made.items ≡ spec.spaces before) }
    ensures err { IsOkUnless result PyError.NoMemory }
{
    let mut made = Vec::with_capacity(alloc, room)?;
    put_run(&mut made, b' ', before)?;
    Ok(made)
}

/// So many spaces, as those on the left and those on the right.
pub(crate) fn sides(flags: CConversionFlags, count: usize) -> (usize, usize)
    ensures { result ≡ spec.sides flags count }
{
    if flags.contains(CConversionFlags::LEFT_ADJUST) {
        (0, count)
    } else {
        (count, 0)
    }
}

/// How many of the bytes that a number is short of the width are zeros.
pub(crate) fn zero_fill(flags: CConversionFlags, count: usize) -> usize
    ensures zeros { result ≡ spec.zero_fill flags count }
    ensures few { result ≤ count }
{
    if flags.contains(CConversionFlags::ZERO_PAD)
        && !flags.contains(CConversionFlags::LEFT_ADJUST)
    {
        count
    } else {
        0
    }
}

/// The bytes between spaces. The room is taken once.
#[tactic(auto, using(crate::proofs::FillLemmas::between_put,))]
pub(crate) fn between(alloc: Global, side: (usize, usize), bytes: &[u8]) -> PyResult<Vec<u8>>
    ensures ok { IfOk result (λ made. made.items ≡ spec.between side bytes.now) }
    ensures err { IsOkUnless result PyError.NoMemory }
{
    let (before, after) = side;
    let room = bytes.len().saturating_add(before).saturating_add(after);
    let mut made = begun(alloc, room, before)?;
    made.extend_from_slice(bytes)?;
    put_run(&mut made, b' ', after)?;
    Ok(made)
}

//! Runs of one character, put at the end of a text that is being built.

ghost use Rattle.std.specs.Prelude.{◌≡◌, ◌<◌, ◌++◌, OnOk, IsOkUnless};
ghost use Rattle.py_text.specs.Sums.{copies};
ghost use Rattle.py_str.specs.Pad.{run};

use py_base::{PyError, PyResult};
use py_text::PyStr;
use std::alloc::Global;

// So many characters of a run are put at once.
const BLOCK: usize = 64;

fn spaces() -> &'static str
    ensures { result.now ≡ run 64 0x20 }
{
    "                                                                "
}

fn zeros() -> &'static str
    ensures { result.now ≡ run 64 0x30 }
{
    "0000000000000000000000000000000000000000000000000000000000000000"
}

// Puts a run of an ASCII character at the end, in blocks and a part of one.
fn push_parts(out: &mut PyStr, block: &str, c: char, count: usize) -> PyResult<()>
    requires block { block.now ≡ run 64 c }
    requires ascii { c < 128 }
    ensures ok { OnOk result (out.new ≡ out.old ++ run count c) }
    ensures err { IsOkUnless result PyError.NoMemory }
{
    for _n in 0..count / BLOCK {
        out.append_ascii(block)?;
    }
    out.append_ascii(&block[..count % BLOCK])?;
    Ok(())
}

// Puts a short run at the end.
fn push_few(out: &mut PyStr, c: char, count: usize) -> PyResult<()>
    ensures ok { OnOk result (out.new ≡ out.old ++ run count c) }
    ensures err { IsOkUnless result PyError.NoMemory }
{
    for _n in 0..count {
        out.append_char(c)?;
    }
    Ok(())
}

// Puts the text at the end, `count` times.
fn push_copies(out: &mut PyStr, part: &PyStr, count: usize) -> PyResult<()>
    ensures ok { OnOk result (out.new ≡ out.old ++ copies count part.now) }
    ensures err { IsOkUnless result PyError.NoMemory }
{
    for _n in 0..count {
        out.append_text(part)?;
    }
    Ok(())
}

// Puts a run of any character at the end, in blocks and single characters.
fn push_any(alloc: Global, out: &mut PyStr, c: char, count: usize) -> PyResult<()>
    ensures ok { OnOk result (out.new ≡ out.old ++ run count c) }
    ensures err { IsOkUnless result PyError.NoMemory }
{
    if count < BLOCK {
        return push_few(out, c, count);
    }
    let mut block = PyStr::new(alloc);
    push_few(&mut block, c, BLOCK)?;
    push_copies(out, &block, count / BLOCK)?;
    push_few(out, c, count % BLOCK)?;
    Ok(())
}

/// Puts a run of spaces at the end.
pub(crate) fn push_spaces(out: &mut PyStr, count: usize) -> PyResult<()>
    ensures ok { OnOk result (out.new ≡ out.old ++ run count 0x20) }
    ensures err { IsOkUnless result PyError.NoMemory }
{
    push_parts(out, spaces(), ' ', count)
}

/// Puts a run of the character at the end.
pub(crate) fn push_run(alloc: Global, out: &mut PyStr, c: char, count: usize) -> PyResult<()>
    ensures ok { OnOk result (out.new ≡ out.old ++ run count c) }
    ensures err { IsOkUnless result PyError.NoMemory }
{
    match c {
        ' ' => push_spaces(out, count),
        '0' => push_parts(out, zeros(), '0', count),
        _ => push_any(alloc, out, c, count),
    }
}

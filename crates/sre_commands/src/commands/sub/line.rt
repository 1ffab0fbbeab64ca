//! The line of an answer.

ghost use Rattle.std.specs.Prelude.{◌≡◌, IfOk};
ghost use Rattle.sre_commands.specs.Commands.Sub.Answer.{line_of};

use crate::tokens::hexadecimal::append_digits;
use std::alloc::{AllocError, Global};

// How many bytes a line has beside the digits at most: `t`, a space, 20 digits and a line feed.
const OTHER_BYTES: usize = 23;

/// The line of the UTF-8 of a text and how many spans were replaced in it. Room is reserved once.
pub fn answer_line(alloc: Global, text: &[u8], count: usize) -> Result<Vec<u8>, AllocError>
    ensures { IfOk result (λ line. line.items ≡ line_of text.now count) }
{
    let end = format!(in alloc; " {count}\n")?;
    let mut line = Vec::with_capacity(
        alloc,
        text.len().saturating_mul(2).saturating_add(OTHER_BYTES),
    )?;
    line.push(b't')?;
    append_digits(&mut line, text)?;
    line.extend_from_slice(end.as_bytes())?;
    Ok(line)
}

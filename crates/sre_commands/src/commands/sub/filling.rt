//! A replacement template, filled from a span's groups.

ghost use Rattle.std.specs.Prelude.{◌≡◌, ◌++◌, true, OnOk, encode_utf8_all};
ghost use Rattle.sre_commands.specs.Commands.Sub.Filling.{fill, group_span};
ghost use Rattle.sre_commands.specs.Commands.Sub.Template.{replacement_of};

use super::parts::{TextParts, append_between};
use super::template::Template;
use sre_match::{State, StringCursor};
use std::alloc::AllocError;

/// Appends the UTF-8 of the filled template. Each group is reached by a walk from the cursor `near`.
pub(crate) fn fill<S: TextParts>(
    bytes: &mut Vec<u8>,
    template: &Template,
    view: &S,
    near: &StringCursor,
    state: &State,
) -> Result<(), AllocError>
    requires is_text { S.is_text (S.units view.now) }
    requires fits { S.fits (S.units view.now) near.now ≡ true }
    ensures { let filled = fill (replacement_of template.now) (S.units view.now) state.now in
        OnOk result (bytes.new.items ≡ bytes.old.items ++ encode_utf8_all filled) }
{
    bytes.extend_from_slice(template.head.as_str().as_bytes())?;
    for pair in &template.pairs {
        append_between(bytes, view, near, group_span(state, pair.group))?;
        bytes.extend_from_slice(pair.literal.as_str().as_bytes())?;
    }
    Ok(())
}

// Where a group is, of which group 0 is the whole span.
fn group_span(state: &State, group: usize) -> Option<(usize, usize)>
    ensures { result ≡ group_span state.now group }
{
    if group == 0 {
        return Some((state.start(), state.position()));
    }
    state.marks().get(group)
}

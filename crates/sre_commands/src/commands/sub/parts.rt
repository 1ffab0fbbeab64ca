//! Parts of a subject, appended as UTF-8.

ghost use Rattle.std.specs.Prelude.{◌≡◌, ◌++◌, ◌≤◌, true, List, ℕ, length, slice_range, encode_utf8_all, OnOk, ⊤};
ghost use Rattle.std.specs.Str.{IsAscii};
ghost use Rattle.sre_commands.specs.Commands.Sub.Filling.{text_between};

use sre_match::{ByteView, StrDrive, StringCursor, TextView};
use std::alloc::AllocError;

/// A view of a text, whose parts are appended as they are in it.
pub(crate) trait TextParts: StrDrive {
    /// Whether the units are code points of a text; of bytes, whether each is ASCII.
    ghost is_text: { List ℕ → Type 0 };

    /// Appends the UTF-8 of the part between two cursors.
    fn append(
        &self,
        bytes: &mut Vec<u8>,
        from: &StringCursor,
        to: &StringCursor,
    ) -> Result<(), AllocError>
        requires is_text { is_text (Self.units self.now) }
        requires from_fits { Self.fits (Self.units self.now) from.now ≡ true }
        requires to_fits { Self.fits (Self.units self.now) to.now ≡ true }
        requires order { from.now.place ≤ to.now.place }
        ensures { let part = slice_range (Self.units self.now) from.now.place to.now.place in
            OnOk result (bytes.new.items ≡ bytes.old.items ++ encode_utf8_all part) };
}

impl<'s> TextParts for ByteView<'s> {
    ghost is_text = { IsAscii };

    fn append(
        &self,
        bytes: &mut Vec<u8>,
        from: &StringCursor,
        to: &StringCursor,
    ) -> Result<(), AllocError> {
        bytes.extend_from_slice(self.slice(from, to))?;
        Ok(())
    }
}

impl<'s> TextParts for TextView<'s> {
    ghost is_text = { λ _. ⊤ };

    fn append(
        &self,
        bytes: &mut Vec<u8>,
        from: &StringCursor,
        to: &StringCursor,
    ) -> Result<(), AllocError> {
        bytes.extend_from_slice(self.slice(from, to).as_bytes())?;
        Ok(())
    }
}

/// The cursor at a place, by way of one that is near.
pub(crate) fn moved_to<S: StrDrive>(view: &S, near: &StringCursor, place: usize) -> StringCursor
    requires fits { S.fits (S.units view.now) near.now ≡ true }
    requires there { place ≤ length (S.units view.now) }
    ensures fits { S.fits (S.units view.now) result ≡ true }
    ensures place { result.place ≡ place }
{
    let mut cursor = *near;
    let here = near.position();
    if here <= place {
        view.skip(&mut cursor, place - here);
    } else {
        view.back_skip(&mut cursor, here - place);
    }
    cursor
}

/// Appends the UTF-8 of the part between two places, or nothing; a cursor is near.
pub(crate) fn append_between<S: TextParts>(
    bytes: &mut Vec<u8>,
    view: &S,
    near: &StringCursor,
    span: Option<(usize, usize)>,
) -> Result<(), AllocError>
    requires is_text { S.is_text (S.units view.now) }
    requires fits { S.fits (S.units view.now) near.now ≡ true }
    ensures { let part = text_between (S.units view.now) span in
        OnOk result (bytes.new.items ≡ bytes.old.items ++ encode_utf8_all part) }
{
    let Some((start, stop)) = span else {
        return Ok(());
    };
    // A `State` does not promise that its spans are in order or within this view.
    let stop = stop.min(view.count());
    if stop <= start {
        return Ok(());
    }
    let from = moved_to(view, near, start);
    let to = moved_to(view, &from, stop);
    view.append(bytes, &from, &to)
}

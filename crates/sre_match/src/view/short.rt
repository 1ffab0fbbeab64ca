//! Cursors in eight bytes.

ghost use Rattle.std.specs.Prelude.{◌≡◌, IfOk};
ghost use Rattle.sre_match.specs.Cursor.{widened};

use crate::view::StringCursor;
use std::alloc::AllocError;

/// A number in four bytes, since a subject's every place may keep several. A larger one is taken
/// for out of memory.
pub fn short(n: usize) -> Result<u32, AllocError>
    ensures { IfOk result (λ k. k ≡ n) }
{
    match u32::try_from(n) {
        Ok(k) => Ok(k),
        Err(_) => Err(AllocError),
    }
}

/// A cursor in short: its place, and the bytes before it, in four bytes each.
#[derive(Clone, Copy)]
pub struct ShortCursor {
    place: u32,
    offset: u32,
}

impl ShortCursor {
    /// This cursor in short.
    pub fn new(cursor: StringCursor) -> Result<ShortCursor, AllocError>
        ensures { IfOk result (λ kept. widened kept ≡ cursor) }
    {
        let place = short(cursor.place)?;
        let offset = short(cursor.offset)?;
        Ok(ShortCursor { place, offset })
    }

    /// The cursor that it is short for.
    pub fn wide(&self) -> StringCursor
        ensures { result ≡ widened self.now }
    {
        StringCursor {
            place: self.place as usize,
            offset: self.offset as usize,
        }
    }
}

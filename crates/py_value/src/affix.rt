//! Whether a text begins or ends with a value.

ghost use Rattle.std.specs.Prelude.{◌≡◌};
ghost use Rattle.py_text.specs.Window.{counted_place, window_start, window_end};
ghost use Rattle.py_value.specs.Affix as spec;
ghost use Rattle.py_value.specs.Sides as sides;
ghost use Rattle.py_value.specs.ValueView.{plain_of};

use crate::value::{Value, ValueList};
use py_base::{ClassName, PyError, PyResult};
use py_text::PyStr;

/// The side of a window at which an affix is.
#[derive(Clone, Copy)]
pub(crate) enum Side {
    Start,
    End,
}

/// A side of the window from `start` to `end`.
#[derive(Clone, Copy)]
pub(crate) struct Place {
    pub(crate) side: Side,
    pub(crate) start: Option<i128>,
    pub(crate) end: Option<i128>,
}

// A place in code points, counted from the end where it is negative.
fn counted(len: usize, place: i128) -> u128
    ensures { result ≡ counted_place len place }
{
    if place < 0 {
        (len as u128).saturating_sub(place.unsigned_abs())
    } else {
        place as u128
    }
}

// Where a window of `len` code points begins.
fn window_from(len: usize, start: Option<i128>) -> u128
    ensures { result ≡ window_start len start }
{
    match start {
        Some(place) => counted(len, place),
        None => 0,
    }
}

// Where a window of `len` code points ends.
fn window_to(len: usize, end: Option<i128>) -> u128
    ensures { result ≡ window_end len end }
{
    match end {
        Some(place) => counted(len, place).min(len as u128),
        None => len as u128,
    }
}

// Whether the window of `len` code points begins not past its end.
fn has_window(len: usize, start: Option<i128>, end: Option<i128>) -> bool
    ensures { result ≡ spec.has_window len start end }
{
    window_from(len, start) <= window_to(len, end)
}

impl Place {
    // Whether the affix is at the side of the text's window.
    fn fits(&self, text: &PyStr, affix: &PyStr) -> bool
        ensures { result ≡ sides.fits self.now text.now affix.now }
    {
        match self.side {
            Side::Start => text.startswith(affix, self.start, self.end),
            Side::End => text.endswith(affix, self.start, self.end),
        }
    }

    // The same for an affix that has to be a text.
    fn text_fits(&self, text: &PyStr, affix: &Value) -> PyResult<bool>
        ensures { result ≡ spec.text_passes (sides.fits self.now text.now) (plain_of affix.now) }
    {
        match affix {
            Value::Str(affix) => Ok(self.fits(text, affix)),
            _ => Err(PyError::Downcast(ClassName::Str, affix.class())),
        }
    }

    // The same for each text of a tuple, up to the first that fits.
    fn some_fits(&self, text: &PyStr, affixes: &ValueList) -> PyResult<bool>
        ensures { result ≡ spec.some_passes (sides.fits self.now text.now) affixes.now }
    {
        for affix in &affixes.items {
            if self.text_fits(text, affix)? {
                return Ok(true);
            }
        }
        Ok(false)
    }

    /// Whether the text or one of the texts of the tuple is at the side of the text's window.
    pub(crate) fn affix_fits(&self, text: &PyStr, affix: &Value) -> PyResult<bool>
        ensures { result ≡ sides.answer self.now text.now (plain_of affix.now) }
    {
        if !has_window(text.len(), self.start, self.end) {
            return Ok(false);
        }
        match affix {
            Value::Tuple(affixes) => self.some_fits(text, affixes),
            _ => self.text_fits(text, affix),
        }
    }
}

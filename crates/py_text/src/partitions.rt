//! A text in three parts, at the first or the last separator.

ghost use Rattle.std.specs.Prelude.{◌≡◌, ◌≢◌, [], chars, IfOk, IsOk, Err};
ghost use Rattle.py_text.specs.Partitions.{partition, rpartition};

use crate::occurrences::{around_first, around_last};
use crate::text::PyStr;
use py_base::{PyError, PyResult};

/// A text in three parts: what is before a separator, the separator, and what is after it.
#[derive(Clone, Copy, Debug)]
pub struct Partition<'a> {
    pub front: &'a str,
    pub mid: &'a str,
    pub back: &'a str,
}

// The text parted at the first separator.
fn parted<'a>(text: &'a PyStr, sep: &PyStr) -> Partition<'a>
    ensures { (chars result.front.now, chars result.mid.now, chars result.back.now)
        ≡ partition sep.now text.now }
{
    let whole = text.as_str();
    match around_first(whole, sep.as_str()) {
        Some((front, mid, back)) => Partition { front, mid, back },
        None => Partition {
            front: whole,
            mid: "",
            back: "",
        },
    }
}

// The text parted at the last separator.
fn rparted<'a>(text: &'a PyStr, sep: &PyStr) -> Partition<'a>
    ensures { (chars result.front.now, chars result.mid.now, chars result.back.now)
        ≡ rpartition sep.now text.now }
{
    let whole = text.as_str();
    match around_last(whole, sep.as_str()) {
        Some((front, mid, back)) => Partition { front, mid, back },
        None => Partition {
            front: "",
            mid: "",
            back: whole,
        },
    }
}

impl PyStr {
    /// The text before the first separator, the separator, and the text after it, borrowed; where
    /// it does not occur, the text and two empty texts. (Python Library Reference, String Methods,
    /// `str.partition`.)
    ///
    /// # Errors
    ///
    /// `EmptySeparator` where the separator is empty.
    pub fn partition<'a>(&'a self, sep: &PyStr) -> PyResult<Partition<'a>>
        ensures empty { sep.now ≡ [] → result ≡ Err PyError.EmptySeparator }
        ensures there { sep.now ≢ [] → IsOk result }
        ensures ok { IfOk result (λ p.
            (chars p.front.now, chars p.mid.now, chars p.back.now) ≡ partition sep.now self.now) }
    {
        if sep.is_empty() {
            return Err(PyError::EmptySeparator);
        }
        Ok(parted(self, sep))
    }

    /// The text before the last separator, the separator, and the text after it, borrowed; where it
    /// does not occur, two empty texts and the text. (Python Library Reference, String Methods,
    /// `str.rpartition`.)
    ///
    /// # Errors
    ///
    /// `EmptySeparator` where the separator is empty.
    pub fn rpartition<'a>(&'a self, sep: &PyStr) -> PyResult<Partition<'a>>
        ensures empty { sep.now ≡ [] → result ≡ Err PyError.EmptySeparator }
        ensures there { sep.now ≢ [] → IsOk result }
        ensures ok { IfOk result (λ p.
            (chars p.front.now, chars p.mid.now, chars p.back.now) ≡ rpartition sep.now self.now) }
    {
        if sep.is_empty() {
            return Err(PyError::EmptySeparator);
        }
        Ok(rparted(self, sep))
    }
}

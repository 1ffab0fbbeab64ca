//! The methods of Python's `str` that are handed values.

ghost use Rattle.std.specs.Prelude.{◌≡◌, ℕ, List, true, Ok, Err};
ghost use Rattle.std.specs.Result.{is_ok};
ghost use Rattle.py_value.specs.Affix as spec;
ghost use Rattle.py_value.specs.Asking.{Comes, Meets};
ghost use Rattle.py_value.specs.Lookup.{char_at, index_of};
ghost use Rattle.py_value.specs.Maketrans as tables;
ghost use Rattle.py_value.specs.Plain.{bare};
ghost use Rattle.py_value.specs.Translate.{Translates, has_items};
ghost use Rattle.py_value.specs.ValueView.{plain_of};

use crate::affix::{Place, Side};
use crate::host::Host;
use crate::value::{PyDict, Value};
use crate::{lookup, maketrans, translate};
use py_base::{OptionalArg, PyError, PyResult};
use py_text::PyStr;
use std::alloc::Global;

/// The methods of Python's `str` that are handed values.
pub trait StrValues {
    /// The code points of the text.
    ghost points: { Self → List ℕ };

    /// `text[needle]`: the index counts code points, from the end where it is negative. (Python
    /// Library Reference, Common Sequence Operations.)
    ///
    /// # Errors
    ///
    /// `Downcast` where the needle is neither an integer nor a bool, then `IndexOutOfRange`.
    fn getitem(&self, alloc: Global, needle: &Value) -> PyResult<PyStr>
        ensures item { Meets (char_at (points self.now) (index_of (plain_of needle.now))) result }
        ensures free { result ≡ Err PyError.NoMemory
            → is_ok (char_at (points self.now) (index_of (plain_of needle.now))) ≡ true };

    /// Whether the window from `start` to `end` begins with the text `affix`, or with a text of the
    /// tuple `affix`. It takes no memory. (Python Library Reference, String Methods,
    /// `str.startswith`.)
    ///
    /// # Errors
    ///
    /// `Downcast` where a value that is reached is no text.
    fn starts_with_value(
        &self,
        affix: &Value,
        start: Option<i128>,
        end: Option<i128>,
    ) -> PyResult<bool>
        ensures { result
            ≡ spec.starts_with_value (points self.now) (plain_of affix.now) start end };

    /// The same at the end of the window. (Python Library Reference, String Methods,
    /// `str.endswith`.)
    fn ends_with_value(
        &self,
        affix: &Value,
        start: Option<i128>,
        end: Option<i128>,
    ) -> PyResult<bool>
        ensures { result
            ≡ spec.ends_with_value (points self.now) (plain_of affix.now) start end };

    /// The text with each character replaced by what the table has for its code point: a text, the
    /// character of an integer, or nothing for None. A character whose look-up fails is kept.
    /// (Python Library Reference, String Methods, `str.translate`.)
    ///
    /// # Errors
    ///
    /// `NotSubscriptable` before any character, and `Translate` where the table has another value.
    fn translate<H: Host>(&self, alloc: Global, host: &mut H, table: &Value) -> PyResult<PyStr>
        ensures translates { Translates (plain_of table.now) (points self.now)
            (H.seen host.old) (H.seen host.new) result }
        ensures quiet { bare (plain_of table.now) ≡ true → host.new ≡ host.old }
        ensures free { result ≡ Err PyError.NoMemory → Comes (H.seen host.old) (H.seen host.old)
            (has_items (plain_of table.now)) (Ok tt) };

    /// A table for `translate`, by code points: of a dictionary, or of texts whose characters
    /// replace one another, with those that are dropped. (Python Library Reference, String Methods,
    /// `str.maketrans`.)
    fn maketrans(
        alloc: Global,
        dict_or_str: Value,
        to_str: OptionalArg<PyStr>,
        none_str: OptionalArg<PyStr>,
    ) -> PyResult<PyDict>
        ensures made { Meets (tables.maketrans (plain_of dict_or_str)
            (tables.given to_str) (tables.given none_str)) result }
        ensures free { result ≡ Err PyError.NoMemory
            → tables.fit (plain_of dict_or_str) (tables.given to_str) ≡ true };
}

impl StrValues for PyStr {
    ghost points = { λ shown. shown };

    fn getitem(&self, alloc: Global, needle: &Value) -> PyResult<PyStr> {
        lookup::char_at(alloc, self, lookup::index_of(needle)?)
    }

    fn starts_with_value(
        &self,
        affix: &Value,
        start: Option<i128>,
        end: Option<i128>,
    ) -> PyResult<bool> {
        let side = Side::Start;
        Place { side, start, end }.affix_fits(self, affix)
    }

    fn ends_with_value(
        &self,
        affix: &Value,
        start: Option<i128>,
        end: Option<i128>,
    ) -> PyResult<bool> {
        let side = Side::End;
        Place { side, start, end }.affix_fits(self, affix)
    }

    fn translate<H: Host>(&self, alloc: Global, host: &mut H, table: &Value) -> PyResult<PyStr> {
        translate::translate(self, alloc, host, table)
    }

    fn maketrans(
        alloc: Global,
        dict_or_str: Value,
        to_str: OptionalArg<PyStr>,
        none_str: OptionalArg<PyStr>,
    ) -> PyResult<PyDict> {
        maketrans::maketrans(alloc, dict_or_str, to_str, none_str)
    }
}

//! The methods of Python's `str` that strip, pad, quote, encode and test a text.

ghost use Rattle.std.specs.Prelude.{◌≡◌, ℕ, List, chars, IfOk, IfErr, IsOkUnless};
ghost use Rattle.py_base.specs.Chars.Classes as class;
ghost use Rattle.py_base.specs.Chars.Quoting.{text_repr};
ghost use Rattle.py_base.specs.Chars.Whitespace.{trim_start, trim_end, trim};
ghost use Rattle.py_text.specs.Text.{all_ascii};
ghost use Rattle.py_str.specs.Codec.{IsEncoded, IsEncodeError};
ghost use Rattle.py_str.specs.Pad.{width_of, center, ljust, rjust, zfill, IsPadded, IsPadError};
ghost use Rattle.py_str.specs.Quote.{text_ascii};
ghost use Rattle.py_str.specs.Strip.{strips};
ghost use Rattle.py_str.specs.Tabs.{expanded};
ghost use Rattle.py_str.specs.TestsOf as test;

use crate::{codec, pad, quote, strip, tabs, tests_of};
use py_base::{PyError, PyResult};
use py_text::{PyBytes, PyStr};
use std::alloc::Global;

/// The methods of Python's `str` that strip, pad, quote, encode and test a text.
pub trait StrMore {
    /// The code points of the text.
    ghost points: { Self → List ℕ };

    /// The text without the characters of `named` at both ends, or without whitespace where none
    /// are named. It takes no memory. (Python Library Reference, String Methods, `str.strip`.)
    fn strip(&self, named: Option<&PyStr>) -> &str
        ensures { chars result.now ≡ trim (strips named.entry) (points self.now) };

    /// The text without the characters of `named` at its start, or without whitespace where none
    /// are named. It takes no memory. (Python Library Reference, String Methods, `str.lstrip`.)
    fn lstrip(&self, named: Option<&PyStr>) -> &str
        ensures { chars result.now ≡ trim_start (strips named.entry) (points self.now) };

    /// The text without the characters of `named` at its end, or without whitespace where none
    /// are named. It takes no memory. (Python Library Reference, String Methods, `str.rstrip`.)
    fn rstrip(&self, named: Option<&PyStr>) -> &str
        ensures { chars result.now ≡ trim_end (strips named.entry) (points self.now) };

    /// The text in the middle of a width in code points, filled with `fill` or with spaces. (Python
    /// Library Reference, String Methods, `str.center`.)
    fn center(&self, alloc: Global, width: isize, fill: Option<&PyStr>) -> PyResult<PyStr>
        ensures ok { IfOk result (IsPadded fill.entry (center (width_of width) (points self.now))) }
        ensures err { IfErr result (IsPadError fill.entry) };

    /// The text at the left of a width in code points, filled with `fill` or with spaces. (Python
    /// Library Reference, String Methods, `str.ljust`.)
    fn ljust(&self, alloc: Global, width: isize, fill: Option<&PyStr>) -> PyResult<PyStr>
        ensures ok { IfOk result (IsPadded fill.entry (ljust (width_of width) (points self.now))) }
        ensures err { IfErr result (IsPadError fill.entry) };

    /// The text at the right of a width in code points, filled with `fill` or with spaces. (Python
    /// Library Reference, String Methods, `str.rjust`.)
    fn rjust(&self, alloc: Global, width: isize, fill: Option<&PyStr>) -> PyResult<PyStr>
        ensures ok { IfOk result (IsPadded fill.entry (rjust (width_of width) (points self.now))) }
        ensures err { IfErr result (IsPadError fill.entry) };

    /// The text with zeros after its sign, up to a width in code points. (Python Library Reference,
    /// String Methods, `str.zfill`.)
    fn zfill(&self, alloc: Global, width: isize) -> PyResult<PyStr>
        ensures ok { IfOk result (λ made. made ≡ zfill (width_of width) (points self.now)) }
        ensures err { IsOkUnless result PyError.NoMemory };

    /// The text with spaces in the place of its tabs; a size of 0 or less drops them. (Python
    /// Library Reference, String Methods, `str.expandtabs`.)
    fn expandtabs(&self, alloc: Global, tabsize: isize) -> PyResult<PyStr>
        ensures ok { IfOk result (λ made. made ≡ expanded (width_of tabsize) (points self.now)) }
        ensures err { IsOkUnless result PyError.NoMemory };

    /// The text in UTF-8. (Python Library Reference, String Methods, `str.encode`.)
    fn encode(&self, alloc: Global, encoding: Option<&PyStr>) -> PyResult<PyBytes>
        ensures ok { IfOk result (IsEncoded encoding.entry (points self.now)) }
        ensures err { IfErr result (IsEncodeError encoding.entry) };

    /// The text in quotes. (Python Library Reference, Built-in Functions, `repr`.)
    fn repr(&self, alloc: Global) -> PyResult<PyStr>
        ensures ok { IfOk result (λ made. made ≡ text_repr (points self.now)) }
        ensures err { IsOkUnless result PyError.NoMemory };

    /// The text in quotes, in ASCII. (Python Library Reference, Built-in Functions, `ascii`.)
    fn ascii(&self, alloc: Global) -> PyResult<PyStr>
        ensures ok { IfOk result (λ made. made ≡ text_ascii (points self.now)) }
        ensures err { IsOkUnless result PyError.NoMemory };

    /// It takes no memory. (Python Library Reference, String Methods, `str.isalnum`.)
    fn isalnum(&self) -> bool
        ensures { result ≡ test.all_are class.is_alnum (points self.now) };

    /// It takes no memory. (Python Library Reference, String Methods, `str.isnumeric`.)
    fn isnumeric(&self) -> bool
        ensures { result ≡ test.all_are class.is_numeric (points self.now) };

    /// It takes no memory. (Python Library Reference, String Methods, `str.isdigit`.)
    fn isdigit(&self) -> bool
        ensures { result ≡ test.all_are class.is_digit_char (points self.now) };

    /// It takes no memory. (Python Library Reference, String Methods, `str.isdecimal`.)
    fn isdecimal(&self) -> bool
        ensures { result ≡ test.all_are class.is_decimal (points self.now) };

    /// It takes no memory. (Python Library Reference, String Methods, `str.isalpha`.)
    fn isalpha(&self) -> bool
        ensures { result ≡ test.all_are class.is_alphabetic (points self.now) };

    /// It takes no memory. (Python Library Reference, String Methods, `str.isspace`.)
    fn isspace(&self) -> bool
        ensures { result ≡ test.all_are class.is_space (points self.now) };

    /// It takes no memory. (Python Library Reference, String Methods, `str.isascii`.)
    fn isascii(&self) -> bool
        ensures { result ≡ all_ascii (points self.now) };

    /// It takes no memory. (Python Library Reference, String Methods, `str.isprintable`.)
    fn isprintable(&self) -> bool
        ensures { result ≡ test.isprintable (points self.now) };

    /// It takes no memory. (Python Library Reference, String Methods, `str.islower`.)
    fn islower(&self) -> bool
        ensures { result ≡ test.islower (points self.now) };

    /// It takes no memory. (Python Library Reference, String Methods, `str.isupper`.)
    fn isupper(&self) -> bool
        ensures { result ≡ test.isupper (points self.now) };

    /// It takes no memory. (Python Library Reference, String Methods, `str.istitle`.)
    fn istitle(&self) -> bool
        ensures { result ≡ test.istitle (points self.now) };

    /// It takes no memory. (Python Library Reference, String Methods, `str.isidentifier`.)
    fn isidentifier(&self) -> bool
        ensures { result ≡ test.isidentifier (points self.now) };
}

impl StrMore for PyStr {
    ghost points = { λ shown. shown };

    fn strip(&self, named: Option<&PyStr>) -> &str {
        strip::strip(self, named)
    }

    fn lstrip(&self, named: Option<&PyStr>) -> &str {
        strip::lstrip(self, named)
    }

    fn rstrip(&self, named: Option<&PyStr>) -> &str {
        strip::rstrip(self, named)
    }

    fn center(&self, alloc: Global, width: isize, fill: Option<&PyStr>) -> PyResult<PyStr> {
        pad::center(self, alloc, width, fill)
    }

    fn ljust(&self, alloc: Global, width: isize, fill: Option<&PyStr>) -> PyResult<PyStr> {
        pad::ljust(self, alloc, width, fill)
    }

    fn rjust(&self, alloc: Global, width: isize, fill: Option<&PyStr>) -> PyResult<PyStr> {
        pad::rjust(self, alloc, width, fill)
    }

    fn zfill(&self, alloc: Global, width: isize) -> PyResult<PyStr> {
        pad::zfill(self, alloc, width)
    }

    fn expandtabs(&self, alloc: Global, tabsize: isize) -> PyResult<PyStr> {
        tabs::expandtabs(self, alloc, tabsize)
    }

    fn encode(&self, alloc: Global, encoding: Option<&PyStr>) -> PyResult<PyBytes> {
        codec::encode(self, alloc, encoding)
    }

    fn repr(&self, alloc: Global) -> PyResult<PyStr> {
        quote::repr(self, alloc)
    }

    fn ascii(&self, alloc: Global) -> PyResult<PyStr> {
        quote::ascii(self, alloc)
    }

    fn isalnum(&self) -> bool {
        tests_of::isalnum(self)
    }

    fn isnumeric(&self) -> bool {
        tests_of::isnumeric(self)
    }

    fn isdigit(&self) -> bool {
        tests_of::isdigit(self)
    }

    fn isdecimal(&self) -> bool {
        tests_of::isdecimal(self)
    }

    fn isalpha(&self) -> bool {
        tests_of::isalpha(self)
    }

    fn isspace(&self) -> bool {
        tests_of::isspace(self)
    }

    fn isascii(&self) -> bool {
        self.is_ascii()
    }

    fn isprintable(&self) -> bool {
        tests_of::isprintable(self)
    }

    fn islower(&self) -> bool {
        tests_of::islower(self)
    }

    fn isupper(&self) -> bool {
        tests_of::isupper(self)
    }

    fn istitle(&self) -> bool {
        tests_of::istitle(self)
    }

    fn isidentifier(&self) -> bool {
        tests_of::isidentifier(self)
    }
}

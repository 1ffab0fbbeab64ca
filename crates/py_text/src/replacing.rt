//! Texts joined, and parts of a text replaced.

ghost use Rattle.std.specs.Prelude.{◌≡◌, ◌<◌, ◌++◌, ◌+◌, length, take, chars, IfOk, OnOk, IsOkUnless, []};
ghost use Rattle.py_text.specs.Replacing.{limit_or_all, join, replace};

use crate::list::TextList;
use crate::occurrences::around_first;
use crate::pieces::limit_of;
use crate::points::offset_of;
use crate::text::PyStr;
use py_base::{PyError, PyResult};
use std::alloc::Global;

// The text with `new` in the place of the first `limit` parts `old`, which is not empty.
fn put_replaced(out: &mut PyStr, text: &str, old: &str, new: &PyStr, limit: usize) -> PyResult<()>
    requires { 0 < length (chars old.now) }
    ensures ok { OnOk result (
        out.new ≡ out.old ++ replace limit (chars old.now) new.now (chars text.now)) }
    ensures err { IsOkUnless result PyError.NoMemory }
{
    let mut rest = text;
    let mut left = limit;
    while left > 0 {
        match around_first(rest, old) {
            Some((front, _, back)) => {
                out.append(front)?;
                out.append_text(new)?;
                rest = back;
                left -= 1;
            }
            None => return out.append(rest),
        }
    }
    out.append(rest)
}

// The text with `new` before each of its first `limit` code points, and at the end where fewer
// code points are there.
fn put_between(out: &mut PyStr, text: &str, new: &PyStr, limit: usize) -> PyResult<()>
    ensures ok { OnOk result (out.new ≡ out.old ++ replace limit [] new.now (chars text.now)) }
    ensures err { IsOkUnless result PyError.NoMemory }
{
    let mut rest = text;
    let mut left = limit;
    while left > 0 {
        out.append_text(new)?;
        if rest.is_empty() {
            return Ok(());
        }
        let (one, after) = rest.split_at(offset_of(rest, 1));
        out.append(one)?;
        rest = after;
        left -= 1;
    }
    out.append(rest)
}

// The text with `new` in the place of the first `limit` parts `old`.
fn put(out: &mut PyStr, text: &str, old: &PyStr, new: &PyStr, limit: usize) -> PyResult<()>
    ensures ok { OnOk result (out.new ≡ out.old ++ replace limit old.now new.now (chars text.now)) }
    ensures err { IsOkUnless result PyError.NoMemory }
{
    if old.is_empty() {
        put_between(out, text, new, limit)
    } else {
        put_replaced(out, text, old.as_str(), new, limit)
    }
}

// How many parts are replaced at most; with none or a negative number all.
fn limit_or_all_of(text: &PyStr, count: Option<isize>) -> usize
    ensures { result ≡ limit_or_all (length text.now) count }
{
    match count {
        Some(most) => limit_of(text, most),
        None => text.place_count(),
    }
}

// Appends the item at a place to those before it, with the separator between.
fn put_item(out: &mut PyStr, sep: &PyStr, items: &TextList, i: usize) -> PyResult<()>
    requires inside { i < length items.now }
    requires so_far { out.old ≡ join sep.now (take i items.now) }
    ensures ok { OnOk result (out.new ≡ join sep.now (take (i + 1) items.now)) }
    ensures err { IsOkUnless result PyError.NoMemory }
{
    if i > 0 {
        out.append_text(sep)?;
    }
    match items.get(i) {
        Some(item) => out.append_text(item),
        None => Ok(()),
    }
}

// How many bytes the items take with the separator between, for the room that is reserved: no
// result rests on it.
fn room_of(sep: &PyStr, items: &TextList) -> usize {
    let between = items.len().saturating_sub(1);
    let mut room = sep.byte_len().saturating_mul(between);
    for item in items.as_slice() {
        room = room.saturating_add(item.byte_len());
    }
    room
}

impl PyStr {
    /// The items with this text between. (Python Library Reference, String Methods, `str.join`.)
    pub fn join(&self, alloc: Global, items: &TextList) -> PyResult<PyStr>
        ensures ok { IfOk result (λ text. text ≡ join self.now items.now) }
        ensures err { IsOkUnless result PyError.NoMemory }
    {
        let room = room_of(self, items);
        let text = String::with_capacity(alloc, room)?;
        let mut out = PyStr::from(text);
        for i in 0..items.len() {
            put_item(&mut out, self, items, i)?;
        }
        Ok(out)
    }

    /// The text with `new` in the place of the first `count` parts `old`, found from the left
    /// without overlap; with none or a negative `count` of all. An empty `old` occurs before each
    /// code point and at the end. (Python Library Reference, String Methods, `str.replace`.)
    pub fn replace(
        &self,
        alloc: Global,
        old: &PyStr,
        new: &PyStr,
        count: Option<isize>,
    ) -> PyResult<PyStr>
        ensures ok { IfOk result (λ text.
            text ≡ replace (limit_or_all (length self.now) count) old.now new.now self.now) }
        ensures err { IsOkUnless result PyError.NoMemory }
    {
        let text = self.as_str();
        let limit = limit_or_all_of(self, count);
        let room = String::with_capacity(alloc, text.len())?;
        let mut out = PyStr::from(room);
        put(&mut out, text, old, new, limit)?;
        Ok(out)
    }
}

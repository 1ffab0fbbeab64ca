//! A pool: each text once, with a place that stays.

ghost use Rattle.std.specs.Prelude.{◌≡◌, ◌<◌, [], ◌∷◌, ◌++◌, length, chars, slice_get, Some, None, IfOk, IfSome, OnOk, OnErr, IsOkUnless};
ghost use Rattle.py_base.specs.declared.error.PyError.TheVariants.{NoMemory};
ghost use Rattle.py_intern.specs.Pool.{place_of, place_in, put, AreDistinct};
ghost use Rattle.py_intern.specs.Values.{place_of_value, value_at};
ghost use Rattle.py_value.specs.ValueView.{plain_of};

use crate::handle::{PyInterned, PyStrInterned};
use crate::keys::{InternableString, MaybeInternedString};
use indexmap::IndexMap;
use py_base::{PyError, PyResult};
use py_text::PyStr;
use py_value::Value;
use std::alloc::Global;
use std::marker::Model;

/// A pool of texts, none of them twice, in the order in which they came. Contracts see the list of
/// their lists of code points.
#[derive(Drop)]
pub struct StringPool {
    texts: IndexMap<String, PyStr>,
}

impl Model for StringPool {
    ghost use Rattle.std.specs.Prelude.{List, ℕ};
    ghost use Rattle.indexmap.specs.IndexMap.{values};
    ghost use Rattle.py_intern.specs.Pool.{ArePooled};

    ghost Value = { List (List ℕ) };

    ghost view = { λ pool. values pool.texts };

    ghost invariant = { λ pool. ArePooled pool.texts.entries };
}

impl StringPool {
    /// No text. It takes no memory, and keeps the allocator for `intern`.
    pub fn new(alloc: Global) -> StringPool
        ensures { result ≡ [] }
    {
        StringPool {
            texts: IndexMap::new(alloc),
        }
    }

    /// How many texts there are.
    pub fn len(&self) -> usize
        ensures len { result ≡ length self.now }
        ensures distinct { AreDistinct self.now }
    {
        self.texts.len()
    }

    // The place of a text. It takes no memory, and hashes the text once.
    fn find(&self, text: &str) -> Option<usize>
        ensures { result ≡ place_of (chars text.now) self.now }
    {
        self.texts.get_index_of(text)
    }

    // Puts a text last that is not there.
    fn put_last(&mut self, text: PyStr) -> PyResult<()>
        requires { place_of text self.old ≡ None }
        ensures ok { OnOk result (self.new ≡ self.old ++ text ∷ []) }
        ensures same { OnErr result (self.new ≡ self.old) }
        ensures err { IsOkUnless result NoMemory }
    {
        let key = String::from_str(*self.texts.allocator(), text.as_str())?;
        match self.texts.insert(key, text) {
            Ok(_) => Ok(()),
            Err(_) => Err(PyError::NoMemory),
        }
    }

    /// The handle of a text, which is put last where it is new. (Python Library Reference, `sys`,
    /// `intern`.)
    pub fn intern<S: InternableString>(&mut self, s: S) -> PyResult<PyStrInterned>
        ensures place { IfOk result (λ handle. handle ≡ place_in (S.code_points s) self.old) }
        ensures list { OnOk result (self.new ≡ put (S.code_points s) self.old) }
        ensures within { IfOk result (λ handle. handle < length self.new) }
        ensures distinct { AreDistinct self.new }

        // Where the text is there no memory is taken.
        ensures free { OnErr result (place_of (S.code_points s) self.old ≡ None) }
        ensures same { OnErr result (self.new ≡ self.old) }
        ensures err { IsOkUnless result NoMemory }
    {
        if let Some(place) = self.find(s.text()) {
            return Ok(PyInterned::at(place));
        }
        let place = self.len();
        let text = s.into_pyref_exact(*self.texts.allocator())?;
        self.put_last(text)?;
        Ok(PyInterned::at(place))
    }

    /// The handle of a text that is there. It takes no memory, and hashes the text once.
    pub fn interned<S: MaybeInternedString>(&self, s: S) -> Option<PyStrInterned>
        ensures place { result ≡ place_of (S.code_points s) self.now }
        ensures within { IfSome result (λ handle. handle < length self.now) }
    {
        match self.find(s.text()) {
            Some(place) => Some(PyInterned::at(place)),
            None => None,
        }
    }

    /// The text of a handle, borrowed. `handle.place() < pool.len()` tells whether the pool has it.
    pub fn text_of(&self, handle: PyStrInterned) -> &PyStr
        requires { handle < length self.now }
        ensures text { slice_get self.now handle ≡ Some result.now }
        ensures distinct { AreDistinct self.now }
    {
        &self.texts[handle.place()]
    }

    /// A copy of a handle's text.
    pub fn to_exact(&self, alloc: Global, handle: PyStrInterned) -> PyResult<PyStr>
        requires { handle < length self.now }
        ensures ok { IfOk result (λ text. slice_get self.now handle ≡ Some text) }
        ensures err { IsOkUnless result NoMemory }
    {
        self.text_of(handle).try_clone(alloc)
    }

    /// A copy of a handle's text, as a value.
    pub fn to_object(&self, alloc: Global, handle: PyStrInterned) -> PyResult<Value>
        requires { handle < length self.now }
        ensures ok { IfOk result (λ value. value_at handle self.now ≡ Some (plain_of value)) }
        ensures err { IsOkUnless result NoMemory }
    {
        Ok(Value::Str(self.to_exact(alloc, handle)?))
    }

    /// A copy of the pool, with texts of its own. Each handle has the same text in both.
    pub fn clone_pool(&self, alloc: Global) -> PyResult<StringPool>
        ensures ok { IfOk result (λ copy. copy ≡ self.now) }
        ensures err { IsOkUnless result NoMemory }
    {
        let mut copy = StringPool {
            texts: IndexMap::with_capacity(alloc, self.len())?,
        };
        for place in 0..self.len() {
            copy.put_last(self.to_exact(alloc, PyInterned::at(place))?)?;
        }
        Ok(copy)
    }
}

/// The handle of a value that is a text, where the pool has it. It takes no memory, and hashes the
/// text once.
pub fn as_interned_str(value: &Value, pool: &StringPool) -> Option<PyStrInterned>
    ensures place { result ≡ place_of_value (plain_of value.now) pool.now }
    ensures within { IfSome result (λ handle. handle < length pool.now) }
{
    match value {
        Value::Str(text) => pool.interned(text),
        _ => None,
    }
}

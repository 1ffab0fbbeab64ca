//! What a pool takes as a text, and a text that is a key of a map.

ghost use Rattle.std.specs.Prelude.{◌≡◌, None, chars, IfOk, IsOkUnless};
ghost use Rattle.py_base.specs.declared.error.PyError.TheVariants.{NoMemory};

use crate::handle::PyStrInterned;
use py_base::PyResult;
use py_text::PyStr;
use std::alloc::Global;
use std::convert::AsStr;
use std::hash::{Hash, Hasher};
use std::marker::Model;

mod sealed {
    //! Traits that are private, so that those above them have no more implementations.

    pub trait SealedInternable {}

    pub trait SealedMaybeInterned {}
}

use sealed::{SealedInternable, SealedMaybeInterned};

/// What `StringPool::intern` takes: a text that the pool may keep.
pub trait InternableString: SealedInternable + Drop {
    ghost use Rattle.std.specs.Prelude.{List, ℕ};

    // The code points.
    ghost code_points: { Self → List ℕ };

    /// The text, borrowed.
    fn text(&self) -> &str
        ensures { chars result.now ≡ code_points self.now };

    /// The text to be kept: moved where it is owned, and else copied.
    fn into_pyref_exact(self, alloc: Global) -> PyResult<PyStr>
        ensures ok { IfOk result (λ text. text ≡ code_points self) }
        ensures err { IsOkUnless result NoMemory };
}

/// What `StringPool::interned` takes: a text that the pool may have.
pub trait MaybeInternedString: SealedMaybeInterned + Drop {
    ghost use Rattle.std.specs.Prelude.{List, ℕ};

    // The code points.
    ghost code_points: { Self → List ℕ };

    /// The text, borrowed.
    fn text(&self) -> &str
        ensures { chars result.now ≡ code_points self.now };

    /// The handle that the text has with it. No text has one: the pool looks it up.
    fn as_interned(&self) -> Option<PyStrInterned>
        ensures { result ≡ None };
}

impl SealedInternable for String {}

impl InternableString for String {
    ghost use Rattle.std.specs.Prelude.{chars, string_bytes};

    ghost code_points = { λ text. chars (string_bytes text) };

    fn text(&self) -> &str {
        self.as_str()
    }

    fn into_pyref_exact(self, _alloc: Global) -> PyResult<PyStr> {
        Ok(PyStr::from(self))
    }
}

impl SealedInternable for &str {}

impl InternableString for &str {
    ghost use Rattle.std.specs.Prelude.{chars};

    ghost code_points = { λ text. chars text.now };

    fn text(&self) -> &str {
        *self
    }

    fn into_pyref_exact(self, alloc: Global) -> PyResult<PyStr> {
        PyStr::copy_of(alloc, self)
    }
}

impl SealedInternable for PyStr {}

impl InternableString for PyStr {
    ghost code_points = { λ text. text };

    fn text(&self) -> &str {
        self.as_str()
    }

    fn into_pyref_exact(self, _alloc: Global) -> PyResult<PyStr> {
        Ok(self)
    }
}

impl SealedMaybeInterned for &str {}

impl MaybeInternedString for &str {
    ghost use Rattle.std.specs.Prelude.{chars};

    ghost code_points = { λ text. chars text.now };

    fn text(&self) -> &str {
        *self
    }

    fn as_interned(&self) -> Option<PyStrInterned> {
        None
    }
}

impl SealedMaybeInterned for &PyStr {}

impl MaybeInternedString for &PyStr {
    ghost code_points = { λ text. text.now };

    fn text(&self) -> &str {
        self.as_str()
    }

    fn as_interned(&self) -> Option<PyStrInterned> {
        None
    }
}

/// A text as the key of a map: equal and hashed by its code points, and borrowed as a `str`.
/// Contracts see the list of its code points.
#[derive(Debug, Drop)]
pub struct CachedPyStrRef {
    text: PyStr,
}

impl Model for CachedPyStrRef {
    ghost use Rattle.std.specs.Prelude.{List, ℕ};

    ghost Value = { List ℕ };

    ghost view = { λ key. key.text };
}

impl CachedPyStrRef {
    /// The text, moved. It takes no memory.
    pub fn new(text: PyStr) -> CachedPyStrRef
        ensures { result ≡ text }
    {
        CachedPyStrRef { text }
    }
}

impl PartialEq for CachedPyStrRef {
    ghost use Rattle.std.specs.Prelude.{◌==◌};
    ghost use Rattle.std.specs.Cmp.Lexicographic.{pointwise};
    ghost use Rattle.std.specs.Cmp.Rules.{comparing};
    ghost use Rattle.std.proofs.Common.{rules};

    ghost eq = { pointwise ◌==◌ };

    ghost laws = { Prim.search (comparing, rules) };

    fn eq(&self, other: &CachedPyStrRef) -> bool {
        self.text == other.text
    }
}

impl Eq for CachedPyStrRef {
    ghost use Rattle.std.specs.Cmp.Rules.{comparing};
    ghost use Rattle.std.proofs.Common.{rules};

    ghost laws = { Prim.search (comparing, rules) };
}

impl Hash for CachedPyStrRef {
    ghost use Rattle.std.specs.Prelude.{encode_utf8_all};
    ghost use Rattle.std.specs.Hash as fed;
    ghost use Rattle.py_text.specs.Hash.{alike_texts};

    ghost hash_input = { λ text. fed.str (encode_utf8_all text) };

    ghost respects_eq = { alike_texts };

    fn hash<H: Hasher>(&self, state: &mut H) {
        self.text.hash(state);
    }
}

impl AsStr for CachedPyStrRef {
    ghost use Rattle.std.specs.Prelude.{encode_utf8_all};

    ghost text = { encode_utf8_all };

    fn as_str(&self) -> &str {
        self.text.as_str()
    }
}

//! Handles and texts as keys: compared, hashed, and borrowed as a `str`.

use py_base::PyError;
use py_intern::{CachedPyStrRef, MaybeInternedString, StringPool};
use py_text::PyStr;
use std::collections::HashSet;
use std::convert::AsStr;

#[test]
fn handles(rt: HostRuntime) -> Result<(), PyError> {
    let mut pool = StringPool::new(rt.alloc());
    let (first, second) = (pool.intern("b")?, pool.intern("a")?);
    let mut set = HashSet::new(rt.alloc());
    set.insert(first)?;
    let copy = first;
    assert_eq!(rt;
        [
            copy == first,
            first < second,
            set.contains(&copy),
            set.contains(&second)
        ],
        [true, true, true, false]
    );
    Ok(())
}

// The text of a key, borrowed by the bound alone.
fn borrowed<S: AsStr>(key: &S) -> &str {
    key.as_str()
}

#[test]
fn cached(rt: HostRuntime) -> Result<(), PyError> {
    let key = CachedPyStrRef::new(PyStr::copy_of(rt.alloc(), "aé")?);
    let (same, other) = (
        CachedPyStrRef::new(PyStr::copy_of(rt.alloc(), "aé")?),
        CachedPyStrRef::new(PyStr::copy_of(rt.alloc(), "ae")?),
    );
    assert_eq!(rt;
        (borrowed(&key), key == same, key == other),
        ("aé", true, false)
    );
    let mut set = HashSet::new(rt.alloc());
    set.insert(key)?;
    assert_eq!(rt; [set.contains(&same), set.contains(&other)], [true, false]);
    Ok(())
}

// How many bytes a text has that is looked up, and whether it has a handle with it.
fn looked_up<S: MaybeInternedString>(text: S) -> (usize, bool) {
    (text.text().len(), text.as_interned().is_some())
}

#[test]
fn looked_up_texts(rt: HostRuntime) -> Result<(), PyError> {
    let text = PyStr::copy_of(rt.alloc(), "aé")?;
    assert_eq!(rt;
        [looked_up("中"), looked_up(&text)],
        [(3, false), (3, false)]
    );
    Ok(())
}

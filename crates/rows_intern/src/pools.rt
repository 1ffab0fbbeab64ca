//! Texts put in a pool and looked up, and a copy that grows alone.

use py_base::{PyError, PyResult};
use py_int::PyInt;
use py_intern::{InternableString, StringPool, as_interned_str};
use py_text::PyStr;
use py_value::Value;
use std::alloc::Global;

// The places of three texts that are put in turn.
fn three_places(
    pool: &mut StringPool,
    first: &str,
    second: &str,
    third: &str,
) -> PyResult<[usize; 3]> {
    let first = pool.intern(first)?;
    let second = pool.intern(second)?;
    let third = pool.intern(third)?;
    Ok([first.place(), second.place(), third.place()])
}

#[test]
fn places(rt: HostRuntime) -> Result<(), PyError> {
    let mut pool = StringPool::new(rt.alloc());
    let places = three_places(&mut pool, "a", "b", "a")?;
    assert_eq!(rt; (places, pool.len()), ([0, 1, 0], 2));
    Ok(())
}

// The place of a text that is looked up, or 9 where it is not there.
fn place_of(pool: &StringPool, text: &str) -> usize {
    match pool.interned(text) {
        Some(handle) => handle.place(),
        None => 9,
    }
}

#[test]
fn copy_grows_alone(rt: HostRuntime) -> Result<(), PyError> {
    let mut pool = StringPool::new(rt.alloc());
    three_places(&mut pool, "a", "b", "a")?;
    assert_eq!(rt; [place_of(&pool, "b"), place_of(&pool, "c")], [1, 9]);
    let mut copy = pool.clone_pool(rt.alloc())?;
    let new = copy.intern("c")?.place();
    assert_eq!(rt;
        [new, place_of(&copy, "c"), place_of(&pool, "c")],
        [2, 2, 9]
    );
    Ok(())
}

// The place of a text of any kind, and whether its handle has the text that was put.
fn kept<S: InternableString>(
    pool: &mut StringPool,
    text: S,
    shown: &str,
) -> PyResult<(usize, bool)> {
    let handle = pool.intern(text)?;
    let place = handle.place();
    let same = place < pool.len() && pool.text_of(handle).as_str() == shown;
    Ok((place, same))
}

#[test]
fn owned_and_borrowed(rt: HostRuntime) -> Result<(), PyError> {
    let mut pool = StringPool::new(rt.alloc());
    let owned = kept(&mut pool, String::from_str(rt.alloc(), "é")?, "é")?;
    let borrowed = kept(&mut pool, "中", "中")?;
    let text = kept(&mut pool, PyStr::copy_of(rt.alloc(), "é")?, "é")?;
    assert_eq!(rt; [owned, borrowed, text], [(0, true), (1, true), (0, true)]);
    Ok(())
}

// Whether both values are texts, and the same.
fn are_one_text(a: &Value, b: &Value) -> bool {
    match a {
        Value::Str(a) => match b {
            Value::Str(b) => a == b,
            _ => false,
        },
        _ => false,
    }
}

// The place of a value whose handle gives it again, 9 where the pool has it not, and 8 where the
// handle gives another.
fn given_again(alloc: Global, pool: &StringPool, value: &Value) -> PyResult<usize> {
    let Some(handle) = as_interned_str(value, pool) else {
        return Ok(9);
    };
    let object = pool.to_object(alloc, handle)?;
    if are_one_text(value, &object) {
        Ok(handle.place())
    } else {
        Ok(8)
    }
}

#[test]
fn found_by_value(rt: HostRuntime) -> Result<(), PyError> {
    let mut pool = StringPool::new(rt.alloc());
    three_places(&mut pool, "a", "1", "aé")?;
    let (text, other, number) = (
        Value::Str(PyStr::copy_of(rt.alloc(), "aé")?),
        Value::Str(PyStr::copy_of(rt.alloc(), "ae")?),
        Value::Int(PyInt::from(1)),
    );
    assert_eq!(rt;
        [
            given_again(rt.alloc(), &pool, &text)?,
            given_again(rt.alloc(), &pool, &other)?,
            given_again(rt.alloc(), &pool, &number)?
        ],
        [2, 9, 9]
    );
    Ok(())
}

#[test]
fn copied_exactly(rt: HostRuntime) -> Result<(), PyError> {
    let mut pool = StringPool::new(rt.alloc());
    let handle = pool.intern("aé")?;
    let copy = pool.to_exact(rt.alloc(), handle)?;
    assert_eq!(rt; (copy.as_str(), pool.len()), ("aé", 1));
    Ok(())
}

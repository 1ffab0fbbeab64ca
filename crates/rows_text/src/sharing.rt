//! Shared texts, iterators, bytes, lists, and texts compared.

use py_base::{PyError, PyResult};
use py_text::{IterState, PyBytes, PyStr, PyStrIterator, PyStrRef, TextList};
use std::alloc::Global;
use std::collections::HashSet;

#[test]
fn shared(rt: HostRuntime) -> Result<(), PyError> {
    let mut first = PyStr::new_ref(rt.alloc(), PyStr::copy_of(rt.alloc(), "ab")?)?;
    let second = first.clone()?;
    first.concat_in_place(rt.alloc(), "c")?;
    assert_eq!(rt;
        [first.as_pystr().as_str(), second.as_pystr().as_str()],
        ["abc", "ab"]
    );
    first.concat_in_place(rt.alloc(), "é")?;
    let text = first.as_pystr();
    assert_eq!(rt; (text.len(), text.is_ascii()), (4, false));
    Ok(())
}

#[test]
fn copied(rt: HostRuntime) -> Result<(), PyError> {
    let text = PyStr::copy_of(rt.alloc(), "ab")?;
    let copy = text.try_clone(rt.alloc())?;
    let shown = format!(in rt.alloc(); "{}", copy)?;
    assert!(rt; copy == text && shown.as_str() == "ab");
    Ok(())
}

// The code points that an iterator gives next, and then how many are left.
fn next_two(it: &mut PyStrIterator) -> (Option<char>, Option<char>, usize) {
    let (first, second) = (it.next(), it.next());
    (first, second, it.length_hint())
}

// Whether the state is this text at this place; none where the iterator is exhausted.
fn is_at(it: &PyStrIterator, wanted: Option<(&str, usize)>) -> bool {
    match (it.reduce(), wanted) {
        (IterState::Active(text, place), Some((s, n))) => {
            text.as_pystr().as_str() == s && place == n
        }
        (IterState::Exhausted, None) => true,
        _ => false,
    }
}

#[test]
fn iterators(rt: HostRuntime) -> Result<(), PyError> {
    let shared = PyStr::new_ref(rt.alloc(), PyStr::copy_of(rt.alloc(), "aé")?)?;
    let mut it = PyStrIterator::new(shared);
    assert_eq!(rt;
        (it.next(), it.length_hint(), is_at(&it, Some(("aé", 1)))),
        (Some('a'), 1, true)
    );
    it.setstate(i128::MIN);
    let hint = it.length_hint();
    it.setstate(1);
    assert_eq!(rt; (hint, next_two(&mut it)), (2, (Some('é'), None, 0)));
    Ok(())
}

#[test]
fn exhausted_iterators(rt: HostRuntime) -> Result<(), PyError> {
    let shared = PyStr::new_ref(rt.alloc(), PyStr::copy_of(rt.alloc(), "aé")?)?;
    let mut it = PyStrIterator::new(shared);
    it.setstate(9);
    assert_eq!(rt; (it.length_hint(), it.next()), (0, None));
    it.setstate(0);
    assert_eq!(rt;
        (it.length_hint(), it.next(), is_at(&it, None)),
        (0, None, true)
    );
    Ok(())
}

#[test]
fn bytes(rt: HostRuntime) -> Result<(), PyError> {
    let bytes = PyBytes::copy_of(rt.alloc(), &[0x61, 0xff])?;
    let copy = bytes.try_clone(rt.alloc())?;
    let small = PyBytes::from(b"a".to_vec(rt.alloc())?);
    assert_eq!(rt; copy.as_bytes(), [0x61u8, 0xff].as_slice());
    assert_eq!(rt; (copy.len(), copy == bytes, copy > small), (2, true, true));
    Ok(())
}

#[test]
fn lists(rt: HostRuntime) -> Result<(), PyError> {
    let ascii = PyStr::new_ascii_unchecked(b"ab".to_vec(rt.alloc())?);
    let marked = ascii.is_ascii();
    let mut list = TextList::new(rt.alloc());
    list.push(ascii)?;
    let there = list.get(0).is_some_and(|t| t.as_str() == "ab");
    assert_eq!(rt;
        (marked, list.len(), there, list.get(1).is_none()),
        (true, 1, true, true)
    );
    Ok(())
}

// "ab", then "é", "c" and "c", each appended by another call.
fn appended(alloc: Global) -> PyResult<PyStr> {
    let last = PyStr::from_char(alloc, 'c')?;
    let mut text = PyStr::with_capacity(alloc, 8)?;
    text.append_ascii("ab")?;
    text.append_char('é')?;
    text.append_counted(last.as_str(), last.len())?;
    text.append_text(&last)?;
    Ok(text)
}

#[test]
fn built(rt: HostRuntime) -> Result<(), PyError> {
    let text = appended(rt.alloc())?;
    let points = text.to_chars(rt.alloc())?;
    let same = PyStr::from_chars(rt.alloc(), &points)? == text;
    assert_eq!(rt;
        (text.as_str(), text.len(), text.is_ascii(), same),
        ("abécc", 5, false, true)
    );
    Ok(())
}

// The text "é", made in two ways of what is counted already.
fn made_of_counted(alloc: Global, text: &PyStr) -> PyResult<(PyStr, PyStr)> {
    let moved = String::from_str(alloc, text.as_str())?;
    let copy = PyStr::copy_counted(alloc, text.as_str(), text.len())?;
    Ok((PyStr::with_count(moved, text.len()), copy))
}

#[test]
fn counted(rt: HostRuntime) -> Result<(), PyError> {
    let mut text = PyStr::new(rt.alloc());
    text.append("é")?;
    let (made, copy) = made_of_counted(rt.alloc(), &text)?;
    assert!(rt; made == text && copy == text);
    Ok(())
}

// How the texts `é` and `中` compare with each other, with the empty text and with a copy.
fn comparisons(alloc: Global, small: &PyStr, great: &PyStr) -> PyResult<[bool; 4]> {
    let copy = PyStr::copy_of(alloc, "é")?;
    let empty = PyStr::copy_of(alloc, "")?;
    Ok([
        *small < *great,
        *small != *great,
        empty < *small,
        copy == *small,
    ])
}

#[test]
fn compared(rt: HostRuntime) -> Result<(), PyError> {
    let small = PyStr::copy_of(rt.alloc(), "é")?;
    let great = PyStr::from(String::from_str(rt.alloc(), "中")?);
    assert_eq!(rt; comparisons(rt.alloc(), &small, &great)?, [true; 4]);
    Ok(())
}

fn hash_of(alloc: Global, word: &str) -> Result<u64, PyError> {
    Ok(PyStr::copy_of(alloc, word)?.py_hash(0).cast_unsigned())
}

// The values that the makers of FNV-1a publish for these three words.
#[test]
fn hashed_as_published(rt: HostRuntime) -> Result<(), PyError> {
    let empty = hash_of(rt.alloc(), "")?;
    let letter = hash_of(rt.alloc(), "a")?;
    let word = hash_of(rt.alloc(), "foobar")?;
    assert_eq!(rt;
        [empty, letter, word],
        [
            0xcbf2_9ce4_8422_2325,
            0xaf63_dc4c_8601_ec8c,
            0x8594_4171_f739_67e8,
        ]
    );
    Ok(())
}

#[test]
fn hashed(rt: HostRuntime) -> Result<(), PyError> {
    let (small, copy) = (
        PyStr::copy_of(rt.alloc(), "é")?,
        PyStr::copy_of(rt.alloc(), "é")?,
    );
    let great = PyStr::copy_of(rt.alloc(), "中")?;
    let seven = small.py_hash(7);
    assert!(rt; copy.py_hash(7) == seven && small.py_hash(8) != seven && great.py_hash(7) != seven);
    let mut set = HashSet::new(rt.alloc());
    set.insert(small)?;
    assert_eq!(rt; (set.contains(&copy), set.contains(&great)), (true, false));
    Ok(())
}

// A clone is the same text: it takes no memory, and both can be read.
#[test]
fn cloned(rt: HostRuntime) -> Result<(), PyError> {
    let shared: PyStrRef = PyStr::new_ref(rt.alloc(), PyStr::copy_of(rt.alloc(), "aé")?)?;
    let mut it = PyStrIterator::new(shared.clone()?);
    it.setstate(1);
    assert_eq!(rt; (it.next(), shared.as_pystr().as_str()), (Some('é'), "aé"));
    Ok(())
}

//! Slices and items.

ghost use Rattle.std.specs.Prelude.{◌≡◌, length};

use py_base::{PyError, PyResult};
use py_text::PyStr;
use std::alloc::Global;

// The slices of both texts: `1..3` borrowed, copied and backwards, and then all five code points in
// steps: by 2 forward and backward, by 3 forward, by 4 backward.
const RANGES: [(&str, [&str; 7]); 2] = [
    ("héllo", ["él", "él", "lé", "hlo", "olh", "hl", "oh"]),
    ("hello", ["el", "el", "le", "hlo", "olh", "hl", "oh"]),
];

// Whether the first three slices of a text are these.
fn is_sliced(alloc: Global, t: &PyStr, wanted: &[&str; 7]) -> PyResult<bool>
    requires { length t.now ≡ 5 }
{
    let copied = t.do_slice(alloc, 1..3)?;
    let back = t.do_slice_reverse(alloc, 1..3)?;
    Ok(t.get_chars(1..3) == wanted[0] && copied.as_str() == wanted[1] && back.as_str() == wanted[2])
}

// Whether the stepped slices of a text are these.
fn is_stepped(alloc: Global, t: &PyStr, wanted: &[&str; 7]) -> PyResult<bool>
    requires { length t.now ≡ 5 }
{
    let two = t.do_stepped_slice(alloc, 0..5, 2)?;
    let two_back = t.do_stepped_slice_reverse(alloc, 0..5, 2)?;
    let three = t.do_stepped_slice(alloc, 0..5, 3)?;
    let four_back = t.do_stepped_slice_reverse(alloc, 0..5, 4)?;
    Ok(
        two.as_str() == wanted[3]
            && two_back.as_str() == wanted[4]
            && three.as_str() == wanted[5]
            && four_back.as_str() == wanted[6],
    )
}

#[test]
fn ranges(rt: HostRuntime) -> Result<(), PyError> {
    let alloc = rt.alloc();
    for (s, wanted) in &RANGES {
        let t = PyStr::copy_of(alloc, s)?;
        assert!(rt; t.len() == 5);
        let sliced = is_sliced(alloc, &t, wanted)?;
        let stepped = is_stepped(alloc, &t, wanted)?;
        assert!(rt; sliced && stepped, "{s}");
    }
    Ok(())
}

// A text, a start, a stop and a step, and the slice.
const SLICES: [(&str, Option<i128>, Option<i128>, Option<i128>, &str); 10] = [
    ("abc", None, None, Some(-1), "cba"),
    ("héllo", Some(1), Some(-1), None, "éll"),
    ("héllo", Some(-4), None, Some(2), "él"),
    ("héllo", Some(-9), Some(9), Some(3), "hl"),
    ("héllo", Some(9), Some(-9), Some(-2), "olh"),
    ("abc", Some(2), Some(1), None, ""),
    ("abc", Some(3), Some(-1), Some(-1), ""),
    (
        "abc",
        Some(i128::MIN),
        Some(i128::MAX),
        Some(i128::MAX),
        "a",
    ),
    (
        "abc",
        Some(i128::MAX),
        Some(i128::MIN),
        Some(i128::MIN),
        "c",
    ),
    ("", None, None, Some(-1), ""),
];

#[test]
fn slices(rt: HostRuntime) -> Result<(), PyError> {
    let alloc = rt.alloc();
    for (s, start, stop, step, wanted) in &SLICES {
        let t = PyStr::copy_of(alloc, s)?;
        let slice = t.getitem_by_slice(alloc, *start, *stop, *step)?;
        assert_eq!(rt; slice.as_str(), *wanted);
    }
    let failed = PyStr::copy_of(alloc, "abc")?.getitem_by_slice(alloc, None, None, Some(0));
    assert!(rt; failed == Err(PyError::StepZero));
    Ok(())
}

// An index into `aéb`, and the item.
const ITEMS: [(i128, Result<char, PyError>); 9] = [
    (0, Ok('a')),
    (1, Ok('é')),
    (2, Ok('b')),
    (-1, Ok('b')),
    (-3, Ok('a')),
    (3, Err(PyError::IndexOutOfRange)),
    (-4, Err(PyError::IndexOutOfRange)),
    (i128::MAX, Err(PyError::IndexOutOfRange)),
    (i128::MIN, Err(PyError::IndexOutOfRange)),
];

#[test]
fn items(rt: HostRuntime) -> Result<(), PyError> {
    let t = PyStr::copy_of(rt.alloc(), "aéb")?;
    for (index, wanted) in &ITEMS {
        assert!(rt; t.getitem_by_index(*index) == *wanted, "{index}");
    }
    Ok(())
}

// How long a long text is. No clause says it, so that no proof computes a list of that length.
fn many() -> isize {
    1_000_000
}

#[test]
fn long_texts(rt: HostRuntime) -> Result<(), PyError> {
    let t = PyStr::copy_of(rt.alloc(), "a")?.mul(rt.alloc(), many())?;
    let mut sum: u64 = 0;
    for place in 0..t.len() {
        sum = sum.wrapping_add(u64::from(t.do_get(place)));
    }
    assert_eq!(rt; sum, 97_000_000);
    Ok(())
}

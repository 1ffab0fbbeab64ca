//! Sums of calls on small texts, on integers and on small pools, and words that are no request.

use py_base::PyResult;
use std::alloc::Global;
use std::test::Fail;
use timed_calls::{Language, Request, text_of, text_with_end};

// Three calls of each kind on texts of 300 code points or pools of 300 texts, with the sums that CPython gives.
const SUMS: [(&str, i128); 43] = [
    ("find_ascii", 879),
    ("find_french", 876),
    ("count_ascii", 9),
    ("count_french", 9),
    ("startswith_ascii", 2),
    ("startswith_french", 2),
    ("order_ascii", 2),
    ("order_french", 1),
    ("equality_ascii", 2),
    ("equality_french", 2),
    ("replace_ascii", 918),
    ("replace_french", 927),
    ("split_ascii", 12),
    ("split_french", 12),
    ("slice_ascii", 450),
    ("slice_french", 450),
    ("stepped_ascii", 300),
    ("stepped_french", 300),
    ("join_ascii", 2136),
    ("join_french", 2385),
    ("iterate_ascii", 96),
    ("iterate_french", 96),
    ("strip_ascii", 897),
    ("strip_french", 897),
    ("center_ascii", 1201),
    ("center_french", 1201),
    ("zfill_ascii", 1201),
    ("zfill_french", 1201),
    ("expandtabs_ascii", 1500),
    ("expandtabs_french", 1671),
    ("repr_ascii", 906),
    ("repr_french", 906),
    ("encode_ascii", 900),
    ("encode_french", 1017),
    ("isalpha_ascii", 2),
    ("isalpha_french", 2),
    ("modpow", 91802),
    ("divmod", 113918),
    ("literal", 186837),
    ("repr", 114),
    ("intern", 22),
    ("interned", 357),
    ("intern_new", 900),
];

// The sum of so many calls, or none where the name is no call.
fn sum_of(alloc: Global, name: &str, times: &str) -> PyResult<Option<i128>> {
    match Request::of_words(name, "300", times) {
        Some(request) => Ok(Some(request.sum(alloc)?)),
        None => Ok(None),
    }
}

#[test]
fn sums_are_those_of_cpython(rt: HostRuntime) -> Result<(), Fail> {
    for (name, wanted) in SUMS {
        let sums = (
            sum_of(rt.alloc(), name, "3")?,
            sum_of(rt.alloc(), name, "0")?,
        );
        assert_eq!(rt; sums, (Some(wanted), Some(0)), "{name}");
    }
    Ok(())
}

#[test]
fn other_words_are_no_request(rt: HostRuntime) {
    let asked = [
        Request::of_words("find", "300", "3"),
        Request::of_words("find_latin", "300", "3"),
        Request::of_words("modpow_ascii", "300", "3"),
        Request::of_words("modpow", "-1", "3"),
        Request::of_words("modpow", "0", "4294967296"),
    ];
    assert_eq!(rt; asked, [None; 5]);
}

#[test]
fn a_short_text_is_the_beginning_of_the_last_word(rt: HostRuntime) -> Result<(), Fail> {
    let end = text_with_end(rt.alloc(), Language::French, 3)?;
    let start = text_of(rt.alloc(), Language::French, 6)?;
    assert_eq!(rt; (end.as_str(), start.as_str()), ("der", "le gar"));
    Ok(())
}

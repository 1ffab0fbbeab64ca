//! Percent templates: how many parts they have, where these begin, and the first fault.

use py_base::{CarryKind, PercentFault, PyError, PyResult};
use py_spec::CFormatString;
use py_text::PyStr;
use std::alloc::Global;

// Templates, and the places where their parts begin.
const PLACES: [(&str, &[usize]); 8] = [
    ("", &[]),
    ("ab", &[0]),
    ("a%%%5d", &[0, 3]),
    ("%05d|%-4s|%#x", &[0, 4, 5, 9, 10]),
    ("%(a(b))d", &[0]),
    ("é%(é)-+ #0*.*hs%%", &[0, 1, 15]),
    ("%.ld%2147483647c", &[0, 4]),
    ("%%%%", &[0]),
];

// Templates with a fault, and its place.
const FAULTS: [(&str, PercentFault, usize); 9] = [
    ("%5", PercentFault::IncompleteFormat, 2),
    ("é%", PercentFault::IncompleteFormat, 2),
    ("ab%(c(d)", PercentFault::IncompleteKey, 3),
    ("%d%y", PercentFault::UnsupportedChar('y'), 3),
    ("%2147483648d", PercentFault::WidthTooBig, 1),
    ("%1.99999999999999999999d", PercentFault::WidthTooBig, 3),
    ("%(é)llx", PercentFault::UnsupportedChar('l'), 5),
    ("%5%", PercentFault::UnsupportedChar('%'), 2),
    ("%y%(", PercentFault::UnsupportedChar('y'), 1),
];

// Templates, how many specifiers they have, and whether these have keys.
const SPECIFIERS: [(&str, Option<(usize, bool)>); 4] = [
    ("a%%", Some((0, false))),
    ("%d %s", Some((2, false))),
    ("%(a)s%(b)d", Some((2, true))),
    ("%(a)s%d", None),
];

fn parse(alloc: Global, template: &str) -> PyResult<CFormatString> {
    let text = PyStr::copy_of(alloc, template)?;
    CFormatString::parse(alloc, &text)
}

// Whether a template has parts that begin at these places.
fn begins_at(alloc: Global, template: &str, places: &[usize]) -> PyResult<bool> {
    let parsed = parse(alloc, template)?;
    let mut same = parsed.len() == places.len();
    for (i, place) in places.iter().enumerate() {
        if let Some((begin, _)) = parsed.part(i) {
            same = same && begin == *place;
        }
    }
    Ok(same)
}

fn fault_of(alloc: Global, template: &str) -> Option<PyError> {
    match parse(alloc, template) {
        Ok(_) => None,
        Err(fault) => Some(fault),
    }
}

#[test]
fn places(rt: HostRuntime) -> PyResult<()> {
    for (template, places) in &PLACES {
        let same = begins_at(rt.alloc(), template, places)?;
        assert_eq!(rt; same, true, "{template}");
    }
    Ok(())
}

#[test]
fn faults(rt: HostRuntime) -> PyResult<()> {
    for (template, fault, place) in FAULTS {
        let found = fault_of(rt.alloc(), template);
        assert_eq!(rt;
            found,
            Some(PyError::PercentParse(fault, place)),
            "{template}"
        );
    }
    assert_eq!(rt;
        fault_of(rt.alloc(), "%.2f"),
        Some(PyError::NotCarried(CarryKind::Code('f')))
    );
    Ok(())
}

#[test]
fn specifiers(rt: HostRuntime) -> PyResult<()> {
    for (template, wanted) in &SPECIFIERS {
        let parsed = parse(rt.alloc(), template)?;
        assert_eq!(rt; parsed.check_specifiers(), *wanted, "{template}");
    }
    Ok(())
}

//! Percent templates of bytes: their parts, places, keys and faults.

use py_base::{PercentFault, PyError, PyResult};
use py_spec::{CFormatBytes, CFormatKey, CFormatPart};
use std::alloc::Global;

// Templates, how many parts they have, and the place and the bytes of the first literal.
const LITERALS: [(&[u8], usize, usize, &[u8]); 5] = [
    (b"ab", 1, 0, b"ab"),
    (b"a%%%5d", 2, 0, b"a%"),
    (b"%d\xff\x00%%\xe9", 2, 2, b"\xff\x00%\xe9"),
    (b"\xc3\xa9%s", 2, 0, b"\xc3\xa9"),
    (b"%%%%", 1, 0, b"%%"),
];

// Templates with a fault, and its place.
const FAULTS: [(&[u8], PercentFault, usize); 4] = [
    (b"\xc3\xa9%", PercentFault::IncompleteFormat, 3),
    (b"ab%(\xff(d)", PercentFault::IncompleteKey, 3),
    (b"%d%y", PercentFault::UnsupportedChar('y'), 3),
    (b"%2147483648d", PercentFault::WidthTooBig, 1),
];

// How many parts a template has, and whether its first literal is there with these bytes.
fn has_literal(alloc: Global, template: &[u8], place: usize, bytes: &[u8]) -> PyResult<usize> {
    let parsed = CFormatBytes::parse_from_bytes(alloc, template)?;
    let mut found = 0;
    for i in 0..parsed.len() {
        if let Some((begin, CFormatPart::LiteralBytes(text))) = parsed.part(i) {
            if begin == place && text.as_bytes() == bytes {
                found = parsed.len();
            }
        }
    }
    Ok(found)
}

// Whether the first specifier of a template has this key.
fn has_key(alloc: Global, template: &[u8], wanted: &[u8]) -> PyResult<bool> {
    let parsed = CFormatBytes::parse_from_bytes(alloc, template)?;
    match parsed.part(0) {
        Some((_, CFormatPart::Spec(read))) => match &read.mapping_key {
            Some(CFormatKey::Bytes(key)) => Ok(key.as_bytes() == wanted),
            _ => Ok(false),
        },
        _ => Ok(false),
    }
}

fn fault_of(alloc: Global, template: &[u8]) -> Option<PyError> {
    match CFormatBytes::parse_from_bytes(alloc, template) {
        Ok(_) => None,
        Err(fault) => Some(fault),
    }
}

#[test]
fn literals(rt: HostRuntime) -> PyResult<()> {
    for (template, parts, place, bytes) in &LITERALS {
        let found = has_literal(rt.alloc(), template, *place, bytes)?;
        assert_eq!(rt; found, *parts);
    }
    Ok(())
}

#[test]
fn keys(rt: HostRuntime) -> PyResult<()> {
    let nested = has_key(rt.alloc(), b"%(a(\xff))d", b"a(\xff)")?;
    let none = has_key(rt.alloc(), b"%d", b"")?;
    assert_eq!(rt; (nested, none), (true, false));
    Ok(())
}

#[test]
fn faults(rt: HostRuntime) -> PyResult<()> {
    for (template, fault, place) in FAULTS {
        let found = fault_of(rt.alloc(), template);
        assert_eq!(rt; found, Some(PyError::PercentParse(fault, place)));
    }
    Ok(())
}

#[test]
fn mixed_specifiers(rt: HostRuntime) -> PyResult<()> {
    let parsed = CFormatBytes::parse_from_bytes(rt.alloc(), b"%(a)s%d")?;
    assert_eq!(rt; parsed.check_specifiers(), None);
    Ok(())
}

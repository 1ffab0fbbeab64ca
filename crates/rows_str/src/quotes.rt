//! Texts and bytes in quotes, and as one another.

use crate::texts::copied;
use py_base::{PyError, PyResult};
use py_str::{BytesMore, StrMore};
use py_text::{PyBytes, PyStr};
use std::alloc::Global;

// A text, its `repr` and its `ascii`.
const TEXTS: [(&str, &str, &str); 11] = [
    ("é\n", "'é\\n'", "'\\xe9\\n'"),
    ("it's", "\"it's\"", "\"it's\""),
    ("\"", "'\"'", "'\"'"),
    ("'\"", "'\\'\"'", "'\\'\"'"),
    (
        "\\\r\t\u{0}\u{7f}",
        "'\\\\\\r\\t\\x00\\x7f'",
        "'\\\\\\r\\t\\x00\\x7f'",
    ),
    (
        "\u{200b}\u{e0001}",
        "'\\u200b\\U000e0001'",
        "'\\u200b\\U000e0001'",
    ),
    ("🎅€", "'🎅€'", "'\\U0001f385\\u20ac'"),
    ("", "''", "''"),
    ("a~ ", "'a~ '", "'a~ '"),
    ("\u{2028}\u{a0}", "'\\u2028\\xa0'", "'\\u2028\\xa0'"),
    ("\u{d7ff}", "'\\ud7ff'", "'\\ud7ff'"),
];

// Bytes, and their `repr`.
const BYTES: [(&[u8], &str); 6] = [
    (&[0x61, 0xff], "b'a\\xff'"),
    (&[0x69, 0x74, 0x27, 0x73], "b\"it's\""),
    (&[0x27, 0x22], "b'\\'\"'"),
    (
        &[0x0a, 0x0d, 0x09, 0x5c, 0x00, 0x7f, 0x20, 0x7e],
        "b'\\n\\r\\t\\\\\\x00\\x7f ~'",
    ),
    (&[], "b''"),
    (&[0x22], "b'\"'"),
];

fn is_quoted(alloc: Global, text: &str, repr: &str, ascii: &str) -> PyResult<bool> {
    let text = PyStr::copy_of(alloc, text)?;
    Ok((text.repr(alloc)?.as_str(), text.ascii(alloc)?.as_str()) == (repr, ascii))
}

fn are_quoted(alloc: Global, bytes: &[u8], repr: &str) -> PyResult<bool> {
    let bytes = PyBytes::copy_of(alloc, bytes)?;
    Ok(bytes.repr(alloc)?.as_str() == repr)
}

#[test]
fn texts(rt: HostRuntime) -> Result<(), PyError> {
    for (text, repr, ascii) in &TEXTS {
        assert!(rt; is_quoted(rt.alloc(), text, repr, ascii)?, "{text}");
    }
    Ok(())
}

#[test]
fn bytes(rt: HostRuntime) -> Result<(), PyError> {
    for (bytes, repr) in &BYTES {
        assert!(rt; are_quoted(rt.alloc(), bytes, repr)?, "{repr}");
    }
    Ok(())
}

// The name of an encoding, and whether it is one of UTF-8.
const NAMES: [(Option<&str>, bool); 7] = [
    (None, true),
    (Some("utf-8"), true),
    (Some("UtF8"), true),
    (Some("UTF-8"), true),
    (Some("latin-1"), false),
    (Some(""), false),
    (Some("utf-16"), false),
];

// Whether `encode` with the name gives the bytes of `é`, or fails where the name is none of UTF-8.
fn is_encoded(alloc: Global, name: Option<&str>, known: bool) -> PyResult<bool> {
    let text = PyStr::copy_of(alloc, "é")?;
    let name = copied(alloc, name)?;
    Ok(match text.encode(alloc, name.as_ref()) {
        Ok(bytes) => known && bytes.as_bytes() == b"\xc3\xa9".as_slice(),
        Err(error) => !known && error == PyError::UnknownEncoding,
    })
}

#[test]
fn encodings(rt: HostRuntime) -> Result<(), PyError> {
    for (name, known) in &NAMES {
        assert!(rt; is_encoded(rt.alloc(), *name, *known)?, "{known}");
    }
    Ok(())
}

// Bytes, and the text that they are in UTF-8.
const DECODED: [(&[u8], Option<&str>); 6] = [
    (&[0x61, 0xc3, 0xa9], Some("aé")),
    (&[], Some("")),
    (&[0xff], None),
    (&[0xc3], None),
    (&[0xed, 0xa0, 0x80], None),
    (&[0xf0, 0x9f, 0x8e, 0x85], Some("🎅")),
];

fn is_decoded(alloc: Global, bytes: &[u8], wanted: Option<&str>) -> PyResult<bool> {
    let bytes = PyBytes::copy_of(alloc, bytes)?;
    Ok(match (bytes.decode(alloc), wanted) {
        (Ok(text), Some(wanted)) => text.as_str() == wanted,
        (Err(error), None) => error == PyError::InvalidUtf8,
        _ => false,
    })
}

#[test]
fn decodings(rt: HostRuntime) -> Result<(), PyError> {
    for (bytes, wanted) in &DECODED {
        assert!(rt; is_decoded(rt.alloc(), bytes, *wanted)?, "{bytes:?}");
    }
    Ok(())
}

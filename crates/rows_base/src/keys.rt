//! The names of keys that were not found, as CPython writes them.

use py_base::*;
use std::alloc::{AllocError, Global};
use std::test::Fail;

fn shown(alloc: Global, key: KeyName) -> Result<String, AllocError> {
    PyError::Key(key).to_string(alloc)
}

fn text_key(alloc: Global, text: &str) -> PyResult<KeyName> {
    BaseText::copy_of(alloc, text).map(KeyName::Text)
}

fn bytes_key(alloc: Global, bytes: &[u8]) -> PyResult<KeyName> {
    BaseBytes::copy_of(alloc, bytes).map(KeyName::Bytes)
}

const TEXT_KEYS: [(&str, &str); 8] = [
    ("it's", r#""it's""#),
    ("say \"it's\"", r#"'say "it\'s"'"#),
    ("\\", r"'\\'"),
    ("a\n\r\t", r"'a\n\r\t'"),
    ("\0\u{1f}\u{7f}\u{ad}", r"'\x00\x1f\x7f\xad'"),
    ("é中😀", "'é中😀'"),
    ("\u{200b}\u{e000}", r"'\u200b\ue000'"),
    ("\u{10ffff}", r"'\U0010ffff'"),
];

const BYTES_KEYS: [(&[u8], &str); 3] = [
    (b"it's", r#"b"it's""#),
    (b"'\"", r#"b'\'"'"#),
    (b"\\\n\r\t \x1f~\x7f\xff", r"b'\\\n\r\t \x1f~\x7f\xff'"),
];

#[test]
fn text_keys(rt: HostRuntime) -> Result<(), Fail> {
    for (text, wanted) in &TEXT_KEYS {
        let key = text_key(rt.alloc(), text)?;
        assert_eq!(rt; shown(rt.alloc(), key)?.as_str(), *wanted);
    }
    Ok(())
}

#[test]
fn bytes_keys(rt: HostRuntime) -> Result<(), Fail> {
    for (bytes, wanted) in &BYTES_KEYS {
        let key = bytes_key(rt.alloc(), bytes)?;
        assert_eq!(rt; shown(rt.alloc(), key)?.as_str(), *wanted);
    }
    Ok(())
}

#[test]
fn integer_keys(rt: HostRuntime) -> Result<(), Fail> {
    let line = shown(rt.alloc(), KeyName::Int(i128::MIN))?;
    assert_eq!(rt; line.as_str(), "-170141183460469231731687303715884105728");
    Ok(())
}

#[test]
fn key_errors(rt: HostRuntime) {
    let error = PyError::Key(KeyName::Int(0));
    assert_eq!(rt; (error.kind(), error.name()), (ErrorKind::KeyError, "key"));
    let same = error == PyError::Key(KeyName::Int(0));
    assert_eq!(rt; (same, error != PyError::NoMemory), (true, true));
}

//! Values written by a specifier, with what CPython writes.

use py_base::PyResult;
use py_int::PyInt;
use py_spec::{CFormatBytes, CFormatPart, CFormatString};
use py_text::{PyBytes, PyStr};
use std::alloc::Global;

const NUMBERS: [(&str, i128, &str); 24] = [
    ("%05d", 42, "00042"),
    ("%#x", 255, "0xff"),
    ("%#08x", 255, "0x0000ff"),
    ("%#08x", -255, "-0x000ff"),
    ("%+d", 5, "+5"),
    ("% d", 5, " 5"),
    ("%+ d", 5, "+5"),
    ("% +d", -5, "-5"),
    ("%.3d", -7, "-007"),
    ("%05.3d", 7, "00007"),
    ("%-5d", 7, "7    "),
    ("%-05d", 7, "7    "),
    ("%#o", 8, "0o10"),
    ("%X", 48879, "BEEF"),
    ("%#X", 48879, "0XBEEF"),
    ("% 05d", 7, " 0007"),
    ("%.0d", 0, "0"),
    ("%.d", 7, "7"),
    ("%#.4o", 8, "0o0010"),
    ("%+#010x", 255, "+0x00000ff"),
    ("%10.5d", -42, "    -00042"),
    (
        "%d",
        -170141183460469231731687303715884105728,
        "-170141183460469231731687303715884105728",
    ),
    (
        "%x",
        170141183460469231731687303715884105727,
        "7fffffffffffffffffffffffffffffff",
    ),
    (
        "%o",
        170141183460469231731687303715884105727,
        "1777777777777777777777777777777777777777777",
    ),
];

const STRINGS: [(&str, &str, &str); 10] = [
    ("%-4s", "ab", "ab  "),
    ("%4s", "ab", "  ab"),
    ("%.2s", "abc", "ab"),
    ("%5.2s", "éàü", "   éà"),
    ("%.s", "ab", ""),
    ("%05s", "ab", "   ab"),
    ("%s", "", ""),
    ("%1s", "ab", "ab"),
    ("%.9s", "ab", "ab"),
    ("%-4.1s", "ab", "a   "),
];

const CHARS: [(&str, char, &str); 4] = [
    ("%3c", 'é', "  é"),
    ("%-3c", 'x', "x  "),
    ("%.0c", 'x', "x"),
    ("%c", '🎅', "🎅"),
];

const BYTES: [(&[u8], &[u8], &[u8]); 5] = [
    (b"%-4s", b"ab", b"ab  "),
    (b"%.1b", b"\xff\xfe", b"\xff"),
    (b"%3b", b"\xff", b"  \xff"),
    (b"%.0c", b"x", b"x"),
    (b"%.s", b"ab", b""),
];

fn parse(alloc: Global, template: &str) -> PyResult<CFormatString> {
    let text = PyStr::copy_of(alloc, template)?;
    CFormatString::parse(alloc, &text)
}

fn number(alloc: Global, template: &str, value: i128) -> PyResult<PyStr> {
    match parse(alloc, template)?.part(0) {
        Some((_, CFormatPart::Spec(read))) => read.format_number(alloc, PyInt::from(value)),
        _ => Ok(PyStr::new(alloc)),
    }
}

fn string(alloc: Global, template: &str, value: &str) -> PyResult<PyStr> {
    let text = PyStr::copy_of(alloc, value)?;
    match parse(alloc, template)?.part(0) {
        Some((_, CFormatPart::Spec(read))) => read.format_string(alloc, &text),
        _ => Ok(PyStr::new(alloc)),
    }
}

fn character(alloc: Global, template: &str, value: char) -> PyResult<PyStr> {
    match parse(alloc, template)?.part(0) {
        Some((_, CFormatPart::Spec(read))) => read.format_char(alloc, value),
        _ => Ok(PyStr::new(alloc)),
    }
}

fn bytes(alloc: Global, template: &[u8], value: &[u8]) -> PyResult<PyBytes> {
    match CFormatBytes::parse_from_bytes(alloc, template)?.part(0) {
        Some((_, CFormatPart::Spec(read))) => read.format_bytes(alloc, value),
        _ => PyBytes::copy_of(alloc, b"no specifier"),
    }
}

#[test]
fn numbers(rt: HostRuntime) -> PyResult<()> {
    for (template, value, wanted) in &NUMBERS {
        let made = number(rt.alloc(), template, *value)?;
        assert_eq!(rt; made.as_str(), *wanted, "{template}");
    }
    Ok(())
}

#[test]
fn strings(rt: HostRuntime) -> PyResult<()> {
    for (template, value, wanted) in &STRINGS {
        let made = string(rt.alloc(), template, value)?;
        assert_eq!(rt; made.as_str(), *wanted, "{template}");
    }
    Ok(())
}

#[test]
fn characters(rt: HostRuntime) -> PyResult<()> {
    for (template, value, wanted) in &CHARS {
        let made = character(rt.alloc(), template, *value)?;
        assert_eq!(rt; made.as_str(), *wanted, "{template}");
    }
    Ok(())
}

#[test]
fn bytes_between_spaces(rt: HostRuntime) -> PyResult<()> {
    for (template, value, wanted) in &BYTES {
        let made = bytes(rt.alloc(), template, value)?;
        assert_eq!(rt; made.as_bytes(), *wanted);
    }
    Ok(())
}

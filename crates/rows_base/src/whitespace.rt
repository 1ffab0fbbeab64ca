//! ASCII whitespace, as `bytes.isspace` and `bytes.strip` mean it.

use py_base::{is_ascii_whitespace, trim_ascii_whitespace};

const WHITESPACE: [u32; 6] = [9, 10, 11, 12, 13, 32];

#[test]
fn whitespace(rt: HostRuntime) {
    for c in 0..0x300 {
        assert_eq!(rt; is_ascii_whitespace(c), WHITESPACE.contains(&c), "at {c}");
    }
}

// Bytes, and the same without what is at their ends.
const TRIMMED: [(&[u8], &[u8]); 9] = [
    (b"", b""),
    (b" \t\n\x0b\x0c\r", b""),
    (b"a", b"a"),
    (b" a b ", b"a b"),
    (b"\x0ba\x0b", b"a"),
    (b"\x1ca\x1c", b"\x1ca\x1c"),
    (b"\x85\xa0", b"\x85\xa0"),
    (b"\x00 ", b"\x00"),
    (b"\t\r\n12\x0c ", b"12"),
];

#[test]
fn trimmed(rt: HostRuntime) {
    for (bytes, wanted) in &TRIMMED {
        assert_eq!(rt; trim_ascii_whitespace(bytes), *wanted);
    }
}

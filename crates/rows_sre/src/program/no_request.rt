//! Bytes that are no request, too many bytes, and arguments that are no command.

use super::{FIRST, FIRST_LINE, is_answered, reply, sink_of, source_of, status};
use py_base::{MemSource, Sink};
use std::test::Fail;

// A part of the first request, and what makes it no request in its place.
const DAMAGE: [(&str, &str); 17] = [
    ("97", "4294967296"),
    ("97", "097"),
    ("97", "+97"),
    ("16 97", "16  97"),
    ("groups 0", "groups 00"),
    ("limit 2", "limit 18446744073709551616"),
    ("limit 2", "limit 2\r"),
    ("t62", "t6A"),
    ("t62", "t6"),
    ("t62", "62"),
    ("t62", "t62 t63"),
    ("t616161", "tff"),
    ("t616161", "teda080"),
    ("limit 2\n", ""),
    ("t616161\n", "t616161"),
    ("t616161\n", "t616161\n\n"),
    (FIRST, ""),
];

#[test]
fn damaged(rt: HostRuntime) -> Result<(), Fail> {
    for (from, to) in &DAMAGE {
        let request = FIRST.replacen(rt.alloc(), *from, to, 1)?;
        let is_no_request = is_answered(rt.alloc(), request.as_bytes(), 3, b"");
        assert!(rt; is_no_request, "at {request}");
    }
    Ok(())
}

#[test]
fn cut_off(rt: HostRuntime) {
    let bytes = FIRST.as_bytes();
    for end in 0..bytes.len() {
        let is_no_request = is_answered(rt.alloc(), &bytes[..end], 3, b"");
        assert!(rt; is_no_request, "cut at {end}");
    }
}

#[test]
fn no_command(rt: HostRuntime) -> Result<(), Fail> {
    let mut source = source_of(rt.alloc(), FIRST.as_bytes())?;
    let mut sink = sink_of(rt.alloc())?;
    let others: [&[&str]; 4] = [&[], &["sub", "x"], &["find"], &["Sub"]];
    for words in &others {
        let status = status(rt.alloc(), words, &mut source, &mut sink);
        assert_eq!(rt; (status, sink.written()), (2, b"".as_slice()));
    }
    // Nothing was read: the request is still there.
    let status = status(rt.alloc(), &["sub"], &mut source, &mut sink);
    assert_eq!(rt; (status, sink.written()), (0, FIRST_LINE));
    Ok(())
}

#[test]
fn most_bytes(rt: HostRuntime) -> Result<(), Fail> {
    for (count, wanted) in [(16_777_216, 3), (16_777_217, 7)] {
        let bytes = vec![in rt.alloc(); 0u8; count]?;
        let (status, sink) = reply(
            rt.alloc(),
            MemSource::new(bytes, Vec::new(rt.alloc()), 65536),
        )?;
        assert_eq!(rt; (status, sink.written()), (wanted, b"".as_slice()));
    }
    Ok(())
}

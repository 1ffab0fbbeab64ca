//! Sources and sinks in memory.

use py_base::{Failed, MemSink, MemSource, Sink, Source, TrueSource};
use std::test::Fail;

// Whether reads of four bytes give these answers.
fn gives<S: Source>(source: &mut S, answers: &[Result<usize, Failed>]) -> bool {
    let mut into = [0u8; 4];
    for answer in answers {
        if source.read(&mut into) != *answer {
            return false;
        }
    }
    true
}

// Whether writes of the piece give these answers.
fn takes<K: Sink>(sink: &mut K, piece: &[u8], answers: &[Result<usize, Failed>]) -> bool {
    for answer in answers {
        if sink.write(piece) != *answer {
            return false;
        }
    }
    true
}

#[test]
fn failing_source(rt: HostRuntime) -> Result<(), Fail> {
    let bytes = b"abcdefg".to_vec(rt.alloc())?;
    let mut source = MemSource::new(bytes, vec![in rt.alloc(); 2]?, 3);
    let answers = [Ok(3), Err(Failed), Ok(3), Ok(1), Ok(0), Ok(0)];
    assert!(rt; gives(&mut source, &answers));
    Ok(())
}

#[test]
fn true_source(rt: HostRuntime) -> Result<(), Fail> {
    let mut source = TrueSource::new(b"abcdefg".to_vec(rt.alloc())?);
    assert!(rt; gives(&mut source, &[Ok(4), Ok(3), Ok(0)]));
    Ok(())
}

#[test]
fn failing_sink(rt: HostRuntime) -> Result<(), Fail> {
    let mut sink = MemSink::new(rt.alloc(), 5, vec![in rt.alloc(); 2]?, 3)?;
    let answers = [Ok(3), Err(Failed), Ok(2), Ok(0)];
    assert!(rt; takes(&mut sink, b"abcd", &answers));
    assert_eq!(rt; sink.written(), b"abcab".as_slice());
    Ok(())
}

//! Sources and sinks that fail, that take and give little, and that are readers and writers.

ghost use Rattle.std.specs.Prelude.{◌<◌};

use super::{FIRST, FIRST_LINE, reply, source_of, status};
use py_base::{MemSink, MemSource, Sink};
use std::alloc::{AllocError, Global};
use std::test::Fail;
use std_edge::{StdSink, StdSource};

// The first request, of which the read with this number fails.
fn failing_source(alloc: Global, call: u64, most: usize) -> Result<MemSource, AllocError>
    requires { 0 < most }
{
    let bytes = FIRST.as_bytes().to_vec(alloc)?;
    Ok(MemSource::new(bytes, vec![in alloc; call]?, most))
}

// The status of the first request over this sink, and the sink.
fn written(alloc: Global, mut sink: MemSink) -> Result<(u8, MemSink), AllocError> {
    let mut source = source_of(alloc, FIRST.as_bytes())?;
    let status = status(alloc, &["sub"], &mut source, &mut sink);
    Ok((status, sink))
}

#[test]
fn third_read_fails(rt: HostRuntime) -> Result<(), Fail> {
    let (status, sink) = reply(rt.alloc(), failing_source(rt.alloc(), 3, 8)?)?;
    assert_eq!(rt; (status, sink.written()), (4, b"".as_slice()));
    Ok(())
}

// One byte at a time: as many reads as there are bytes, and one that finds the end.
#[test]
fn each_read_fails(rt: HostRuntime) -> Result<(), Fail> {
    let reads = FIRST.len() as u64 + 1;
    for call in 1..=reads + 1 {
        let (status, sink) = reply(rt.alloc(), failing_source(rt.alloc(), call, 1)?)?;
        let wanted = if call <= reads {
            (4, b"".as_slice())
        } else {
            (0, FIRST_LINE)
        };
        assert_eq!(rt; (status, sink.written()), wanted, "read {call}");
    }
    Ok(())
}

#[test]
fn second_write_fails(rt: HostRuntime) -> Result<(), Fail> {
    let sink = MemSink::new(rt.alloc(), 64, vec![in rt.alloc(); 2]?, 4)?;
    let (status, sink) = written(rt.alloc(), sink)?;
    assert_eq!(rt; (status, sink.written()), (5, b"t626".as_slice()));
    Ok(())
}

fn failing_sink(alloc: Global, call: u64) -> Result<MemSink, AllocError> {
    MemSink::new(alloc, 64, vec![in alloc; call]?, 1)
}

// One byte at a time: what was written before the write that fails.
#[test]
fn each_write_fails(rt: HostRuntime) -> Result<(), Fail> {
    for taken in 0..=FIRST_LINE.len() {
        let sink = failing_sink(rt.alloc(), taken as u64 + 1)?;
        let (status, sink) = written(rt.alloc(), sink)?;
        let wanted = if taken < FIRST_LINE.len() { 5 } else { 0 };
        assert_eq!(rt; (status, sink.written()), (wanted, &FIRST_LINE[..taken]));
    }
    Ok(())
}

#[test]
fn room_for_three(rt: HostRuntime) -> Result<(), Fail> {
    let sink = MemSink::new(rt.alloc(), 3, Vec::new(rt.alloc()), 64)?;
    let (status, sink) = written(rt.alloc(), sink)?;
    assert_eq!(rt; (status, sink.written()), (5, b"t62".as_slice()));
    Ok(())
}

#[test]
fn readers_and_writers(rt: HostRuntime) {
    let mut held = Vec::new(rt.alloc());
    let mut source = StdSource::new(FIRST.as_bytes());
    let mut sink = StdSink::new(&mut held);
    let status = status(rt.alloc(), &["sub"], &mut source, &mut sink);
    assert_eq!(rt; (status, held.as_slice()), (0, FIRST_LINE));
}

#[test]
fn full_writer(rt: HostRuntime) {
    let mut held = [0u8; 3];
    let mut source = StdSource::new(FIRST.as_bytes());
    let mut sink = StdSink::new(held.as_mut_slice());
    let status = status(rt.alloc(), &["sub"], &mut source, &mut sink);
    assert_eq!(rt; (status, held), (5, *b"t62"));
}

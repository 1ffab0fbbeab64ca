//! The program over streams in memory, from the request's bytes to the answer's.

mod kinds;
mod no_request;
mod requests;
mod streams;

ghost use Rattle.std.specs.Prelude.{◌≡◌, ◌<◌};

use py_base::{MemSink, MemSource, Sink, Source, Steps};
use sre_commands::run;
use std::alloc::{AllocError, Global};
use std::marker::Brand;
use std::sync::ledger::{Blank, Ledger};

const FIRST: &str = "pattern t61\ncode 16 97 1\ngroups 0\nlimit 2\nlist t62\nsubject t616161\n";

const FIRST_LINE: &[u8] = b"t626261 2\n";

// The status of a run over a new counter of steps.
fn counted<S: Source, K: Sink, L: Ledger>(
    alloc: Global,
    words: &[String],
    source: &mut S,
    sink: &mut K,
    blank: Blank,
) -> u8
    requires name { blank.name ≡ L.name }
    requires parts { blank.parts ≡ L.parts }
    requires some { 0 < L.parts }
{
    let mut steps = Steps::<L>::new(blank);
    run(alloc, words, source, sink, &mut steps)
}

fn owned(alloc: Global, words: &[&str]) -> Result<Vec<String>, AllocError> {
    let mut all = Vec::new(alloc);
    for word in words {
        all.push(String::from_str(alloc, word)?)?;
    }
    Ok(all)
}

// The status of a run on these arguments.
fn status<S: Source, K: Sink>(alloc: Global, words: &[&str], source: &mut S, sink: &mut K) -> u8 {
    match owned(alloc, words) {
        Ok(words) => counted::<_, _, Brand>(alloc, &words, source, sink, Blank::new(1)),
        Err(_) => 6,
    }
}

fn source_of(alloc: Global, bytes: &[u8]) -> Result<MemSource, AllocError> {
    Ok(MemSource::new(bytes.to_vec(alloc)?, Vec::new(alloc), 7))
}

fn sink_of(alloc: Global) -> Result<MemSink, AllocError> {
    MemSink::new(alloc, 64, Vec::new(alloc), 3)
}

// The status of `sub` over this source, and the sink that its answer went to.
fn reply(alloc: Global, mut source: MemSource) -> Result<(u8, MemSink), AllocError> {
    let mut sink = sink_of(alloc)?;
    let status = status(alloc, &["sub"], &mut source, &mut sink);
    Ok((status, sink))
}

// Whether `sub` answers these bytes with this status and this line.
fn is_answered(alloc: Global, request: &[u8], wanted: u8, line: &[u8]) -> bool {
    match source_of(alloc, request).and_then(|source| reply(alloc, source)) {
        Ok((status, sink)) => status == wanted && sink.written() == line,
        Err(_) => false,
    }
}

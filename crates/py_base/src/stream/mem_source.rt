//! Sources in memory. One of them can be told to fail.

ghost use Rattle.std.specs.Prelude.{◌≡◌, ◌<◌, ◌≤◌, length, take, min, Some};
ghost use Rattle.std.specs.Result.{result_ok};
ghost use Rattle.std.specs.Io.{ReadsAtMost};
ghost use Rattle.std.specs.Io.KnownBytes.{ReadConsumes};
ghost use Rattle.py_base.specs.Stream.Faults.{HasCause};
ghost use Rattle.py_base.specs.Stream.Memory.{new_store, read_answer, after_read};

use crate::stream::source::{Failed, Source};
use std::marker::Model;

/// Bytes in memory. The calls of `read` are numbered from 1, and those with the numbers in `fails`
/// fail and take nothing.
#[derive(Drop)]
pub struct MemSource {
    bytes: Vec<u8>,
    at: usize,
    fails: Vec<u64>,
    most: usize,
    calls: u64,
    faults: u64,
}

impl Model for MemSource {
    ghost use Rattle.std.specs.Prelude.{◌<◌, ◌≤◌, drop, vec_len};
    ghost use Rattle.py_base.specs.Stream.Memory.{Store, store_of};

    ghost Value = { Store };

    ghost view = { λ s. store_of (drop s.at s.bytes.items) s.fails.items s.most s.calls s.faults };

    ghost invariant = { λ s. (0 < s.most) × (s.at ≤ vec_len s.bytes) };
}

// Copies a prefix of `rest` to the start of `into`, at most `most` bytes, and says how many.
fn fill(into: &mut [u8], rest: &[u8], most: usize) -> usize
    ensures count { result ≡ min (min (length rest.now) (length into.new)) most }
    ensures bytes { take result into.new ≡ take result rest.now }
{
    let count = rest.len().min(into.len()).min(most);
    into[..count].copy_from_slice(&rest[..count]);
    count
}

impl MemSource {
    /// A source of these bytes, which gives at most `most` of them in one call.
    pub fn new(bytes: Vec<u8>, fails: Vec<u64>, most: usize) -> MemSource
        requires { 0 < most }
        ensures { result ≡ new_store bytes.items fails.items most }
    {
        MemSource {
            bytes,
            at: 0,
            fails,
            most,
            calls: 0,
            faults: 0,
        }
    }
}

impl Source for MemSource {
    ghost left = { λ s. Some s.bytes };

    ghost faults = { λ s. s.faults };

    fn read(&mut self, into: &mut [u8]) -> Result<usize, Failed>
        ensures bound { ReadsAtMost result into.new }
        ensures bytes { ReadConsumes (Some self.old.bytes) (Some self.new.bytes) result into.new }
        ensures cause { HasCause self.old.faults self.new.faults result }
        ensures exact { result_ok result ≡ read_answer self.old (length into.old) }
        ensures after { self.new ≡ after_read self.old (length into.old) }
    {
        self.calls = self.calls.saturating_add(1);
        if self.calls < u64::MAX && self.fails.contains(&self.calls) {
            self.faults = self.faults.saturating_add(1);
            return Err(Failed);
        }
        let count = fill(into, &self.bytes[self.at..], self.most);
        self.at += count;
        Ok(count)
    }
}

/// Bytes in memory, of a source that never fails.
#[derive(Drop)]
pub struct TrueSource {
    bytes: Vec<u8>,
    at: usize,
}

impl Model for TrueSource {
    ghost use Rattle.std.specs.Prelude.{◌≤◌, ℕ, List, drop, vec_len};

    ghost Value = { List ℕ };

    ghost view = { λ s. drop s.at s.bytes.items };

    ghost invariant = { λ s. s.at ≤ vec_len s.bytes };
}

impl TrueSource {
    /// A source of these bytes.
    pub fn new(bytes: Vec<u8>) -> TrueSource
        ensures { result ≡ bytes.items }
    {
        TrueSource { bytes, at: 0 }
    }
}

impl Source for TrueSource {
    ghost left = { λ s. Some s };

    ghost faults = { λ _. 0 };

    fn read(&mut self, into: &mut [u8]) -> Result<usize, Failed>
        ensures bound { ReadsAtMost result into.new }
        ensures bytes { ReadConsumes (Some self.old) (Some self.new) result into.new }
        ensures cause { HasCause 0 0 result }
        ensures exact { result_ok result ≡ Some (min (length self.old) (length into.old)) }
    {
        let count = fill(into, &self.bytes[self.at..], usize::MAX);
        self.at += count;
        Ok(count)
    }
}

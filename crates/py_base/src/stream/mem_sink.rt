//! A sink in memory, which can be told to fail.

ghost use Rattle.std.specs.Prelude.{◌≡◌, ◌<◌, length, Some, IfOk};
ghost use Rattle.std.specs.Result.{result_ok};
ghost use Rattle.std.specs.Io.{WritesAtMost};
ghost use Rattle.std.specs.Io.KnownBytes.{WriteAppends};
ghost use Rattle.py_base.specs.Stream.Faults.{HasCause, RoseIfStuck};
ghost use Rattle.py_base.specs.Stream.Memory.{new_room, write_answer, after_write};

use crate::stream::sink::Sink;
use crate::stream::source::Failed;
use std::alloc::{AllocError, Global};
use std::marker::Model;

/// A sink in memory with a room that is taken when it is made. The calls of `write` are numbered
/// from 1, and those with the numbers in `fails` fail and take nothing.
#[derive(Drop)]
pub struct MemSink {
    bytes: Vec<u8>,
    room: usize,
    fails: Vec<u64>,
    most: usize,
    calls: u64,
    faults: u64,
}

impl Model for MemSink {
    ghost use Rattle.std.specs.Prelude.{◌<◌, ◌≤◌, vec_len, vec_capacity};
    ghost use Rattle.py_base.specs.Stream.Memory.{Room, room_of};

    ghost Value = { Room };

    ghost view = { λ s. room_of s.bytes.items s.room s.fails.items s.most s.calls s.faults };

    ghost invariant = { λ s. (0 < s.most) × (vec_len s.bytes ≤ s.room)
        × (s.room ≤ vec_capacity s.bytes) };
}

impl MemSink {
    /// A sink with room for so many bytes, which takes at most `most` bytes in one call.
    ///
    /// # Errors
    ///
    /// Where there is no memory for the room.
    pub fn new(
        alloc: Global,
        room: usize,
        fails: Vec<u64>,
        most: usize,
    ) -> Result<MemSink, AllocError>
        requires { 0 < most }
        ensures { IfOk result (λ sink. sink ≡ new_room room fails.items most) }
    {
        let bytes = Vec::with_capacity(alloc, room)?;
        Ok(MemSink {
            bytes,
            room,
            fails,
            most,
            calls: 0,
            faults: 0,
        })
    }

    /// The bytes that it holds.
    pub fn written(&self) -> &[u8]
        ensures { result.now ≡ self.now.held }
    {
        &self.bytes
    }
}

impl Sink for MemSink {
    ghost contents = { λ s. Some s.held };

    ghost faults = { λ s. s.faults };

    fn write(&mut self, piece: &[u8]) -> Result<usize, Failed>
        ensures bound { WritesAtMost result piece.now }
        ensures bytes { WriteAppends (Some self.old.held) (Some self.new.held) result piece.now }
        ensures cause { HasCause self.old.faults self.new.faults result }
        ensures stuck { RoseIfStuck self.old.faults self.new.faults result piece.now }
        ensures exact { result_ok result ≡ write_answer self.old (length piece.now) }
        ensures after { self.new ≡ after_write self.old piece.now }
    {
        self.calls = self.calls.saturating_add(1);
        if self.calls < u64::MAX && self.fails.contains(&self.calls) {
            self.faults = self.faults.saturating_add(1);
            return Err(Failed);
        }
        let count = piece.len().min(self.most).min(self.room - self.bytes.len());
        if count == 0 && !piece.is_empty() {
            self.faults = self.faults.saturating_add(1);
        }
        if self.bytes.extend_from_slice(&piece[..count]).is_err() {
            unreachable!()
        }
        Ok(count)
    }
}

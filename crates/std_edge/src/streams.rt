//! A reader as a source, and a writer as a sink, both of which count their faults.

ghost use Rattle.std.specs.Prelude.{◌≡◌, ◌<◌, length, Ok};
ghost use Rattle.std.specs.Io.{ReadsAtMost, WritesAtMost};
ghost use Rattle.std.specs.Io.KnownBytes.{ReadConsumes, WriteAppends};
ghost use Rattle.py_base.specs.Stream.Faults.{Rose, HasCause};
ghost use Rattle.std_edge.specs.Streams.{faults_after_read, faults_after_write};

use py_base::{Failed, Sink, Source};
use std::io::{Read, Write};
use std::marker::Model;

/// A reader that counts its errors.
#[derive(Drop)]
pub struct StdSource<R: Read + Drop> {
    inner: R,
    faults: u64,
}

impl<R: Read + Drop> Model for StdSource<R> {
    ghost use Rattle.std_edge.specs.Streams.{Stream};

    ghost Value = { Stream };

    ghost view = { λ s. record { bytes = R.remaining s.inner; faults = s.faults } };
}

impl<R: Read + Drop> StdSource<R> {
    /// A source of what the reader gives.
    pub fn new(inner: R) -> StdSource<R>
        ensures { result ≡ record { bytes = R.remaining inner; faults = 0 } }
    {
        StdSource { inner, faults: 0 }
    }
}

impl<R: Read + Drop> Source for StdSource<R> {
    ghost left = { λ s. s.bytes };

    ghost faults = { λ s. s.faults };

    fn read(&mut self, into: &mut [u8]) -> Result<usize, Failed>
        ensures bound { ReadsAtMost result into.new }
        ensures bytes { ReadConsumes self.old.bytes self.new.bytes result into.new }
        ensures cause { HasCause self.old.faults self.new.faults result }
        ensures counted { self.new.faults ≡ faults_after_read self.old.faults result }
    {
        match self.inner.read(into) {
            Ok(count) => Ok(count),
            Err(_) => {
                self.faults = self.faults.saturating_add(1);
                Err(Failed)
            }
        }
    }
}

/// A writer that counts its errors, and the writes that took nothing.
#[derive(Drop)]
pub struct StdSink<W: Write + Drop> {
    inner: W,
    faults: u64,
}

impl<W: Write + Drop> Model for StdSink<W> {
    ghost use Rattle.std_edge.specs.Streams.{Stream};

    ghost Value = { Stream };

    ghost view = { λ s. record { bytes = W.contents s.inner; faults = s.faults } };
}

impl<W: Write + Drop> StdSink<W> {
    /// A sink that the writer takes the bytes of.
    pub fn new(inner: W) -> StdSink<W>
        ensures { result ≡ record { bytes = W.contents inner; faults = 0 } }
    {
        StdSink { inner, faults: 0 }
    }
}

impl<W: Write + Drop> Sink for StdSink<W> {
    ghost contents = { λ s. s.bytes };

    ghost faults = { λ s. s.faults };

    fn write(&mut self, piece: &[u8]) -> Result<usize, Failed>
        ensures bound { WritesAtMost result piece.now }
        ensures bytes { WriteAppends self.old.bytes self.new.bytes result piece.now }
        ensures cause { HasCause self.old.faults self.new.faults result }
        ensures stuck { result ≡ Ok 0 → 0 < length piece.now
            → Rose self.old.faults self.new.faults }
        ensures counted { self.new.faults ≡ faults_after_write self.old.faults piece.now result }
    {
        match self.inner.write(piece) {
            Ok(count) => {
                if count == 0 && !piece.is_empty() {
                    self.faults = self.faults.saturating_add(1);
                }
                Ok(count)
            }
            Err(_) => {
                self.faults = self.faults.saturating_add(1);
                Err(Failed)
            }
        }
    }
}

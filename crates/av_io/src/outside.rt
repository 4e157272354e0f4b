// The edge: any reader and writer of std.
ghost use Rattle.std.specs.Prelude.{◌≡◌, None, ◌<◌, ◌≤◌, length, IfOk, IfErr, OnOk, OnErr};
ghost use Rattle.std.specs.Io.{ReadsAtMost, WritesAtMost};
ghost use Rattle.std.specs.Io.KnownBytes.{ReadConsumes, WriteAppends};
ghost use Rattle.av_io.specs.Causes.{HasCause, HasSinkCause, one_more};

use crate::{Failed, Sink, SinkFault, Source};
use std::io;
use std::io::{Read, Write};
use std::marker::Model;

/// A source over a reader, seen as its count of faults. It tells nothing of bytes.
#[derive(Drop)]
pub struct StdSource<R> {
    reader: R,
    faults: u64,
}

impl<R> Model for StdSource<R> {
    ghost use Rattle.std.specs.Prelude.{ℕ};

    ghost Value = { ℕ };

    ghost view = { λ s. s.faults };
}

impl<R: Read> StdSource<R> {
    /// A source over this reader, with no fault yet.
    pub fn new(reader: R) -> StdSource<R>
        ensures { result ≡ 0 }
    {
        StdSource { reader, faults: 0 }
    }
}

impl<R: Read> Source for StdSource<R> {
    ghost left = { λ _. None };

    ghost faults = { λ s. s };

    /// Reads once. An error of the reader counts one fault, in a count that stays at 2^64 - 1.
    fn read(&mut self, buf: &mut [u8]) -> Result<usize, Failed>
        ensures bound { ReadsAtMost result buf.new }
        ensures bytes { ReadConsumes None None result buf.new }
        ensures cause { HasCause self.old self.new result }

        ensures given { OnOk result (self.new ≡ self.old) }
        ensures failed { OnErr result (self.new ≡ one_more self.old) }
    {
        match self.reader.read(buf) {
            Ok(count) => Ok(count),
            Err(_) => {
                self.faults = self.faults.saturating_add(1);
                Err(Failed)
            }
        }
    }
}

/// A sink over a writer, seen as its count of faults. It tells nothing of bytes.
#[derive(Drop)]
pub struct StdSink<W> {
    writer: W,
    faults: u64,
}

impl<W> Model for StdSink<W> {
    ghost use Rattle.std.specs.Prelude.{ℕ};

    ghost Value = { ℕ };

    ghost view = { λ s. s.faults };
}

impl<W: Write> StdSink<W> {
    /// A sink over this writer, with no fault yet.
    pub fn new(writer: W) -> StdSink<W>
        ensures { result ≡ 0 }
    {
        StdSink { writer, faults: 0 }
    }
}

/// Writes once, and then flushes.
fn write_through<W: Write>(writer: &mut W, piece: &[u8]) -> Result<usize, io::Error>
    ensures { WritesAtMost result piece.now }
{
    let count = writer.write(piece)?;
    writer.flush()?;
    Ok(count)
}

impl<W: Write> Sink for StdSink<W> {
    ghost held = { λ _. None };

    ghost faults = { λ s. s };

    ghost wants = { λ _. 0 };

    /// Writes once, and then flushes. An error of either, or a write that took no byte, counts one fault, in a count
    /// that stays at 2^64 - 1. It never answers `Memory`.
    fn write(&mut self, piece: &[u8]) -> Result<usize, SinkFault>
        ensures some { IfOk result (λ n. 0 < n) }
        ensures bound { IfOk result (λ n. n ≤ length piece.now) }
        ensures bytes { WriteAppends None None result piece.now }
        ensures cause { HasSinkCause self.old self.new 0 0 result }

        ensures never { IfErr result (λ fault. fault ≡ SinkFault.Failed) }
        ensures taken { OnOk result (self.new ≡ self.old) }
        ensures failed { OnErr result (self.new ≡ one_more self.old) }
    {
        match write_through(&mut self.writer, piece) {
            Ok(count) if count > 0 => Ok(count),
            _ => {
                self.faults = self.faults.saturating_add(1);
                Err(SinkFault::Failed)
            }
        }
    }
}

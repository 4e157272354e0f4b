// A source and a sink in memory that never fail.
ghost use Rattle.std.specs.Prelude.{◌≡◌, ◌≤◌, ◌<◌, ◌++◌, [], Some, min, take, drop, length, vec_len, IsOk, IfOk, IfErr, OnOk, OnErr, IsErrOf};
ghost use Rattle.std.specs.Io.{ReadsAtMost};
ghost use Rattle.std.specs.Io.KnownBytes.{ReadConsumes, WriteAppends, Appends};
ghost use Rattle.av_io.specs.Causes.{HasCause, HasSinkCause, Rose, one_more};
ghost use Rattle.av_io.specs.Passed.{PassesOn};

use crate::give::give;
use crate::passing::{LARGE_PIECE, drop_front, write_from};
use crate::{Failed, Sink, SinkFault, Source};
use std::alloc::Global;
use std::marker::Model;

/// A source in memory that never fails, seen as the bytes that it has left. Its count of faults is always 0.
#[derive(Drop)]
pub struct SureSource {
    bytes: Vec<u8>,
    at: usize,
}

impl Model for SureSource {
    ghost use Rattle.std.specs.Prelude.{ℕ, ◌≤◌, List, drop, vec_len};

    ghost Value = { List ℕ };

    ghost view = { λ s. drop s.at s.bytes.items };

    ghost invariant = { λ s. s.at ≤ vec_len s.bytes };
}

impl SureSource {
    /// A source with these bytes left. It takes no memory.
    pub fn new(bytes: Vec<u8>) -> SureSource
        ensures { result ≡ bytes.items }
    {
        SureSource { bytes, at: 0 }
    }
}

impl Source for SureSource {
    ghost left = { λ s. Some s };

    ghost faults = { λ _. 0 };

    /// Gives as many bytes as are left and `buf` has room for. It never fails.
    fn read(&mut self, buf: &mut [u8]) -> Result<usize, Failed>
        ensures bound { ReadsAtMost result buf.new }
        ensures bytes { ReadConsumes (Some self.old) (Some self.new) result buf.new }
        ensures cause { HasCause 0 0 result }

        ensures sure { IsOk result }
        ensures count { IfOk result (λ n. n ≡ min (length self.old) (length buf.old)) }
        ensures given { IfOk result (λ n. self.new ≡ drop n self.old) }
    {
        let count = give(&self.bytes[self.at..], buf, usize::MAX);
        self.at += count;
        Ok(count)
    }
}

/// A sink in memory that fails only for want of memory. Contracts see the bytes that it holds and its wants of memory;
/// its count of faults is always 0.
#[derive(Drop)]
pub struct SureSink {
    bytes: Vec<u8>,
    wants: u64,
}

impl Model for SureSink {
    ghost use Rattle.av_io.specs.Mem.{SureSinkState};

    ghost Value = { SureSinkState };

    ghost view = { λ s. record { held = s.bytes.items; wants = s.wants } };
}

impl SureSink {
    /// A sink that holds nothing. It takes no memory: the sink grows at its writes.
    pub fn new(alloc: Global) -> SureSink
        ensures { result ≡ record { held = []; wants = 0 } }
    {
        SureSink {
            bytes: Vec::new(alloc),
            wants: 0,
        }
    }

    /// The bytes that it holds.
    pub fn bytes(&self) -> &[u8]
        ensures { result.now ≡ self.now.held }
    {
        &self.bytes
    }

    /// Writes what it holds on to another sink, and then holds nothing. On an error the other sink took bytes from the
    /// front of it, and the others are still held.
    pub fn pass_on<K: Sink>(&mut self, sink: &mut K) -> Result<(), SinkFault>
        ensures passed { PassesOn (K.held sink.old) (K.held sink.new) self.old.held self.new.held }
        ensures whole { OnOk result (Appends (K.held sink.old) (K.held sink.new) self.old.held) }
        ensures emptied { OnOk result (self.new.held ≡ []) }
        ensures wants { self.new.wants ≡ self.old.wants }
        ensures later { K.faults sink.old ≤ K.faults sink.new }
        ensures wants_later { K.wants sink.old ≤ K.wants sink.new }
        ensures failed { IsErrOf result SinkFault.Failed → Rose (K.faults sink.old) (K.faults sink.new) }
        ensures memory { IsErrOf result SinkFault.Memory → Rose (K.wants sink.old) (K.wants sink.new) }
        ensures no_write { self.old.held ≡ [] → sink.new ≡ sink.old }
        ensures empty { self.old.held ≡ [] → IsOk result }
    {
        let mut count = 0;
        let result = write_from(&self.bytes, &mut count, sink);
        drop_front(&mut self.bytes, count);
        result
    }

    /// Writes what it holds on to another sink where that is at least `LARGE_PIECE` bytes. Bytes that are passed on only so
    /// reach the other sink in pieces of that length, where it takes them whole.
    pub fn pass_on_large<K: Sink>(&mut self, sink: &mut K) -> Result<(), SinkFault>
        ensures passed { PassesOn (K.held sink.old) (K.held sink.new) self.old.held self.new.held }
        ensures small { OnOk result (length self.new.held < LARGE_PIECE) }
        ensures wants { self.new.wants ≡ self.old.wants }
        ensures later { K.faults sink.old ≤ K.faults sink.new }
        ensures wants_later { K.wants sink.old ≤ K.wants sink.new }
        ensures failed { IsErrOf result SinkFault.Failed → Rose (K.faults sink.old) (K.faults sink.new) }
        ensures memory { IsErrOf result SinkFault.Memory → Rose (K.wants sink.old) (K.wants sink.new) }
        ensures waits { length self.old.held < LARGE_PIECE → sink.new ≡ sink.old }
        ensures empty { length self.old.held < LARGE_PIECE → IsOk result }
    {
        if self.bytes.len() < LARGE_PIECE {
            return Ok(());
        }
        self.pass_on(sink)
    }
}

impl Sink for SureSink {
    ghost held = { λ s. Some s.held };

    ghost faults = { λ _. 0 };

    ghost wants = { λ s. s.wants };

    /// Takes the whole piece, or answers `Memory`.
    fn write(&mut self, piece: &[u8]) -> Result<usize, SinkFault>
        requires { 0 < length piece.now }
        ensures some { IfOk result (λ n. 0 < n) }
        ensures bound { IfOk result (λ n. n ≤ length piece.now) }
        ensures bytes { WriteAppends (Some self.old.held) (Some self.new.held) result piece.now }
        ensures cause { HasSinkCause 0 0 self.old.wants self.new.wants result }

        ensures sure { IfErr result (λ fault. fault ≡ SinkFault.Memory) }
        ensures count { IfOk result (λ n. n ≡ length piece.now) }
        ensures taken { OnOk result (self.new ≡ record self.old { held = self.old.held ++ piece.now }) }
        ensures memory { OnErr result (self.new ≡ record self.old { wants = one_more self.old.wants }) }
    {
        match self.bytes.extend_from_slice(piece) {
            Ok(()) => Ok(piece.len()),
            Err(_) => {
                self.wants = self.wants.saturating_add(1);
                Err(SinkFault::Memory)
            }
        }
    }
}

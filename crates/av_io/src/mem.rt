// A source and a sink in memory that fail at the calls that a list names.
ghost use Rattle.std.specs.Prelude.{◌≡◌, ◌≤◌, ◌<◌, ◌↔◌, ◌++◌, [], Some, min, take, drop, length, IsTrue, IsErr, IfOk, OnErr, IsErrOf};
ghost use Rattle.std.specs.Io.{ReadsAtMost};
ghost use Rattle.std.specs.Io.KnownBytes.{ReadConsumes, WriteAppends};
ghost use Rattle.av_io.specs.Causes.{HasCause, HasSinkCause, one_more};
ghost use Rattle.av_io.specs.Calls.{fails_next, faults_in};

use crate::calls::count_call;
use crate::give::give;
use crate::{Failed, Sink, SinkFault, Source};
use std::alloc::Global;
use std::marker::Model;

/// A source in memory, which gives a bounded number of bytes a call and fails at named calls.
///
/// Contracts see the bytes left, the most bytes that a call gives, the numbers of the calls that fail, and how many
/// calls were made. Its faults are the calls made that were to fail.
#[derive(Drop)]
pub struct MemSource {
    bytes: Vec<u8>,
    at: usize,
    give: usize,
    fails: Vec<u64>,
    calls: u64,
}

impl Model for MemSource {
    ghost use Rattle.std.specs.Prelude.{◌≤◌, ◌<◌, drop, vec_len};
    ghost use Rattle.av_io.specs.Mem.{MemSourceState};

    ghost Value = { MemSourceState };

    ghost view = { λ s. record {
      left = drop s.at s.bytes.items;
      give = s.give;
      fails = s.fails.items;
      calls = s.calls;
    } };

    ghost invariant = { λ s. (s.at ≤ vec_len s.bytes) × (0 < s.give) };
}

impl MemSource {
    /// A source with these bytes left, which gives at most `give` of them a call, at least 1. Call number c, counted
    /// from 1, fails exactly where c is in `fails`. It takes no memory.
    pub fn new(bytes: Vec<u8>, give: usize, fails: Vec<u64>) -> MemSource
        requires { 0 < give }
        ensures { result ≡ record { left = bytes.items; give = give; fails = fails.items; calls = 0 } }
    {
        MemSource {
            bytes,
            at: 0,
            give,
            fails,
            calls: 0,
        }
    }
}

impl Source for MemSource {
    ghost left = { λ s. Some s.left };

    ghost faults = { λ s. faults_in s.fails s.calls };

    /// Gives as many bytes as are left and `buf` has room for, and at most as many as a call may. `Failed` comes
    /// exactly where the number of this call is among those that fail; at 2^64 - 1 the number of calls stays, and no
    /// later call fails.
    fn read(&mut self, buf: &mut [u8]) -> Result<usize, Failed>
        ensures bound { ReadsAtMost result buf.new }
        ensures bytes { ReadConsumes (Some self.old.left) (Some self.new.left) result buf.new }
        ensures cause { HasCause (faults_in self.old.fails self.old.calls)
            (faults_in self.new.fails self.new.calls) result }

        // Which call fails, how many bytes another one gives, and what is left.
        ensures fails { IsErr result ↔ IsTrue (fails_next self.old.fails self.old.calls) }
        ensures count { IfOk result (λ n.
            n ≡ min (length self.old.left) (min (length buf.old) self.old.give)) }
        ensures given { IfOk result (λ n. self.new
            ≡ record self.old { left = drop n self.old.left; calls = one_more self.old.calls }) }
        ensures failed { OnErr result (self.new ≡ record self.old { calls = one_more self.old.calls }) }
    {
        if count_call(&self.fails, &mut self.calls) {
            return Err(Failed);
        }
        let count = give(&self.bytes[self.at..], buf, self.give);
        self.at += count;
        Ok(count)
    }
}

/// A sink in memory, which takes a bounded number of bytes a call and fails at named calls.
///
/// Contracts see the bytes held, the most bytes that a call takes, the numbers of the calls that fail, how many calls
/// were made, and the wants of memory. Its faults are the calls made that were to fail.
#[derive(Drop)]
pub struct MemSink {
    bytes: Vec<u8>,
    most: usize,
    fails: Vec<u64>,
    calls: u64,
    wants: u64,
}

impl Model for MemSink {
    ghost use Rattle.std.specs.Prelude.{◌<◌};
    ghost use Rattle.av_io.specs.Mem.{MemSinkState};

    ghost Value = { MemSinkState };

    ghost view = { λ s. record {
      held = s.bytes.items;
      take = s.most;
      fails = s.fails.items;
      calls = s.calls;
      wants = s.wants;
    } };

    ghost invariant = { λ s. 0 < s.most };
}

impl MemSink {
    /// A sink that holds nothing and takes at most `take` bytes a call, at least 1. Call number c, counted from 1,
    /// fails exactly where c is in `fails`. It takes no memory: the sink grows at its writes.
    pub fn new(alloc: Global, take: usize, fails: Vec<u64>) -> MemSink
        requires { 0 < take }
        ensures { result
            ≡ record { held = []; take = take; fails = fails.items; calls = 0; wants = 0 } }
    {
        MemSink {
            bytes: Vec::new(alloc),
            most: take,
            fails,
            calls: 0,
            wants: 0,
        }
    }

    /// The bytes that it holds.
    pub fn bytes(&self) -> &[u8]
        ensures { result.now ≡ self.now.held }
    {
        &self.bytes
    }
}

impl Sink for MemSink {
    ghost held = { λ s. Some s.held };

    ghost faults = { λ s. faults_in s.fails s.calls };

    ghost wants = { λ s. s.wants };

    /// Takes as many bytes of the piece as a call may. `Failed` comes exactly where the number of this call is among
    /// those that fail; at 2^64 - 1 the number of calls stays, and no later call fails. A call that answers `Memory`
    /// has a number too.
    fn write(&mut self, piece: &[u8]) -> Result<usize, SinkFault>
        requires { 0 < length piece.now }
        ensures some { IfOk result (λ n. 0 < n) }
        ensures bound { IfOk result (λ n. n ≤ length piece.now) }
        ensures bytes { WriteAppends (Some self.old.held) (Some self.new.held) result piece.now }
        ensures cause { HasSinkCause (faults_in self.old.fails self.old.calls)
            (faults_in self.new.fails self.new.calls) self.old.wants self.new.wants result }

        // Which call fails, how many bytes another one takes, and what the sink is then.
        ensures fails { IsErrOf result SinkFault.Failed
            ↔ IsTrue (fails_next self.old.fails self.old.calls) }
        ensures count { IfOk result (λ n. n ≡ min (length piece.now) self.old.take) }
        ensures taken { IfOk result (λ n. self.new
            ≡ record self.old { held = self.old.held ++ take n piece.now; calls = one_more self.old.calls }) }
        ensures failed { IsErrOf result SinkFault.Failed
            → self.new ≡ record self.old { calls = one_more self.old.calls } }
        ensures memory { IsErrOf result SinkFault.Memory → self.new
            ≡ record self.old { calls = one_more self.old.calls; wants = one_more self.old.wants } }
    {
        if count_call(&self.fails, &mut self.calls) {
            return Err(SinkFault::Failed);
        }
        let count = piece.len().min(self.most);
        match self.bytes.extend_from_slice(&piece[..count]) {
            Ok(()) => Ok(count),
            Err(_) => {
                self.wants = self.wants.saturating_add(1);
                Err(SinkFault::Memory)
            }
        }
    }
}

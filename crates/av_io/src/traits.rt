// The two traits.
ghost use Rattle.std.specs.Prelude.{◌≡◌, ℕ, ◌<◌, ◌≤◌, List, Option, length, IfOk};
ghost use Rattle.std.specs.Io.{ReadsAtMost};
ghost use Rattle.std.specs.Io.KnownBytes.{ReadConsumes, WriteAppends};
ghost use Rattle.av_io.specs.Causes.{HasCause, HasSinkCause};

/// A source failed.
#[derive(Clone, Copy, Debug, PartialEq, Eq)]
pub struct Failed;

/// Why a sink took nothing.
#[derive(Clone, Copy, Debug, PartialEq, Eq)]
pub enum SinkFault {
    /// The sink failed.
    Failed,
    /// Memory is wanting.
    Memory,
}

/// Bytes that can be read.
///
/// Contracts see a source as the bytes that it has left, where it tells them, and a count of faults that never falls.
pub trait Source {
    ghost left: { Self → Option (List ℕ) };

    ghost faults: { Self → ℕ };

    /// Reads into the front of `buf`, which is not empty, and answers how many bytes: 0 only at the end of the input.
    ///
    /// The bytes that were read are no longer left. `Failed` comes only where the count of faults rose in this call, or
    /// stands at 2^64 - 1; the bytes left are then as before, and `buf` may hold any.
    fn read(&mut self, buf: &mut [u8]) -> Result<usize, Failed>
        requires { 0 < length buf.old }
        ensures bound { ReadsAtMost result buf.new }
        ensures bytes { ReadConsumes (left self.old) (left self.new) result buf.new }
        ensures cause { HasCause (faults self.old) (faults self.new) result };
}

/// What takes bytes.
///
/// Contracts see a sink as the bytes that it holds, where it tells them, and two counts that never fall: its faults and
/// its wants of memory.
pub trait Sink {
    ghost held: { Self → Option (List ℕ) };

    ghost faults: { Self → ℕ };

    ghost wants: { Self → ℕ };

    /// Takes bytes from the front of `piece`, which is not empty, and answers how many: at least one.
    ///
    /// The bytes held grow by those. `Failed` comes only where the count of faults rose in this call, or stands at
    /// 2^64 - 1; `Memory` is want of memory, and comes only where the count of wants did. The bytes held are then as
    /// before, and after `Memory` the count of faults is too.
    fn write(&mut self, piece: &[u8]) -> Result<usize, SinkFault>
        requires { 0 < length piece.now }
        ensures some { IfOk result (λ n. 0 < n) }
        ensures bound { IfOk result (λ n. n ≤ length piece.now) }
        ensures bytes { WriteAppends (held self.old) (held self.new) result piece.now }
        ensures cause { HasSinkCause (faults self.old) (faults self.new) (wants self.old) (wants self.new) result };
}

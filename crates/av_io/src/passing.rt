// Bytes in memory that go on to a sink in large pieces.
ghost use Rattle.std.specs.Prelude.{◌≡◌, ◌≤◌, ◌<◌, ◌-◌, [], take, drop, length, vec_len, IsOk, OnOk, IsErrOf};
ghost use Rattle.std.specs.Io.KnownBytes.{Appends};
ghost use Rattle.av_io.specs.Causes.{Rose};
ghost use Rattle.av_io.specs.Passed.{PassesOn};

use crate::{Sink, SinkFault};

/// From how many bytes on a piece is large: it is worth a write of its own.
pub const LARGE_PIECE: usize = 8192;

/// Writes the bytes from `passed` on, and moves `passed` past those that were taken.
pub fn write_from<K: Sink>(bytes: &[u8], passed: &mut usize, sink: &mut K) -> Result<(), SinkFault>
    requires start { passed.old ≡ 0 }
    ensures within { passed.new ≤ length bytes.now }
    ensures grows { Appends (K.held sink.old) (K.held sink.new) (take passed.new bytes.now) }
    ensures all { OnOk result (passed.new ≡ length bytes.now) }
    ensures later { K.faults sink.old ≤ K.faults sink.new }
    ensures wants_later { K.wants sink.old ≤ K.wants sink.new }
    ensures failed { IsErrOf result SinkFault.Failed → Rose (K.faults sink.old) (K.faults sink.new) }
    ensures memory { IsErrOf result SinkFault.Memory → Rose (K.wants sink.old) (K.wants sink.new) }
    ensures no_write { bytes.now ≡ [] → sink.new ≡ sink.old }
    ensures empty { bytes.now ≡ [] → IsOk result }
{
    'writes: while *passed < bytes.len() {
        *passed += sink.write(&bytes[*passed..])?;
    }
    Ok(())
}

/// Drops the first `count` bytes.
pub fn drop_front(bytes: &mut Vec<u8>, count: usize)
    requires { count ≤ vec_len bytes.old }
    ensures { bytes.new.items ≡ drop count bytes.old.items }
{
    let len = bytes.len();
    bytes.as_mut_slice().copy_within(count..len, 0);
    bytes.truncate(len - count);
}

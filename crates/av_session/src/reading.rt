// Reading a source to its end.
ghost use Rattle.std.specs.Prelude.{◌≡◌, ◌≤◌, ◌<◌, ◌++◌, List, ℕ, IfOk, OnOk, IsErrOf, length};
ghost use Rattle.std.specs.Io.KnownBytes.{Consumes, IsAtEnd};
ghost use Rattle.av_io.specs.Causes.{Rose};
ghost use Rattle.av_session.specs.Taken.{TakesAll, TakesUpTo};

use av_check::MAX_CLAIM_BYTES;
use av_io::Source;
use av_text::MAX_SCRIPT_BYTES;
use std::alloc::Global;

/// Why the source wasn't read.
#[derive(Clone, Copy, Drop)]
pub enum ReadError {
    Memory,
    Failed,
}

/// The most bytes that are read of a script: one more than the longest has.
pub const MOST_READ: usize = MAX_SCRIPT_BYTES + 1;

/// The most bytes that are read of a claim: one more than the longest has.
pub const MOST_CLAIMED: usize = MAX_CLAIM_BYTES + 1;

/// How many bytes are asked for at once.
const CHUNK: usize = 4096;

/// One read into the front of the buffer. What it gives joins the bytes that were read.
fn read_some<S: Source>(
    source: &mut S,
    buffer: &mut [u8],
    bytes: &mut Vec<u8>,
) -> Result<usize, ReadError>
    requires { 0 < length buffer.old }
    ensures taken { IfOk result (λ n. (part : List ℕ) × (length part ≡ n) × (n ≤ length buffer.old) × (bytes.new.items ≡ bytes.old.items ++ part) × Consumes (S.left source.old) (S.left source.new) part) }
    ensures took { (part : List ℕ) × (length part ≤ length buffer.old) × Consumes (S.left source.old) (S.left source.new) part }
    ensures end { IfOk result (λ n. n ≡ 0 → IsAtEnd (S.left source.new)) }
    ensures later { S.faults source.old ≤ S.faults source.new }
    ensures failed { IsErrOf result ReadError.Failed → Rose (S.faults source.old) (S.faults source.new) }
{
    match source.read(buffer) {
        Ok(count) => match bytes.extend_from_slice(&buffer[..count]) {
            Ok(()) => Ok(count),
            Err(_) => Err(ReadError::Memory),
        },
        Err(_) => Err(ReadError::Failed),
    }
}

/// The bytes of a source up to its end, or the first of them, as many as this, where there are more.
pub fn read_all<S: Source>(alloc: Global, source: &mut S, most: usize) -> Result<Vec<u8>, ReadError>
    ensures taken { IfOk result (λ bytes. TakesAll most (S.left source.old) (S.left source.new) bytes.items) }
    ensures took { TakesUpTo most (S.left source.old) (S.left source.new) }
    ensures later { S.faults source.old ≤ S.faults source.new }
    ensures failed { IsErrOf result ReadError.Failed → Rose (S.faults source.old) (S.faults source.new) }
{
    let mut bytes = Vec::new(alloc);
    let mut buffer = [0u8; CHUNK];
    'reads: while bytes.len() < most {
        let room = (most - bytes.len()).min(CHUNK);
        let count = read_some(source, &mut buffer[..room], &mut bytes)?;
        if count == 0 {
            return Ok(bytes);
        }
    }
    Ok(bytes)
}

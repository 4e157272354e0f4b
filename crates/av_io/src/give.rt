// Bytes from memory into a buffer.
ghost use Rattle.std.specs.Prelude.{◌≡◌, ◌++◌, min, take, drop, length};

/// Puts as many of the bytes as it can into the front of `buf`, and at most `most`.
pub fn give(left: &[u8], buf: &mut [u8], most: usize) -> usize
    ensures count { result ≡ min (length left.now) (min (length buf.old) most) }
    ensures front { left.now ≡ take result buf.new ++ drop result left.now }
{
    let count = left.len().min(buf.len().min(most));
    buf[..count].copy_from_slice(&left[..count]);
    count
}

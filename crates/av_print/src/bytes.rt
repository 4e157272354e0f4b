// Bytes as they are.
ghost use Rattle.std.specs.Prelude.{◌≡◌, ◌≤◌, [], OnOk, IsOk, IsErrOf};
ghost use Rattle.std.specs.Io.KnownBytes.{Appends};
ghost use Rattle.av_io.specs.Causes.{Rose};
ghost use Rattle.av_print.specs.Wrote.{AppendsPart};

use crate::text::Text;
use av_io::{Sink, SinkFault};

/// Writes the whole piece. An empty piece makes no write.
#[tactic(auto, using(crate::proofs::Written::written))]
pub fn put<K: Sink>(sink: &mut K, piece: &[u8]) -> Result<(), SinkFault>
    ensures whole { OnOk result (Appends (K.held sink.old) (K.held sink.new) piece.now) }
    ensures part { AppendsPart (K.held sink.old) (K.held sink.new) piece.now }
    ensures later { K.faults sink.old ≤ K.faults sink.new }
    ensures wants_later { K.wants sink.old ≤ K.wants sink.new }
    ensures failed { IsErrOf result SinkFault.Failed → Rose (K.faults sink.old) (K.faults sink.new) }
    ensures memory { IsErrOf result SinkFault.Memory → Rose (K.wants sink.old) (K.wants sink.new) }
    ensures no_write { piece.now ≡ [] → sink.new ≡ sink.old }
    ensures empty { piece.now ≡ [] → IsOk result }
{
    let mut rest = piece;
    'writes: while !rest.is_empty() {
        let count = sink.write(rest)?;
        rest = rest.split_at(count).1;
    }
    Ok(())
}

/// Bytes, which are their own text.
#[derive(Clone, Copy)]
pub struct Bytes<'a>(pub &'a [u8]);

impl Text for Bytes<'_> {
    ghost text = { λ bytes. bytes.0.now };

    fn put_on<K: Sink>(&self, sink: &mut K) -> Result<(), SinkFault> {
        put(sink, self.0)
    }
}

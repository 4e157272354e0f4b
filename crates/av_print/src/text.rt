// Values that have a text.
ghost use Rattle.std.specs.Prelude.{◌≤◌, OnOk, IsErrOf, ℕ, List};
ghost use Rattle.std.specs.Io.KnownBytes.{Appends};
ghost use Rattle.av_io.specs.Causes.{Rose};
ghost use Rattle.av_print.specs.Wrote.{AppendsPart};

use av_io::{Sink, SinkFault};

/// A value that has a text.
pub trait Text {
    ghost text: { Self → List ℕ };

    /// Writes the text. On `Ok` the bytes held grew by it, where they are told; on an error they grew by a prefix of it.
    /// `Failed` comes only where the sink's count of faults rose or stands at its last value, `Memory` only where its
    /// count of wants did.
    fn put_on<K: Sink>(&self, sink: &mut K) -> Result<(), SinkFault>
        ensures whole { OnOk result (Appends (K.held sink.old) (K.held sink.new) (text self.now)) }
        ensures part { AppendsPart (K.held sink.old) (K.held sink.new) (text self.now) }
        ensures later { K.faults sink.old ≤ K.faults sink.new }
        ensures wants_later { K.wants sink.old ≤ K.wants sink.new }
        ensures failed { IsErrOf result SinkFault.Failed → Rose (K.faults sink.old) (K.faults sink.new) }
        ensures memory { IsErrOf result SinkFault.Memory → Rose (K.wants sink.old) (K.wants sink.new) };
}

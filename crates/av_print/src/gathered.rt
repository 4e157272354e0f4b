// Texts that are gathered in memory before they are written.
ghost use Rattle.std.specs.Prelude.{◌≤◌, OnOk, IsErrOf};
ghost use Rattle.std.specs.Io.KnownBytes.{Appends};
ghost use Rattle.av_io.specs.Causes.{Rose};
ghost use Rattle.av_print.specs.Wrote.{AppendsPart};

use crate::text::Text;
use av_io::{Sink, SinkFault, SureSink};
use std::alloc::Global;

/// Writes the text in one piece, which it gathers in memory first. `Memory` also comes where memory for that is wanting.
#[tactic(auto, using(crate::proofs::Written::written, crate::proofs::WaitingTexts::part_passed))]
pub fn put_gathered<T: Text, K: Sink>(
    alloc: Global,
    sink: &mut K,
    text: &T,
) -> Result<(), SinkFault>
    ensures whole { OnOk result (Appends (K.held sink.old) (K.held sink.new) (T.text text.now)) }
    ensures part { AppendsPart (K.held sink.old) (K.held sink.new) (T.text text.now) }
    ensures later { K.faults sink.old ≤ K.faults sink.new }
    ensures wants_later { K.wants sink.old ≤ K.wants sink.new }
    ensures failed { IsErrOf result SinkFault.Failed → Rose (K.faults sink.old) (K.faults sink.new) }
{
    let mut waiting = SureSink::new(alloc);
    text.put_on(&mut waiting)?;
    waiting.pass_on(sink)
}

// Texts that wait in memory until they make a large piece.
ghost use Rattle.std.specs.Prelude.{◌≤◌, ◌<◌, ◌++◌, length, OnOk, IsErrOf};
ghost use Rattle.av_io.specs.Causes.{Rose};
ghost use Rattle.av_io.specs.Passed.{PassesOn};
ghost use Rattle.av_io.specs.declared.passing.TheConstants.{LARGE_PIECE};
ghost use Rattle.av_print.specs.Wrote.{AppendsPart};

use crate::stop::Stop;
use av_io::{Sink, SureSink};
use av_print::Text;

/// Adds a text to the bytes that wait, and passes them on where they make a large piece: what waits after the call is less
/// than that.
#[tactic(auto, using(av_print::proofs::WaitingTexts::waiting))]
pub fn put_text<K: Sink, T: Text>(
    sink: &mut K,
    waiting: &mut SureSink,
    text: &T,
) -> Result<(), Stop>
    ensures whole { OnOk result (PassesOn (K.held sink.old) (K.held sink.new) (waiting.old.held ++ T.text text.now) waiting.new.held) }
    ensures part { AppendsPart (K.held sink.old) (K.held sink.new) (waiting.old.held ++ T.text text.now) }
    ensures small { OnOk result (length waiting.new.held < LARGE_PIECE) }
    ensures later { K.faults sink.old ≤ K.faults sink.new }
    ensures failed { IsErrOf result Stop.WriteFault → Rose (K.faults sink.old) (K.faults sink.new) }
{
    text.put_on(waiting)?;
    waiting.pass_on_large(sink)?;
    Ok(())
}

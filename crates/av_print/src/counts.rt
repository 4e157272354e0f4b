// Counts.
ghost use Rattle.std.specs.Prelude.{◌≤◌, OnOk, IsErrOf};
ghost use Rattle.std.specs.Io.KnownBytes.{Appends};
ghost use Rattle.av_io.specs.Causes.{Rose};
ghost use Rattle.av_print.specs.Wrote.{AppendsPart};
ghost use Rattle.av_print.specs.Text.{count_text};

use crate::bytes::put;
use crate::numbers::put_number;
use crate::text::Text;
use av_count::Count;
use av_io::{Sink, SinkFault};

/// Writes the count: its numeral, or `over` where it is 2^128 or more.
pub fn put_count<K: Sink>(sink: &mut K, count: Count) -> Result<(), SinkFault>
    ensures whole { OnOk result (Appends (K.held sink.old) (K.held sink.new) (count_text count)) }
    ensures part { AppendsPart (K.held sink.old) (K.held sink.new) (count_text count) }
    ensures later { K.faults sink.old ≤ K.faults sink.new }
    ensures wants_later { K.wants sink.old ≤ K.wants sink.new }
    ensures failed { IsErrOf result SinkFault.Failed → Rose (K.faults sink.old) (K.faults sink.new) }
    ensures memory { IsErrOf result SinkFault.Memory → Rose (K.wants sink.old) (K.wants sink.new) }
{
    match count {
        Count::Known(number) => put_number(sink, number),
        Count::Over => put(sink, b"over"),
    }
}

impl Text for Count {
    ghost use Rattle.av_print.specs.Text.{count_text};

    ghost text = { count_text };

    fn put_on<K: Sink>(&self, sink: &mut K) -> Result<(), SinkFault> {
        put_count(sink, *self)
    }
}

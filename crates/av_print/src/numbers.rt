// Numerals.
ghost use Rattle.std.specs.Prelude.{◌≤◌, OnOk, IsErrOf, decimal};
ghost use Rattle.std.specs.Io.KnownBytes.{Appends};
ghost use Rattle.av_io.specs.Causes.{Rose};
ghost use Rattle.av_print.specs.Wrote.{AppendsPart};

use crate::bytes::put;
use crate::text::Text;
use av_io::{Sink, SinkFault};
use itoa::Buffer;

/// Writes the numeral, without leading zeros.
pub fn put_number<K: Sink>(sink: &mut K, number: u128) -> Result<(), SinkFault>
    ensures whole { OnOk result (Appends (K.held sink.old) (K.held sink.new) (decimal number)) }
    ensures part { AppendsPart (K.held sink.old) (K.held sink.new) (decimal number) }
    ensures later { K.faults sink.old ≤ K.faults sink.new }
    ensures wants_later { K.wants sink.old ≤ K.wants sink.new }
    ensures failed { IsErrOf result SinkFault.Failed → Rose (K.faults sink.old) (K.faults sink.new) }
    ensures memory { IsErrOf result SinkFault.Memory → Rose (K.wants sink.old) (K.wants sink.new) }
{
    let mut buffer = Buffer::new();
    let numeral = buffer.format(number);
    put(sink, numeral.as_bytes())
}

/// A number, whose text is its numeral.
#[derive(Clone, Copy)]
pub struct Number(pub u128);

impl Text for Number {
    ghost use Rattle.std.specs.Prelude.{decimal};

    ghost text = { λ number. decimal number.0 };

    fn put_on<K: Sink>(&self, sink: &mut K) -> Result<(), SinkFault> {
        put_number(sink, self.0)
    }
}

/// An entry's text is its numeral.
impl Text for u8 {
    ghost use Rattle.std.specs.Prelude.{decimal};

    ghost text = { decimal };

    fn put_on<K: Sink>(&self, sink: &mut K) -> Result<(), SinkFault> {
        put_number(sink, u128::from(*self))
    }
}

// Lists, with a separator between their items.
ghost use Rattle.std.specs.Prelude.{◌≤◌, OnOk, IsErrOf, ◌++◌, flat_map};
ghost use Rattle.std.specs.Io.KnownBytes.{Appends};
ghost use Rattle.av_io.specs.Causes.{Rose};
ghost use Rattle.av_print.specs.Wrote.{AppendsPart};
ghost use Rattle.std.specs.List.{join_by};

use crate::bytes::{Bytes, put};
use crate::text::Text;
use av_io::{Sink, SinkFault};

/// Items, whose texts are written in order with the separator between each two.
#[derive(Clone, Copy)]
pub struct Joined<'a, T> {
    pub separator: &'a [u8],
    pub items: &'a [T],
}

/// Writes each item after a separator.
fn put_others<T: Text, K: Sink>(
    sink: &mut K,
    separator: &[u8],
    items: &[T],
) -> Result<(), SinkFault>
    ensures whole { OnOk result (Appends (K.held sink.old) (K.held sink.new) (flat_map (λ x. separator.now ++ T.text x) items.now)) }
    ensures part { AppendsPart (K.held sink.old) (K.held sink.new) (flat_map (λ x. separator.now ++ T.text x) items.now) }
    ensures later { K.faults sink.old ≤ K.faults sink.new }
    ensures wants_later { K.wants sink.old ≤ K.wants sink.new }
    ensures failed { IsErrOf result SinkFault.Failed → Rose (K.faults sink.old) (K.faults sink.new) }
    ensures memory { IsErrOf result SinkFault.Memory → Rose (K.wants sink.old) (K.wants sink.new) }
{
    for item in items {
        (Bytes(separator), item).put_on(sink)?;
    }
    Ok(())
}

impl<T: Text> Text for Joined<'_, T> {
    ghost text = { λ list. join_by T.text list.separator.now list.items.now };

    #[tactic(auto, using(crate::proofs::Written::written))]
    fn put_on<K: Sink>(&self, sink: &mut K) -> Result<(), SinkFault> {
        let separator = self.separator;
        match self.items {
            [] => Ok(()),
            [first, others @ ..] => {
                first.put_on(sink)?;
                put_others(sink, separator, others)
            }
        }
    }
}

/// Items, whose texts are joined by single spaces; `none` where there is no item.
#[derive(Clone, Copy)]
pub struct JoinedOrNone<'a, T> {
    pub items: &'a [T],
}

impl<T: Text> Text for JoinedOrNone<'_, T> {
    ghost use Rattle.av_print.specs.Text.{joined_or_none};

    ghost text = { λ list. joined_or_none T.text list.items.now };

    #[tactic(auto, unfolding(crate::specs::Text::joined_or_none))]
    fn put_on<K: Sink>(&self, sink: &mut K) -> Result<(), SinkFault> {
        match self.items {
            [] => put(sink, b"none"),
            items => Joined {
                separator: b" ",
                items,
            }
            .put_on(sink),
        }
    }
}

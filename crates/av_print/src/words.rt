// Words.
ghost use Rattle.std.specs.Prelude.{◌≤◌, OnOk, IsErrOf};
ghost use Rattle.std.specs.Io.KnownBytes.{Appends};
ghost use Rattle.av_io.specs.Causes.{Rose};
ghost use Rattle.av_print.specs.Wrote.{AppendsPart};
ghost use Rattle.av_print.specs.Text.{word_text, words_text};

use crate::joined::{Joined, JoinedOrNone};
use crate::text::Text;
use av_io::{Sink, SinkFault};
use av_perm::{Perm, Words};

/// Writes the word: its digits up to nine entries, else its entries joined by commas.
#[tactic(auto, unfolding(crate::specs::Text::word_text))]
pub fn put_word<K: Sink>(sink: &mut K, word: &Perm) -> Result<(), SinkFault>
    ensures whole { OnOk result (Appends (K.held sink.old) (K.held sink.new) (word_text word.now)) }
    ensures part { AppendsPart (K.held sink.old) (K.held sink.new) (word_text word.now) }
    ensures later { K.faults sink.old ≤ K.faults sink.new }
    ensures wants_later { K.wants sink.old ≤ K.wants sink.new }
    ensures failed { IsErrOf result SinkFault.Failed → Rose (K.faults sink.old) (K.faults sink.new) }
    ensures memory { IsErrOf result SinkFault.Memory → Rose (K.wants sink.old) (K.wants sink.new) }
{
    let items = word.as_slice();
    let separator: &[u8] = if items.len() <= 9 { b"" } else { b"," };
    Joined { separator, items }.put_on(sink)
}

impl Text for Perm {
    ghost use Rattle.av_print.specs.Text.{word_text};

    ghost text = { word_text };

    fn put_on<K: Sink>(&self, sink: &mut K) -> Result<(), SinkFault> {
        put_word(sink, self)
    }
}

/// Writes the words' texts joined by single spaces, or `none` where there is no word.
#[tactic(auto, unfolding(crate::specs::Text::words_text))]
pub fn put_words<K: Sink>(sink: &mut K, words: &Words) -> Result<(), SinkFault>
    ensures whole { OnOk result (Appends (K.held sink.old) (K.held sink.new) (words_text words.now)) }
    ensures part { AppendsPart (K.held sink.old) (K.held sink.new) (words_text words.now) }
    ensures later { K.faults sink.old ≤ K.faults sink.new }
    ensures wants_later { K.wants sink.old ≤ K.wants sink.new }
    ensures failed { IsErrOf result SinkFault.Failed → Rose (K.faults sink.old) (K.faults sink.new) }
    ensures memory { IsErrOf result SinkFault.Memory → Rose (K.wants sink.old) (K.wants sink.new) }
{
    let items = words.as_slice();
    JoinedOrNone { items }.put_on(sink)
}

impl Text for Words {
    ghost use Rattle.av_print.specs.Text.{words_text};

    ghost text = { words_text };

    fn put_on<K: Sink>(&self, sink: &mut K) -> Result<(), SinkFault> {
        put_words(sink, self)
    }
}

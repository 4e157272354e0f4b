// Parts of the answers about members of a class.

use crate::bytes::Bytes;
use crate::joined::Joined;
use crate::numbers::Number;
use crate::text::Text;
use av_io::{Sink, SinkFault};
use av_match::Places;
use av_perm::Perm;

/// Places are joined by single spaces.
impl Text for Places {
    ghost use Rattle.av_print.specs.Text.{places_text};

    ghost text = { places_text };

    #[tactic(auto, unfolding(crate::specs::Text::places_text))]
    fn put_on<K: Sink>(&self, sink: &mut K) -> Result<(), SinkFault> {
        Joined {
            separator: b" ",
            items: self.as_slice(),
        }
        .put_on(sink)
    }
}

/// A word with its rank, whose text is a line: the rank, a space and the word.
#[derive(Clone, Copy)]
pub struct RankedWord<'a> {
    /// The rank.
    pub rank: u128,
    /// The word.
    pub word: &'a Perm,
}

impl Text for RankedWord<'_> {
    ghost use Rattle.av_print.specs.Text.{ranked_text};

    ghost text = { λ ranked. ranked_text ranked.rank ranked.word.now };

    #[tactic(auto, unfolding(crate::specs::Text::ranked_text))]
    fn put_on<K: Sink>(&self, sink: &mut K) -> Result<(), SinkFault> {
        (Number(self.rank), Bytes(b" "), self.word, Bytes(b"\n")).put_on(sink)
    }
}

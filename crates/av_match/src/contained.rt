// The first word of a list that a word contains.
ghost use Rattle.std.specs.Prelude.{MatchOption, IsTrue};
ghost use Rattle.av_perm.specs.Class.{avoids_all};
ghost use Rattle.av_match.specs.FirstBad.{IsFirstBad};

use crate::places::Places;
use crate::search::find;
use av_perm::{Perm, Words};

/// A word of a list that is contained in another word.
#[derive(Drop)]
pub struct Bad {
    /// Its index in the list, from 0 on.
    pub index: usize,
    /// The places of its lexicographically first occurrence.
    pub places: Places,
}

/// The first word of the list that the word contains, with its lexicographically first occurrence. None exactly where the
/// word avoids every word of the list.
pub fn first_bad(word: &Perm, basis: &Words) -> Option<Bad>
    ensures { MatchOption result (IsTrue (avoids_all basis.now word.now)) (IsFirstBad word.now basis.now) }
{
    for index in 0..basis.len() {
        if let Some(places) = find(word, basis.get(index)) {
            return Some(Bad { index, places });
        }
    }
    None
}

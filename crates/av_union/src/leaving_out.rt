// What is left of a word without one of its places, and the words that contain a word of each of two lists.
ghost use Rattle.std.specs.Prelude.{◌≡◌, ◌<◌, ◌≤◌, ◌↔◌, length, IsTrue};
ghost use Rattle.std.specs.List.{list_any};
ghost use Rattle.av_perm.specs.Contain.{contains};
ghost use Rattle.av_union.specs.Union.{InBoth, IsMinimalInBoth};
ghost use Rattle.av_union.specs.Gather.{without, HasSpare};

use crate::partials::Partial;
use arrayvec::ArrayVec;
use av_match::contains;
use av_perm::{MAX_LENGTH, Perm, Words, pattern_of};

// Whether the word contains some word of a list.
pub(crate) fn contains_some(word: &Perm, words: &[Perm]) -> bool
    ensures { result ≡ list_any (λ v. contains word.now v) words.now }
{
    words.iter().any(|other| contains(word, other))
}

// The pattern of the word's entries without the one at a place.
fn without(word: &Perm, place: usize) -> Perm
    requires place { place < length word.now }
    requires two { 2 ≤ length word.now }
    ensures { result ≡ without word.now place }
{
    let _word = word.len();
    let mut values: ArrayVec<u8, MAX_LENGTH> = ArrayVec::new();
    for entry in word.as_slice() {
        values.push(*entry);
    }
    values.remove(place);
    pattern_of(values.as_slice())
}

// Whether the word without a place contains a word of each list.
fn is_in_both_without(word: &Perm, place: usize, first: &Words, second: &Words) -> bool
    requires { place < length word.now }
    ensures { IsTrue result ↔ InBoth first.now second.now (without word.now place) }
{
    if word.len() == 1 {
        return false;
    }
    let rest = without(word, place);
    contains_some(&rest, first.as_slice()) && contains_some(&rest, second.as_slice())
}

// Whether a word that contains a word of each list contains no other different such word. A word that contains another has a
// place without which it still contains it, so it is enough to leave out each place in turn.
pub(crate) fn is_minimal(word: &Perm, first: &Words, second: &Words) -> bool
    requires { InBoth first.now second.now word.now }
    ensures { IsTrue result ↔ IsMinimalInBoth first.now second.now word.now }
{
    for place in 0..word.len() {
        if is_in_both_without(word, place, first, second) {
            return false;
        }
    }
    true
}

// Whether some place of a partial overlay that comes before the last of its places is none of them, and can be left out with
// a word of the first list still there. The pattern has no entry at such a place later on either.
pub(crate) fn has_spare(partial: &Partial, first: &Words) -> bool
    ensures { IsTrue result → HasSpare first.now partial.now.word partial.now.places.items }
{
    let places = partial.places.as_slice();
    if places.len() == 0 {
        return false;
    }
    let last = places[places.len() - 1];
    for place in 0..last {
        if !places.contains(&place)
            && contains_some(&without(&partial.word, place as usize), first.as_slice())
        {
            return true;
        }
    }
    false
}

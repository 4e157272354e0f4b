// Partial overlays, and the step by which they grow.
ghost use Rattle.std.specs.Prelude.{◌≡◌, ◌+◌, ◌*◌, ◌<◌, ◌≤◌, List, [], length, nat_lt, IsTrue};
ghost use Rattle.std.specs.List.{list_all};
ghost use Rattle.av_perm.specs.Word.{is_perm};
ghost use Rattle.av_union.specs.Choices.{IsChoice, inserted, word_after};
ghost use Rattle.av_union.specs.Growth.{ArePlacesOf, begins_at};

use crate::choices::Choice;
use crate::limits::MAX_OVERLAY_LENGTH;
use arrayvec::ArrayVec;
use av_perm::{MAX_LENGTH, Perm, pattern_of};

// A word that holds the first word of an overlay and, at some of its places, the first entries of the second, the pattern.
#[derive(Drop)]
pub(crate) struct Partial {
    pub(crate) word: Perm,
    // The places of the pattern's entries, from left to right, counted from 0.
    pub(crate) places: ArrayVec<u8, MAX_OVERLAY_LENGTH>,
    ghost placed: { ArePlacesOf word places.items },
}

impl Partial {
    ghost use Rattle.av_union.specs.Partials.{IsGrownBy};

    // The first word alone.
    pub(crate) fn of(word: &Perm) -> Partial
        ensures word { result.word ≡ word.now }
        ensures places { result.places.items ≡ [] }
    {
        Partial {
            word: word.copy(),
            places: ArrayVec::new(),
        }
    }

    // With the pattern's next entry, where a choice puts it. None where that doesn't come after the others.
    pub(crate) fn grown(&self, choice: Choice) -> Option<Partial>
        requires choice { IsChoice (length self.now.word) choice }
        requires few { length self.now.word < 2 * MAX_OVERLAY_LENGTH }
        requires room { length self.now.places.items < MAX_OVERLAY_LENGTH }
        ensures { IsGrownBy self.now choice result }
    {
        let place = choice.place();
        if !are_before(self.places.as_slice(), place) {
            return None;
        }
        let word = word_after(&self.word, choice);
        let mut places = self.places.clone().unwrap();
        places.push(place as u8);
        Some(Partial { word, places })
    }

    // Whether the entries at the places lie as the first ones of a pattern.
    pub(crate) fn begins(&self, pattern: &Perm) -> bool
        ensures { result ≡ begins_at self.now.word self.now.places.items pattern.now }
    {
        lie_alike(
            self.word.as_slice(),
            self.places.as_slice(),
            pattern.as_slice(),
        )
    }
}

// Whether each of the places comes before another.
fn are_before(places: &[u8], place: usize) -> bool
    ensures { result ≡ list_all (λ j. nat_lt j place) places.now }
{
    places.iter().all(|other| (*other as usize) < place)
}

// The word with one entry more before a place, or at its end, of which so many entries lie below it.
fn inserted(word: &Perm, place: usize, below: usize) -> Perm
    requires few { length word.now < 2 * MAX_OVERLAY_LENGTH }
    requires place { place ≤ length word.now }
    requires below { below ≤ length word.now }
    ensures { result ≡ inserted word.now place below }
{
    let _word = word.len();
    let mut values: ArrayVec<u8, MAX_LENGTH> = ArrayVec::new();
    for entry in word.as_slice() {
        values.push(2 * *entry);
    }
    values.insert(place, 2 * below as u8 + 1);
    pattern_of(values.as_slice())
}

// The word with the pattern's next entry, where a choice puts it.
fn word_after(word: &Perm, choice: Choice) -> Perm
    requires choice { IsChoice (length word.now) choice }
    requires few { length word.now < 2 * MAX_OVERLAY_LENGTH }
    ensures { result ≡ word_after word.now choice }
{
    match choice {
        Choice::Shared { .. } => word.copy(),
        Choice::New { place, below } => inserted(word, place, below),
    }
}

// Whether the entries at some places lie as the first ones of a pattern.
fn lie_alike(word: &[u8], places: &[u8], pattern: &[u8]) -> bool
    requires { ArePlacesOf word.now places.now }
    ensures { result ≡ begins_at word.now places.now pattern.now }
{
    if pattern.len() < places.len() {
        return false;
    }
    for i in 0..places.len() {
        for j in 0..places.len() {
            if (word[places[i] as usize] < word[places[j] as usize]) != (pattern[i] < pattern[j]) {
                return false;
            }
        }
    }
    true
}

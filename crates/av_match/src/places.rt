// Places of a word, seen as their list.
ghost use Rattle.std.specs.Prelude.{◌≡◌, ◌<◌, ◌≤◌, length, slice_get, Some};
ghost use Rattle.av_match.specs.Places.{ArePlaces};

use arrayvec::ArrayVec;
use av_perm::MAX_LENGTH;
use std::marker::Model;

/// Increasing places of a word, from 1 on: at most `MAX_LENGTH`, held in place.
#[derive(Drop)]
pub struct Places {
    items: ArrayVec<u8, MAX_LENGTH>,
}

impl Model for Places {
    ghost use Rattle.std.specs.Prelude.{ℕ, List};

    ghost Value = { List ℕ };

    ghost use Rattle.av_match.specs.Places.{ArePlaces};

    ghost view = { λ p. p.items.items };

    ghost invariant = { λ p. ArePlaces p.items.items };
}

impl Places {
    // The list of these places.
    pub(crate) fn of(items: ArrayVec<u8, MAX_LENGTH>) -> Places
        requires { ArePlaces items.items }
        ensures { result ≡ items.items }
    {
        Places { items }
    }

    /// The number of places, at most `MAX_LENGTH`.
    pub fn len(&self) -> usize
        ensures value { result ≡ length self.now }
        ensures few { length self.now ≤ MAX_LENGTH }
        ensures places { ArePlaces self.now }
    {
        self.items.len()
    }

    /// The place at an index, from 0 on.
    pub fn get(&self, i: usize) -> &u8
        requires { i < length self.now }
        ensures { slice_get self.now i ≡ Some result.now }
    {
        &self.items.as_slice()[i]
    }

    /// The places.
    pub fn as_slice(&self) -> &[u8]
        ensures { result.now ≡ self.now }
    {
        self.items.as_slice()
    }
}

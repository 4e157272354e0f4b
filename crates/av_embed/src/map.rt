// A map from the places of a pattern to the children of a root, seen as its list of children.
ghost use Rattle.std.specs.Prelude.{◌≡◌, ◌≤◌, length};
ghost use Rattle.av_perm.specs.Word.{entry};

use arrayvec::ArrayVec;
use av_perm::MAX_PATTERN_LENGTH;
use std::marker::Model;

/// The child of a root that each place of a pattern goes to, held in place. Places and children are numbered from 1.
#[derive(Drop)]
pub struct Map {
    children: ArrayVec<u8, MAX_PATTERN_LENGTH>,
}

impl Model for Map {
    ghost use Rattle.std.specs.Prelude.{ℕ, List};

    ghost Value = { List ℕ };

    ghost view = { λ m. m.children.items };
}

impl Map {
    // The map with these children.
    pub(crate) fn of(children: &ArrayVec<u8, MAX_PATTERN_LENGTH>) -> Map
        ensures { result ≡ children.now.items }
    {
        Map {
            children: children.clone().unwrap(),
        }
    }

    /// The number of places, at most `MAX_PATTERN_LENGTH`.
    pub fn len(&self) -> usize
        ensures value { result ≡ length self.now }
        ensures few { length self.now ≤ MAX_PATTERN_LENGTH }
    {
        self.children.len()
    }

    /// The child that a place goes to, for a place from 1 to the length.
    pub fn child(&self, place: usize) -> u8
        requires low { 1 ≤ place }
        requires high { place ≤ length self.now }
        ensures { result ≡ entry self.now place }
    {
        self.children.as_slice()[place - 1]
    }
}

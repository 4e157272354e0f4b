// Where the next entry of a pattern may stand in a word.
ghost use Rattle.std.specs.Prelude.{◌≡◌, ◌≤◌};
ghost use Rattle.std.specs.Iterator.{YieldsFirst, item_count};

use av_perm::MAX_LENGTH;
use std::marker::Model;

// Where the pattern's next entry stands in a word: at an entry that is there, or as a new one before a place, or at the end,
// with so many of the word's entries below it. Places are counted from 0.
#[derive(Clone, Copy)]
pub(crate) enum Choice {
    Shared { place: usize },
    New { place: usize, below: usize },
}

impl Choice {
    ghost use Rattle.av_union.specs.Choices.{place_of};

    // The place of the pattern's next entry.
    pub(crate) fn place(self) -> usize
        ensures { result ≡ place_of self }
    {
        match self {
            Choice::Shared { place } => place,
            Choice::New { place, .. } => place,
        }
    }
}

// The choices that are left of those in a word: first its own entries, then new ones, by their place.
#[derive(Drop)]
pub(crate) struct Choices {
    len: usize,
    // The place of the next entry that is there.
    shared: usize,
    // The next new entry comes before this place and lies above so many; where that are more than there are, it comes
    // before the next place.
    place: usize,
    below: usize,
}

impl Model for Choices {
    ghost use Rattle.std.specs.Prelude.{◌≤◌, List};
    ghost use Rattle.av_perm.specs.declared.limits.TheConstants.{MAX_LENGTH};
    ghost use Rattle.av_union.specs.declared.choices.Choice.{Choice};
    ghost use Rattle.av_union.specs.Choices.{choices_from};

    ghost Value = { List Choice };

    ghost view = { λ c. choices_from c.len c.shared c.place c.below };

    ghost invariant = { λ c. (c.place ≤ c.len) × (c.len ≤ MAX_LENGTH) };
}

impl Choices {
    ghost use Rattle.av_union.specs.Choices.{choices};

    // Those in a word of a length.
    #[tactic(auto, unfolding(crate::specs::Choices::choices))]
    pub(crate) fn of(len: usize) -> Choices
        requires { len ≤ MAX_LENGTH }
        ensures { result ≡ choices len }
    {
        Choices {
            len,
            shared: 0,
            place: 0,
            below: 0,
        }
    }
}

impl Iterator for Choices {
    type Item = Choice;

    ghost next_gives = { YieldsFirst (λ c. c) };

    ghost remaining = { item_count (λ c. c) };

    fn next(&mut self) -> Option<Choice> {
        if self.shared < self.len {
            self.shared += 1;
            return Some(Choice::Shared {
                place: self.shared - 1,
            });
        }
        if self.below > self.len {
            if self.place == self.len {
                return None;
            }
            self.place += 1;
            self.below = 1;
            return Some(Choice::New {
                place: self.place,
                below: 0,
            });
        }
        self.below += 1;
        Some(Choice::New {
            place: self.place,
            below: self.below - 1,
        })
    }
}

// What a script asks about.
ghost use Rattle.std.specs.Prelude.{◌≡◌};
ghost use Rattle.av_session.specs.Classes.{required_of};

use av_perm::{Perm, Words};
use av_simple::Found;

/// The two lists of words of a union of classes: a permutation is in it where it avoids each word of the one list, or each of the
/// other.
#[derive(Drop)]
pub struct United {
    /// The minimal words of the basis line.
    pub first: Words,
    /// The minimal words of the union line.
    pub second: Words,
}

/// The class that a script asks about: the permutations that avoid the basis and contain the required words.
#[derive(Drop)]
pub struct Subject {
    /// The two lists whose union the class is, but for the required words, where the script has a union line.
    pub united: Option<United>,
    /// The basis, and the simple words that avoid it, up to one above the gap or up to the limit.
    pub found: Found,
    /// The required words, none in another and none of them the word 1, where the script has a line of them.
    pub require: Option<Words>,
}

impl Subject {
    /// The basis.
    pub fn basis(&self) -> &Words
        ensures { result.now ≡ self.now.found.basis }
    {
        self.found.basis()
    }

    /// The required words.
    pub fn required(&self) -> &[Perm]
        ensures { result.now ≡ required_of self.now }
    {
        match &self.require {
            Some(required) => required.as_slice(),
            None => &[],
        }
    }
}

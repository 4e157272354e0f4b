// Words of a class.
ghost use Rattle.std.specs.Prelude.{◌≡◌};
ghost use Rattle.av_perm.specs.Class.{avoids_all};

use crate::search::contains;
use av_perm::{Perm, Words};

/// Whether the word avoids every word of the basis.
pub fn avoids_all(word: &Perm, basis: &Words) -> bool
    ensures { result ≡ avoids_all basis.now word.now }
{
    basis
        .as_slice()
        .iter()
        .all(|pattern| !contains(word, pattern))
}

// The minimal words of a list.
ghost use Rattle.std.specs.Prelude.{◌≡◌, ◌||◌, not, nat_le, length, IfOk};
ghost use Rattle.std.specs.List.{list_all};
ghost use Rattle.av_perm.specs.Contain.{contains};
ghost use Rattle.av_perm.specs.Class.{minimal};

use crate::search::contains;
use av_perm::{Memory, Perm, Words};
use std::alloc::Global;
use std::collections::BTreeSet;

// Whether the word contains no shorter word of the list. A word of its own length that it contains is itself.
fn is_minimal(word: &Perm, words: &Words) -> bool
    ensures { result ≡ list_all (λ v. nat_le (length word.now) (length v) || not (contains word.now v)) words.now }
{
    words.as_slice().iter().all(|other| word.len() <= other.len() || !contains(word, other))
}

/// The words of the list that contain no other different word of the list, each once, in shortlex order.
pub fn minimal(alloc: Global, words: &Words) -> Result<Words, Memory>
    ensures { IfOk result (λ m. m ≡ minimal words.now) }
{
    // The set has each word once, in shortlex order.
    let mut kept = BTreeSet::new(alloc);
    for i in (0..words.len()).rev() {
        let word = words.get(i);
        if is_minimal(word, words) {
            kept.insert(word.copy()).map_err(|_| Memory)?;
        }
    }
    let mut minimal = Words::empty(alloc);
    for word in kept {
        minimal.push(word)?;
    }
    Ok(minimal)
}

// The maximal words of a list but for the word 1.
ghost use Rattle.std.specs.Prelude.{◌≡◌, ◌||◌, not, nat_le, length, IfOk};
ghost use Rattle.std.specs.List.{list_all};
ghost use Rattle.av_perm.specs.Contain.{contains};
ghost use Rattle.av_perm.specs.Class.{top};

use crate::search::contains;
use av_perm::{Memory, Perm, Words};
use std::alloc::Global;
use std::collections::BTreeSet;

// Whether no longer word of the list contains the word. A word of its own length that contains it is itself.
fn is_maximal(word: &Perm, words: &Words) -> bool
    ensures { result ≡ list_all (λ v. nat_le (length v) (length word.now) || not (contains v word.now)) words.now }
{
    words.as_slice().iter().all(|other| other.len() <= word.len() || !contains(other, word))
}

/// The words of the list, other than the word 1, that no other different word of the list contains, each once, in shortlex
/// order. A word contains these exactly where it contains all of the list, since every word contains the word 1.
pub fn maximal(alloc: Global, words: &Words) -> Result<Words, Memory>
    ensures { IfOk result (λ m. m ≡ top words.now) }
{
    // The set has each word once, in shortlex order.
    let mut kept = BTreeSet::new(alloc);
    for i in (0..words.len()).rev() {
        let word = words.get(i);
        if is_maximal(word, words) {
            kept.insert(word.copy()).map_err(|_| Memory)?;
        }
    }
    let one = Perm::one();
    let mut maximal = Words::empty(alloc);
    for word in kept {
        if one != word {
            maximal.push(word)?;
        }
    }
    Ok(maximal)
}

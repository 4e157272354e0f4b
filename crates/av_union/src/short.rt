// The condition on the lengths of two lists of words.
ghost use Rattle.std.specs.Prelude.{ℕ, ◌+◌, ◌≤◌, ◌↔◌, List, length, IsTrue};
ghost use Rattle.av_perm.specs.Members.{In};
ghost use Rattle.av_union.specs.Union.{AreShortTogether};

use crate::limits::MAX_OVERLAY_LENGTH;
use av_perm::{Perm, Words};

// Whether a word and each word of a list have together at most `MAX_OVERLAY_LENGTH` entries.
fn is_short_with(word: &Perm, others: &[Perm]) -> bool
    ensures { IsTrue result ↔ ((g : List ℕ) → In g others.now → length word.now + length g ≤ MAX_OVERLAY_LENGTH) }
{
    for other in others {
        if word.len() + other.len() > MAX_OVERLAY_LENGTH {
            return false;
        }
    }
    true
}

/// Whether each word of the one list and each word of the other have together at most `MAX_OVERLAY_LENGTH` entries, which is
/// the condition of `unite`. It is so where a list is empty.
pub fn are_short(first: &Words, second: &Words) -> bool
    ensures { IsTrue result ↔ AreShortTogether first.now second.now }
{
    for word in first.as_slice() {
        if !is_short_with(word, second.as_slice()) {
            return false;
        }
    }
    true
}

// The basis of the union of two classes.
ghost use Rattle.std.specs.Prelude.{◌≡◌, IfOk};
ghost use Rattle.av_union.specs.Union.{AreShortTogether, union};

use crate::gathering::gather;
use crate::partials::Partial;
use av_perm::{Memory, Perm, Words};
use std::alloc::Global;
use std::collections::BTreeSet;

// The words of the basis of the union, as a set in shortlex order. Those that contain a word of the first list are gathered
// when the first such word is gone through.
fn gathered(alloc: Global, first: &Words, second: &Words) -> Result<BTreeSet<Perm>, Memory>
    requires { AreShortTogether first.now second.now }
    ensures { IfOk result (λ kept. kept.keys ≡ union first.now second.now) }
{
    let _words = first.len();
    let mut kept = BTreeSet::new(alloc);
    if second.len() == 0 {
        return Ok(kept);
    }
    for i in 0..first.len() {
        let early = &first.as_slice()[..i];
        gather(&Partial::of(first.get(i)), early, first, second, &mut kept)?;
    }
    Ok(kept)
}

// The words of a set, in its order.
fn listed(alloc: Global, kept: BTreeSet<Perm>) -> Result<Words, Memory>
    ensures { IfOk result (λ words. words ≡ kept.keys) }
{
    let mut words = Words::empty(alloc);
    for word in kept {
        words.push(word)?;
    }
    Ok(words)
}

/// The basis of the union of two classes, each given by the words that it avoids: the words that contain a word of each list
/// and no other different such word, in shortlex order. A word of the one list and a word of the other have together at most
/// `MAX_OVERLAY_LENGTH` entries, which `are_short` tests. `Memory` comes only where memory is refused.
pub fn unite(alloc: Global, first: &Words, second: &Words) -> Result<Words, Memory>
    requires { AreShortTogether first.now second.now }
    ensures { IfOk result (λ words. words ≡ union first.now second.now) }
{
    listed(alloc, gathered(alloc, first, second)?)
}

// The minimal words that contain a word of each of two lists, gathered by growing overlays.
ghost use Rattle.std.specs.Prelude.{◌≡◌, ℕ, ◌+◌, ◌*◌, ◌<◌, ◌≤◌, List, length, false, IsTrue, OnOk};
ghost use Rattle.av_perm.specs.Members.{In};
ghost use Rattle.av_union.specs.Union.{ContainsSome, InBoth, AreBelow};
ghost use Rattle.av_union.specs.Choices.{IsChoice};
ghost use Rattle.av_union.specs.Growth.{begins_at};
ghost use Rattle.av_union.specs.Gather.{GrowsNothing, Keeps, Gathers, GathersBy};

use crate::choices::{Choice, Choices};
use crate::leaving_out::{contains_some, has_spare, is_minimal};
use crate::limits::MAX_OVERLAY_LENGTH;
use crate::partials::Partial;
use av_perm::{Memory, Perm, Words};
use std::collections::BTreeSet;

// Whether no word of the basis grows from a partial overlay but for those that contain an earlier word.
fn grows_nothing(partial: &Partial, early: &[Perm], first: &Words) -> bool
    ensures { IsTrue result → (second : List (List ℕ)) → GrowsNothing early.now first.now second partial.now.word partial.now.places.items }
{
    contains_some(&partial.word, early) || has_spare(partial, first)
}

// Whether the entries at the places lie as the first ones of some word of the list.
fn begins_some(partial: &Partial, second: &[Perm]) -> bool
    ensures some { IsTrue result → (g : List ℕ) × In g second.now × IsTrue (begins_at partial.now.word partial.now.places.items g) }
    ensures none { result ≡ false → (g : List ℕ) → In g second.now → begins_at partial.now.word partial.now.places.items g ≡ false }
{
    for pattern in second {
        if partial.begins(pattern) {
            return true;
        }
    }
    false
}

// Keeps the word if it contains no other different word that contains a word of each list.
fn keep(word: &Perm, first: &Words, second: &Words, kept: &mut BTreeSet<Perm>) -> Result<(), Memory>
    requires { InBoth first.now second.now word.now }
    ensures { OnOk result (Keeps first.now second.now word.now kept.old.keys kept.new.keys) }
{
    if is_minimal(word, first, second) {
        kept.insert(word.copy()).map_err(|_| Memory)?;
    }
    Ok(())
}

// Keeps the minimal words to which a partial overlay grows, but for those that contain an earlier word. Where it contains a word
// of the second list it grows no more, since all that it grows to contains it.
#[cycle(gather)]
pub(crate) fn gather(
    partial: &Partial,
    early: &[Perm],
    first: &Words,
    second: &Words,
    kept: &mut BTreeSet<Perm>,
) -> Result<(), Memory>
    requires holds { ContainsSome partial.now.word first.now }
    requires few { length partial.now.word ≤ MAX_OVERLAY_LENGTH + length partial.now.places.items }
    requires room { length partial.now.places.items < MAX_OVERLAY_LENGTH }
    requires second { AreBelow MAX_OVERLAY_LENGTH second.now }
    ensures { OnOk result (Gathers early.now first.now second.now partial.now.word partial.now.places.items kept.old.keys kept.new.keys) }
{
    let len = partial.word.len();
    if grows_nothing(partial, early, first) {
        return Ok(());
    }
    if contains_some(&partial.word, second.as_slice()) {
        return keep(&partial.word, first, second, kept);
    }
    for choice in Choices::of(len) {
        gather_by(choice, partial, early, first, second, kept)?;
    }
    Ok(())
}

// The same of what grows by a choice.
#[cycle(gather)]
fn gather_by(
    choice: Choice,
    partial: &Partial,
    early: &[Perm],
    first: &Words,
    second: &Words,
    kept: &mut BTreeSet<Perm>,
) -> Result<(), Memory>
    requires choice { IsChoice (length partial.now.word) choice }
    requires holds { ContainsSome partial.now.word first.now }
    requires few { length partial.now.word ≤ MAX_OVERLAY_LENGTH + length partial.now.places.items }
    requires room { length partial.now.places.items < MAX_OVERLAY_LENGTH }
    requires second { AreBelow MAX_OVERLAY_LENGTH second.now }
    ensures { OnOk result (GathersBy early.now first.now second.now partial.now.word partial.now.places.items choice kept.old.keys kept.new.keys) }
{
    let Some(grown) = partial.grown(choice) else {
        return Ok(());
    };
    if !begins_some(&grown, second.as_slice()) {
        return Ok(());
    }
    gather(&grown, early, first, second, kept)
}

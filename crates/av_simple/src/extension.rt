// The simple words of a class of one length, from those that are one and two shorter.
ghost use Rattle.std.specs.Prelude.{◌≡◌, ◌+◌, ◌-◌, ◌<◌, ◌≤◌, ◌&&◌, suc, length, IfOk, OnOk};
ghost use Rattle.av_perm.specs.Class.{avoids_all};
ghost use Rattle.av_perm.specs.Gap.{simples};
ghost use Rattle.av_perm.specs.Simple.{is_simple};
ghost use Rattle.av_simple.specs.Extension.{raised_from, insert_point, HasPointIn, HasPoint, HasTwoPointsIn, HasTwoPoints, Gathers};

use arrayvec::ArrayVec;
use av_match::avoids_all;
use av_perm::{MAX_LENGTH, Memory, Perm, Words, is_simple};
use std::alloc::Global;
use std::collections::BTreeSet;

/// The simple words of length `n` of a class, from 6 to 16, in lexicographic order, from those of the two lengths below. Each
/// is one of length n - 1 with one more point, or one of length n - 2 with two more. It fails only for want of memory.
/// Source: the law of smaller simple words of `av_interval`, after Schmerl and Trotter (1993).
pub fn extend_level(
    alloc: Global,
    two_below: &Words,
    one_below: &Words,
    basis: &Words,
    n: usize,
) -> Result<Words, Memory>
    requires low { 6 ≤ n }
    requires high { n ≤ 16 }
    requires two_below { two_below.now ≡ simples basis.now (n - 2) }
    requires one_below { one_below.now ≡ simples basis.now (n - 1) }
    ensures { IfOk result (λ words. words ≡ simples basis.now n) }
{
    // The set has each word once, in order.
    let mut found = BTreeSet::new(alloc);
    for shorter in one_below.as_slice() {
        add_with_point(&mut found, shorter, basis)?;
    }
    for shortest in two_below.as_slice() {
        add_with_two_points(&mut found, shortest, basis)?;
    }
    in_order(alloc, found)
}

// The words that were found, in order.
fn in_order(alloc: Global, found: BTreeSet<Perm, Global>) -> Result<Words, Memory>
    ensures { IfOk result (λ words. words ≡ found.keys) }
{
    let mut level = Words::empty(alloc);
    for word in found {
        level.push(word)?;
    }
    Ok(level)
}

// Adds the simple words of the class that are the word with two more points. Where the first leaves a simple word, the second
// alone is one more point of a word that is one shorter, and is found there.
fn add_with_two_points(
    found: &mut BTreeSet<Perm, Global>,
    word: &Perm,
    basis: &Words,
) -> Result<(), Memory>
    requires { length word.now ≤ 100 }
    ensures { OnOk result (Gathers basis.now (suc (suc (length word.now))) (HasTwoPoints basis.now word.now) found.old.keys found.new.keys) }
{
    let len = word.len();
    for first_place in 0..len + 1 {
        add_with_two_points_at(found, word, first_place, basis)?;
    }
    Ok(())
}

// The same with the first of the two at one place.
fn add_with_two_points_at(
    found: &mut BTreeSet<Perm, Global>,
    word: &Perm,
    first_place: usize,
    basis: &Words,
) -> Result<(), Memory>
    requires few { length word.now ≤ 100 }
    requires within { first_place ≤ length word.now }
    ensures { OnOk result (Gathers basis.now (suc (suc (length word.now))) (HasTwoPointsIn basis.now word.now first_place) found.old.keys found.new.keys) }
{
    let len = word.len() as u8;
    for first_entry in 1..len + 2 {
        let longer = insert_point(word, first_place, first_entry);
        if !is_simple(&longer) && avoids_all(&longer, basis) {
            add_with_point(found, &longer, basis)?;
        }
    }
    Ok(())
}

// Adds the simple words of the class that are the word with one more point.
fn add_with_point(
    found: &mut BTreeSet<Perm, Global>,
    word: &Perm,
    basis: &Words,
) -> Result<(), Memory>
    requires { length word.now ≤ 101 }
    ensures { OnOk result (Gathers basis.now (suc (length word.now)) (HasPoint word.now) found.old.keys found.new.keys) }
{
    let len = word.len();
    for place in 0..len + 1 {
        add_with_point_at(found, word, place, basis)?;
    }
    Ok(())
}

// The same with the point at one place.
fn add_with_point_at(
    found: &mut BTreeSet<Perm, Global>,
    word: &Perm,
    place: usize,
    basis: &Words,
) -> Result<(), Memory>
    requires few { length word.now ≤ 101 }
    requires within { place ≤ length word.now }
    ensures { OnOk result (Gathers basis.now (suc (length word.now)) (HasPointIn word.now place) found.old.keys found.new.keys) }
{
    let len = word.len() as u8;
    for entry in 1..len + 2 {
        add_simple(found, insert_point(word, place, entry), basis)?;
    }
    Ok(())
}

// Adds a word where it is simple and in the class.
fn add_simple(found: &mut BTreeSet<Perm, Global>, word: Perm, basis: &Words) -> Result<(), Memory>
    ensures { OnOk result (Gathers basis.now (length word) (λ w. w ≡ word) found.old.keys found.new.keys) }
{
    let _len = word.len();
    if is_simple_in(&word, basis) {
        found.insert(word).map_err(|_| Memory)?;
    }
    Ok(())
}

// Whether a word is simple and in the class.
fn is_simple_in(word: &Perm, basis: &Words) -> bool
    ensures { result ≡ (is_simple word.now && avoids_all basis.now word.now) }
{
    is_simple(word) && avoids_all(word, basis)
}

// The word with one more point, at an index and with an entry.
fn insert_point(word: &Perm, place: usize, entry: u8) -> Perm
    requires few { length word.now ≤ 101 }
    requires within { place ≤ length word.now }
    requires low { 1 ≤ entry }
    requires high { entry ≤ length word.now + 1 }
    ensures { result ≡ insert_point word.now place entry }
{
    let _len = word.len();
    let mut entries: ArrayVec<u8, MAX_LENGTH> = ArrayVec::new();
    for other in word.as_slice() {
        entries.push(raised_from(entry, *other));
    }
    entries.insert(place, entry);
    match Perm::from_entries(entries.as_slice()) {
        Ok(word) => word,
        Err(_) => unreachable!(),
    }
}

// An entry where a new one comes in.
fn raised_from(entry: u8, other: u8) -> u8
    requires { other < MAX_LENGTH }
    ensures { result ≡ raised_from entry other }
{
    if other < entry { other } else { other + 1 }
}

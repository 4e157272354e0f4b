// All words of a length in lexicographic order, one at a time.
ghost use Rattle.std.specs.Prelude.{◌≡◌, ℕ, ◌+◌, ◌-◌, ◌<◌, ◌≤◌, [], ◌∷◌, length, slice_index, drop, IsTrue, cond, IsPermutation};
ghost use Rattle.std.specs.Iterator.{YieldsFirst, item_count};
ghost use Rattle.av_perm.specs.Word.{is_perm, is_distinct, words};
ghost use Rattle.av_perm.specs.LexOrder.{from_on, descends, are_below};

use crate::limits::{MAX_LENGTH, MAX_ROOT_LENGTH};
use crate::perm::Perm;
use arrayvec::ArrayVec;
use std::marker::Model;

/// The words of a length that are left, in lexicographic order. It takes no memory.
#[derive(Drop)]
pub struct Lex {
    // The word that comes next; after the last word it stays.
    entries: ArrayVec<u8, MAX_LENGTH>,
    exhausted: bool,
}

impl Model for Lex {
    ghost use Rattle.std.specs.Prelude.{ℕ, List, [], cond, IsTrue};

    ghost Value = { List (List ℕ) };

    ghost use Rattle.av_perm.specs.Word.{is_perm};
    ghost use Rattle.av_perm.specs.LexOrder.{from_on};

    ghost view = { λ l. cond l.exhausted [] (from_on l.entries.items) };

    ghost invariant = { λ l. IsTrue (is_perm l.entries.items) };
}

impl Lex {
    /// All words of length n, from 1 to `MAX_ROOT_LENGTH`.
    pub fn new(n: usize) -> Lex
        requires some { 1 ≤ n }
        requires few { n ≤ MAX_ROOT_LENGTH }
        ensures { result ≡ words n }
    {
        let mut entries = ArrayVec::new();
        for i in 0..n {
            entries.push(i as u8 + 1);
        }
        Lex {
            entries,
            exhausted: false,
        }
    }
}

impl Iterator for Lex {
    type Item = Perm;

    ghost next_gives = { YieldsFirst (λ l. l) };

    ghost remaining = { item_count (λ l. l) };

    /// The next word. None comes exactly after the last.
    fn next(&mut self) -> Option<Perm> {
        if self.exhausted {
            return None;
        }
        let word = word_of(&self.entries);
        self.exhausted = !next_arrangement(self.entries.as_mut_slice());
        Some(word)
    }
}

// The word with these entries.
fn word_of(entries: &ArrayVec<u8, MAX_LENGTH>) -> Perm
    requires { IsTrue (is_perm entries.now.items) }
    ensures { result ≡ entries.now.items }
{
    Perm::from_word(entries.clone().unwrap())
}

// Turns the numbers to their next arrangement in lexicographic order. At the last one they stay, and it says so by `false`.
fn next_arrangement(entries: &mut [u8]) -> bool
    requires some { 1 ≤ length entries.old }
    requires distinct { IsTrue (is_distinct entries.old) }
    ensures order { from_on entries.old ≡ entries.old ∷ cond result (from_on entries.new) [] }
    ensures same { IsPermutation entries.old entries.new }
{
    let start = last_descent(entries);
    if start == 0 {
        return false;
    }
    let pivot = start - 1;
    let greater = last_above(entries, pivot);
    entries.swap(pivot, greater);
    entries[start..].reverse();
    true
}

// Where the entries begin to fall to the end.
fn last_descent(entries: &[u8]) -> usize
    requires { 1 ≤ length entries.now }
    ensures within { result < length entries.now }
    ensures falls { IsTrue (descends (drop result entries.now)) }
    ensures longest { 0 < result → slice_index entries.now (result - 1) ≤ slice_index entries.now result }
{
    let mut start = entries.len() - 1;
    while start > 0 && entries[start - 1] > entries[start] {
        start -= 1;
    }
    start
}

// The index of the last entry after the pivot that isn't below it.
fn last_above(entries: &[u8], pivot: usize) -> usize
    requires within { pivot + 1 < length entries.now }
    requires rises { slice_index entries.now pivot < slice_index entries.now (pivot + 1) }
    ensures after { pivot < result }
    ensures within { result < length entries.now }
    ensures above { slice_index entries.now pivot ≤ slice_index entries.now result }
    ensures last { IsTrue (are_below (slice_index entries.now pivot) (drop (result + 1) entries.now)) }
{
    let mut at = entries.len() - 1;
    while entries[at] < entries[pivot] {
        at -= 1;
    }
    at
}

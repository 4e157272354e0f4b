// Words and classes whose answers are known, and simple words against a plain filter.
ghost use Rattle.std.specs.Prelude.{◌≢◌, None};
ghost use Rattle.av_simple.specs.Searched.{gap_of};

use crate::words::{word, words_of};
use arrayvec::ArrayVec;
use av_gap::{gap_is_final, smaller_simple};
use av_perm::{Lex, MAX_LENGTH, Perm, Words, is_simple};
use av_simple::{Found, Outcome, extend_level, search};
use std::alloc::Global;
use std::process::Abort;
use std::test::Fail;

// Whether the word is simple and of length at least 6, and this is left of it.
fn leaves(word: &Perm, left: &Perm) -> bool {
    word.len() >= 6 && is_simple(word) && smaller_simple(word) == *left
}

// What is left without the entries at two indices, which may be equal: of each other entry, its place among those in order.
fn taken(rt: &impl Abort, entries: &[u8], first: usize, second: usize) -> Perm {
    let mut left: ArrayVec<u8, MAX_LENGTH> = ArrayVec::new();
    for i in 0..entries.len() {
        if i == first || i == second || left.is_full() {
            continue;
        }
        let mut rank: u8 = 0;
        for j in 0..entries.len() {
            if j != first && j != second && entries[j] <= entries[i] {
                rank = rank.saturating_add(1);
            }
        }
        left.push(rank);
    }
    word(rt, left.as_slice())
}

// The first simple word in a filter over all places, and then over all pairs.
fn filtered(rt: &impl Abort, entries: &[u8]) -> Perm {
    for place in 0..entries.len() {
        let left = taken(rt, entries, place, place);
        if is_simple(&left) {
            return left;
        }
    }
    for first in 0..entries.len() {
        for second in first..entries.len() {
            let left = taken(rt, entries, first, second);
            if is_simple(&left) {
                return left;
            }
        }
    }
    Perm::one()
}

// Whether two points have to go, and the filter agrees.
fn is_exceptional(rt: &impl Abort, entries: &[u8]) -> bool {
    let left = filtered(rt, entries);
    left.len() < entries.len()
        && entries.len() - left.len() == 2
        && leaves(&word(rt, entries), &left)
}

// No entry of 246135 can go, and the first pair is that of places 1 and 4. What is left is 4, 6, 3, 5.
#[test]
fn two_points_go(rt: HostRuntime) {
    assert!(rt; leaves(&word(&rt, &[2, 4, 6, 1, 3, 5]), &word(&rt, &[2, 4, 1, 3])));
}

// The first entry of 251364 that can go is that of place 4. Without the first, for one, 41253 is left, with the interval 12.
#[test]
fn one_point_goes(rt: HostRuntime) {
    assert!(rt;
        leaves(
            &word(&rt, &[2, 5, 1, 3, 6, 4]),
            &word(&rt, &[2, 4, 1, 5, 3])
        )
    );
}

#[test]
fn simple_words_of_length_6(rt: HostRuntime) {
    let mut count: u32 = 0;
    for word in Lex::new(6) {
        if is_simple(&word) {
            assert!(rt; leaves(&word, &filtered(&rt, word.as_slice())));
            count = count.saturating_add(1);
        }
    }
    assert_eq!(rt; count, 46);
}

// The simple words of these lengths in which no single point can go.
#[test]
fn exceptional_words(rt: HostRuntime) {
    assert!(rt; is_exceptional(&rt, &[2, 4, 6, 1, 3, 5]));
    assert!(rt; is_exceptional(&rt, &[4, 1, 5, 2, 6, 3]));
    assert!(rt; is_exceptional(&rt, &[3, 6, 2, 5, 1, 4]));
    assert!(rt; is_exceptional(&rt, &[5, 3, 1, 6, 4, 2]));
    assert!(rt; is_exceptional(&rt, &[2, 4, 6, 8, 1, 3, 5, 7]));
    assert!(rt; is_exceptional(&rt, &[5, 1, 6, 2, 7, 3, 8, 4]));
    assert!(rt; is_exceptional(&rt, &[4, 8, 3, 7, 2, 6, 1, 5]));
    assert!(rt; is_exceptional(&rt, &[7, 5, 3, 1, 8, 6, 4, 2]));
}

// How many simple words of length 16 come from none of lengths 14 and 15, where the gap is at most 14.
fn extended_to_16(alloc: Global, found: &Found) -> Option<usize>
    requires { gap_of found.now ≢ None }
{
    let gap = gap_is_final(found);
    if gap > 14 {
        return None;
    }
    let none = Words::empty(alloc);
    match extend_level(alloc, &none, &none, found.basis(), 16) {
        Ok(level) => Some(level.len()),
        Err(_) => None,
    }
}

#[test]
fn no_simple_words_without_132(rt: HostRuntime) -> Result<(), Fail> {
    let basis = words_of(rt.alloc(), "132")?;
    let found = search(rt.alloc(), &basis, 5)?;
    let Outcome::Gap(gap) = found.outcome() else {
        return Err(Fail::new("no gap"));
    };
    assert_eq!(rt; gap, 4);
    assert_eq!(rt; gap_is_final(&found), 4);
    assert!(rt; extended_to_16(rt.alloc(), &found) == Some(0));
    Ok(())
}

// The search on classes whose simple words are known.
use crate::words::words_of;
use av_perm::{Memory, Words};
use av_simple::{Found, Outcome, extend_level, search};
use std::alloc::Global;
use std::test::Fail;

// The simple words of length 5.
const SIMPLE: &str = "24153 25314 31524 35142 41352 42513";

// How many simple words of length m were found.
fn count(found: &Found, m: usize) -> usize {
    if m < 4 || m > found.last() {
        return 0;
    }
    found.level(m).len()
}

#[test]
fn no_basis_is_unsettled(rt: HostRuntime) -> Result<(), Fail> {
    let found = search(rt.alloc(), &Words::empty(rt.alloc()), 9)?;
    assert!(rt; found.outcome() == Outcome::Unsettled);
    for (m, wanted) in [(4, 2), (5, 6), (6, 46), (7, 338), (8, 2926), (9, 28146)] {
        assert_eq!(rt; count(&found, m), wanted, "of length {m}");
    }
    Ok(())
}

// The six simple words of length 5: none of that length is left, but four of length 6.
#[test]
fn one_empty_length_is_not_enough(rt: HostRuntime) -> Result<(), Fail> {
    let basis = words_of(rt.alloc(), SIMPLE)?;
    let found = search(rt.alloc(), &basis, 6)?;
    assert!(rt; found.outcome() == Outcome::Unsettled);
    for (m, wanted) in [(4, 2), (5, 0), (6, 4)] {
        assert_eq!(rt; count(&found, m), wanted, "of length {m}");
    }
    Ok(())
}

// From 2413 and 3142 and none of length 5: each takes two points.
#[test]
fn two_points_at_once(rt: HostRuntime) -> Result<(), Fail> {
    let basis = words_of(rt.alloc(), SIMPLE)?;
    let found = search(rt.alloc(), &basis, 5)?;
    let _last = found.last();
    let level = extend_level(rt.alloc(), found.level(4), found.level(5), &basis, 6)?;
    assert!(rt; level == words_of(rt.alloc(), "246135 362514 415263 531642")?);
    Ok(())
}

// The numbers come from a plain program that makes the words without 321 by length and asks each for its intervals.
#[test]
fn few_simple_words_without_321(rt: HostRuntime) -> Result<(), Fail> {
    let found = search(rt.alloc(), &words_of(rt.alloc(), "321")?, 9)?;
    for (m, wanted) in [(4, 2), (5, 2), (6, 7), (7, 14), (8, 37), (9, 90)] {
        assert_eq!(rt; count(&found, m), wanted, "of length {m}");
    }
    Ok(())
}

// The numbers of simple words of the lengths from 6 to 12, each length from the two below.
fn extended_to_12(alloc: Global, basis: &Words) -> Result<Vec<usize>, Memory> {
    let found = search(alloc, basis, 5)?;
    let _last = found.last();
    let mut two_below = found.level(4).copy(alloc)?;
    let mut one_below = found.level(5).copy(alloc)?;
    let mut numbers = Vec::new(alloc);
    for n in 6..13 {
        let level = extend_level(alloc, &two_below, &one_below, basis, n)?;
        numbers.push(level.len()).map_err(|_| Memory)?;
        two_below = one_below;
        one_below = level;
    }
    Ok(numbers)
}

// Bases, and the numbers of simple words of the lengths from 6 to 12. They come from a plain program that makes the words of each
// class by length and asks each for its intervals.
static TO_12: [(&str, [usize; 7]); 3] = [
    ("123 4321", [7, 0, 0, 0, 0, 0, 0]),
    ("321 12345", [7, 14, 33, 0, 0, 0, 0]),
    ("321 23145", [7, 10, 7, 2, 0, 0, 0]),
];

#[test]
fn settled_classes_to_length_12(rt: HostRuntime) -> Result<(), Fail> {
    for (basis, wanted) in &TO_12 {
        let numbers = extended_to_12(rt.alloc(), &words_of(rt.alloc(), basis)?)?;
        assert_eq!(rt; numbers.as_slice(), wanted.as_slice(), "{basis}");
    }
    Ok(())
}

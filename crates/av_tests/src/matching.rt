// Occurrences of patterns, and minimal and maximal words, that are known.
use crate::words::{TEN, word, words_of};
use av_match::{contains, find, first_bad, maximal, minimal};
use av_perm::Words;
use std::test::Fail;

#[test]
fn first_occurrences(rt: HostRuntime) {
    assert!(rt; find(&word(&rt, &[3, 2, 1]), &word(&rt, &[1, 2])).is_none());
    assert!(rt; find(&word(&rt, &[2, 1]), &word(&rt, &[1, 3, 2])).is_none());
    let Some(places) = find(&word(&rt, &[2, 1, 4, 3]), &word(&rt, &[1, 3, 2])) else {
        assert!(rt; false, "an occurrence");
        return;
    };
    assert!(rt; places.as_slice() == [1, 3, 4].as_slice());
    assert_eq!(rt; places.len(), 3);
    assert_eq!(rt; *places.get(1), 3);
}

#[test]
fn containment(rt: HostRuntime) {
    let long = word(&rt, &[2, 4, 6, 1, 3, 5]);
    assert!(rt; contains(&long, &word(&rt, &[2, 4, 1, 3])));
    assert!(rt; !contains(&long, &word(&rt, &[3, 1, 4, 2])));
    assert!(rt; contains(&long, &long));
}

// 30, 29, .., 1, but for one step up, from 10 to 11 at the places 20 and 21.
const ONE_STEP_UP: [u8; 30] = [
    30, 29, 28, 27, 26, 25, 24, 23, 22, 21, 20, 19, 18, 17, 16, 15, 14, 13, 12, 10, 11, 9, 8, 7, 6,
    5, 4, 3, 2, 1,
];

#[test]
fn first_occurrence_in_a_long_word(rt: HostRuntime) {
    let long = word(&rt, ONE_STEP_UP.as_slice());
    let Some(places) = find(&long, &word(&rt, &[4, 2, 3, 1])) else {
        assert!(rt; false, "an occurrence");
        return;
    };
    assert!(rt; places.as_slice() == [1, 20, 21, 22].as_slice());
    assert!(rt; !contains(&long, &word(&rt, &[1, 2, 3])));
}

#[test]
fn the_first_word_that_is_contained(rt: HostRuntime) -> Result<(), Fail> {
    let basis = words_of(rt.alloc(), "321 123 132")?;
    let Some(bad) = first_bad(&word(&rt, &[2, 4, 1, 3, 5]), &basis) else {
        assert!(rt; false, "a word of the list");
        return Ok(());
    };
    assert_eq!(rt; bad.index, 1);
    assert!(rt; bad.places.as_slice() == [1, 2, 5].as_slice());
    assert!(rt; first_bad(&word(&rt, &[2, 1]), &basis).is_none());
    Ok(())
}

#[test]
fn minimal_words(rt: HostRuntime) -> Result<(), Fail> {
    let some = words_of(rt.alloc(), "12 12 132")?;
    assert!(rt; minimal(rt.alloc(), &some)? == words_of(rt.alloc(), "12")?);
    Ok(())
}

#[test]
fn maximal_words(rt: HostRuntime) -> Result<(), Fail> {
    let some = words_of(rt.alloc(), "132 21 12 123")?;
    assert!(rt; maximal(rt.alloc(), &some)? == words_of(rt.alloc(), "123 132")?);
    let one = words_of(rt.alloc(), "1 1")?;
    assert_eq!(rt; maximal(rt.alloc(), &one)?.len(), 0);
    Ok(())
}

#[test]
fn minimal_words_in_order(rt: HostRuntime) -> Result<(), Fail> {
    let sorted = words_of(rt.alloc(), TEN)?;
    let mut turned = Words::empty(rt.alloc());
    for i in (0..sorted.len()).rev() {
        turned.push(sorted.get(i).copy())?;
    }
    let found = minimal(rt.alloc(), &turned)?;
    assert!(rt; found == sorted.copy(rt.alloc())?);
    assert_eq!(rt; found.len(), 10);
    Ok(())
}

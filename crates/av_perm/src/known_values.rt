// Public calls on values from the literature.
ghost use Rattle.std.specs.Prelude.{◌≡◌, ◌≤◌, length, filter};
ghost use Rattle.av_perm.specs.Word.{words};
ghost use Rattle.av_perm.specs.Simple.{is_simple};

use crate::{Lex, MAX_ROOT_LENGTH, Perm, StatKind, inflate, is_simple, pattern_of, statistic};
use std::process::Abort;

// The word with these entries.
fn word(rt: &impl Abort, entries: &[u8]) -> Perm
    ensures { result ≡ entries.now }
{
    Perm::from_entries(entries).expect(rt, "a word")
}

// How many words of a length are simple.
fn count_simple(n: usize) -> usize
    requires some { 1 ≤ n }
    requires few { n ≤ MAX_ROOT_LENGTH }
    ensures { result ≡ length (filter is_simple (words n)) }
{
    let mut count = 0;
    for word in Lex::new(n) {
        if is_simple(&word) {
            count += 1;
        }
    }
    count
}

#[test]
fn words_come_in_lexicographic_order(rt: HostRuntime) {
    let wanted: [[u8; 3]; 6] = [
        [1, 2, 3],
        [1, 3, 2],
        [2, 1, 3],
        [2, 3, 1],
        [3, 1, 2],
        [3, 2, 1],
    ];
    let mut words = Lex::new(3);
    for entries in &wanted {
        let next = words.next().expect(&rt, "six words");
        assert!(rt; next == word(&rt, entries));
    }
    assert!(rt; words.next().is_none());
}

#[test]
fn short_lengths_have_few_simple_words(rt: HostRuntime) {
    for (n, wanted) in [(1, 0), (2, 0), (3, 0), (4, 2), (5, 6), (6, 46)] {
        assert_eq!(rt; count_simple(n), wanted, "of length {n}");
    }
}

#[test]
fn patterns_and_inflations(rt: HostRuntime) {
    assert!(rt; pattern_of(&[5, 2, 9]) == word(&rt, &[2, 1, 3]));
    let blocks = [
        word(&rt, &[1]),
        word(&rt, &[1, 3, 2]),
        word(&rt, &[3, 2, 1]),
        word(&rt, &[1, 2]),
    ];
    let root = word(&rt, &[2, 4, 1, 3]);
    let whole = word(&rt, &[4, 7, 9, 8, 3, 2, 1, 5, 6]);
    assert!(rt; inflate(&root, &blocks) == whole);
}

// 261453 has the inversions 21, 61, 64, 65, 63, 43 and 53, descends after 6 and 5, and has the maxima 2 and 6.
#[test]
fn statistics_of_a_word(rt: HostRuntime) {
    let some = word(&rt, &[2, 6, 1, 4, 5, 3]);
    for (kind, wanted) in [(StatKind::Inv, 7), (StatKind::Des, 2), (StatKind::Lrm, 2)] {
        assert_eq!(rt; statistic(kind, &some), wanted, "{kind:?}");
    }
}

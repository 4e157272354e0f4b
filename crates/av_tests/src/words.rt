// Words and lists of words from their entries, and the tests of them that calls ask for.
ghost use Rattle.std.specs.Prelude.{◌≡◌, ◌≤◌, ◌↔◌, ◌&&◌, nat_le, length, true, All, IsTrue};
ghost use Rattle.std.specs.List.{list_all};
ghost use Rattle.av_perm.specs.Simple.{is_simple};
ghost use Rattle.av_build.specs.Laws.{AreRoots};

use av_perm::{MAX_PATTERN_LENGTH, MAX_ROOT_LENGTH, Perm, Words, is_simple};
use std::alloc::Global;
use std::process::Abort;
use std::test::Fail;

/// Ten simple words, none in another, in shortlex order. The class that avoids them has the simple words 2413 and 3142.
pub const TEN: &str = "24153 25314 31524 35142 41352 42513 246135 362514 415263 531642";

/// The words of a class in which the root 12 has two boxes, the second of which requires a word.
pub const THREE: &str = "2143 2413 3142";

/// The word with these entries.
pub fn word(rt: &impl Abort, entries: &[u8]) -> Perm
    ensures { result ≡ entries.now }
{
    Perm::from_entries(entries).expect(rt, "a word")
}

/// The word with these digits.
pub fn word_of(alloc: Global, digits: &str) -> Result<Perm, Fail> {
    let mut entries: Vec<u8> = Vec::new(alloc);
    for digit in digits.as_bytes() {
        entries.push(digit.saturating_sub(b'0'))?;
    }
    Ok(Perm::from_entries(&entries)?)
}

/// The words of a text, each by its digits.
pub fn words_of(alloc: Global, text: &str) -> Result<Words, Fail> {
    let mut words = Words::empty(alloc);
    for digits in text.split_whitespace() {
        words.push(word_of(alloc, digits)?)?;
    }
    Ok(words)
}

/// Whether the words have the lengths of patterns.
pub fn are_short(words: &Words) -> bool
    ensures { IsTrue result ↔ All (λ w. length w ≤ MAX_PATTERN_LENGTH) words.now }
{
    words
        .as_slice()
        .iter()
        .all(|word| word.len() <= MAX_PATTERN_LENGTH)
}

// Whether the words are simple and have the lengths of roots.
fn pass_as_roots(words: &Words) -> bool
    ensures { result ≡ list_all (λ w. is_simple w && nat_le (length w) MAX_ROOT_LENGTH) words.now }
{
    words
        .as_slice()
        .iter()
        .all(|word| is_simple(word) && word.len() <= MAX_ROOT_LENGTH)
}

/// The same, for what it tells.
#[tactic(auto, using(crate::proofs::TestedRoots::tested_roots))]
pub fn are_roots(words: &Words) -> bool
    ensures { result ≡ true → AreRoots words.now }
{
    // Its length tells that it is a list of words.
    let _words = words.len();
    pass_as_roots(words)
}

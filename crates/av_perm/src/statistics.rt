// Statistics of words.
ghost use Rattle.std.specs.Prelude.{◌≡◌, ◌≤◌, length, count_by, nat_lt, IsTrue};
ghost use Rattle.av_perm.specs.Word.{is_perm};
ghost use Rattle.av_perm.specs.Stat.{statistic_of, inversions, descents, left_to_right_maxima};

use crate::StatKind;
use crate::limits::{MAX_LENGTH, MAX_STATISTIC};
use crate::perm::Perm;

/// How many of the entries are below one.
fn count_below(entry: u8, entries: &[u8]) -> u64
    ensures count { result ≡ count_by (λ y. nat_lt y entry) entries.now }
    ensures few { result ≤ length entries.now }
{
    entries.iter().filter(|other| **other < entry).count() as u64
}

/// How many pairs of places have the greater entry first.
fn count_inversions(entries: &[u8]) -> u64
    requires { length entries.now ≤ MAX_LENGTH }
    ensures value { result ≡ inversions entries.now }
    ensures few { result ≤ MAX_STATISTIC }
{
    let mut count = 0u64;
    for i in 0..entries.len() {
        count += count_below(entries[i], &entries[i + 1..]);
    }
    count
}

/// How many entries are greater than the next.
fn count_descents(entries: &[u8]) -> u64
    requires { length entries.now ≤ MAX_LENGTH }
    ensures value { result ≡ descents entries.now }
    ensures few { result ≤ MAX_STATISTIC }
{
    let mut count = 0u64;
    for i in 1..entries.len() {
        if entries[i - 1] > entries[i] {
            count += 1;
        }
    }
    count
}

/// How many entries are greater than all before them.
fn count_left_to_right_maxima(entries: &[u8]) -> u64
    requires { IsTrue (is_perm entries.now) }
    ensures value { result ≡ left_to_right_maxima entries.now }
    ensures few { result ≤ MAX_STATISTIC }
{
    let mut count = 0u64;
    let mut greatest = 0u8;
    for entry in entries {
        if *entry > greatest {
            count += 1;
            greatest = *entry;
        }
    }
    count
}

/// The statistic of a word, which is at most `MAX_STATISTIC`.
pub fn statistic(kind: StatKind, word: &Perm) -> u64
    ensures value { result ≡ statistic_of kind word.now }
    ensures few { result ≤ MAX_STATISTIC }
{
    let _len = word.len();
    match kind {
        StatKind::Inv => count_inversions(word.as_slice()),
        StatKind::Des => count_descents(word.as_slice()),
        StatKind::Lrm => count_left_to_right_maxima(word.as_slice()),
    }
}

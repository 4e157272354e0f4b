// The word in the relative order of given numbers.
ghost use Rattle.std.specs.Prelude.{◌≡◌, ◌≤◌, length, IsTrue};
ghost use Rattle.av_perm.specs.Word.{is_distinct};
ghost use Rattle.av_perm.specs.Pattern.{smaller, pattern_of};
ghost use Rattle.av_perm.specs.Relations.{sum_root, skew_root};

use crate::limits::MAX_LENGTH;
use crate::perm::Perm;
use arrayvec::ArrayVec;

/// The word in the relative order of 1 to `MAX_LENGTH` different numbers: each entry is one more than the number of smaller ones.
/// It takes no memory.
pub fn pattern_of(values: &[u8]) -> Perm
    requires some { 1 ≤ length values.now }
    requires few { length values.now ≤ MAX_LENGTH }
    requires different { IsTrue (is_distinct values.now) }
    ensures { result ≡ pattern_of values.now }
{
    let mut entries = ArrayVec::new();
    for value in values {
        entries.push(1 + smaller(*value, values));
    }
    Perm::from_word(entries)
}

/// The root of sums, 12. It takes no memory.
pub fn sum_root() -> Perm
    ensures { result ≡ sum_root }
{
    pattern_of(&[1, 2])
}

/// The root of skew sums, 21. It takes no memory.
pub fn skew_root() -> Perm
    ensures { result ≡ skew_root }
{
    pattern_of(&[2, 1])
}

// How many of the numbers are below one.
fn smaller(value: u8, values: &[u8]) -> u8
    requires { length values.now ≤ MAX_LENGTH }
    ensures count { result ≡ smaller value values.now }
    ensures few { result ≤ length values.now }
{
    values.iter().filter(|v| **v < value).count() as u8
}

// A simple word in a simple word.
ghost use Rattle.std.specs.Prelude.{◌≡◌, ◌≤◌, ℕ, IsTrue, IfSome, None, length};
ghost use Rattle.av_perm.specs.Simple.{is_simple};
ghost use Rattle.av_interval.specs.Points.{pattern_on, but_two};
ghost use Rattle.av_interval.specs.Laws.{IsNearSimple, LeavesSimple};
ghost use Rattle.av_gap.specs.Smaller.{IsWithoutFirstPoint, IsWithoutFirstPair, IsFirstSmaller};

use arrayvec::ArrayVec;
use av_perm::{MAX_LENGTH, Perm, is_simple, pattern_of};

/// Of a simple word of length at least 6, a simple word in it that is one or two shorter: what is left without the first
/// point that leaves a simple pattern, or else, where no point does, without the lexicographically first pair of points
/// that leaves one. There is always one. It takes no memory. Source: the law of smaller simple words of `av_interval`.
pub fn smaller_simple(word: &Perm) -> Perm
    requires simple { IsTrue (is_simple word.now) }
    requires long { 6 ≤ length word.now }
    ensures near { IsNearSimple word.now result }
    ensures first { IsFirstSmaller word.now result }
{
    match without_one(word) {
        Some(left) => left,
        None => without_two(word),
    }
}

// What is left of a simple word without the first point that leaves a simple pattern, if one does.
fn without_one(word: &Perm) -> Option<Perm>
    requires simple { IsTrue (is_simple word.now) }
    requires long { 6 ≤ length word.now }
    ensures near { IfSome result (IsNearSimple word.now) }
    ensures first { IfSome result (IsWithoutFirstPoint word.now) }
    ensures none { result ≡ None → (v : ℕ) → LeavesSimple word.now v → ⊥ }
{
    let len = word.len();
    for place in 0..len {
        let left = left_without(word, place, place);
        if is_simple(&left) {
            return Some(left);
        }
    }
    None
}

// What is left of a simple word without the lexicographically first pair of points that leaves a simple pattern, where no
// single point leaves one.
fn without_two(word: &Perm) -> Perm
    requires simple { IsTrue (is_simple word.now) }
    requires long { 6 ≤ length word.now }
    requires no_place { (v : ℕ) → LeavesSimple word.now v → ⊥ }
    ensures near { IsNearSimple word.now result }
    ensures first { IsWithoutFirstPair word.now result }
{
    let len = word.len();
    for first in 0..len {
        for second in first + 1..len {
            let left = left_without(word, first, second);
            if is_simple(&left) {
                return left;
            }
        }
    }
    unreachable!()
}

// The pattern of what is left of a word of at least 3 entries without the entries at two indices, which may be equal.
fn left_without(word: &Perm, first: usize, second: usize) -> Perm
    requires { 3 ≤ length word.now }
    ensures { result ≡ pattern_on word.now (but_two first second) }
{
    let len = word.len();
    let entries = word.as_slice();
    let mut left: ArrayVec<u8, MAX_LENGTH> = ArrayVec::new();
    for i in 0..len {
        if i != first && i != second {
            left.push(entries[i]);
        }
    }
    pattern_of(left.as_slice())
}

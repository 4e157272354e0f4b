//! Permutations as words, patterns in them, and lists of words.
//!
//! A word of length n is a list of the numbers 1 to n, each once: a permutation in one-line notation. The definitions
//! of the field stand in `specs/`. Words, containment, classes, intervals and simple words stand there twice: as
//! relations in the words of the textbook (`Relations`), and as tests and lists that compute.
#![tactic(auto)]

mod inflation;
#[cfg(test)]
mod known_values;
pub mod laws;
mod lex;
mod limits;
mod pattern;
mod perm;
mod simple;
mod statistics;
mod words;

pub use inflation::inflate;
pub use lex::Lex;
pub use limits::{MAX_LENGTH, MAX_PATTERN_LENGTH, MAX_ROOT_LENGTH, MAX_STATISTIC};
pub use pattern::{pattern_of, skew_root, sum_root};
pub use perm::{NotPerm, Perm, shortlex};
pub use simple::is_simple;
pub use statistics::statistic;
pub use words::{Memory, Words};

/// A statistic of words.
#[derive(Clone, Copy, Debug, PartialEq, Eq)]
pub enum StatKind {
    /// Inversions: pairs of places s < t with the greater entry at s.
    Inv,
    /// Descents: places whose entry is greater than the next.
    Des,
    /// Left-to-right maxima: places whose entry is greater than all before it.
    Lrm,
}

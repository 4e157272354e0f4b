//! Places in the lists of derivation trees: the word at a place, and the place of a word.
//!
//! The trees of an equation and a size are listed by their terms, then by the sizes of their subtrees, then by the places of
//! these, the first child's the most significant. No list is formed, and nothing here takes memory.
#![tactic(auto)]

mod blocks;
mod choosing;
pub mod laws;
mod placing;
mod ranking;
#[cfg(test)]
mod tests;
mod tops;
mod writing;

pub use choosing::{Cut, choose_size, rest_count, term_count};
pub use ranking::{Ranked, rank};
pub use writing::unrank;

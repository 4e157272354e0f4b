//! The decomposition of words: every word of two or more entries is the inflation of one root by one list of blocks, where
//! the root is 12, 21 or simple. Applied to every block in turn it makes a tree of roots.
//!
//! Source: Albert and Atkinson, Simple permutations and pattern restricted permutations, 2005.
#![tactic(auto)]

pub mod laws;
mod shape;
mod trees;

pub use shape::{Shape, block, decompose, halves};
pub use trees::{DecTree, tree};

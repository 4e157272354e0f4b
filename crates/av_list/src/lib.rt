//! The words of a system one after another, each with its rank, from any rank on; and those among them that a closure keeps.
//!
//! A `Lister` holds one derivation tree as its vertices in preorder, in room that is taken when it is made. A vertex says which
//! term a tree begins with and which sizes its subtrees have, so the order of the trees is the lexicographic order of their
//! vertices, and the next tree is found at the last vertex that has a later choice.
#![tactic(auto)]

mod choice;
mod derivation;
mod lister;
mod sieve;
mod sizes;
mod vertex;
mod walk;
mod word;

pub use lister::Lister;
pub use sieve::Sieve;

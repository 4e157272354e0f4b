//! What a constraint on words tells of a pattern, and how a constraint grows.
#![tactic(auto)]

mod constraints;
pub mod laws;
mod names;

pub use constraints::{Known, add_avoid, add_require, free, known_of};
pub use names::{satisfies, satisfies_besides};

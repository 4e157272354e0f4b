//! Patterns in words: the first occurrence of a pattern, the first word of a list that is contained, and the minimal and the
//! maximal words of a list.
#![tactic(auto)]

mod class;
mod contained;
mod maximal_words;
mod minimal_words;
mod narrow;
mod places;
mod search;

pub use class::avoids_all;
pub use contained::{Bad, first_bad};
pub use maximal_words::maximal;
pub use minimal_words::minimal;
pub use places::Places;
pub use search::{contains, find};

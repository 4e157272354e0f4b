//! Statistics of words, and how many words of a list have each value.
//!
//! A `Stat` is a closure with the name of its statistic. A histogram has a bar for each value that some word has, in
//! increasing order, and the number of the words that have it.
#![tactic(auto)]

mod by_value;
mod counts;
mod stat;

pub use av_bars::{Bar, Bars};
pub use by_value::histogram;
pub use stat::Stat;

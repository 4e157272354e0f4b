//! How many words of a list have each value of a statistic: a bar for each value that some word has, in increasing order.
//!
//! A histogram counts the words themselves, and a distribution counts them by a system; their bars differ in the width of the
//! counts alone.
#![tactic(auto)]

mod bars;
mod dist_bars;
pub mod laws;

pub use bars::{Bar, Bars};
pub use dist_bars::{DistBar, DistBars};

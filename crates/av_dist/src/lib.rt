//! How many members of a system have each number of inversions, or of descents.
//!
//! The words of a node are the inflations of its root by words of its children, of sizes that sum to the word's. The
//! statistic of an inflation is the sum of those of its blocks and a number that the root and the sizes of the blocks tell.
//! So the numbers of the words of a node, by statistic, are sums of products of the children's numbers, over the lists of
//! sizes.
#![tactic(auto)]

mod added;
mod bars;
pub mod laws;
mod levels;
mod nodes;
mod row;
mod table;
mod terms;

pub use av_bars::{DistBar, DistBars};
pub use table::{DistTable, distribution};

//! The split of a root into boxes, each with a constraint for each child of the root.
#![tactic(auto)]

mod advising;
/// The demands of a name at a root, with the numbers of their patterns.
pub mod asked;
mod boxes;
/// Questions by number: cells of a table of children by patterns.
pub mod cells;
pub mod laws;
/// The path to a box, which is cut in place and taken back.
pub mod path;
/// The patterns of a root and a name, numbered.
pub mod patterns;
/// What is known of each pattern at a child.
pub mod rows;
mod splitting;
/// What is known of the demands in a box, and what to ask next.
pub mod steps;
/// The patterns, which of them contain which, and what a settled one tells of the others.
pub mod table;

pub use advising::{Advice, advise};
pub use boxes::{BoxList, SplitBox};
pub use splitting::{Boxes, split};

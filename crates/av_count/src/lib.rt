//! The numbers of derivation trees of a system, by equation and size.
//!
//! A tree of a size is a term and, for a node, sizes of at least 1 for its children whose sum is that size, and a tree of
//! each child's equation and size. So the numbers follow from those of smaller sizes.
//!
//! A table has a row of numbers for each equation, and one for the last children of a node from each on. Many nodes agree in
//! their last children, so lists of children are linked: those that have the same link share its row.
#![tactic(auto)]

mod count;
pub mod laws;
mod layout;
mod links;
mod numbered;
mod row;
mod table;

pub use count::Count;
pub use numbered::{term, terms};
pub use table::Table;

//! The walk over the cells of a root: a cell is split until the demands of a name and the terms of its equation are settled.
#![tactic(auto)]

mod leaves;
mod literals;
mod looking;
mod sifting;
mod terms;

pub use leaves::{CellEnd, Leaves};

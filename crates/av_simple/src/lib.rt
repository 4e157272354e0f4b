//! The simple words of a class by length, each length from the two below, and the gap from which on there are none.
#![tactic(auto)]

mod by_length;
mod extension;
mod found;
mod level;
mod limits;
mod outcome;

pub use by_length::search;
pub use extension::extend_level;
pub use found::Found;
pub use limits::LEAST_LIMIT;
pub use outcome::Outcome;

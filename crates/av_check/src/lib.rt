//! A checker of claimed systems: a claim is read, and its system is checked against its class.
#![tactic(auto)]

mod cells;
mod checking;
mod claim;
mod fault;
pub mod laws;
mod limits;
mod names;
mod outcomes;
mod points;
mod reading;
mod roots;
mod verdict;

pub use checking::check;
pub use claim::Claim;
pub use limits::{MAX_CLAIM_BYTES, MAX_CLAIM_SIZE};
pub use reading::{ClaimError, read_claim};
pub use verdict::{Flaw, Verdict};

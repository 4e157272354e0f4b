//! What a run writes of a settled class is a claim, and a check of it says yes.
#![tactic(auto)]

pub mod laws;

// Claims, read from texts.
mod announced;
mod claims;
mod equations;
mod lines;
mod numbers;
mod pieces;
mod terms;
mod words;

pub use claims::{ClaimError, read_claim};

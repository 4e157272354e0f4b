//! Embeddings of a pattern in a root, and what a pattern in an inflation has in each block.
//!
//! An embedding sends the places of a pattern to the children of a root, from left to right, so that entries that go to
//! different children lie as the root's entries there lie. The definitions stand in `specs/`. The embedding law, in
//! [`laws`], says what embeddings are for: by them a pattern in an inflation is looked for in the blocks.
#![tactic(auto)]

mod embeddings;
mod fibres;
pub mod laws;
mod map;

pub use embeddings::Embeddings;
pub use fibres::fibre;
pub use map::Map;

//! Seeded draws: numbers below a count, the same at each run with the same seed.
//!
//! The numbers come from the key stream of ChaCha20 (RFC 8439) whose key is the seed's 8 bytes, the least first, and then
//! zeros: four words a draw, taken modulo the count. So where the count isn't a divisor of 2^128, some numbers are drawn
//! a little more often than others.
#![tactic(auto)]

mod drawer;
#[cfg(test)]
mod tests;

pub use drawer::Drawer;

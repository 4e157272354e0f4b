//! Sources and sinks of bytes, with the causes of their faults.
//!
//! A source tells the bytes that it has left and a sink those that it holds, or they tell nothing of bytes. Each counts
//! its faults, and a sink its wants of memory: a call that fails is one in which that count rose, so a caller that
//! answers a fault can show where it came from.
#![tactic(auto)]

mod calls;
mod give;
mod mem;
mod outside;
mod passing;
mod sure;
#[cfg(test)]
mod tests;
mod traits;

pub use mem::{MemSink, MemSource};
pub use outside::{StdSink, StdSource};
pub use passing::LARGE_PIECE;
pub use sure::{SureSink, SureSource};
pub use traits::{Failed, Sink, SinkFault, Source};

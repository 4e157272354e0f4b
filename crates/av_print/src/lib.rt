//! Texts, written to a sink.
//!
//! Whatever has a text implements [`Text`], whose clauses say once what writing does: on `Ok` the bytes held grew by
//! exactly the text, on an error by a prefix of it, and an error comes only where the sink's count of it rose or stands at its last value. Texts in
//! turn are tuples: `(Bytes(b"basis "), words, Bytes(b"\n")).put_on(sink)`. Only [`put_gathered`] takes memory of its own.
#![tactic(auto)]

mod bars;
mod bytes;
mod counts;
mod gathered;
mod joined;
pub mod laws;
mod members;
mod numbers;
mod queries;
mod systems;
mod text;
mod trees;
mod turns;
mod words;

pub use bytes::{Bytes, put};
pub use counts::put_count;
pub use gathered::put_gathered;
pub use joined::Joined;
pub use members::RankedWord;
pub use numbers::{Number, put_number};
pub use queries::put_query;
pub use systems::{put_system, terms_count};
pub use text::Text;
pub use trees::put_tree;
pub use words::{put_word, put_words};

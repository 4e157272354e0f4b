//! The union of two classes: overlays of two words, and the basis of the union.
//!
//! An overlay of two words is a word that they cover: an occurrence of the one and an occurrence of the other have together
//! all of its places. The basis of the union has the words that contain a word of each of two lists and no other different
//! such word, and each of them is an overlay of a word of the one list and a word of the other.
//!
//! Both calls, `Overlays` and `unite`, grow overlays by the same step, and neither calls the other. A partial overlay is the
//! first word with the first entries of the second laid over it, and `Partial::grown` lays one entry more over it, by each of
//! the `Choices` in turn. `Overlays` keeps the partial overlays on its way and gives each overlay of two words. `unite` goes
//! through all words of its second list at once, since most of their first entries are the same, and leaves a partial overlay
//! as soon as nothing that grows from it can be in the basis.
#![tactic(auto)]

mod choices;
mod gathering;
pub mod laws;
mod leaving_out;
mod limits;
mod overlays;
mod partials;
mod short;
mod uniting;

pub use limits::MAX_OVERLAY_LENGTH;
pub use overlays::Overlays;
pub use short::are_short;
pub use uniting::unite;

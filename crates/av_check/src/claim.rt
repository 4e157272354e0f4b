// Claims.
use av_perm::Words;
use av_sys::System;

/// A system that is claimed to generate the words that avoid a basis and contain some required words.
#[derive(Drop)]
pub struct Claim {
    pub basis: Words,
    /// None where the claim says nothing of required words.
    pub require: Option<Words>,
    pub system: System,
}

// The limits of a claim.

/// The most bytes of a claim.
pub const MAX_CLAIM_BYTES: usize = 1_048_576;

/// The most equations and terms together that a claim says its system has.
pub const MAX_CLAIM_SIZE: u32 = 65_536;

// The greatest length of an overlay.

/// How many entries two words may have together that are laid over each other, and so the greatest length of an overlay.
pub const MAX_OVERLAY_LENGTH: usize = 10;

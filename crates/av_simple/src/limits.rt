// The least limit of a search.

/// The least limit of a search for simple words: a gap is two lengths without any, from 4 on.
pub const LEAST_LIMIT: usize = 5;

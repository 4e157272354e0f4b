// The greatest lengths of words, and the greatest statistic.

/// The greatest length of a word.
pub const MAX_LENGTH: usize = 160;

/// The greatest length of a word of a basis.
pub const MAX_PATTERN_LENGTH: usize = 12;

/// The greatest length of a simple root, and of the words that `Lex` goes through.
pub const MAX_ROOT_LENGTH: usize = 10;

/// The greatest statistic of a word: the number of inversions of the word of `MAX_LENGTH` entries in falling order.
pub const MAX_STATISTIC: u64 = 12_720;

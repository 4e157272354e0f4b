// The limits of a script. Those of the lengths of words and of statistics are `av_perm`'s.

/// The most bytes of a script.
pub const MAX_SCRIPT_BYTES: usize = 65_536;

/// The most words of the basis line, of the union line, and of the line of required words.
pub const MAX_PATTERNS: usize = 64;

/// The greatest number of a format: that of the text of the pruned system.
pub const MAX_FORMAT: u8 = 2;

/// The format of a script that doesn't say one.
pub const DEFAULT_FORMAT: u8 = 2;

/// The most words that a query lists.
pub const MAX_LISTED: u32 = 1_000_000;

/// How many words a query lists at most where it doesn't say so.
pub const DEFAULT_LISTED: u32 = 1_000;

/// The most words that a query draws.
pub const MAX_DRAWN: u32 = 100_000;

/// The greatest number of a demo script.
pub const MAX_DEMO: u32 = 99_999;

/// The greatest length at which a query asks for a statistic of each word of the class.
pub const MAX_STATISTIC_LENGTH: usize = 12;

/// The greatest length at which a query asks for a distribution. Read as numerals to the base 25, words of that many entries are
/// different numbers below 2^128, so there are fewer of them.
pub const MAX_DISTRIBUTION_LENGTH: usize = 24;

//! The script: a basis of forbidden words, a second one, required words, and queries about the class of the words that avoid
//! each word of the basis, or each word of the second one, and contain the required words.
//!
//! A script is a text of at most 65,536 bytes. Its lines end at line feeds, the last one also at the end of the text,
//! and one carriage return at the end of a line is dropped. A line holds tabs and the bytes from space to `~`; its
//! tokens stand between spaces and tabs. A line says one of these:
//!
//! | line | what it says |
//! |---|---|
//! | `basis W1 .. Wk` | the basis: 0 to 64 words of at most 12 entries. One line, anywhere, is the basis line |
//! | `union W1 .. Wk` | the second basis: 0 to 64 words of at most 12 entries. At most one line, anywhere |
//! | `require W1 .. Wk` | the required words: 0 to 64 words of at most 12 entries. At most one line, anywhere |
//! | `format N` | the format of the system: 1, or 2 for the pruned system, which it is without such a line. At most one line, anywhere |
//! | `count N` | a query: how many words of length N the class has, for N from 1 to 160 |
//! | `counts N` | a query: how many words of each length from 1 to N the class has, for N from 1 to 160 |
//! | `list N` | a query: the words of length N of the class, in order of rank |
//! | `list N from R` | the same from rank R on, for R from 0 to 2^128 - 1. Without `from` it is 0 |
//! | `list N for K`, `list N from R for K` | the same, K of them at most, for K from 1 to 1,000,000. Without `for` it is 1,000 |
//! | `unrank N R` | a query: the word of length N and rank R |
//! | `rank W` | a query: the rank of the word W of at most 160 entries |
//! | `tree W` | a query: how the word W of at most 160 entries is put together from simple ones |
//! | `draw N S K` | a query: K words of length N drawn by the seed S, for S from 0 to 2^64 - 1 and K from 1 to 100,000 |
//! | `drawstat T N S K` | a query: the least, the greatest and the sum of the statistic T, which is `inv`, `des` or `lrm`, over these words |
//! | `stat T N` | a query: for each value of the statistic T, how many words of length N of the class have it, for N from 1 to 12 |
//! | `pick T V N` | a query: the words of length N of the class whose statistic T is V, for N as in `stat` and V from 0 to 12,720 |
//! | `dist T N` | a query: what `stat` is, for T `inv` or `des` and N from 1 to 24. It is counted without a list of the words |
//! | no token, or a first token that begins with `#` | nothing |
//!
//! A word is written by its digits, as `213`, or as two or more numerals of at most three digits joined by commas, as
//! `2,1,3`. A numeral is `0`, or digits of which the first isn't `0`.
//!
//! Any other text has a fault, of one of the kinds of [`Kind`]. [`read_script`] answers that of the first line that has
//! one. Within a line a byte that isn't allowed comes first. Then comes, in a basis line, an earlier basis line, then
//! that it has more than 64 words, then its first token that isn't a word; in a union line and in a line of required words
//! likewise. In a format
//! line it is first that it hasn't one argument, then an earlier format line, then its number. In any other line it is first
//! that it has no form of a query, then its arguments from left to right. A text that is too long,
//! and after all these a text with no basis line, is at fault at line 0. Last of all a union line is at fault where its longest
//! word and the longest of the basis line have together more than 10 entries.
//!
//! The definitions stand in `specs/`: `Read` puts together what `Lines`, `Words`, `Numerals` and `Queries` say.
#![tactic(auto)]

mod demo;
mod heard;
mod kind;
pub mod laws;
mod limits;
mod lines;
mod numerals;
mod queries;
mod says;
mod script;
mod statistics;
mod tokens;
mod words;

pub use demo::demo_script;
pub use kind::Kind;
pub use limits::{
    DEFAULT_FORMAT, DEFAULT_LISTED, MAX_DEMO, MAX_DISTRIBUTION_LENGTH, MAX_DRAWN, MAX_FORMAT,
    MAX_LISTED, MAX_PATTERNS, MAX_SCRIPT_BYTES, MAX_STATISTIC_LENGTH,
};
pub use lines::{Lines, count_lines};
pub use numerals::number_in;
pub use queries::{DistKind, Form, Query};
pub use script::{Queries, Script, ScriptError, read_script};
pub use statistics::statistic_name;
pub use words::read_word;

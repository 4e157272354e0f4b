// Queries.
ghost use Rattle.std.specs.Prelude.{◌≡◌, ◌≤◌, map, IfOk};
ghost use Rattle.av_perm.specs.Lists.{same};
ghost use Rattle.av_text.specs.Queries.{form_name, form_named, IsLength, IsRank, IsListed, IsSeed, IsDrawn, IsStatisticLength, IsStatisticValue, IsDistributionLength, length_in, rank_in, listed_in, seed_in, drawn_in, statistic_length_in, statistic_value_in, distribution_length_in, is_from, is_for, query_with_one, query_with_two, query_with_three, query_with_four, query_with_five, query_with, query_of, IsInRange};

use crate::Kind;
use crate::limits::{
    DEFAULT_LISTED, MAX_DISTRIBUTION_LENGTH, MAX_DRAWN, MAX_LISTED, MAX_STATISTIC_LENGTH,
};
use crate::numerals::number_in;
use crate::statistics::{dist_kind_in, statistic_in};
use crate::words::read_word;
use av_perm::{MAX_LENGTH, MAX_STATISTIC, Perm, StatKind};

/// The forms of a query, each named by its first token.
#[derive(Clone, Copy, Debug, PartialEq, Eq)]
pub enum Form {
    /// `count N`, with N from 1 to 160.
    Count,
    /// `counts N`, with N from 1 to 160.
    Counts,
    /// `list N`, with N from 1 to 160, and after it `from R`, with R from 0 to 2^128 - 1, and `for K`, with K from 1 to
    /// 1,000,000: each may be left out.
    List,
    /// `unrank N R`, with N from 1 to 160 and R from 0 to 2^128 - 1.
    Unrank,
    /// `rank W`, with W a word of at most 160 entries.
    Rank,
    /// `tree W`, with W a word of at most 160 entries.
    Tree,
    /// `draw N S K`, with N from 1 to 160, S from 0 to 2^64 - 1 and K from 1 to 100,000.
    Draw,
    /// `drawstat T N S K`, with T one of `inv`, `des` and `lrm`, and N, S and K as in `draw`.
    DrawStat,
    /// `stat T N`, with T as in `drawstat` and N from 1 to 12.
    Stat,
    /// `pick T V N`, with T and N as in `stat` and V from 0 to 12,720.
    Pick,
    /// `dist T N`, with T one of `inv` and `des` and N from 1 to 24.
    Dist,
}

/// A statistic of words that a query of a distribution names.
#[derive(Clone, Copy, Debug, PartialEq, Eq)]
pub enum DistKind {
    /// Inversions: pairs of places s < t with the greater entry at s.
    Inv,
    /// Descents: places whose entry is greater than the next.
    Des,
}

/// A question about the class of a script.
#[derive(Drop)]
pub enum Query {
    /// How many words of length `n` the class has.
    Count {
        /// The length, from 1 to 160.
        n: u8,
    },
    /// How many words of each length from 1 to `n` the class has.
    Counts {
        /// The greatest length, from 1 to 160.
        n: u8,
    },
    /// The words of length `n` of the class, in order of rank.
    List {
        /// The length, from 1 to 160.
        n: u8,
        /// The rank of the first one.
        start: u128,
        /// How many at most, from 1 to 1,000,000.
        many: u32,
    },
    /// The word of length `n` and rank `r` of the class.
    Unrank {
        /// The length, from 1 to 160.
        n: u8,
        /// The rank.
        r: u128,
    },
    /// The rank of a word in the class.
    Rank {
        /// The word, of length 1 to 160.
        word: Perm,
    },
    /// How a word is put together from simple ones, in the class or not.
    Tree {
        /// The word, of length 1 to 160.
        word: Perm,
    },
    /// Words of length `n` of the class, drawn by a seed.
    Draw {
        /// The length, from 1 to 160.
        n: u8,
        /// The seed.
        seed: u64,
        /// How many are drawn, from 1 to 100,000.
        many: u32,
    },
    /// The least, the greatest and the sum of a statistic over words of length `n` of the class, drawn by a seed.
    DrawStat {
        /// The statistic.
        kind: StatKind,
        /// The length, from 1 to 160.
        n: u8,
        /// The seed.
        seed: u64,
        /// How many are drawn, from 1 to 100,000.
        many: u32,
    },
    /// For each value of a statistic, how many words of length `n` of the class have it.
    Stat {
        /// The statistic.
        kind: StatKind,
        /// The length, from 1 to 12.
        n: u8,
    },
    /// The words of length `n` of the class whose statistic has a value, in order of rank.
    Pick {
        /// The statistic.
        kind: StatKind,
        /// The value, from 0 to 12,720.
        value: u64,
        /// The length, from 1 to 12.
        n: u8,
    },
    /// For each value of a statistic, how many words of length `n` of the class have it, from the system and not from a list of
    /// the words.
    Dist {
        /// The statistic.
        kind: DistKind,
        /// The length, from 1 to 24.
        n: u8,
    },
}

const FORMS: [Form; 11] = [
    Form::Count,
    Form::Counts,
    Form::List,
    Form::Unrank,
    Form::Rank,
    Form::Tree,
    Form::Draw,
    Form::DrawStat,
    Form::Stat,
    Form::Pick,
    Form::Dist,
];

impl Form {
    /// The token that names the form.
    pub fn name(self) -> &'static [u8]
        ensures { result.now ≡ form_name self }
    {
        match self {
            Form::Count => b"count",
            Form::Counts => b"counts",
            Form::List => b"list",
            Form::Unrank => b"unrank",
            Form::Rank => b"rank",
            Form::Tree => b"tree",
            Form::Draw => b"draw",
            Form::DrawStat => b"drawstat",
            Form::Stat => b"stat",
            Form::Pick => b"pick",
            Form::Dist => b"dist",
        }
    }

    /// The form that a token names.
    fn named(token: &[u8]) -> Option<Form>
        ensures { result ≡ form_named token.now }
    {
        FORMS.iter().copied().find(|form| form.name() == token)
    }
}

/// A length.
fn length_in(token: &[u8]) -> Result<u8, Kind>
    ensures value { result ≡ length_in token.now }
    ensures range { IfOk result IsLength }
{
    Ok(number_in(token, 1, MAX_LENGTH as u128)? as u8)
}

/// A rank.
fn rank_in(token: &[u8]) -> Result<u128, Kind>
    ensures value { result ≡ rank_in token.now }
    ensures range { IfOk result IsRank }
{
    number_in(token, 0, u128::MAX)
}

/// How many words are listed at most.
fn listed_in(token: &[u8]) -> Result<u32, Kind>
    ensures value { result ≡ listed_in token.now }
    ensures range { IfOk result IsListed }
{
    Ok(number_in(token, 1, MAX_LISTED as u128)? as u32)
}

/// A seed.
fn seed_in(token: &[u8]) -> Result<u64, Kind>
    ensures value { result ≡ seed_in token.now }
    ensures range { IfOk result IsSeed }
{
    Ok(number_in(token, 0, u64::MAX as u128)? as u64)
}

/// How many words are drawn.
fn drawn_in(token: &[u8]) -> Result<u32, Kind>
    ensures value { result ≡ drawn_in token.now }
    ensures range { IfOk result IsDrawn }
{
    Ok(number_in(token, 1, MAX_DRAWN as u128)? as u32)
}

/// A length of words of which each is asked for a statistic.
fn statistic_length_in(token: &[u8]) -> Result<u8, Kind>
    ensures value { result ≡ statistic_length_in token.now }
    ensures range { IfOk result IsStatisticLength }
{
    Ok(number_in(token, 1, MAX_STATISTIC_LENGTH as u128)? as u8)
}

/// A length of words of whose statistics a distribution is asked for.
fn distribution_length_in(token: &[u8]) -> Result<u8, Kind>
    ensures value { result ≡ distribution_length_in token.now }
    ensures range { IfOk result IsDistributionLength }
{
    Ok(number_in(token, 1, MAX_DISTRIBUTION_LENGTH as u128)? as u8)
}

/// A value of a statistic.
fn statistic_value_in(token: &[u8]) -> Result<u64, Kind>
    ensures value { result ≡ statistic_value_in token.now }
    ensures range { IfOk result IsStatisticValue }
{
    Ok(number_in(token, 0, MAX_STATISTIC as u128)? as u64)
}

/// Whether a rank stands after the token.
fn is_from(token: &[u8]) -> bool
    ensures { result ≡ is_from token.now }
{
    token == b"from".as_slice()
}

/// Whether a number of words stands after the token.
fn is_for(token: &[u8]) -> bool
    ensures { result ≡ is_for token.now }
{
    token == b"for".as_slice()
}

/// The query of a form with one argument.
#[tactic(auto, unfolding(crate::specs::Queries::query_with_one))]
fn query_with_one(form: Form, a: &[u8]) -> Result<Query, Kind>
    ensures value { result ≡ query_with_one form a.now }
    ensures range { IfOk result IsInRange }
{
    match form {
        Form::Count => Ok(Query::Count { n: length_in(a)? }),
        Form::Counts => Ok(Query::Counts { n: length_in(a)? }),
        Form::List => Ok(Query::List {
            n: length_in(a)?,
            start: 0,
            many: DEFAULT_LISTED,
        }),
        Form::Rank => Ok(Query::Rank {
            word: read_word(a, MAX_LENGTH)?,
        }),
        Form::Tree => Ok(Query::Tree {
            word: read_word(a, MAX_LENGTH)?,
        }),
        _ => Err(Kind::UnknownQuery),
    }
}

/// The query of a form with two arguments.
#[tactic(auto, unfolding(crate::specs::Queries::query_with_two))]
fn query_with_two(form: Form, a: &[u8], b: &[u8]) -> Result<Query, Kind>
    ensures value { result ≡ query_with_two form a.now b.now }
    ensures range { IfOk result IsInRange }
{
    match form {
        Form::Unrank => Ok(Query::Unrank {
            n: length_in(a)?,
            r: rank_in(b)?,
        }),
        Form::Stat => Ok(Query::Stat {
            kind: statistic_in(a)?,
            n: statistic_length_in(b)?,
        }),
        Form::Dist => Ok(Query::Dist {
            kind: dist_kind_in(a)?,
            n: distribution_length_in(b)?,
        }),
        _ => Err(Kind::UnknownQuery),
    }
}

/// The query of a form with three arguments.
#[tactic(auto, unfolding(crate::specs::Queries::query_with_three))]
fn query_with_three(form: Form, a: &[u8], b: &[u8], c: &[u8]) -> Result<Query, Kind>
    ensures value { result ≡ query_with_three form a.now b.now c.now }
    ensures range { IfOk result IsInRange }
{
    match form {
        Form::List if is_from(b) => Ok(Query::List {
            n: length_in(a)?,
            start: rank_in(c)?,
            many: DEFAULT_LISTED,
        }),
        Form::List if is_for(b) => Ok(Query::List {
            n: length_in(a)?,
            start: 0,
            many: listed_in(c)?,
        }),
        Form::Draw => Ok(Query::Draw {
            n: length_in(a)?,
            seed: seed_in(b)?,
            many: drawn_in(c)?,
        }),
        Form::Pick => Ok(Query::Pick {
            kind: statistic_in(a)?,
            value: statistic_value_in(b)?,
            n: statistic_length_in(c)?,
        }),
        _ => Err(Kind::UnknownQuery),
    }
}

/// The query of a form with four arguments.
#[tactic(auto, unfolding(crate::specs::Queries::query_with_four))]
fn query_with_four(form: Form, a: &[u8], b: &[u8], c: &[u8], d: &[u8]) -> Result<Query, Kind>
    ensures value { result ≡ query_with_four form a.now b.now c.now d.now }
    ensures range { IfOk result IsInRange }
{
    match form {
        Form::DrawStat => Ok(Query::DrawStat {
            kind: statistic_in(a)?,
            n: length_in(b)?,
            seed: seed_in(c)?,
            many: drawn_in(d)?,
        }),
        _ => Err(Kind::UnknownQuery),
    }
}

/// The query of a form with five arguments.
#[tactic(auto, unfolding(crate::specs::Queries::query_with_five))]
fn query_with_five(
    form: Form,
    a: &[u8],
    b: &[u8],
    c: &[u8],
    d: &[u8],
    e: &[u8],
) -> Result<Query, Kind>
    ensures value { result ≡ query_with_five form a.now b.now c.now d.now e.now }
    ensures range { IfOk result IsInRange }
{
    match form {
        Form::List if is_from(b) && is_for(d) => Ok(Query::List {
            n: length_in(a)?,
            start: rank_in(c)?,
            many: listed_in(e)?,
        }),
        _ => Err(Kind::UnknownQuery),
    }
}

/// The query of a form with these arguments. No form has another number of them.
#[tactic(auto, unfolding(crate::specs::Queries::query_with))]
fn query_with(form: Form, arguments: &[&[u8]]) -> Result<Query, Kind>
    ensures value { result ≡ query_with form (map (λ t. t.now) arguments.now) }
    ensures range { IfOk result IsInRange }
{
    match arguments {
        [a] => query_with_one(form, a),
        [a, b] => query_with_two(form, a, b),
        [a, b, c] => query_with_three(form, a, b, c),
        [a, b, c, d] => query_with_four(form, a, b, c, d),
        [a, b, c, d, e] => query_with_five(form, a, b, c, d, e),
        _ => Err(Kind::UnknownQuery),
    }
}

/// The query of a line's first token and those that follow it.
#[tactic(auto, unfolding(crate::specs::Queries::query_of))]
pub fn query_of(first: &[u8], arguments: &[&[u8]]) -> Result<Query, Kind>
    ensures value { result ≡ query_of first.now (map (λ t. t.now) arguments.now) }
    ensures range { IfOk result IsInRange }
{
    let form = Form::named(first).ok_or(Kind::UnknownQuery)?;
    query_with(form, arguments)
}

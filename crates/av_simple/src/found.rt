// What a search found.
ghost use Rattle.std.specs.Prelude.{◌≡◌, ◌≢◌, ◌≤◌, IfOk, ℕ, None};
ghost use Rattle.av_perm.specs.Gap.{simples};
ghost use Rattle.av_simple.specs.Searched.{Searched, IsFound, gap_of, outcome_of, last_of, roots_of};

use crate::limits::LEAST_LIMIT;
use crate::outcome::Outcome;
use av_perm::{MAX_ROOT_LENGTH, Memory, Words};
use std::alloc::Global;
use std::marker::Model;

/// The simple words of a class by length, up to one above the gap or to the limit. It is seen as what was asked, the
/// class and the limit, which determine the rest.
#[derive(Drop)]
pub struct Found {
    basis: Words,
    limit: usize,
    levels: Vec<Words>,
    outcome: Outcome,
}

impl Model for Found {
    ghost use Rattle.av_simple.specs.Searched.{Searched, IsFound};

    ghost Value = { Searched };

    ghost view = { λ f. record { basis = f.basis; limit = f.limit } };

    ghost invariant = { λ f. IsFound (record { basis = f.basis; limit = f.limit }) f.levels.items f.outcome };
}

impl Found {
    /// What was found of this class up to this limit.
    pub(crate) fn new(basis: Words, limit: usize, levels: Vec<Words>, outcome: Outcome) -> Found
        requires { IsFound (record { basis = basis; limit = limit }) levels.items outcome }
        ensures { result ≡ record { basis = basis; limit = limit } }
    {
        Found {
            basis,
            limit,
            levels,
            outcome,
        }
    }

    /// Whether the class is settled: `Gap(g)` exactly where it has gap g within the limit.
    pub fn outcome(&self) -> Outcome
        ensures { result ≡ outcome_of self.now }
    {
        self.outcome
    }

    /// The basis of the class.
    pub fn basis(&self) -> &Words
        ensures { result.now ≡ self.now.basis }
    {
        &self.basis
    }

    /// The limit, from `LEAST_LIMIT` to `MAX_ROOT_LENGTH`.
    pub fn limit(&self) -> usize
        ensures { result ≡ self.now.limit }
    {
        self.limit
    }

    /// The greatest length searched, from `LEAST_LIMIT` to `MAX_ROOT_LENGTH`: one above the gap, or the limit where there is none.
    pub fn last(&self) -> usize
        ensures value { result ≡ last_of self.now }
        ensures low { LEAST_LIMIT ≤ result }
        ensures high { result ≤ MAX_ROOT_LENGTH }
    {
        match self.outcome {
            Outcome::Gap(gap) => gap + 1,
            Outcome::Unsettled => self.limit,
        }
    }

    /// The simple words of length `m` of the class, from 4 to the greatest length searched, in lexicographic order.
    pub fn level(&self, m: usize) -> &Words
        requires low { 4 ≤ m }
        requires high { m ≤ last_of self.now }
        ensures { result.now ≡ simples self.now.basis m }
    {
        &self.levels[m - 4]
    }

    /// All simple words of the class of length below the gap, in shortlex order, where there is a gap.
    pub fn roots(&self, alloc: Global) -> Result<Words, Memory>
        requires { gap_of self.now ≢ None }
        ensures { IfOk result (λ roots. roots ≡ roots_of self.now) }
    {
        let mut roots = Words::empty(alloc);
        for level in &self.levels {
            for word in level.as_slice() {
                roots.push(word.copy())?;
            }
        }
        Ok(roots)
    }
}

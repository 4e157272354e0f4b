// The table of the numbers of words by statistic.
ghost use Rattle.std.specs.Prelude.{◌≡◌, ◌<◌, ◌≤◌, IfOk, length};
ghost use Rattle.av_sys.specs.Terms.{IsWellFormed};
ghost use Rattle.av_sys.specs.Exact.{NamedUpTo};
ghost use Rattle.av_dist.specs.Distributions.{number_with, dist};

use crate::bars::gather;
use crate::levels::Levels;
use crate::terms::level_of;
use av_bars::DistBars;
use av_perm::Memory;
use av_sys::System;
use av_text::{DistKind, MAX_DISTRIBUTION_LENGTH};
use std::alloc::Global;
use std::marker::Model;

/// How many derivation trees of each equation and size have a value with each number of inversions, or of descents.
///
/// It stands for one system, one kind of statistic and one largest size. It keeps, for each equation, the numbers of n * (n - 1)
/// / 2 + 1 values at each size n: 2,324 numbers of 16 bytes at most.
#[derive(Drop)]
pub struct DistTable {
    levels: Levels,
}

impl Model for DistTable {
    ghost use Rattle.av_dist.specs.Tables.{Stands, IsTable};

    ghost Value = { Stands };

    ghost view = { λ t. t.levels };

    ghost invariant = { λ t. IsTable t.levels };
}

impl DistTable {
    /// The table of a well-formed system for the sizes from 1 to n, which is at most `MAX_DISTRIBUTION_LENGTH`. Up to that size
    /// the values of the trees of each equation are the words that its name describes, each of one tree, so no number reaches
    /// 2^128. `Memory` comes only where memory is refused.
    pub fn new(
        alloc: Global,
        system: &System,
        kind: DistKind,
        n: usize,
    ) -> Result<DistTable, Memory>
        requires formed { IsWellFormed system.now }
        requires least { 1 ≤ n }
        requires most { n ≤ MAX_DISTRIBUTION_LENGTH }
        requires named { NamedUpTo system.now n }
        ensures system { IfOk result (λ t. t.system ≡ system.now) }
        ensures kind { IfOk result (λ t. t.kind ≡ kind) }
        ensures largest { IfOk result (λ t. t.largest ≡ n) }
    {
        let mut levels = Levels::empty(alloc, system, kind);
        for below in 0..n {
            let level = level_of(alloc, system, &levels, below + 1)?;
            levels.push(level)?;
        }
        Ok(DistTable { levels })
    }

    /// How many derivation trees of an equation and a size have a value with this statistic. It takes no memory.
    pub fn get(&self, eq: usize, size: usize, value: u64) -> u128
        requires eq { eq < length self.now.system.equations }
        requires least { 1 ≤ size }
        requires most { size ≤ self.now.largest }
        ensures { result ≡ number_with self.now.kind self.now.system eq size value }
    {
        self.levels.row(eq, size).get(value as usize)
    }
}

/// The distribution of the table's statistic over the members of a length, the values of the derivation trees of equation 0:
/// each value that some of them have, in increasing order, with how many have it. `Memory` comes only where memory is refused.
pub fn distribution(alloc: Global, table: &DistTable, size: usize) -> Result<DistBars, Memory>
    requires least { 1 ≤ size }
    requires most { size ≤ table.now.largest }
    ensures { IfOk result (λ bars. bars ≡ dist table.now.kind table.now.system size) }
{
    gather(alloc, table.levels.row(0, size))
}

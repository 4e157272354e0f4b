// The rows of all equations, by size.
ghost use Rattle.std.specs.Prelude.{◌≡◌, ◌<◌, ◌≤◌, ◌+◌, [], ◌∷◌, ◌++◌, length, slice_index_or, OnOk};
ghost use Rattle.av_dist.specs.Kinds.{statistics_at};
ghost use Rattle.av_dist.specs.Rows.{IsRowOf, width};
ghost use Rattle.av_dist.specs.Tables.{LevelHolds};

use crate::row::Row;
use av_perm::Memory;
use av_sys::System;
use av_text::DistKind;
use std::alloc::Global;
use std::marker::Model;
use std::snapshot::Snapshot;

// A row for each equation, of one size.
#[derive(Drop)]
pub struct Level {
    rows: Vec<Row>,
}

impl Model for Level {
    ghost use Rattle.std.specs.Prelude.{ℕ, List};

    ghost Value = { List (List ℕ) };

    ghost view = { λ l. l.rows.items };
}

impl Level {
    // No rows. It takes no memory.
    pub fn empty(alloc: Global) -> Level
        ensures { result ≡ [] }
    {
        Level {
            rows: Vec::new(alloc),
        }
    }

    // The row of an equation.
    fn row(&self, eq: usize) -> &Row
        requires { eq < length self.now }
        ensures { result.now ≡ slice_index_or self.now eq [] }
    {
        &self.rows[eq]
    }

    // Appends a row.
    pub fn push(&mut self, row: Row) -> Result<(), Memory>
        ensures { OnOk result (self.new ≡ self.old ++ row ∷ []) }
    {
        match self.rows.push(row) {
            Ok(()) => Ok(()),
            Err(_) => Err(Memory),
        }
    }
}

// The rows of each size from 1 on, for one system and one kind.
#[derive(Drop)]
pub struct Levels {
    of: Snapshot<System>,
    kind: DistKind,
    items: Vec<Level>,
}

impl Model for Levels {
    ghost use Rattle.std.specs.Prelude.{length};
    ghost use Rattle.av_dist.specs.Tables.{Stands, LevelsHold};

    ghost Value = { Stands };

    ghost view = { λ l. record { system = l.of.value; kind = l.kind; largest = length l.items.items } };

    ghost invariant = { λ l. LevelsHold l.kind l.of.value l.items.items };
}

impl Levels {
    // No rows. It takes no memory.
    pub fn empty(alloc: Global, system: &System, kind: DistKind) -> Levels
        ensures system { result.system ≡ system.now }
        ensures kind { result.kind ≡ kind }
        ensures largest { result.largest ≡ 0 }
    {
        Levels {
            of: Snapshot::of(system),
            kind,
            items: Vec::new(alloc),
        }
    }

    // The statistic.
    pub fn kind(&self) -> DistKind
        ensures { result ≡ self.now.kind }
    {
        self.kind
    }

    // The row of an equation and a size.
    pub fn row(&self, eq: usize, size: usize) -> &Row
        requires eq { eq < length self.now.system.equations }
        requires least { 1 ≤ size }
        requires most { size ≤ self.now.largest }
        ensures row { IsRowOf (statistics_at self.now.kind self.now.system eq size) result.now }
        ensures wide { length result.now ≡ width size }
    {
        self.items[size - 1].row(eq)
    }

    // Appends the rows of the next size.
    pub fn push(&mut self, level: Level) -> Result<(), Memory>
        requires { LevelHolds self.old.kind self.old.system (self.old.largest + 1) level }
        ensures { OnOk result (self.new ≡ record self.old { largest = self.old.largest + 1 }) }
    {
        match self.items.push(level) {
            Ok(()) => Ok(()),
            Err(_) => Err(Memory),
        }
    }
}

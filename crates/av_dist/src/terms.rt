// The numbers of the words of a term, of an equation, and of all equations.
ghost use Rattle.std.specs.Prelude.{◌≡◌, ◌<◌, ◌≤◌, ◌+◌, ◌==◌, cond, [], ◌∷◌, IfOk, OnOk, length};
ghost use Rattle.av_sys.specs.Terms.{IsWellFormed, terms_at, term_at};
ghost use Rattle.av_dist.specs.Kinds.{statistics_at};
ghost use Rattle.av_dist.specs.Rows.{how_often, IsRowOf, HasRoomFor, Adds, width};
ghost use Rattle.av_dist.specs.Tables.{HasFewTrees, LevelHolds};
ghost use Rattle.av_dist.specs.Totals.{term_statistics};

use crate::levels::{Level, Levels};
use crate::nodes::{Node, add_node};
use crate::row::Row;
use av_count::{term, terms};
use av_perm::Memory;
use av_sys::{System, Term};
use av_text::MAX_DISTRIBUTION_LENGTH;
use std::alloc::Global;

// Adds the number of the point, where the size is 1.
fn add_point(size: usize, out: &mut Row)
    requires some { 1 ≤ length out.old }
    requires room { HasRoomFor (how_often (cond (size == 1) (0 ∷ []) [])) out.old }
    ensures { Adds (how_often (cond (size == 1) (0 ∷ []) [])) out.old out.new }
{
    if size == 1 {
        out.add_one();
    }
}

// Adds the numbers of the words of a term, one size greater than the rows.
fn add_term(
    alloc: Global,
    system: &System,
    levels: &Levels,
    eq: usize,
    t: usize,
    size: usize,
    out: &mut Row,
) -> Result<(), Memory>
    requires stands { levels.now.system ≡ system.now }
    requires formed { IsWellFormed system.now }
    requires eq { eq < length system.now.equations }
    requires t { t < length (terms_at system.now eq) }
    requires bounded { HasFewTrees system.now levels.now.largest }
    requires size { size ≡ levels.now.largest + 1 }
    requires most { size ≤ MAX_DISTRIBUTION_LENGTH }
    requires some { 1 ≤ length out.old }
    requires room { HasRoomFor (how_often (term_statistics levels.now size (term_at system.now eq t))) out.old }
    ensures { OnOk result (Adds (how_often (term_statistics levels.now size (term_at system.now eq t))) out.old out.new) }
{
    match term(system, eq, t) {
        Term::Point => {
            add_point(size, out);
            Ok(())
        }
        Term::Node { root, children } => {
            let node = Node {
                levels,
                root,
                children,
            };
            add_node(alloc, &node, size, out)
        }
    }
}

// The row of an equation, one size greater than the rows.
fn row_of(
    alloc: Global,
    system: &System,
    levels: &Levels,
    eq: usize,
    size: usize,
) -> Result<Row, Memory>
    requires stands { levels.now.system ≡ system.now }
    requires formed { IsWellFormed system.now }
    requires eq { eq < length system.now.equations }
    requires bounded { HasFewTrees system.now size }
    requires size { size ≡ levels.now.largest + 1 }
    requires most { size ≤ MAX_DISTRIBUTION_LENGTH }
    ensures wide { IfOk result (λ r. length r ≡ width size) }
    ensures row { IfOk result (IsRowOf (statistics_at levels.now.kind system.now eq size)) }
{
    let mut out = Row::zeros(alloc, size * (size - 1) / 2 + 1)?;
    for t in 0..terms(system, eq) {
        add_term(alloc, system, levels, eq, t, size, &mut out)?;
    }
    Ok(out)
}

// The rows of all equations, one size greater than the rows.
pub fn level_of(
    alloc: Global,
    system: &System,
    levels: &Levels,
    size: usize,
) -> Result<Level, Memory>
    requires stands { levels.now.system ≡ system.now }
    requires formed { IsWellFormed system.now }
    requires bounded { HasFewTrees system.now size }
    requires size { size ≡ levels.now.largest + 1 }
    requires most { size ≤ MAX_DISTRIBUTION_LENGTH }
    ensures { IfOk result (λ l. LevelHolds levels.now.kind system.now size l) }
{
    let mut level = Level::empty(alloc);
    for eq in 0..system.equations.len() {
        level.push(row_of(alloc, system, levels, eq, size)?)?;
    }
    Ok(level)
}

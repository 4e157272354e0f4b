// What becomes of a box: the walk ends there, or the box is cut.
ghost use Rattle.std.specs.Prelude.{◌≡◌, ◌<◌, ◌≤◌, ℕ, List, All, Option, Some, min, length, take, reverse, IfOk};
ghost use Rattle.av_name.specs.declared.constraints.Known.{Known};
ghost use Rattle.av_split.specs.declared.cells.Cell.{Cell};
ghost use Rattle.av_split.specs.Split.{all_of, demand_known, demands_known, Demand};
ghost use Rattle.av_split.specs.Cells.{known_at, HaveCellsOf, AreSafe};
ghost use Rattle.av_walk.specs.Walk.{term_known};
ghost use Rattle.av_walk.specs.Sifts.{AreCellsOfTerms, IsSifted, picked, AreAlive};
ghost use Rattle.av_walk.specs.Paths.{settled, IsKnownBy, IsSafeBy, Inherits};
ghost use Rattle.av_walk.specs.Looks.{IsLook, AreAll, cut_or, Looks};

use crate::sifting::{Sifted, sift};
use crate::terms::CellTerms;
use av_perm::Memory;
use av_split::cells::{Cell, CellDemands};
use av_split::path::{Path, Turn};
use av_split::rows::Row;
use av_split::steps::{Step, rows_step};
use std::alloc::Global;

// What is known of a box that was cut.
#[derive(Drop)]
pub enum State {
    // Neither is some demand broken nor are all done: so many are, from the first on.
    Open { from: usize },
    // All demands are done, or else one is broken; the terms with these numbers may still have blocks there.
    Settled { done: bool, live: Vec<usize> },
}

// How a box ends.
#[derive(Clone, Copy)]
pub enum Kind {
    // Its terms are right.
    Good,
    // All demands are done, and no term is left.
    Bare,
    // Two terms are inside.
    Twice,
    // A term is inside, and a demand broken.
    Extra,
}

// What becomes of a box.
#[derive(Drop)]
pub enum Look {
    Ends(Kind),
    Cut { cell: Cell, state: State },
}

// The cut by the first open question of the terms, or the end where there is none.
fn cut_or(next: Option<Cell>, state: State, kind: Kind) -> Look
    ensures { result ≡ cut_or next state kind }
{
    match next {
        Some(cell) => Look::Cut { cell, state },
        None => Look::Ends(kind),
    }
}

// Where all demands are done, or else one is broken, by what was found of the terms.
fn settled_by(done: bool, sifted: Sifted) -> Look
    requires { sifted.inside ≤ 2 }
    ensures { (n : ℕ) → sifted.inside ≡ min 2 n → Looks done n sifted result }
{
    let live = sifted.live;
    let state = State::Settled { done, live };
    if done {
        match sifted.inside {
            0 => cut_or(sifted.next, state, Kind::Bare),
            1 => cut_or(sifted.next, state, Kind::Good),
            _ => Look::Ends(Kind::Twice),
        }
    } else if sifted.inside == 0 {
        cut_or(sifted.next, state, Kind::Good)
    } else {
        Look::Ends(Kind::Extra)
    }
}

// The same, by the terms that may still have blocks there.
fn settled_look(
    alloc: Global,
    rows: &[Row],
    terms: &CellTerms,
    done: bool,
    live: &[usize],
) -> Result<Look, Memory>
    requires cells { AreCellsOfTerms rows.now terms.now }
    requires live { All (λ i. i < length terms.now) live.now }
    ensures { IfOk result (λ look. (ds : List (Demand Cell)) → demands_known (known_at rows.now) ds ≡ settled done → AreAlive (term_known (known_at rows.now)) terms.now (picked terms.now live.now) → IsLook (known_at rows.now) ds terms.now look) }
{
    Ok(settled_by(done, sift(alloc, rows, terms, live)?))
}

// Where so many demands are done.
fn open_look(
    alloc: Global,
    rows: &[Row],
    demands: &CellDemands,
    terms: &CellTerms,
    all: &[usize],
    from: usize,
    last: Option<bool>,
) -> Result<Look, Memory>
    requires cells { HaveCellsOf rows.now demands.now }
    requires terms { AreCellsOfTerms rows.now terms.now }
    requires all { AreAll terms.now all.now }
    requires within { from ≤ length demands.now }
    requires done { all_of (demand_known (known_at rows.now)) (take from demands.now) ≡ Known.Inside }
    requires safe { AreSafe last (demand_known (known_at rows.now)) demands.now }
    ensures { IfOk result (λ look. IsLook (known_at rows.now) demands.now terms.now look) }
{
    let (first, step) = rows_step(rows, from, last, demands);
    match step {
        Step::Holds => settled_look(alloc, rows, terms, true, all),
        Step::Fails => settled_look(alloc, rows, terms, false, all),
        Step::Asks(cell) => Ok(Look::Cut {
            cell,
            state: State::Open { from: first },
        }),
    }
}

// What becomes of a part of a box that was cut, by what was known of that box.
fn part_look(
    alloc: Global,
    rows: &[Row],
    turn: &Turn<State>,
    demands: &CellDemands,
    terms: &CellTerms,
    all: &[usize],
) -> Result<Look, Memory>
    requires cells { HaveCellsOf rows.now demands.now }
    requires terms { AreCellsOfTerms rows.now terms.now }
    requires all { AreAll terms.now all.now }
    requires known { IsKnownBy (known_at rows.now) demands.now terms.now turn.now.state }
    requires safe { IsSafeBy (known_at rows.now) demands.now turn.now.required turn.now.state }
    ensures { IfOk result (λ look. IsLook (known_at rows.now) demands.now terms.now look) }
{
    match &turn.state {
        State::Open { from } => {
            let last = Some(turn.required);
            open_look(alloc, rows, demands, terms, all, *from, last)
        }
        State::Settled { done, live } => settled_look(alloc, rows, terms, *done, live),
    }
}

// What becomes of the box that a path leads to, by what was known before the last cut.
pub fn look_at(
    alloc: Global,
    path: &Path<State>,
    demands: &CellDemands,
    terms: &CellTerms,
    all: &[usize],
) -> Result<Look, Memory>
    requires cells { HaveCellsOf path.now.rows.items demands.now }
    requires terms { AreCellsOfTerms path.now.rows.items terms.now }
    requires all { AreAll terms.now all.now }
    requires known { Inherits (known_at path.now.rows.items) demands.now terms.now (reverse path.now.turns.items) }
    ensures { IfOk result (λ look. IsLook (known_at path.now.rows.items) demands.now terms.now look) }
{
    let rows: &[Row] = &path.rows;
    match path.turns.last() {
        None => open_look(alloc, rows, demands, terms, all, 0, None),
        Some(turn) => part_look(alloc, rows, turn, demands, terms, all),
    }
}

// What is known of the demands in a box, and what to ask next.
ghost use Rattle.std.specs.Prelude.{◌≡◌, ◌<◌, ◌≤◌, ◌+◌, Some, Option, true, false, length, reverse, take, drop};
ghost use Rattle.av_name.specs.declared.constraints.Known.{Known};
ghost use Rattle.av_split.specs.Split.{all_of, some_of, demand_known, demands_known, first_open, next_question};
ghost use Rattle.av_split.specs.Cells.{known_at, IsCellOf, AreCellsOf, HasCellsOf, HaveCellsOf, IsStep, first_cell, IsFirst, AreSafe, or_first, step_or, turned_step};
ghost use Rattle.av_split.specs.Walk.{done_before, last_cut};
ghost use Rattle.av_split.specs.declared.cells.Cell.{Cell};

use crate::cells::{Cell, CellDemand, CellDemands, Cells};
use crate::path::Path;
use crate::rows::Row;
use av_name::Known;

/// What is known of questions together.
#[derive(Clone, Copy)]
pub enum Step {
    /// It holds.
    Holds,
    /// It doesn't.
    Fails,
    /// It is open, and so is this cell, the first.
    Asks(Cell),
}

/// What is known of a cell.
pub fn known_at(rows: &[Row], cell: Cell) -> Known
    requires { IsCellOf rows.now cell }
    ensures { result ≡ known_at rows.now cell }
{
    rows[cell.child].get(cell.pattern).known
}

/// The first of two cells.
pub fn or_first(first: Option<Cell>, cell: Cell) -> Option<Cell>
    ensures { result ≡ or_first first cell }
{
    match first {
        Some(first) => Some(first),
        None => Some(cell),
    }
}

/// The step to the first open cell, or else another.
pub fn step_or(found: Option<Cell>, step: Step) -> Step
    ensures { result ≡ step_or found step }
{
    match found {
        Some(cell) => Step::Asks(cell),
        None => step,
    }
}

// An embedding holds where all its questions do.
fn embedding_step(rows: &[Row], cells: &Cells) -> Step
    requires { AreCellsOf rows.now cells.now }
    ensures { IsStep result (all_of (known_at rows.now) cells.now) (first_open (known_at rows.now) (λ cell. Some cell) cells.now) }
{
    let mut found = None;
    for cell in cells.as_slice() {
        match known_at(rows, *cell) {
            Known::Inside => {}
            Known::Outside => return Step::Fails,
            Known::Open => found = or_first(found, *cell),
        }
    }
    step_or(found, Step::Holds)
}

// Whether some embedding of a demand holds.
fn some_step(rows: &[Row], demand: &CellDemand) -> Step
    requires { HasCellsOf rows.now demand.now }
    ensures { IsStep result (some_of (all_of (known_at rows.now)) demand.now.embeddings) (first_open (all_of (known_at rows.now)) (λ m. first_open (known_at rows.now) (λ cell. Some cell) m) demand.now.embeddings) }
{
    let mut found = None;
    for cells in demand.as_slice() {
        match embedding_step(rows, cells) {
            Step::Holds => return Step::Holds,
            Step::Fails => {}
            Step::Asks(cell) => found = or_first(found, cell),
        }
    }
    step_or(found, Step::Fails)
}

// A demand is done where some embedding is required and holds, or none is and none holds.
fn demand_step(rows: &[Row], demand: &CellDemand) -> Step
    requires { HasCellsOf rows.now demand.now }
    ensures { IsStep result (demand_known (known_at rows.now) demand.now) (first_cell rows.now demand.now) }
{
    turned(demand.is_required(), some_step(rows, demand))
}

// The step where it is required, or the opposite.
fn turned(required: bool, step: Step) -> Step
    ensures { result ≡ turned_step required step }
{
    if required {
        return step;
    }
    match step {
        Step::Holds => Step::Fails,
        Step::Fails => Step::Holds,
        Step::Asks(cell) => Step::Asks(cell),
    }
}

// The step of the first demand that isn't done, from number `from` on, with its number; after the last one `Holds`.
fn first_step(rows: &[Row], demands: &CellDemands, from: usize) -> (usize, Step)
    requires cells { HaveCellsOf rows.now demands.now }
    requires within { from ≤ length demands.now }
    requires done { all_of (demand_known (known_at rows.now)) (take from demands.now) ≡ Known.Inside }
    ensures within { result.0 ≤ length demands.now }
    ensures done { all_of (demand_known (known_at rows.now)) (take result.0 demands.now) ≡ Known.Inside }
    ensures step { IsFirst result.1 (demand_known (known_at rows.now)) (first_cell rows.now) (drop result.0 demands.now) }
{
    let demands = demands.as_slice();
    for i in from..demands.len() {
        match demand_step(rows, &demands[i]) {
            Step::Holds => {}
            Step::Fails => return (i, Step::Fails),
            Step::Asks(cell) => return (i, Step::Asks(cell)),
        }
    }
    (demands.len(), Step::Holds)
}

// Whether a demand is broken.
fn is_broken(rows: &[Row], demand: &CellDemand) -> bool
    requires { HasCellsOf rows.now demand.now }
    ensures broken { result ≡ true → demand_known (known_at rows.now) demand.now ≡ Known.Outside }
    ensures whole { result ≡ false → demand_known (known_at rows.now) demand.now ≡ Known.Outside → ⊥ }
{
    match demand_step(rows, demand) {
        Step::Holds => false,
        Step::Fails => true,
        Step::Asks(_) => false,
    }
}

// Whether a demand to contain a word, or to avoid one, can't be broken.
fn is_safe(last: Option<bool>, required: bool) -> bool
    ensures { result ≡ true → last ≡ Some required }
{
    match last {
        Some(kind) => kind == required,
        None => false,
    }
}

// Whether some demand after number `from` is broken.
fn some_broken(rows: &[Row], demands: &CellDemands, from: usize, last: Option<bool>) -> bool
    requires cells { HaveCellsOf rows.now demands.now }
    requires within { from < length demands.now }
    requires safe { AreSafe last (demand_known (known_at rows.now)) demands.now }
    ensures broken { result ≡ true → all_of (demand_known (known_at rows.now)) (drop (from + 1) demands.now) ≡ Known.Outside }
    ensures whole { result ≡ false → all_of (demand_known (known_at rows.now)) (drop (from + 1) demands.now) ≡ Known.Outside → ⊥ }
{
    let demands = demands.as_slice();
    for i in from + 1..demands.len() {
        let demand = &demands[i];
        if !is_safe(last, demand.is_required()) && is_broken(rows, demand) {
            return true;
        }
    }
    false
}

/// What is known of all demands in the box with these rows, of which so many are done, and the first open cell. A box is done
/// where all demands are. It is open where some demand is, and none is broken. The number of demands before the first that
/// isn't done comes first.
pub fn rows_step(
    rows: &[Row],
    from: usize,
    last: Option<bool>,
    demands: &CellDemands,
) -> (usize, Step)
    requires cells { HaveCellsOf rows.now demands.now }
    requires within { from ≤ length demands.now }
    requires done { all_of (demand_known (known_at rows.now)) (take from demands.now) ≡ Known.Inside }
    requires safe { AreSafe last (demand_known (known_at rows.now)) demands.now }
    ensures within { result.0 ≤ length demands.now }
    ensures done { all_of (demand_known (known_at rows.now)) (take result.0 demands.now) ≡ Known.Inside }
    ensures step { IsStep result.1 (demands_known (known_at rows.now) demands.now) (next_question (known_at rows.now) demands.now) }
{
    let (first, step) = first_step(rows, demands, from);
    match step {
        Step::Holds => (first, Step::Holds),
        Step::Fails => (first, Step::Fails),
        Step::Asks(cell) => {
            if some_broken(rows, demands, first, last) {
                (first, Step::Fails)
            } else {
                (first, Step::Asks(cell))
            }
        }
    }
}

/// The same of the box that a path leads to.
pub fn next_step(path: &Path<usize>, demands: &CellDemands) -> (usize, Step)
    requires cells { HaveCellsOf path.now.rows.items demands.now }
    requires within { done_before (reverse path.now.turns.items) ≤ length demands.now }
    requires done { all_of (demand_known (known_at path.now.rows.items)) (take (done_before (reverse path.now.turns.items)) demands.now) ≡ Known.Inside }
    requires safe { AreSafe (last_cut (reverse path.now.turns.items)) (demand_known (known_at path.now.rows.items)) demands.now }
    ensures within { result.0 ≤ length demands.now }
    ensures done { all_of (demand_known (known_at path.now.rows.items)) (take result.0 demands.now) ≡ Known.Inside }
    ensures step { IsStep result.1 (demands_known (known_at path.now.rows.items) demands.now) (next_question (known_at path.now.rows.items) demands.now) }
{
    let rows: &[Row] = &path.rows;
    match path.turns.last() {
        None => rows_step(rows, 0, None, demands),
        Some(turn) => rows_step(rows, turn.state, Some(turn.required), demands),
    }
}

// The path from the box in which nothing is avoided or required to the one that is looked at.
ghost use Rattle.std.specs.Prelude.{reverse, IfOk};
ghost use Rattle.av_split.specs.Paths.{CanEnter, IsEntered, GoesBack, AreTurns};

use crate::cells::Cell;
use crate::rows::Row;
use crate::table::Table;
use av_perm::Memory;
use std::mem;

/// A box that was cut by the question of a cell, and which of its parts is on the path.
#[derive(Drop)]
pub struct Turn<S> {
    pub cell: Cell,
    /// The row of the cell's child before the cut.
    pub row: Row,
    /// What is remembered of the box.
    pub state: S,
    /// Whether the part in which the pattern of the cell is required is on the path; the other one comes before it.
    pub required: bool,
}

/// A box, by the rows of its children, and the cuts that lead to it, with the last one last.
#[derive(Drop)]
pub struct Path<S> {
    pub rows: Vec<Row>,
    pub turns: Vec<Turn<S>>,
}

/// The path to a part of the box that it leads to.
pub fn enter<S: Drop>(
    table: &Table,
    required: bool,
    cell: Cell,
    state: S,
    path: Path<S>,
) -> Result<Path<S>, Memory>
    requires { CanEnter table.now path.rows.items cell }
    ensures { IfOk result (λ next. IsEntered required table.now cell state path.rows.items (reverse path.turns.items) next) }
{
    let mut path = path;
    let mut row = path.rows[cell.child].copy()?;
    table.settle(required, cell.pattern, &mut row);
    let old = mem::replace(&mut path.rows[cell.child], row);
    path.turns
        .push(Turn {
            cell,
            row: old,
            state,
            required,
        })
        .map_err(|_| Memory)?;
    Ok(path)
}

/// The path to the next part that is left, of the last box with one, if there is one.
pub fn back<S: Drop>(table: &Table, path: Path<S>) -> Result<Option<Path<S>>, Memory>
    requires { AreTurns table.now path.turns.items path.rows.items }
    ensures { IfOk result (λ next. GoesBack table.now (reverse path.turns.items) path.rows.items next) }
{
    let mut path = path;
    while let Some(turn) = path.turns.pop() {
        let Turn {
            cell,
            row,
            state,
            required,
        } = turn;
        path.rows[cell.child] = row;
        if !required {
            return Ok(Some(enter(table, true, cell, state, path)?));
        }
    }
    Ok(None)
}

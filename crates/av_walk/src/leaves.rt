// The leaves of a root and an equation.
ghost use Rattle.std.specs.Prelude.{◌≡◌, ◌≤◌, ◌<◌, ℕ, List, [], length, get_or, All, IfOk};
ghost use Rattle.av_perm.specs.Members.{In};
ghost use Rattle.av_sys.specs.Terms.{IsTermOf};
ghost use Rattle.av_sys.specs.declared.terms.Term.{Term};
ghost use Rattle.av_split.specs.declared.cells.Cell.{Cell};
ghost use Rattle.av_split.specs.Boxes.{demands};
ghost use Rattle.av_split.specs.Cells.{AreDemandsOf};
ghost use Rattle.av_split.specs.Marks.{box_of};
ghost use Rattle.av_walk.specs.Leaves.{leaves_of};
ghost use Rattle.av_walk.specs.Numbers.{AreTermsOf};
ghost use Rattle.av_walk.specs.Looks.{AreAll, ending_of};
ghost use Rattle.av_walk.specs.Walk.{Literal};
ghost use Rattle.av_walk.specs.Paths.{asked_of, left_of};
ghost use Rattle.av_walk.specs.Ends.{IsPlanned, Advances, CanAdvance, IsEndOf, Takes, GivesEnd};

use crate::literals::terms_of;
use crate::looking::{Kind, Look, State, look_at};
use crate::terms::CellTerms;
use av_perm::{MAX_PATTERN_LENGTH, MAX_ROOT_LENGTH, Memory, Perm};
use av_split::SplitBox;
use av_split::asked::demands_of;
use av_split::cells::CellDemands;
use av_split::path::{Path, back, enter};
use av_split::patterns::Patterns;
use av_split::rows::Row;
use av_split::table::Table;
use av_sys::{Equation, System};
use std::alloc::Global;
use std::marker::Model;

/// How the walk ends in a cell.
#[derive(Drop)]
pub enum CellEnd {
    /// A demand of the name is broken and no term has blocks in the cell, or all are done and all blocks there are one term's.
    Good,
    /// All demands are done, and no term has blocks there.
    Bare { cell: SplitBox },
    /// All demands are done, and all blocks there are those of two terms.
    Twice,
    /// A demand is broken, and all blocks there are a term's.
    Extra,
}

// What the walk goes by: the patterns, the demands of the name, and what the terms ask.
#[derive(Drop)]
pub struct Plan {
    pub table: Table,
    pub demands: CellDemands,
    pub terms: CellTerms,
    // The numbers of all terms.
    pub all: Vec<usize>,
}

/// The leaves of a root and an equation of a system that are left, in their order.
#[derive(Drop)]
pub struct Leaves<'a> {
    alloc: Global,
    system: &'a System,
    equation: &'a Equation,
    root: &'a Perm,
    plan: Plan,
    // The path to the cell that is looked at next, unless none is left.
    path: Option<Path<State>>,
}

impl<'a> Model for Leaves<'a> {
    ghost use Rattle.std.specs.Prelude.{List};
    ghost use Rattle.av_sys.specs.declared.names.Constraint.{Constraint};
    ghost use Rattle.av_walk.specs.Walk.{Leaf};

    ghost Value = { List (Leaf (List Constraint)) };

    ghost use Rattle.av_split.specs.Boxes.{demands};
    ghost use Rattle.av_walk.specs.Paths.{asked_of, left_of};
    ghost use Rattle.av_walk.specs.Ends.{IsPlanned};

    ghost view = { λ l. left_of (demands l.root.now l.equation.now.name.avoid l.equation.now.name.require) (asked_of l.system.now l.root.now l.equation.now) l.plan.table l.path };

    ghost invariant = { λ l. IsPlanned l.system.now l.root.now l.equation.now l.plan l.path };
}

impl<'a> Leaves<'a> {
    /// The leaves of the walk over the cells of a root, in their order. The root has 2 to 10 entries, the words of the
    /// equation's name have at most 12, and each term of the equation is one of the system.
    ///
    /// The walk begins with the box in which nothing is avoided or required. Where neither a demand of the name is broken nor
    /// all are done, the cell is split as by `av_split::split`. Where they are settled, it is split by the first open question of
    /// the first open term, unless that can change nothing: two terms have all blocks there, or a demand is broken and one has.
    pub fn new(
        alloc: Global,
        system: &'a System,
        equation: &'a Equation,
        root: &'a Perm,
    ) -> Result<Leaves<'a>, Memory>
        requires root { 2 ≤ length root.now }
        requires small { length root.now ≤ MAX_ROOT_LENGTH }
        requires avoid { All (λ w. length w ≤ MAX_PATTERN_LENGTH) equation.now.name.avoid }
        requires require { All (λ w. length w ≤ MAX_PATTERN_LENGTH) equation.now.name.require }
        requires terms { (t : Term) → In t equation.now.terms → IsTermOf (length system.now.equations) t }
        ensures { IfOk result (λ left. left ≡ leaves_of system.entry.now root.entry.now equation.entry.now) }
    {
        // Their lengths tell that these lists are of words.
        let _avoid = equation.name.avoid.len();
        let _require = equation.name.require.len();
        let _equations = system.equations.len();
        let plan = plan_of(alloc, system, equation, root)?;
        let path = Path {
            rows: plan.table.free(alloc, root.len())?,
            turns: Vec::new(alloc),
        };
        Ok(Leaves {
            alloc,
            system,
            equation,
            root,
            plan,
            path: Some(path),
        })
    }

    /// How the next leaf ends; a bare one with its cell. After `Memory` the walk has ended.
    pub fn next(&mut self) -> Option<Result<CellEnd, Memory>>
        ensures { GivesEnd result self.old self.new }
    {
        let path = self.path.take();
        match find(
            self.alloc,
            self.system,
            self.equation,
            self.root,
            &self.plan,
            path,
        ) {
            Ok((found, rest)) => {
                self.path = rest;
                match found {
                    Some(found) => Some(Ok(found)),
                    None => None,
                }
            }
            Err(Memory) => Some(Err(Memory)),
        }
    }
}

// The numbers below a number.
fn numbers_below(alloc: Global, n: usize) -> Result<Vec<usize>, Memory>
    ensures { IfOk result (λ all. (ts : List (List (Literal Cell))) → length ts ≡ n → AreAll ts all.items) }
{
    let mut all = Vec::new(alloc);
    for i in 0..n {
        all.push(i).map_err(|_| Memory)?;
    }
    Ok(all)
}

// What the walk goes by.
fn plan_of(alloc: Global, system: &System, equation: &Equation, root: &Perm) -> Result<Plan, Memory>
    requires root { 2 ≤ length root.now }
    requires small { length root.now ≤ MAX_ROOT_LENGTH }
    requires avoid { All (λ w. length w ≤ MAX_PATTERN_LENGTH) equation.now.name.avoid }
    requires require { All (λ w. length w ≤ MAX_PATTERN_LENGTH) equation.now.name.require }
    requires terms { (t : Term) → In t equation.now.terms → IsTermOf (length system.now.equations) t }
    ensures demands { IfOk result (λ plan. AreDemandsOf (length root.now) plan.table plan.demands (demands root.now equation.now.name.avoid equation.now.name.require)) }
    ensures terms { IfOk result (λ plan. AreTermsOf (length root.now) plan.table plan.terms (asked_of system.now root.now equation.now)) }
    ensures all { IfOk result (λ plan. AreAll plan.terms plan.all.items) }
{
    let mut patterns = Patterns::empty(alloc);
    let demands = demands_of(alloc, root, &equation.name, &mut patterns)?;
    let terms = terms_of(alloc, system, equation, root, &mut patterns)?;
    let all = numbers_below(alloc, terms.len())?;
    Ok(Plan {
        table: Table::of(alloc, patterns)?,
        demands,
        terms,
        all,
    })
}

// The end of a cell with these rows.
fn end_of(alloc: Global, kind: Kind, table: &Table, rows: &[Row]) -> Result<CellEnd, Memory>
    requires { (i : ℕ) → i < length rows.now → length (get_or rows.now i []) ≡ length table.now }
    ensures { IfOk result (λ end. IsEndOf end (record { cell = box_of table.now rows.now; ending = ending_of kind })) }
{
    match kind {
        Kind::Good => Ok(CellEnd::Good),
        Kind::Bare => Ok(CellEnd::Bare {
            cell: table.constraints(alloc, rows)?,
        }),
        Kind::Twice => Ok(CellEnd::Twice),
        Kind::Extra => Ok(CellEnd::Extra),
    }
}

// A cell where the walk ends is given, and another one is cut: the part in which the pattern of its question is avoided comes
// before that in which it is required.
fn advance(
    alloc: Global,
    look: Look,
    path: Path<State>,
    table: &Table,
) -> Result<(Option<CellEnd>, Option<Path<State>>), Memory>
    requires { CanAdvance table.now path look }
    ensures { IfOk result (λ r. Advances table.now look path r.0 r.1) }
{
    match look {
        Look::Ends(kind) => {
            let end = end_of(alloc, kind, table, &path.rows)?;
            Ok((Some(end), back(table, path)?))
        }
        Look::Cut { cell, state } => Ok((None, Some(enter(table, false, cell, state, path)?))),
    }
}

// The first leaf that is left, if one is, and the path to what is left then.
fn find(
    alloc: Global,
    system: &System,
    equation: &Equation,
    root: &Perm,
    plan: &Plan,
    path: Option<Path<State>>,
) -> Result<(Option<CellEnd>, Option<Path<State>>), Memory>
    requires { IsPlanned system.now root.now equation.now plan.now path }
    ensures walk { IfOk result (λ r. IsPlanned system.now root.now equation.now plan.now r.1) }
    ensures takes { IfOk result (λ r. Takes r.0 (left_of (demands root.now equation.now.name.avoid equation.now.name.require) (asked_of system.now root.now equation.now) plan.now.table path) (left_of (demands root.now equation.now.name.avoid equation.now.name.require) (asked_of system.now root.now equation.now) plan.now.table r.1)) }
{
    let mut rest = path;
    while let Some(current) = rest {
        let seen = look_at(alloc, &current, &plan.demands, &plan.terms, &plan.all)?;
        let (found, next) = advance(alloc, seen, current, &plan.table)?;
        if found.is_some() {
            return Ok((found, next));
        }
        rest = next;
    }
    Ok((None, None))
}

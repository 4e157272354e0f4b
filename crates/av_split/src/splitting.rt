// The split of a root.
ghost use Rattle.std.specs.Prelude.{◌≡◌, ◌≤◌, ◌∷◌, ◌++◌, [], length, All, IfOk, OnOk};
ghost use Rattle.av_split.specs.Boxes.{demands, boxes};
ghost use Rattle.av_split.specs.Walk.{IsWalk, left_of, Advances, CanStep, Takes, GivesBox};

use crate::asked::demands_of;
use crate::boxes::{BoxList, SplitBox};
use crate::cells::CellDemands;
use crate::path::{Path, back, enter};
use crate::patterns::Patterns;
use crate::steps::{Step, next_step};
use crate::table::Table;
use av_perm::{MAX_PATTERN_LENGTH, MAX_ROOT_LENGTH, Memory, Perm};
use av_sys::Name;
use std::alloc::Global;
use std::marker::Model;

/// The boxes of a root and a name that are left, in their order.
#[derive(Drop)]
pub struct Boxes<'a> {
    alloc: Global,
    root: &'a Perm,
    name: &'a Name,
    table: Table,
    asked: CellDemands,
    // The path to the box that is looked at next, unless none is left.
    path: Option<Path<usize>>,
}

impl<'a> Model for Boxes<'a> {
    ghost use Rattle.std.specs.Prelude.{List};
    ghost use Rattle.av_sys.specs.declared.names.Constraint.{Constraint};

    ghost Value = { List (List Constraint) };

    ghost use Rattle.av_split.specs.Boxes.{demands};
    ghost use Rattle.av_split.specs.Walk.{IsWalk, left_of};

    ghost view = { λ b. left_of (demands b.root.now b.name.now.avoid b.name.now.require) b.table b.path };

    ghost invariant = { λ b. IsWalk b.root.now b.name.now.avoid b.name.now.require b.table b.asked b.path };
}

impl<'a> Boxes<'a> {
    /// The boxes of a root and a name, in their order. The root has 2 to 10 entries, and the words of the name have at most
    /// 12. No list of blocks lies in two of the boxes, and one lies in some box exactly where the inflation of the root by
    /// these blocks avoids the avoided words of the name and contains the required ones.
    ///
    /// A box that leaves a demand open is cut by the first open question of its first open embedding: into the box in which
    /// the child avoids the question's word, and the box in which it contains it. Source of the embeddings: Bassino, Bouvel,
    /// Pierrot, Pivoteau and Rossin, An algorithm computing combinatorial specifications of permutation classes, 2017.
    pub fn new(alloc: Global, root: &'a Perm, name: &'a Name) -> Result<Boxes<'a>, Memory>
        requires root { 2 ≤ length root.now }
        requires small { length root.now ≤ MAX_ROOT_LENGTH }
        requires avoid { All (λ w. length w ≤ MAX_PATTERN_LENGTH) name.now.avoid }
        requires require { All (λ w. length w ≤ MAX_PATTERN_LENGTH) name.now.require }
        ensures { IfOk result (λ left. left ≡ boxes root.entry.now name.entry.now.avoid name.entry.now.require) }
    {
        // Their lengths tell that these lists are of words.
        let _avoid = name.avoid.len();
        let _require = name.require.len();
        let mut patterns = Patterns::empty(alloc);
        let asked = demands_of(alloc, root, name, &mut patterns)?;
        let table = Table::of(alloc, patterns)?;
        let path = Path {
            rows: table.free(alloc, root.len())?,
            turns: Vec::new(alloc),
        };
        Ok(Boxes {
            alloc,
            root,
            name,
            table,
            asked,
            path: Some(path),
        })
    }

    /// The next box. After `Memory` the walk has ended.
    pub fn next(&mut self) -> Option<Result<SplitBox, Memory>>
        ensures { GivesBox result self.old self.new }
    {
        let path = self.path.take();
        match find(
            self.alloc,
            self.root,
            self.name,
            &self.table,
            &self.asked,
            path,
        ) {
            Ok((found, rest)) => {
                self.path = rest;
                match found {
                    Some(found) => Some(Ok(found)),
                    None => None,
                }
            }
            Err(Memory) => Some(Err(Memory)),
        }
    }
}

// The first box that is left, if one is, and the path to what is left then.
fn find(
    alloc: Global,
    root: &Perm,
    name: &Name,
    table: &Table,
    asked: &CellDemands,
    path: Option<Path<usize>>,
) -> Result<(Option<SplitBox>, Option<Path<usize>>), Memory>
    requires { IsWalk root.now name.now.avoid name.now.require table.now asked.now path }
    ensures walk { IfOk result (λ r. IsWalk root.now name.now.avoid name.now.require table.now asked.now r.1) }
    ensures takes { IfOk result (λ r. Takes r.0 (left_of (demands root.now name.now.avoid name.now.require) table.now path) (left_of (demands root.now name.now.avoid name.now.require) table.now r.1)) }
{
    let mut rest = path;
    while let Some(current) = rest {
        let (from, step) = next_step(&current, asked);
        let (found, next) = advance(alloc, step, from, current, table)?;
        if found.is_some() {
            return Ok((found, next));
        }
        rest = next;
    }
    Ok((None, None))
}

// A box that is done is given, a broken one is dropped, and an open one is cut by the question of its first open cell: the part
// in which its pattern is avoided comes before that in which it is required.
fn advance(
    alloc: Global,
    step: Step,
    from: usize,
    path: Path<usize>,
    table: &Table,
) -> Result<(Option<SplitBox>, Option<Path<usize>>), Memory>
    requires { CanStep table.now path step }
    ensures { IfOk result (λ r. Advances table.now step from path r.0 r.1) }
{
    match step {
        Step::Holds => {
            let found = table.constraints(alloc, &path.rows)?;
            Ok((Some(found), back(table, path)?))
        }
        Step::Fails => Ok((None, back(table, path)?)),
        Step::Asks(cell) => Ok((None, Some(enter(table, false, cell, from, path)?))),
    }
}

/// The boxes of a root and a name, in their order. The root has 2 to 10 entries, and the words of the name have at most 12.
/// No list of blocks lies in two of the boxes, and one lies in some box exactly where the inflation of the root by these
/// blocks avoids the avoided words of the name and contains the required ones.
///
/// A box that leaves a demand open is cut by the first open question of its first open embedding: into the box in which the
/// child avoids the question's word, and the box in which it contains it. Source of the embeddings: Bassino, Bouvel, Pierrot,
/// Pivoteau and Rossin, An algorithm computing combinatorial specifications of permutation classes, 2017.
pub fn split(alloc: Global, root: &Perm, name: &Name) -> Result<BoxList, Memory>
    requires root { 2 ≤ length root.now }
    requires small { length root.now ≤ MAX_ROOT_LENGTH }
    requires avoid { All (λ w. length w ≤ MAX_PATTERN_LENGTH) name.now.avoid }
    requires require { All (λ w. length w ≤ MAX_PATTERN_LENGTH) name.now.require }
    ensures { IfOk result (λ found. found ≡ boxes root.now name.now.avoid name.now.require) }
{
    let mut boxes = Boxes::new(alloc, root, name)?;
    let mut list = BoxList::empty(alloc);
    while let Some(found) = boxes.next() {
        list.push(found?)?;
    }
    Ok(list)
}

// Which equations of a system generate something.
ghost use Rattle.std.specs.Prelude.{◌≡◌, ◌<◌, ◌++◌, [], ◌∷◌, length, get_or, map, set, true, false, IfOk, OnOk, OnErr};
ghost use Rattle.std.specs.List.{list_all, list_any};
ghost use Rattle.av_build.specs.Alive.{has_marked, alive_marks, alive};
ghost use Rattle.av_build.specs.Rounds.{IsSound, IsRound};

use av_perm::Memory;
use av_sys::{Children, Equation, Equations, System, Term};
use std::alloc::Global;
use std::marker::Model;

// A mark for each equation, by number.
#[derive(Drop)]
pub struct MarkList {
    items: Vec<bool>,
}

impl Model for MarkList {
    ghost use Rattle.std.specs.Prelude.{Bool, List};

    ghost Value = { List Bool };

    ghost view = { λ m. m.items.items };
}

impl MarkList {
    // The empty list.
    fn empty(alloc: Global) -> MarkList
        ensures { result ≡ [] }
    {
        MarkList {
            items: Vec::new(alloc),
        }
    }

    // Whether an equation is marked; none is past the last.
    pub fn is_marked(&self, i: usize) -> bool
        ensures { result ≡ get_or self.now i false }
    {
        i < self.items.len() && self.items[i]
    }

    // Marks an equation.
    fn mark(&mut self, i: usize)
        requires { i < length self.old }
        ensures { self.new ≡ set self.old i true }
    {
        self.items[i] = true;
    }

    // Appends an equation that isn't marked.
    fn push(&mut self) -> Result<(), Memory>
        ensures ok { OnOk result (self.new ≡ self.old ++ false ∷ []) }
        ensures err { OnErr result (self.new ≡ self.old) }
    {
        match self.items.push(false) {
            Ok(()) => Ok(()),
            Err(_) => Err(Memory),
        }
    }
}

// No marks.
fn no_marks(alloc: Global, equations: &Equations) -> Result<MarkList, Memory>
    ensures { IfOk result (λ marks. marks ≡ map (λ e. false) equations.now) }
{
    let mut marks = MarkList::empty(alloc);
    for _equation in equations.as_slice() {
        marks.push()?;
    }
    Ok(marks)
}

// Whether all of some equations are marked.
fn are_marked(marks: &MarkList, children: &Children) -> bool
    ensures { result ≡ list_all (λ c. get_or marks.now c false) children.now }
{
    children
        .as_slice()
        .iter()
        .all(|child| marks.is_marked(child.0 as usize))
}

// Whether the children of a term are all marked.
pub fn has_marked(marks: &MarkList, term: &Term) -> bool
    ensures { result ≡ has_marked marks.now term.now }
{
    match term {
        Term::Point => true,
        Term::Node { children, .. } => are_marked(marks, children),
    }
}

// Whether an equation has such a term.
fn has_marked_term(marks: &MarkList, equation: &Equation) -> bool
    ensures { result ≡ list_any (has_marked marks.now) equation.now.terms }
{
    equation
        .terms
        .as_slice()
        .iter()
        .any(|term| has_marked(marks, term))
}

// Marks the equations, from the last to the first, that have a term whose children are all marked, and answers whether one is
// new. Children mostly have greater numbers, so few rounds suffice.
fn mark_round(equations: &Equations, marks: &mut MarkList) -> bool
    requires { IsSound equations.now marks.old }
    ensures { IsRound equations.now marks.old marks.new result }
{
    let mut changed = false;
    for i in (0..equations.len()).rev() {
        if !marks.is_marked(i) && has_marked_term(marks, equations.get(i)) {
            marks.mark(i);
            changed = true;
        }
    }
    changed
}

// The equations that generate something: rounds go on until one changes nothing.
pub fn mark_alive(alloc: Global, system: &System) -> Result<MarkList, Memory>
    ensures { IfOk result (λ marks. marks ≡ alive_marks system.now.equations) }
{
    let mut marks = no_marks(alloc, &system.equations)?;
    'rounds: while mark_round(&system.equations, &mut marks) {}
    Ok(marks)
}

/// Whether an equation of the system has a derivation tree, so that it generates some word. None past the last has one.
pub fn generates(alloc: Global, system: &System, equation: usize) -> Result<bool, Memory>
    ensures { IfOk result (λ some. some ≡ alive system.now equation) }
{
    let marks = mark_alive(alloc, system)?;
    Ok(marks.is_marked(equation))
}

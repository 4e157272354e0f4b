// The lean system.
ghost use Rattle.std.specs.Prelude.{◌≡◌, ◌<◌, ◌≤◌, ◌^◌, length, map, Some, IfOk, OnOk};
ghost use Rattle.av_sys.specs.Terms.{children_of, IsWellFormed};
ghost use Rattle.av_build.specs.Alive.{alive_marks};
ghost use Rattle.av_build.specs.Lean.{marked_terms, children_in, with_numbers, kept, place_of, renumbered, lean};

use crate::kept::KeptList;
use crate::marking::{MarkList, has_marked, mark_alive};
use av_perm::Memory;
use av_sys::{Children, Equation, EquationNumber, Equations, System, Term, Terms};
use std::alloc::Global;

// Adds the children of a term.
fn add_children(kept: &mut KeptList, term: &Term) -> Result<(), Memory>
    ensures { OnOk result (kept.new ≡ with_numbers kept.old (children_of (Some term.now))) }
{
    match term {
        Term::Point => Ok(()),
        Term::Node { children, .. } => add_all(kept, children),
    }
}

// Adds some equations.
fn add_all(kept: &mut KeptList, children: &Children) -> Result<(), Memory>
    ensures { OnOk result (kept.new ≡ with_numbers kept.old children.now) }
{
    for child in children.as_slice() {
        kept.add(*child)?;
    }
    Ok(())
}

// Adds the children of those of the terms whose children are all marked.
fn add_used(kept: &mut KeptList, marks: &MarkList, terms: &Terms) -> Result<(), Memory>
    ensures { OnOk result (kept.new ≡ with_numbers kept.old (children_in (marked_terms marks.now terms.now))) }
{
    for term in terms.as_slice() {
        if has_marked(marks, term) {
            add_children(kept, term)?;
        }
    }
    Ok(())
}

// The equations that are kept: from equation 0 on those that are found are gone through.
fn find_kept(alloc: Global, marks: &MarkList, system: &System) -> Result<KeptList, Memory>
    requires form { IsWellFormed system.now }
    requires marks { marks.now ≡ alive_marks system.now.equations }
    ensures { IfOk result (λ found. found ≡ kept system.now) }
{
    let mut kept = KeptList::first(alloc)?;
    let mut visited = 0;
    'equations: while visited < kept.len() {
        let equation = system.equations.get(kept.get(visited));
        add_used(&mut kept, marks, &equation.terms)?;
        visited += 1;
    }
    Ok(kept)
}

// The new numbers of some equations.
fn new_numbers(alloc: Global, kept: &KeptList, children: &Children) -> Result<Children, Memory>
    requires { length kept.now < 2 ^ 32 }
    ensures { IfOk result (λ new. new ≡ map (place_of kept.now) children.now) }
{
    let mut numbers = Children::empty(alloc);
    for child in children.as_slice() {
        numbers.push(EquationNumber(kept.number(*child) as u32))?;
    }
    Ok(numbers)
}

// A term with new numbers.
fn new_term(alloc: Global, kept: &KeptList, term: &Term) -> Result<Term, Memory>
    requires { length kept.now < 2 ^ 32 }
    ensures { IfOk result (λ new. new ≡ renumbered kept.now term.now) }
{
    match term {
        Term::Point => Ok(Term::Point),
        Term::Node { root, children } => Ok(Term::Node {
            root: root.copy(),
            children: new_numbers(alloc, kept, children)?,
        }),
    }
}

// Those of the terms whose children are all marked, with new numbers.
fn new_terms(
    alloc: Global,
    marks: &MarkList,
    kept: &KeptList,
    terms: &Terms,
) -> Result<Terms, Memory>
    requires { length kept.now < 2 ^ 32 }
    ensures { IfOk result (λ new. new ≡ map (renumbered kept.now) (marked_terms marks.now terms.now)) }
{
    let mut new = Terms::empty(alloc);
    for term in terms.as_slice() {
        if has_marked(marks, term) {
            new.push(new_term(alloc, kept, term)?)?;
        }
    }
    Ok(new)
}

/// The system without the equations that generate nothing, and without the terms that use one; only equation 0 stays even
/// where it generates nothing. An equation generates something where it has a derivation tree.
///
/// Equation 0 keeps its number. The others are numbered breadth first: the equations are gone through in order of number,
/// their terms in order, and the children of each in order; an equation that has no number yet gets the next. Those that never
/// appear are left out. The new system has the members of the old one at every size, in the same order.
pub fn prune(alloc: Global, system: &System) -> Result<System, Memory>
    requires { IsWellFormed system.now }
    ensures lean { IfOk result (λ pruned. pruned ≡ lean system.now) }
    ensures form { IfOk result (λ pruned. IsWellFormed pruned) }
{
    let marks = mark_alive(alloc, system)?;
    let kept = find_kept(alloc, &marks, system)?;
    let mut equations = Equations::empty(alloc);
    for i in 0..kept.len() {
        let old = system.equations.get(kept.get(i));
        let name = old.name.copy(alloc)?;
        let terms = new_terms(alloc, &marks, &kept, &old.terms)?;
        equations.push(Equation { name, terms })?;
    }
    Ok(System { equations })
}

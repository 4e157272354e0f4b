// Placing what is due, and taking back what has no next vertex.
ghost use Rattle.std.specs.Prelude.{◌≡◌, ◌<◌, ◌≤◌, ◌+◌, ◌-◌, ◌*◌, [], ◌∷◌, ◌++◌, ℕ, List, IsTrue, false, length, drop, slice_index_or, Some};
ghost use Rattle.av_sys.specs.Terms.{IsWellFormed, terms_at, term_at, children_of};
ghost use Rattle.av_count.specs.Counts.{capped};
ghost use Rattle.av_sys.specs.TreeLists.{count_at};
ghost use Rattle.av_list.specs.declared.vertex.Due.{Due};
ghost use Rattle.av_list.specs.Vertices.{dues_below, children_at};
ghost use Rattle.av_list.specs.Remaining.{completion_count, later, left};
ghost use Rattle.av_list.specs.Derivations.{Derives, EachDue, IsFactor, load};

use crate::choice::{choose, next_vertex};
use crate::derivation::Derivation;
use crate::vertex::{Due, Vertex};
use av_count::{Count, Table, term};
use av_perm::MAX_LENGTH;
use av_sys::{System, Term};

// Makes a tree due for each child of a vertex.
fn add_dues_below(system: &System, vertex: &Vertex, derivation: &mut Derivation)
    requires equation { vertex.now.equation < length system.now.equations }
    requires term { vertex.now.term < length (terms_at system.now vertex.now.equation) }
    requires many { length vertex.now.sizes ≡ length (children_at system.now vertex.now) }
    requires room { length vertex.now.sizes + length derivation.old.due ≤ derivation.old.size }
    ensures due { derivation.new.due ≡ dues_below system.now vertex.now ++ derivation.old.due }
    ensures placed { derivation.new.placed ≡ derivation.old.placed }
    ensures size { derivation.new.size ≡ derivation.old.size }
{
    if let Term::Node { children, .. } = term(system, vertex.equation, vertex.term) {
        let len = children.len();
        for k in 0..len {
            let i = len - 1 - k;
            derivation.push_due(Due {
                equation: children.equation(i),
                size: vertex.sizes.get(i),
            });
        }
    }
}

// Places a vertex for what was due, and makes its children due.
fn put(system: &System, vertex: Vertex, derivation: &mut Derivation)
    requires formed { IsWellFormed system.now }
    requires least { 1 ≤ derivation.old.size }
    requires some { 0 < count_at system.now 0 derivation.old.size }
    requires derives { Derives system.now derivation.old.size (vertex ∷ derivation.old.placed) (dues_below system.now vertex ++ derivation.old.due) }
    ensures due { derivation.new.due ≡ dues_below system.now vertex ++ derivation.old.due }
    ensures placed { derivation.new.placed ≡ vertex ∷ derivation.old.placed }
    ensures size { derivation.new.size ≡ derivation.old.size }
{
    add_dues_below(system, &vertex, derivation);
    derivation.push_vertex(vertex);
}

// How often each tree of the next due counts: once for each way to do what is due after it; at place 0 any number serves.
fn factor_after(table: &Table, derivation: &Derivation, r: u128) -> Count
    requires { EachDue table.now.system table.now.largest derivation.now.due }
    ensures { IsFactor r (completion_count table.now.system derivation.now.due) result }
{
    if r == 0 {
        return Count::of(1);
    }
    number(table, derivation.dues())
}

// The number of ways to do what is due.
fn number(table: &Table, dues: &[Due]) -> Count
    requires { EachDue table.now.system table.now.largest dues.now }
    ensures { result ≡ capped (completion_count table.now.system dues.now) }
{
    let mut product = Count::of(1);
    for due in dues {
        product = product.times(table.get(due.equation, due.size));
    }
    product
}

// Places the vertex at place r for what is due, and gives the place that is left.
fn place(system: &System, table: &Table, due: Due, r: u128, derivation: &mut Derivation) -> u128
    requires formed { IsWellFormed system.now }
    requires stands { table.now.system ≡ system.now }
    requires least { 1 ≤ derivation.old.size }
    requires most { derivation.old.size ≤ table.now.largest }
    requires some { 0 < count_at system.now 0 derivation.old.size }
    requires derives { Derives system.now derivation.old.size derivation.old.placed (due ∷ derivation.old.due) }
    requires within { r < completion_count system.now (due ∷ derivation.old.due) }
    ensures same { drop r (left system.now derivation.old.placed (due ∷ derivation.old.due)) ≡ drop result (left system.now derivation.new.placed derivation.new.due) }
    ensures within { result < completion_count system.now derivation.new.due }
    ensures derives { Derives system.now derivation.old.size derivation.new.placed derivation.new.due }
    ensures size { derivation.new.size ≡ derivation.old.size }
    ensures less { load derivation.new.due < load (due ∷ derivation.old.due) }
{
    let factor = factor_after(table, derivation, r);
    match choose(system, table, due.equation, 0, due.size, factor, r) {
        None => r,
        Some(pick) => {
            put(system, pick.vertex, derivation);
            pick.left
        }
    }
}

// Does all that is due: the way at place r.
pub fn complete(system: &System, table: &Table, r: u128, derivation: &mut Derivation)
    requires formed { IsWellFormed system.now }
    requires stands { table.now.system ≡ system.now }
    requires least { 1 ≤ derivation.old.size }
    requires most { derivation.old.size ≤ table.now.largest }
    requires some { 0 < count_at system.now 0 derivation.old.size }
    requires derives { Derives system.now derivation.old.size derivation.old.placed derivation.old.due }
    requires within { r < completion_count system.now derivation.old.due }
    ensures same { drop r (left system.now derivation.old.placed derivation.old.due) ≡ left system.now derivation.new.placed [] }
    ensures derives { Derives system.now derivation.old.size derivation.new.placed [] }
    ensures due { derivation.new.due ≡ [] }
    ensures size { derivation.new.size ≡ derivation.old.size }
{
    let mut rank = r;
    while let Some(due) = derivation.pop_due() {
        rank = place(system, table, due, rank, derivation);
    }
}

// Takes vertices back until one has a next one, and places that; false where none has.
pub fn retract(system: &System, table: &Table, derivation: &mut Derivation) -> bool
    requires formed { IsWellFormed system.now }
    requires stands { table.now.system ≡ system.now }
    requires least { 1 ≤ derivation.old.size }
    requires limit { derivation.old.size ≤ MAX_LENGTH }
    requires most { derivation.old.size ≤ table.now.largest }
    requires some { 0 < count_at system.now 0 derivation.old.size }
    requires derives { Derives system.now derivation.old.size derivation.old.placed derivation.old.due }
    ensures moved { IsTrue result → later system.now derivation.old.placed derivation.old.due ≡ left system.now derivation.new.placed derivation.new.due }
    ensures derives { Derives system.now derivation.old.size derivation.new.placed derivation.new.due }
    ensures ended { result ≡ false → later system.now derivation.old.placed derivation.old.due ≡ [] }
    ensures size { derivation.new.size ≡ derivation.old.size }
{
    while let Some(vertex) = derivation.pop_vertex() {
        let due = Due {
            equation: vertex.equation,
            size: vertex.size,
        };
        match next_vertex(system, table, vertex) {
            Some(next) => {
                put(system, next, derivation);
                return true;
            }
            None => derivation.push_due(due),
        }
    }
    false
}

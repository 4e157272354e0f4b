// The vertices that a tree may begin with, one after another: by terms, then by the sizes of the subtrees.
ghost use Rattle.std.specs.Prelude.{◌≡◌, ◌<◌, ◌≤◌, ◌+◌, ◌-◌, ◌*◌, [], ◌∷◌, ◌++◌, ℕ, List, IsTrue, length, slice_index_or, MatchOption, Some};
ghost use Rattle.av_sys.specs.Terms.{IsWellFormed, terms_at, term_at, children_of};
ghost use Rattle.av_count.specs.Counts.{capped};
ghost use Rattle.av_count.specs.Choices.{sum_from};
ghost use Rattle.av_sys.specs.TreeLists.{count_at};
ghost use Rattle.av_count.specs.Members.{term_ways};
ghost use Rattle.av_list.specs.Sizes.{weighed, sizes_after};
ghost use Rattle.av_list.specs.Vertices.{vertices_from, vertices_after, same_after, trees_under};
ghost use Rattle.av_list.specs.Derivations.{Sound};
ghost use Rattle.av_list.specs.Picked.{TermFound, Begins, Picked};

use crate::sizes::{NodeTerm, first_sizes, next_sizes};
use crate::vertex::{Sizes, Vertex};
use av_count::{Count, Table, term, terms};
use av_perm::MAX_LENGTH;
use av_sys::{System, Term};
use av_tree::{Cut, term_count};

// A vertex, and what is left of the place.
#[derive(Drop)]
pub struct Pick {
    pub vertex: Vertex,
    pub left: u128,
}

// The first term from `least` on within whose trees the place r lies, each tree `factor` times, and what is left of r.
fn find_term(
    system: &System,
    table: &Table,
    equation: usize,
    least: usize,
    size: usize,
    factor: Count,
    r: u128,
) -> Option<Cut>
    requires formed { IsWellFormed system.now }
    requires stands { table.now.system ≡ system.now }
    requires equation { equation < length system.now.equations }
    requires most { size ≤ table.now.largest }
    requires least { least ≤ length (terms_at system.now equation) }
    ensures { (F : ℕ) → factor ≡ capped F → MatchOption result (F * sum_from (λ term_number. term_ways system.now size (term_at system.now equation term_number)) least (length (terms_at system.now equation) - least) ≤ r) (λ cut. TermFound (λ term_number. term_ways system.now size (term_at system.now equation term_number)) (length (terms_at system.now equation)) F least r cut.at cut.left) }
{
    let count = terms(system, equation);
    let mut left = r;
    for at in least..count {
        match factor
            .times(term_count(system, table, equation, at, size))
            .past(left)
        {
            None => return Some(Cut { at, left }),
            Some(less) => left = less,
        }
    }
    None
}

// The first vertex with this term within whose trees the place r lies, each tree `factor` times.
fn first_of_term(
    system: &System,
    table: &Table,
    equation: usize,
    term_number: usize,
    size: usize,
    factor: Count,
    r: u128,
) -> Pick
    requires formed { IsWellFormed system.now }
    requires stands { table.now.system ≡ system.now }
    requires equation { equation < length system.now.equations }
    requires term_number { term_number < length (terms_at system.now equation) }
    requires most { size ≤ table.now.largest }
    requires within { (F : ℕ) × (factor ≡ capped F) × (r < F * term_ways system.now size (term_at system.now equation term_number)) }
    ensures { (F : ℕ) → factor ≡ capped F → r < F * term_ways system.now size (term_at system.now equation term_number) → Begins system.now equation term_number size F r result.vertex result.left }
{
    match term(system, equation, term_number) {
        Term::Point => Pick {
            vertex: Vertex {
                equation,
                term: term_number,
                size,
                sizes: Sizes::empty(),
            },
            left: r,
        },
        Term::Node { children, .. } => {
            let mut sizes = Sizes::empty();
            let node = NodeTerm {
                table,
                children,
                equation,
                term: term_number,
            };
            let left = first_sizes(&node, 0, size, factor, r, &mut sizes);
            Pick {
                vertex: Vertex {
                    equation,
                    term: term_number,
                    size,
                    sizes,
                },
                left,
            }
        }
    }
}

// The first vertex with a term from `least` on within whose trees the place r lies, each tree `factor` times.
pub fn choose(
    system: &System,
    table: &Table,
    equation: usize,
    least: usize,
    size: usize,
    factor: Count,
    r: u128,
) -> Option<Pick>
    requires formed { IsWellFormed system.now }
    requires stands { table.now.system ≡ system.now }
    requires equation { equation < length system.now.equations }
    requires most { size ≤ table.now.largest }
    requires least { least ≤ length (terms_at system.now equation) }
    requires counts { (F : ℕ) × (factor ≡ capped F) }
    ensures { (F : ℕ) → factor ≡ capped F → MatchOption result (F * weighed (trees_under system.now) (vertices_from system.now equation size least (length (terms_at system.now equation) - least)) ≤ r) (λ p. Picked system.now equation size F (vertices_from system.now equation size least (length (terms_at system.now equation) - least)) r p.vertex p.left) }
{
    match find_term(system, table, equation, least, size, factor, r) {
        None => None,
        Some(cut) => Some(first_of_term(system, table, equation, cut.at, size, factor, cut.left)),
    }
}

// Whether the equation is known to have one tree alone of this size.
#[tactic(auto, unfolding(av_count::specs::Counts::capped))]
fn is_single(table: &Table, equation: usize, size: usize) -> bool
    requires equation { equation < length table.now.system.equations }
    requires most { size ≤ table.now.largest }
    ensures { IsTrue result → count_at table.now.system equation size ≡ 1 }
{
    match table.get(equation, size) {
        Count::Known(count) => count == 1,
        Count::Over => false,
    }
}

// The next vertex of the same equation and size that a tree begins with: with the same term, else with a later one.
pub fn next_vertex(system: &System, table: &Table, vertex: Vertex) -> Option<Vertex>
    requires formed { IsWellFormed system.now }
    requires stands { table.now.system ≡ system.now }
    requires most { vertex.size ≤ table.now.largest }
    requires size { vertex.size ≤ MAX_LENGTH }
    requires sound { Sound system.now vertex }
    ensures { MatchOption result (weighed (trees_under system.now) (vertices_after system.now vertex) ≡ 0) (λ y. Picked system.now vertex.equation vertex.size 1 (vertices_after system.now vertex) 0 y 0) }
{
    let equation = vertex.equation;
    let term_number = vertex.term;
    let size = vertex.size;
    if is_single(table, equation, size) {
        return None;
    }
    match next_same(system, table, vertex) {
        Some(next) => Some(next),
        None => later_term(system, table, equation, term_number, size),
    }
}

// The first vertex with a later term.
fn later_term(
    system: &System,
    table: &Table,
    equation: usize,
    term_number: usize,
    size: usize,
) -> Option<Vertex>
    requires formed { IsWellFormed system.now }
    requires stands { table.now.system ≡ system.now }
    requires equation { equation < length system.now.equations }
    requires term_number { term_number < length (terms_at system.now equation) }
    requires most { size ≤ table.now.largest }
    ensures { MatchOption result (weighed (trees_under system.now) (vertices_from system.now equation size (term_number + 1) (length (terms_at system.now equation) - (term_number + 1))) ≡ 0) (λ y. (left : ℕ) × Picked system.now equation size 1 (vertices_from system.now equation size (term_number + 1) (length (terms_at system.now equation) - (term_number + 1))) 0 y left) }
{
    let _terms = terms(system, equation);
    match choose(
        system,
        table,
        equation,
        term_number + 1,
        size,
        Count::of(1),
        0,
    ) {
        None => None,
        Some(pick) => Some(pick.vertex),
    }
}

// The next vertex with the same term, by the next sizes of its subtrees.
fn next_same(system: &System, table: &Table, vertex: Vertex) -> Option<Vertex>
    requires formed { IsWellFormed system.now }
    requires stands { table.now.system ≡ system.now }
    requires most { vertex.size ≤ table.now.largest }
    requires size { vertex.size ≤ MAX_LENGTH }
    requires sound { Sound system.now vertex }
    ensures { MatchOption result (weighed (trees_under system.now) (same_after vertex) ≡ 0) (λ y. Picked system.now vertex.equation vertex.size 1 (vertices_after system.now vertex) 0 y 0) }
{
    match term(system, vertex.equation, vertex.term) {
        Term::Point => None,
        Term::Node { children, .. } => {
            let mut sizes = vertex.sizes;
            let node = NodeTerm {
                table,
                children,
                equation: vertex.equation,
                term: vertex.term,
            };
            if next_sizes(&node, 0, vertex.size, &mut sizes) {
                return Some(Vertex {
                    equation: vertex.equation,
                    term: vertex.term,
                    size: vertex.size,
                    sizes,
                });
            }
            None
        }
    }
}

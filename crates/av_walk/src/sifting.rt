// The terms of a root in a box: how many are inside, which may still have blocks there, and the first open question.
ghost use Rattle.std.specs.Prelude.{◌≡◌, ◌<◌, ◌≤◌, ◌+◌, ◌++◌, [], ◌∷◌, ℕ, All, min, length, get_or, Some, IfOk, OnOk};
ghost use Rattle.av_name.specs.declared.constraints.Known.{Known};
ghost use Rattle.av_split.specs.Split.{turned, first_open};
ghost use Rattle.av_split.specs.Cells.{known_at, IsStep};
ghost use Rattle.av_walk.specs.Walk.{Literal, literal_known, term_known};
ghost use Rattle.av_walk.specs.Sifts.{AreCellsOfTerm, AreCellsOfTerms, IsSifted, IsMore, literal_cell};

use crate::terms::{CellTerm, CellTerms};
use av_name::Known;
use av_perm::Memory;
use av_split::cells::Cell;
use av_split::rows::Row;
use av_split::steps::{Step, known_at, or_first, step_or};
use std::alloc::Global;

// What is known, or the opposite.
fn turned(required: bool, known: Known) -> Known
    ensures { result ≡ turned required known }
{
    if required {
        return known;
    }
    match known {
        Known::Inside => Known::Outside,
        Known::Outside => Known::Inside,
        Known::Open => Known::Open,
    }
}

// Whether the blocks of a box are those of a term: all that it asks is to hold.
fn term_step(rows: &[Row], term: &CellTerm) -> Step
    requires { AreCellsOfTerm rows.now term.now }
    ensures { IsStep result (term_known (known_at rows.now) term.now) (first_open (literal_known (known_at rows.now)) literal_cell term.now) }
{
    let mut found = None;
    for literal in term.as_slice() {
        match turned(literal.is_required(), known_at(rows, literal.cell())) {
            Known::Inside => {}
            Known::Outside => return Step::Fails,
            Known::Open => found = or_first(found, literal.cell()),
        }
    }
    step_or(found, Step::Holds)
}

// Of some terms: how many are inside, up to two, the first open question of the first open one, and the numbers of those that
// aren't refuted.
#[derive(Drop)]
pub struct Sifted {
    pub inside: u8,
    pub next: Option<Cell>,
    pub live: Vec<usize>,
}

// One more, up to two.
fn up_to_two(inside: u8) -> u8
    requires { inside ≤ 2 }
    ensures { result ≡ min 2 (inside + 1) }
{
    if inside < 2 { inside + 1 } else { 2 }
}

// One more term.
fn add(sifted: &mut Sifted, i: usize, step: Step) -> Result<(), Memory>
    requires { sifted.old.inside ≤ 2 }
    ensures { OnOk result (IsMore sifted.old i step sifted.new) }
{
    match step {
        Step::Fails => return Ok(()),
        Step::Holds => sifted.inside = up_to_two(sifted.inside),
        Step::Asks(cell) => sifted.next = or_first(sifted.next, cell),
    }
    sifted.live.push(i).map_err(|_| Memory)
}

// The terms with these numbers in the box with these rows.
pub fn sift(
    alloc: Global,
    rows: &[Row],
    terms: &CellTerms,
    numbers: &[usize],
) -> Result<Sifted, Memory>
    requires cells { AreCellsOfTerms rows.now terms.now }
    requires numbers { All (λ i. i < length terms.now) numbers.now }
    ensures { IfOk result (λ sifted. IsSifted (known_at rows.now) terms.now numbers.now sifted) }
{
    let mut sifted = Sifted {
        inside: 0,
        next: None,
        live: Vec::new(alloc),
    };
    for i in numbers {
        add(&mut sifted, *i, term_step(rows, terms.get(*i)))?;
    }
    Ok(sifted)
}

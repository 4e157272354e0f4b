// The point among the terms of an equation.
ghost use Rattle.std.specs.Prelude.{◌≡◌, [], ◌∷◌, nat_eq};
ghost use Rattle.std.specs.List.{list_any};
ghost use Rattle.av_perm.specs.Lists.{same};
ghost use Rattle.av_build.specs.Drafts.{has_point};
ghost use Rattle.av_check.specs.Verdicts.{count_points, points_due};

use av_perm::{Perm, Words};
use av_sys::{Equation, Name, Term, Terms};

// How many terms are the point.
fn count_points(terms: &Terms) -> usize
    ensures { result ≡ count_points terms.now }
{
    let mut count: usize = 0;
    for term in terms.as_slice() {
        match term {
            Term::Point => count += 1,
            Term::Node { .. } => {}
        }
    }
    count
}

// Whether the word 1 is one of the list.
fn holds_one(words: &Words) -> bool
    ensures { result ≡ list_any (same (1 ∷ [])) words.now }
{
    let point = Perm::one();
    words.as_slice().iter().any(|word| point == *word)
}

// Whether the word 1 means the name: it isn't avoided, and nothing is required.
fn has_point(name: &Name) -> bool
    ensures { result ≡ has_point name.now }
{
    !holds_one(&name.avoid) && name.require.len() == 0
}

// Whether the point is once among the terms where the word 1 means the name, and else not at all.
pub fn has_due_points(equation: &Equation) -> bool
    ensures { result ≡ nat_eq (count_points equation.now.terms) (points_due equation.now.name) }
{
    let due = if has_point(&equation.name) { 1 } else { 0 };
    count_points(&equation.terms) == due
}

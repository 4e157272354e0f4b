// Whether a system is well formed.
ghost use Rattle.std.specs.Prelude.{◌≡◌, ◌↔◌, length, nat_lt, IsTrue};
ghost use Rattle.std.specs.List.{list_all};
ghost use Rattle.av_sys.specs.Terms.{is_system_root, is_node_of, is_term_of, are_terms_of, well_formed, IsWellFormed};

use crate::terms::{Children, Equations, System, Term, Terms};
use av_perm::{MAX_ROOT_LENGTH, Perm, is_simple};

/// Whether the word may be a root of a system: it is 12, 21, or simple with at most `MAX_ROOT_LENGTH` entries.
pub fn is_system_root(word: &Perm) -> bool
    ensures { result ≡ is_system_root word.now }
{
    let entries = word.as_slice();
    entries == [1, 2].as_slice()
        || entries == [2, 1].as_slice()
        || (word.len() <= MAX_ROOT_LENGTH && is_simple(word))
}

// Whether each is the number of one of so many equations.
fn are_numbers_of(equations: usize, children: &Children) -> bool
    ensures { result ≡ list_all (λ c. nat_lt c equations) children.now }
{
    children
        .as_slice()
        .iter()
        .all(|child| (child.0 as usize) < equations)
}

// Whether the root is one of a system, and the children are as many as it is long, each the number of one of so many
// equations.
fn is_node_of(equations: usize, root: &Perm, children: &Children) -> bool
    ensures { result ≡ is_node_of equations root.now children.now }
{
    is_system_root(root) && children.len() == root.len() && are_numbers_of(equations, children)
}

// Whether the term may stand in a system of so many equations.
fn is_term_of(equations: usize, term: &Term) -> bool
    ensures { result ≡ is_term_of equations term.now }
{
    match term {
        Term::Point => true,
        Term::Node { root, children } => is_node_of(equations, root, children),
    }
}

// Whether each term may.
fn are_terms_of(equations: usize, terms: &Terms) -> bool
    ensures { result ≡ are_terms_of equations terms.now }
{
    terms
        .as_slice()
        .iter()
        .all(|term| is_term_of(equations, term))
}

impl System {
    /// Whether the system is well formed: it has at least one equation and fewer than 2^32; every root is 12, 21 or a simple
    /// word of length at most `MAX_ROOT_LENGTH`; every node has as many children as its root is long; every child is the
    /// number of an equation.
    pub fn check(&self) -> bool
        ensures value { result ≡ well_formed self.now }
        ensures meaning { IsTrue result ↔ IsWellFormed self.now }
    {
        is_well_formed(self)
    }
}

// Whether the system passes the test.
#[tactic(auto, unfolding(crate::specs::Terms::well_formed))]
fn is_well_formed(system: &System) -> bool
    ensures { result ≡ well_formed system.now }
{
    let equations = system.equations.len();
    equations >= 1 && equations < 1 << 32 && all_terms_of(equations, &system.equations)
}

// Whether each term of each equation may stand in a system of so many equations.
fn all_terms_of(equations: usize, all: &Equations) -> bool
    ensures { result ≡ list_all (λ e. are_terms_of equations e.terms) all.now }
{
    all.as_slice()
        .iter()
        .all(|equation| are_terms_of(equations, &equation.terms))
}

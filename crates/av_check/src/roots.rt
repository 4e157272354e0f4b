// The roots of the terms of an equation, and the signs of their children.
ghost use Rattle.std.specs.Prelude.{◌≡◌, List, [], ◌∷◌, map, slice_get, Option};
ghost use Rattle.std.specs.List.{list_any, list_all};
ghost use Rattle.av_perm.specs.Lists.{same};
ghost use Rattle.av_perm.specs.Relations.{sum_root, skew_root};
ghost use Rattle.av_sys.specs.declared.names.Sign.{Sign};
ghost use Rattle.av_build.specs.Canonical.{same_sign};
ghost use Rattle.av_walk.specs.Leaves.{name_of_equation, names_at};
ghost use Rattle.av_check.specs.Verdicts.{first_some, first_sign, are_signed, roots_for, is_wrong_node, wrong_root};

use av_perm::{Perm, Words, skew_root, sum_root};
use av_sys::{Children, Equation, EquationNumber, Name, Sign, System, Term};

// Whether the word is 12.
pub fn is_sum_root(root: &Perm) -> bool
    ensures { result ≡ same root.now sum_root }
{
    *root == sum_root()
}

// Whether the word is 21.
pub fn is_skew_root(root: &Perm) -> bool
    ensures { result ≡ same root.now skew_root }
{
    *root == skew_root()
}

// The sign of a root's first child.
pub fn first_sign(root: &Perm) -> Sign
    ensures { result ≡ first_sign root.now }
{
    if is_sum_root(root) {
        Sign::P
    } else if is_skew_root(root) {
        Sign::M
    } else {
        Sign::C
    }
}

// Whether the word is one of the list.
fn is_among(root: &Perm, words: &Words) -> bool
    ensures { result ≡ list_any (same root.now) words.now }
{
    words.as_slice().iter().any(|word| *root == *word)
}

// Whether a name with this sign may have terms of this root: 12 unless the sign is P, 21 unless it is M, and the simple roots.
fn is_listed(sign: Sign, simples: &Words, root: &Perm) -> bool
    ensures { result ≡ list_any (same root.now) (roots_for sign simples.now) }
{
    match sign {
        Sign::C => is_sum_root(root) || (is_skew_root(root) || is_among(root, simples)),
        Sign::P => is_skew_root(root) || is_among(root, simples),
        Sign::M => is_sum_root(root) || is_among(root, simples),
    }
}

// The sign of an equation's name.
fn sign_at(system: &System, number: EquationNumber) -> Sign
    ensures { result ≡ (name_of_equation (slice_get system.now.equations number)).sign }
{
    match system.equations.as_slice().get(number.0 as usize) {
        Some(equation) => equation.name.sign,
        None => Sign::C,
    }
}

// Whether each name of some children has the sign C.
fn are_plain(system: &System, children: &[EquationNumber]) -> bool
    ensures { result ≡ list_all (λ child. same_sign (name_of_equation (slice_get system.now.equations child)).sign Sign.C) children.now }
{
    children
        .iter()
        .all(|child| sign_at(system, *child) == Sign::C)
}

// Whether the first name of some children has this sign, and each other one the sign C.
fn are_signed(system: &System, first: Sign, children: &Children) -> bool
    ensures { result ≡ are_signed first (names_at system.now children.now) }
{
    match children.as_slice() {
        [] => true,
        [child, others @ ..] => sign_at(system, *child) == first && are_plain(system, others),
    }
}

// Whether the name's equation may not have a term of this root with these children.
fn is_wrong_node(
    system: &System,
    simples: &Words,
    name: &Name,
    root: &Perm,
    children: &Children,
) -> bool
    ensures { result ≡ is_wrong_node system.now simples.now name.now root.now children.now }
{
    !is_listed(name.sign, simples, root) || !are_signed(system, first_sign(root), children)
}

// The root of a term that the name's equation may not have.
fn wrong_root(system: &System, simples: &Words, name: &Name, term: &Term) -> Option<Perm>
    ensures { result ≡ wrong_root system.now simples.now name.now term.now }
{
    match term {
        Term::Point => None,
        Term::Node { root, children } => {
            if is_wrong_node(system, simples, name, root, children) {
                Some(root.copy())
            } else {
                None
            }
        }
    }
}

// That of the first such term of an equation.
pub fn first_wrong_root(system: &System, simples: &Words, equation: &Equation) -> Option<Perm>
    ensures { result ≡ first_some (wrong_root system.now simples.now equation.now.name) equation.now.terms }
{
    for term in equation.terms.as_slice() {
        let wrong = wrong_root(system, simples, &equation.name, term);
        if wrong.is_some() {
            return wrong;
        }
    }
    None
}

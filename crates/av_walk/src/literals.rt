// What the terms of a root ask: of each child the words of its equation's name, each with a number.
ghost use Rattle.std.specs.Prelude.{◌≡◌, ◌<◌, ◌≤◌, ◌++◌, [], ◌∷◌, ℕ, List, map, length, true, IfOk, OnOk};
ghost use Rattle.av_perm.specs.Class.{in_shortlex};
ghost use Rattle.av_perm.specs.Members.{In};
ghost use Rattle.av_perm.specs.Lists.{Extends};
ghost use Rattle.av_sys.specs.Terms.{IsTermOf};
ghost use Rattle.av_sys.specs.declared.terms.Term.{Term};
ghost use Rattle.av_split.specs.Boxes.{Question};
ghost use Rattle.av_walk.specs.Walk.{Literal};
ghost use Rattle.av_walk.specs.Leaves.{asks, child_literals, literals, names_at, names_of_root};
ghost use Rattle.av_walk.specs.Numbers.{AreLiteralsOf, AddsLiterals, AreTermsOf};

use crate::terms::{CellLiteral, CellTerm, CellTerms};
use av_perm::{Memory, Perm, Words, shortlex};
use av_split::cells::Cell;
use av_split::patterns::Patterns;
use av_sys::{Children, Equation, Name, System, Term};
use std::alloc::Global;
use std::cmp::Ordering;
use std::collections::BTreeSet;

// Whether each word comes before the next one in shortlex order.
fn is_ascending(words: &Words) -> bool
    ensures { result ≡ true → in_shortlex words.now ≡ words.now }
{
    let items = words.as_slice();
    for i in 1..items.len() {
        if shortlex(&items[i - 1], &items[i]) != Ordering::Less {
            return false;
        }
    }
    true
}

// The words in shortlex order, each once.
fn sorted(alloc: Global, words: &Words) -> Result<Words, Memory>
    ensures { IfOk result (λ all. all ≡ in_shortlex words.now) }
{
    let items = words.as_slice();
    let mut set = BTreeSet::new(alloc);
    for i in (0..items.len()).rev() {
        set.insert(items[i].copy()).map_err(|_| Memory)?;
    }
    let mut all = Words::empty(alloc);
    for word in set {
        all.push(word)?;
    }
    Ok(all)
}

// Appends that a child is to contain each word, or to avoid each.
fn push_words(
    child: usize,
    required: bool,
    words: &Words,
    patterns: &mut Patterns,
    term: &mut CellTerm,
) -> Result<(), Memory>
    ensures grows { OnOk result (Extends patterns.old patterns.new) }
    ensures literals { OnOk result (AddsLiterals child patterns.old patterns.new term.old term.new (map (asks required child) words.now)) }
{
    for word in words.as_slice() {
        let pattern = patterns.number(word.copy())?;
        term.push(CellLiteral::of(required, Cell { child, pattern }))?;
    }
    Ok(())
}

// The same in shortlex order, each once.
fn push_in_order(
    alloc: Global,
    child: usize,
    required: bool,
    words: &Words,
    patterns: &mut Patterns,
    term: &mut CellTerm,
) -> Result<(), Memory>
    ensures grows { OnOk result (Extends patterns.old patterns.new) }
    ensures literals { OnOk result (AddsLiterals child patterns.old patterns.new term.old term.new (map (asks required child) (in_shortlex words.now))) }
{
    if is_ascending(words) {
        push_words(child, required, words, patterns, term)
    } else {
        let words = sorted(alloc, words)?;
        push_words(child, required, &words, patterns, term)
    }
}

// Appends what a name asks of a child.
fn push_name(
    alloc: Global,
    child: usize,
    name: &Name,
    patterns: &mut Patterns,
    term: &mut CellTerm,
) -> Result<(), Memory>
    ensures grows { OnOk result (Extends patterns.old patterns.new) }
    ensures literals { OnOk result (AddsLiterals child patterns.old patterns.new term.old term.new (child_literals child name.now)) }
{
    push_in_order(alloc, child, false, &name.avoid, patterns, term)?;
    push_in_order(alloc, child, true, &name.require, patterns, term)
}

// What a term asks whose children have these equations.
fn term_of(
    alloc: Global,
    system: &System,
    children: &Children,
    patterns: &mut Patterns,
) -> Result<CellTerm, Memory>
    requires { (c : ℕ) → In c children.now → c < length system.now.equations }
    ensures grows { OnOk result (Extends patterns.old patterns.new) }
    ensures term { IfOk result (λ term. AreLiteralsOf (length children.now) patterns.new term (literals 0 (names_at system.now children.now))) }
{
    let mut term = CellTerm::empty(alloc);
    for i in 0..children.len() {
        let equation = system.equations.get(children.equation(i));
        push_name(alloc, i, &equation.name, patterns, &mut term)?;
    }
    Ok(term)
}

// Appends what a term asks, where it has this root.
fn push_term(
    alloc: Global,
    system: &System,
    root: &Perm,
    term: &Term,
    patterns: &mut Patterns,
    terms: &mut CellTerms,
) -> Result<(), Memory>
    requires { IsTermOf (length system.now.equations) term.now }
    ensures grows { OnOk result (Extends patterns.old patterns.new) }
    ensures terms { OnOk result ((before : List (List (Literal Question))) → AreTermsOf (length root.now) patterns.old terms.old before → AreTermsOf (length root.now) patterns.new terms.new (before ++ map (literals 0) (names_of_root system.now root.now (term.now ∷ [])))) }
{
    match term {
        Term::Point => Ok(()),
        Term::Node {
            root: other,
            children,
        } => {
            if other == root {
                terms.push(term_of(alloc, system, children, patterns)?)?;
            }
            Ok(())
        }
    }
}

// What the terms of an equation ask that have this root.
pub fn terms_of(
    alloc: Global,
    system: &System,
    equation: &Equation,
    root: &Perm,
    patterns: &mut Patterns,
) -> Result<CellTerms, Memory>
    requires { (t : Term) → In t equation.now.terms → IsTermOf (length system.now.equations) t }
    ensures grows { OnOk result (Extends patterns.old patterns.new) }
    ensures terms { IfOk result (λ terms. AreTermsOf (length root.now) patterns.new terms (map (literals 0) (names_of_root system.now root.now equation.now.terms))) }
{
    let mut terms = CellTerms::empty(alloc);
    for term in equation.terms.as_slice() {
        push_term(alloc, system, root, term, patterns, &mut terms)?;
    }
    Ok(terms)
}

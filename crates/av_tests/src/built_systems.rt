// Canonical systems that are known.
ghost use Rattle.std.specs.Prelude.{◌≡◌, ◌≤◌, true, IfOk};
ghost use Rattle.std.specs.List.{list_all, list_any};
ghost use Rattle.av_perm.specs.Contain.{contains};
ghost use Rattle.av_perm.specs.Class.{minimal, top};
ghost use Rattle.av_build.specs.Laws.{Covers};

use crate::system_parts::{
    NAMES_OF_132, NameRow, TERMS_OF_132, children_of, is_same_system, name_of, system_of,
};
use crate::words::{TEN, THREE, are_roots, are_short, word_of, words_of};
use av_build::{Built, MAX_SIZE, build, build_from, generates};
use av_match::{contains, maximal, minimal};
use av_perm::{Perm, Words};
use av_sys::{Name, Sign, System, Term};
use std::alloc::Global;
use std::test::Fail;

// The words of a text that contain no other of them.
#[tactic(auto, using(av_perm::proofs::MinimalWords::minimal_again))]
fn basis_of(alloc: Global, text: &str) -> Result<Words, Fail>
    ensures { IfOk result (λ basis. minimal basis ≡ basis) }
{
    let all = words_of(alloc, text)?;
    Ok(minimal(alloc, &all)?)
}

// The words of a text, but for the word 1, that no other of them contains.
#[tactic(auto, using(av_perm::proofs::TopWords::top_again))]
fn required(alloc: Global, text: &str) -> Result<Words, Fail>
    ensures { IfOk result (λ require. top require ≡ require) }
{
    let all = words_of(alloc, text)?;
    Ok(maximal(alloc, &all)?)
}

// What is built for the words of three texts, where they are of the lengths that `build` takes, and the roots are simple.
fn built(
    alloc: Global,
    basis: &str,
    require: &str,
    roots: &str,
    limit: usize,
) -> Result<Built, Fail>
    requires some { 1 ≤ limit }
    requires few { limit ≤ MAX_SIZE }
{
    let basis = basis_of(alloc, basis)?;
    let require = required(alloc, require)?;
    let roots = words_of(alloc, roots)?;
    if !are_short(&basis) || !are_short(&require) || !are_roots(&roots) {
        return Err(Fail::new("words that can't be built with"));
    }
    Ok(build(alloc, &basis, &require, &roots, limit)?)
}

// Whether the word contains one of the list.
fn contains_some(word: &Perm, words: &Words) -> bool
    ensures { result ≡ list_any (contains word.now) words.now }
{
    words.as_slice().iter().any(|other| contains(word, other))
}

// Whether each word of the basis contains an avoided one.
fn are_covered(basis: &Words, avoid: &Words) -> bool
    ensures { result ≡ list_all (λ b. list_any (contains b) avoid.now) basis.now }
{
    basis
        .as_slice()
        .iter()
        .all(|word| contains_some(word, avoid))
}

// The same, for what it tells.
fn covers(basis: &Words, avoid: &Words) -> bool
    ensures { result ≡ true → Covers basis.now avoid.now }
{
    are_covered(basis, avoid)
}

// What is built from a name over a basis, where that covers the basis and its words are of the lengths that `build_from` takes.
fn built_from(
    alloc: Global,
    basis: &str,
    avoid: &str,
    require: &str,
    limit: usize,
) -> Result<Option<Built>, Fail>
    requires some { 1 ≤ limit }
    requires few { limit ≤ MAX_SIZE }
{
    let basis = words_of(alloc, basis)?;
    let name = Name {
        sign: Sign::P,
        avoid: words_of(alloc, avoid)?,
        require: required(alloc, require)?,
    };
    if !are_short(&name.avoid) || !are_short(&name.require) || !covers(&basis, &name.avoid) {
        return Ok(None);
    }
    Ok(Some(build_from(alloc, &basis, &name, &Words::empty(alloc), limit)?))
}

// Whether equation 0 of the system that is built from a name generates something, where there is such a system.
fn is_alive(alloc: Global, basis: &str, avoid: &str, require: &str) -> Result<Option<bool>, Fail> {
    match built_from(alloc, basis, avoid, require, MAX_SIZE)? {
        Some(Built::Done(system)) => Ok(Some(generates(alloc, &system, 0)?)),
        _ => Ok(None),
    }
}

// The system that is built.
fn system(
    alloc: Global,
    basis: &str,
    require: &str,
    roots: &str,
    limit: usize,
) -> Result<System, Fail>
    requires some { 1 ≤ limit }
    requires few { limit ≤ MAX_SIZE }
{
    match built(alloc, basis, require, roots, limit)? {
        Built::Done(system) => Ok(system),
        Built::TooLarge => Err(Fail::new("a system that is too large")),
    }
}

// Whether the equation has this name, and so many terms.
fn has_name(
    alloc: Global,
    system: &System,
    i: usize,
    name: NameRow,
    terms: usize,
) -> Result<bool, Fail> {
    let (sign, avoid, require) = name;
    let name = name_of(alloc, sign, avoid, require)?;
    Ok(
        i < system.equations.len()
            && system.equations.get(i).name == name
            && system.equations.get(i).terms.len() == terms,
    )
}

// Whether the term of the equation has this root and these children.
fn is_node(
    alloc: Global,
    system: &System,
    i: usize,
    term: usize,
    root: &str,
    digits: &str,
) -> Result<bool, Fail> {
    let (root, numbers) = (word_of(alloc, root)?, children_of(alloc, digits)?);
    if i >= system.equations.len() || term >= system.equations.get(i).terms.len() {
        return Ok(false);
    }
    match system.equations.get(i).terms.get(term) {
        Term::Point => Ok(false),
        Term::Node {
            root: found,
            children,
        } => Ok(*found == root && children.as_slice() == numbers.as_slice()),
    }
}

// The number of all terms.
fn count_terms(system: &System) -> usize {
    let mut count: usize = 0;
    for equation in system.equations.as_slice() {
        count = count.saturating_add(equation.terms.len());
    }
    count
}

#[test]
fn the_words_that_avoid_132(rt: HostRuntime) -> Result<(), Fail> {
    let system = system(rt.alloc(), "132", "", "", 15)?;
    let wanted = system_of(rt.alloc(), &NAMES_OF_132, &TERMS_OF_132)?;
    assert!(rt; is_same_system(&system, &wanted));
    Ok(())
}

#[test]
fn a_system_that_is_too_large(rt: HostRuntime) -> Result<(), Fail> {
    assert!(rt; matches!(built(rt.alloc(), "132", "", "", 14)?, Built::TooLarge));
    Ok(())
}

#[test]
fn a_name_that_requires(rt: HostRuntime) -> Result<(), Fail> {
    let system = system(rt.alloc(), THREE, "", "", MAX_SIZE)?;
    assert_eq!(rt; system.equations.len(), 5);
    assert_eq!(rt; count_terms(&system), 11);
    assert!(rt; has_name(rt.alloc(), &system, 2, (Sign::P, THREE, "21"), 1)?);
    assert!(rt; is_node(rt.alloc(), &system, 2, 0, "21", "40")?);
    Ok(())
}

#[test]
fn the_words_that_avoid_132_and_contain_21(rt: HostRuntime) -> Result<(), Fail> {
    let system = system(rt.alloc(), "132", "1 21", "", MAX_SIZE)?;
    assert_eq!(rt; system.equations.len(), 7);
    assert_eq!(rt; count_terms(&system), 13);
    assert!(rt; has_name(rt.alloc(), &system, 0, (Sign::C, "132", "21"), 2)?);
    assert!(rt; is_node(rt.alloc(), &system, 0, 1, "21", "34")?);
    assert!(rt; has_name(rt.alloc(), &system, 4, (Sign::C, "132", ""), 3)?);
    Ok(())
}

#[test]
fn a_required_word_that_the_class_lacks(rt: HostRuntime) -> Result<(), Fail> {
    let system = system(rt.alloc(), "21", "321", "", MAX_SIZE)?;
    let wanted = system_of(rt.alloc(), &[(Sign::C, "21", "321")], &[])?;
    assert!(rt; is_same_system(&system, &wanted));
    Ok(())
}

#[test]
fn no_word_avoids_1(rt: HostRuntime) -> Result<(), Fail> {
    let system = system(rt.alloc(), "1", "", "", MAX_SIZE)?;
    let wanted = system_of(rt.alloc(), &[(Sign::C, "1", "")], &[])?;
    assert!(rt; is_same_system(&system, &wanted));
    Ok(())
}

#[test]
fn the_words_that_avoid_12(rt: HostRuntime) -> Result<(), Fail> {
    let system = system(rt.alloc(), "12", "", "", MAX_SIZE)?;
    let names = [(Sign::C, "12", ""), (Sign::M, "12", "")];
    let terms = [(0, "", ""), (0, "21", "10"), (1, "", "")];
    assert!(rt; is_same_system(&system, &system_of(rt.alloc(), &names, &terms)?));
    Ok(())
}

#[test]
fn names_of_no_word(rt: HostRuntime) -> Result<(), Fail> {
    // Of the sum-indecomposable words that avoid 21 there is only the word 1.
    assert!(rt; is_alive(rt.alloc(), "21", "21", "")? == Some(true));
    assert!(rt; is_alive(rt.alloc(), "21", "21", "12")? == Some(false));
    assert!(rt; is_alive(rt.alloc(), "21", "21 123", "12")? == Some(false));
    assert!(rt; is_alive(rt.alloc(), "21", "12", "")?.is_none());
    Ok(())
}

#[test]
fn a_name_with_a_limit(rt: HostRuntime) -> Result<(), Fail> {
    assert!(rt;
        matches!(
            built_from(rt.alloc(), "132", "132", "", 1)?,
            Some(Built::TooLarge)
        )
    );
    assert!(rt;
        matches!(
            built_from(rt.alloc(), "132", "132", "", 15)?,
            Some(Built::Done(_))
        )
    );
    Ok(())
}

#[test]
fn two_simple_roots(rt: HostRuntime) -> Result<(), Fail> {
    let system = system(rt.alloc(), TEN, "", "2413 3142", MAX_SIZE)?;
    assert_eq!(rt; system.equations.len(), 3);
    assert_eq!(rt; count_terms(&system), 13);
    assert!(rt; is_node(rt.alloc(), &system, 0, 3, "2413", "0000")?);
    Ok(())
}

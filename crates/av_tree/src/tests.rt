// Tops that are known.
use crate::tops::find_top;
use av_perm::{Memory, Perm, Words};
use av_sys::{Children, Equation, EquationNumber, Equations, Name, Sign, System, Term, Terms};
use std::alloc::Global;
use std::process::Abort;
use std::test::Fail;

// The word with these entries.
fn word(rt: &impl Abort, entries: &[u8]) -> Perm {
    Perm::from_entries(entries).expect(rt, "a word")
}

// A point.
fn point(alloc: Global) -> Result<Terms, Memory> {
    let mut terms = Terms::empty(alloc);
    terms.push(Term::Point)?;
    Ok(terms)
}

// An equation of the words that avoid these.
fn avoiding(alloc: Global, words: &[&Perm], terms: Terms) -> Result<Equation, Memory> {
    let mut avoid = Words::empty(alloc);
    for word in words {
        avoid.push(word.copy())?;
    }
    let name = Name {
        sign: Sign::C,
        avoid,
        require: Words::empty(alloc),
    };
    Ok(Equation { name, terms })
}

// The increasing words: each is the word 1, or a sum of one of them and the word 1.
fn increasing(alloc: Global, rise: &Perm, fall: &Perm) -> Result<System, Memory> {
    let mut children = Children::empty(alloc);
    children.push(EquationNumber(0))?;
    children.push(EquationNumber(1))?;
    let mut all = point(alloc)?;
    all.push(Term::Node {
        root: rise.copy(),
        children,
    })?;
    let mut equations = Equations::empty(alloc);
    equations.push(avoiding(alloc, &[fall], all)?)?;
    equations.push(avoiding(alloc, &[rise, fall], point(alloc)?)?)?;
    Ok(System { equations })
}

#[test]
fn a_word_may_be_cut_at_a_later_cut_than_its_first(rt: HostRuntime) -> Result<(), Fail> {
    let system = increasing(rt.alloc(), &word(&rt, &[1, 2]), &word(&rt, &[2, 1]))?;
    let four = word(&rt, &[1, 2, 3, 4]);
    if system.check() && four.len() == 4 {
        let Some(top) = find_top(&system, 0, &four, &Words::empty(rt.alloc())) else {
            return Err(Fail::new("no top"));
        };
        assert_eq!(rt; top.term, 1);
        let blocks = top.blocks.as_slice();
        assert!(rt; blocks.len() == 2 && *blocks[0].word() == word(&rt, &[1, 2, 3]));
    } else {
        assert!(rt; false);
    }
    Ok(())
}

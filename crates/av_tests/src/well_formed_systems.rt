// Constraints, lists and systems that are known.
use crate::system_parts::{TermRow, are_numbers, children_of, name_of, node, terms_of};
use crate::words::{word, word_of, words_of};
use av_perm::{Memory, Perm, Words, is_simple};
use av_sys::{Children, Constraint, Equation, Equations, Name, Sign, System, Term, Terms};
use std::alloc::Global;
use std::test::Fail;

#[test]
fn a_copy_is_equal(rt: HostRuntime) -> Result<(), Fail> {
    let first = Constraint {
        avoid: words_of(rt.alloc(), "1")?,
        require: Words::empty(rt.alloc()),
    };
    let copy = first.copy(rt.alloc())?;
    assert!(rt; copy == first);
    assert_eq!(rt; copy.avoid.len(), 1);
    assert_eq!(rt; copy.require.len(), 0);
    Ok(())
}

// The name of the words that aren't sums, avoid 132 and contain 1.
fn name(alloc: Global) -> Result<Name, Fail> {
    name_of(alloc, Sign::P, "132", "1")
}

#[test]
fn a_copy_of_a_name_is_equal(rt: HostRuntime) -> Result<(), Fail> {
    let first = name(rt.alloc())?;
    let copy = first.copy(rt.alloc())?;
    assert!(rt; copy == first);
    assert!(rt; copy.sign == Sign::P);
    assert!(rt; copy.avoid.as_slice() == [word(&rt, &[1, 3, 2])].as_slice());
    assert!(rt; copy.require.as_slice() == [Perm::one()].as_slice());
    Ok(())
}

// The point in each of two equations.
static POINTS: [TermRow; 2] = [(0, "", ""), (1, "", "")];

// Two equations of that name: a point and the inflations of the root, and a point.
fn system(alloc: Global, root: Perm, digits: &str) -> Result<System, Fail> {
    let mut terms = terms_of(alloc, 0, &POINTS)?;
    terms.push(node(alloc, root, digits)?)?;
    let mut equations = Equations::empty(alloc);
    equations.push(Equation {
        name: name(alloc)?,
        terms,
    })?;
    equations.push(Equation {
        name: name(alloc)?,
        terms: terms_of(alloc, 1, &POINTS)?,
    })?;
    Ok(System { equations })
}

#[test]
fn a_list_of_children(rt: HostRuntime) -> Result<(), Memory> {
    assert_eq!(rt; Children::empty(rt.alloc()).len(), 0);
    let children = children_of(rt.alloc(), "10")?;
    assert!(rt; are_numbers(&children, &[1, 0]));
    if children.len() == 2 {
        assert_eq!(rt; children.equation(0), 1);
        assert_eq!(rt; children.equation(1), 0);
    } else {
        assert!(rt; false);
    }
    Ok(())
}

#[test]
fn a_list_of_terms(rt: HostRuntime) -> Result<(), Fail> {
    assert_eq!(rt; Terms::empty(rt.alloc()).len(), 0);
    let terms = terms_of(rt.alloc(), 0, &[(0, "", ""), (0, "21", "10")])?;
    if terms.len() != 2 {
        return Err(Fail::new("not two terms"));
    }
    assert!(rt; matches!(terms.get(0), Term::Point));
    match terms.get(1) {
        Term::Node { root, children } => {
            assert!(rt; *root == word(&rt, &[2, 1]));
            assert!(rt; are_numbers(children, &[1, 0]));
        }
        Term::Point => assert!(rt; false),
    }
    Ok(())
}

#[test]
fn a_list_of_equations(rt: HostRuntime) -> Result<(), Fail> {
    assert_eq!(rt; Equations::empty(rt.alloc()).len(), 0);
    let system = system(rt.alloc(), word(&rt, &[2, 1]), "10")?;
    if system.equations.len() != 2 {
        return Err(Fail::new("not two equations"));
    }
    assert_eq!(rt; system.equations.get(0).terms.len(), 2);
    assert_eq!(rt; system.equations.get(1).terms.len(), 1);
    assert!(rt; system.equations.get(1).name == name(rt.alloc())?);
    Ok(())
}

#[test]
fn systems_that_are_well_formed(rt: HostRuntime) -> Result<(), Fail> {
    assert!(rt; system(rt.alloc(), word(&rt, &[2, 1]), "10")?.check());
    let long = word(&rt, &[2, 4, 6, 8, 10, 1, 3, 5, 7, 9]);
    assert!(rt; system(rt.alloc(), long, "0111111110")?.check());
    Ok(())
}

// Roots and children that make no term: a root that is neither 12, 21 nor simple, a child too few or too many, and a child that
// is no equation's number.
static FAULTY: [(&str, &str); 5] = [
    ("123", "111"),
    ("1", "1"),
    ("21", "1"),
    ("21", "101"),
    ("21", "12"),
];

#[test]
fn systems_that_are_not(rt: HostRuntime) -> Result<(), Fail> {
    let none = System {
        equations: Equations::empty(rt.alloc()),
    };
    assert!(rt; !none.check());
    for (root, digits) in &FAULTY {
        let root = word_of(rt.alloc(), root)?;
        assert!(rt; !system(rt.alloc(), root, digits)?.check(), "{digits}");
    }
    // a simple root of eleven entries
    let long = word(&rt, &[2, 4, 6, 8, 10, 1, 11, 3, 5, 7, 9]);
    assert!(rt; is_simple(&long));
    assert!(rt; !system(rt.alloc(), long, "11111111111")?.check());
    Ok(())
}

// Systems from tables, and what is compared of them.
use crate::words::{word_of, words_of};
use av_perm::{Memory, Perm};
use av_sys::{Children, Equation, EquationNumber, Equations, Name, Sign, System, Term, Terms};
use std::alloc::Global;
use std::test::Fail;

/// The name of an equation: its sign, and the words that it avoids and those that it requires.
pub type NameRow = (Sign, &'static str, &'static str);

/// A term: the number of its equation, its root, and the numbers of its children's equations as digits; without a root the point.
pub type TermRow = (usize, &'static str, &'static str);

/// The system of the words that avoid 132.
pub static NAMES_OF_132: [NameRow; 5] = [
    (Sign::C, "132", ""),
    (Sign::P, "132", ""),
    (Sign::C, "21", ""),
    (Sign::M, "132", ""),
    (Sign::P, "21", ""),
];

pub static TERMS_OF_132: [TermRow; 10] = [
    (0, "", ""),
    (0, "12", "12"),
    (0, "21", "30"),
    (1, "", ""),
    (1, "21", "30"),
    (2, "", ""),
    (2, "12", "42"),
    (3, "", ""),
    (3, "12", "12"),
    (4, "", ""),
];

/// The name with this sign that avoids and requires the words of two texts.
pub fn name_of(alloc: Global, sign: Sign, avoid: &str, require: &str) -> Result<Name, Fail> {
    Ok(Name {
        sign,
        avoid: words_of(alloc, avoid)?,
        require: words_of(alloc, require)?,
    })
}

/// The numbers with these digits.
pub fn children_of(alloc: Global, digits: &str) -> Result<Children, Memory> {
    let mut children = Children::empty(alloc);
    for digit in digits.as_bytes() {
        children.push(EquationNumber(digit.saturating_sub(b'0') as u32))?;
    }
    Ok(children)
}

/// Whether these are the numbers of the children's equations.
pub fn are_numbers(children: &Children, numbers: &[u32]) -> bool {
    let mut pairs = children.as_slice().iter().zip(numbers);
    children.len() == numbers.len() && pairs.all(|(child, number)| child.0 == *number)
}

/// The inflations of the root by words of the equations with these digits.
pub fn node(alloc: Global, root: Perm, digits: &str) -> Result<Term, Memory> {
    Ok(Term::Node {
        root,
        children: children_of(alloc, digits)?,
    })
}

/// The terms of an equation.
pub fn terms_of(alloc: Global, i: usize, rows: &[TermRow]) -> Result<Terms, Fail> {
    let mut terms = Terms::empty(alloc);
    for (equation, root, digits) in rows {
        if *equation == i {
            let term = if root.is_empty() {
                Term::Point
            } else {
                node(alloc, word_of(alloc, root)?, digits)?
            };
            terms.push(term)?;
        }
    }
    Ok(terms)
}

/// The system with these names and terms.
pub fn system_of(alloc: Global, names: &[NameRow], rows: &[TermRow]) -> Result<System, Fail> {
    let mut equations = Equations::empty(alloc);
    for (i, (sign, avoid, require)) in names.iter().enumerate() {
        equations.push(Equation {
            name: name_of(alloc, *sign, avoid, require)?,
            terms: terms_of(alloc, i, rows)?,
        })?;
    }
    Ok(System { equations })
}

/// One equation: a point, 12 or 21 of two of its trees.
pub fn binary(alloc: Global) -> Result<System, Fail> {
    system_of(
        alloc,
        &[(Sign::C, "", "")],
        &[(0, "", ""), (0, "12", "00"), (0, "21", "00")],
    )
}

// Whether two terms are equal.
fn is_same_term(one: &Term, other: &Term) -> bool {
    match one {
        Term::Point => matches!(other, Term::Point),
        Term::Node { root, children } => match other {
            Term::Point => false,
            Term::Node {
                root: other_root,
                children: other_children,
            } => *root == *other_root && children.as_slice() == other_children.as_slice(),
        },
    }
}

// Whether two lists of terms are equal.
fn are_same_terms(one: &Terms, other: &Terms) -> bool {
    for i in 0..one.len() {
        if i >= other.len() || !is_same_term(one.get(i), other.get(i)) {
            return false;
        }
    }
    one.len() == other.len()
}

/// Whether two systems are equal.
pub fn is_same_system(one: &System, other: &System) -> bool {
    for i in 0..one.equations.len() {
        if i >= other.equations.len() {
            return false;
        }
        let (first, second) = (one.equations.get(i), other.equations.get(i));
        if first.name != second.name || !are_same_terms(&first.terms, &second.terms) {
            return false;
        }
    }
    one.equations.len() == other.equations.len()
}
